//! Laws of a box that goes from a canvas of a running patch, with all that lies in it and its wires. Nothing runs here.
//!
//! The document that is saved is then the one after the edit that deletes the box: its element is gone, its wires are, and higher
//! numbers are down by one (`documents_follow_deletes`). The wires at the box may be there until then, or have gone before. The
//! tree that stands is the former one less the box, also with what boxes keep and with the wires that there are
//! (`trees_follow_deletes`), and it grows again from its own document (`trees_less_grow_again`).
//!
//! Of a box that is a port of the box around, the wires that move with the ports are changed apart, by `documents_follow_wires`
//! of `pd_reload_law`.
//!
//! Definitions: `Taking` (what goes and what stays), `Takes` (a tree with a box less).
#![tactic(auto)]

mod laws;

pub use laws::{documents_follow_deletes, trees_follow_deletes, trees_less_grow_again};
