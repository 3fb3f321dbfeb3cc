//! Laws of a tree in which a box stands at another place. Nothing runs here.
//!
//! Where an edit moved a box, the document of the patch is the one after the edit, with the wires around at their ports where the box is a port
//! of the box around (`documents_follow_moves`). The tree that stood stands with the box at its place, and counts as before
//! (`trees_follow_moves`). Each name has its owners (`names_follow_moves`).
//!
//! Definitions: `Shifts` (a tree with a box at another place), `Ports` (a page with the wires around).
#![tactic(auto)]

mod laws;

pub use laws::{documents_follow_moves, names_follow_moves, trees_follow_moves};
