//! Laws of edits that move boxes of a running patch. Nothing runs here.
//!
//! Where an edit moved a box, the wires are those that there were (`wires_follow_moves`), and a patch that runs goes on to be one
//! (`patches_run_on_moved`). The tree with the box at its place grows again from its own document (`moved_trees_grow_again`), which can be
//! saved (`moved_documents_can_be_saved`).
#![tactic(auto)]

mod laws;

pub use laws::{
    moved_documents_can_be_saved, moved_trees_grow_again, patches_run_on_moved, wires_follow_moves,
};
