//! Laws of edits that delete boxes of a running patch. Nothing runs here.
//!
//! Where an edit deleted a box, it went from the canvas to which the path leads with all that lay in it, and of the wires of the other
//! boxes those to it (`deletes_take_boxes`); so the document of the patch is the one after the edit. Where the box was a port of the box
//! around, also the wires at that port are gone from it, and those at further ports lead to the ports before (`documents_follow_edits`). The
//! tree that stood stands with the box less: it grows again from its own document, its `$0` numbers are some of those that it had, its
//! wires hold and fit, and each name has its owners (`boxes_go_from_trees`). The counts go on as those of the tree
//! (`counts_follow_deletes`). Its document is proper, and what a save writes of boxes can be written and read
//! (`shorter_documents_can_be_saved`).
#![tactic(auto)]

mod laws;

pub use laws::{
    boxes_go_from_trees, counts_follow_deletes, deletes_take_boxes, documents_follow_edits,
    shorter_documents_can_be_saved,
};
