//! Laws of the document that a running patch saves: it is proper, whatever messages and blocks made of what its boxes keep, so that its text reads
//! back as it is. Nothing runs here.
//!
//! As long as what each box keeps is of its kind, what a save writes of it is its own (`what_boxes_keep_is_theirs`). The texts of message boxes
//! are settled at first (`message_boxes_begin_settled`). Where contents are those of `pd_contents_law` and in order, they can be written and
//! read again (`contents_save_well`). Then the document is proper, where the one that grew was, the wires fit, and there are no more of them in
//! it than a document may have (`saved_documents_are_proper_now`).
//!
//! Definitions: `Saves` (the boxes of the document, and what of their contents can be written and read again).
#![tactic(auto)]

mod laws;

pub use laws::{
    contents_save_well, message_boxes_begin_settled, saved_documents_are_proper_now,
    what_boxes_keep_is_theirs,
};
