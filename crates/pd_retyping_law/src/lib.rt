//! Laws of a box without a canvas that becomes another one in its place, in a canvas of a running patch, and of a subpatch that gets another text and
//! keeps what it holds. Nothing runs here.
//!
//! The document that is saved has then the element of the new box there, and is else as it was: it is the one after the edit
//! that gives the box another text (`documents_follow_retypes`). The tree that stands is the former one with the new box there,
//! also with what boxes keep and with the wires that there are (`trees_follow_retypes`); it has as many boxes
//! (`retyped_trees_count`), and grows again from its own document where the new box grew there by itself
//! (`retyped_trees_grow_again`). What a new box keeps at first leaves its element as it is, but for a toggle whose text is whole
//! and has another value than it keeps at first (`retyped_boxes_are_saved`). All this joined is the law of an edit that gives a box
//! another text (`edits_retype_boxes`).
//!
//! Definitions: `Retyping` (what becomes another box), `Retypes` (a tree with another box), `Edits`.
#![tactic(auto)]

mod laws;
mod renames;

pub use laws::{
    documents_follow_retypes, edits_retype_boxes, retyped_boxes_are_saved, retyped_trees_count,
    retyped_trees_grow_again, trees_follow_retypes,
};
pub use renames::{documents_follow_renames, renamed_trees_grow_again, trees_follow_renames};
