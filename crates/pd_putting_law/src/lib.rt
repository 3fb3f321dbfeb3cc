//! Laws of a box that comes into a canvas of a running patch, at any number. Nothing runs here.
//!
//! The document that is saved has then the element of the box at that number of that canvas, higher numbers are up by one,
//! and it is else as it was (`documents_follow_boxes`); the tree that stands has the box there, also with what boxes keep and
//! with the wires that there are (`trees_follow_boxes`). A box that comes last is told apart, as edits put it: no other box gets
//! another number. A new box is saved as the element from which it grew, with what it keeps of it
//! (`new_boxes_are_saved`): that is the same element, but for a toggle whose text is whole and has another value than it
//! keeps at first, as 0 for its other value.
//!
//! A tree that stands need not be the one that grew when the patch opened: as long as it grows again from its own document
//! (`StandsAgain`), so does the tree as it stands from the document that is saved, and so does the tree with a box more that
//! grew in its canvas (`standing_trees_grow_again`). All this joined is the law of an element that comes (`elements_come`), and of
//! an edit that puts a box (`edits_put_boxes`).
//! The wires of all boxes that were there stay: of a box that is a port of the box around, the wires that move with
//! the ports are changed apart, by `documents_follow_wires` of `pd_reload_law`.
//!
//! Definitions: `Putting` (what changes, and what is saved of a new box), `Puts` (a tree with boxes more), `Again`, `Edits`.
#![tactic(auto)]

mod laws;

pub use laws::{
    documents_follow_boxes, edits_put_boxes, elements_come, new_boxes_are_saved,
    standing_trees_grow_again, trees_follow_boxes,
};
