//! The history of edits of a document, by which the last 100 are undone and made again.
//!
//! `inverse_of` gives, before an edit is made, the turns that take it back: the box that came, went or changed, then the
//! wires of its canvas, then those of the canvas around. A `History` keeps such lists: `keep` adds one, drops the oldest of
//! more than 100 and leaves nothing to make again; `undo` gives the last one with what takes it back in turn, and `undone`
//! moves the entry once that is made; `redo` and `redone` go the other way; `forget` takes all out. Only `new`,
//! `inverse_of`, `undo` and `redo` take memory.
//!
//! Laws: an edit and then the turns that take it back give the former document, number for number, whatever wires went at
//! its canvas and around it (`edits_are_taken_back`); turns of one canvas and of the wires around are taken back by their
//! inverse, which is of that form, and so is the inverse of that, which makes them again (`turns_are_taken_back`). Nothing
//! above uses it yet. Free: want of memory.
//!
//! Definitions: `Acts` (turns as contracts see them), `Inverses`, `Histories`; `Codes` and `Kept` help these.
#![tactic(auto)]

mod copies;
mod history;
mod inverses;
mod laws;
mod refusals;
mod turns;

pub use history::{History, Pair, redo, undo};
pub use inverses::inverse_of;
pub use laws::{edits_are_taken_back, entries_have_room, turns_are_taken_back};
pub use refusals::UndoRefusal;
pub use turns::Turns;
