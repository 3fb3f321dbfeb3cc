//! The edits that canvases are asked for by messages, until they are made: a list in room that is taken once.
//!
//! `verb_of` is the verb of a selector; `ask` adds an edit where the arguments are the verb's and there is room, at
//! most 256 edits in an event, and says which it isn't (it asks for at most 1,024 atoms and a path of at most 255
//! numbers); `get` lends the i-th edit and `copy` makes one of its own; `wire_edit` is what an edit is to a wire, if
//! it is one of wires. Only `new` and `copy` take memory.
//!
//! Definitions: `Asking` (verbs, and the edit that a message asks for), `Queue`, `Entries`.
#![tactic(auto)]

mod asking;
mod entries;
mod queue;

pub use asking::{BoxVerb, Verb, verb_of};
pub use entries::QueuedEdit;
pub use queue::{Asked, EditQueue};
