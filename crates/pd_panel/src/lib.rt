//! `bng` and `tgl`: what each does with a message and when its document is loaded.
//!
//! `hear` leaves exactly the state and the sends of the object's row, for every kind, state and message, and the
//! names as they are; `load` says exactly what the row sends when the document is loaded. What is kept after a
//! message is like what was kept before it. Law: a toggle's values after a list of messages are the fold of its row
//! (`toggle_folds`). No call takes memory.
//!
//! Definitions: `Rows`, `Fold`.
#![tactic(auto)]

mod rows;
mod toggles;

pub use rows::{hear, load, toggle_folds};
