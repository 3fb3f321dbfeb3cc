//! One word over four crates of objects: what plain objects, lists, message boxes, and signal objects but `vline~`
//! do with a message, when their clock fires, and when they are resumed.
//!
//! `hear` leaves exactly the state, the names and the sends, deed and lines of the object's row, for every kind,
//! state and inlet and every message of at most 1,024 atoms of the table; `fire` is a clock's row and `resume` that
//! of `until`. `hear` asks that the lists of kind and state have at most 1,024 atoms and that their texts are of
//! the table, and gives that back. A box fulfils it when it is made (law `starts_small`). No call takes memory.
//!
//! Not said here: that sends name symbols of the table, which `pd_guards` says. The time of a message is measured:
//! `docs/BENCHMARKS.md`.
//!
//! Definitions: `Rows` (`heard`, `fired`, `resumed`, and what `hear` asks and keeps).
#![tactic(auto)]

mod laws;
mod rows;
mod sounding;

pub use laws::starts_small;
pub use rows::{fire, hear, resume};
