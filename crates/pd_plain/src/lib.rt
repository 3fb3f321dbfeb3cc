//! The plain control objects: those that keep a value, pass a message on, count time, draw numbers, or reach a
//! table.
//!
//! `hear_plain` leaves exactly the state and the sends, deed and lines of the object's row, for every kind, state
//! and inlet and every message of at most 1,024 atoms whose selector is of the table; an object whose state is of
//! another kind hears nothing. It asks that the text of a number box or a symbol box is of the table, and that a
//! table has fewer than 2^32 values. `fire_plain` is a clock's row, and `resume_plain` that of `until`. What is
//! kept after it is like what was kept before it, so it stays of its kind. No call takes memory.
//!
//! Definitions: `Values` (`float` to `send`), `Timed` (`until` to `tabwrite`), `Rows` (which object has which row).
#![tactic(auto)]

mod boxes;
mod clocked;
mod numbers;
mod rows;
mod tables;
mod timed;
mod values;

pub use rows::{fire_plain, hear_plain, resume_plain};
