//! The arithmetic objects, from `+` to `clip`: what each does with a message.
//!
//! `hear` leaves exactly the state and the sends of the object's row, for every kind, state, inlet and message, and
//! the names as they are; an object whose state is of another kind hears nothing. What is kept after it is like
//! what was kept before it. `compute` is one operation of two numbers. No call takes memory. The time of a message
//! is measured: `docs/BENCHMARKS.md`.
//!
//! Definitions: `Operations` (what each computes), `Frequency` (`mtof`), `Rows`.
#![tactic(auto)]

mod frequencies;
mod operations;
mod pairs;
mod rows;

pub use pairs::{Binary, compute};
pub use rows::hear;
