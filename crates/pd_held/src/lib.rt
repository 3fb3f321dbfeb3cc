//! What the signal objects but `vline~` do with a message: numbers held at signal inlets and stored at control
//! inlets.
//!
//! `hear_held` leaves exactly the state and the lines of the object's row, for every kind, state, inlet and message
//! whose selector is of the table. What is kept after it is like what was kept before it. No call takes memory.
//!
//! Definitions: `Stores` (what is held and stored where), `Slopes` (`line~`), `Rows`.
#![tactic(auto)]

mod rows;
mod slopes;
mod stores;

pub use rows::hear_held;
