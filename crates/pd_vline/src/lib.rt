//! `vline~`: ramps that start at times of their own, inside a block.
//!
//! A `vline~` stands for the list of all ramps that its messages made: a ramp begins at the value that the older
//! ones have at its start, a new one takes away those that start at its start or later, and one that would leave
//! more than 256 to come is told and not added. It keeps the ramps since its last block and a base in place of the
//! others.
//!
//! A new box stands for no ramps (`fresh_stands`); for every list for which a box stands, `hear` leaves a box that
//! stands for the list with the message's ramp, or for the list itself, and `run` gives the list's value at each of
//! the block's 64 samples and leaves a box that stands for it still. So, call by call, each sample is that of all
//! messages since the box was made. Besides, each gives exactly what the row says of what is kept. `hear` and `run`
//! ask that time doesn't go back and is at most 2^101 units. No call takes memory.
//!
//! Definitions: `Ramps` (a ramp's value, lists of ramps, for which list a box stands), `Values`, `Rows`, `Taken`.
#![tactic(auto)]

mod passing;
mod rows;
mod running;
mod stores;
mod values;

pub use rows::hear;
pub use running::{fresh_stands, run};
