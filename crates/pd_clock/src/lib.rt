//! Sampling rates, times, and the clocks that are set: which owner's clock is next, and when.
//!
//! A time is a whole number of units, of which there are as many in a nanosecond as samples in a second. The clocks
//! are the list in which they were set, at most one an owner. `set` takes an owner's clock away and puts the new
//! one last; `next_before` takes off and gives the first among those of the least time, and None exactly where none
//! is below the limit; `unset` and `drop_box` take an owner's clock away. `Rate` has the four rates and no other.
//!
//! Only `Clocks::new` and `Clocks::reserve_one` take memory: after `reserve_one` no call does. Inside is a heap of
//! times beside an index of owners, whose work is by no clause.
//!
//! Definitions: `Queue` (the list and what is taken off), `Rates`; `Slots`, `Kept` and `Index` are of the heap and
//! the index.
#![tactic(auto)]

mod clocks;
mod compaction;
mod slots;
mod times;

pub use clocks::Clocks;
pub use times::{Rate, Time};
