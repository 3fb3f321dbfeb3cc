//! The clocks of boxes: each box below a number has room for one.
//!
//! They are the clocks of `pd_clock` for owners below a number, each of which has its room from the start: `set`
//! puts an owner's clock last, in place of the one that it has; `clear` and `next_before` are those of `pd_clock`.
//! None of them takes memory or fails; `new` and `reach`, which gives every owner below a number its room and leaves
//! the clocks, do where memory is short.
//!
//! Definitions: `Room`; the clocks themselves are `pd_clock`'s.
#![tactic(auto)]

mod timers;

pub use timers::Timers;
