//! The wires of a grown patch that fit, counted before its boxes have keys, so that a patch with too many is
//! refused before anything is planted.
//!
//! `has_too_many_wires` tells exactly whether more than 65,536 do. It goes over the list once, from the last box to
//! the first. `wires_in` gives how many wires fit of the canvases that grown boxes hold, and 65,537 where there are
//! more. Free: want of memory.
//!
//! Definitions: `Fitting` (how many wires of a tree fit), `Seeing`, `Stacking`.
#![tactic(auto)]

mod boxes;
mod counting;
mod ports;
mod wires;

pub use counting::{MOST_WIRES, has_too_many_wires, wires_in};
