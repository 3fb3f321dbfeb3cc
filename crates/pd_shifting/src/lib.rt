//! An edit that moves a box of a canvas of the patch's own document, made on the running patch.
//!
//! `move_box` gives the box of a number in the canvas at a path another place in its window (`MovesBox`). It moves boxes of every kind but arrays, which no
//! edit moves. All else of the patch stays: what the box keeps, wires, clocks, names, orders, numbers and blocks (`Shifts`). But where it is a port of the box
//! around, the ports of that are then those that the canvas has, from left to right, and their wires go with them (`ShiftsPort`); it is told in which canvas
//! they lie, where the number of the port changed. For that alone room is set aside, before anything changes. A refused edit leaves the patch as it was, but
//! that there may be more room where memory was wanting (`IsNotMoved`).
//!
//! Free: want of memory in `move_box`, for a port of a box around.
//!
//! Definitions: `Moves` (which box moves, and why none does).
#![tactic(auto)]

mod asking;
mod shifting;
mod sliding;

pub use shifting::{MovedBox, move_box};
