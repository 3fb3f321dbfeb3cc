//! A grown box without a canvas inside comes into a canvas of a running patch.
//!
//! `reserve_box` sets room aside for it, and alone can fail: whatever it answers, all that the patch tells stays
//! (`SameButRoom`). `put` then puts the box in, at a number of the canvas, in every layer (`IsPut`): in the tree under a new key,
//! with the ports of its kind and no wires, among the owners of the name that it owns, with its number, with silent blocks and
//! with room for a clock, and in the order of its canvas where it carries signals. It can't fail, and every other box and what it
//! keeps, every wire, clock and block, and the orders of the other canvases stay.
//!
//! Laws: a patch that runs goes on to be one, where the box is no port of a box around (`patches_run_on`), and where room was
//! set aside (`room_changes_nothing`). A port box in a canvas that a box holds gives that box a port, which isn't done here:
//! `put` asks that the box is none, and `put_apart`, which puts a box in but in no order, doesn't. What `put` asks of a patch, it asks of every patch that is alike but for what boxes keep, for
//! names, clocks and blocks, and after an edit of wires too (`putting_asks_alike`).
//!
//! Free: want of memory in `reserve_box`, and the key.
//!
//! Definitions: `Put` (what comes and what stays), `Room`, `Rows` (lists by key).
#![tactic(auto)]

mod ends;
mod laws;
mod putting;
mod reserving;
mod room;
mod rows;

pub use laws::{patches_run_on, putting_asks_alike, room_changes_nothing};
pub use putting::{put, put_apart};
pub use reserving::reserve_box;
pub use room::{Place, Room};
pub use rows::{Blocks, number_boxes, put_blocks, reach_numbers, reach_values, silent_blocks};
