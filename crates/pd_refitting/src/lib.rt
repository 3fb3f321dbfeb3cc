//! A box without a canvas inside becomes another one in its place in a running patch, and its wires stay.
//!
//! `reserve_refit` sets room aside for it, and alone can fail: whatever it answers, all that the patch tells stays (`SameButRoom`).
//! `refit` then makes the box of a key that of a seed in every layer (`IsRefitted`): in the tree, where it keeps its key, its canvas and its
//! number, with the ports of its kind, among the owners of the name that it owns and no more among those of the name that the old one owned,
//! with silent blocks and without a clock. Each wire stays under its key at the ports of its numbers. The order of its canvas has the new box
//! where that carries signals: where the old one did too, the order stays, else the box comes to its place with 8 looks at signal wires at
//! most (`refit_looks`). It can't fail and takes no memory. All other ports, all wires, the orders of the other canvases, every other box and
//! what it keeps, every other clock and block stay.
//!
//! It asks that each wire at the box fits the new one, and is a signal wire just where it was one (`TakesWires`), and that neither box is a
//! port of a box around (`CanRefit`). Which other ports the two have doesn't matter.
//!
//! Laws: a patch that runs goes on to be one, ready for boxes that come, go or become others (`patches_run_on_refitted`), also where room
//! was set aside (`refit_room_changes_nothing`); boxes and canvases lie in one another as they did (`refits_change_boxes`).
//!
//! Free: want of memory in `reserve_refit`.
//!
//! Definitions: `Refits` (what becomes another, and what stays), `Room`.
#![tactic(auto)]

mod laws;
mod ordering;
mod refitting;
mod reserving;
mod room;

pub use laws::{patches_run_on_refitted, refit_room_changes_nothing, refits_change_boxes};
pub use refitting::refit;
pub use reserving::reserve_refit;
pub use room::RefitRoom;
