//! A grown box with an empty canvas inside comes into a canvas of a running patch.
//!
//! `reserve_shell` sets room aside for it, and alone can fail: whatever it answers, all that the patch tells stays
//! (`SameButRoom`). `put_shell` then puts the box in, at a number of the canvas, in every layer (`IsShellPut`): in the tree under a
//! new key, with its canvas under another, which lies one deeper and has its sheet and no boxes; without ports, wires and blocks;
//! among the owners of the name that it owns, with its number and with room for a clock; in the order of the canvas around, and
//! with an order of no boxes for its own. It can't fail, and every other box and what it keeps, every wire, clock and block, and the
//! orders of the other canvases stay. `add_shell` is the one after the other.
//!
//! Laws: a patch that runs goes on to be one, and is ready for more boxes (`shells_run_on`). What came is a part of the tree: one box that
//! holds a canvas without boxes (`shells_are_parts`). A canvas may lie in one to which a short enough path leads (`paths_are_depths`).
//!
//! Free: want of memory in `reserve_shell`, and the two keys.
//!
//! Definitions: `Grove` (the box and its canvas under keys), `Shell` (what comes and what stays).
#![tactic(auto)]

mod adding;
mod laws;
mod putting;
mod reserving;

pub use adding::add_shell;
pub use laws::{paths_are_depths, shells_are_parts, shells_run_on};
pub use putting::put_shell;
pub use reserving::reserve_shell;
