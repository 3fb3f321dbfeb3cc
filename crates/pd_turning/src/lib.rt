//! Wires at a box of a running patch that are taken out while it becomes another one, and come back where they were.
//!
//! A wire at such a box that fits it before and after, but becomes a signal wire or ceases to be one, can't stay in its place meanwhile. `reserve_back`
//! sets room aside for these wires, and alone can fail: whatever it answers, all that the patch tells stays. `note_wires` notes for each of them along which
//! line it leads and before which wire it stands in its fan-out. Once they were taken out (`loosen_wires` of `pd_misfits`) and the box has become the
//! other one, `put_back` puts them in again, each at its place in its fan-out and among the feeds of its inlet, with the mend that the order of the
//! canvas needs (`PutsBack`). It takes no memory and can't fail, and all else of the patch stays.
//!
//! Laws: the wires that turn are in the order in which they are noted (`turning_wires_follow_fans`), and the same ones turn where those that don't
//! fit are gone (`misfits_leave_what_turns`). Once they went and the box became another one, they can come back (`turning_wires_can_return`), for which
//! room lasts (`back_room_lasts`). Where they came back, each canvas has the wires that it had (`canvases_have_their_wires`).
//!
//! By no clause: how much is looked at. For a wire that is noted it is the next one of its fan-out; where room is set aside, the list is gone through
//! once for each box at which its wires end in turn.
//!
//! Free: want of memory in `reserve_back`; the keys of the wires that come back.
//!
//! Definitions: `Notes` (where wires stand), `Returns` (wires that come back), `Room`.
#![tactic(auto)]

mod laws;
mod noting;
mod reserving;
mod returning;

pub use laws::{
    back_room_lasts, canvases_have_their_wires, misfits_leave_what_turns, turning_wires_can_return,
    turning_wires_follow_fans,
};
pub use noting::{NotedWire, note_wires};
pub use reserving::reserve_back;
pub use returning::put_back;
