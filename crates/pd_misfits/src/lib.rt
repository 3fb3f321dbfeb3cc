//! The wires at a box of a running patch that don't stay as they are where it becomes one of another kind.
//!
//! `misfits_at` tells those that don't fit any more, with the numbers of their boxes and in the order of the wires of their canvas
//! (`misfits`): they lose one of their ports, or carry signals into a port without of a box that is made. `turning_at` tells those that
//! fit, but become signal wires or cease to be such (`turning`). Both take memory and can fail, and change nothing. `turns` asks that of
//! one wire.
//! `loosen_wires` then takes such wires out, one after the other, each with the mend that the order of the canvas needs (`Loosens`): every
//! list of wires has all others as it had them (`Sheds`). It takes no memory and can't fail.
//!
//! Laws: where the wires that don't fit are gone, those at the box that fit are there still, and no others (`misfits_leave_what_fits`),
//! and the canvas has the wires that it had less these (`canvases_lose_misfits`). Those that fit and don't turn stay as `pd_refitting`
//! asks (`wires_stay_unless_they_turn`), so that it can make the box another one where no wire that fits turns
//! (`wires_that_fit_are_taken`), or where those that turn are gone too (`wires_left_stay`). Room that is set aside in between changes none
//! of them (`room_changes_no_wires`), and room set aside for what the box becomes is there still after wires went (`room_lasts`).
//!
//! By no clause: how much is looked at to tell them. It is each wire at the box, and each in the fan-out of an outlet of the box or of
//! one from which a wire comes that is told.
//!
//! Definitions: `Misfits` (which wires go, and which turn), `Shedding` (they go), `Ranks` (outlets in order).
#![tactic(auto)]

mod fitting;
mod gathering;
mod laws;
mod loosening;
mod ports;
mod ranking;
mod wires;

pub use fitting::turns;
pub use gathering::{misfits_at, turning_at};
pub use laws::{
    canvases_lose_misfits, misfits_leave_what_fits, room_changes_no_wires, room_lasts,
    wires_left_stay, wires_stay_unless_they_turn, wires_that_fit_are_taken,
};
pub use loosening::loosen_wires;
pub use wires::BoxWire;
