//! A port box comes into a canvas that a box of a running patch holds, and the box around gets the port that it is.
//!
//! `reserve_port` sets room aside for an `inlet`, `outlet`, `inlet~` or `outlet~`, and alone can fail: whatever it answers, all that the patch
//! tells stays (`SameButRoom`). `put_port` then puts the box in, at a number of the canvas, in every layer, as `put` of `pd_boxes` does any
//! other box, and the box around gets a port more (`IsPortPut`): at the number that the port box has from left to right among those of its
//! side, without wires. The ports from there on have the next numbers, and their wires go with them, in their order and under their keys
//! (`Raises`), so there are as many wires as before. Where an outlet came, the box around has as many silent blocks as it asks for now. It
//! can't fail, and every other port and block, every clock, and the orders of the other canvases stay.
//!
//! Laws: a patch that runs goes on to be one, ready for more boxes (`patches_run_on_with_ports`), also where room was set aside
//! (`port_room_changes_nothing`); feeds that were in order are (`feeds_stay_in_order`).
//!
//! Free: want of memory in `reserve_port`, and the key.
//!
//! Definitions: `Raising` (a port more, and the wires behind it), `Ports` (what comes and what stays), `Room`.
#![tactic(auto)]

mod following;
mod laws;
mod putting;
mod reserving;
mod room;

pub use laws::{feeds_stay_in_order, patches_run_on_with_ports, port_room_changes_nothing};
pub use putting::put_port;
pub use reserving::reserve_port;
pub use room::PortBoxRoom;
