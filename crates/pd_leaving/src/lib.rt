//! A port box goes from a canvas that a box of a running patch holds, and the box around loses the port that it is.
//!
//! `port_wires_at` tells the wires at a port of a box, with the numbers of their boxes, in the order of the wires of their canvas (`port_wires`).
//! `reserve_loss` lists those at the port that a port box is, and sets room aside for the box around; it alone can fail, and all that the patch
//! tells stays (`SameButRoom`). `take_port` then takes these wires out, one after the other, each with its mend, then the wires of the port box
//! itself, then the box in every layer (`GoesOut`), and then the port of the box around (`LeavesPort`): the ports behind it have the numbers
//! before theirs, and their wires go with them, in their order and under their keys (`Raises`, read backwards). Where an outlet went, the box
//! around has as many silent blocks as it asks for now. It takes no memory and can't fail, and every other port and block, every other wire,
//! every clock, and the orders of canvases but these two stay (`IsPortTaken`).
//!
//! Laws: where room was set aside port boxes can go as they could (`loss_room_changes_nothing`); feeds that were in order are
//! (`feeds_in_order_stay_so`).
//!
//! Free: want of memory in `port_wires_at` and `reserve_loss`.
//!
//! Definitions: `Wires` (the wires at a port), `Leaving` (what goes and what stays), `Room`.
#![tactic(auto)]

mod laws;
mod leaving;
mod listing;
mod reserving;
mod room;
mod taking;

pub use laws::{feeds_in_order_stay_so, loss_room_changes_nothing};
pub use listing::port_wires_at;
pub use reserving::reserve_loss;
pub use room::PortLoss;
pub use taking::{TakenPort, take_port};
