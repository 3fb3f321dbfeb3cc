//! A port box moves in the canvas that a box of a running patch holds, and the ports of the box around change places.
//!
//! `reserve_route` sets room aside for it, and alone can fail; all that the patch tells stays (`SameButRoom`). `slide_port` then gives the port box
//! another place in its canvas's window, and the box around the ports that this canvas has now, from left to right (`IsSlid`): the port that it
//! is goes to its new number, the ports between make way, and the wires of each go with it (`Slides`). It takes no memory and can't fail. The wires of
//! an outlet that goes are put in anew, in their order; every other wire keeps its key. Links, orders, clocks, blocks, names and all other boxes stay.
//!
//! Law: where room was set aside port boxes can move as they could (`route_room_changes_nothing`).
//!
//! Free: want of memory in `reserve_route`.
//!
//! Definitions: `Slides` (ports that change places), `Sliding` (what moves and what stays), `Room`.
#![tactic(auto)]

mod laws;
mod reserving;
mod room;
mod sliding;

pub use laws::route_room_changes_nothing;
pub use reserving::reserve_route;
pub use room::PortRoute;
pub use sliding::slide_port;
