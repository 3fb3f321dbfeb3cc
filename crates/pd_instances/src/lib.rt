//! A grown box comes into a canvas of a running patch, with all that lies in it.
//!
//! `reserve_part` sets room aside for it, and alone can fail. `put_part` then puts the box in, at a number of the canvas, in every
//! layer (`IsPartPut`): in the tree under new keys, with the canvases inside under others; with the ports of its kind or of the canvas in
//! it, and so each box that lies in it; with the wires of the canvases inside that fit, in their order; among the owners of names, with
//! numbers, with silent blocks and with room for clocks; in the order of the canvas around, and with an order for each canvas
//! inside. It can't fail, and every other box and what it keeps, every other wire, clock and block, and the orders of the other canvases stay.
//! It gives the keys of the boxes that came, in text order, in a list that was set aside as well (`NewPart`).
//!
//! Definitions: `Part` (what comes and what stays), `Room` and `Needs` (what is set aside), `Lay` (wires that come), `Layers` and `Coming`
//! (what the calls of each layer tell).
#![tactic(auto)]

mod laying;
mod linking;
mod names;
mod needs;
mod numbering;
mod opening;
mod ordering;
mod putting;
mod reserving;
mod room;
mod rooms;
mod spots;

pub use needs::{Need, PortCount};
pub use putting::{NewPart, put_part};
pub use reserving::reserve_part;
pub use room::{BoxRoom, PartRoom};
