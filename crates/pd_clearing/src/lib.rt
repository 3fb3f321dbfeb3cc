//! A box goes from a canvas of a running patch, with all that lies in it and with its wires.
//!
//! `part_of` tells a box and all boxes that lie in it (`IsPartOf`); it alone takes memory. `clear` then takes the box out of every layer
//! (`IsCleared`): all wires at these boxes go, one after the other, each with the mend that the order of its canvas needs; then the box goes
//! from the tree and from the order of its canvas, with all that lies in it, the orders of the canvases there, and the ports, blocks and
//! clocks of these boxes; their names have the other owners, and the boxes behind it have the numbers before theirs. Every other box and what
//! it keeps, every other wire, clock and block, and the orders of the other canvases stay. A patch that runs goes on to be one.
//!
//! `clear` takes no memory and can't fail. It asks that the box is no port of a box around, whose port would go with it, and that the web
//! has a place for the key of each of these boxes, as `reserve` of `pd_web` leaves it.
//!
//! By no clause: in which order the wires go, which nothing tells but the looks.
//!
//! Definitions: `Losing` (the wires at some boxes go), `Clearing` (what goes and what stays), `Layers` (webs, orders and blocks without some
//! boxes).
#![tactic(auto)]

mod clearing;
mod loosening;
mod rows;

pub use clearing::{Part, clear, part_of};
pub use rows::lower_numbers;
