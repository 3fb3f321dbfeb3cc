//! The ports of running boxes under their keys, and the wires between them.
//!
//! `Web::lay` lists the ports of each live box: those of the box's kind, or of the port boxes of the canvas in it,
//! and the box that each port box stands for is told. A port gets an end in pd_wire's book with its first wire, so
//! that of the many ports that a box may have those without wires take little room. The hops from an outlet are, in
//! order, the wires of the canvases that fit, by the keys of the boxes and the numbers of the ports, and those to
//! an inlet likewise, each wire at both; there are at most 65,536, and `TooManyWires` comes only where more fit. `fan_first`,
//! `fan_next`, `feed_first` and `feed_next` walk these lists without a search.
//!
//! `reserve` sets room aside, and leaves every port and wire as it was whatever it answers. `join` and `rejoin` then
//! put one wire more at its place in both of its lists, and `cut` takes one away: every other wire, list and port
//! stays (`Joins`, `CutsWire`), no memory is taken, and no list is walked. `line_at` tells whether a key is a wire's,
//! and `wire_count` how many wires there are.
//!
//! Laws: `canvases_wire_their_own_boxes` and `standing_canvases_are_trimmed` lead from keys to the tree's own
//! wires, and `wires_are_counted` says how a change of wires changes their number. Free: want of memory.
//!
//! Definitions: `Hops` (ports and wires as they are told), `Changes` (one wire more or less, and room), `Canvases`,
//! `Homes`, `Sockets`; `Spares`, `Jacks`, `Lines` and `Wiring` help.
#![tactic(auto)]

mod behind;
mod calls;
mod changes;
mod ends;
mod homes;
mod hops;
mod jacks;
mod joints;
mod laws;
mod lay;
mod lines;
mod room;
mod sockets;
mod web;
mod wires;

pub use ends::{end_at, put_end};
pub use homes::{put_home, settle_box};
pub use jacks::{Jack, is_made_at, jacks_at};
pub use joints::Joint;
pub use laws::{canvases_wire_their_own_boxes, standing_canvases_are_trimmed, wires_are_counted};
pub use lay::{MOST_WIRES, Unlaid};
pub use lines::Line;
pub use sockets::{Port, Sockets, Spot, box_sockets, port_at, sockets_at};
pub use web::{Hop, Web};
