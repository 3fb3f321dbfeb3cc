//! Ports of a running patch that change places, and feeds that stay in order.
//!
//! The feeds of an inlet are in the order of the boxes and of the outlets from which they come. `follow_inlets` and `follow_outlets` give the
//! box that holds a canvas the ports that this canvas has now: a port box that comes or goes leaves feeds in order. Where an outlet gets
//! another place among the others (`move_outlet`), its wires are taken out before, in the order of its fan-out (`lift_outlet`), and put in again at
//! the new place (`lay_lines`), each at its place among the feeds of its inlet (`MovesBySteps`). No wire of another outlet is cut, and there are as many
//! wires as before.
//!
//! Definitions: `Outlets` (wires taken out and put in), `Orders`.
#![tactic(auto)]

mod following;
mod laying;
mod lifting;
mod moving;

pub use following::{follow_inlets, follow_outlets};
pub use laying::lay_lines;
pub use lifting::lift_outlet;
pub use moving::move_outlet;
