//! Wires sought among those of a port of a `Web`.
//!
//! `feed_place` tells where a new wire stands among the feeds of its inlet, which are in the order of the boxes'
//! labels, of the outlets of a box, and of the fan-out of an outlet: `Web::join` takes its answer. It seeks from
//! behind, so that what comes before isn't gone over. `wire_between` gives the first wire from an outlet to an inlet.
//!
//! Definitions: `Places`.
#![tactic(auto)]

mod fans;
mod feeds;

pub use fans::wire_between;
pub use feeds::feed_place;
