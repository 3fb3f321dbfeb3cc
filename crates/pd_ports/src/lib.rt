//! The ports of one box of a running patch come, go and become others, while all other ports stay, with all wires.
//!
//! `reserve_ports` sets room aside, and leaves every port and wire as it was whatever it answers. `open_box` then gives a box
//! that has come the ports of its kind or of the canvas in it, `close_box` takes those of a box without wires away, and
//! `refit_box` gives a box that became another one its ports, where each wire stays at the port of its number (`HasPorts`); the
//! ends of ports that go are free in the book of wires again. `follow_ports` gives a side of a box the ports that the canvas in
//! it has now, as where a port box came, went, moved or changed its kind, and `set_ports` any others: the wires of a port go with
//! its port box, in their order and under their keys, and those of a port that goes are cut before (`FollowsPorts`). Of each port
//! box it is known then which port it is (`KnowsHomes`). None of these takes memory or fails.
//!
//! Laws: where one box gets other ports by the first three, wires stand at both of their ports as before (`wires_still_meet`);
//! what is known of port boxes is so for a grove whose ports the web has, and stays (`port_boxes_are_known`,
//! `port_boxes_stay_known`); port boxes that stay where they were keep their order (`ports_keep_their_order`).
//!
//! By no clause: that none of these calls takes longer the more boxes a patch has. `open_box`, `refit_box` and `follow_ports` go
//! over the ports, and over the boxes of the canvas in the box; `set_ports` over the ports of that side, and looks for each port
//! box near the place that its port has.
//!
//! The ports of a canvas are gathered here by the steps of `pd_grove`'s `ports_in`, but into a list that has room: the two could
//! be one where `pd_grove` offered its placing to a list that is given.
//!
//! Definitions: `Boxes`, `Moves` and `Known` (what a web tells then), `Orders`, `Room`; `Ends`, `Homes` and `Refits` help.
#![tactic(auto)]

mod closing;
mod ends;
mod filling;
mod following;
mod homes;
mod laws;
mod moves;
mod opening;
mod refitting;
mod room;
mod spots;
mod swaps;
mod taking;

pub use closing::close_box;
pub use following::follow_ports;
pub use laws::{
    port_boxes_are_known, port_boxes_stay_known, ports_keep_their_order, wires_still_meet,
};
pub use moves::set_ports;
pub use opening::open_box;
pub use refitting::refit_box;
pub use room::{PortRoom, reserve_ports};
