//! A box more or less in the signal order of its canvas.
//!
//! A box that comes into a canvas has no wires yet, and one that goes has none any more: its canvas then has the order
//! with it, or without it. `place_box` puts the box of a key into the order of its canvas, once it stands there: last,
//! without a look, where it is the last of its canvas, and else at its place, with 8 looks at most. `displace_box` takes
//! it out of the order, while it still stands in its canvas. A box that has no part in signals changes nothing.
//! `open_order` gives a canvas that has come the order of no boxes, `fold_order` that of the boxes with which it came,
//! and `close_order` takes away that of one that has gone. None of them can fail: `reserve_place` sets the room of an
//! order aside before, and `reserve_orders` that of the canvases to come, and neither changes what is told. Every other
//! canvas keeps its order.
//!
//! Laws carry the orders over what happens to the boxes between these calls: where a box comes (`orders_lack_what_comes`),
//! goes (`orders_follow_what_goes`) or becomes another under its key (`orders_follow_what_changes`), whatever labels the
//! boxes of the canvas get. The graph of a canvas is one that an order may ask (`canvases_are_lawful`), and the orders by
//! links are those by wires (`orders_are_by_wires`).
//!
//! Free: want of memory.
//!
//! Definitions: `Placing` (an order in which a box is missing), `Room`, `Groves` (what an order sees of two groves).
#![tactic(auto)]

mod boxes;
mod canvases;
mod folding;
mod joining;
mod laws;
mod leaving;
mod room;

pub use boxes::is_signal_box;
pub use canvases::{close_order, open_order};
pub use folding::fold_order;
pub use joining::place_box;
pub use laws::{
    canvases_are_lawful, orders_are_by_wires, orders_follow_what_changes, orders_follow_what_goes,
    orders_lack_what_comes,
};
pub use leaving::displace_box;
pub use room::{reserve_orders, reserve_place};
