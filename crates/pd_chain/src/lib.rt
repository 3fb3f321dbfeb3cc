//! The signal order of a canvas, from its boxes and its signal wires.
//!
//! From the keys of a canvas's boxes in the order of their numbers, those of its signal boxes and its signal wires
//! in any order, `order_of` gives pd_order's `Order` from nothing, with the box of the least number first among
//! those that are ready; it fails only where memory is short. `Graph` is that graph as `pd_order` asks for it, also
//! for its mends. `numbers_in` gives the numbers of boxes.
//!
//! Laws: the order is one of the numbers too (`order_by_number`), and canvases that are the same by number have the
//! same chain and stuck list by number, whatever the keys of their boxes (`orders_agree`). Not proved: how long it
//! takes. Each question of the order is a binary search over the boxes or wires.
//!
//! Definitions: `Wires` (the graph of a canvas), `Numbers` (the same by number), `Tables`, `Entries`.
#![tactic(auto)]

mod chain;
mod entries;
mod graph;
mod laws;
mod numbers;
mod table;

pub use chain::order_of;
pub use entries::Entry;
pub use graph::{Graph, SignalWire};
pub use laws::{order_by_number, orders_agree};
pub use numbers::numbers_in;
