//! Room set aside for a box that comes with all that lies in it.

use pd_boxes::{Blocks, Place};
use pd_grove::{Seed, Seeds, Spot};
use pd_links::LinkRoom;
use pd_order::Order;
use pd_ports::PortRoom;
use std::collections::VecDeque;

/// What one box takes along: room for its ports, and its blocks.
#[derive(Drop)]
pub struct BoxRoom {
    pub ports: PortRoom,
    pub blocks: Blocks,
}

/// A box that is ready to come with all that lies in it, and what they take along: for each box in text order its own room, for each
/// canvas the room of its boxes for signal wires and an order; and lists for the keys of all boxes and for the signal boxes of a canvas.
#[derive(Drop)]
pub struct PartRoom {
    pub place: Place,
    pub seed: Seed,
    pub inside: Seeds,
    pub boxes: VecDeque<BoxRoom>,
    pub links: VecDeque<Vec<LinkRoom>>,
    pub orders: VecDeque<Order>,
    pub spots: Vec<Spot>,
    pub signal: Vec<u32>,
}
