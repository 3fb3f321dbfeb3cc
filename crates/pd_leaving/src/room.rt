//! What is set aside for a port box that goes.

use pd_boxes::Blocks;
use pd_misfits::BoxWire;
use pd_ports::PortRoom;
use pd_web::Spot;

/// A port box by its key, the port of the box around that it is, the wires at that, and what the box around takes when it loses it.
#[derive(Drop)]
pub struct PortLoss {
    pub key: u32,
    pub port: Spot,
    pub wires: Vec<BoxWire>,
    pub around: PortRoom,
    pub blocks: Blocks,
}
