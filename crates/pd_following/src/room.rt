//! Room set aside for a port box that comes.

use pd_boxes::{Blocks, Room};
use pd_grove::Side;
use pd_ports::PortRoom;

/// A port box that is ready to come, the box of which it is a port, on which side, and what that box takes along.
#[derive(Drop)]
pub struct PortBoxRoom {
    pub own: Room,
    pub holder: u32,
    pub side: Side,
    pub around: PortRoom,
    pub blocks: Blocks,
}
