//! Room set aside for what a box becomes.

use pd_boxes::Blocks;
use pd_grove::Seed;
use pd_ports::PortRoom;

/// The box of a key, which is ready to become that of a seed, with room for its ports and with silent blocks.
#[derive(Drop)]
pub struct RefitRoom {
    pub key: u32,
    pub seed: Seed,
    pub ports: PortRoom,
    pub blocks: Blocks,
}
