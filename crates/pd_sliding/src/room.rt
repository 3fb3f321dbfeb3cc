//! What is set aside for a port box that moves.

use pd_ports::PortRoom;
use pd_web::{Line, Spot};

/// A port box by its key, the port of the box around that it is, and what that box takes to get the ports that its canvas has then.
#[derive(Drop)]
pub struct PortRoute {
    pub key: u32,
    pub port: Spot,
    pub around: PortRoom,
    pub lines: Vec<Line>,
}
