//! Room set aside for a box that comes.

ghost use Rattle.std.specs.Prelude.{◌≡◌};
ghost use Rattle.pd_boxes.specs.Room.{IsFor};

use crate::rows::Blocks;
use pd_grove::{Seed, Seeds};
use pd_ports::PortRoom;

/// Where a box comes: the key of the canvas, and the number that it gets there.
#[derive(Clone, Copy, Debug, PartialEq, Eq)]
pub struct Place {
    pub canvas: u32,
    pub number: u32,
}

/// A box that is ready to come, with what it takes along.
#[derive(Drop)]
pub struct Room {
    pub place: Place,
    pub seed: Seed,
    pub ports: PortRoom,
    pub blocks: Blocks,
    pub inside: Seeds,
}

impl Room {
    /// A box of a seed that comes to a place, with room for its ports, with its blocks, and with the seeds of what lies inside.
    pub fn new(place: Place, seed: Seed, ports: PortRoom, blocks: Blocks, inside: Seeds) -> Room
        ensures comes { IsFor result place seed }
        ensures ports { result.ports ≡ ports }
        ensures blocks { result.blocks ≡ blocks }
        ensures inside { result.inside ≡ inside }
    {
        Room {
            place,
            seed,
            ports,
            blocks,
            inside,
        }
    }
}
