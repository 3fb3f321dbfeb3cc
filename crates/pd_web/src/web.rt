//! The ports and wires of a running patch.

ghost use Rattle.std.specs.Prelude.{◌≡◌};
ghost use Rattle.pd_web.specs.Sockets.{AreFew, AreTied};
ghost use Rattle.pd_web.specs.Spares.{AreFree};

use crate::sockets::{Sockets, Spot};
use pd_wire::{WireBook, WireKey};

/// The ports of the boxes of a running patch and the wires between them, by the boxes' keys.
#[derive(Drop)]
pub struct Web {
    /// The ports of each box, by key.
    pub sockets: Vec<Sockets>,
    /// The port of each end of the book.
    pub spots: Vec<Spot>,
    /// By the key of a box that is a port of its canvas, which port of the box around it is.
    pub homes: Vec<Option<Spot>>,
    pub book: WireBook,
    /// Ends set aside for ports that get their first wire.
    pub spare: Vec<u32>,
    ghost few: { AreFew sockets.items },
    ghost tied: { AreTied sockets.items spots.items book },
    ghost free: { AreFree sockets.items book spare.items },
}

/// A wire, by its key's number, and the box and the port at its other end.
#[derive(Clone, Copy, Debug, PartialEq, Eq)]
pub struct Hop {
    pub(crate) key: usize,
    pub(crate) node: u32,
    pub(crate) port: u32,
}

impl Hop {
    pub fn key(self) -> WireKey
        ensures { result ≡ self.key }
    {
        WireKey::of_number(self.key)
    }

    /// The key of the box.
    pub fn node(self) -> u32
        ensures { result ≡ self.node }
    {
        self.node
    }

    /// The number of the port.
    pub fn port(self) -> u32
        ensures { result ≡ self.port }
    {
        self.port
    }
}
