//! What the ports of boxes are, and which wires fit.

ghost use Rattle.std.specs.Prelude.{◌≡◌, length, slice_get, option_map, option_and_then, if◌then◌else◌, Some, None, map, ℕ, is_some};
ghost use Rattle.slab.specs.Slab.{get};
ghost use Rattle.pd_grove.specs.declared.ports.Side.TheVariants.{Inlets, Outlets};
ghost use Rattle.pd_grove.specs.Telling.{keys_in};
ghost use Rattle.pd_tree.specs.Ports.{fits as fits_in};
ghost use Rattle.pd_web.specs.Sockets.{ports_at, port_at as port_under};
ghost use Rattle.pd_web.specs.Hops.{ports_told, jack_told, signal_in, side_named, boxes_told, port_told};
ghost use Rattle.pd_web.specs.Homes.{inner_in, home_at};

use crate::jacks::Jack;
use crate::lines::fits;
use crate::sockets::{Spot, port_at, sockets_at};
use crate::web::Web;
use pd_canvas::Wire;
use pd_grove::{Grove, Side};

impl Web {
    /// How many inlets a box has.
    pub fn inlets_at(&self, node: u32) -> u32
        ensures { result ≡ length (ports_told self.now Inlets node) }
    {
        self.count_at(Side::Inlets, node)
    }

    /// How many outlets a box has.
    pub fn outlets_at(&self, node: u32) -> u32
        ensures { result ≡ length (ports_told self.now Outlets node) }
    {
        self.count_at(Side::Outlets, node)
    }

    /// Whether an inlet is there and carries signals.
    pub fn inlet_signal_at(&self, node: u32, i: u32) -> bool
        ensures { result ≡ signal_in (jack_told self.now Inlets node i) }
    {
        self.jack_at(Side::Inlets, node, i)
            .is_some_and(|jack| jack.is_signal)
    }

    /// Whether an outlet is there and carries signals.
    pub fn outlet_signal_at(&self, node: u32, i: u32) -> bool
        ensures { result ≡ signal_in (jack_told self.now Outlets node i) }
    {
        self.jack_at(Side::Outlets, node, i)
            .is_some_and(|jack| jack.is_signal)
    }

    /// The key of the box that is this port of a box that holds a canvas. `None` for the ports of other boxes and where the port isn't
    /// there.
    pub fn port_box(&self, node: u32, port: u32, outlet: bool) -> Option<u32>
        ensures { result ≡ inner_in (jack_told self.now (side_named outlet) node port) }
    {
        let side = if outlet { Side::Outlets } else { Side::Inlets };
        self.jack_at(side, node, port)?.inner
    }

    /// For a box that is a port of its canvas: the key of the box that holds the canvas, and the number of that port. `None` for other
    /// boxes and in the root canvas.
    pub fn port_of(&self, node: u32) -> Option<(u32, u32)>
        ensures { result ≡ port_told self.now node }
    {
        let spot = self.home_of(node)?;
        Some((spot.node, spot.port))
    }

    fn home_of(&self, node: u32) -> Option<Spot>
        ensures { result ≡ home_at self.now.homes.items node }
    {
        match self.homes.as_slice().get(node as usize) {
            Some(home) => *home,
            None => None,
        }
    }

    /// Whether a wire of a canvas fits.
    pub fn fits(&self, grove: &Grove, canvas: u32, wire: &Wire) -> bool
        ensures { result ≡ fits_in (boxes_told self.now (keys_in (get grove.now.boards canvas))) wire.now }
    {
        match grove.board(canvas) {
            Some(board) => fits(self.sockets.as_slice(), board.nodes.as_slice(), wire),
            None => false,
        }
    }

    fn jack_at(&self, side: Side, node: u32, port: u32) -> Option<Jack>
        ensures { result ≡ jack_told self.now side node port }
    {
        let port = port_at(self.sockets.as_slice(), side, node, port)?;
        Some(port.jack)
    }

    fn count_at(&self, side: Side, node: u32) -> u32
        ensures { result ≡ length (ports_told self.now side node) }
    {
        match sockets_at(self.sockets.as_slice(), node) {
            Some(own) => own.ports(side).len() as u32,
            None => 0,
        }
    }
}
