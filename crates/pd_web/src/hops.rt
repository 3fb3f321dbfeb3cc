//! Along the wires of a port.

ghost use Rattle.std.specs.Prelude.{◌≡◌, ◌+◌, ℕ, Some, is_some, slice_get, option_map};
ghost use Rattle.pd_wire.specs.Book.{IsWire, IsNext, wire_at, fan_of, feeds_of};
ghost use Rattle.pd_grove.specs.declared.ports.Side.{Side};
ghost use Rattle.pd_web.specs.Sockets.{end_under as end_of_port};
ghost use Rattle.pd_web.specs.Hops.{fan_hops, feed_hops, fan_keys, hop_to as hop_ahead, hop_from as hop_back};

use crate::ends::end_at;
use crate::sockets::Spot;
use crate::web::{Hop, Web};
use pd_grove::Side;
use pd_wire::{End, WireKey};

impl Web {
    /// The first wire from an outlet, with the box that it feeds and its inlet.
    pub fn fan_first(&self, node: u32, outlet: u32) -> Option<Hop>
        ensures { result ≡ slice_get (fan_hops self.now node outlet) 0 }
    {
        self.book.laws();
        let end = self.end_under(Side::Outlets, node, outlet)?;
        let key = self.book.fan_first(end);
        self.ahead(key)
    }

    /// The wire behind this one in its outlet's fan-out; `None` at the end, and where it isn't a wire.
    pub fn fan_next(&self, hop: Hop) -> Option<Hop>
        ensures { (node outlet i : ℕ) → slice_get (fan_hops self.now node outlet) i ≡ Some hop →
            result ≡ slice_get (fan_hops self.now node outlet) (i + 1) }
    {
        self.book.laws();
        if !self.has_wire(hop) {
            return None;
        }
        let key = self.fan_after(hop);
        self.ahead(key)
    }

    /// The first wire to an inlet, with the box that feeds it and its outlet.
    pub fn feed_first(&self, node: u32, inlet: u32) -> Option<Hop>
        ensures { result ≡ slice_get (feed_hops self.now node inlet) 0 }
    {
        self.book.laws();
        let end = self.end_under(Side::Inlets, node, inlet)?;
        let key = self.book.feed_first(end);
        self.back(key)
    }

    /// The wire behind this one among its inlet's feeds; `None` at the end, and where it isn't a wire.
    pub fn feed_next(&self, hop: Hop) -> Option<Hop>
        ensures { (node inlet i : ℕ) → slice_get (feed_hops self.now node inlet) i ≡ Some hop →
            result ≡ slice_get (feed_hops self.now node inlet) (i + 1) }
    {
        self.book.laws();
        if !self.has_wire(hop) {
            return None;
        }
        let key = self.feed_after(hop);
        self.back(key)
    }

    /// The wire at a place of an outlet's fan-out, counted from 0.
    pub fn wire_key(&self, node: u32, outlet: u32, place: u32) -> Option<WireKey>
        ensures { result ≡ slice_get (fan_keys self.now node outlet) place }
    {
        let mut hop = self.fan_first(node, outlet)?;
        for _ in 0..place {
            hop = self.fan_next(hop)?;
        }
        Some(hop.key())
    }

    pub(crate) fn has_wire(&self, hop: Hop) -> bool
        ensures { result ≡ is_some (wire_at self.now.book hop.key) }
    {
        self.book.has_wire(hop.key())
    }

    fn fan_after(&self, hop: Hop) -> Option<WireKey>
        requires { IsWire self.now.book hop.key }
        ensures { (source sink : ℕ) → wire_at self.now.book hop.key ≡ Some (source, sink) →
            IsNext (fan_of self.now.book source) hop.key result }
    {
        self.book.fan_next(hop.key())
    }

    fn feed_after(&self, hop: Hop) -> Option<WireKey>
        requires { IsWire self.now.book hop.key }
        ensures { (source sink : ℕ) → wire_at self.now.book hop.key ≡ Some (source, sink) →
            IsNext (feeds_of self.now.book sink) hop.key result }
    {
        self.book.feed_next(hop.key())
    }

    pub(crate) fn end_under(&self, side: Side, node: u32, port: u32) -> Option<End>
        ensures { result ≡ end_of_port self.now.sockets.items side node port }
    {
        end_at(self.sockets.as_slice(), Spot { node, side, port })
    }

    fn ahead(&self, key: Option<WireKey>) -> Option<Hop>
        requires { (k : ℕ) → key ≡ Some k → IsWire self.now.book k }
        ensures { result ≡ option_map (hop_ahead self.now) key }
    {
        match key {
            Some(key) => Some(self.hop_to(key)),
            None => None,
        }
    }

    pub(crate) fn back(&self, key: Option<WireKey>) -> Option<Hop>
        requires { (k : ℕ) → key ≡ Some k → IsWire self.now.book k }
        ensures { result ≡ option_map (hop_back self.now) key }
    {
        match key {
            Some(key) => Some(self.hop_from(key)),
            None => None,
        }
    }

    /// A wire, and the inlet to which it leads.
    pub(crate) fn hop_to(&self, key: WireKey) -> Hop
        requires { IsWire self.now.book key }
        ensures { result ≡ hop_ahead self.now key }
    {
        self.book.laws();
        let spot = self.spots[self.book.sink_of(key).number()];
        Hop {
            key: key.number(),
            node: spot.node,
            port: spot.port,
        }
    }

    /// A wire, and the outlet from which it comes.
    pub(crate) fn hop_from(&self, key: WireKey) -> Hop
        requires { IsWire self.now.book key }
        ensures { result ≡ hop_back self.now key }
    {
        self.book.laws();
        let spot = self.spots[self.book.source_of(key).number()];
        Hop {
            key: key.number(),
            node: spot.node,
            port: spot.port,
        }
    }
}
