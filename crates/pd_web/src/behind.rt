//! Along the feeds of an inlet from behind.

ghost use Rattle.std.specs.Prelude.{◌≡◌, ◌+◌, ◌-◌, ℕ, Some, None, length, slice_get};
ghost use Rattle.pd_wire.specs.Book.{IsWire, IsPrevious, wire_at, feeds_of};
ghost use Rattle.pd_web.specs.Hops.{feed_hops};

use crate::web::{Hop, Web};
use pd_grove::Side;
use pd_wire::WireKey;

impl Web {
    /// The last wire to an inlet, with the box that feeds it and its outlet.
    pub fn feed_last(&self, node: u32, inlet: u32) -> Option<Hop>
        ensures { result ≡ slice_get (feed_hops self.now node inlet) (length (feed_hops self.now node inlet) - 1) }
    {
        self.book.laws();
        let end = self.end_under(Side::Inlets, node, inlet)?;
        let key = self.book.feed_last(end);
        self.back(key)
    }

    /// The wire before this one among its inlet's feeds; `None` at the front, and where it isn't a wire.
    pub fn feed_before(&self, hop: Hop) -> Option<Hop>
        ensures at_front { (node inlet : ℕ) → slice_get (feed_hops self.now node inlet) 0 ≡ Some hop → result ≡ None }
        ensures behind { (node inlet i : ℕ) → slice_get (feed_hops self.now node inlet) (i + 1) ≡ Some hop →
            result ≡ slice_get (feed_hops self.now node inlet) i }
    {
        self.book.laws();
        if !self.has_wire(hop) {
            return None;
        }
        let key = self.feed_behind(hop);
        self.back(key)
    }

    fn feed_behind(&self, hop: Hop) -> Option<WireKey>
        requires { IsWire self.now.book hop.key }
        ensures { (source sink : ℕ) → wire_at self.now.book hop.key ≡ Some (source, sink) →
            IsPrevious (feeds_of self.now.book sink) hop.key result }
    {
        self.book.feed_before(hop.key())
    }
}
