//! Walks along the lists of a book.

ghost use Rattle.std.specs.Prelude.{ℕ, Some, is_some, slice_get, length, ◌≡◌, ◌-◌};
ghost use Rattle.pd_wire.specs.Book.{IsEnd, IsWire, fan_of, feeds_of, wire_at, live_wires, IsNext, IsPrevious};

use crate::book::WireBook;
use crate::keys::{End, WireKey};
use crate::links::{Side, first, last, link_of, next, previous};

impl WireBook {
    /// Whether a key is a wire's.
    pub fn has_wire(&self, key: WireKey) -> bool
        ensures { result ≡ is_some (wire_at self.now key) }
    {
        match self.nodes.get(key.key) {
            Some(node) => !node.is_end,
            None => false,
        }
    }

    /// How many wires there are. It goes once over all that the book holds and takes no memory, so it is for a patch that
    /// opens, not for each change.
    pub fn wire_count(&self) -> usize
        ensures { result ≡ live_wires self.now }
    {
        // There are no more wires than the slab holds, so the count fits.
        let _most = self.nodes.len();
        let mut count = 0;
        for (_, node) in self.nodes.iter() {
            if !node.is_end {
                count += 1;
            }
        }
        count
    }

    /// The first wire of an outlet's fan-out.
    pub fn fan_first(&self, source: End) -> Option<WireKey>
        requires { IsEnd self.now source }
        ensures { result ≡ slice_get (fan_of self.now source) 0 }
    {
        first(&self.nodes, Side::Fan, source.key)
    }

    /// The wire behind this one in its outlet's fan-out, and none at its end.
    pub fn fan_next(&self, key: WireKey) -> Option<WireKey>
        requires { IsWire self.now key }
        ensures { (source sink : ℕ) → wire_at self.now key ≡ Some (source, sink) →
            IsNext (fan_of self.now source) key result }
    {
        next(&self.nodes, Side::Fan, key.key)
    }

    /// The first wire among an inlet's feeds.
    pub fn feed_first(&self, sink: End) -> Option<WireKey>
        requires { IsEnd self.now sink }
        ensures { result ≡ slice_get (feeds_of self.now sink) 0 }
    {
        first(&self.nodes, Side::Feed, sink.key)
    }

    /// The wire behind this one among its inlet's feeds, and none at their end.
    pub fn feed_next(&self, key: WireKey) -> Option<WireKey>
        requires { IsWire self.now key }
        ensures { (source sink : ℕ) → wire_at self.now key ≡ Some (source, sink) →
            IsNext (feeds_of self.now sink) key result }
    {
        next(&self.nodes, Side::Feed, key.key)
    }

    /// The last wire among an inlet's feeds.
    pub fn feed_last(&self, sink: End) -> Option<WireKey>
        requires { IsEnd self.now sink }
        ensures { result ≡ slice_get (feeds_of self.now sink) (length (feeds_of self.now sink) - 1) }
    {
        last(&self.nodes, Side::Feed, sink.key)
    }

    /// The wire before this one among its inlet's feeds, and none at their front.
    pub fn feed_before(&self, key: WireKey) -> Option<WireKey>
        requires { IsWire self.now key }
        ensures { (source sink : ℕ) → wire_at self.now key ≡ Some (source, sink) →
            IsPrevious (feeds_of self.now sink) key result }
    {
        previous(&self.nodes, Side::Feed, key.key)
    }

    /// The outlet that a wire comes from.
    pub fn source_of(&self, key: WireKey) -> End
        requires { IsWire self.now key }
        ensures { (sink : ℕ) × (wire_at self.now key ≡ Some (result, sink)) }
    {
        End {
            key: link_of(&self.nodes, Side::Fan, key.key).owner,
        }
    }

    /// The inlet that a wire goes to.
    pub fn sink_of(&self, key: WireKey) -> End
        requires { IsWire self.now key }
        ensures { (source : ℕ) × (wire_at self.now key ≡ Some (source, result)) }
    {
        End {
            key: link_of(&self.nodes, Side::Feed, key.key).owner,
        }
    }
}
