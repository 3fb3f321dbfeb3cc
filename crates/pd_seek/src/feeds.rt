//! Where a wire stands among the feeds of its inlet.

ghost use Rattle.std.specs.Prelude.{◌≡◌, ℕ};
ghost use Rattle.pd_wire.specs.Book.{StandsAt};
ghost use Rattle.pd_web.specs.Hops.{feed_keys, feed_hops};
ghost use Rattle.pd_seek.specs.Places.{label_at, comes_later, IsPlace, AreInOrder, first_later};

use pd_web::{Hop, Line, Web};
use pd_wire::WireKey;

/// The feed of the line's inlet before which a new wire along the line stands, or `None` where it stands last: behind
/// the last feed that comes from a box of a smaller label, or from its own box and from its outlet or one before it.
/// Labels stand under the boxes' keys, and a key without one has the label 0.
pub fn feed_place(web: &Web, labels: &[u32], line: Line) -> Option<WireKey>
    ensures place { (place : ℕ) × StandsAt (feed_keys web.now line.sink line.inlet) place result
        × IsPlace labels.now line (feed_hops web.now line.sink line.inlet) place }
    ensures first { AreInOrder labels.now (feed_hops web.now line.sink line.inlet) →
        result ≡ first_later labels.now line (feed_hops web.now line.sink line.inlet) }
{
    sought_place(web, labels, line)
}

fn sought_place(web: &Web, labels: &[u32], line: Line) -> Option<WireKey>
    ensures { (place : ℕ) × StandsAt (feed_keys web.now line.sink line.inlet) place result
        × IsPlace labels.now line (feed_hops web.now line.sink line.inlet) place }
{
    web.laws();
    let mut next = None;
    let mut last = web.feed_last(line.sink, line.inlet);
    while let Some(hop) = last {
        if !is_later(labels, line, hop) {
            return next;
        }
        next = Some(hop.key());
        last = web.feed_before(hop);
    }
    next
}

/// Whether a feed comes later than a line.
fn is_later(labels: &[u32], line: Line, hop: Hop) -> bool
    ensures { result ≡ comes_later labels.now line hop }
{
    let label = label_of(labels, line.source);
    let other = label_of(labels, hop.node());
    label < other || label == other && line.outlet < hop.port()
}

fn label_of(labels: &[u32], node: u32) -> u32
    ensures { result ≡ label_at labels.now node }
{
    match labels.get(node as usize) {
        Some(label) => *label,
        None => 0,
    }
}
