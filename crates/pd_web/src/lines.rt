//! Which wires fit, and the lines that they are by the keys of their boxes.

ghost use Rattle.std.specs.Prelude.{◌≡◌, slice_get};
ghost use Rattle.std.specs.Option.{option_copied};
ghost use Rattle.pd_tree.specs.Ports.{fits as fits_in, joins};
ghost use Rattle.pd_web.specs.Sockets.{made_at as made_of_key};
ghost use Rattle.pd_web.specs.Lines.{laid_boxes, line_in, line_from, line_to, port_numbered, signal_of, made_under as made_of_number};

use crate::sockets::{Port, Sockets, Spot, port_at, sockets_at};
use pd_canvas::Wire;
use pd_grove::Side;

/// A wire by the keys of its boxes and the numbers of its ports.
#[derive(Clone, Copy, Debug, PartialEq, Eq)]
pub struct Line {
    pub source: u32,
    pub outlet: u32,
    pub sink: u32,
    pub inlet: u32,
}

impl Line {
    /// The outlet from which it comes.
    pub fn from(self) -> Spot
        ensures { result ≡ line_from self }
    {
        Spot {
            node: self.source,
            side: Side::Outlets,
            port: self.outlet,
        }
    }

    /// The inlet to which it leads.
    pub fn to(self) -> Spot
        ensures { result ≡ line_to self }
    {
        Spot {
            node: self.sink,
            side: Side::Inlets,
            port: self.inlet,
        }
    }
}

/// A port of the box of a number, where the boxes have these keys.
fn port_under<'a>(
    sockets: &'a [Sockets],
    keys: &[u32],
    side: Side,
    number: u32,
    port: u32,
) -> Option<&'a Port>
    ensures { option_copied result ≡ port_numbered sockets.now keys.now side number port }
{
    let key = keys.get(number as usize)?;
    port_at(sockets, side, *key, port)
}

/// Whether the box of a number is made.
fn made_under(sockets: &[Sockets], keys: &[u32], number: u32) -> bool
    ensures { result ≡ made_of_number sockets.now (slice_get keys.now number) }
{
    match keys.get(number as usize) {
        Some(key) => made_at(sockets, *key),
        None => false,
    }
}

fn made_at(sockets: &[Sockets], key: u32) -> bool
    ensures { result ≡ made_of_key sockets.now key }
{
    match sockets_at(sockets, key) {
        Some(own) => own.is_made,
        None => false,
    }
}

/// Whether a wire of a canvas fits whose boxes have these keys.
pub(crate) fn fits(sockets: &[Sockets], keys: &[u32], wire: &Wire) -> bool
    ensures { result ≡ fits_in (laid_boxes sockets.now keys.now) wire.now }
{
    let source = port_under(sockets, keys, Side::Outlets, wire.source, wire.outlet);
    let sink = port_under(sockets, keys, Side::Inlets, wire.sink, wire.inlet);
    let is_made = made_under(sockets, keys, wire.sink);
    fits_between(is_made, source, sink)
}

fn fits_between(is_made: bool, source: Option<&Port>, sink: Option<&Port>) -> bool
    ensures { result ≡ joins is_made (signal_of (option_copied source.entry)) (signal_of (option_copied sink.entry)) }
{
    let (Some(source), Some(sink)) = (source, sink) else {
        return false;
    };
    !(source.jack.is_signal && !sink.jack.is_signal && is_made)
}

/// The line of a wire, where it fits.
pub(crate) fn line_of(sockets: &[Sockets], keys: &[u32], wire: &Wire) -> Option<Line>
    ensures { result ≡ line_in sockets.now keys.now wire.now }
{
    if !fits(sockets, keys, wire) {
        return None;
    }
    Some(Line {
        source: keys[wire.source as usize],
        outlet: wire.outlet,
        sink: keys[wire.sink as usize],
        inlet: wire.inlet,
    })
}
