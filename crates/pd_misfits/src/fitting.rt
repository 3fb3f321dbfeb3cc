//! Whether a wire fits where a box is of another kind, and whether it turns.

ghost use Rattle.std.specs.Prelude.{◌≡◌};
ghost use Rattle.pd_object.specs.Ports.{IsSmallKind};
ghost use Rattle.pd_web.specs.Hops.{signal_in as signal_in_so};
ghost use Rattle.pd_wiring.specs.Changes.{is_signal_line as is_signal_line_so};
ghost use Rattle.pd_misfits.specs.Misfits.{fits_between as fits_between_so, is_at as is_at_so, is_fit as is_fit_so, is_signal_with as is_signal_with_so, picks as picks_so, turns as turns_so, wants as wants_so};

use crate::ports::{is_made, jack_of};
use crate::wires::Fate;
use pd_grove::Side;
use pd_kind::Kind;
use pd_web::{Jack, Line, Web};

/// Whether the wire along a line is one at the box, and one of those that are meant where that is of a kind.
pub(crate) fn picks(fate: Fate, web: &Web, key: u32, kind: &Kind, line: Line) -> bool
    requires small { IsSmallKind kind.now }
    ensures { result ≡ picks_so fate web.now key kind.now line }
{
    is_at(key, line) && wants(fate, web, key, kind, line)
}

/// Whether the wire along a line is one of those that are meant.
pub(crate) fn wants(fate: Fate, web: &Web, key: u32, kind: &Kind, line: Line) -> bool
    requires small { IsSmallKind kind.now }
    ensures { result ≡ wants_so fate web.now key kind.now line }
{
    match fate {
        Fate::Goes => !is_fit(web, key, kind, line),
        Fate::Turns => turns(web, key, kind, line),
    }
}

/// Whether the wire along a line fits where the box of the key is of a kind, but becomes a signal wire then or ceases to be one.
pub fn turns(web: &Web, key: u32, kind: &Kind, line: Line) -> bool
    requires small { IsSmallKind kind.now }
    ensures { result ≡ turns_so web.now key kind.now line }
{
    is_fit(web, key, kind, line)
        && is_signal_with(web, key, kind, line) != is_signal_line(web, line)
}

/// Whether it is a signal wire where the box of the key is of a kind.
fn is_signal_with(web: &Web, key: u32, kind: &Kind, line: Line) -> bool
    requires small { IsSmallKind kind.now }
    ensures { result ≡ is_signal_with_so web.now key kind.now line }
{
    let from = jack_of(web, key, kind, Side::Outlets, line.source, line.outlet);
    let to = jack_of(web, key, kind, Side::Inlets, line.sink, line.inlet);
    signal_in(from) && signal_in(to)
}

/// Whether a port is there and carries signals.
fn signal_in(port: Option<Jack>) -> bool
    ensures { result ≡ signal_in_so port }
{
    match port {
        Some(port) => port.is_signal,
        None => false,
    }
}

/// Whether it is a signal wire now.
fn is_signal_line(web: &Web, line: Line) -> bool
    ensures { result ≡ is_signal_line_so web.now line }
{
    web.outlet_signal_at(line.source, line.outlet) && web.inlet_signal_at(line.sink, line.inlet)
}

/// Whether a line leads from a box or to it.
fn is_at(key: u32, line: Line) -> bool
    ensures { result ≡ is_at_so key line }
{
    line.source == key || line.sink == key
}

/// Whether the wire along a line fits where the box of the key is of a kind.
fn is_fit(web: &Web, key: u32, kind: &Kind, line: Line) -> bool
    requires small { IsSmallKind kind.now }
    ensures { result ≡ is_fit_so web.now key kind.now line }
{
    let from = jack_of(web, key, kind, Side::Outlets, line.source, line.outlet);
    let to = jack_of(web, key, kind, Side::Inlets, line.sink, line.inlet);
    let made = is_made(web, key, kind, line.sink);
    fits_between(from, to, made)
}

/// Whether a wire between two ports fits.
fn fits_between(from: Option<Jack>, to: Option<Jack>, made: bool) -> bool
    ensures { result ≡ fits_between_so from to made }
{
    match (from, to) {
        (Some(from), Some(to)) => !(from.is_signal && !to.is_signal && made),
        _ => false,
    }
}
