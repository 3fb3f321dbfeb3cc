//! The wires at a port of a box, in their order.

ghost use Rattle.std.specs.Prelude.{◌≡◌, ◌+◌, ℕ, Some, slice_get, IfOk};
ghost use Rattle.pd_web.specs.Changes.{Meet};
ghost use Rattle.pd_present.specs.Presents.{number_in};
ghost use Rattle.pd_taking.specs.Loosening.{hops_at, line_at};
ghost use Rattle.pd_misfits.specs.Shedding.{AreWiresAt};
ghost use Rattle.pd_leaving.specs.Wires.{port_wires, wire_at as wire_so};

use pd_canvas::Wire;
use pd_grove::Side;
use pd_misfits::BoxWire;
use pd_patch::Patch;
use pd_web::{Hop, Line, Spot, Web};
use std::alloc::{AllocError, Global};

/// The wires at a port of a box, with the numbers of their boxes.
///
/// # Errors
///
/// `AllocError` where memory ran out.
pub fn port_wires_at(alloc: Global, patch: &Patch, port: Spot) -> Result<Vec<BoxWire>, AllocError>
    requires meet { Meet patch.now.web }
    ensures told { IfOk result (λ v. v.items ≡ port_wires patch.now port.node port.side port.port) }
    ensures wires { IfOk result (λ v. AreWiresAt patch.now.web port.node v.items) }
{
    patch.web.laws();
    let mut found = Vec::new(alloc);
    let mut next = first_at(&patch.web, port);
    while let Some(hop) = next {
        found.push(wire_at(patch.numbers.as_slice(), port, hop))?;
        next = next_at(&patch.web, port, hop);
    }
    Ok(found)
}

/// The first wire at a port.
fn first_at(web: &Web, port: Spot) -> Option<Hop>
    ensures { result ≡ slice_get (hops_at web.now port.side port.node port.port) 0 }
{
    match port.side {
        Side::Inlets => web.feed_first(port.node, port.port),
        Side::Outlets => web.fan_first(port.node, port.port),
    }
}

/// The wire behind one at a port.
fn next_at(web: &Web, port: Spot, hop: Hop) -> Option<Hop>
    ensures { (i : ℕ) → slice_get (hops_at web.now port.side port.node port.port) i ≡ Some hop →
        result ≡ slice_get (hops_at web.now port.side port.node port.port) (i + 1) }
{
    match port.side {
        Side::Inlets => web.feed_next(hop),
        Side::Outlets => web.fan_next(hop),
    }
}

/// A wire at a port with the numbers of its boxes.
fn wire_at(numbers: &[u32], port: Spot, hop: Hop) -> BoxWire
    ensures { result ≡ wire_so numbers.now port.side port.node port.port hop }
{
    let line = line_of(port, hop);
    BoxWire {
        wire: Wire {
            source: number_of(numbers, line.source),
            outlet: line.outlet,
            sink: number_of(numbers, line.sink),
            inlet: line.inlet,
        },
        line,
        key: hop.key(),
    }
}

/// Along which line a wire at a port leads.
fn line_of(port: Spot, hop: Hop) -> Line
    ensures { result ≡ line_at port.side port.node port.port hop }
{
    match port.side {
        Side::Inlets => Line {
            source: hop.node(),
            outlet: hop.port(),
            sink: port.node,
            inlet: port.port,
        },
        Side::Outlets => Line {
            source: port.node,
            outlet: port.port,
            sink: hop.node(),
            inlet: hop.port(),
        },
    }
}

fn number_of(numbers: &[u32], key: u32) -> u32
    ensures { result ≡ number_in numbers.now key }
{
    match numbers.get(key as usize) {
        Some(number) => *number,
        None => 0,
    }
}
