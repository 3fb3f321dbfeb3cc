//! The wires at a box that don't fit, and those that turn, in the order of the wires of their canvas.

ghost use Rattle.std.specs.Prelude.{◌≡◌, ◌/◌, ◌%◌, ◌++◌, IfOk, OnOk};
ghost use Rattle.std.specs.List.{flat_map};
ghost use Rattle.pd_object.specs.Ports.{IsSmallKind};
ghost use Rattle.pd_web.specs.Canvases.{keys_at};
ghost use Rattle.pd_web.specs.Changes.{Meet};
ghost use Rattle.pd_patch.specs.Listing.{IsThere};
ghost use Rattle.pd_wiring.specs.Changes.{CanRewire};
ghost use Rattle.pd_misfits.specs.Misfits.{misfits, outlet_wires, picked, turning, wire_of as wire_so, wire_picked};
ghost use Rattle.pd_misfits.specs.Ranks.{wires_under};
ghost use Rattle.pd_misfits.specs.Shedding.{AreWiresAt};

use crate::fitting::picks;
use crate::ranking::{number_of, ranks_of};
use crate::wires::{BoxWire, Fate};
use pd_canvas::Wire;
use pd_grove::Side;
use pd_kind::Kind;
use pd_patch::Patch;
use pd_web::{Line, Spot, Web};
use pd_wire::WireKey;
use std::alloc::{AllocError, Global};

/// The wires at a box of a canvas that don't fit where it is of a kind, in the order of the wires of the canvas.
///
/// # Errors
///
/// `AllocError` where memory ran out.
pub fn misfits_at(
    alloc: Global,
    patch: &Patch,
    canvas: u32,
    key: u32,
    kind: &Kind,
) -> Result<Vec<BoxWire>, AllocError>
    requires small { IsSmallKind kind.now }
    requires runs { CanRewire patch.now }
    requires meet { Meet patch.now.web }
    requires here { IsThere (keys_at patch.now.grove canvas) key }
    ensures told { IfOk result (λ v. v.items ≡ misfits patch.now canvas key kind.now) }
    ensures wires { IfOk result (λ v. AreWiresAt patch.now.web key v.items) }
{
    wires_at(alloc, Fate::Goes, patch, canvas, key, kind)
}

/// Those that fit, but become signal wires or cease to be such, in the same order.
///
/// # Errors
///
/// `AllocError` where memory ran out.
pub fn turning_at(
    alloc: Global,
    patch: &Patch,
    canvas: u32,
    key: u32,
    kind: &Kind,
) -> Result<Vec<BoxWire>, AllocError>
    requires small { IsSmallKind kind.now }
    requires runs { CanRewire patch.now }
    requires meet { Meet patch.now.web }
    requires here { IsThere (keys_at patch.now.grove canvas) key }
    ensures told { IfOk result (λ v. v.items ≡ turning patch.now canvas key kind.now) }
    ensures wires { IfOk result (λ v. AreWiresAt patch.now.web key v.items) }
{
    wires_at(alloc, Fate::Turns, patch, canvas, key, kind)
}

/// Those that are meant.
fn wires_at(
    alloc: Global,
    fate: Fate,
    patch: &Patch,
    canvas: u32,
    key: u32,
    kind: &Kind,
) -> Result<Vec<BoxWire>, AllocError>
    requires small { IsSmallKind kind.now }
    requires runs { CanRewire patch.now }
    requires meet { Meet patch.now.web }
    requires here { IsThere (keys_at patch.now.grove canvas) key }
    ensures told { IfOk result (λ v. v.items ≡ picked fate patch.now canvas key kind.now) }
    ensures wires { IfOk result (λ v. AreWiresAt patch.now.web key v.items) }
{
    patch.web.laws();
    let ranks = ranks_of(alloc, fate, &patch.web, patch.numbers.as_slice(), key, kind)?;
    gather(alloc, fate, patch, canvas, key, kind, ranks.as_slice())
}

/// Those that come from these outlets of the canvas.
fn gather(
    alloc: Global,
    fate: Fate,
    patch: &Patch,
    canvas: u32,
    key: u32,
    kind: &Kind,
    ranks: &[u64],
) -> Result<Vec<BoxWire>, AllocError>
    requires small { IsSmallKind kind.now }
    ensures { IfOk result (λ v. v.items ≡ flat_map (wires_under fate patch.now.web patch.now.numbers.items (keys_at patch.now.grove canvas) key kind.now) ranks.now) }
{
    let mut found = Vec::new(alloc);
    for rank in ranks {
        push_under(fate, patch, canvas, key, kind, *rank, &mut found)?;
    }
    Ok(found)
}

/// Those that come from the outlet of a rank.
fn push_under(
    fate: Fate,
    patch: &Patch,
    canvas: u32,
    key: u32,
    kind: &Kind,
    rank: u64,
    found: &mut Vec<BoxWire>,
) -> Result<(), AllocError>
    requires small { IsSmallKind kind.now }
    ensures { OnOk result (found.new.items ≡ found.old.items
        ++ wires_under fate patch.now.web patch.now.numbers.items (keys_at patch.now.grove canvas) key kind.now rank) }
{
    let Some(node) = patch.grove.box_key(canvas, number_in(rank)) else {
        return Ok(());
    };
    push_outlet(
        fate,
        &patch.web,
        patch.numbers.as_slice(),
        key,
        kind,
        Spot {
            node,
            side: Side::Outlets,
            port: outlet_in(rank),
        },
        found,
    )
}

/// The number of the box of an outlet.
fn number_in(rank: u64) -> u32
    ensures { result ≡ rank / 4294967296 }
{
    (rank / 4_294_967_296) as u32
}

/// The number of an outlet among those of its box.
fn outlet_in(rank: u64) -> u32
    ensures { result ≡ rank % 4294967296 }
{
    (rank % 4_294_967_296) as u32
}

/// Those that come from an outlet.
fn push_outlet(
    fate: Fate,
    web: &Web,
    numbers: &[u32],
    key: u32,
    kind: &Kind,
    outlet: Spot,
    found: &mut Vec<BoxWire>,
) -> Result<(), AllocError>
    requires small { IsSmallKind kind.now }
    ensures { OnOk result (found.new.items ≡ found.old.items ++ outlet_wires fate web.now numbers.now key kind.now outlet.node outlet.port) }
{
    web.laws();
    let mut next = web.fan_first(outlet.node, outlet.port);
    while let Some(hop) = next {
        let line = Line {
            source: outlet.node,
            outlet: outlet.port,
            sink: hop.node(),
            inlet: hop.port(),
        };
        let wire = wire_of(numbers, hop.key(), line);
        push_wire(fate, web, key, kind, wire, found)?;
        next = web.fan_next(hop);
    }
    Ok(())
}

/// A wire, if it is one of them.
fn push_wire(
    fate: Fate,
    web: &Web,
    key: u32,
    kind: &Kind,
    wire: BoxWire,
    found: &mut Vec<BoxWire>,
) -> Result<(), AllocError>
    requires small { IsSmallKind kind.now }
    ensures { OnOk result (found.new.items ≡ found.old.items ++ wire_picked fate web.now key kind.now wire) }
{
    if picks(fate, web, key, kind, wire.line) {
        found.push(wire)?;
    }
    Ok(())
}

/// A wire with the numbers of its boxes.
fn wire_of(numbers: &[u32], key: WireKey, line: Line) -> BoxWire
    ensures { result ≡ wire_so numbers.now key line }
{
    BoxWire {
        wire: Wire {
            source: number_of(numbers, line.source),
            outlet: line.outlet,
            sink: number_of(numbers, line.sink),
            inlet: line.inlet,
        },
        line,
        key,
    }
}
