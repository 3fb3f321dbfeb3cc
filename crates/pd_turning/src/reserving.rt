//! Room set aside for wires that come back.

ghost use Rattle.std.specs.Prelude.{◌≡◌, ◌<◌, ◌+◌, ℕ, Some, cond, length, slice_get, IfOk, OnOk};
ghost use Rattle.pd_links.specs.Linked.{SameLinks, TakesFrom, TakesInto};
ghost use Rattle.pd_web.specs.Changes.{KeepsRoom};
ghost use Rattle.pd_wiring.specs.Changes.{CanRewire, SameButRoom, StaysBuilt};
ghost use Rattle.pd_turning.specs.Notes.{TakesNotes};
ghost use Rattle.pd_misfits.specs.declared.wires.BoxWire.{BoxWire as BoxWireSo};
ghost use Rattle.pd_turning.specs.Room.{count_from, count_into, NeedsFrom, NeedsInto, TakesBack};

use crate::noting::NotedWire;
use pd_links::Links;
use pd_misfits::BoxWire;
use pd_patch::Patch;
use std::alloc::{AllocError, Global};

/// Sets room aside, so that these wires can be noted, and come back one after the other once they were taken out. All that the patch tells stays,
/// whatever the answer. It gives an empty list with room for the notes.
///
/// # Errors
///
/// `AllocError` where memory ran out, or where a box has as many signal wires as can be counted.
pub fn reserve_back(
    alloc: Global,
    patch: &mut Patch,
    wires: &[BoxWire],
) -> Result<Vec<NotedWire>, AllocError>
    ensures same { SameButRoom patch.old patch.new }
    ensures kept { KeepsRoom patch.old.web patch.new.web }
    ensures rewires { CanRewire patch.old → CanRewire patch.new }
    ensures built { StaysBuilt patch.old patch.new }
    ensures notes { IfOk result (λ room. TakesNotes room (length wires.now)) }
    ensures room { OnOk result (TakesBack patch.new wires.now) }
{
    let count = wires.len();
    let mut room = Vec::new(alloc);
    room.reserve(count)?;
    patch.web.reserve(alloc, 0, 2 * count, count)?;
    reserve_links(&mut patch.links, wires)?;
    Ok(room)
}

/// Room for all of them among the signal wires.
fn reserve_links(links: &mut Links, wires: &[BoxWire]) -> Result<(), AllocError>
    ensures same { SameLinks links.old links.new }
    ensures from { OnOk result ((x : ℕ) → TakesFrom links.new x (count_from wires.now x)) }
    ensures into { OnOk result ((x : ℕ) → TakesInto links.new x (count_into wires.now x)) }
{
    for place in 0..wires.len() {
        let line = wires[place].line;
        let from = from_needed(wires, place)?;
        let into = into_needed(wires, place)?;
        links.reserve_ends(line.source, from, line.sink, into)?;
    }
    Ok(())
}

/// How many wires from the box of the one at a place are to be reckoned with.
fn from_needed(wires: &[BoxWire], place: usize) -> Result<u32, AllocError>
    requires { place < length wires.now }
    ensures { IfOk result (λ n. (m : BoxWireSo) → slice_get wires.now place ≡ Some m → NeedsFrom wires.now place m n) }
{
    let node = wires[place].line.source;
    if place > 0 && wires[place - 1].line.source == node {
        return Ok(0);
    }
    from_count(wires, node)
}

/// How many wires to its box.
fn into_needed(wires: &[BoxWire], place: usize) -> Result<u32, AllocError>
    requires { place < length wires.now }
    ensures { IfOk result (λ n. (m : BoxWireSo) → slice_get wires.now place ≡ Some m → NeedsInto wires.now place m n) }
{
    let node = wires[place].line.sink;
    if place > 0 && wires[place - 1].line.sink == node {
        return Ok(0);
    }
    into_count(wires, node)
}

/// How many of them come from a box.
fn from_count(wires: &[BoxWire], node: u32) -> Result<u32, AllocError>
    ensures { IfOk result (λ count. count ≡ count_from wires.now node) }
{
    let mut count: u32 = 0;
    for wire in wires {
        count = counted(count, wire.line.source == node)?;
    }
    Ok(count)
}

/// How many of them lead to a box.
fn into_count(wires: &[BoxWire], node: u32) -> Result<u32, AllocError>
    ensures { IfOk result (λ count. count ≡ count_into wires.now node) }
{
    let mut count: u32 = 0;
    for wire in wires {
        count = counted(count, wire.line.sink == node)?;
    }
    Ok(count)
}

/// One more, if this is one.
fn counted(count: u32, is_one: bool) -> Result<u32, AllocError>
    ensures { IfOk result (λ more. more ≡ count + cond is_one 1 0) }
{
    if !is_one {
        return Ok(count);
    }
    match count.checked_add(1) {
        Some(more) => Ok(more),
        None => Err(AllocError),
    }
}
