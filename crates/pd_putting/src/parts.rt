//! A box that grew with whatever lies in it, put into its canvas at a number.

ghost use Rattle.std.specs.Prelude.{◌≡◌, ◌≤◌, ◌+◌, length, IfOk, IfErr, OnErr};
ghost use Rattle.slab.specs.Slab.{ContainsKey};
ghost use Rattle.pd_tree.specs.Trees.{stands_in};
ghost use Rattle.pd_grove.specs.States.{AreSmall};
ghost use Rattle.pd_web.specs.Canvases.{keys_at};
ghost use Rattle.pd_web.specs.Changes.{wires_told, Meet};
ghost use Rattle.pd_boxes.specs.Room.{SameButRoom};
ghost use Rattle.pd_boxes.specs.Put.{CanPut};
ghost use Rattle.pd_instances.specs.Room.{IsOnePart};
ghost use Rattle.pd_adding.specs.Adding.{IsAdded};
ghost use Rattle.pd_adding.specs.Coming.{own_zero};
ghost use Rattle.pd_adding.specs.Growing.{Added};
ghost use Rattle.pd_putting.specs.Adds.{keys_within, put_looks, HasComeAt};
ghost use Rattle.pd_putting.specs.Places.{looks_anywhere, FitsIn, HasGrown, HoldsCanvas, PutsPartAt, StaysOut};

use crate::adding::NewBox;
use pd_adding::Grown;
use pd_atom::Symbols;
use pd_boxes::Place;
use pd_clock::Time;
use pd_instances::{NewPart, put_part, reserve_part};
use pd_order::Steps;
use pd_patch::Patch;
use pd_tree::Row;
use pd_wiring::EditRefusal;
use std::alloc::{AllocError, Global};
use std::sync::ledger::Ledger;

/// Puts what grew aside into its canvas at a number, where it is a box that holds a canvas: with all that lies in it.
///
/// # Errors
///
/// `NoMemory` where memory ran out, or where the patch has as many boxes as can be counted.
pub(crate) fn put_whole<L: Ledger>(
    alloc: Global,
    patch: &mut Patch,
    grown: Grown,
    number: u32,
    now: Time,
    symbols: &mut Symbols,
    steps: &mut Steps<L>,
) -> Result<NewBox, EditRefusal>
    requires can { CanPut patch.old }
    requires meet { Meet patch.old.web }
    requires here { ContainsKey patch.old.grove.boards grown.canvas }
    requires within { number ≤ length (keys_at patch.old.grove grown.canvas) }
    requires grown { HasGrown grown symbols.old }
    requires shallow { FitsIn patch.old grown }
    requires holder { HoldsCanvas (stands_in grown.rows.items) }
    ensures put { IfOk result (λ b. (a : Added) → IsAdded grown a → a.known.names ≡ symbols.old → HasComeAt patch.old patch.new number now a b.key) }
    ensures part { IfOk result (λ b. b.part.items ≡ keys_within patch.new b.key) }
    ensures canvas { IfOk result (λ b. b.canvas ≡ grown.canvas) }
    ensures counts { IfOk result (λ b. b.counts ≡ grown.counts) }
    ensures refused { IfErr result (λ why. (a : Added) → IsAdded grown a → StaysOut patch.old patch.new number a why) }
    ensures goes_on { CanPut patch.new }
    ensures meet { Meet patch.new.web }
    ensures as_many { OnErr result (wires_told patch.new.web ≡ wires_told patch.old.web) }
    ensures zero { own_zero patch.new ≡ own_zero patch.old }
    ensures table { symbols.new ≡ symbols.old }
    ensures looks { IfOk result (λ b. steps.new ≤ steps.old + looks_anywhere patch.new b.key) }
    ensures last_looks { number ≡ length (keys_at patch.old.grove grown.canvas) → IfOk result (λ b. steps.new ≤ steps.old + put_looks patch.new b.key) }
    ensures no_looks { OnErr result (steps.new ≡ steps.old) }
{
    let canvas = grown.canvas;
    let counts = grown.counts;
    let place = Place { canvas, number };
    let Ok(put) = put_boxes(alloc, patch, place, grown.rows, now, symbols, steps) else {
        return Err(EditRefusal::NoMemory);
    };
    Ok(NewBox {
        key: put.key,
        canvas,
        counts,
        part: put.keys,
    })
}

/// Sets room aside for a box that comes into a live canvas at a number with all that lies in it, puts it in, and gives its key and those of all
/// that lies in it.
///
/// # Errors
///
/// `AllocError` where memory ran out, or where the patch has as many boxes as can be counted.
fn put_boxes<L: Ledger>(
    alloc: Global,
    patch: &mut Patch,
    place: Place,
    rows: Vec<Row>,
    now: Time,
    symbols: &mut Symbols,
    steps: &mut Steps<L>,
) -> Result<NewPart, AllocError>
    requires can { CanPut patch.old }
    requires meet { Meet patch.old.web }
    requires here { ContainsKey patch.old.grove.boards place.canvas }
    requires number { place.number ≤ length (keys_at patch.old.grove place.canvas) }
    requires small { AreSmall rows.items }
    requires part { IsOnePart patch.old place (stands_in rows.items) }
    requires holder { HoldsCanvas (stands_in rows.items) }
    ensures put { IfOk result (λ part. PutsPartAt patch.old patch.new symbols.old place now (stands_in rows.items) part.key steps.old steps.new) }
    ensures keys { IfOk result (λ part. part.keys.items ≡ keys_within patch.new part.key) }
    ensures short { OnErr result (SameButRoom patch.old patch.new) }
    ensures goes_on { CanPut patch.new }
    ensures meet { Meet patch.new.web }
    ensures as_many { OnErr result (wires_told patch.new.web ≡ wires_told patch.old.web) }
    ensures zero { own_zero patch.new ≡ own_zero patch.old }
    ensures table { symbols.new ≡ symbols.old }
    ensures looks { IfOk result (λ part. steps.new ≤ steps.old + put_looks patch.new part.key) }
    ensures anywhere { IfOk result (λ part. steps.new ≤ steps.old + looks_anywhere patch.new part.key) }
    ensures no_looks { OnErr result (steps.new ≡ steps.old) }
{
    let room = reserve_part(alloc, patch, place, rows, now, symbols)?;
    Ok(put_part(patch, room, symbols, steps))
}
