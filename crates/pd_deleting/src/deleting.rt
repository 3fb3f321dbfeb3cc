//! A box that an edit deletes, taken out of the running patch with all that lies in it, or with the port of the box around that it is.

ghost use Rattle.std.specs.Prelude.{◌≡◌, ◌<◌, ◌-◌, ◌^◌, ℕ, List, min, map, length, Ok, Some, None, IsSome, IfOk, IfErr, OnErr};
ghost use Rattle.slab.specs.Slab.{get};
ghost use Rattle.pd_grove.specs.Owning.{board_in};
ghost use Rattle.pd_grove.specs.Telling.{inner_in};
ghost use Rattle.pd_grove.specs.TextOrder.{cell_under, keys_of_spots};
ghost use Rattle.pd_web.specs.Changes.{wires_told, Meet};
ghost use Rattle.pd_wiring.specs.declared.refusals.EditRefusal.TheVariants.{NoMemory};
ghost use Rattle.pd_wiring.specs.Changes.{SameButRoom};
ghost use Rattle.pd_boxes.specs.Put.{CanPut};
ghost use Rattle.pd_adding.specs.Coming.{own_zero};
ghost use Rattle.pd_adding.specs.Counted.{sound_seen, sound_among};
ghost use Rattle.pd_adding.specs.Counts.{counts_less, AreWithin};
ghost use Rattle.pd_clearing.specs.Clearing.{CanClear};
ghost use Rattle.pd_leaving.specs.Leaving.{CanTakePort};
ghost use Rattle.pd_deleting.specs.Deletes.{going as going_so, values_of as values_so, ClearsBox, DeletesBox, IsNotDeleted, TakesPort};

use crate::asking::{Going, box_to_go, can_lose_port, port_of};
use pd_adding::Counts;
use pd_atom::Symbols;
use pd_clearing::{clear, part_of};
use pd_clock::Rate;
use pd_grove::{Grove, Spot as TextSpot};
use pd_kind::sound_size;
use pd_leaving::{loss_room_changes_nothing, reserve_loss, take_port};
use pd_misfits::BoxWire;
use pd_order::Steps;
use pd_patch::Patch;
use pd_web::Spot;
use pd_wiring::EditRefusal;
use std::alloc::Global;
use std::sync::ledger::Ledger;

/// A box that an edit deleted: the key that it had, the key of its canvas, and the counts of the patch without it and all that lay in it. Where it was a
/// port of the box around, also the key of the canvas in which that lies, and the wires there that went with the port, with the numbers that
/// they had.
#[derive(Debug, Drop)]
pub struct OldBox {
    pub key: u32,
    pub canvas: u32,
    pub counts: Counts,
    pub around: Option<u32>,
    pub gone: Vec<BoxWire>,
}

/// Deletes the box of a number in the canvas at a path of the patch's own document, with all that lies in it and its wires. A port of the box
/// around goes from that with the wires there. `counts` are the counts of the patch. Looks at signal wires are counted in `steps`.
///
/// # Errors
///
/// The first reason against it: `NoCanvas`, `NoBox`. Then `NoMemory`.
pub fn delete_box<L: Ledger>(
    alloc: Global,
    patch: &mut Patch,
    counts: Counts,
    path: &[u32],
    number: u32,
    symbols: &mut Symbols,
    steps: &mut Steps<L>,
) -> Result<OldBox, EditRefusal>
    requires can { CanPut patch.old }
    requires meet { Meet patch.old.web }
    requires counted { counts.wires ≡ wires_told patch.old.web }
    ensures deleted { IfOk result (λ b. DeletesBox patch.old patch.new counts symbols.old path.now number steps.old steps.new b) }
    ensures refused { IfErr result (λ why. IsNotDeleted patch.old patch.new path.now number why) }
    ensures goes_on { CanPut patch.new }
    ensures meet { Meet patch.new.web }
    ensures within { AreWithin counts → IfOk result (λ b. AreWithin b.counts) }
    ensures zero { own_zero patch.new ≡ own_zero patch.old }
    ensures as_many { OnErr result (wires_told patch.new.web ≡ wires_told patch.old.web) }
    ensures names { symbols.new ≡ symbols.old }
    ensures no_looks { OnErr result (steps.new ≡ steps.old) }
{
    let going = box_to_go(patch, path, number)?;
    match port_of(patch, going.key) {
        Some(port) => take_out(alloc, patch, counts, going, port, symbols, steps),
        None => clear_out(alloc, patch, counts, going, symbols, steps),
    }
}

/// Takes a box that is no port of a box around out, with all that lies in it and with its wires.
fn clear_out<L: Ledger>(
    alloc: Global,
    patch: &mut Patch,
    counts: Counts,
    going: Going,
    symbols: &mut Symbols,
    steps: &mut Steps<L>,
) -> Result<OldBox, EditRefusal>
    requires can { CanClear patch.old going.place going.key }
    requires counted { counts.wires ≡ wires_told patch.old.web }
    ensures cleared { IfOk result (λ b. (path : List ℕ) → going_so patch.old path going.place.number ≡ Ok (going.place.canvas, going.key) →
        ClearsBox patch.old patch.new counts symbols.old path going.place.number steps.old steps.new b) }
    ensures short { IfErr result (λ why. (why ≡ NoMemory) × SameButRoom patch.old patch.new) }
    ensures names { symbols.new ≡ symbols.old }
    ensures no_looks { OnErr result (steps.new ≡ steps.old) }
{
    let Ok(part) = part_of(alloc, &patch.grove, going.key) else {
        return Err(EditRefusal::NoMemory);
    };
    let keys = patch.grove.nodes_end();
    let Ok(()) = patch.web.reserve(alloc, keys, 0, 0) else {
        return Err(EditRefusal::NoMemory);
    };
    let left = counts_without(counts, &patch.grove, patch.rate, &part.spots);
    let wires = clear(
        patch,
        alloc,
        going.place,
        &part,
        counts.wires,
        symbols,
        steps,
    );
    Ok(OldBox {
        key: going.key,
        canvas: going.place.canvas,
        counts: Counts { wires, ..left },
        around: None,
        gone: Vec::new(alloc),
    })
}

/// Takes a box that is a port of the box around out with its wires, and that port with the wires there.
fn take_out<L: Ledger>(
    alloc: Global,
    patch: &mut Patch,
    counts: Counts,
    going: Going,
    port: Spot,
    symbols: &mut Symbols,
    steps: &mut Steps<L>,
) -> Result<OldBox, EditRefusal>
    requires can { inner_in (get patch.old.grove.nodes going.key) ≡ None → ((k : ℕ) → IsSome (get patch.old.grove.nodes k) → k < length patch.old.values.items) →
        CanTakePort patch.old going.place going.key port.node port.side port.port }
    requires meet { Meet patch.old.web }
    requires counted { counts.wires ≡ wires_told patch.old.web }
    ensures taken { IfOk result (λ b. (path : List ℕ) → going_so patch.old path going.place.number ≡ Ok (going.place.canvas, going.key) →
        TakesPort patch.old patch.new counts symbols.old path going.place.number steps.old steps.new b) }
    ensures short { IfErr result (λ why. (why ≡ NoMemory) × SameButRoom patch.old patch.new) }
    ensures names { symbols.new ≡ symbols.old }
    ensures no_looks { OnErr result (steps.new ≡ steps.old) }
{
    loss_room_changes_nothing();
    if !can_lose_port(patch, going.key) {
        return Err(EditRefusal::NoMemory);
    }
    let around = canvas_of(&patch.grove, port.node);
    let values = values_at(&patch.grove, patch.rate, going.key);
    let left = less(counts, 1, values);
    let Ok(loss) = reserve_loss(alloc, patch, going.key, port) else {
        return Err(EditRefusal::NoMemory);
    };
    let taken = take_port(
        patch,
        alloc,
        going.place,
        loss,
        counts.wires,
        symbols,
        steps,
    );
    Ok(OldBox {
        key: going.key,
        canvas: going.place.canvas,
        counts: Counts {
            wires: taken.left,
            ..left
        },
        around,
        gone: taken.gone,
    })
}

/// The canvas in which a box lies.
fn canvas_of(grove: &Grove, key: u32) -> Option<u32>
    ensures { result ≡ board_in (get grove.now.nodes key) }
{
    match grove.node(key) {
        Some(node) => Some(node.board),
        None => None,
    }
}

/// The counts of a patch without these boxes, with the wires that there are.
fn counts_without(counts: Counts, grove: &Grove, rate: Rate, part: &[TextSpot]) -> Counts
    ensures { result ≡ counts_less counts (length part.now) (values_so rate grove.now (keys_of_spots part.now)) counts.wires }
{
    less(counts, part.len(), values_of(grove, rate, part))
}

/// The counts of a patch with so many boxes and so many values less, with the wires that there are.
fn less(counts: Counts, boxes: usize, values: u64) -> Counts
    ensures { result ≡ counts_less counts boxes values counts.wires }
{
    let left = (counts.boxes as usize).saturating_sub(boxes);
    Counts {
        boxes: left as u32,
        wires: counts.wires,
        sound: counts.sound.saturating_sub(values),
        next_zero: counts.next_zero,
    }
}

/// How many values of tables, arrays and delay lines boxes keep.
fn values_of(grove: &Grove, rate: Rate, part: &[TextSpot]) -> u64
    ensures { result ≡ min (sound_among rate (map (cell_under (get grove.now.nodes)) (keys_of_spots part.now))) (2 ^ 64 - 1) }
{
    let mut values: u64 = 0;
    for spot in part {
        values = values.saturating_add(values_at(grove, rate, spot.node));
    }
    values
}

/// How many a box keeps; 0 where none lives under the key.
fn values_at(grove: &Grove, rate: Rate, key: u32) -> u64
    ensures { result ≡ sound_seen rate (cell_under (get grove.now.nodes) key) }
{
    match grove.node(key) {
        Some(node) => sound_size(&node.kind, rate),
        None => 0,
    }
}
