//! A box that becomes what grew aside.

ghost use Rattle.std.specs.Prelude.{◌≡◌, ◌≤◌, ◌∷◌, [], true, false, length, Some, None, IfOk, IfErr, OnErr};
ghost use Rattle.slab.specs.Slab.{get, ContainsKey};
ghost use Rattle.pd_grove.specs.declared.nodes.Node.{Node};
ghost use Rattle.pd_grove.specs.States.{AreSmall, IsFresh};
ghost use Rattle.pd_tree.specs.Trees.{stand_of, stands_in};
ghost use Rattle.pd_web.specs.Changes.{wires_told, Meet};
ghost use Rattle.pd_boxes.specs.Put.{CanPut, IsLeaf};
ghost use Rattle.pd_adding.specs.Adding.{IsAdded};
ghost use Rattle.pd_adding.specs.Coming.{own_zero};
ghost use Rattle.pd_adding.specs.Growing.{Added};
ghost use Rattle.pd_retyping.specs.Retypes.{CanBecome, HasBecome, with_wires};
ghost use Rattle.pd_retyping.specs.Becoming.{HasGrown, StaysItself};

use crate::alike::is_alike;
use crate::making::{changed_wires, make_other};
use crate::retyping::RetypedBox;
use pd_adding::{Counts, Grown, single_boxes};
use pd_atom::Symbols;
use pd_clock::{Rate, Time};
use pd_grove::{Seed, Seeds};
use pd_order::Steps;
use pd_patch::Patch;
use pd_tree::Row;
use pd_wiring::EditRefusal;
use std::alloc::{AllocError, Global};
use std::sync::ledger::Ledger;

/// Makes the box of a key what grew aside, where it can become that; the wires at it that don't fit any more go. `wires` is how many wires there are.
/// Looks at signal wires are counted in `steps`.
///
/// # Errors
///
/// `NoDocument` where it can't; `NoMemory` where memory ran out, or where the name that the new box owns has as many owners, its canvas as
/// many boxes in its order, or a box as many signal wires as can be counted.
pub(crate) fn become_grown<L: Ledger>(
    alloc: Global,
    patch: &mut Patch,
    key: u32,
    grown: Grown,
    wires: usize,
    now: Time,
    symbols: &mut Symbols,
    steps: &mut Steps<L>,
) -> Result<RetypedBox, EditRefusal>
    requires can { CanPut patch.old }
    requires meet { Meet patch.old.web }
    requires here { ContainsKey patch.old.grove.nodes key }
    requires grown { HasGrown grown symbols.old }
    requires counted { wires ≡ wires_told patch.old.web }
    ensures became { IfOk result (λ b. (n : Node) (a : Added) → get patch.old.grove.nodes key ≡ Some n → IsAdded grown a → a.known.names ≡ symbols.old →
        HasBecome patch.old patch.new now key n a b.gone.items steps.old steps.new) }
    ensures key { IfOk result (λ b. b.key ≡ key) }
    ensures canvas { IfOk result (λ b. b.canvas ≡ grown.canvas) }
    ensures counts { IfOk result (λ b. b.counts ≡ with_wires grown.counts (wires_told patch.new.web)) }
    ensures refused { IfErr result (λ why. (n : Node) (a : Added) → get patch.old.grove.nodes key ≡ Some n → IsAdded grown a → StaysItself patch.old patch.new key n a why) }
    ensures goes_on { CanPut patch.new }
    ensures meet { Meet patch.new.web }
    ensures fewer { wires_told patch.new.web ≤ wires_told patch.old.web }
    ensures as_many { OnErr result (wires_told patch.new.web ≡ wires_told patch.old.web) }
    ensures zero { own_zero patch.new ≡ own_zero patch.old }
    ensures table { symbols.new ≡ symbols.old }
    ensures no_looks { OnErr result (steps.new ≡ steps.old) }
{
    if !can_become(patch, key, &grown) {
        return Err(EditRefusal::NoDocument);
    }
    let canvas = grown.canvas;
    let counts = grown.counts;
    let Ok(seed) = seed_of(alloc, grown.rows, patch.rate, now) else {
        return Err(EditRefusal::NoMemory);
    };
    let Ok(changed) = changed_wires(alloc, patch, key, &seed.row.kind) else {
        return Err(EditRefusal::NoMemory);
    };
    let Ok(left) = make_other(alloc, patch, key, seed, &changed, wires, symbols, steps) else {
        return Err(EditRefusal::NoMemory);
    };
    let counts = counts_left(counts, left);
    Ok(RetypedBox {
        key,
        canvas,
        counts,
        gone: changed.gone,
    })
}

/// Counts with another number of wires.
pub(crate) fn counts_left(counts: Counts, wires: usize) -> Counts
    ensures { result ≡ with_wires counts wires }
{
    Counts {
        boxes: counts.boxes,
        wires,
        sound: counts.sound,
        next_zero: counts.next_zero,
    }
}

/// Whether the box of a key can become what grew.
fn can_become(patch: &Patch, key: u32, grown: &Grown) -> bool
    ensures yes { result ≡ true → (n : Node) (a : Added) → get patch.now.grove.nodes key ≡ Some n → IsAdded grown.now a → CanBecome patch.now key n a }
    ensures no { result ≡ false → (n : Node) (a : Added) → get patch.now.grove.nodes key ≡ Some n → IsAdded grown.now a → CanBecome patch.now key n a → ⊥ }
{
    single_boxes();
    let rows = grown.rows.as_slice();
    if rows.len() != 1 {
        return false;
    }
    let row = &rows[0];
    if row.sheet.is_some() {
        return false;
    }
    match patch.grove.node(key) {
        Some(node) => is_alike(patch, node, &row.kind),
        None => false,
    }
}

/// The seed of the one box of a list.
///
/// # Errors
///
/// `AllocError` where memory ran out.
fn seed_of(alloc: Global, rows: Vec<Row>, rate: Rate, now: Time) -> Result<Seed, AllocError>
    requires small { AreSmall rows.items }
    requires one { length rows.items ≡ 1 }
    ensures stand { IfOk result (λ s. stand_of s.row ∷ [] ≡ stands_in rows.items) }
    ensures fresh { IfOk result (IsFresh rate now) }
    ensures leaf { IfOk result (λ s. s.row.sheet ≡ None → s.row.boxes ≡ 0 → IsLeaf s) }
{
    let mut seeds = Seeds::prepare(alloc, rows, rate, now)?;
    match seeds.next() {
        Some(seed) => Ok(seed),
        None => unreachable!(),
    }
}
