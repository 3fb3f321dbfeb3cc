//! What grew aside, put into its canvas at a number.

ghost use Rattle.std.specs.Prelude.{◌≡◌, ◌≤◌, ◌+◌, ◌||◌, ◌∷◌, [], ℕ, true, false, nat_lt, length, is_some, None, IsSome, IfOk, IfErr, OnErr};
ghost use Rattle.slab.specs.Slab.{get, ContainsKey};
ghost use Rattle.pd_canvas.specs.Pages.{Sub};
ghost use Rattle.pd_canvas.specs.Views.{shape_of};
ghost use Rattle.pd_object.specs.declared.kinds.Kind.TheVariants.{Canvas};
ghost use Rattle.pd_grove.specs.declared.ports.Side.TheVariants.{Inlets, Outlets};
ghost use Rattle.pd_grove.specs.Forest.{holder_in};
ghost use Rattle.pd_grove.specs.Standing.{depth_of};
ghost use Rattle.pd_grove.specs.Ports.{port_signal};
ghost use Rattle.pd_grove.specs.States.{AreSmall, IsFresh};
ghost use Rattle.pd_tree.specs.Trees.{stand_of, stands_in};
ghost use Rattle.pd_web.specs.Canvases.{keys_at};
ghost use Rattle.pd_web.specs.Changes.{wires_told, Meet};
ghost use Rattle.pd_boxes.specs.Room.{SameButRoom};
ghost use Rattle.pd_boxes.specs.Put.{CanPut, IsLeaf, IsNoPort};
ghost use Rattle.pd_adding.specs.Adding.{IsAdded};
ghost use Rattle.pd_adding.specs.Coming.{own_zero};
ghost use Rattle.pd_adding.specs.Growing.{Added};
ghost use Rattle.pd_adding.specs.Single.{IsSingle};
ghost use Rattle.pd_subpatches.specs.Shell.{IsShallow, IsShell};
ghost use Rattle.pd_putting.specs.Adds.{keys_within, put_looks, HasComeAt, IsSubAt};
ghost use Rattle.pd_putting.specs.Places.{looks_anywhere, FitsIn, HasGrown, IsAloneAt, IsPortIn, IsReady, PutsAt, PutsLeafAt, PutsPortAt, PutsSubAt, StaysOut};

use crate::adding::NewBox;
use crate::parts::put_whole;
use pd_adding::{Grown, single_boxes};
use pd_atom::Symbols;
use pd_boxes::{Place, patches_run_on, put, reserve_box, room_changes_nothing};
use pd_canvas::Form;
use pd_clock::{Rate, Time};
use pd_following::{patches_run_on_with_ports, put_port, reserve_port};
use pd_grove::{Seed, Seeds};
use pd_kind::{Glue, Kind, Signal};
use pd_order::Steps;
use pd_patch::Patch;
use pd_ports::wires_still_meet;
use pd_subpatches::add_shell;
use pd_tree::Row;
use pd_wiring::EditRefusal;
use std::alloc::{AllocError, Global};
use std::sync::ledger::Ledger;

/// Puts what grew aside into its canvas at a number, where the canvas has as many boxes: the boxes from that number on move back by one. Looks at
/// signal wires are counted in `steps`.
///
/// # Errors
///
/// `NoMemory` where memory ran out, or where the patch has as many boxes as can be counted. What the patch tells is then as before.
pub fn put_grown<L: Ledger>(
    alloc: Global,
    patch: &mut Patch,
    grown: Grown,
    number: u32,
    now: Time,
    symbols: &mut Symbols,
    steps: &mut Steps<L>,
) -> Result<NewBox, EditRefusal>
    requires can { CanPut patch.old }
    requires meet { Meet patch.old.web }
    requires here { ContainsKey patch.old.grove.boards grown.canvas }
    requires within { number ≤ length (keys_at patch.old.grove grown.canvas) }
    requires grown { HasGrown grown symbols.old }
    requires shallow { FitsIn patch.old grown }
    ensures put { IfOk result (λ b. (a : Added) → IsAdded grown a → a.known.names ≡ symbols.old → HasComeAt patch.old patch.new number now a b.key) }
    ensures part { IfOk result (λ b. b.part.items ≡ keys_within patch.new b.key) }
    ensures canvas { IfOk result (λ b. b.canvas ≡ grown.canvas) }
    ensures counts { IfOk result (λ b. b.counts ≡ grown.counts) }
    ensures refused { IfErr result (λ why. (a : Added) → IsAdded grown a → StaysOut patch.old patch.new number a why) }
    ensures goes_on { CanPut patch.new }
    ensures meet { Meet patch.new.web }
    ensures as_many { OnErr result (wires_told patch.new.web ≡ wires_told patch.old.web) }
    ensures zero { own_zero patch.new ≡ own_zero patch.old }
    ensures table { symbols.new ≡ symbols.old }
    ensures looks { IfOk result (λ b. steps.new ≤ steps.old + looks_anywhere patch.new b.key) }
    ensures last_looks { number ≡ length (keys_at patch.old.grove grown.canvas) → IfOk result (λ b. steps.new ≤ steps.old + put_looks patch.new b.key) }
    ensures no_looks { OnErr result (steps.new ≡ steps.old) }
{
    if is_alone(patch, &grown) {
        put_alone(alloc, patch, grown, number, now, symbols, steps)
    } else {
        put_whole(alloc, patch, grown, number, now, symbols, steps)
    }
}

/// Puts what grew aside into its canvas at a number, where it is one box in which no boxes lie.
///
/// # Errors
///
/// `NoMemory` where memory ran out, or where the patch has as many boxes as can be counted.
fn put_alone<L: Ledger>(
    alloc: Global,
    patch: &mut Patch,
    grown: Grown,
    number: u32,
    now: Time,
    symbols: &mut Symbols,
    steps: &mut Steps<L>,
) -> Result<NewBox, EditRefusal>
    requires can { CanPut patch.old }
    requires meet { Meet patch.old.web }
    requires here { ContainsKey patch.old.grove.boards grown.canvas }
    requires within { number ≤ length (keys_at patch.old.grove grown.canvas) }
    requires grown { HasGrown grown symbols.old }
    requires alone { (a : Added) → IsAdded grown a → IsAloneAt patch.old number a }
    ensures put { IfOk result (λ b. (a : Added) → IsAdded grown a → a.known.names ≡ symbols.old → HasComeAt patch.old patch.new number now a b.key) }
    ensures part { IfOk result (λ b. b.part.items ≡ keys_within patch.new b.key) }
    ensures canvas { IfOk result (λ b. b.canvas ≡ grown.canvas) }
    ensures counts { IfOk result (λ b. b.counts ≡ grown.counts) }
    ensures refused { IfErr result (λ why. (a : Added) → IsAdded grown a → StaysOut patch.old patch.new number a why) }
    ensures goes_on { CanPut patch.new }
    ensures meet { Meet patch.new.web }
    ensures as_many { wires_told patch.new.web ≡ wires_told patch.old.web }
    ensures zero { own_zero patch.new ≡ own_zero patch.old }
    ensures table { symbols.new ≡ symbols.old }
    ensures looks { IfOk result (λ b. steps.new ≤ steps.old + looks_anywhere patch.new b.key) }
    ensures last_looks { number ≡ length (keys_at patch.old.grove grown.canvas) → IfOk result (λ b. steps.new ≤ steps.old + put_looks patch.new b.key) }
    ensures no_looks { OnErr result (steps.new ≡ steps.old) }
{
    let canvas = grown.canvas;
    let counts = grown.counts;
    let place = Place { canvas, number };
    let Ok(mut part) = Vec::with_capacity(alloc, 1) else {
        return Err(EditRefusal::NoMemory);
    };
    let Ok(seed) = seed_of(alloc, grown.rows, patch.rate, now) else {
        return Err(EditRefusal::NoMemory);
    };
    let Ok(key) = put_seed(alloc, patch, place, seed, symbols, steps) else {
        return Err(EditRefusal::NoMemory);
    };
    part.push_reserved(key);
    Ok(NewBox {
        key,
        canvas,
        counts,
        part,
    })
}

/// Whether what grew is one box in which no boxes lie: it has no canvas inside, or is a subpatch without boxes.
fn is_alone(patch: &Patch, grown: &Grown) -> bool
    ensures yes { result ≡ true → (number : ℕ) → (a : Added) → IsAdded grown.now a → IsAloneAt patch.now number a }
    ensures no { result ≡ false → (number : ℕ) → (a : Added) → IsAdded grown.now a → IsAloneAt patch.now number a → ⊥ }
{
    is_single(grown) || is_sub(patch, grown)
}

/// Whether what grew is one box without a canvas inside.
fn is_single(grown: &Grown) -> bool
    ensures yes { result ≡ true → (a : Added) → IsAdded grown.now a → IsSingle a.boxes }
    ensures no { result ≡ false → (a : Added) → IsAdded grown.now a → IsSingle a.boxes → ⊥ }
{
    single_boxes();
    let rows = grown.rows.as_slice();
    if rows.len() != 1 {
        return false;
    }
    let row = &rows[0];
    !row.sheet.is_some()
}

/// Whether what grew is one subpatch without boxes, which isn't too deep.
fn is_sub(patch: &Patch, grown: &Grown) -> bool
    ensures yes { result ≡ true → (number : ℕ) → (a : Added) → IsAdded grown.now a → IsSubAt patch.now number a }
    ensures no { result ≡ false → (number : ℕ) → (a : Added) → IsAdded grown.now a → IsSubAt patch.now number a → ⊥ }
{
    let rows = grown.rows.as_slice();
    if rows.len() != 1 {
        return false;
    }
    let row = &rows[0];
    if !row.sheet.is_some() {
        return false;
    }
    if !is_subpatch(&row.element.form) {
        return false;
    }
    if !is_canvas(&row.kind) {
        return false;
    }
    is_shallow(patch, grown.canvas)
}

/// Whether an element of a form is a subpatch.
fn is_subpatch(form: &Form) -> bool
    ensures yes { result ≡ true → shape_of form.now ≡ Sub }
    ensures no { result ≡ false → shape_of form.now ≡ Sub → ⊥ }
{
    matches!(form, Form::Sub(_))
}

/// Whether the boxes of a kind hold canvases.
fn is_canvas(kind: &Kind) -> bool
    ensures yes { result ≡ true → kind.now ≡ Canvas }
    ensures no { result ≡ false → kind.now ≡ Canvas → ⊥ }
{
    matches!(kind, Kind::Canvas)
}

/// Whether a canvas may lie in a canvas.
fn is_shallow(patch: &Patch, canvas: u32) -> bool
    ensures { result ≡ nat_lt (depth_of (get patch.now.grove.boards canvas)) 256 }
{
    match patch.grove.board(canvas) {
        Some(board) => board.depth < 256,
        None => true,
    }
}

/// Whether a box of a kind is a port of the box around, if it comes to a place.
fn is_port_in(patch: &Patch, place: Place, kind: &Kind) -> bool
    ensures yes { result ≡ true → IsPortIn patch.now place kind.now }
    ensures no { result ≡ false → IsNoPort patch.now place kind.now }
{
    if is_held(patch, place.canvas) {
        return is_port(kind);
    }
    false
}

/// Whether a box holds the canvas of a key.
fn is_held(patch: &Patch, canvas: u32) -> bool
    ensures { result ≡ is_some (holder_in (get patch.now.grove.boards canvas)) }
{
    match patch.grove.board(canvas) {
        Some(board) => board.holder.is_some(),
        None => false,
    }
}

/// Whether a box of a kind is a port of its canvas.
fn is_port(kind: &Kind) -> bool
    ensures { result ≡ (is_some (port_signal Inlets kind.now) || is_some (port_signal Outlets kind.now)) }
{
    match kind {
        Kind::Glue(Glue::Port { .. }) | Kind::Signal(Signal::Inlet | Signal::Outlet) => true,
        _ => false,
    }
}

/// The seed of the one box of a list.
///
/// # Errors
///
/// `AllocError` where memory ran out.
fn seed_of(alloc: Global, rows: Vec<Row>, rate: Rate, now: Time) -> Result<Seed, AllocError>
    requires small { AreSmall rows.items }
    requires one { length rows.items ≡ 1 }
    ensures stand { IfOk result (λ s. stand_of s.row ∷ [] ≡ stands_in rows.items) }
    ensures fresh { IfOk result (IsFresh rate now) }
    ensures leaf { IfOk result (λ s. s.row.sheet ≡ None → s.row.boxes ≡ 0 → IsLeaf s) }
    ensures shell { IfOk result (λ s. IsSome s.row.sheet → s.row.boxes ≡ 0 → s.row.kind ≡ Canvas → IsShell s) }
{
    let mut seeds = Seeds::prepare(alloc, rows, rate, now)?;
    match seeds.next() {
        Some(seed) => Ok(seed),
        None => unreachable!(),
    }
}

/// Puts the box of a seed into a live canvas at a number, and gives its key.
///
/// # Errors
///
/// `AllocError` where memory ran out, or where the patch has as many boxes, or the box around as many ports, as can be counted.
fn put_seed<L: Ledger>(
    alloc: Global,
    patch: &mut Patch,
    place: Place,
    seed: Seed,
    symbols: &mut Symbols,
    steps: &mut Steps<L>,
) -> Result<u32, AllocError>
    requires can { CanPut patch.old }
    requires meet { Meet patch.old.web }
    requires here { ContainsKey patch.old.grove.boards place.canvas }
    requires number { place.number ≤ length (keys_at patch.old.grove place.canvas) }
    requires ready { IsReady patch.old place seed }
    ensures put { seed.row.sheet ≡ None → IfOk result (PutsLeafAt patch.old patch.new symbols.old place seed) }
    ensures sub { IsSome seed.row.sheet → IfOk result (PutsSubAt patch.old patch.new symbols.old place seed) }
    ensures short { OnErr result (SameButRoom patch.old patch.new) }
    ensures goes_on { CanPut patch.new }
    ensures meet { Meet patch.new.web }
    ensures as_many { wires_told patch.new.web ≡ wires_told patch.old.web }
    ensures zero { own_zero patch.new ≡ own_zero patch.old }
    ensures table { symbols.new ≡ symbols.old }
    ensures looks { steps.new ≤ steps.old + 8 }
    ensures last_looks { place.number ≡ length (keys_at patch.old.grove place.canvas) → steps.new ≡ steps.old }
    ensures no_looks { OnErr result (steps.new ≡ steps.old) }
{
    if seed.row.sheet.is_some() {
        put_sub(alloc, patch, place, seed, symbols, steps)
    } else if is_port_in(patch, place, &seed.row.kind) {
        put_port_box(alloc, patch, place, seed, symbols, steps)
    } else {
        put_plain(alloc, patch, place, seed, symbols, steps)
    }
}

/// Sets room aside for a box with an empty canvas inside that comes into a live canvas at a number, puts it in, and gives its key.
///
/// # Errors
///
/// `AllocError` where memory ran out, or where the patch has as many boxes as can be counted.
fn put_sub<L: Ledger>(
    alloc: Global,
    patch: &mut Patch,
    place: Place,
    seed: Seed,
    symbols: &mut Symbols,
    steps: &mut Steps<L>,
) -> Result<u32, AllocError>
    requires can { CanPut patch.old }
    requires meet { Meet patch.old.web }
    requires here { ContainsKey patch.old.grove.boards place.canvas }
    requires number { place.number ≤ length (keys_at patch.old.grove place.canvas) }
    requires shell { IsShell seed }
    requires shallow { IsShallow patch.old place }
    ensures put { IfOk result (PutsSubAt patch.old patch.new symbols.old place seed) }
    ensures short { OnErr result (SameButRoom patch.old patch.new) }
    ensures goes_on { CanPut patch.new }
    ensures meet { Meet patch.new.web }
    ensures as_many { wires_told patch.new.web ≡ wires_told patch.old.web }
    ensures zero { own_zero patch.new ≡ own_zero patch.old }
    ensures table { symbols.new ≡ symbols.old }
    ensures looks { steps.new ≤ steps.old + 8 }
    ensures last_looks { place.number ≡ length (keys_at patch.old.grove place.canvas) → steps.new ≡ steps.old }
    ensures no_looks { OnErr result (steps.new ≡ steps.old) }
{
    wires_still_meet();
    let key = add_shell(alloc, patch, place, seed, symbols, steps)?;
    Ok(key)
}

/// Sets room aside for a box that comes into a live canvas at a number and is no port of a box around, puts it in, and gives its key.
///
/// # Errors
///
/// `AllocError` where memory ran out, or where the patch has as many boxes as can be counted.
fn put_plain<L: Ledger>(
    alloc: Global,
    patch: &mut Patch,
    place: Place,
    seed: Seed,
    symbols: &mut Symbols,
    steps: &mut Steps<L>,
) -> Result<u32, AllocError>
    requires can { CanPut patch.old }
    requires meet { Meet patch.old.web }
    requires here { ContainsKey patch.old.grove.boards place.canvas }
    requires number { place.number ≤ length (keys_at patch.old.grove place.canvas) }
    requires leaf { IsLeaf seed }
    requires plain { IsNoPort patch.old place seed.row.kind }
    ensures put { IfOk result (PutsAt patch.old patch.new symbols.old place seed) }
    ensures short { OnErr result (SameButRoom patch.old patch.new) }
    ensures goes_on { CanPut patch.new }
    ensures meet { Meet patch.new.web }
    ensures as_many { wires_told patch.new.web ≡ wires_told patch.old.web }
    ensures zero { own_zero patch.new ≡ own_zero patch.old }
    ensures table { symbols.new ≡ symbols.old }
    ensures looks { steps.new ≤ steps.old + 8 }
    ensures last_looks { place.number ≡ length (keys_at patch.old.grove place.canvas) → steps.new ≡ steps.old }
    ensures no_looks { OnErr result (steps.new ≡ steps.old) }
{
    patches_run_on();
    room_changes_nothing();
    wires_still_meet();
    let room = reserve_box(alloc, patch, place, seed, symbols)?;
    Ok(put(patch, room, symbols, steps))
}

/// Sets room aside for a port box that comes into a live canvas in a box at a number, puts it in, so that the box around has the port that it is, and
/// gives its key.
///
/// # Errors
///
/// `AllocError` where memory ran out, or where the patch has as many boxes, or the box around as many ports, as can be counted.
fn put_port_box<L: Ledger>(
    alloc: Global,
    patch: &mut Patch,
    place: Place,
    seed: Seed,
    symbols: &mut Symbols,
    steps: &mut Steps<L>,
) -> Result<u32, AllocError>
    requires can { CanPut patch.old }
    requires meet { Meet patch.old.web }
    requires here { ContainsKey patch.old.grove.boards place.canvas }
    requires number { place.number ≤ length (keys_at patch.old.grove place.canvas) }
    requires leaf { IsLeaf seed }
    requires port { IsPortIn patch.old place seed.row.kind }
    ensures put { IfOk result (PutsPortAt patch.old patch.new symbols.old place seed) }
    ensures short { OnErr result (SameButRoom patch.old patch.new) }
    ensures goes_on { CanPut patch.new }
    ensures meet { Meet patch.new.web }
    ensures as_many { wires_told patch.new.web ≡ wires_told patch.old.web }
    ensures zero { own_zero patch.new ≡ own_zero patch.old }
    ensures table { symbols.new ≡ symbols.old }
    ensures looks { steps.new ≤ steps.old + 8 }
    ensures last_looks { place.number ≡ length (keys_at patch.old.grove place.canvas) → steps.new ≡ steps.old }
    ensures no_looks { OnErr result (steps.new ≡ steps.old) }
{
    patches_run_on_with_ports();
    let room = reserve_port(alloc, patch, place, seed, symbols)?;
    Ok(put_port(patch, room, symbols, steps))
}
