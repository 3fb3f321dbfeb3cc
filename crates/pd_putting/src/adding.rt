//! A box that an edit puts, grown aside and put in.

ghost use Rattle.std.specs.Prelude.{◌≡◌, ◌≤◌, ◌+◌, length, Err, IfOk, IfErr, OnErr};
ghost use Rattle.slab.specs.Slab.{ContainsKey};
ghost use Rattle.pd_io.specs.Faults.{Rose};
ghost use Rattle.pd_atom.specs.Names.{Extends};
ghost use Rattle.pd_gather.specs.Gather.{known, AreProper};
ghost use Rattle.pd_web.specs.Canvases.{keys_at};
ghost use Rattle.pd_web.specs.Changes.{wires_told, Meet};
ghost use Rattle.pd_wiring.specs.declared.refusals.EditRefusal.TheVariants.{ShelfFault};
ghost use Rattle.pd_boxes.specs.Put.{CanPut};
ghost use Rattle.pd_adding.specs.Adding.{IsAdded};
ghost use Rattle.pd_adding.specs.Coming.{own_zero};
ghost use Rattle.pd_adding.specs.Counts.{AreWithin};
ghost use Rattle.pd_adding.specs.Growing.{Added};
ghost use Rattle.pd_putting.specs.Adds.{keys_within, put_looks, AddsBoxBy, HasCome, IsNotAddedBy};
ghost use Rattle.pd_putting.specs.Places.{FitsIn, HasGrown, IsNotLast};

use crate::known::is_known;
use crate::placing::put_grown;
use pd_adding::{Counts, Grown, Site, grow_aside};
use pd_atom::Symbols;
use pd_canvas::Edit;
use pd_clock::Time;
use pd_gather::Library;
use pd_io::Shelf;
use pd_order::Steps;
use pd_patch::Patch;
use pd_wiring::EditRefusal;
use std::alloc::{AllocError, Global};
use std::sync::ledger::Ledger;

/// A box that an edit put: its key, the key of its canvas, the counts of the patch with it, and the keys of the box and of all that lies in it,
/// in text order.
#[derive(Debug, Drop)]
pub struct NewBox {
    pub key: u32,
    pub canvas: u32,
    pub counts: Counts,
    pub part: Vec<u32>,
}

/// Puts a box that an edit names last into a canvas of the patch's own document: with all that lies in it, or with the port of the box around
/// that it is. `counts` are the counts of the patch. Looks at signal wires are counted in `steps`.
///
/// # Errors
///
/// The first reason against it: `NoDocument` for an edit that puts no box or whose text isn't of the table, `NoCanvas`, `TextTooLong`,
/// `TooDeep`; then `ShelfFault`, `SymbolsFull` or `TooManyBoxes`, whichever growth comes to first; then `TooManyWires` and `TooMuchSound`.
/// No box is refused for what it is. `NoMemory` may come in place of any. Names and files are then as before.
pub fn add_box<H: Shelf, L: Ledger>(
    alloc: Global,
    patch: &mut Patch,
    counts: Counts,
    site: Site<'_>,
    edit: &Edit,
    library: &mut Library,
    shelf: &mut H,
    symbols: &mut Symbols,
    steps: &mut Steps<L>,
) -> Result<NewBox, EditRefusal>
    requires can { CanPut patch.old }
    requires meet { Meet patch.old.web }
    requires counted { counts.wires ≡ wires_told patch.old.web }
    requires within { AreWithin counts }
    requires zero { own_zero patch.old ≤ 1000000000 }
    requires found { AreProper symbols.old library.old }
    ensures added { IfOk result (λ b. AddsBoxBy (H.holds shelf.old) patch.old patch.new counts site.entry.name.now site.entry.path.now site.entry.now edit.now (known library.old symbols.old) (known library.new symbols.new) b) }
    ensures refused { IfErr result (IsNotAddedBy (H.holds shelf.old) patch.old patch.new counts site.entry.name.now site.entry.path.now edit.now (known library.old symbols.old)) }
    ensures goes_on { CanPut patch.new }
    ensures meet { Meet patch.new.web }
    ensures counted { IfOk result (λ b. b.counts.wires ≡ wires_told patch.new.web) }
    ensures as_many { OnErr result (wires_told patch.new.web ≡ wires_told patch.old.web) }
    ensures within { IfOk result (λ b. AreWithin b.counts) }
    ensures zero { own_zero patch.new ≡ own_zero patch.old }
    ensures library { OnErr result (library.new ≡ library.old) }
    ensures names { OnErr result (symbols.new ≡ symbols.old) }
    ensures found { AreProper symbols.new library.new }
    ensures extends { Extends symbols.old symbols.new }
    ensures kept { H.holds shelf.new ≡ H.holds shelf.old }
    ensures cause { result ≡ Err ShelfFault → Rose (H.faults shelf.old) (H.faults shelf.new) }
    ensures shelf_counted { H.faults shelf.old ≤ H.faults shelf.new }
    ensures part { IfOk result (λ b. b.part.items ≡ keys_within patch.new b.key) }
    ensures looks { IfOk result (λ b. steps.new ≤ steps.old + put_looks patch.new b.key) }
    ensures no_looks { OnErr result (steps.new ≡ steps.old) }
{
    if !is_known(symbols, edit) {
        return Err(EditRefusal::NoDocument);
    }
    let files = library.files().len();
    let names = symbols.len();
    let grown = grow_aside(
        alloc, patch, counts, site.name, site.path, edit, library, shelf, symbols,
    )?;
    match put_last(alloc, patch, grown, site.now, symbols, steps) {
        Ok(put) => Ok(put),
        Err(why) => {
            library.forget(files, names, symbols);
            Err(why)
        }
    }
}

/// Puts what grew aside into its canvas as the last box.
///
/// # Errors
///
/// `NoMemory` where memory ran out, or where the canvas or the patch has as many boxes as can be counted.
fn put_last<L: Ledger>(
    alloc: Global,
    patch: &mut Patch,
    grown: Grown,
    now: Time,
    symbols: &mut Symbols,
    steps: &mut Steps<L>,
) -> Result<NewBox, EditRefusal>
    requires can { CanPut patch.old }
    requires meet { Meet patch.old.web }
    requires here { ContainsKey patch.old.grove.boards grown.canvas }
    requires grown { HasGrown grown symbols.old }
    requires shallow { FitsIn patch.old grown }
    ensures put { IfOk result (λ b. (a : Added) → IsAdded grown a → a.known.names ≡ symbols.old → HasCome patch.old patch.new now a b.key) }
    ensures part { IfOk result (λ b. b.part.items ≡ keys_within patch.new b.key) }
    ensures canvas { IfOk result (λ b. b.canvas ≡ grown.canvas) }
    ensures counts { IfOk result (λ b. b.counts ≡ grown.counts) }
    ensures refused { IfErr result (λ why. (a : Added) → IsAdded grown a → IsNotLast patch.old patch.new a why) }
    ensures goes_on { CanPut patch.new }
    ensures meet { Meet patch.new.web }
    ensures as_many { OnErr result (wires_told patch.new.web ≡ wires_told patch.old.web) }
    ensures zero { own_zero patch.new ≡ own_zero patch.old }
    ensures table { symbols.new ≡ symbols.old }
    ensures looks { IfOk result (λ b. steps.new ≤ steps.old + put_looks patch.new b.key) }
    ensures no_looks { OnErr result (steps.new ≡ steps.old) }
{
    let Ok(number) = next_number(patch, grown.canvas) else {
        return Err(EditRefusal::NoMemory);
    };
    put_grown(alloc, patch, grown, number, now, symbols, steps)
}

/// The number of the box that comes next in the canvas of a key: how many boxes it has.
///
/// # Errors
///
/// `AllocError` where that is no number of 32 bits.
fn next_number(patch: &Patch, canvas: u32) -> Result<u32, AllocError>
    ensures { IfOk result (λ number. number ≡ length (keys_at patch.now.grove canvas)) }
{
    match u32::try_from(boxes_in(patch, canvas)) {
        Ok(number) => Ok(number),
        Err(_) => Err(AllocError),
    }
}

/// How many boxes the canvas of a key has.
fn boxes_in(patch: &Patch, canvas: u32) -> usize
    ensures { result ≡ length (keys_at patch.now.grove canvas) }
{
    match patch.grove.board(canvas) {
        Some(board) => board.nodes.len(),
        None => 0,
    }
}
