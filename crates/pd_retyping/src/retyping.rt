//! A box that an edit makes another one, grown aside and put in its place.

ghost use Rattle.std.specs.Prelude.{◌≡◌, ◌≤◌, Err, IfOk, IfErr, OnErr};
ghost use Rattle.pd_io.specs.Faults.{Rose};
ghost use Rattle.pd_atom.specs.Names.{Extends};
ghost use Rattle.pd_gather.specs.Gather.{known, AreProper};
ghost use Rattle.pd_web.specs.Changes.{wires_told, Meet};
ghost use Rattle.pd_wiring.specs.declared.refusals.EditRefusal.TheVariants.{ShelfFault};
ghost use Rattle.pd_boxes.specs.Put.{CanPut};
ghost use Rattle.pd_adding.specs.Coming.{own_zero};
ghost use Rattle.pd_adding.specs.Counts.{AreWithin};
ghost use Rattle.pd_retyping.specs.Retypes.{RetypesBoxBy, IsNotRetypedBy};

use crate::asking::{counts_without, plan_of};
use crate::known::are_of;
use crate::renaming::become_or_take;
use pd_adding::{Counts, Site, grow_aside};
use pd_atom::Symbols;
use pd_canvas::Atoms;
use pd_gather::Library;
use pd_io::Shelf;
use pd_misfits::BoxWire;
use pd_order::Steps;
use pd_patch::Patch;
use pd_wiring::EditRefusal;
use std::alloc::Global;
use std::sync::ledger::Ledger;

/// A box that an edit made another one: its key, the key of its canvas, the counts of the patch with what it became, and the wires that didn't fit
/// any more and went, in the order of the wires of the canvas.
#[derive(Debug, Drop)]
pub struct RetypedBox {
    pub key: u32,
    pub canvas: u32,
    pub counts: Counts,
    pub gone: Vec<BoxWire>,
}

/// Makes the box of a number in the canvas at a path of the patch's own document what it becomes with another text. `counts` are the counts of
/// the patch. Looks at signal wires are counted in `steps`.
///
/// # Errors
///
/// The first reason against it: `NoDocument` for a text that isn't of the table, `NoCanvas`, `NoBox`, also for a box that takes no text,
/// `TextTooLong`, `TooDeep`; then `ShelfFault`, `SymbolsFull` or `TooManyBoxes`, whichever growth comes to first; then `TooManyWires` and
/// `TooMuchSound`; then `NoDocument` for a box that isn't made another one yet: one that holds a canvas or would hold one, but for a subpatch that keeps
/// what it holds, and a port of a box around. `NoMemory` may come in place of any. Names and files are then as before.
pub fn retype_box<H: Shelf, L: Ledger>(
    alloc: Global,
    patch: &mut Patch,
    counts: Counts,
    site: Site<'_>,
    number: u32,
    text: &Atoms,
    library: &mut Library,
    shelf: &mut H,
    symbols: &mut Symbols,
    steps: &mut Steps<L>,
) -> Result<RetypedBox, EditRefusal>
    requires can { CanPut patch.old }
    requires meet { Meet patch.old.web }
    requires counted { counts.wires ≡ wires_told patch.old.web }
    requires within { AreWithin counts }
    requires zero { own_zero patch.old ≤ 1000000000 }
    requires found { AreProper symbols.old library.old }
    ensures retyped { IfOk result (λ b. RetypesBoxBy (H.holds shelf.old) patch.old patch.new counts site.entry.name.now site.entry.path.now number text.now site.entry.now (known library.old symbols.old) (known library.new symbols.new) steps.old steps.new b) }
    ensures refused { IfErr result (IsNotRetypedBy (H.holds shelf.old) patch.old patch.new counts site.entry.name.now site.entry.path.now number text.now (known library.old symbols.old)) }
    ensures goes_on { CanPut patch.new }
    ensures meet { Meet patch.new.web }
    ensures counted { IfOk result (λ b. b.counts.wires ≡ wires_told patch.new.web) }
    ensures as_many { OnErr result (wires_told patch.new.web ≡ wires_told patch.old.web) }
    ensures within { IfOk result (λ b. AreWithin b.counts) }
    ensures zero { own_zero patch.new ≡ own_zero patch.old }
    ensures library { OnErr result (library.new ≡ library.old) }
    ensures names { OnErr result (symbols.new ≡ symbols.old) }
    ensures found { AreProper symbols.new library.new }
    ensures extends { Extends symbols.old symbols.new }
    ensures kept { H.holds shelf.new ≡ H.holds shelf.old }
    ensures cause { result ≡ Err ShelfFault → Rose (H.faults shelf.old) (H.faults shelf.new) }
    ensures shelf_counted { H.faults shelf.old ≤ H.faults shelf.new }
    ensures no_looks { OnErr result (steps.new ≡ steps.old) }
{
    if !are_of(symbols, text.as_slice()) {
        return Err(EditRefusal::NoDocument);
    }
    let plan = plan_of(patch, symbols, site.path, number, text)?;
    let left = counts_without(patch, plan.key, counts);
    let files = library.files().len();
    let names = symbols.len();
    let grown = grow_aside(
        alloc, patch, left, site.name, site.path, &plan.edit, library, shelf, symbols,
    )?;
    match become_or_take(
        alloc,
        patch,
        plan.key,
        plan.keeps,
        grown,
        counts.wires,
        site.now,
        symbols,
        steps,
    ) {
        Ok(retyped) => Ok(retyped),
        Err(why) => {
            library.forget(files, names, symbols);
            Err(why)
        }
    }
}
