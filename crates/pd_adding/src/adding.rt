//! An edit that puts a box, decided, and its box grown aside.

ghost use Rattle.std.specs.Prelude.{◌≡◌, ◌≢◌, ◌<◌, ◌≤◌, ◌+◌, Ok, Err, IfOk, IfErr, IfSome, OnErr};
ghost use Rattle.slab.specs.Slab.{get};
ghost use Rattle.pd_io.specs.Faults.{Rose};
ghost use Rattle.pd_atom.specs.Names.{Extends};
ghost use Rattle.pd_gather.specs.Gather.{known, GoesOn, AreProper};
ghost use Rattle.pd_grove.specs.Forest.{IsForest};
ghost use Rattle.pd_grove.specs.Standing.{depth_of};
ghost use Rattle.pd_grove.specs.TextOrder.{deep};
ghost use Rattle.pd_wiring.specs.declared.refusals.EditRefusal.TheVariants.{ShelfFault, NoMemory};
ghost use Rattle.pd_adding.specs.Boxes.{IsKnown, settled_edit, box_put, CanBeWritten};
ghost use Rattle.pd_adding.specs.Coming.{IsComing, coming, own_zero};
ghost use Rattle.pd_adding.specs.Counts.{AreWithin};
ghost use Rattle.pd_adding.specs.Adding.{ComesTo, Grows, IsAdded};
ghost use Rattle.pd_adding.specs.Growing.{Added};

use crate::coming::{box_to_come, zero_of};
use crate::counting::counts_with;
use crate::counts::Counts;
use crate::growing::{grow_coming, refused_by};
use pd_atom::Symbols;
use pd_canvas::Edit;
use pd_gather::Library;
use pd_io::Shelf;
use pd_patch::Patch;
use pd_tree::Row;
use pd_wiring::EditRefusal;
use std::alloc::Global;

/// A box that grew aside: the key of the canvas into which it comes, its rows, and the counts of the patch with it.
#[derive(Drop)]
pub struct Grown {
    pub canvas: u32,
    pub rows: Vec<Row>,
    pub counts: Counts,
}

/// Grows the box that an edit puts into the canvas at a path of the patch's own document, and counts what there would be with it. `name`
/// is the file name of the patch, and `counts` are its counts. The patch stays as it is.
///
/// # Errors
///
/// The first reason against it: `NoDocument` for an edit that puts no box, `NoCanvas`, `TextTooLong`, `TooDeep`; then `ShelfFault`,
/// `SymbolsFull` or `TooManyBoxes`, whichever growth comes to first; then `TooManyWires` and `TooMuchSound`. `NoMemory` may come in place
/// of any. Names and files are then as before.
pub fn grow_aside<H: Shelf>(
    alloc: Global,
    patch: &Patch,
    counts: Counts,
    name: &[u8],
    path: &[u32],
    edit: &Edit,
    library: &mut Library,
    shelf: &mut H,
    symbols: &mut Symbols,
) -> Result<Grown, EditRefusal>
    requires known { IsKnown symbols.old edit.now }
    requires within { AreWithin counts }
    requires zero { own_zero patch.now ≤ 1000000000 }
    requires found { AreProper symbols.old library.old }
    ensures grown { IfOk result (λ g. Grows (H.holds shelf.old) patch.now counts name.now path.now edit.now (known library.old symbols.old) (known library.new symbols.new) g) }
    ensures written { IfOk result (λ g. IfSome (box_put (settled_edit symbols.old edit.now)) (CanBeWritten symbols.old)) }
    ensures within { IfOk result (λ g. AreWithin g.counts) }
    ensures shallow { IfOk result (λ g. (a : Added) → IsAdded g a → IsForest (get patch.now.grove.nodes) (get patch.now.grove.boards) patch.now.grove.root →
        depth_of (get patch.now.grove.boards g.canvas) + deep a.boxes < 257) }
    ensures refused { IfErr result (λ why. why ≢ NoMemory → why ≢ ShelfFault →
        ComesTo (H.holds shelf.old) patch.now counts name.now path.now edit.now (known library.old symbols.old) (Err why)) }
    ensures asks { result ≡ Err ShelfFault → IsComing (coming symbols.old patch.now path.now edit.now) }
    ensures library { OnErr result (library.new ≡ library.old) }
    ensures names { OnErr result (symbols.new ≡ symbols.old) }
    ensures kept { H.holds shelf.new ≡ H.holds shelf.old }
    ensures cause { result ≡ Err ShelfFault → Rose (H.faults shelf.old) (H.faults shelf.new) }
    ensures counted { H.faults shelf.old ≤ H.faults shelf.new }
    ensures found { AreProper symbols.new library.new }
    ensures behind { GoesOn library.old library.new }
    ensures extends { Extends symbols.old symbols.new }
{
    let coming = box_to_come(alloc, patch, symbols, path, edit)?;
    let files = library.files().len();
    let names = symbols.len();
    let zero = zero_of(patch);
    let grown = grow_coming(
        counts,
        zero,
        name,
        coming.left,
        &coming.element,
        library,
        shelf,
        symbols,
    );
    let crop = match grown {
        Ok(crop) => crop,
        Err(refusal) => return Err(refused_by(refusal)),
    };
    // It is called for what it says of the table, which the proof cites.
    let _after = symbols.len();
    let rows = crop.rows;
    match counts_with(alloc, patch.rate, counts, rows.as_slice(), crop.left) {
        Ok(counts) => Ok(Grown {
            canvas: coming.canvas,
            rows,
            counts,
        }),
        Err(why) => {
            library.forget(files, names, symbols);
            Err(why)
        }
    }
}
