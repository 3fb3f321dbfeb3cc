//! A box that grows aside in a canvas of the patch's own document.

ghost use Rattle.std.specs.Prelude.{◌≡◌, ◌≤◌, IfOk, IfErr, OnErr, IsErrOf};
ghost use Rattle.pd_io.specs.Faults.{Rose};
ghost use Rattle.pd_atom.specs.Names.{Names, Extends};
ghost use Rattle.pd_canvas.specs.Pages.{Entry};
ghost use Rattle.pd_canvas.specs.Views.{entry_of};
ghost use Rattle.pd_library.specs.Files.{answer_in};
ghost use Rattle.pd_growth.specs.declared.supply.Supply.{Supply as SupplySeen};
ghost use Rattle.pd_growth.specs.Growth.{box_grown, around_root, without_ending as name_without_ending};
ghost use Rattle.pd_growth.specs.Growing.{stock, inside_grown, ScopeSuits};
ghost use Rattle.pd_growth.specs.Suits.{EntrySuits};
ghost use Rattle.pd_gather.specs.Gather.{Known, known, GoesOn, AreProper};
ghost use Rattle.pd_gather.specs.Boxes.{box_growth};
ghost use Rattle.pd_adding.specs.Growing.{growth_of, box_refusal, GrowsTo, EndsFor};

use crate::counts::{Counts, MOST_BOXES};
use pd_atom::Symbols;
use pd_canvas::Element;
use pd_gather::{BoxRefusal, Library, Site};
use pd_growth::{Scope, Supply};
use pd_io::Shelf;
use pd_tree::Row;
use pd_wiring::EditRefusal;

/// What grew, and what growth left.
#[derive(Drop)]
pub struct Crop {
    pub rows: Vec<Row>,
    pub left: Supply,
}

/// Grows a box in a canvas of the patch's own document, inside which `left` canvases may lie in one another, and asks the shelf for each
/// file that it lacks. `counts` are the counts of the patch, `zero` is its `$0`, and `name` its file name.
///
/// # Errors
///
/// `ShelfFault`, `SymbolsFull` or `TooManyBoxes`, whichever growth comes to first; `NoMemory` may come in place of any. Names and files are
/// then as before.
pub fn grow_coming<H: Shelf>(
    counts: Counts,
    zero: u32,
    name: &[u8],
    left: u32,
    element: &Element,
    library: &mut Library,
    shelf: &mut H,
    symbols: &mut Symbols,
) -> Result<Crop, BoxRefusal>
    requires zero { zero ≤ 1000000000 }
    requires element { EntrySuits symbols.old left (entry_of element.now) }
    requires found { AreProper symbols.old library.old }
    ensures grown { IfOk result (λ crop. GrowsTo (H.holds shelf.old) (growth_of zero counts name.now left (entry_of element.now)) (known library.old symbols.old) library.new crop.rows (stock symbols.new crop.left)) }
    ensures refused { IfErr result (λ refusal. EndsFor (H.holds shelf.old) (growth_of zero counts name.now left (entry_of element.now)) (known library.old symbols.old) (box_refusal refusal)) }
    ensures library { OnErr result (library.new ≡ library.old) }
    ensures names { OnErr result (symbols.new ≡ symbols.old) }
    ensures kept { H.holds shelf.new ≡ H.holds shelf.old }
    ensures cause { IsErrOf result BoxRefusal.ShelfFault → Rose (H.faults shelf.old) (H.faults shelf.new) }
    ensures counted { H.faults shelf.old ≤ H.faults shelf.new }
    ensures found { AreProper symbols.new library.new }
    ensures behind { GoesOn library.old library.new }
    ensures extends { Extends symbols.old symbols.new }
{
    let site = site_of(name, zero, left);
    let mut supply = Supply {
        next_zero: counts.next_zero,
        room: MOST_BOXES.saturating_sub(counts.boxes),
    };
    match library.gather_box(&site, element, &mut supply, shelf, symbols) {
        Ok(rows) => Ok(Crop { rows, left: supply }),
        Err(refusal) => Err(refusal),
    }
}

/// Where a box grows in a canvas of the patch's own document, inside which so many canvases may lie in one another.
#[tactic(auto, unfolding(pd_gather::specs::Boxes::box_growth))]
fn site_of(name: &[u8], zero: u32, left: u32) -> Site<'_>
    requires small { zero ≤ 1000000000 }
    ensures grows { (e : Entry) (supply : SupplySeen) (k : Known) → box_growth result e supply k ≡
        box_grown (answer_in k.files) (name_without_ending name.now) left (inside_grown (answer_in k.files) (name_without_ending name.now) left) (around_root zero) e (stock k.names supply) }
    ensures left { result.left ≡ left }
    ensures suits { (names : Names) → ScopeSuits names result.scope }
{
    Site {
        root: without_ending(name),
        scope: Scope {
            zero,
            arguments: &[],
            inside: &[],
            is_top: true,
        },
        left,
    }
}

/// A file's name without `.pd` at its end.
fn without_ending(name: &[u8]) -> &[u8]
    ensures { result.now ≡ name_without_ending name.now }
{
    let cut = name.len().saturating_sub(3);
    if &name[cut..] == b".pd".as_slice() {
        &name[..cut]
    } else {
        name
    }
}

/// The refusal of an edit whose box is refused.
pub fn refused_by(refusal: BoxRefusal) -> EditRefusal
    ensures { result ≡ box_refusal refusal }
{
    match refusal {
        BoxRefusal::TooManyBoxes => EditRefusal::TooManyBoxes,
        BoxRefusal::ShelfFault => EditRefusal::ShelfFault,
        BoxRefusal::SymbolsFull => EditRefusal::SymbolsFull,
        BoxRefusal::NoMemory => EditRefusal::NoMemory,
    }
}
