//! The walk over a document that asks for files until growth asks for none.
ghost use Rattle.std.specs.Prelude.{◌≡◌, ◌≤◌, OnOk, IsErrOf};
ghost use Rattle.pd_io.specs.Faults.{Rose};
ghost use Rattle.pd_atom.specs.Names.{Extends};
ghost use Rattle.pd_canvas.specs.Proper.{IsProper};
ghost use Rattle.pd_gather.specs.Gather.{Gathered, Full, known, Gathers, AnswersAll, GoesOn, AreProper};

use crate::boxes::{Trial, try_box};
use crate::learning::learn;
use crate::refusal::GatherRefusal;
use crate::root::{FIRST_ZERO, bring_receiver, elements, root_site};
use pd_atom::Symbols;
use pd_canvas::Doc;
use pd_growth::Supply;
use pd_io::Shelf;
use pd_library::Files;
use std::alloc::Global;

/// Asks the shelf for files until growth asks for none. A box of the root that lacks a file is begun again once the file is known, and
/// no box before it.
pub fn gather_files<H: Shelf>(
    alloc: Global,
    files: &mut Files,
    doc: &Doc,
    name: &[u8],
    shelf: &mut H,
    symbols: &mut Symbols,
) -> Result<(), GatherRefusal>
    requires proper { IsProper symbols.old doc.now.root }
    requires found { AreProper symbols.old files.old }
    ensures ok { OnOk result (Gathers (H.holds shelf.old) name.now doc.now.root (known files.old symbols.old) (Gathered (known files.new symbols.new))) }
    ensures all { OnOk result (AnswersAll name.now doc.now.root (known files.new symbols.new)) }
    ensures full { IsErrOf result GatherRefusal.SymbolsFull → Gathers (H.holds shelf.old) name.now doc.now.root (known files.old symbols.old) Full }
    ensures kept { H.holds shelf.new ≡ H.holds shelf.old }
    ensures cause { IsErrOf result GatherRefusal.ShelfFault → Rose (H.faults shelf.old) (H.faults shelf.new) }
    ensures counted { H.faults shelf.old ≤ H.faults shelf.new }
    ensures found { OnOk result (AreProper symbols.new files.new) }
    ensures behind { GoesOn files.old files.new }
    ensures extends { Extends symbols.old symbols.new }
{
    let mut names = symbols.len();
    bring_receiver(alloc, name, symbols)?;
    let _brought = symbols.len();
    let mut supply = Supply::new(FIRST_ZERO + 1);
    let site = root_site(name);
    let boxes = elements(&doc.root);
    let mut at = 0;
    while at < boxes.len() {
        match try_box(alloc, &site, &boxes[at], files, symbols, &mut supply)? {
            Trial::Grown(_) => at += 1,
            Trial::Lacks(lacked) => {
                learn(alloc, files, lacked, shelf, symbols)?;
                names = symbols.len();
            }
            Trial::TooMany => {
                symbols.cut_back(names);
                return Ok(());
            }
        }
    }
    symbols.cut_back(names);
    Ok(())
}
