//! One file more.
ghost use Rattle.std.specs.Prelude.{◌≡◌, ◌+◌, ◌^◌, ◌<◌, ◌≤◌, length, None, OnOk, IsErrOf};
ghost use Rattle.pd_io.specs.Faults.{Rose};
ghost use Rattle.pd_atom.specs.Names.{IsTable, Extends};
ghost use Rattle.pd_library.specs.Files.{answer_in};
ghost use Rattle.pd_gather.specs.Gather.{known, GoesOn, AreProper};
ghost use Rattle.pd_gather.specs.Steps.{LearnsOne, FillsTable};

use crate::fetching::fetch_by_name;
use crate::reading::answer;
use crate::refusal::GatherRefusal;
use pd_atom::{Sym, Symbols};
use pd_io::Shelf;
use pd_library::Files;
use std::alloc::Global;

/// Asks the shelf for the file of an abstraction, and notes what is known of it.
pub fn learn<H: Shelf>(
    alloc: Global,
    files: &mut Files,
    name: Sym,
    shelf: &mut H,
    symbols: &mut Symbols,
) -> Result<(), GatherRefusal>
    requires unknown { answer_in files.old name ≡ None }
    requires found { AreProper symbols.old files.old }
    ensures learns { OnOk result (LearnsOne (H.holds shelf.old) name (known files.old symbols.old) (known files.new symbols.new)) }
    ensures full { IsErrOf result GatherRefusal.SymbolsFull → FillsTable (H.holds shelf.old) name (known files.old symbols.old) }
    ensures kept { H.holds shelf.new ≡ H.holds shelf.old }
    ensures cause { IsErrOf result GatherRefusal.ShelfFault → Rose (H.faults shelf.old) (H.faults shelf.new) }
    ensures counted { H.faults shelf.old ≤ H.faults shelf.new }
    ensures found { OnOk result (AreProper symbols.new files.new) }
    ensures table { OnOk result (IsTable symbols.new) }
    ensures longer { OnOk result (length files.new ≡ length files.old + 1) }
    ensures few { OnOk result (length files.new < 2 ^ 63) }
    ensures behind { GoesOn files.old files.new }
    ensures extends { Extends symbols.old symbols.new }
{
    let fetch = fetch_by_name(alloc, name, shelf, symbols)?;
    let answer = answer(alloc, fetch, symbols)?;
    files.learn(name, answer)?;
    let _count = files.len();
    Ok(())
}
