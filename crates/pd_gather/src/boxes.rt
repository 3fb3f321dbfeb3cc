//! Boxes that grow one at a time, and ask for the files that they lack.
ghost use Rattle.std.specs.Prelude.{◌≡◌, ◌≤◌, IfOk, OnOk, OnErr, IfSome, IsErrOf, None};
ghost use Rattle.pd_io.specs.Faults.{Rose};
ghost use Rattle.pd_atom.specs.Names.{IsTable, Extends};
ghost use Rattle.pd_canvas.specs.Views.{entry_of};
ghost use Rattle.pd_growth.specs.declared.growing.Stop.TheVariants as stop;
ghost use Rattle.pd_growth.specs.Growing.{stock, ScopeSuits};
ghost use Rattle.pd_growth.specs.Suits.{EntrySuits};
ghost use Rattle.pd_gather.specs.Gather.{Full, known, GathersBy, GoesOn, AreProper};
ghost use Rattle.pd_gather.specs.Boxes.{box_growth, box_asked, trial_of, StopsSo, Tells, GathersBox, GathersInVain};

use crate::learning::learn;
use crate::refusal::GatherRefusal;
use pd_atom::{Sym, Symbols};
use pd_canvas::Element;
use pd_growth::{Scope, Setting, Stop, Supply, grow_box};
use pd_io::Shelf;
use pd_library::Files;
use pd_tree::Row;
use std::alloc::Global;

/// Where a box grows: the file name of the patch without its ending, what is around the box, and how many canvases may lie in one
/// another inside it.
#[derive(Clone, Copy)]
pub struct Site<'a> {
    pub root: &'a [u8],
    pub scope: Scope<'a>,
    pub left: u32,
}

/// What growing a box once tells.
#[derive(Drop)]
pub enum Trial {
    /// It grew to these rows.
    Grown(Vec<Row>),
    /// Nothing is known of the file of this abstraction.
    Lacks(Sym),
    /// There is no room for one of its boxes, or no `$0` is left.
    TooMany,
}

/// What is told where growth ended so.
fn ended(stop: Stop) -> Result<Trial, GatherRefusal>
    ensures { result ≡ trial_of stop }
{
    match stop {
        Stop::Lacks(name) => Ok(Trial::Lacks(name)),
        Stop::TooManyBoxes => Ok(Trial::TooMany),
        Stop::SymbolsFull => Err(GatherRefusal::SymbolsFull),
        Stop::NoMemory => Err(GatherRefusal::NoMemory),
    }
}

/// Grows a box once.
pub fn try_box(
    alloc: Global,
    site: &Site<'_>,
    element: &Element,
    files: &Files,
    symbols: &mut Symbols,
    supply: &mut Supply,
) -> Result<Trial, GatherRefusal>
    requires scope { ScopeSuits symbols.old site.now.scope }
    requires found { AreProper symbols.old files.now }
    requires element { EntrySuits symbols.old site.now.left (entry_of element.now) }
    ensures tells { IfOk result (λ t. Tells t files.now symbols.new supply.old supply.new (box_growth site.now (entry_of element.now) supply.old (known files.now symbols.old))) }
    ensures full { IsErrOf result GatherRefusal.SymbolsFull → StopsSo stop.SymbolsFull symbols.new (box_growth site.now (entry_of element.now) supply.old (known files.now symbols.old)) }
    ensures shelf { ¬ (IsErrOf result GatherRefusal.ShelfFault) }
    ensures same { OnErr result (supply.new ≡ supply.old) }
    ensures found { AreProper symbols.new files.now }
    ensures table { IsTable symbols.new }
    ensures extends { Extends symbols.old symbols.new }
{
    let _before = symbols.len();
    let setting = Setting {
        alloc,
        files,
        root: site.root,
    };
    let mut left = *supply;
    let grown = grow_box(
        &setting,
        &site.scope,
        site.left,
        element,
        symbols,
        &mut left,
    );
    let _after = symbols.len();
    match grown {
        Ok(rows) => {
            *supply = left;
            Ok(Trial::Grown(rows))
        }
        Err(stop) => ended(stop),
    }
}

/// Grows a box, and asks the shelf for each file that it lacks: its rows, or none where there is no room for it.
pub fn gather_one<H: Shelf>(
    alloc: Global,
    site: &Site<'_>,
    element: &Element,
    files: &mut Files,
    supply: &mut Supply,
    shelf: &mut H,
    symbols: &mut Symbols,
) -> Result<Option<Vec<Row>>, GatherRefusal>
    requires scope { ScopeSuits symbols.old site.now.scope }
    requires element { EntrySuits symbols.old site.now.left (entry_of element.now) }
    requires found { AreProper symbols.old files.old }
    ensures grown { IfOk result (λ o. IfSome o (λ rows. GathersBox (H.holds shelf.old) site.now (entry_of element.now) supply.old (known files.old symbols.old) files.new rows (stock symbols.new supply.new))) }
    ensures many { IfOk result (λ o. o ≡ None → GathersInVain (H.holds shelf.old) site.now (entry_of element.now) supply.old (known files.old symbols.old)) }
    ensures same_supply { IfOk result (λ o. o ≡ None → supply.new ≡ supply.old) }
    ensures full { IsErrOf result GatherRefusal.SymbolsFull → GathersBy (H.holds shelf.old) (box_asked site.now (entry_of element.now) supply.old) (known files.old symbols.old) Full }
    ensures same { OnErr result (supply.new ≡ supply.old) }
    ensures kept { H.holds shelf.new ≡ H.holds shelf.old }
    ensures cause { IsErrOf result GatherRefusal.ShelfFault → Rose (H.faults shelf.old) (H.faults shelf.new) }
    ensures counted { H.faults shelf.old ≤ H.faults shelf.new }
    ensures found { OnOk result (AreProper symbols.new files.new) }
    ensures behind { GoesOn files.old files.new }
    ensures extends { Extends symbols.old symbols.new }
{
    'trials: loop {
        match try_box(alloc, site, element, files, symbols, supply)? {
            Trial::Grown(rows) => return Ok(Some(rows)),
            Trial::Lacks(name) => learn(alloc, files, name, shelf, symbols)?,
            Trial::TooMany => return Ok(None),
        }
    }
}
