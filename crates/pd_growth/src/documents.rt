//! Documents that grow.

ghost use Rattle.std.specs.Prelude.{◌≡◌, ◌≤◌, [], length, IfOk};
ghost use Rattle.std.specs.List.{AllByRecursion};
ghost use Rattle.pd_atom.specs.Names.{Extends};
ghost use Rattle.pd_object.specs.Ports.{IsSmallKind};
ghost use Rattle.pd_canvas.specs.Pages.{elements_of};
ghost use Rattle.pd_library.specs.Files.{answer_in};
ghost use Rattle.pd_growth.specs.Steps.{beginning};
ghost use Rattle.pd_growth.specs.Growth.{grown, page_grown, around_root, without_ending as name_without_ending};
ghost use Rattle.pd_growth.specs.Growing.{stock, lib_of, Grows, GrowsTo};
ghost use Rattle.pd_growth.specs.Suits.{RootSuits, FilesSuit, RowSuits};

use crate::boxes::{elements, grow_boxes};
use crate::growing::Stop;
use crate::rows::sheet;
use crate::scope::{Scope, Setting};
use crate::supply::Supply;
use crate::texts::bring_receiver;
use pd_atom::Symbols;
use pd_canvas::Canvas;
use pd_library::Files;
use pd_tree::{Row, Sheet};
use std::alloc::Global;

/// How many canvases may lie in one another inside the root.
const LEVELS: u32 = 255;

/// A grown document: the root's sheet, and its boxes in text order.
#[derive(Debug, Drop)]
pub struct Grown {
    pub sheet: Sheet,
    pub rows: Vec<Row>,
}

/// A file's name without `.pd` at its end.
fn without_ending(name: &[u8]) -> &[u8]
    ensures { result.now ≡ name_without_ending name.now }
{
    let cut = name.len().saturating_sub(3);
    if &name[cut..] == b".pd".as_slice() {
        &name[..cut]
    } else {
        name
    }
}

/// Grows the boxes of a root.
fn grow_root(
    setting: &Setting<'_>,
    doc: &Canvas,
    zero: u32,
    symbols: &mut Symbols,
    supply: &mut Supply,
    rows: &mut Vec<Row>,
) -> Result<(), Stop>
    requires small { zero ≤ 1000000000 }
    requires doc { RootSuits symbols.old doc.now }
    requires files { FilesSuit symbols.old (lib_of setting.now) }
    requires none { rows.old.items ≡ [] }
    ensures grows { Grows (length (elements_of doc.now)) result rows.old.items rows.new.items (stock symbols.new supply.new) (page_grown (lib_of setting.now) setting.now.root.now 255 (around_root zero) doc.now (stock symbols.old supply.old)) }
    ensures extends { Extends symbols.old symbols.new }
{
    let scope = Scope {
        zero,
        arguments: &[],
        inside: &[],
        is_top: true,
    };
    let boxes = elements(doc);
    grow_boxes(setting, &scope, LEVELS, boxes, symbols, supply, rows)
}

/// Grows a document under a file name: the root takes the first `$0`, and each abstraction the next one.
///
/// # Errors
///
/// `SymbolsFull` where a name is one more than the table holds, `TooManyBoxes` where a box is the 16,385th or a `$0` would
/// exceed 1,000,000,000, and `Lacks` where nothing is known of a file that is asked for: whichever comes first in text order.
/// The table keeps the names that came before. `NoMemory` where memory ran out.
pub fn grow(
    alloc: Global,
    doc: &Canvas,
    name: &[u8],
    files: &Files,
    first_zero: u32,
    symbols: &mut Symbols,
) -> Result<Grown, Stop>
    requires doc { RootSuits symbols.old doc.now }
    requires files { FilesSuit symbols.old (answer_in files.now) }
    ensures grows { GrowsTo result symbols.new (grown (answer_in files.now) name.now doc.now (beginning symbols.old first_zero)) }
    ensures suit { IfOk result (λ g. AllByRecursion (RowSuits symbols.new) g.rows.items) }
    ensures small { IfOk result (λ g. AllByRecursion (λ r. IsSmallKind r.kind) g.rows.items) }
    ensures extends { Extends symbols.old symbols.new }
{
    let setting = Setting {
        alloc,
        files,
        root: without_ending(name),
    };
    let mut supply = Supply::new(first_zero);
    let mut rows = Vec::new(alloc);
    let zero = supply.number()?;
    bring_receiver(alloc, name, symbols)?;
    grow_root(&setting, doc, zero, symbols, &mut supply, &mut rows)?;
    let sheet = sheet(alloc, zero, &[], doc)?;
    Ok(Grown { sheet, rows })
}
