//! One box that grows alone.

ghost use Rattle.pd_atom.specs.Names.{Extends};
ghost use Rattle.pd_canvas.specs.Views.{entry_of};
ghost use Rattle.pd_growth.specs.Growth.{box_grown};
ghost use Rattle.pd_growth.specs.Growing.{stock, lib_of, around_of, inside_grown, ScopeSuits, GrowsBox};
ghost use Rattle.pd_growth.specs.Suits.{EntrySuits, FilesSuit};

use crate::boxes;
use crate::growing::Stop;
use crate::scope::{Scope, Setting};
use crate::supply::Supply;
use pd_atom::Symbols;
use pd_canvas::Element;
use pd_tree::Row;

/// Grows a box alone, with what it holds, inside which so many canvases may lie in one another: from these names, `$0` numbers
/// and room.
///
/// # Errors
///
/// `SymbolsFull` where a name is one more than the table holds, `TooManyBoxes` where there is no room for a box or no `$0` is
/// left, and `Lacks` where nothing is known of a file that is asked for: whichever comes first in text order. The table keeps the
/// names that came before. `NoMemory` where memory ran out.
pub fn grow_box(
    setting: &Setting<'_>,
    scope: &Scope<'_>,
    left: u32,
    element: &Element,
    symbols: &mut Symbols,
    supply: &mut Supply,
) -> Result<Vec<Row>, Stop>
    requires scope { ScopeSuits symbols.old scope.now }
    requires files { FilesSuit symbols.old (lib_of setting.now) }
    requires element { EntrySuits symbols.old left (entry_of element.now) }
    ensures grows { GrowsBox result (stock symbols.new supply.new) (box_grown (lib_of setting.now) setting.now.root.now left (inside_grown (lib_of setting.now) setting.now.root.now left) (around_of scope.now) (entry_of element.now) (stock symbols.old supply.old)) }
    ensures extends { Extends symbols.old symbols.new }
{
    let mut rows = Vec::new(setting.alloc);
    boxes::grow_box(setting, scope, left, element, symbols, supply, &mut rows)?;
    Ok(rows)
}
