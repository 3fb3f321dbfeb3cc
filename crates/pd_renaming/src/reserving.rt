//! Room among the owners of the name at which a subpatch hears with another text.

ghost use Rattle.std.specs.Prelude.{◌≡◌, ℕ, IfOk};
ghost use Rattle.pd_grove.specs.declared.nodes.Node.{Node};
ghost use Rattle.pd_boxes.specs.Room.{SameButRoom};
ghost use Rattle.pd_renaming.specs.Renaming.{CanRename};
ghost use Rattle.pd_renaming.specs.Room.{IsFor, IsSubpatch, TakesName};

use crate::room::NameRoom;
use pd_atom::Symbols;
use pd_bind::name_of_row;
use pd_owning::reserve_owner;
use pd_patch::Patch;
use pd_tree::Row;
use std::alloc::AllocError;

/// Sets room aside, so that the subpatch of a key can get the text of a grown one. All that the patch tells stays, whatever the answer.
///
/// # Errors
///
/// `AllocError` where memory ran out, or where the new name has as many owners as can be counted.
pub fn reserve_name(
    patch: &mut Patch,
    key: u32,
    row: Row,
    symbols: &mut Symbols,
) -> Result<NameRoom, AllocError>
    requires can { (n : Node) × CanRename patch.old key n }
    requires row { IsSubpatch row }
    ensures same { SameButRoom patch.old patch.new }
    ensures table { symbols.new ≡ symbols.old }
    ensures names { IfOk result (λ room. IsFor room key row) }
    ensures room { IfOk result (λ room. TakesName patch.new room symbols.old) }
{
    let owned = name_of_row(&row, true, symbols);
    reserve_owner(&mut patch.names, owned, 1)?;
    let element = row.element;
    let text = row.text;
    let written = element.text;
    Ok(NameRoom { key, written, text })
}
