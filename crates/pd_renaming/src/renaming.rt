//! A subpatch gets another text and the name that this gives it.

ghost use Rattle.std.specs.Prelude.{◌≡◌, ◌∷◌, ℕ, List, Option, Some, None, slice_get};
ghost use Rattle.slab.specs.Slab.{get};
ghost use Rattle.pd_bind.specs.Naming.{Owned};
ghost use Rattle.pd_bind.specs.Owning.{owned_at, root_owner};
ghost use Rattle.pd_owning.specs.Bound.{AreOwnersBut, HasRoom, OthersStay};
ghost use Rattle.pd_grove.specs.declared.nodes.Node.{Node};
ghost use Rattle.pd_grove.specs.Forest.{IsForest};
ghost use Rattle.pd_grove.specs.TextOrder.{spots_in_order};
ghost use Rattle.pd_renaming.specs.Renaming.{CanRename, IsRenamed};
ghost use Rattle.pd_renaming.specs.Room.{TakesName};

use crate::room::NameRoom;
use pd_atom::Symbols;
use pd_grove::{Grove, Spot};
use pd_name::Names;
use pd_owning::{bind_box, name_at, spot_at};
use pd_patch::Patch;
use std::alloc::Global;

/// Gives the subpatch of a key, for which room was set aside, the text of the room. It hears at its new name, and no more at the old one. No memory
/// is taken.
pub fn rename(alloc: Global, patch: &mut Patch, room: NameRoom, symbols: &mut Symbols)
    requires can { (n : Node) × CanRename patch.old room.key n }
    requires room { TakesName patch.old room symbols.old }
    ensures renamed { (n : Node) → get patch.old.grove.nodes room.key ≡ Some n → IsRenamed patch.old patch.new symbols.old room.key n room.written room.text }
    ensures table { symbols.new ≡ symbols.old }
{
    let NameRoom { key, written, text } = room;
    let spot = spot_at(&patch.grove, key);
    unbind(&mut patch.names, &patch.grove, spot, symbols);
    patch.grove.retext_box(alloc, key, written, text);
    bind_box(&mut patch.names, &patch.grove, spot, symbols);
}

/// Unbinds the box at a place of text order from the name that it owns, if it owns one. There is as much room for owners as there was.
fn unbind(names: &mut Names, grove: &Grove, spot: Spot, symbols: &mut Symbols)
    requires forest { IsForest (get grove.now.nodes) (get grove.now.boards) grove.now.root }
    requires apart { get grove.now.nodes root_owner ≡ None }
    requires here { (i : ℕ) × (slice_get (spots_in_order grove.now) i ≡ Some spot) }
    ensures unbinds { (file away : List ℕ) → AreOwnersBut names.old symbols.old file grove.now away →
        AreOwnersBut names.new symbols.old file grove.now (spot.node ∷ away) }
    ensures others { OthersStay names.old names.new (owned_at symbols.old (get grove.now.nodes) spot) }
    ensures room { (o : Option Owned) (n : ℕ) → HasRoom names.old o n → HasRoom names.new o n }
    ensures table { symbols.new ≡ symbols.old }
{
    if let Some(owned) = name_at(grove, spot, symbols) {
        names.unbind(owned.0, owned.1, spot.node);
    }
}
