//! The boxes of a part bound to their names, or unbound from them.

ghost use Rattle.std.specs.Prelude.{◌≡◌, ◌≢◌, ◌++◌, ℕ, List, false, None, Some, length, slice_get};
ghost use Rattle.slab.specs.Slab.{get};
ghost use Rattle.pd_name.specs.declared.Class.{Class};
ghost use Rattle.pd_grove.specs.Forest.{IsForest};
ghost use Rattle.pd_grove.specs.Labelled.{IsLabelled};
ghost use Rattle.pd_grove.specs.TextOrder.{keys_of_spots, spots_in_order};
ghost use Rattle.pd_bind.specs.Owning.{root_owner, boxes_owning};
ghost use Rattle.pd_owning.specs.Bound.{AreOwnersBut, AreNew, HasRoom};

use crate::bound::{bind_box, unbind_box};
use pd_atom::Symbols;
use pd_grove::{Grove, Spot};
use pd_name::Names;

/// Binds boxes to the names that they own, in turn. No memory is taken.
pub fn bind_boxes(names: &mut Names, grove: &Grove, spots: &[Spot], symbols: &mut Symbols)
    requires forest { IsForest (get grove.now.nodes) (get grove.now.boards) grove.now.root }
    requires labelled { IsLabelled grove.now }
    requires apart { get grove.now.nodes root_owner ≡ None }
    requires here { (j : ℕ) (p : Spot) → slice_get spots.now j ≡ Some p → (i : ℕ) × (slice_get (spots_in_order grove.now) i ≡ Some p) }
    requires room { (class : Class) (name : ℕ) → let owning = boxes_owning symbols.old (get grove.now.nodes) class name spots.now in
        length owning ≢ 0 → HasRoom names.old (Some (class, name)) (length owning) }
    ensures binds { (file away : List ℕ) → AreNew (keys_of_spots spots.now) away → AreOwnersBut names.old symbols.old file grove.now (keys_of_spots spots.now ++ away) →
        AreOwnersBut names.new symbols.old file grove.now away }
    ensures table { symbols.new ≡ symbols.old }
{
    for spot in spots {
        bind_box(names, grove, *spot, symbols);
    }
}

/// Unbinds boxes from the names that they own.
pub fn unbind_boxes(names: &mut Names, grove: &Grove, spots: &[Spot], symbols: &mut Symbols)
    requires forest { IsForest (get grove.now.nodes) (get grove.now.boards) grove.now.root }
    requires apart { get grove.now.nodes root_owner ≡ None }
    requires here { (j : ℕ) (p : Spot) → slice_get spots.now j ≡ Some p → (i : ℕ) × (slice_get (spots_in_order grove.now) i ≡ Some p) }
    ensures unbinds { (file away : List ℕ) → AreOwnersBut names.old symbols.old file grove.now away →
        AreOwnersBut names.new symbols.old file grove.now (keys_of_spots spots.now ++ away) }
    ensures table { symbols.new ≡ symbols.old }
{
    for spot in spots {
        unbind_box(names, grove, *spot, symbols);
    }
}
