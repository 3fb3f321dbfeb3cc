//! One box bound to the name that it owns, at its place among the owners, or unbound from it.

ghost use Rattle.std.specs.Prelude.{◌≡◌, ◌+◌, ◌<◌, ◌≤◌, ◌++◌, ◌∷◌, ℕ, Bool, true, false, List, Some, None, length, slice_get, IsTrue, OnOk, OnErr, IsOk};
ghost use Rattle.std.specs.List.{AllByRecursion};
ghost use Rattle.slab.specs.Slab.{get};
ghost use Rattle.pd_name.specs.declared.Class.{Class};
ghost use Rattle.pd_name.specs.Rows.{owners_of, spare_of, OwnersStay, AllStay};
ghost use Rattle.pd_grove.specs.Forest.{IsForest};
ghost use Rattle.pd_grove.specs.Labelled.{IsLabelled};
ghost use Rattle.pd_grove.specs.TextOrder.{keys_in_order, spots_in_order};
ghost use Rattle.pd_bind.specs.Owning.{root_owner, is_owned, owned_at};
ghost use Rattle.pd_owning.specs.Bound.{is_among, AreOwnersBut, HasRoom, Precedes, IsAhead, OthersStay};

use crate::order::comes_before;
use pd_atom::{Sym, Symbols};
use pd_bind::name_of;
use pd_grove::{Grove, Spot};
use pd_name::{Class, Names};
use std::alloc::AllocError;

/// A name has no more owners than this.
const MOST_OWNERS: usize = 4_294_967_296;

/// The name that the box at a place of text order owns. The table stays as it is.
pub fn name_at(grove: &Grove, spot: Spot, symbols: &mut Symbols) -> Option<(Class, Sym)>
    ensures value { result ≡ owned_at symbols.old (get grove.now.nodes) spot }
    ensures table { symbols.new ≡ symbols.old }
{
    match grove.node(spot.node) {
        Some(node) => name_of(node, spot.is_top, symbols),
        None => None,
    }
}

/// Sets room aside, so that so many more boxes that own this name can be bound to it.
///
/// # Errors
///
/// `AllocError` where memory ran out.
pub fn reserve_owner(
    names: &mut Names,
    owned: Option<(Class, Sym)>,
    more: u32,
) -> Result<(), AllocError>
    ensures room { OnOk result (HasRoom names.new owned more) }
    ensures owners { OwnersStay names.old names.new }
    ensures others { OthersStay names.old names.new owned }
    ensures err { OnErr result (AllStay names.old names.new) }
{
    let Some((class, name)) = owned else {
        return Ok(());
    };
    if names.owners(class, name).len() > MOST_OWNERS - more as usize {
        return Err(AllocError);
    }
    names.reserve(class, name, more)
}

/// Binds the box at a place of text order to the name that it owns, if it owns one: before the owners that come behind it, and behind
/// those that come before it. No memory is taken.
pub fn bind_box(names: &mut Names, grove: &Grove, spot: Spot, symbols: &mut Symbols)
    requires forest { IsForest (get grove.now.nodes) (get grove.now.boards) grove.now.root }
    requires labelled { IsLabelled grove.now }
    requires apart { get grove.now.nodes root_owner ≡ None }
    requires here { (i : ℕ) × (slice_get (spots_in_order grove.now) i ≡ Some spot) }
    requires room { HasRoom names.old (owned_at symbols.old (get grove.now.nodes) spot) 1 }
    ensures binds { (file away : List ℕ) → is_among away spot.node ≡ false → AreOwnersBut names.old symbols.old file grove.now (spot.node ∷ away) →
        AreOwnersBut names.new symbols.old file grove.now away }
    ensures others { OthersStay names.old names.new (owned_at symbols.old (get grove.now.nodes) spot) }
    ensures room { (n : ℕ) → HasRoom names.old (owned_at symbols.old (get grove.now.nodes) spot) (n + 1) →
        HasRoom names.new (owned_at symbols.old (get grove.now.nodes) spot) n }
    ensures table { symbols.new ≡ symbols.old }
{
    if let Some(owned) = name_at(grove, spot, symbols) {
        let place = place_among(grove, names.owners(owned.0, owned.1), spot.node);
        names
            .bind(owned.0, owned.1, spot.node, place as u32)
            .unwrap();
    }
}

/// Unbinds the box at a place of text order from the name that it owns, if it owns one. The owners behind it move up by one place.
pub fn unbind_box(names: &mut Names, grove: &Grove, spot: Spot, symbols: &mut Symbols)
    requires forest { IsForest (get grove.now.nodes) (get grove.now.boards) grove.now.root }
    requires apart { get grove.now.nodes root_owner ≡ None }
    requires here { (i : ℕ) × (slice_get (spots_in_order grove.now) i ≡ Some spot) }
    ensures unbinds { (file away : List ℕ) → AreOwnersBut names.old symbols.old file grove.now away →
        AreOwnersBut names.new symbols.old file grove.now (spot.node ∷ away) }
    ensures others { OthersStay names.old names.new (owned_at symbols.old (get grove.now.nodes) spot) }
    ensures places { (class : Class) (name : ℕ) → length (owners_of names.new class name) + spare_of names.new class name
        ≡ length (owners_of names.old class name) + spare_of names.old class name }
    ensures table { symbols.new ≡ symbols.old }
{
    if let Some(owned) = name_at(grove, spot, symbols) {
        names.unbind(owned.0, owned.1, spot.node);
    }
}

/// The place of a box among owners that are in order: the number of those that come before it.
fn place_among(grove: &Grove, owners: &[u32], node: u32) -> usize
    requires forest { IsForest (get grove.now.nodes) (get grove.now.boards) grove.now.root }
    requires labelled { IsLabelled grove.now }
    ensures within { result ≤ length owners.now }
    ensures place { (before behind : List ℕ) → owners.now ≡ before ++ behind → AllByRecursion (IsAhead grove.now node) before →
        AllByRecursion (Precedes (keys_in_order grove.now) node) behind → result ≡ length before }
{
    let mut low = 0;
    let mut high = owners.len();
    while low < high {
        let middle = low + (high - low) / 2;
        if is_ahead(grove, owners[middle], node) {
            low = middle + 1;
        } else {
            high = middle;
        }
    }
    low
}

/// Whether an owner comes before a box: the root canvas does.
fn is_ahead(grove: &Grove, owner: u32, node: u32) -> bool
    requires forest { IsForest (get grove.now.nodes) (get grove.now.boards) grove.now.root }
    requires labelled { IsLabelled grove.now }
    ensures ahead { IsAhead grove.now node owner → IsTrue result }
    ensures behind { Precedes (keys_in_order grove.now) node owner → result ≡ false }
{
    match grove.node(owner) {
        Some(_) => comes_before(grove, owner, node),
        None => true,
    }
}
