//! The names of a patch, bound to their owners in text order.

ghost use Rattle.std.specs.Prelude.{◌≡◌, ◌++◌, ℕ, None, IsTrue, OnOk, IfOk};
ghost use Rattle.slab.specs.Slab.{get};
ghost use Rattle.pd_name.specs.declared.Class.{Class};
ghost use Rattle.pd_name.specs.declared.Class.TheVariants.{Receiver};
ghost use Rattle.pd_name.specs.Rows.{owners_of};
ghost use Rattle.pd_bind.specs.Naming.{owned, canvas_symbol};
ghost use Rattle.pd_bind.specs.Owning.{root_owner, owned_at, boxes_owning, owners_in, Binds};

use crate::naming::{in_class, name_of};
use crate::owners::ROOT;
use crate::receivers::canvas_receiver;
use pd_atom::{Sym, Symbols};
use pd_grove::{Grove, Spot};
use pd_name::{Class, Names};
use std::alloc::{AllocError, Global};

/// Binds the names of a patch whose file has this name: each to the root canvas, where that owns it, and then to the boxes that own
/// it, in text order. A name that the table lacks is bound to nothing. The table stays as it is.
///
/// # Errors
///
/// `AllocError` where memory ran out.
pub fn bind_names(
    alloc: Global,
    grove: &Grove,
    file: &[u8],
    symbols: &mut Symbols,
) -> Result<Names, AllocError>
    ensures owners { (class : Class) (name : ℕ) → IfOk result (λ names. owners_of names class name ≡ owners_in symbols.old file.now grove.now class name) }
    ensures apart { IfOk result (λ _. get grove.now.nodes root_owner ≡ None) }
    ensures table { symbols.new ≡ symbols.old }
{
    if !has_small_keys(grove) {
        return Err(AllocError);
    }
    let mut names = Names::new(alloc)?;
    bind_root(&mut names, file, symbols)?;
    let spots = grove.spots(alloc)?;
    bind_boxes(&mut names, grove, &spots, symbols)?;
    Ok(names)
}

/// Whether all keys of boxes are below the number that stands for the root canvas.
fn has_small_keys(grove: &Grove) -> bool
    ensures { IsTrue result → get grove.now.nodes root_owner ≡ None }
{
    grove.nodes_end() <= ROOT as usize
}

/// Binds the name of the root canvas.
fn bind_root(names: &mut Names, file: &[u8], symbols: &mut Symbols) -> Result<(), AllocError>
    ensures binds { OnOk result (Binds names.old names.new (owned Receiver (canvas_symbol symbols.old file.now)) root_owner) }
    ensures table { symbols.new ≡ symbols.old }
{
    let name = canvas_receiver(file, symbols);
    bind_last(names, in_class(Class::Receiver, name), ROOT)
}

/// Binds the names of boxes in turn.
fn bind_boxes(
    names: &mut Names,
    grove: &Grove,
    spots: &[Spot],
    symbols: &mut Symbols,
) -> Result<(), AllocError>
    ensures binds { OnOk result ((class : Class) (name : ℕ) →
        owners_of names.new class name ≡ owners_of names.old class name ++ boxes_owning symbols.old (get grove.now.nodes) class name spots.now) }
    ensures table { symbols.new ≡ symbols.old }
{
    for spot in spots {
        bind_box(names, grove, *spot, symbols)?;
    }
    Ok(())
}

/// Binds the name of a box, where it owns one.
fn bind_box(
    names: &mut Names,
    grove: &Grove,
    spot: Spot,
    symbols: &mut Symbols,
) -> Result<(), AllocError>
    ensures binds { OnOk result (Binds names.old names.new (owned_at symbols.old (get grove.now.nodes) spot) spot.node) }
    ensures table { symbols.new ≡ symbols.old }
{
    let owned = name_at(grove, spot, symbols);
    bind_last(names, owned, spot.node)
}

/// The name that the box at a place of text order owns.
fn name_at(grove: &Grove, spot: Spot, symbols: &mut Symbols) -> Option<(Class, Sym)>
    ensures value { result ≡ owned_at symbols.old (get grove.now.nodes) spot }
    ensures table { symbols.new ≡ symbols.old }
{
    match grove.node(spot.node) {
        Some(node) => name_of(node, spot.is_top, symbols),
        None => None,
    }
}

/// Binds an owner last in the list of the name that it owns.
fn bind_last(names: &mut Names, owned: Option<(Class, Sym)>, owner: u32) -> Result<(), AllocError>
    ensures { OnOk result (Binds names.old names.new owned owner) }
{
    match owned {
        Some((class, name)) => bind_at_end(names, class, name, owner),
        None => Ok(()),
    }
}

/// Binds an owner last in the list of a name.
fn bind_at_end(names: &mut Names, class: Class, name: Sym, owner: u32) -> Result<(), AllocError>
    ensures { OnOk result (Binds names.old names.new (Some (class, name)) owner) }
{
    match u32::try_from(names.owners(class, name).len()) {
        Ok(end) => names.bind(class, name, owner, end),
        Err(_) => Err(AllocError),
    }
}
