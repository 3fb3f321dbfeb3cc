//! Room among the owners of names for the boxes of a list.

ghost use Rattle.std.specs.Prelude.{◌≡◌, ◌≢◌, ◌+◌, ℕ, Some, true, length, IfOk, OnOk};
ghost use Rattle.pd_name.specs.declared.Class.{Class};
ghost use Rattle.pd_name.specs.Rows.{owners_of, OwnersStay};
ghost use Rattle.pd_tree.specs.Trees.{stands_in};
ghost use Rattle.pd_bind.specs.Owning.{is_owned};
ghost use Rattle.pd_owning.specs.Bound.{HasRoom, OthersStay};
ghost use Rattle.pd_instances.specs.Room.{owning_among, owning_one};

use pd_atom::{Sym, Symbols};
use pd_bind::name_of_row;
use pd_name::{Class, Names};
use pd_owning::reserve_owner;
use pd_tree::Row;
use std::alloc::{AllocError, Global};

/// Sets room aside, so that all these boxes can be bound to the names that they own.
///
/// # Errors
///
/// `AllocError` where memory ran out.
pub(crate) fn reserve_names(
    alloc: Global,
    names: &mut Names,
    rows: &[Row],
    symbols: &mut Symbols,
) -> Result<(), AllocError>
    ensures room { OnOk result ((class : Class) (name : ℕ) → let n = owning_among symbols.old class name (stands_in rows.now) in n ≢ 0 → HasRoom names.new (Some (class, name)) n) }
    ensures owners { OwnersStay names.old names.new }
    ensures table { symbols.new ≡ symbols.old }
{
    let mut counted = Names::new(alloc)?;
    for row in rows {
        let owned = name_of_row(row, true, symbols);
        reserve_next(names, &mut counted, owned)?;
    }
    Ok(())
}

/// Counts one owner more of a name, and sets room aside for as many as were counted.
fn reserve_next(
    names: &mut Names,
    counted: &mut Names,
    owned: Option<(Class, Sym)>,
) -> Result<(), AllocError>
    ensures owners { OwnersStay names.old names.new }
    ensures others { OthersStay names.old names.new owned }
    ensures counted { OnOk result ((class : Class) (name : ℕ) → length (owners_of counted.new class name) ≡ length (owners_of counted.old class name) + owning_one class name owned) }
    ensures room { OnOk result ((class : Class) (name : ℕ) → is_owned class name owned ≡ true → HasRoom names.new (Some (class, name)) (length (owners_of counted.new class name))) }
{
    let Some((class, name)) = owned else {
        return Ok(());
    };
    let count = count_one(counted, class, name)?;
    reserve_owner(names, Some((class, name)), count)
}

/// Counts one owner more of a name, and tells how many were counted.
fn count_one(counted: &mut Names, class: Class, name: Sym) -> Result<u32, AllocError>
    ensures counted { OnOk result ((c : Class) (n : ℕ) → length (owners_of counted.new c n) ≡ length (owners_of counted.old c n) + owning_one c n (Some (class, name))) }
    ensures count { IfOk result (λ count. count ≡ length (owners_of counted.new class name)) }
{
    counted.bind(class, name, 0, 0)?;
    match u32::try_from(counted.owners(class, name).len()) {
        Ok(count) => Ok(count),
        Err(_) => Err(AllocError),
    }
}
