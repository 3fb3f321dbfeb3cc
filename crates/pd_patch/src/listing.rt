//! A table of numbers under keys.

ghost use Rattle.std.specs.Prelude.{◌≡◌, ◌<◌, length, slice_get, Some, OnOk};
ghost use Rattle.pd_patch.specs.Numbers.{Keeps, StayBut};

use std::alloc::AllocError;

/// Puts a number under a key.
///
/// # Errors
///
/// `AllocError` where memory ran out, or the number is 2^32 or more.
pub(crate) fn put_number(table: &mut Vec<u32>, key: u32, number: usize) -> Result<(), AllocError>
    ensures at { OnOk result (slice_get table.new.items key ≡ Some number) }
    ensures others { OnOk result (StayBut table.old.items table.new.items key) }
{
    match u32::try_from(number) {
        Ok(number) => put_place(table, key, number),
        Err(_) => Err(AllocError),
    }
}

/// Puts a place under a key.
fn put_place(places: &mut Vec<u32>, key: u32, place: u32) -> Result<(), AllocError>
    ensures at { OnOk result (slice_get places.new.items key ≡ Some place) }
    ensures others { OnOk result (StayBut places.old.items places.new.items key) }
{
    reach(places, key)?;
    places[key as usize] = place;
    Ok(())
}

/// Makes a table so long that it has a place for a key.
fn reach(places: &mut Vec<u32>, key: u32) -> Result<(), AllocError>
    ensures there { OnOk result (key < length places.new.items) }
    ensures kept { OnOk result (Keeps places.old.items places.new.items) }
{
    let key = key as usize;
    if places.len() <= key {
        places.resize(key + 1, 0)?;
    }
    Ok(())
}
