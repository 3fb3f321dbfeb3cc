// Lists of keys under keys.
ghost use Rattle.std.specs.Prelude.{◌≡◌, ℕ, ◌+◌, ◌-◌, ◌<◌, ◌≤◌, ◌∷◌, ◌++◌, [], length, slice_index, position, nat_eq, vec_len, vec_capacity, OnOk};
ghost use Rattle.pd_order.specs.Graph.{tally};
ghost use Rattle.pd_links.specs.Rows.{keys_at, spare_at, AreFew, SameRows, OthersStay};

use std::alloc::{AllocError, Global};

// How many keys are under the key.
pub(crate) fn count_at(rows: &[Vec<u32>], key: u32) -> u32
    requires { AreFew rows.now }
    ensures { result ≡ length (keys_at rows.now key) }
{
    match rows.get(key as usize) {
        Some(row) => row.len() as u32,
        None => 0,
    }
}

// The i-th of them.
pub(crate) fn key_at(rows: &[Vec<u32>], key: u32, i: u32) -> u32
    requires { i < length (keys_at rows.now key) }
    ensures { result ≡ slice_index (keys_at rows.now key) i }
{
    match rows.get(key as usize) {
        Some(row) => row[i as usize],
        None => 0,
    }
}

// One key more under the key.
pub(crate) fn put(rows: &mut [Vec<u32>], key: u32, other: u32)
    requires there { key < length rows.old }
    requires room { 0 < spare_at rows.old key }
    ensures keys { keys_at rows.new key ≡ keys_at rows.old key ++ other ∷ [] }
    ensures spare { spare_at rows.new key + 1 ≡ spare_at rows.old key }
    ensures others { OthersStay rows.old rows.new key }
{
    let row = &mut rows[key as usize];
    row.push_reserved(other);
}

// The first place of a key.
fn place_of(row: &[u32], other: u32) -> Option<usize>
    ensures { result ≡ position (nat_eq other) row.now }
{
    row.iter().position(|key| other == *key)
}

// One key less in the list, whose last key takes its place.
fn take_from(row: &mut Vec<u32>, other: u32)
    requires { 0 < tally other row.old.items }
    ensures keys { (u : ℕ) → tally u row.old.items ≡ tally u (other ∷ row.new.items) }
    ensures capacity { vec_capacity row.new ≡ vec_capacity row.old }
{
    match place_of(row, other) {
        Some(place) => {
            row.swap_remove(place);
        }
        None => {}
    }
}

// One key less under the key.
pub(crate) fn take(rows: &mut [Vec<u32>], key: u32, other: u32)
    requires there { key < length rows.old }
    requires listed { 0 < tally other (keys_at rows.old key) }
    ensures keys { (u : ℕ) → tally u (keys_at rows.old key) ≡ tally u (other ∷ keys_at rows.new key) }
    ensures spare { spare_at rows.old key ≤ spare_at rows.new key }
    ensures others { OthersStay rows.old rows.new key }
{
    let row = &mut rows[key as usize];
    take_from(row, other);
}

// Room for so many more keys under the key.
fn widen(rows: &mut [Vec<u32>], key: u32, more: u32) -> Result<(), AllocError>
    requires { key < length rows.old }
    ensures same { SameRows rows.old rows.new }
    ensures room { OnOk result (more ≤ spare_at rows.new key) }
{
    let row = &mut rows[key as usize];
    row.reserve(more as usize)
}

// A list under each key up to this one.
fn lengthen(alloc: Global, rows: &mut Vec<Vec<u32>>, key: u32) -> Result<(), AllocError>
    ensures same { SameRows rows.old.items rows.new.items }
    ensures there { OnOk result (key < length rows.new.items) }
{
    while rows.len() <= key as usize {
        rows.push(Vec::new(alloc))?;
    }
    Ok(())
}

// A list under each key below an end.
pub(crate) fn lengthen_to(
    alloc: Global,
    rows: &mut Vec<Vec<u32>>,
    end: u32,
) -> Result<(), AllocError>
    ensures same { SameRows rows.old.items rows.new.items }
    ensures far { OnOk result (end ≤ length rows.new.items) }
{
    while rows.len() < end as usize {
        rows.push(Vec::new(alloc))?;
    }
    Ok(())
}

// Another list without keys in the place of one.
pub(crate) fn put_row(rows: &mut Vec<Vec<u32>>, key: u32, row: Vec<u32>)
    requires there { key < length rows.old.items }
    requires bare { keys_at rows.old.items key ≡ [] }
    requires none { row.items ≡ [] }
    ensures keys { (k : ℕ) → keys_at rows.new.items k ≡ keys_at rows.old.items k }
    ensures spare { spare_at rows.new.items key ≡ vec_capacity row - vec_len row }
    ensures others { OthersStay rows.old.items rows.new.items key }
    ensures len { length rows.new.items ≡ length rows.old.items }
{
    rows[key as usize] = row;
}

// Room for so many more keys under the key.
pub(crate) fn make_room(
    alloc: Global,
    rows: &mut Vec<Vec<u32>>,
    key: u32,
    more: u32,
) -> Result<(), AllocError>
    ensures same { SameRows rows.old.items rows.new.items }
    ensures room { OnOk result (more ≤ spare_at rows.new.items key) }
{
    lengthen(alloc, rows, key)?;
    widen(rows, key, more)
}
