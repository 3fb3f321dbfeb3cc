//! The lists as a hashed map from a class and a name. An entry is never taken out, so that its spare places stay.
ghost use Rattle.std.specs.Prelude.{◌≡◌, ◌<◌, ◌≤◌, ◌+◌, length, insert, vec_len, vec_capacity, if◌then◌else◌, is_ok, nat_eq, position, IfSome, OnOk, OnErr, IsOk};
ghost use Rattle.pd_name.specs.Rows.{owners_of, spare_of, without, AllStay, OthersStay, OwnersStay};
ghost use Rattle.pd_name.specs.Stored.{rows_of, room};

use crate::Class;
use indexmap::IndexMap;
use pd_atom::Sym;
use std::alloc::{AllocError, Global};

/// A name in a class.
#[derive(Clone, Copy, Debug, PartialEq, Eq, Hash)]
pub(crate) struct Key {
    pub(crate) class: Class,
    pub(crate) name: Sym,
}

/// The owners of each name in a class.
pub(crate) type Lists = IndexMap<Key, Vec<u32>>;

/// Puts an owner at a place of a list.
fn put(owners: &mut Vec<u32>, owner: u32, index: usize) -> Result<(), AllocError>
    requires { index ≤ length owners.old.items }
    ensures items { owners.new.items ≡ (if is_ok result then insert owners.old.items index owner else owners.old.items) }
    ensures spare { OnOk result (room owners.old ≤ room owners.new + 1) }
    ensures succeeds { 0 < room owners.old → IsOk result }
    ensures err { OnErr result (room owners.new ≡ room owners.old) }
{
    owners.reserve(1)?;
    owners.insert(index, owner).unwrap();
    Ok(())
}

/// Takes an owner out of a list, at its first place there.
fn take(owners: &mut Vec<u32>, owner: u32)
    ensures items { owners.new.items ≡ without owner owners.old.items }
    ensures places { length owners.new.items + room owners.new ≡ length owners.old.items + room owners.old }
{
    if let Some(place) = place_of(owners, owner) {
        owners.remove(place);
    }
}

/// The first place of an owner in a list.
fn place_of(owners: &[u32], owner: u32) -> Option<usize>
    ensures value { result ≡ position (nat_eq owner) owners.now }
    ensures within { IfSome result (λ place. place < length owners.now) }
{
    owners.iter().position(|other| owner == *other)
}

/// Puts an owner at a place of the key's list.
pub(crate) fn bind(
    lists: &mut Lists,
    alloc: Global,
    key: Key,
    owner: u32,
    index: usize,
) -> Result<(), AllocError>
    requires { index ≤ length (owners_of (rows_of lists.old.entries) key.class key.name) }
    ensures owners { OnOk result (owners_of (rows_of lists.new.entries) key.class key.name ≡ insert (owners_of (rows_of lists.old.entries) key.class key.name) index owner) }
    ensures spare { OnOk result (spare_of (rows_of lists.old.entries) key.class key.name ≤ spare_of (rows_of lists.new.entries) key.class key.name + 1) }
    ensures others { OthersStay (rows_of lists.old.entries) (rows_of lists.new.entries) key.class key.name }
    ensures succeeds { 0 < spare_of (rows_of lists.old.entries) key.class key.name → IsOk result }
    ensures err { OnErr result (AllStay (rows_of lists.old.entries) (rows_of lists.new.entries)) }
{
    match lists.get_mut(&key) {
        Some(owners) => put(owners, owner, index),
        None => {
            let mut owners = Vec::new(alloc);
            put(&mut owners, owner, index)?;
            lists.insert(key, owners)?;
            Ok(())
        }
    }
}

/// Makes room for so many more owners in the key's list.
pub(crate) fn reserve(
    lists: &mut Lists,
    alloc: Global,
    key: Key,
    more: usize,
) -> Result<(), AllocError>
    ensures owners { OwnersStay (rows_of lists.old.entries) (rows_of lists.new.entries) }
    ensures room { OnOk result (more ≤ spare_of (rows_of lists.new.entries) key.class key.name) }
    ensures spare { spare_of (rows_of lists.old.entries) key.class key.name ≤ spare_of (rows_of lists.new.entries) key.class key.name }
    ensures others { OthersStay (rows_of lists.old.entries) (rows_of lists.new.entries) key.class key.name }
    ensures succeeds { more ≤ spare_of (rows_of lists.old.entries) key.class key.name → IsOk result }
    ensures err { OnErr result (AllStay (rows_of lists.old.entries) (rows_of lists.new.entries)) }
{
    if more == 0 {
        return Ok(());
    }
    match lists.get_mut(&key) {
        Some(owners) => owners.reserve(more),
        None => {
            lists.insert(key, Vec::with_capacity(alloc, more)?)?;
            Ok(())
        }
    }
}

/// Takes an owner out of the key's list, at its first place there.
pub(crate) fn unbind(lists: &mut Lists, key: Key, owner: u32)
    ensures owners { owners_of (rows_of lists.new.entries) key.class key.name ≡ without owner (owners_of (rows_of lists.old.entries) key.class key.name) }
    ensures places { length (owners_of (rows_of lists.new.entries) key.class key.name) + spare_of (rows_of lists.new.entries) key.class key.name ≡ length (owners_of (rows_of lists.old.entries) key.class key.name) + spare_of (rows_of lists.old.entries) key.class key.name }
    ensures others { OthersStay (rows_of lists.old.entries) (rows_of lists.new.entries) key.class key.name }
{
    if let Some(owners) = lists.get_mut(&key) {
        take(owners, owner);
    }
}

/// The owners of the key.
pub(crate) fn owners(lists: &Lists, key: Key) -> &[u32]
    ensures { result.now ≡ owners_of (rows_of lists.now.entries) key.class key.name }
{
    match lists.get(&key) {
        Some(owners) => owners.as_slice(),
        None => &[],
    }
}
