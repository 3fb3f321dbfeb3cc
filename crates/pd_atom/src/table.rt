//! A hashed table of distinct names in the order in which they came.
ghost use Rattle.std.specs.Prelude.{◌≡◌, ◌<◌, ◌≤◌, ◌+◌, [], ◌∷◌, ◌++◌, None, length, take, position, bytes_eq, IfOk};
ghost use Rattle.indexmap.specs.IndexSet.{IsEmpty, spare};
ghost use Rattle.pd_atom.specs.Names.{AreDistinct, AreShort, most, longest, name_of};
ghost use Rattle.pd_atom.specs.Stored.{bytes_of};

use arrayvec::ArrayVec;
use indexmap::IndexSet;
use std::alloc::{AllocError, Global};
use std::marker::Model;
use std::mem;

/// How many names fit.
const MOST: usize = 65_536;

/// Distinct names, and a second set with the same room, into which those that stay are copied.
#[derive(Drop)]
pub(crate) struct Table {
    names: IndexSet<ArrayVec<u8, 255>>,
    spare: IndexSet<ArrayVec<u8, 255>>,
}

impl Model for Table {
    ghost use Rattle.pd_atom.specs.Names.{Names};
    ghost use Rattle.pd_atom.specs.Stored.{bytes_of, IsStored};

    ghost Value = { Names };

    ghost view = { λ t. bytes_of t.names.keys };

    ghost invariant = { IsStored };
}

impl Table {
    /// An empty table with room for all its names.
    pub(crate) fn new(alloc: Global) -> Result<Table, AllocError>
        ensures { IfOk result (λ t. t ≡ []) }
    {
        Ok(Table {
            names: IndexSet::with_capacity(alloc, MOST)?,
            spare: IndexSet::with_capacity(alloc, MOST)?,
        })
    }

    /// How many names there are.
    pub(crate) fn len(&self) -> usize
        ensures value { result ≡ length self.now }
        ensures distinct { AreDistinct self.now }
        ensures short { AreShort self.now }
        ensures few { length self.now ≤ most }
    {
        self.names.len()
    }

    /// The name at a place.
    pub(crate) fn name(&self, place: usize) -> &[u8]
        requires { place < length self.now }
        ensures { result.now ≡ name_of self.now place }
    {
        self.names.as_slice()[place].as_slice()
    }

    /// The place of a name.
    pub(crate) fn place(&self, name: &[u8]) -> Option<usize>
        ensures { result ≡ position (bytes_eq name.now) self.now }
    {
        match ArrayVec::try_from(name) {
            Ok(key) => self.names.get_index_of(&key),
            Err(_) => None,
        }
    }

    /// Adds a new name.
    pub(crate) fn push(&mut self, name: &[u8])
        requires some { 0 < length name.now }
        requires short { length name.now ≤ longest }
        requires absent { position (bytes_eq name.now) self.old ≡ None }
        requires room { length self.old < most }
        ensures { self.new ≡ self.old ++ name.now ∷ [] }
    {
        push_new(&mut self.names, name);
    }

    /// Keeps the first names.
    pub(crate) fn truncate(&mut self, len: usize)
        ensures { self.new ≡ take len self.old }
    {
        if len >= self.names.len() {
            return;
        }
        self.spare.clear();
        push_all(&mut self.spare, &self.names.as_slice()[..len]);
        mem::swap(&mut self.names, &mut self.spare);
    }
}

/// A name as the table stores it.
fn stored(name: &[u8]) -> ArrayVec<u8, 255>
    requires { length name.now ≤ longest }
    ensures { result.items ≡ name.now }
{
    let mut stored = ArrayVec::new();
    let _ = stored.try_extend_from_slice(name);
    stored
}

/// Adds a name that the set lacks, and has room for.
fn push_new(names: &mut IndexSet<ArrayVec<u8, 255>>, name: &[u8])
    requires short { length name.now ≤ longest }
    requires absent { position (bytes_eq name.now) (bytes_of names.old.keys) ≡ None }
    requires room { 0 < spare names.old }
    ensures names { bytes_of names.new.keys ≡ bytes_of names.old.keys ++ name.now ∷ [] }
    ensures room { spare names.old ≤ spare names.new + 1 }
{
    names.insert(stored(name)).unwrap();
}

/// Adds distinct names to an empty set with room for them.
fn push_all(names: &mut IndexSet<ArrayVec<u8, 255>>, more: &[ArrayVec<u8, 255>])
    requires distinct { AreDistinct (bytes_of more.now) }
    requires empty { IsEmpty names.old }
    requires room { length more.now ≤ spare names.old }
    ensures names { bytes_of names.new.keys ≡ bytes_of more.now }
    ensures room { spare names.old ≤ spare names.new + length more.now }
{
    for name in more {
        push_new(names, name.as_slice());
    }
}
