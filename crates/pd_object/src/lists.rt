//! Lists that grow, and lists with room that is taken once.

ghost use Rattle.std.specs.Prelude.{◌≡◌, ◌+◌, ◌≤◌, ◌<◌, ◌++◌, ◌∷◌, [], length, take, drop, slice_set, vec_len, vec_capacity, pos, replicate, IfOk};

use pd_num::{Num, Sig};
use std::alloc::{AllocError, Global};
use std::marker::Model;

/// A list, which contracts see as the list of its items.
#[derive(Debug, Drop)]
pub struct Items<T> {
    items: Vec<T>,
}

impl<T> Model for Items<T> {
    ghost use Rattle.std.specs.Prelude.{List};

    ghost Value = { List T };

    ghost view = { λ a. a.items.items };
}

impl<T> Items<T> {
    ghost use Rattle.std.specs.Borrow.{sem};
    ghost use Rattle.pd_object.specs.Lends.{lends_items};

    pub fn new(alloc: Global) -> Items<T>
        ensures { result ≡ [] }
    {
        Items {
            items: Vec::new(alloc),
        }
    }

    pub fn from_vec(items: Vec<T>) -> Items<T>
        ensures { result ≡ items.items }
    {
        Items { items }
    }

    pub fn into_vec(self) -> Vec<T>
        ensures { result.items ≡ self }
    {
        self.items
    }

    pub fn as_slice(&self) -> &[T]
        ensures { result.now ≡ self.now }
    {
        self.items.as_slice()
    }

    /// The items, for writing.
    pub fn as_mut_slice(&mut self) -> &mut [T]
        ensures* writes_back { sem 𝓛 (lends_items T.row self.entry result) }
        ensures value { result.now ≡ self.old }
    {
        self.items.as_mut_slice()
    }
}

impl<T: Copy> Items<T> {
    /// A list of these items.
    pub fn of(alloc: Global, items: &[T]) -> Result<Items<T>, AllocError>
        ensures { IfOk result (λ list. list ≡ items.now) }
    {
        let items = Vec::from_slice(alloc, items)?;
        Ok(Items { items })
    }

    /// Sets the i-th item, counted from 0.
    pub fn set(&mut self, i: usize, item: T)
        requires { i < length self.old }
        ensures { self.new ≡ slice_set self.old i item }
    {
        self.items[i] = item;
    }
}

/// A list with room for `ROOM` items, which is taken once. Contracts see the list of its items.
#[derive(Debug, Drop)]
pub struct Bounded<T, const ROOM: usize> {
    items: Vec<T>,
}

impl<T, const ROOM: usize> Model for Bounded<T, ROOM> {
    ghost use Rattle.std.specs.Prelude.{List, ◌≤◌, length, vec_capacity};

    ghost Value = { List T };

    ghost view = { λ a. a.items.items };

    ghost invariant = { λ a. (ROOM ≤ vec_capacity a.items) × (length a.items.items ≤ ROOM) };
}

impl<T, const ROOM: usize> Bounded<T, ROOM> {
    /// An empty list with all its room.
    pub fn new(alloc: Global) -> Result<Bounded<T, ROOM>, AllocError>
        ensures { IfOk result (λ list. list ≡ []) }
    {
        let items = Vec::with_capacity(alloc, ROOM)?;
        Ok(Bounded { items })
    }

    pub fn as_slice(&self) -> &[T]
        ensures { result.now ≡ self.now }
    {
        self.items.as_slice()
    }

    pub fn len(&self) -> usize
        ensures { result ≡ length self.now }
    {
        self.items.len()
    }

    /// It has at most `ROOM` items.
    pub fn is_few(&self)
        ensures { length self.now ≤ ROOM }
    {
        let _ = &self.items;
    }

    pub fn push(&mut self, item: T)
        requires { length self.old < ROOM }
        ensures { self.new ≡ self.old ++ item ∷ [] }
    {
        self.items.push_reserved(item);
    }
}

impl<T: Drop, const ROOM: usize> Bounded<T, ROOM> {
    pub fn clear(&mut self)
        ensures { self.new ≡ [] }
    {
        self.items.clear();
    }

    /// Keeps the first `count` items.
    pub fn truncate(&mut self, count: usize)
        ensures { self.new ≡ take count self.old }
    {
        self.items.truncate(count);
    }

    /// Takes the first `count` items away.
    pub fn drop_front(&mut self, count: usize)
        requires { count ≤ length self.old }
        ensures { self.new ≡ drop count self.old }
    {
        if 0 < count {
            let left = self.items.len() - count;
            self.items.rotate_left(count);
            self.items.truncate(left);
        }
    }
}

impl<T: Copy, const ROOM: usize> Bounded<T, ROOM> {
    /// Puts items last.
    pub fn extend(&mut self, items: &[T])
        requires { length self.old + length items.now ≤ ROOM }
        ensures { self.new ≡ self.old ++ items.now }
    {
        append(&mut self.items, items);
    }

    /// Puts items last, as many as fit among the first `most`.
    pub fn extend_up_to(&mut self, most: usize, items: &[T])
        requires within { length self.old ≤ most }
        requires room { most ≤ ROOM }
        ensures items { self.new ≡ take most (self.old ++ items.now) }
        ensures small { length self.new ≤ most }
    {
        let count = items.len().min(most - self.len());
        append(&mut self.items, &items[..count]);
    }
}

/// Puts items last in a list with room for them.
fn append<T: Copy>(list: &mut Vec<T>, items: &[T])
    requires { vec_len list.old + length items.now ≤ vec_capacity list.old }
    ensures items { list.new.items ≡ list.old.items ++ items.now }
    ensures capacity { vec_capacity list.new ≡ vec_capacity list.old }
{
    for item in items {
        list.push_reserved(*item);
    }
}

/// So many zeros, as the values of a table.
pub fn zeros(alloc: Global, count: usize) -> Result<Items<Num>, AllocError>
    ensures { IfOk result (λ list. list ≡ replicate count (pos 0)) }
{
    let items = vec![in alloc; zero(); count]?;
    Ok(Items { items })
}

/// So many signal values of 0, as a block or a delay line.
pub fn silence(alloc: Global, count: usize) -> Result<Items<Sig>, AllocError>
    ensures { IfOk result (λ list. list ≡ replicate count (pos 0)) }
{
    let items = vec![in alloc; no_signal(); count]?;
    Ok(Items { items })
}

/// The number 0.
pub fn zero() -> Num
    ensures { result ≡ pos 0 }
{
    Num::default()
}

/// The signal value 0.
pub fn no_signal() -> Sig
    ensures { result ≡ pos 0 }
{
    Sig::default()
}
