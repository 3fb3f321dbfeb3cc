//! A label a key: found by halving, put between two others, or given anew along a whole list.

ghost use Rattle.std.specs.Prelude.{◌≡◌, ◌<◌, ◌≤◌, ℕ, Some, length, slice_get, slice_set, OnOk, IfSome};
ghost use Rattle.pd_label.specs.Labels.{label_of, Rise, RiseBut, IsBetween, Reach, AreApart, IsAway, PutsLabel};

use std::alloc::{AllocError, Global};
use std::marker::Model;

/// A key that comes last has a label so far above the one before it, if that leaves a label.
const STEP: u64 = 64;

/// The labels of the keys from 0 on.
#[derive(Debug, Drop)]
pub struct Labels {
    items: Vec<u64>,
}

impl Model for Labels {
    ghost use Rattle.std.specs.Prelude.{List, ℕ};

    ghost Value = { List ℕ };

    ghost view = { λ l. l.items.items };
}

impl Labels {
    /// No labels.
    pub fn new(alloc: Global) -> Labels
        ensures { length result ≡ 0 }
    {
        Labels {
            items: Vec::new(alloc),
        }
    }

    /// Gives each key below `end` a label, if it has none. The labels that there are stay, also after an error.
    ///
    /// # Errors
    ///
    /// `AllocError` where memory ran out.
    pub fn reach(&mut self, end: usize) -> Result<(), AllocError>
        ensures reach { OnOk result (end ≤ length self.new) }
        ensures longer { length self.old ≤ length self.new }
        ensures same { (k : ℕ) → k < length self.old → label_of self.new k ≡ label_of self.old k }
    {
        if end > self.items.len() {
            self.items.resize(end, 0)?;
        }
        Ok(())
    }

    /// The label of a key, 0 where it has none.
    pub fn label(&self, key: u32) -> u64
        ensures { result ≡ label_of self.now key }
    {
        match self.items.get(key as usize) {
            Some(label) => *label,
            None => 0,
        }
    }

    /// The number of a key in a list along which labels rise.
    pub fn place(&self, keys: &[u32], key: u32) -> usize
        requires rise { Rise self.now keys.now }
        requires here { (i : ℕ) × (slice_get keys.now i ≡ Some key) }
        ensures { slice_get keys.now result ≡ Some key }
    {
        let label = self.label(key);
        let mut low = 0;
        let mut high = keys.len();
        while low < high {
            let middle = low + (high - low) / 2;
            if self.label(keys[middle]) < label {
                low = middle + 1;
            } else {
                high = middle;
            }
        }
        low
    }

    /// Labels the key of a number, so that labels rise along the list if they do without this key.
    pub fn put(&mut self, keys: &[u32], number: usize)
        requires { number < length keys.now }
        ensures { PutsLabel self.old self.new keys.now number }
    {
        match self.between(keys, number) {
            Some(label) => self.set(keys[number], label),
            None => self.label_anew(keys),
        }
    }

    /// Gives a key this label, if it has one.
    fn set(&mut self, key: u32, label: u64)
        ensures { self.new ≡ slice_set self.old key label }
    {
        if let Some(old) = self.items.get_mut(key as usize) {
            *old = label;
        }
    }

    /// A label for the key of a number, where there is one between those of the keys around it.
    fn between(&self, keys: &[u32], number: usize) -> Option<u64>
        requires { number < length keys.now }
        ensures { RiseBut number self.now keys.now → IfSome result (IsBetween self.now keys.now number) }
    {
        let low = if number == 0 {
            0
        } else {
            self.label(keys[number - 1])
        };
        if number + 1 == keys.len() {
            return low.checked_add(STEP);
        }
        let high = self.label(keys[number + 1]);
        if low < high && high - low > 1 {
            Some(low + (high - low) / 2)
        } else {
            None
        }
    }

    /// Labels all keys of a list, at even steps.
    fn label_anew(&mut self, keys: &[u32])
        ensures rise { Reach self.old keys.now → AreApart keys.now → Rise self.new keys.now }
        ensures others { (k : ℕ) → IsAway keys.now k → label_of self.new k ≡ label_of self.old k }
        ensures length { length self.new ≡ length self.old }
    {
        let step = (u64::MAX / (keys.len() as u64 + 1)).min(STEP);
        for (number, key) in keys.iter().enumerate() {
            self.set(*key, (number as u64 + 1) * step);
        }
    }
}
