// A table of numbers under keys.
ghost use Rattle.std.specs.Prelude.{◌≡◌, ℕ, ◌<◌, length, slice_index, vec_len};
ghost use Rattle.pd_order.specs.Graph.{tally};
ghost use Rattle.pd_chain.specs.Entries.{values_at, entry_limit};

use crate::entries::{Entry, count_at, first_at, value_at};
use std::marker::Model;

// It takes a search over the keys to find what is under one.
#[derive(Drop)]
pub(crate) struct Table {
    entries: Vec<Entry>,
}

impl Model for Table {
    ghost use Rattle.std.specs.Prelude.{List, length, ◌<◌};
    ghost use Rattle.pd_chain.specs.declared.entries.Entry.{Entry};
    ghost use Rattle.pd_chain.specs.Entries.{IsByKey, entry_limit};

    ghost Value = { List Entry };

    ghost view = { λ t. t.entries.items };

    ghost invariant = { λ t. IsByKey t.entries.items × (length t.entries.items < entry_limit) };
}

impl Table {
    // The values under each key stay, in any order.
    pub(crate) fn of(entries: Vec<Entry>) -> Table
        requires { vec_len entries < entry_limit }
        ensures { (x u : ℕ) → tally u (values_at result x) ≡ tally u (values_at entries.items x) }
    {
        let mut sorted = entries;
        sorted.sort_unstable_by_key(|entry| entry.key);
        Table { entries: sorted }
    }

    pub(crate) fn count_at(&self, key: u32) -> u32
        ensures { result ≡ length (values_at self.now key) }
    {
        count_at(self.entries.as_slice(), key) as u32
    }

    pub(crate) fn value_at(&self, key: u32, i: u32) -> u32
        requires { i < length (values_at self.now key) }
        ensures { result ≡ slice_index (values_at self.now key) i }
    {
        value_at(self.entries.as_slice(), key, i as usize)
    }

    // The first one, or 0 where there is none.
    pub(crate) fn first_at(&self, key: u32) -> u32
        ensures { result ≡ slice_index (values_at self.now key) 0 }
    {
        first_at(self.entries.as_slice(), key)
    }
}
