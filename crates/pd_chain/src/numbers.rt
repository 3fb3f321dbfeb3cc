// The numbers of boxes.
ghost use Rattle.std.specs.Prelude.{◌≡◌, ℕ, ◌<◌, ◌≤◌, length, IfOk};
ghost use Rattle.pd_order.specs.Graph.{tally};
ghost use Rattle.pd_chain.specs.Entries.{numbered, entry_limit};
ghost use Rattle.pd_chain.specs.Numbers.{numbers_of};

use crate::entries::Entry;
use crate::table::Table;
use std::alloc::{AllocError, Global};

// Each key with its place.
pub(crate) fn number_all(alloc: Global, nodes: &[u32]) -> Result<Vec<Entry>, AllocError>
    requires { length nodes.now < entry_limit }
    ensures { IfOk result (λ made. made.items ≡ numbered 0 nodes.now) }
{
    let mut entries = Vec::with_capacity(alloc, nodes.len())?;
    for (place, key) in nodes.iter().enumerate() {
        entries.push(Entry {
            key: *key,
            value: place as u32,
        })?;
    }
    Ok(entries)
}

/// The numbers of some boxes of a canvas, whose boxes have these keys in the order of their numbers.
pub fn numbers_in(alloc: Global, nodes: &[u32], keys: &[u32]) -> Result<Vec<u32>, AllocError>
    requires once { (x : ℕ) → tally x nodes.now ≤ 1 }
    requires among { (x : ℕ) → 0 < tally x keys.now → 0 < tally x nodes.now }
    requires few_nodes { length nodes.now < entry_limit }
    ensures { IfOk result (λ made. made.items ≡ numbers_of nodes.now keys.now) }
{
    let places = Table::of(number_all(alloc, nodes)?);
    let mut numbers = Vec::with_capacity(alloc, keys.len())?;
    for key in keys {
        numbers.push(places.first_at(*key))?;
    }
    Ok(numbers)
}
