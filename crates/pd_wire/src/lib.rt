//! Wires between outlets and inlets, in a book. Each wire stands in two doubly linked lists, in the fan-out of its
//! outlet and among the feeds of its inlet, and its key stays the same until it is cut.
//!
//! `add` puts a wire last in the fan-out, `insert_at` at its places in both lists, `add_before` and `insert_before`
//! before wires of these lists, with no walk along them, and `cut` takes one entry out of each list; every other
//! list, key and end stays. `fan_first`, `fan_next`, `feed_first` and `feed_next` give a list's next key, and None
//! exactly at its end; `feed_last` and `feed_before` go the other way. `wire_count` tells how many wires there are, by
//! one pass over all that the book holds. `reserve` sets numbers of ends and of wires aside, each counted by itself,
//! and the calls that use them up can't fail. Dropping an end or cutting a wire gives its room back.
//!
//! That each live wire stands exactly once in its two lists is kept by every call (`laws`). Free: how long a call
//! takes, which is measured (`docs/BENCHMARKS.md`).
//!
//! Definitions: `Book` (fan-outs, feeds, and what each change does), `Links` and `Stored` (how the lists are kept).
#![tactic(auto)]

mod book;
mod keys;
mod links;
mod walks;

pub use book::WireBook;
pub use keys::{End, WireKey};
