// The graph of a canvas, in which boxes and wires are found by the boxes' keys.
ghost use Rattle.std.specs.Prelude.{◌≡◌, ℕ, ◌<◌, ◌≤◌, length, map, IfOk};
ghost use Rattle.pd_order.specs.Graph.{tally};
ghost use Rattle.pd_chain.specs.Entries.{entry_limit};
ghost use Rattle.pd_chain.specs.Wires.{entry_into, entry_from};
ghost use Rattle.pd_chain.specs.Tables.{graph_in, Draws};

use crate::entries::Entry;
use crate::numbers::number_all;
use crate::table::Table;
use pd_order::{SignalGraph, Steps};
use std::alloc::{AllocError, Global};
use std::marker::Model;
use std::sync::ledger::Ledger;

/// A signal wire from one box to another, by their keys.
#[derive(Clone, Copy)]
pub struct SignalWire {
    pub source: u32,
    pub sink: u32,
}

/// The boxes of a canvas, each of the rank of its number, and its signal wires.
///
/// It takes memory in proportion to how many boxes and wires there are, whatever their keys. Each question takes a
/// search over them.
#[derive(Drop)]
pub struct Graph {
    places: Table,
    feeders: Table,
    followers: Table,
}

impl Model for Graph {
    ghost use Rattle.pd_chain.specs.Tables.{Tables};

    ghost Value = { Tables };

    ghost view = { λ g. record { places = g.places; feeders = g.feeders; followers = g.followers } };
}

// The sources under their sinks.
fn into_sinks(alloc: Global, wires: &[SignalWire]) -> Result<Vec<Entry>, AllocError>
    ensures { IfOk result (λ made. made.items ≡ map entry_into wires.now) }
{
    wires
        .iter()
        .map(|wire| Entry {
            key: wire.sink,
            value: wire.source,
        })
        .collect(alloc)
}

// The sinks under their sources.
fn from_sources(alloc: Global, wires: &[SignalWire]) -> Result<Vec<Entry>, AllocError>
    ensures { IfOk result (λ made. made.items ≡ map entry_from wires.now) }
{
    wires
        .iter()
        .map(|wire| Entry {
            key: wire.source,
            value: wire.sink,
        })
        .collect(alloc)
}

impl Graph {
    /// The nodes are the keys of the boxes in the order of their numbers. The wires may come in any order.
    pub fn of(alloc: Global, nodes: &[u32], wires: &[SignalWire]) -> Result<Graph, AllocError>
        requires once { (x : ℕ) → tally x nodes.now ≤ 1 }
        requires few_nodes { length nodes.now < entry_limit }
        requires few_wires { length wires.now < entry_limit }
        ensures { IfOk result (λ made. Draws (graph_in made) nodes.now wires.now) }
    {
        let places = number_all(alloc, nodes)?;
        let feeders = into_sinks(alloc, wires)?;
        let followers = from_sources(alloc, wires)?;
        Ok(Graph {
            places: Table::of(places),
            feeders: Table::of(feeders),
            followers: Table::of(followers),
        })
    }
}

impl<L: Ledger> SignalGraph<L> for Graph {
    ghost meaning = { λ g. graph_in g };

    fn rank(&self, node: u32) -> u64 {
        u64::from(self.places.first_at(node))
    }

    fn feeder_count(&self, node: u32, steps: &mut Steps<L>) -> u32 {
        steps.tick();
        self.feeders.count_at(node)
    }

    fn feeder(&self, node: u32, i: u32, steps: &mut Steps<L>) -> u32 {
        steps.tick();
        self.feeders.value_at(node, i)
    }

    fn follower_count(&self, node: u32, steps: &mut Steps<L>) -> u32 {
        steps.tick();
        self.followers.count_at(node)
    }

    fn follower(&self, node: u32, i: u32, steps: &mut Steps<L>) -> u32 {
        steps.tick();
        self.followers.value_at(node, i)
    }
}
