// The links and the labels of boxes as the graph that an order asks.
ghost use Rattle.std.specs.Prelude.{◌≡◌};
ghost use Rattle.pd_links.specs.Linked.{label_at, link_graph};

use crate::links::Links;
use pd_order::{SignalGraph, Steps};
use std::sync::ledger::Ledger;

/// The boxes of a patch, each of the rank of its label, and its signal wires. Labels stand under the boxes' keys, and
/// a key without one has the label 0.
#[derive(Clone, Copy)]
pub struct LinkGraph<'a> {
    pub links: &'a Links,
    pub labels: &'a [u32],
}

fn label_of(labels: &[u32], node: u32) -> u32
    ensures { result ≡ label_at labels.now node }
{
    match labels.get(node as usize) {
        Some(label) => *label,
        None => 0,
    }
}

impl<'a, L: Ledger> SignalGraph<L> for LinkGraph<'a> {
    ghost meaning = { λ g. link_graph g.labels.now g.links.now };

    fn rank(&self, node: u32) -> u64 {
        u64::from(label_of(self.labels, node))
    }

    fn feeder_count(&self, node: u32, steps: &mut Steps<L>) -> u32 {
        steps.tick();
        self.links.feeder_count(node)
    }

    fn feeder(&self, node: u32, i: u32, steps: &mut Steps<L>) -> u32 {
        steps.tick();
        self.links.feeder(node, i)
    }

    fn follower_count(&self, node: u32, steps: &mut Steps<L>) -> u32 {
        steps.tick();
        self.links.follower_count(node)
    }

    fn follower(&self, node: u32, i: u32, steps: &mut Steps<L>) -> u32 {
        steps.tick();
        self.links.follower(node, i)
    }
}
