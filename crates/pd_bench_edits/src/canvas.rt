//! The signal boxes of a canvas with their wires and their order, which stays that of the wires.

ghost use Rattle.std.specs.Prelude.{◌≡◌, ℕ, ◌<◌, ◌≤◌, length, OnOk};
ghost use Rattle.pd_order.specs.Graph.{tally, IsAlone, IsOrder};
ghost use Rattle.pd_order.specs.Spots.{nodes_of};
ghost use Rattle.pd_links.specs.Linked.{followers_of, spare_from, spare_into, link_graph};
ghost use Rattle.pd_bench_edits.specs.Nets.{MayJoin, behind};
ghost use Rattle.pd_bench_edits.specs.Orders.{IsOrder-prop};

use crate::nets::{Net, keys};
use pd_links::LinkGraph;
use pd_measure::MOST;
use pd_order::{Order, Steps};
use std::alloc::{AllocError, Global};
use std::sync::ledger::Ledger;

/// The boxes of a canvas, their wires and their order.
#[derive(Drop)]
pub(crate) struct Canvas {
    net: Net,
    order: Order,
    ghost order_is: { IsOrder (link_graph net.labels.items net.links) (nodes_of order.spots) order.chain order.stuck } by { IsOrder-prop (link_graph net.labels.items net.links) (nodes_of order.spots) order.chain order.stuck },
    ghost nodes_are: { (x : ℕ) → tally x (nodes_of order.spots) ≡ tally x (behind net.count) },
}

impl Canvas {
    /// So many boxes without wires.
    pub(crate) fn new<L: Ledger>(
        alloc: Global,
        count: u32,
        steps: &mut Steps<L>,
    ) -> Result<Canvas, AllocError>
        requires { 1 ≤ count }
    {
        let net = Net::new(alloc, count)?;
        let nodes = keys(alloc, count)?;
        let boxes = nodes.len();
        if boxes > MOST as usize {
            return Err(AllocError);
        }
        let mut order = Order::new(alloc)?;
        order.reserve(boxes as u32)?;
        fold(&net, &mut order, nodes.as_slice(), steps);
        Ok(Canvas { net, order })
    }

    /// The wire goes where it is there.
    pub(crate) fn cut<L: Ledger>(&mut self, source: u32, sink: u32, steps: &mut Steps<L>) {
        if self.net.has_wire(source, sink) {
            self.cut_wire(source, sink, steps);
        }
    }

    /// A wire more where it may be, in room that is taken now.
    pub(crate) fn add<L: Ledger>(
        &mut self,
        source: u32,
        sink: u32,
        steps: &mut Steps<L>,
    ) -> Result<(), AllocError> {
        self.reserve(source, sink)?;
        if self.net.may_join(source, sink) {
            self.join(source, sink, steps);
        }
        Ok(())
    }

    /// A wire less, in the links and in the order.
    fn cut_wire<L: Ledger>(&mut self, source: u32, sink: u32, steps: &mut Steps<L>)
        requires { 0 < tally sink (followers_of self.old.net.links source) }
    {
        self.net.cut(source, sink);
        let graph = LinkGraph {
            links: &self.net.links,
            labels: self.net.labels.as_slice(),
        };
        self.order.mend_cut(&graph, source, sink, steps);
    }

    /// Room for a wire more.
    fn reserve(&mut self, source: u32, sink: u32) -> Result<(), AllocError>
        ensures from { OnOk result (1 ≤ spare_from self.new.net.links source) }
        ensures into { OnOk result (1 ≤ spare_into self.new.net.links sink) }
    {
        self.net.reserve(source, sink)
    }

    /// A wire more, in the links and in the order.
    fn join<L: Ledger>(&mut self, source: u32, sink: u32, steps: &mut Steps<L>)
        requires may { MayJoin self.old.net.count self.old.net.links source sink }
        requires from { 1 ≤ spare_from self.old.net.links source }
        requires into { 1 ≤ spare_into self.old.net.links sink }
    {
        self.net.add(source, sink);
        let graph = LinkGraph {
            links: &self.net.links,
            labels: self.net.labels.as_slice(),
        };
        self.order.mend_add(&graph, source, sink, steps);
    }

    /// A box is taken out of the order and put back, where it has no wires.
    pub(crate) fn move_out_and_in<L: Ledger>(&mut self, node: u32, steps: &mut Steps<L>) {
        if self.net.is_alone(node) {
            self.move_alone(node, steps);
        }
    }

    /// A box without wires is taken out of the order and put back.
    fn move_alone<L: Ledger>(&mut self, node: u32, steps: &mut Steps<L>)
        requires behind { 0 < node }
        requires within { node < self.old.net.count }
        requires alone { IsAlone (link_graph self.old.net.labels.items self.old.net.links) node }
    {
        self.order.laws();
        self.order.remove_alone(node);
        let graph = LinkGraph {
            links: &self.net.links,
            labels: self.net.labels.as_slice(),
        };
        self.order.insert_alone(&graph, node, steps);
    }

    /// How many boxes the order lists before those that are stuck.
    pub(crate) fn listed(&self) -> usize {
        self.order.chain().len()
    }
}

/// The order of all boxes, from nothing.
fn fold<L: Ledger>(net: &Net, order: &mut Order, nodes: &[u32], steps: &mut Steps<L>)
    requires nodes { (x : ℕ) → tally x nodes.now ≡ tally x (behind net.now.count) }
    requires few { length nodes.now < 4294967295 }
    requires room { length nodes.now ≤ order.old.room }
    ensures order { IsOrder (link_graph net.now.labels.items net.now.links) (nodes_of order.new.spots) order.new.chain order.new.stuck }
    ensures nodes { (x : ℕ) → tally x (nodes_of order.new.spots) ≡ tally x (behind net.now.count) }
{
    let graph = LinkGraph {
        links: &net.links,
        labels: net.labels.as_slice(),
    };
    order.fold(&graph, nodes, steps);
}
