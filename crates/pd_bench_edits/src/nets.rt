//! The signal boxes of a canvas and their wires, as the graph that an order asks.

ghost use Rattle.std.specs.Prelude.{◌≡◌, ℕ, ◌<◌, ◌≤◌, IsTrue, IfOk, OnOk};
ghost use Rattle.pd_order.specs.Graph.{tally, IsAlone, IsLawful};
ghost use Rattle.pd_links.specs.Linked.{followers_of, spare_from, spare_into, link_graph, SameLinks, HasOneMore};
ghost use Rattle.pd_bench_edits.specs.Nets.{MayJoin, behind};

use pd_links::Links;
use pd_measure::{MOST, numbers};
use std::alloc::{AllocError, Global};

/// The boxes under the keys from 1 to before `count`, each with its key as its label, and the wires between them. Box 0
/// has no signals, so that no box is found at once where its key says, as in patches with boxes of other kinds.
#[derive(Drop)]
pub(crate) struct Net {
    pub(crate) count: u32,
    pub(crate) labels: Vec<u32>,
    pub(crate) links: Links,
    ghost lawful: { IsLawful (link_graph labels.items links) (behind count) },
}

impl Net {
    /// So many boxes without wires.
    #[tactic(auto, using(crate::proofs::NetLemmas::bare_lawful))]
    pub(crate) fn new(alloc: Global, count: u32) -> Result<Net, AllocError>
        ensures { IfOk result (λ net. net.count ≡ count) }
    {
        let labels = numbers(alloc, count)?;
        let links = Links::new(alloc)?;
        Ok(Net {
            count,
            labels,
            links,
        })
    }

    /// Whether the box's one wire leads to that box.
    pub(crate) fn has_wire(&self, source: u32, sink: u32) -> bool
        ensures { IsTrue result → 0 < tally sink (followers_of self.now.links source) }
    {
        self.links.follower_count(source) > 0 && self.links.follower(source, 0) == sink
    }

    /// Whether a wire more may be between two boxes.
    pub(crate) fn may_join(&self, source: u32, sink: u32) -> bool
        ensures { IsTrue result → MayJoin self.now.count self.now.links source sink }
    {
        0 < source
            && source < self.count
            && 0 < sink
            && sink < self.count
            && self.links.follower_count(source) < MOST
            && self.links.feeder_count(sink) < MOST
    }

    /// Whether there is such a box, and no wire at it.
    pub(crate) fn is_alone(&self, node: u32) -> bool
        ensures behind { IsTrue result → 0 < node }
        ensures within { IsTrue result → node < self.now.count }
        ensures alone { IsTrue result → IsAlone (link_graph self.now.labels.items self.now.links) node }
    {
        0 < node
            && node < self.count
            && self.links.feeder_count(node) == 0
            && self.links.follower_count(node) == 0
    }

    /// Room for a wire more.
    pub(crate) fn reserve(&mut self, source: u32, sink: u32) -> Result<(), AllocError>
        ensures count { self.new.count ≡ self.old.count }
        ensures labels { self.new.labels.items ≡ self.old.labels.items }
        ensures same { SameLinks self.old.links self.new.links }
        ensures from { OnOk result (1 ≤ spare_from self.new.links source) }
        ensures into { OnOk result (1 ≤ spare_into self.new.links sink) }
    {
        self.links.reserve(source, sink, 1)
    }

    /// A wire more.
    pub(crate) fn add(&mut self, source: u32, sink: u32)
        requires may { MayJoin self.old.count self.old.links source sink }
        requires from { 1 ≤ spare_from self.old.links source }
        requires into { 1 ≤ spare_into self.old.links sink }
        ensures count { self.new.count ≡ self.old.count }
        ensures labels { self.new.labels.items ≡ self.old.labels.items }
        ensures more { HasOneMore self.old.links self.new.links source sink }
    {
        self.links.add(source, sink);
    }

    /// A wire less.
    pub(crate) fn cut(&mut self, source: u32, sink: u32)
        requires { 0 < tally sink (followers_of self.old.links source) }
        ensures count { self.new.count ≡ self.old.count }
        ensures labels { self.new.labels.items ≡ self.old.labels.items }
        ensures less { HasOneMore self.new.links self.old.links source sink }
    {
        self.links.cut(source, sink);
    }

    /// The wire goes where it is there, and comes again.
    pub(crate) fn cut_and_add(&mut self, source: u32, sink: u32) -> Result<(), AllocError> {
        if self.has_wire(source, sink) {
            self.cut(source, sink);
        }
        self.join(source, sink)
    }

    /// A wire more where it may be, in room that is taken now.
    pub(crate) fn join(&mut self, source: u32, sink: u32) -> Result<(), AllocError> {
        self.reserve(source, sink)?;
        if self.may_join(source, sink) {
            self.add(source, sink);
        }
        Ok(())
    }
}

/// The keys from 1 to before `count`.
pub(crate) fn keys(alloc: Global, count: u32) -> Result<Vec<u32>, AllocError>
    requires { 1 ≤ count }
    ensures { IfOk result (λ made. (x : ℕ) → tally x made.items ≡ tally x (behind count)) }
{
    let mut made = Vec::new(alloc);
    for key in 1..count {
        made.push(key)?;
    }
    Ok(made)
}
