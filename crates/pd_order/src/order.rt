// An order of signal nodes.
ghost use Rattle.std.specs.Prelude.{◌≡◌, ℕ, ◌+◌, ◌*◌, ◌<◌, ◌≤◌, List, [], ◌∷◌, ◌++◌, length, slice_index, IfSome, IfNone, OnOk, IsOkAnd, vec_len, vec_capacity};
ghost use Rattle.pd_order.specs.Graph.{Graph, tally, take_out, total, ends, IsAlone, IsLawful, IsOrder, cut_wire, add_wire};
ghost use Rattle.pd_order.specs.Spots.{nodes_of, nowhere};
ghost use Rattle.pd_order.specs.Window.{changed_places, changed_ends};
ghost use Rattle.pd_order.specs.Listing.{IsListed};

use crate::alone::{append_over, insert_over, remove_over};
use crate::fold::fold_lists;
use crate::mend::{add_over, cut_over};
use crate::spots::{NOWHERE, seek_place};
use crate::{SignalGraph, Spot, Steps};
use std::alloc::{AllocError, Global};
use std::marker::Model;
use std::sync::ledger::Ledger;

#[derive(Drop)]
struct Numbers {
    vec: Vec<u32>,
}

#[derive(Drop)]
struct Spots {
    vec: Vec<Spot>,
}

/// The chain and the stuck list of a graph's nodes. The chain starts empty, and while some node isn't listed and all
/// that feeds it is, the one of the least rank is appended. The rest is stuck.
///
/// An order keeps these five lists and no copy of the wires: it asks the graph at each call.
#[derive(Drop)]
pub struct Order {
    chain: Numbers,
    stuck: Numbers,
    spots: Spots,
    heap: Numbers,
    spare: Numbers,
}

impl Model for Order {
    ghost use Rattle.pd_order.specs.Listing.{Listing, IsKept};
    ghost use Rattle.std.specs.Prelude.{vec_capacity};

    ghost Value = { Listing };

    ghost view = { λ o. record { chain = o.chain.vec.items; stuck = o.stuck.vec.items; spots = o.spots.vec.items; heap = o.heap.vec.items; spare = o.spare.vec.items; room = vec_capacity o.spare.vec } };

    ghost invariant = { λ o. IsKept o.chain.vec.items o.stuck.vec.items o.heap.vec.items o.spare.vec.items o.spots.vec.items (vec_capacity o.chain.vec) (vec_capacity o.stuck.vec) (vec_capacity o.spots.vec) (vec_capacity o.heap.vec) (vec_capacity o.spare.vec) };
}

// Room for so many elements in all.
fn widen<T>(list: &mut Vec<T>, count: usize) -> Result<(), AllocError>
    ensures items { list.new.items ≡ list.old.items }
    ensures not_less { vec_capacity list.old ≤ vec_capacity list.new }
    ensures enough { OnOk result (count ≤ vec_capacity list.new) }
{
    list.reserve(count.saturating_sub(list.len()))
}

impl Order {
    /// An order of no nodes. It takes no memory yet.
    pub fn new(alloc: Global) -> Result<Order, AllocError>
        ensures { IsOkAnd result (λ made. (made.chain ≡ []) × (made.stuck ≡ []) × (made.spots ≡ [])) }
    {
        Ok(Order {
            chain: Numbers {
                vec: Vec::new(alloc),
            },
            stuck: Numbers {
                vec: Vec::new(alloc),
            },
            spots: Spots {
                vec: Vec::new(alloc),
            },
            heap: Numbers {
                vec: Vec::new(alloc),
            },
            spare: Numbers {
                vec: Vec::new(alloc),
            },
        })
    }

    /// Makes room for so many nodes in all. After it no call but `reserve` takes memory, up to that many nodes.
    pub fn reserve(&mut self, nodes: u32) -> Result<(), AllocError>
        ensures chain { self.new.chain ≡ self.old.chain }
        ensures stuck { self.new.stuck ≡ self.old.stuck }
        ensures spots { self.new.spots ≡ self.old.spots }
        ensures not_less { self.old.room ≤ self.new.room }
        ensures enough { OnOk result (nodes ≤ self.new.room) }
    {
        self.widen_all(nodes as usize)
    }

    // Room for so many nodes in all.
    fn widen_all(&mut self, count: usize) -> Result<(), AllocError>
        ensures chain { self.new.chain ≡ self.old.chain }
        ensures stuck { self.new.stuck ≡ self.old.stuck }
        ensures spots { self.new.spots ≡ self.old.spots }
        ensures not_less { self.old.room ≤ self.new.room }
        ensures enough { OnOk result (count ≤ self.new.room) }
    {
        widen(&mut self.chain.vec, count)?;
        widen(&mut self.stuck.vec, count)?;
        widen(&mut self.spots.vec, count)?;
        widen(&mut self.heap.vec, count)?;
        self.spare.vec.reserve_exact(count)
    }

    /// Makes room for so many nodes more than there are. Where it takes memory, it takes twice as much as it had.
    pub fn reserve_more(&mut self, more: u32) -> Result<(), AllocError>
        ensures chain { self.new.chain ≡ self.old.chain }
        ensures stuck { self.new.stuck ≡ self.old.stuck }
        ensures spots { self.new.spots ≡ self.old.spots }
        ensures not_less { self.old.room ≤ self.new.room }
        ensures enough { OnOk result (length self.old.spots + more ≤ self.new.room) }
    {
        let count = self.spots.vec.len() + more as usize;
        let room = self.spare.vec.capacity();
        if count <= room {
            return Ok(());
        }
        self.widen_all(count.max(room.saturating_mul(2)))
    }

    /// Changes nothing, and tells how the five lists stand to one another between calls. It takes an order apart, so that a sixth list
    /// has to be named here.
    pub fn laws(&self)
        ensures listed { IsListed self.now.chain self.now.stuck self.now.spots }
        ensures heap { self.now.heap ≡ [] }
        ensures spare { self.now.spare ≡ [] }
        ensures room { length self.now.spots ≤ self.now.room }
    {
        let Order {
            chain: _chain,
            stuck: _stuck,
            spots: _spots,
            heap: _heap,
            spare: _spare,
        } = self;
    }

    /// The chain and the stuck list of these nodes, from nothing.
    ///
    /// The nodes may come in any order: they are sorted once.
    pub fn fold<L: Ledger, G: SignalGraph<L>>(
        &mut self,
        graph: &G,
        nodes: &[u32],
        steps: &mut Steps<L>,
    )
        requires lawful { IsLawful (G.meaning graph.now) nodes.now }
        requires few { length nodes.now < nowhere }
        requires room { length nodes.now ≤ self.old.room }
        ensures order { IsOrder (G.meaning graph.now) nodes.now self.new.chain self.new.stuck }
        ensures nodes { (x : ℕ) → tally x (nodes_of self.new.spots) ≡ tally x nodes.now }
        ensures room { self.new.room ≡ self.old.room }
        ensures looks { steps.new ≤ steps.old + 4 * (length nodes.now + total (ends (G.meaning graph.now)) nodes.now) + 8 }
    {
        fold_lists(
            graph,
            nodes,
            &mut self.chain.vec,
            &mut self.stuck.vec,
            &mut self.spots.vec,
            &mut self.heap.vec,
            &mut self.spare.vec,
            steps,
        );
    }

    /// After a node without wires was added to the graph. It takes no look.
    pub fn insert_alone<L: Ledger, G: SignalGraph<L>>(
        &mut self,
        graph: &G,
        node: u32,
        steps: &mut Steps<L>,
    )
        requires fresh { tally node (nodes_of self.old.spots) ≡ 0 }
        requires room { length self.old.spots < self.old.room }
        requires few { length self.old.spots + 1 < nowhere }
        requires alone { IsAlone (G.meaning graph.now) node }
        requires lawful { IsLawful (G.meaning graph.now) (node ∷ nodes_of self.old.spots) }
        requires order { IsOrder (G.meaning graph.now) (nodes_of self.old.spots) self.old.chain self.old.stuck }
        ensures order { IsOrder (G.meaning graph.now) (node ∷ nodes_of self.old.spots) self.new.chain self.new.stuck }
        ensures nodes { (x : ℕ) → tally x (nodes_of self.new.spots) ≡ tally x (node ∷ nodes_of self.old.spots) }
        ensures room { self.new.room ≡ self.old.room }
        ensures looks { steps.new ≤ steps.old + 8 }
    {
        insert_over(
            graph,
            &mut self.chain.vec,
            self.stuck.vec.as_slice(),
            &mut self.spots.vec,
            node,
        );
    }

    /// After a node without wires was added to the graph, behind all others by rank: it stands last in the chain. It
    /// takes no look, and passes over no list.
    pub fn append_alone<L: Ledger, G: SignalGraph<L>>(
        &mut self,
        graph: &G,
        node: u32,
        steps: &mut Steps<L>,
    )
        requires fresh { tally node (nodes_of self.old.spots) ≡ 0 }
        requires room { length self.old.spots < self.old.room }
        requires few { length self.old.spots + 1 < nowhere }
        requires alone { IsAlone (G.meaning graph.now) node }
        requires last { (x : ℕ) → 0 < tally x (nodes_of self.old.spots) → (G.meaning graph.now).rank x < (G.meaning graph.now).rank node }
        requires lawful { IsLawful (G.meaning graph.now) (node ∷ nodes_of self.old.spots) }
        requires order { IsOrder (G.meaning graph.now) (nodes_of self.old.spots) self.old.chain self.old.stuck }
        ensures chain { self.new.chain ≡ self.old.chain ++ node ∷ [] }
        ensures stuck { self.new.stuck ≡ self.old.stuck }
        ensures order { IsOrder (G.meaning graph.now) (node ∷ nodes_of self.old.spots) self.new.chain self.new.stuck }
        ensures nodes { (x : ℕ) → tally x (nodes_of self.new.spots) ≡ tally x (node ∷ nodes_of self.old.spots) }
        ensures room { self.new.room ≡ self.old.room }
        ensures looks { steps.new ≡ steps.old }
    {
        append_over(
            graph,
            &mut self.chain.vec,
            self.stuck.vec.as_slice(),
            &mut self.spots.vec,
            node,
        );
    }

    /// Before or after a node without wires is taken from the graph. It passes once over the nodes.
    pub fn remove_alone(&mut self, node: u32)
        requires there { 0 < tally node (nodes_of self.old.spots) }
        requires alone { (g : Graph) × IsOrder g (nodes_of self.old.spots) self.old.chain self.old.stuck × IsAlone g node }
        ensures chain { self.new.chain ≡ take_out node self.old.chain }
        ensures stuck { self.new.stuck ≡ self.old.stuck }
        ensures nodes { (x : ℕ) → tally x (nodes_of self.old.spots) ≡ tally x (node ∷ nodes_of self.new.spots) }
        ensures order { (g : Graph) → IsLawful g (nodes_of self.old.spots) → IsAlone g node → IsOrder g (nodes_of self.old.spots) self.old.chain self.old.stuck → IsOrder g (nodes_of self.new.spots) self.new.chain self.new.stuck }
        ensures room { self.new.room ≡ self.old.room }
    {
        remove_over(
            &mut self.chain.vec,
            self.stuck.vec.as_slice(),
            &mut self.spots.vec,
            node,
        );
    }

    /// After a wire from `source` to `sink` was added to the graph. It looks only at the
    /// nodes of the places that change, at those that they feed, and at the fed node.
    pub fn mend_add<L: Ledger, G: SignalGraph<L>>(
        &mut self,
        graph: &G,
        source: u32,
        sink: u32,
        steps: &mut Steps<L>,
    )
        requires lawful { IsLawful (G.meaning graph.now) (nodes_of self.old.spots) }
        requires wire { 0 < tally source ((G.meaning graph.now).feeders sink) }
        requires order { IsOrder (cut_wire (G.meaning graph.now) source sink) (nodes_of self.old.spots) self.old.chain self.old.stuck }
        ensures order { IsOrder (G.meaning graph.now) (nodes_of self.old.spots) self.new.chain self.new.stuck }
        ensures nodes { nodes_of self.new.spots ≡ nodes_of self.old.spots }
        ensures room { self.new.room ≡ self.old.room }
        ensures looks { let g = G.meaning graph.now in steps.new ≤ steps.old + 4 * (changed_places self.old.chain self.new.chain + changed_ends g (nodes_of self.old.spots) self.old.chain self.new.chain) + 4 * ends g sink + 8 }
    {
        add_over(
            graph,
            &mut self.chain.vec,
            &mut self.stuck.vec,
            self.spots.vec.as_mut_slice(),
            &mut self.heap.vec,
            &mut self.spare.vec,
            source,
            sink,
            steps,
        );
    }

    /// After a wire from `source` to `sink` was cut from the graph, in the same way.
    pub fn mend_cut<L: Ledger, G: SignalGraph<L>>(
        &mut self,
        graph: &G,
        source: u32,
        sink: u32,
        steps: &mut Steps<L>,
    )
        requires lawful { IsLawful (G.meaning graph.now) (nodes_of self.old.spots) }
        requires there { 0 < tally sink (nodes_of self.old.spots) }
        requires order { IsOrder (add_wire (G.meaning graph.now) source sink) (nodes_of self.old.spots) self.old.chain self.old.stuck }
        ensures order { IsOrder (G.meaning graph.now) (nodes_of self.old.spots) self.new.chain self.new.stuck }
        ensures nodes { nodes_of self.new.spots ≡ nodes_of self.old.spots }
        ensures room { self.new.room ≡ self.old.room }
        ensures looks { let g = add_wire (G.meaning graph.now) source sink in steps.new ≤ steps.old + 4 * (changed_places self.old.chain self.new.chain + changed_ends g (nodes_of self.old.spots) self.old.chain self.new.chain) + 4 * ends g sink + 8 }
    {
        cut_over(
            graph,
            &mut self.chain.vec,
            &mut self.stuck.vec,
            self.spots.vec.as_mut_slice(),
            &mut self.heap.vec,
            &mut self.spare.vec,
            source,
            sink,
            steps,
        );
    }

    /// The nodes that run, in the order in which they run.
    pub fn chain(&self) -> &[u32]
        ensures { result.now ≡ self.now.chain }
    {
        self.chain.vec.as_slice()
    }

    /// The nodes that are stuck, by rank.
    pub fn stuck(&self) -> &[u32]
        ensures { result.now ≡ self.now.stuck }
    {
        self.stuck.vec.as_slice()
    }

    /// The node's place in the chain, counted from 0.
    pub fn place_of(&self, node: u32) -> Option<u32>
        ensures none { IfNone result (tally node self.now.chain ≡ 0) }
        ensures some { IfSome result (λ k. (k < length self.now.chain) × (slice_index self.now.chain k ≡ node)) }
    {
        let at = seek_place(self.spots.vec.as_slice(), node);
        if at == NOWHERE { None } else { Some(at) }
    }
}
