// Orders mended where a wire was added or cut, over their lists.
ghost use Rattle.std.specs.Prelude.{◌≡◌, ℕ, ◌+◌, ◌-◌, ◌*◌, ◌<◌, ◌≤◌, ◌≢◌, ◌⊎◌, ◌↔◌, IsTrue, List, [], length, slice_index, vec_capacity};
ghost use Rattle.pd_order.specs.Graph.{Graph, tally, ends, IsLawful, IsOrder, cut_wire, add_wire};
ghost use Rattle.pd_order.specs.Spots.{nodes_of, place_in, AreByNode};
ghost use Rattle.pd_order.specs.Window.{IsWindow, window_ends};
ghost use Rattle.pd_order.specs.Work.{IsStart, IsHigherBetween};
ghost use Rattle.pd_order.specs.Listing.{IsListed};

use crate::feeders::fed_after;
use crate::rework::rework;
use crate::spots::{NOWHERE, place, seek_place};
use crate::work::know_held;
use crate::{SignalGraph, Spot, Steps};
use std::sync::ledger::Ledger;

// After a wire from `source` to `sink` was added.
pub fn add_over<L: Ledger, G: SignalGraph<L>>(
    graph: &G,
    chain: &mut Vec<u32>,
    stuck: &mut Vec<u32>,
    spots: &mut [Spot],
    heap: &mut Vec<u32>,
    spare: &mut Vec<u32>,
    source: u32,
    sink: u32,
    steps: &mut Steps<L>,
)
    requires listed { IsListed chain.old.items stuck.old.items spots.old }
    requires lawful { IsLawful (G.meaning graph.now) (nodes_of spots.old) }
    requires wire { 0 < tally source ((G.meaning graph.now).feeders sink) }
    requires order { IsOrder (cut_wire (G.meaning graph.now) source sink) (nodes_of spots.old) chain.old.items stuck.old.items }
    requires heap { heap.old.items ≡ [] }
    requires spare { spare.old.items ≡ [] }
    requires chain_room { length spots.old ≤ vec_capacity chain.old }
    requires stuck_room { length spots.old ≤ vec_capacity stuck.old }
    requires heap_room { length spots.old ≤ vec_capacity heap.old }
    requires spare_room { length spots.old ≤ vec_capacity spare.old }
    ensures order { IsOrder (G.meaning graph.now) (nodes_of spots.old) chain.new.items stuck.new.items }
    ensures listed { IsListed chain.new.items stuck.new.items spots.new }
    ensures nodes { nodes_of spots.new ≡ nodes_of spots.old }
    ensures heap { heap.new.items ≡ [] }
    ensures spare { spare.new.items ≡ [] }
    ensures looks { (a b : ℕ) → IsWindow chain.old.items chain.new.items a b → steps.new ≤ steps.old + 4 * ((b - a) + window_ends (G.meaning graph.now) (nodes_of spots.old) chain.old.items chain.new.items a b) + 4 * ends (G.meaning graph.now) sink + 8 }
    ensures chain_capacity { vec_capacity chain.new ≡ vec_capacity chain.old }
    ensures stuck_capacity { vec_capacity stuck.new ≡ vec_capacity stuck.old }
    ensures heap_capacity { vec_capacity heap.new ≡ vec_capacity heap.old }
    ensures spare_capacity { vec_capacity spare.new ≡ vec_capacity spare.old }
{
    let at = place(spots, sink);
    if at == NOWHERE {
        return;
    }
    if place(spots, source) < at {
        return;
    }
    // The new wire alone holds the sink back.
    know_held(graph, spots, heap, spare, sink, 1);
    let _ = rework(graph, chain, stuck, at as usize, spots, heap, spare, steps);
}

// The first place from `from` on at which the node stands or has a lower rank.
pub fn first_behind<L: Ledger, G: SignalGraph<L>>(
    graph: &G,
    chain: &[u32],
    from: usize,
    node: u32,
) -> usize
    requires { from ≤ length chain.now }
    ensures low { from ≤ result }
    ensures high { result ≤ length chain.now }
    ensures before { (k : ℕ) → from ≤ k → k < result → (slice_index chain.now k ≢ node) × ((G.meaning graph.now).rank (slice_index chain.now k) < (G.meaning graph.now).rank node) }
    ensures behind { result < length chain.now → (slice_index chain.now result ≡ node) ⊎ ((G.meaning graph.now).rank node ≤ (G.meaning graph.now).rank (slice_index chain.now result)) }
{
    for i in from..chain.len() {
        if chain[i] == node {
            return i;
        }
        if graph.rank(node) <= graph.rank(chain[i]) {
            return i;
        }
    }
    chain.len()
}

fn stands_at(chain: &[u32], at: usize, node: u32) -> bool
    ensures { IsTrue result ↔ ((at < length chain.now) × (slice_index chain.now at ≡ node)) }
{
    match chain.get(at) {
        Some(other) => *other == node,
        None => false,
    }
}

// Makes the chain over the old one from where the fed node is ready.
fn cut_from<L: Ledger, G: SignalGraph<L>>(
    graph: &G,
    chain: &mut Vec<u32>,
    stuck: &mut Vec<u32>,
    from: usize,
    spots: &mut [Spot],
    heap: &mut Vec<u32>,
    spare: &mut Vec<u32>,
    source: u32,
    sink: u32,
    steps: &mut Steps<L>,
)
    requires listed { IsListed chain.old.items stuck.old.items spots.old }
    requires lawful { IsLawful (G.meaning graph.now) (nodes_of spots.old) }
    requires there { 0 < tally sink (nodes_of spots.old) }
    requires order { IsOrder (add_wire (G.meaning graph.now) source sink) (nodes_of spots.old) chain.old.items stuck.old.items }
    requires start { IsStart (G.meaning graph.now) chain.old.items sink from }
    requires parts { (from < length chain.old.items) × (slice_index chain.old.items from ≡ sink) → ⊥ }
    requires heap { heap.old.items ≡ [] }
    requires spare { spare.old.items ≡ [] }
    requires chain_room { length spots.old ≤ vec_capacity chain.old }
    requires stuck_room { length spots.old ≤ vec_capacity stuck.old }
    requires heap_room { length spots.old ≤ vec_capacity heap.old }
    requires spare_room { length spots.old ≤ vec_capacity spare.old }
    ensures order { IsOrder (G.meaning graph.now) (nodes_of spots.old) chain.new.items stuck.new.items }
    ensures listed { IsListed chain.new.items stuck.new.items spots.new }
    ensures nodes { nodes_of spots.new ≡ nodes_of spots.old }
    ensures heap { heap.new.items ≡ [] }
    ensures spare { spare.new.items ≡ [] }
    ensures looks { (a b : ℕ) → IsWindow chain.old.items chain.new.items a b → steps.new ≤ steps.old + 2 * (b - a) + 2 * window_ends (G.meaning graph.now) (nodes_of spots.old) chain.old.items chain.new.items a b + 2 * length ((G.meaning graph.now).feeders sink) + 1 }
    ensures chain_capacity { vec_capacity chain.new ≡ vec_capacity chain.old }
    ensures stuck_capacity { vec_capacity stuck.new ≡ vec_capacity stuck.old }
    ensures heap_capacity { vec_capacity heap.new ≡ vec_capacity heap.old }
    ensures spare_capacity { vec_capacity spare.new ≡ vec_capacity spare.old }
{
    know_held(graph, spots, heap, spare, sink, 0);
    let _ = rework(graph, chain, stuck, from, spots, heap, spare, steps);
}

// Whether a node of higher rank than this one stands at a place from `from` to before `to`. It looks from behind.
fn has_higher_between<L: Ledger, G: SignalGraph<L>>(
    graph: &G,
    chain: &[u32],
    from: usize,
    to: usize,
    node: u32,
) -> bool
    requires { to ≤ length chain.now }
    ensures { IsTrue result ↔ IsHigherBetween (G.meaning graph.now) chain.now from to node }
{
    let mut at = to;
    while from < at {
        at -= 1;
        if graph.rank(node) < graph.rank(chain[at]) {
            return true;
        }
    }
    false
}

// So many places are looked over for a node of higher rank before the wires are asked.
const NEAR: usize = 64;

// Whether a node of higher rank than the sink stands between the source and the sink, among the nearest places before
// the sink. Then another feeder, which stands no earlier than that node, held the sink back, and does so without the
// wire too.
fn is_held_behind<L: Ledger, G: SignalGraph<L>>(
    graph: &G,
    chain: &[u32],
    spots: &[Spot],
    source: u32,
    sink: u32,
) -> bool
    requires by_node { AreByNode spots.now }
    requires there { 0 < tally sink (nodes_of spots.now) }
    ensures { IsTrue result → (place_in spots.now sink < length chain.now) × IsHigherBetween (G.meaning graph.now) chain.now (place_in spots.now source + 1) (place_in spots.now sink) sink }
{
    let at = place(spots, sink) as usize;
    if at < chain.len() {
        let behind = seek_place(spots, source) as usize + 1;
        let from = behind.max(at.saturating_sub(NEAR));
        return has_higher_between(graph, chain, from, at, sink);
    }
    false
}

// After a wire from `source` to `sink` was cut.
pub fn cut_over<L: Ledger, G: SignalGraph<L>>(
    graph: &G,
    chain: &mut Vec<u32>,
    stuck: &mut Vec<u32>,
    spots: &mut [Spot],
    heap: &mut Vec<u32>,
    spare: &mut Vec<u32>,
    source: u32,
    sink: u32,
    steps: &mut Steps<L>,
)
    requires listed { IsListed chain.old.items stuck.old.items spots.old }
    requires lawful { IsLawful (G.meaning graph.now) (nodes_of spots.old) }
    requires there { 0 < tally sink (nodes_of spots.old) }
    requires order { IsOrder (add_wire (G.meaning graph.now) source sink) (nodes_of spots.old) chain.old.items stuck.old.items }
    requires heap { heap.old.items ≡ [] }
    requires spare { spare.old.items ≡ [] }
    requires chain_room { length spots.old ≤ vec_capacity chain.old }
    requires stuck_room { length spots.old ≤ vec_capacity stuck.old }
    requires heap_room { length spots.old ≤ vec_capacity heap.old }
    requires spare_room { length spots.old ≤ vec_capacity spare.old }
    ensures order { IsOrder (G.meaning graph.now) (nodes_of spots.old) chain.new.items stuck.new.items }
    ensures listed { IsListed chain.new.items stuck.new.items spots.new }
    ensures nodes { nodes_of spots.new ≡ nodes_of spots.old }
    ensures heap { heap.new.items ≡ [] }
    ensures spare { spare.new.items ≡ [] }
    ensures looks { (a b : ℕ) → IsWindow chain.old.items chain.new.items a b → steps.new ≤ steps.old + 4 * ((b - a) + window_ends (add_wire (G.meaning graph.now) source sink) (nodes_of spots.old) chain.old.items chain.new.items a b) + 4 * ends (add_wire (G.meaning graph.now) source sink) sink + 8 }
    ensures chain_capacity { vec_capacity chain.new ≡ vec_capacity chain.old }
    ensures stuck_capacity { vec_capacity stuck.new ≡ vec_capacity stuck.old }
    ensures heap_capacity { vec_capacity heap.new ≡ vec_capacity heap.old }
    ensures spare_capacity { vec_capacity spare.new ≡ vec_capacity spare.old }
{
    if is_held_behind(graph, chain, spots, source, sink) {
        return;
    }
    match fed_after(graph, chain, spots, sink, steps) {
        None => {}
        Some(after) => {
            let from = first_behind(graph, chain, after, sink);
            if stands_at(chain, from, sink) {
                return;
            }
            cut_from(
                graph, chain, stuck, from, spots, heap, spare, source, sink, steps,
            );
        }
    }
}
