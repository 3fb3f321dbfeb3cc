// Which nodes of the order are known, and what holds them back.
ghost use Rattle.std.specs.Prelude.{◌≡◌, ℕ, ◌+◌, ◌-◌, ◌*◌, ◌/◌, ◌^◌, ◌<◌, ◌≤◌, ◌==◌, ◌↔◌, ◌⊎◌, IsTrue, true, false, cond, List, [], ◌∷◌, ◌++◌, length, take, drop, slice_index, IfNone, IfSome, vec_len, vec_capacity};
ghost use Rattle.pd_order.specs.Graph.{Graph, tally, missing, total, IsReady, IsNext, AreNext, IsLawful};
ghost use Rattle.pd_order.specs.Heap.{IsHeap};
ghost use Rattle.pd_order.specs.Spots.{nodes_of, place_in, mark_in, put, AreByNode, nowhere};
ghost use Rattle.pd_order.specs.Work.{IsAtWork, IsGoing, ArePlaced, IsRunning, IsOld, IsPassed, IsFedBy, IsTraced, looks_back, looks_on};

use crate::heap::push;
use crate::spots::{mark, place, set_mark};
use crate::{SignalGraph, Spot, Steps};
use std::sync::ledger::Ledger;

// The first `count` of the chain.
pub fn front(chain: &[u32], count: usize) -> &[u32]
    requires { count ≤ length chain.now }
    ensures { result.now ≡ take count chain.now }
{
    &chain[..count]
}

fn is_listed(listed: &[u32], spots: &[Spot], node: u32) -> bool
    requires by_node { AreByNode spots.now }
    requires there { 0 < tally node (nodes_of spots.now) }
    requires placed { ArePlaced listed.now (place_in spots.now) }
    ensures { IsTrue result ↔ (0 < tally node listed.now) }
{
    let at = place(spots, node) as usize;
    at < listed.len() && listed[at] == node
}

// 1 where the feeder isn't listed.
fn unlisted_count(listed: &[u32], spots: &[Spot], feeder: u32) -> u32
    requires by_node { AreByNode spots.now }
    requires there { 0 < tally feeder (nodes_of spots.now) }
    requires placed { ArePlaced listed.now (place_in spots.now) }
    ensures { result ≡ missing listed.now (feeder ∷ []) }
{
    if is_listed(listed, spots, feeder) {
        0
    } else {
        1
    }
}

// How many wires hold the node back.
fn count_missing<L: Ledger, G: SignalGraph<L>>(
    graph: &G,
    listed: &[u32],
    spots: &[Spot],
    node: u32,
    steps: &mut Steps<L>,
) -> u32
    requires by_node { AreByNode spots.now }
    requires lawful { IsLawful (G.meaning graph.now) (nodes_of spots.now) }
    requires placed { ArePlaced listed.now (place_in spots.now) }
    ensures count { result ≡ missing listed.now ((G.meaning graph.now).feeders node) }
    ensures steps { steps.new ≡ steps.old + looks_back (G.meaning graph.now) node }
{
    let mut count = 0;
    for i in 0..graph.feeder_count(node, steps) {
        let feeder = graph.feeder(node, i, steps);
        count += unlisted_count(listed, spots, feeder);
    }
    count
}

// The node becomes known, held back by so many wires.
pub fn know_held<L: Ledger, G: SignalGraph<L>>(
    graph: &G,
    spots: &mut [Spot],
    heap: &mut Vec<u32>,
    spare: &mut Vec<u32>,
    node: u32,
    held: u32,
)
    requires by_node { AreByNode spots.old }
    requires few { held + 1 < 2 ^ 32 }
    requires there { 0 < tally node (nodes_of spots.old) }
    requires heap { IsHeap (G.meaning graph.now).rank heap.old.items }
    requires heap_room { vec_len heap.old < vec_capacity heap.old }
    requires spare_room { vec_len spare.old < vec_capacity spare.old }
    ensures by_node { AreByNode spots.new }
    ensures nodes { nodes_of spots.new ≡ nodes_of spots.old }
    ensures places { (x : ℕ) → place_in spots.new x ≡ place_in spots.old x }
    ensures marks { (x : ℕ) → mark_in spots.new x ≡ put (mark_in spots.old) node (held + 1) x }
    ensures heap { IsHeap (G.meaning graph.now).rank heap.new.items }
    ensures more { (x : ℕ) → tally x heap.new.items ≡ tally x (cond (held == 0) (node ∷ heap.old.items) heap.old.items) }
    ensures spare { spare.new.items ≡ spare.old.items ++ node ∷ [] }
    ensures heap_capacity { vec_capacity heap.new ≡ vec_capacity heap.old }
    ensures spare_capacity { vec_capacity spare.new ≡ vec_capacity spare.old }
{
    set_mark(spots, node, held + 1);
    spare.push_reserved(node);
    if held == 0 {
        push(graph, heap, node);
    }
}

// The node becomes known.
fn know<L: Ledger, G: SignalGraph<L>>(
    graph: &G,
    listed: &[u32],
    spots: &mut [Spot],
    heap: &mut Vec<u32>,
    spare: &mut Vec<u32>,
    node: u32,
    steps: &mut Steps<L>,
)
    requires by_node { AreByNode spots.old }
    requires lawful { IsLawful (G.meaning graph.now) (nodes_of spots.old) }
    requires placed { ArePlaced listed.now (place_in spots.old) }
    requires there { 0 < tally node (nodes_of spots.old) }
    requires heap { IsHeap (G.meaning graph.now).rank heap.old.items }
    requires heap_room { vec_len heap.old < vec_capacity heap.old }
    requires spare_room { vec_len spare.old < vec_capacity spare.old }
    ensures by_node { AreByNode spots.new }
    ensures nodes { nodes_of spots.new ≡ nodes_of spots.old }
    ensures places { (x : ℕ) → place_in spots.new x ≡ place_in spots.old x }
    ensures marks { (x : ℕ) → mark_in spots.new x ≡ put (mark_in spots.old) node (missing listed.now ((G.meaning graph.now).feeders node) + 1) x }
    ensures heap { IsHeap (G.meaning graph.now).rank heap.new.items }
    ensures more { (x : ℕ) → tally x heap.new.items ≡ tally x (cond (missing listed.now ((G.meaning graph.now).feeders node) == 0) (node ∷ heap.old.items) heap.old.items) }
    ensures spare { spare.new.items ≡ spare.old.items ++ node ∷ [] }
    ensures heap_capacity { vec_capacity heap.new ≡ vec_capacity heap.old }
    ensures spare_capacity { vec_capacity spare.new ≡ vec_capacity spare.old }
    ensures steps { steps.new ≡ steps.old + looks_back (G.meaning graph.now) node }
{
    let held = count_missing(graph, listed, spots, node, steps);
    know_held(graph, spots, heap, spare, node, held);
}

// The node becomes known, if it wasn't.
pub fn meet<L: Ledger, G: SignalGraph<L>>(
    graph: &G,
    listed: &[u32],
    spots: &mut [Spot],
    heap: &mut Vec<u32>,
    spare: &mut Vec<u32>,
    node: u32,
    steps: &mut Steps<L>,
)
    requires by_node { AreByNode spots.old }
    requires lawful { IsLawful (G.meaning graph.now) (nodes_of spots.old) }
    requires placed { ArePlaced listed.now (place_in spots.old) }
    requires there { 0 < tally node (nodes_of spots.old) }
    requires heap { IsHeap (G.meaning graph.now).rank heap.old.items }
    requires heap_room { mark_in spots.old node ≡ 0 → vec_len heap.old < vec_capacity heap.old }
    requires spare_room { mark_in spots.old node ≡ 0 → vec_len spare.old < vec_capacity spare.old }
    ensures by_node { AreByNode spots.new }
    ensures nodes { nodes_of spots.new ≡ nodes_of spots.old }
    ensures places { (x : ℕ) → place_in spots.new x ≡ place_in spots.old x }
    ensures known { 0 < mark_in spots.new node }
    ensures others { (x : ℕ) → 0 < mark_in spots.old x → mark_in spots.new x ≡ mark_in spots.old x }
    ensures work { (out told : List ℕ) → IsAtWork (G.meaning graph.now) (nodes_of spots.old) listed.now out told (mark_in spots.old) heap.old.items spare.old.items → (mark_in spots.old node ≡ 0 → tally node out ≡ 0) → IsAtWork (G.meaning graph.now) (nodes_of spots.new) listed.now out told (mark_in spots.new) heap.new.items spare.new.items }
    ensures heap_capacity { vec_capacity heap.new ≡ vec_capacity heap.old }
    ensures spare_capacity { vec_capacity spare.new ≡ vec_capacity spare.old }
    ensures steps { steps.new + total (looks_back (G.meaning graph.now)) spare.old.items ≡ steps.old + total (looks_back (G.meaning graph.now)) spare.new.items }
    ensures only { (x : ℕ) → 0 < mark_in spots.new x → (x ≡ node) ⊎ (0 < mark_in spots.old x) }
    ensures heap_only { (x : ℕ) → 0 < tally x heap.new.items → ((x ≡ node) × (mark_in spots.old node ≡ 0)) ⊎ (0 < tally x heap.old.items) }
    ensures heap_kept { (x : ℕ) → 0 < tally x heap.old.items → 0 < tally x heap.new.items }
{
    if mark(spots, node) == 0 {
        know(graph, listed, spots, heap, spare, node, steps);
    }
}

// One wire less holds the node back.
fn lower<L: Ledger, G: SignalGraph<L>>(
    graph: &G,
    spots: &mut [Spot],
    heap: &mut Vec<u32>,
    node: u32,
)
    requires by_node { AreByNode spots.old }
    requires there { 0 < tally node (nodes_of spots.old) }
    requires held { 0 < mark_in spots.old node }
    requires heap { IsHeap (G.meaning graph.now).rank heap.old.items }
    requires heap_room { vec_len heap.old < vec_capacity heap.old }
    ensures by_node { AreByNode spots.new }
    ensures nodes { nodes_of spots.new ≡ nodes_of spots.old }
    ensures places { (x : ℕ) → place_in spots.new x ≡ place_in spots.old x }
    ensures marks { (x : ℕ) → mark_in spots.new x ≡ put (mark_in spots.old) node (mark_in spots.old node - 1) x }
    ensures heap { IsHeap (G.meaning graph.now).rank heap.new.items }
    ensures more { (x : ℕ) → tally x heap.new.items ≡ tally x (cond (mark_in spots.old node - 1 == 1) (node ∷ heap.old.items) heap.old.items) }
    ensures heap_capacity { vec_capacity heap.new ≡ vec_capacity heap.old }
{
    let held = mark(spots, node) - 1;
    set_mark(spots, node, held);
    if held == 1 {
        push(graph, heap, node);
    }
}

// Tells the i-th follower of a node that goes out that one wire less holds it back.
fn tell<L: Ledger, G: SignalGraph<L>>(
    graph: &G,
    listed: &[u32],
    spots: &mut [Spot],
    heap: &mut Vec<u32>,
    spare: &mut Vec<u32>,
    node: u32,
    i: u32,
    steps: &mut Steps<L>,
)
    requires by_node { AreByNode spots.old }
    requires lawful { IsLawful (G.meaning graph.now) (nodes_of spots.old) }
    requires placed { ArePlaced listed.now (place_in spots.old) }
    requires there { i < length ((G.meaning graph.now).followers node) }
    requires going { IsGoing (G.meaning graph.now) listed.now node }
    requires work { IsAtWork (G.meaning graph.now) (nodes_of spots.old) listed.now (listed.now ++ node ∷ []) (take i ((G.meaning graph.now).followers node)) (mark_in spots.old) heap.old.items spare.old.items }
    requires heap_room { length spots.old ≤ vec_capacity heap.old }
    requires spare_room { length spots.old ≤ vec_capacity spare.old }
    ensures by_node { AreByNode spots.new }
    ensures nodes { nodes_of spots.new ≡ nodes_of spots.old }
    ensures places { (x : ℕ) → place_in spots.new x ≡ place_in spots.old x }
    ensures known { (x : ℕ) → 0 < mark_in spots.old x → 0 < mark_in spots.new x }
    ensures work { IsAtWork (G.meaning graph.now) (nodes_of spots.new) listed.now (listed.now ++ node ∷ []) (take (i + 1) ((G.meaning graph.now).followers node)) (mark_in spots.new) heap.new.items spare.new.items }
    ensures heap_capacity { vec_capacity heap.new ≡ vec_capacity heap.old }
    ensures spare_capacity { vec_capacity spare.new ≡ vec_capacity spare.old }
    ensures steps { steps.new + total (looks_back (G.meaning graph.now)) spare.old.items ≡ steps.old + 1 + total (looks_back (G.meaning graph.now)) spare.new.items }
    ensures only { (x : ℕ) → 0 < mark_in spots.new x → (0 < mark_in spots.old x) ⊎ (0 < tally node ((G.meaning graph.now).feeders x)) }
{
    let follower = graph.follower(node, i, steps);
    meet(graph, listed, spots, heap, spare, follower, steps);
    lower(graph, spots, heap, follower);
}

// The node goes out: it is taken from what holds its followers back.
pub fn release<L: Ledger, G: SignalGraph<L>>(
    graph: &G,
    listed: &[u32],
    spots: &mut [Spot],
    heap: &mut Vec<u32>,
    spare: &mut Vec<u32>,
    node: u32,
    steps: &mut Steps<L>,
)
    requires by_node { AreByNode spots.old }
    requires lawful { IsLawful (G.meaning graph.now) (nodes_of spots.old) }
    requires placed { ArePlaced listed.now (place_in spots.old) }
    requires going { IsGoing (G.meaning graph.now) listed.now node }
    requires work { IsAtWork (G.meaning graph.now) (nodes_of spots.old) listed.now (listed.now ++ node ∷ []) [] (mark_in spots.old) heap.old.items spare.old.items }
    requires heap_room { length spots.old ≤ vec_capacity heap.old }
    requires spare_room { length spots.old ≤ vec_capacity spare.old }
    ensures by_node { AreByNode spots.new }
    ensures nodes { nodes_of spots.new ≡ nodes_of spots.old }
    ensures places { (x : ℕ) → place_in spots.new x ≡ place_in spots.old x }
    ensures known { (x : ℕ) → 0 < mark_in spots.old x → 0 < mark_in spots.new x }
    ensures touched { (x : ℕ) → mark_in spots.new x ≡ 0 → tally node ((G.meaning graph.now).feeders x) ≡ 0 }
    ensures work { IsAtWork (G.meaning graph.now) (nodes_of spots.new) (listed.now ++ node ∷ []) (listed.now ++ node ∷ []) [] (mark_in spots.new) heap.new.items spare.new.items }
    ensures heap_capacity { vec_capacity heap.new ≡ vec_capacity heap.old }
    ensures spare_capacity { vec_capacity spare.new ≡ vec_capacity spare.old }
    ensures steps { steps.new + total (looks_back (G.meaning graph.now)) spare.old.items ≡ steps.old + looks_on (G.meaning graph.now) node + total (looks_back (G.meaning graph.now)) spare.new.items }
    ensures only { (x : ℕ) → 0 < mark_in spots.new x → (0 < mark_in spots.old x) ⊎ (0 < tally node ((G.meaning graph.now).feeders x)) }
{
    for i in 0..graph.follower_count(node, steps) {
        tell(graph, listed, spots, heap, spare, node, i, steps);
    }
}
