// A run and its end, over the lists of an order.
ghost use Rattle.std.specs.Prelude.{◌≡◌, ℕ, ◌+◌, ◌-◌, ◌<◌, ◌≤◌, ◌⊎◌, IsTrue, Bool, true, false, cond, List, [], ◌∷◌, ◌++◌, length, take, drop, slice_index, IfSome, IfNone, vec_len, vec_capacity};
ghost use Rattle.std.specs.List.{filter};
ghost use Rattle.pd_order.specs.Graph.{Graph, tally, total, IsLawful, AreByRank};
ghost use Rattle.pd_order.specs.Spots.{nodes_of, place_in, mark_in, AreByNode, nowhere, is_displaced, is_nowhere, place_left};
ghost use Rattle.pd_order.specs.Window.{IsReached};
ghost use Rattle.pd_order.specs.Work.{IsAtWork, IsRunning, IsOld, IsBeside, IsEnded, IsMet, looks_back, looks_on};

use crate::settle::{forget, gather, sweep, unplace};
use crate::turns::{Ran, run};
use crate::work::meet;
use crate::{SignalGraph, Spot, Steps};
use std::sync::ledger::Ledger;

// The stuck list and the spots, once nothing is ready any more.
fn close<L: Ledger, G: SignalGraph<L>>(
    graph: &G,
    stuck: &mut Vec<u32>,
    spots: &mut [Spot],
    spare: &[u32],
)
    requires by_node { AreByNode spots.old }
    requires lawful { IsLawful (G.meaning graph.now) (nodes_of spots.old) }
    requires by_rank { AreByRank (G.meaning graph.now) stuck.old.items }
    requires stuck_there { (x : ℕ) → 0 < tally x stuck.old.items → 0 < tally x (nodes_of spots.old) }
    requires spare_there { (x : ℕ) → 0 < tally x spare.now → 0 < tally x (nodes_of spots.old) }
    requires fit { (x : ℕ) → tally x (filter (is_nowhere spots.old) stuck.old.items) + tally x (filter (is_displaced spots.old) spare.now) ≤ tally x (nodes_of spots.old) }
    requires room { length spots.old ≤ vec_capacity stuck.old }
    ensures by_node { AreByNode spots.new }
    ensures nodes { nodes_of spots.new ≡ nodes_of spots.old }
    ensures by_rank { AreByRank (G.meaning graph.now) stuck.new.items }
    ensures stuck { (x : ℕ) → tally x stuck.new.items ≡ tally x (filter (is_nowhere spots.old) stuck.old.items) + tally x (filter (is_displaced spots.old) spare.now) }
    ensures listed { (x : ℕ) → 0 < tally x spare.now → place_in spots.new x ≡ place_left spots.old x }
    ensures others { (x : ℕ) → tally x spare.now ≡ 0 → place_in spots.new x ≡ place_in spots.old x }
    ensures marks { (x : ℕ) → 0 < tally x spare.now → mark_in spots.new x ≡ 0 }
    ensures other_marks { (x : ℕ) → tally x spare.now ≡ 0 → mark_in spots.new x ≡ mark_in spots.old x }
    ensures capacity { vec_capacity stuck.new ≡ vec_capacity stuck.old }
{
    sweep(spots, stuck);
    gather(graph, spots, stuck, spare);
    unplace(spots, spare);
    forget(spots, spare);
}

// Makes the new chain and stuck list over the old ones, from the place `from` on. Gives the place at which the listed sets met.
pub fn rework<L: Ledger, G: SignalGraph<L>>(
    graph: &G,
    chain: &mut Vec<u32>,
    stuck: &mut Vec<u32>,
    from: usize,
    spots: &mut [Spot],
    heap: &mut Vec<u32>,
    spare: &mut Vec<u32>,
    steps: &mut Steps<L>,
) -> Option<usize>
    requires by_node { AreByNode spots.old }
    requires lawful { IsLawful (G.meaning graph.now) (nodes_of spots.old) }
    requires few { length spots.old < nowhere }
    requires old { IsOld (G.meaning graph.now) (nodes_of spots.old) chain.old.items from (place_in spots.old) (mark_in spots.old) }
    requires beside { IsBeside (G.meaning graph.now) (nodes_of spots.old) chain.old.items stuck.old.items (place_in spots.old) (mark_in spots.old) }
    requires running { IsRunning (G.meaning graph.now) (nodes_of spots.old) chain.old.items (take from chain.old.items) from from (place_in spots.old) (place_in spots.old) (mark_in spots.old) heap.old.items spare.old.items }
    requires chain_room { length spots.old ≤ vec_capacity chain.old }
    requires stuck_room { length spots.old ≤ vec_capacity stuck.old }
    requires heap_room { length spots.old ≤ vec_capacity heap.old }
    requires spare_room { length spots.old ≤ vec_capacity spare.old }
    ensures by_node { AreByNode spots.new }
    ensures nodes { nodes_of spots.new ≡ nodes_of spots.old }
    ensures marks { (x : ℕ) → mark_in spots.new x ≡ 0 }
    ensures heap { heap.new.items ≡ [] }
    ensures spare { spare.new.items ≡ [] }
    ensures ended { IfNone result (IsEnded (G.meaning graph.now) (nodes_of spots.old) chain.new.items stuck.new.items (place_in spots.new)) }
    ensures met { IfSome result (λ k. IsMet (G.meaning graph.now) (nodes_of spots.old) chain.old.items chain.new.items from k (place_in spots.old) (place_in spots.new)) }
    ensures met_stuck { IfSome result (λ k. stuck.new.items ≡ stuck.old.items) }
    ensures looks { steps.new + total (looks_back (G.meaning graph.now)) spare.old.items ≤ steps.old + total (looks_on (G.meaning graph.now)) (nodes_of spots.old) + total (looks_back (G.meaning graph.now)) (nodes_of spots.old) }
    ensures reached { IsReached (G.meaning graph.now) (nodes_of spots.old) chain.old.items chain.new.items from (place_in spots.old) (mark_in spots.old) (total (looks_back (G.meaning graph.now)) spare.old.items) steps.old steps.new }
    ensures chain_capacity { vec_capacity chain.new ≡ vec_capacity chain.old }
    ensures stuck_capacity { vec_capacity stuck.new ≡ vec_capacity stuck.old }
    ensures heap_capacity { vec_capacity heap.new ≡ vec_capacity heap.old }
    ensures spare_capacity { vec_capacity spare.new ≡ vec_capacity spare.old }
{
    let ran = run(graph, chain, from, spots, heap, spare, steps);
    heap.clear();
    if ran.met {
        forget(spots, spare);
        spare.clear();
        return Some(ran.listed);
    }
    chain.truncate(ran.listed);
    close(graph, stuck, spots, spare);
    spare.clear();
    None
}

// Every node becomes known, while none is listed.
pub fn meet_all<L: Ledger, G: SignalGraph<L>>(
    graph: &G,
    spots: &mut [Spot],
    heap: &mut Vec<u32>,
    spare: &mut Vec<u32>,
    steps: &mut Steps<L>,
)
    requires by_node { AreByNode spots.old }
    requires lawful { IsLawful (G.meaning graph.now) (nodes_of spots.old) }
    requires fresh { (x : ℕ) → mark_in spots.old x ≡ 0 }
    requires heap { heap.old.items ≡ [] }
    requires spare { spare.old.items ≡ [] }
    requires heap_room { length spots.old ≤ vec_capacity heap.old }
    requires spare_room { length spots.old ≤ vec_capacity spare.old }
    ensures by_node { AreByNode spots.new }
    ensures nodes { nodes_of spots.new ≡ nodes_of spots.old }
    ensures places { (x : ℕ) → place_in spots.new x ≡ place_in spots.old x }
    ensures known { (x : ℕ) → 0 < tally x (nodes_of spots.old) → 0 < mark_in spots.new x }
    ensures work { IsAtWork (G.meaning graph.now) (nodes_of spots.old) [] [] [] (mark_in spots.new) heap.new.items spare.new.items }
    ensures heap_capacity { vec_capacity heap.new ≡ vec_capacity heap.old }
    ensures spare_capacity { vec_capacity spare.new ≡ vec_capacity spare.old }
    ensures looks { steps.new ≡ steps.old + total (looks_back (G.meaning graph.now)) spare.new.items }
{
    for i in 0..spots.len() {
        let node = spots[i].node;
        meet(graph, &[], spots, heap, spare, node, steps);
    }
}
