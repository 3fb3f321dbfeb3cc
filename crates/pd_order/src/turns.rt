// The new chain, made over the old one turn by turn.
ghost use Rattle.std.specs.Prelude.{◌≡◌, ℕ, ◌+◌, ◌-◌, ◌*◌, ◌/◌, ◌^◌, ◌<◌, ◌≤◌, ◌==◌, ◌↔◌, ◌⊎◌, IsTrue, true, false, cond, List, [], ◌∷◌, ◌++◌, length, take, drop, slice_index, IfNone, IfSome, vec_len, vec_capacity};
ghost use Rattle.pd_order.specs.Graph.{Graph, tally, missing, total, IsReady, IsNext, AreNext, IsLawful};
ghost use Rattle.pd_order.specs.Heap.{IsHeap};
ghost use Rattle.pd_order.specs.Spots.{nodes_of, place_in, mark_in, put, AreByNode, nowhere};
ghost use Rattle.pd_order.specs.Work.{IsAtWork, IsGoing, ArePlaced, IsRunning, IsOld, IsPassed, IsFedBy, IsTraced, looks_back, looks_on};

use crate::heap::pop;
use crate::spots::{place, set_place};
use crate::work::{front, meet, release};
use crate::{SignalGraph, Spot, Steps};
use std::sync::ledger::Ledger;

// Whether the least of the heap comes before `passed` in the old chain.
fn is_found<L: Ledger, G: SignalGraph<L>>(
    graph: &G,
    spots: &[Spot],
    heap: &[u32],
    passed: usize,
) -> bool
    requires by_node { AreByNode spots.now }
    requires heap { (x : ℕ) → 0 < tally x heap.now → 0 < tally x (nodes_of spots.now) }
    ensures { IsTrue result ↔ ((0 < length heap.now) × (place_in spots.now (slice_index heap.now 0) < passed)) }
{
    match heap.first() {
        Some(node) => (place(spots, *node) as usize) < passed,
        None => false,
    }
}

// Passes on along the old chain, until the least of the heap is behind.
fn pass<L: Ledger, G: SignalGraph<L>>(
    graph: &G,
    chain: &[u32],
    count: usize,
    end: usize,
    passed: usize,
    spots: &mut [Spot],
    heap: &mut Vec<u32>,
    spare: &mut Vec<u32>,
    steps: &mut Steps<L>,
) -> usize
    requires by_node { AreByNode spots.old }
    requires lawful { IsLawful (G.meaning graph.now) (nodes_of spots.old) }
    requires placed { ArePlaced (take count chain.now) (place_in spots.old) }
    requires within { count ≤ length chain.now }
    requires work { IsAtWork (G.meaning graph.now) (nodes_of spots.old) (take count chain.now) (take count chain.now) [] (mark_in spots.old) heap.old.items spare.old.items }
    requires nodes { (x : ℕ) → 0 < tally x chain.now → 0 < tally x (nodes_of spots.old) }
    requires range { passed ≤ end }
    requires ahead { (i : ℕ) → passed ≤ i → i < end → (i < length chain.now) × (mark_in spots.old (slice_index chain.now i) ≡ 0 → (tally (slice_index chain.now i) (take count chain.now) ≡ 0) × (place_in spots.old (slice_index chain.now i) ≡ i)) }
    requires heap_room { length spots.old ≤ vec_capacity heap.old }
    requires spare_room { length spots.old ≤ vec_capacity spare.old }
    ensures by_node { AreByNode spots.new }
    ensures nodes { nodes_of spots.new ≡ nodes_of spots.old }
    ensures places { (x : ℕ) → place_in spots.new x ≡ place_in spots.old x }
    ensures range { (passed ≤ result) × (result ≤ end) }
    ensures known { (x : ℕ) → 0 < mark_in spots.old x → 0 < mark_in spots.new x }
    ensures are_passed { (i : ℕ) → passed ≤ i → i < result → 0 < mark_in spots.new (slice_index chain.now i) }
    ensures work { IsAtWork (G.meaning graph.now) (nodes_of spots.new) (take count chain.now) (take count chain.now) [] (mark_in spots.new) heap.new.items spare.new.items }
    ensures behind { (result ≡ end) ⊎ ((0 < length heap.new.items) × (place_in spots.new (slice_index heap.new.items 0) < result)) }
    ensures heap_capacity { vec_capacity heap.new ≡ vec_capacity heap.old }
    ensures spare_capacity { vec_capacity spare.new ≡ vec_capacity spare.old }
    ensures steps { steps.new + total (looks_back (G.meaning graph.now)) spare.old.items ≡ steps.old + total (looks_back (G.meaning graph.now)) spare.new.items }
    ensures only { (x : ℕ) → 0 < mark_in spots.new x → (0 < mark_in spots.old x) ⊎ IsPassed chain.now passed result x }
    ensures advanced { (result ≡ passed) ⊎ (0 < length heap.new.items → result ≤ place_in spots.new (slice_index heap.new.items 0) + 1) }
{
    let mut at = passed;
    while at < end {
        if is_found(graph, spots, heap, at) {
            return at;
        }
        meet(
            graph,
            front(chain, count),
            spots,
            heap,
            spare,
            chain[at],
            steps,
        );
        at += 1;
    }
    at
}

// Writes the node behind the first `count` of the chain, over what stood there.
fn write(chain: &mut Vec<u32>, count: usize, node: u32)
    requires within { count ≤ vec_len chain.old }
    requires room { count < vec_capacity chain.old }
    ensures front { take (count + 1) chain.new.items ≡ take count chain.old.items ++ node ∷ [] }
    ensures rest { drop (count + 1) chain.new.items ≡ drop (count + 1) chain.old.items }
    ensures longer { count + 1 ≤ vec_len chain.new }
    ensures not_shorter { vec_len chain.old ≤ vec_len chain.new }
    ensures capacity { vec_capacity chain.new ≡ vec_capacity chain.old }
{
    if count < chain.len() {
        chain[count] = node;
    } else {
        chain.push_reserved(node);
    }
}

// Lists the node behind the first `count` of the chain, and gives its place before.
fn put_out<L: Ledger, G: SignalGraph<L>>(
    graph: &G,
    chain: &mut Vec<u32>,
    count: usize,
    spots: &mut [Spot],
    heap: &mut Vec<u32>,
    spare: &mut Vec<u32>,
    node: u32,
    steps: &mut Steps<L>,
) -> usize
    requires by_node { AreByNode spots.old }
    requires lawful { IsLawful (G.meaning graph.now) (nodes_of spots.old) }
    requires there { 0 < tally node (nodes_of spots.old) }
    requires within { count ≤ length chain.old.items }
    requires placed { ArePlaced (take count chain.old.items) (place_in spots.old) }
    requires going { IsGoing (G.meaning graph.now) (take count chain.old.items) node }
    requires work { IsAtWork (G.meaning graph.now) (nodes_of spots.old) (take count chain.old.items) (take count chain.old.items ++ node ∷ []) [] (mark_in spots.old) heap.old.items spare.old.items }
    requires few { count < nowhere }
    requires chain_room { count < vec_capacity chain.old }
    requires heap_room { length spots.old ≤ vec_capacity heap.old }
    requires spare_room { length spots.old ≤ vec_capacity spare.old }
    ensures place { result ≡ place_in spots.old node }
    ensures small { result < 2 ^ 32 }
    ensures by_node { AreByNode spots.new }
    ensures nodes { nodes_of spots.new ≡ nodes_of spots.old }
    ensures places { (x : ℕ) → place_in spots.new x ≡ put (place_in spots.old) node count x }
    ensures known { (x : ℕ) → 0 < mark_in spots.old x → 0 < mark_in spots.new x }
    ensures touched { (x : ℕ) → mark_in spots.new x ≡ 0 → tally node ((G.meaning graph.now).feeders x) ≡ 0 }
    ensures work { IsAtWork (G.meaning graph.now) (nodes_of spots.new) (take (count + 1) chain.new.items) (take (count + 1) chain.new.items) [] (mark_in spots.new) heap.new.items spare.new.items }
    ensures front { take (count + 1) chain.new.items ≡ take count chain.old.items ++ node ∷ [] }
    ensures rest { drop (count + 1) chain.new.items ≡ drop (count + 1) chain.old.items }
    ensures longer { count + 1 ≤ length chain.new.items }
    ensures not_shorter { length chain.old.items ≤ length chain.new.items }
    ensures chain_capacity { vec_capacity chain.new ≡ vec_capacity chain.old }
    ensures heap_capacity { vec_capacity heap.new ≡ vec_capacity heap.old }
    ensures spare_capacity { vec_capacity spare.new ≡ vec_capacity spare.old }
    ensures steps { steps.new + total (looks_back (G.meaning graph.now)) spare.old.items ≡ steps.old + looks_on (G.meaning graph.now) node + total (looks_back (G.meaning graph.now)) spare.new.items }
    ensures only { (x : ℕ) → 0 < mark_in spots.new x → (0 < mark_in spots.old x) ⊎ (0 < tally node ((G.meaning graph.now).feeders x)) }
{
    let was = place(spots, node) as usize;
    release(graph, front(chain, count), spots, heap, spare, node, steps);
    write(chain, count, node);
    set_place(spots, node, count as u32);
    was
}

// How far a run came.
#[derive(Clone, Copy)]
pub struct Ran {
    pub listed: usize,
    pub passed: usize,
    pub far: usize,
    pub met: bool,
}

// Makes the new chain over the old one, from the place `from` on, until the listed sets meet or nothing is ready.
pub fn run<L: Ledger, G: SignalGraph<L>>(
    graph: &G,
    chain: &mut Vec<u32>,
    from: usize,
    spots: &mut [Spot],
    heap: &mut Vec<u32>,
    spare: &mut Vec<u32>,
    steps: &mut Steps<L>,
) -> Ran
    requires by_node { AreByNode spots.old }
    requires lawful { IsLawful (G.meaning graph.now) (nodes_of spots.old) }
    requires few { length spots.old < nowhere }
    requires old { IsOld (G.meaning graph.now) (nodes_of spots.old) chain.old.items from (place_in spots.old) (mark_in spots.old) }
    requires running { IsRunning (G.meaning graph.now) (nodes_of spots.old) chain.old.items (take from chain.old.items) from from (place_in spots.old) (place_in spots.old) (mark_in spots.old) heap.old.items spare.old.items }
    requires chain_room { length spots.old ≤ vec_capacity chain.old }
    requires heap_room { length spots.old ≤ vec_capacity heap.old }
    requires spare_room { length spots.old ≤ vec_capacity spare.old }
    ensures by_node { AreByNode spots.new }
    ensures nodes { nodes_of spots.new ≡ nodes_of spots.old }
    ensures running { IsRunning (G.meaning graph.now) (nodes_of spots.old) chain.old.items (take result.listed chain.new.items) from result.passed (place_in spots.old) (place_in spots.new) (mark_in spots.new) heap.new.items spare.new.items }
    ensures listed { (from ≤ result.listed) × (result.listed ≤ length chain.new.items) }
    ensures rest { drop result.listed chain.new.items ≡ drop result.listed chain.old.items }
    ensures known { (x : ℕ) → 0 < mark_in spots.old x → 0 < mark_in spots.new x }
    ensures ended { result.met ≡ false → (heap.new.items ≡ []) × (result.passed ≡ length chain.old.items) × ((z : ℕ) → IsReady (G.meaning graph.now) (nodes_of spots.old) (take result.listed chain.new.items) z → ⊥) }
    ensures met { result.met ≡ true → (from < result.listed) × ((x : ℕ) → 0 < tally x (take result.listed chain.new.items) → place_in spots.old x < result.listed) }
    ensures chain_capacity { vec_capacity chain.new ≡ vec_capacity chain.old }
    ensures heap_capacity { vec_capacity heap.new ≡ vec_capacity heap.old }
    ensures spare_capacity { vec_capacity spare.new ≡ vec_capacity spare.old }
    ensures steps { steps.new + total (looks_back (G.meaning graph.now)) spare.old.items ≡ steps.old + total (looks_on (G.meaning graph.now)) (drop from (take result.listed chain.new.items)) + total (looks_back (G.meaning graph.now)) spare.new.items }
    ensures traced { IsTraced (G.meaning graph.now) chain.old.items (take result.listed chain.new.items) from result.passed result.far (place_in spots.old) (mark_in spots.old) (mark_in spots.new) }
    ensures ended_far { result.met ≡ false → ((result.listed ≡ from) × (result.far ≡ from)) ⊎ (result.listed < result.far) }
    ensures met_far { result.met ≡ true → (result.passed ≤ result.far) × (result.far ≤ result.listed) }
    ensures last { result.met ≡ true → (result.listed ≡ from + 1) ⊎ ((x : ℕ) × (0 < tally x (take (result.listed - 1) chain.new.items)) × (place_in spots.old x + 1 ≡ result.listed)) }
{
    let end = chain.len();
    let mut listed = from;
    let mut passed = from;
    let mut far = from;
    'turns: loop {
        passed = pass(graph, chain, listed, end, passed, spots, heap, spare, steps);
        match pop(graph, heap) {
            None => {
                return Ran {
                    listed,
                    passed,
                    far,
                    met: false,
                };
            }
            Some(node) => {
                let was = put_out(graph, chain, listed, spots, heap, spare, node, steps);
                listed += 1;
                far = far.max(was + 1);
                if far <= listed {
                    return Ran {
                        listed,
                        passed,
                        far,
                        met: true,
                    };
                }
            }
        }
    }
}
