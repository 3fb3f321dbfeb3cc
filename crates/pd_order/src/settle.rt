// The end of a run: what is listed leaves the stuck list, what is displaced joins it, and the marks go.
ghost use Rattle.std.specs.Prelude.{◌≡◌, ℕ, ◌+◌, ◌-◌, ◌<◌, ◌≤◌, ◌↔◌, IsTrue, Bool, true, false, cond, List, [], ◌∷◌, ◌++◌, length, take, drop, slice_index, vec_len, vec_capacity};
ghost use Rattle.std.specs.List.{filter};
ghost use Rattle.pd_order.specs.Graph.{Graph, tally, IsLawful, AreByRank};
ghost use Rattle.pd_order.specs.Spots.{nodes_of, place_in, mark_in, put, AreByNode, nowhere, is_displaced, is_nowhere, place_left};

use crate::spots::{NOWHERE, mark, place, set_mark, set_place};
use crate::{SignalGraph, Spot};
use std::sync::ledger::Ledger;

// Where the node belongs by its rank.
fn seat<L: Ledger, G: SignalGraph<L>>(graph: &G, stuck: &[u32], node: u32) -> usize
    requires { AreByRank (G.meaning graph.now) stuck.now }
    ensures within { result ≤ length stuck.now }
    ensures before { (k : ℕ) → k < result → (G.meaning graph.now).rank (slice_index stuck.now k) < (G.meaning graph.now).rank node }
    ensures after { result < length stuck.now → (G.meaning graph.now).rank node ≤ (G.meaning graph.now).rank (slice_index stuck.now result) }
{
    let mut low = 0;
    let mut high = stuck.len();
    while low < high {
        let middle = low + (high - low) / 2;
        if graph.rank(stuck[middle]) < graph.rank(node) {
            low = middle + 1;
        } else {
            high = middle;
        }
    }
    low
}

// The node joins the stuck list.
fn stick<L: Ledger, G: SignalGraph<L>>(graph: &G, stuck: &mut Vec<u32>, node: u32)
    requires room { vec_len stuck.old < vec_capacity stuck.old }
    requires by_rank { AreByRank (G.meaning graph.now) stuck.old.items }
    requires apart { (x : ℕ) → 0 < tally x stuck.old.items → (G.meaning graph.now).rank x ≡ (G.meaning graph.now).rank node → x ≡ node }
    requires fresh { tally node stuck.old.items ≡ 0 }
    ensures by_rank { AreByRank (G.meaning graph.now) stuck.new.items }
    ensures more { (x : ℕ) → tally x stuck.new.items ≡ tally x (node ∷ stuck.old.items) }
    ensures capacity { vec_capacity stuck.new ≡ vec_capacity stuck.old }
{
    let at = seat(graph, stuck.as_slice(), node);
    let _ = stuck.insert(at, node);
}

fn leaves(spots: &[Spot], node: u32) -> bool
    requires by_node { AreByNode spots.now }
    requires there { 0 < tally node (nodes_of spots.now) }
    ensures { result ≡ is_displaced spots.now node }
{
    mark(spots, node) > 1 && place(spots, node) != NOWHERE
}

fn stays(spots: &[Spot], node: u32) -> bool
    requires by_node { AreByNode spots.now }
    requires there { 0 < tally node (nodes_of spots.now) }
    ensures { result ≡ is_nowhere spots.now node }
{
    place(spots, node) == NOWHERE
}

// What is listed by now leaves the stuck list.
pub fn sweep(spots: &[Spot], stuck: &mut Vec<u32>)
    requires by_node { AreByNode spots.now }
    requires there { (x : ℕ) → 0 < tally x stuck.old.items → 0 < tally x (nodes_of spots.now) }
    ensures stuck { stuck.new.items ≡ filter (is_nowhere spots.now) stuck.old.items }
    ensures capacity { vec_capacity stuck.new ≡ vec_capacity stuck.old }
{
    let mut kept = 0;
    for at in 0..stuck.len() {
        let node = stuck[at];
        if stays(spots, node) {
            stuck[kept] = node;
            kept += 1;
        }
    }
    stuck.truncate(kept);
}

fn gather_one<L: Ledger, G: SignalGraph<L>>(
    graph: &G,
    spots: &[Spot],
    stuck: &mut Vec<u32>,
    node: u32,
)
    requires by_node { AreByNode spots.now }
    requires lawful { IsLawful (G.meaning graph.now) (nodes_of spots.now) }
    requires by_rank { AreByRank (G.meaning graph.now) stuck.old.items }
    requires there { 0 < tally node (nodes_of spots.now) }
    requires fit { (x : ℕ) → tally x stuck.old.items + tally x (filter (is_displaced spots.now) (node ∷ [])) ≤ tally x (nodes_of spots.now) }
    requires room { length spots.now ≤ vec_capacity stuck.old }
    ensures by_rank { AreByRank (G.meaning graph.now) stuck.new.items }
    ensures more { (x : ℕ) → tally x stuck.new.items ≡ tally x stuck.old.items + tally x (filter (is_displaced spots.now) (node ∷ [])) }
    ensures capacity { vec_capacity stuck.new ≡ vec_capacity stuck.old }
{
    if leaves(spots, node) {
        stick(graph, stuck, node);
    }
}

// The displaced ones join the stuck list.
pub fn gather<L: Ledger, G: SignalGraph<L>>(
    graph: &G,
    spots: &[Spot],
    stuck: &mut Vec<u32>,
    spare: &[u32],
)
    requires by_node { AreByNode spots.now }
    requires lawful { IsLawful (G.meaning graph.now) (nodes_of spots.now) }
    requires by_rank { AreByRank (G.meaning graph.now) stuck.old.items }
    requires there { (x : ℕ) → 0 < tally x spare.now → 0 < tally x (nodes_of spots.now) }
    requires fit { (x : ℕ) → tally x stuck.old.items + tally x (filter (is_displaced spots.now) spare.now) ≤ tally x (nodes_of spots.now) }
    requires room { length spots.now ≤ vec_capacity stuck.old }
    ensures by_rank { AreByRank (G.meaning graph.now) stuck.new.items }
    ensures more { (x : ℕ) → tally x stuck.new.items ≡ tally x stuck.old.items + tally x (filter (is_displaced spots.now) spare.now) }
    ensures capacity { vec_capacity stuck.new ≡ vec_capacity stuck.old }
{
    for node in spare {
        gather_one(graph, spots, stuck, *node);
    }
}

fn unplace_one(spots: &mut [Spot], node: u32)
    requires by_node { AreByNode spots.old }
    requires there { 0 < tally node (nodes_of spots.old) }
    ensures by_node { AreByNode spots.new }
    ensures nodes { nodes_of spots.new ≡ nodes_of spots.old }
    ensures marks { (x : ℕ) → mark_in spots.new x ≡ mark_in spots.old x }
    ensures places { (x : ℕ) → place_in spots.new x ≡ put (place_in spots.old) node (place_left spots.old node) x }
{
    if mark(spots, node) > 1 {
        set_place(spots, node, NOWHERE);
    }
}

// What isn't ready has no place in the chain.
pub fn unplace(spots: &mut [Spot], spare: &[u32])
    requires by_node { AreByNode spots.old }
    requires there { (x : ℕ) → 0 < tally x spare.now → 0 < tally x (nodes_of spots.old) }
    ensures by_node { AreByNode spots.new }
    ensures nodes { nodes_of spots.new ≡ nodes_of spots.old }
    ensures marks { (x : ℕ) → mark_in spots.new x ≡ mark_in spots.old x }
    ensures listed { (x : ℕ) → 0 < tally x spare.now → place_in spots.new x ≡ place_left spots.old x }
    ensures others { (x : ℕ) → tally x spare.now ≡ 0 → place_in spots.new x ≡ place_in spots.old x }
{
    for node in spare {
        unplace_one(spots, *node);
    }
}

// The marks go.
pub fn forget(spots: &mut [Spot], spare: &[u32])
    requires by_node { AreByNode spots.old }
    requires there { (x : ℕ) → 0 < tally x spare.now → 0 < tally x (nodes_of spots.old) }
    ensures by_node { AreByNode spots.new }
    ensures nodes { nodes_of spots.new ≡ nodes_of spots.old }
    ensures places { (x : ℕ) → place_in spots.new x ≡ place_in spots.old x }
    ensures marks { (x : ℕ) → 0 < tally x spare.now → mark_in spots.new x ≡ 0 }
    ensures others { (x : ℕ) → tally x spare.now ≡ 0 → mark_in spots.new x ≡ mark_in spots.old x }
{
    for node in spare {
        set_mark(spots, *node, 0);
    }
}
