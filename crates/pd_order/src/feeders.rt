// After how many places of a chain all that feeds a node is listed.
ghost use Rattle.std.specs.Prelude.{◌≡◌, ℕ, ◌+◌, ◌*◌, ◌<◌, ◌≤◌, ◌↔◌, IsTrue, List, length, take, IfSome, IfNone};
ghost use Rattle.pd_order.specs.Graph.{Graph, tally, missing, IsLawful};
ghost use Rattle.pd_order.specs.Spots.{nodes_of, place_in, AreByNode, nowhere};
ghost use Rattle.pd_order.specs.Work.{IsSeated, IsFedAfter, looks_back};

use crate::spots::{NOWHERE, place};
use crate::{SignalGraph, Spot, Steps};
use std::sync::ledger::Ledger;

// After how many places all that feeds the node is listed, from the places of all its feeders.
fn fed_by_feeders<L: Ledger, G: SignalGraph<L>>(
    graph: &G,
    chain: &[u32],
    spots: &[Spot],
    node: u32,
    steps: &mut Steps<L>,
) -> Option<usize>
    requires by_node { AreByNode spots.now }
    requires lawful { IsLawful (G.meaning graph.now) (nodes_of spots.now) }
    requires seated { IsSeated (nodes_of spots.now) chain.now (place_in spots.now) }
    requires once { (x : ℕ) → tally x chain.now ≤ 1 }
    requires few { length chain.now < nowhere }
    ensures none { IfNone result (0 < missing chain.now ((G.meaning graph.now).feeders node)) }
    ensures some { IfSome result (IsFedAfter (G.meaning graph.now) chain.now node) }
    ensures steps { steps.new ≤ steps.old + looks_back (G.meaning graph.now) node }
{
    let mut after = 0;
    for i in 0..graph.feeder_count(node, steps) {
        let feeder = graph.feeder(node, i, steps);
        let at = place(spots, feeder);
        if at == NOWHERE {
            return None;
        }
        after = after.max(at as usize + 1);
    }
    Some(after)
}

// Whether the sink is among the node's followers, of which there are so many.
fn feeds<L: Ledger, G: SignalGraph<L>>(
    graph: &G,
    node: u32,
    count: u32,
    sink: u32,
    steps: &mut Steps<L>,
) -> bool
    requires { count ≡ length ((G.meaning graph.now).followers node) }
    ensures feeds { IsTrue result ↔ (0 < tally sink ((G.meaning graph.now).followers node)) }
    ensures steps { steps.new ≤ steps.old + count }
{
    for i in 0..count {
        if graph.follower(node, i, steps) == sink {
            return true;
        }
    }
    false
}

// After how many places all that feeds the node is listed, where that is before the node itself. From its place back, the
// first node that feeds it is the last of its feeders. None where it has no place, or once there were as many looks as
// it has feeders.
fn fed_by_followers<L: Ledger, G: SignalGraph<L>>(
    graph: &G,
    chain: &[u32],
    spots: &[Spot],
    node: u32,
    steps: &mut Steps<L>,
) -> Option<usize>
    requires by_node { AreByNode spots.now }
    requires lawful { IsLawful (G.meaning graph.now) (nodes_of spots.now) }
    requires there { 0 < tally node (nodes_of spots.now) }
    requires once { (x : ℕ) → tally x chain.now ≤ 1 }
    requires fed { place_in spots.now node < length chain.now → missing (take (place_in spots.now node) chain.now) ((G.meaning graph.now).feeders node) ≡ 0 }
    ensures some { IfSome result (IsFedAfter (G.meaning graph.now) chain.now node) }
    ensures steps { steps.new ≤ steps.old + length ((G.meaning graph.now).feeders node) + 2 }
{
    let at = place(spots, node) as usize;
    if chain.len() <= at {
        return None;
    }
    let mut left = graph.feeder_count(node, steps);
    let mut after = at;
    while 0 < after {
        let before = chain[after - 1];
        let count = graph.follower_count(before, steps);
        if left <= count {
            return None;
        }
        if feeds(graph, before, count, node, steps) {
            return Some(after);
        }
        left -= count + 1;
        after -= 1;
    }
    None
}

// After how many places all that feeds the node is listed. None where something that feeds it isn't.
pub fn fed_after<L: Ledger, G: SignalGraph<L>>(
    graph: &G,
    chain: &[u32],
    spots: &[Spot],
    node: u32,
    steps: &mut Steps<L>,
) -> Option<usize>
    requires by_node { AreByNode spots.now }
    requires lawful { IsLawful (G.meaning graph.now) (nodes_of spots.now) }
    requires there { 0 < tally node (nodes_of spots.now) }
    requires seated { IsSeated (nodes_of spots.now) chain.now (place_in spots.now) }
    requires once { (x : ℕ) → tally x chain.now ≤ 1 }
    requires few { length chain.now < nowhere }
    requires fed { place_in spots.now node < length chain.now → missing (take (place_in spots.now node) chain.now) ((G.meaning graph.now).feeders node) ≡ 0 }
    ensures none { IfNone result (0 < missing chain.now ((G.meaning graph.now).feeders node)) }
    ensures some { IfSome result (IsFedAfter (G.meaning graph.now) chain.now node) }
    ensures steps { steps.new ≤ steps.old + 2 * length ((G.meaning graph.now).feeders node) + 3 }
{
    match fed_by_followers(graph, chain, spots, node, steps) {
        Some(after) => Some(after),
        None => fed_by_feeders(graph, chain, spots, node, steps),
    }
}
