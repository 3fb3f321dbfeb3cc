// A node without wires joins an order or leaves it, over the lists of the order.
ghost use Rattle.std.specs.Prelude.{◌≡◌, ℕ, ◌+◌, ◌<◌, ◌≤◌, [], ◌∷◌, ◌++◌, length, map, vec_len, vec_capacity};
ghost use Rattle.pd_order.specs.Graph.{Graph, tally, take_out, IsAlone, IsLawful, IsOrder};
ghost use Rattle.pd_order.specs.Spots.{nodes_of, reseated, place_lowered, place_raised, nowhere};
ghost use Rattle.pd_order.specs.Listing.{IsListed};

use crate::mend::first_behind;
use crate::spots::{NOWHERE, add_spot, place, remove_spot};
use crate::{SignalGraph, Spot};
use std::sync::ledger::Ledger;

impl Spot {
    // The spot once the place `at` has left the chain.
    fn lowered(&self, at: u32) -> Spot
        ensures { result ≡ reseated (place_lowered at) self.now }
    {
        let place = self.place;
        Spot {
            node: self.node,
            place: if at < place && place != NOWHERE {
                place - 1
            } else {
                place
            },
            mark: self.mark,
        }
    }

    // The spot once the chain has a new place `at`.
    fn raised(&self, at: u32) -> Spot
        ensures { result ≡ reseated (place_raised at) self.now }
    {
        let place = self.place;
        Spot {
            node: self.node,
            place: if at <= place && place != NOWHERE {
                place + 1
            } else {
                place
            },
            mark: self.mark,
        }
    }
}

fn lower_all(spots: &mut [Spot], at: u32)
    ensures { spots.new ≡ map (reseated (place_lowered at)) spots.old }
{
    for spot in spots.iter_mut() {
        *spot = spot.lowered(at);
    }
}

fn raise_all(spots: &mut [Spot], at: u32)
    ensures { spots.new ≡ map (reseated (place_raised at)) spots.old }
{
    for spot in spots.iter_mut() {
        *spot = spot.raised(at);
    }
}

// The place `at` leaves the chain: in one pass, what stands behind it comes one place forward.
fn close_up(spots: &mut Vec<Spot>, at: u32)
    ensures items { spots.new.items ≡ map (reseated (place_lowered at)) spots.old.items }
    ensures len { vec_len spots.new ≡ vec_len spots.old }
    ensures capacity { vec_capacity spots.new ≡ vec_capacity spots.old }
{
    lower_all(spots, at);
}

// The chain gets a new place `at`: in one pass, what stands from there on goes one place back.
fn make_way(spots: &mut Vec<Spot>, at: u32)
    ensures items { spots.new.items ≡ map (reseated (place_raised at)) spots.old.items }
    ensures len { vec_len spots.new ≡ vec_len spots.old }
    ensures capacity { vec_capacity spots.new ≡ vec_capacity spots.old }
{
    raise_all(spots, at);
}

// A node that has no wires joins the chain.
pub fn insert_over<L: Ledger, G: SignalGraph<L>>(
    graph: &G,
    chain: &mut Vec<u32>,
    stuck: &[u32],
    spots: &mut Vec<Spot>,
    node: u32,
)
    requires listed { IsListed chain.old.items stuck.now spots.old.items }
    requires fresh { tally node (nodes_of spots.old.items) ≡ 0 }
    requires alone { IsAlone (G.meaning graph.now) node }
    requires lawful { IsLawful (G.meaning graph.now) (node ∷ nodes_of spots.old.items) }
    requires order { IsOrder (G.meaning graph.now) (nodes_of spots.old.items) chain.old.items stuck.now }
    requires few { length spots.old.items + 1 < nowhere }
    requires chain_room { length spots.old.items < vec_capacity chain.old }
    requires spots_room { length spots.old.items < vec_capacity spots.old }
    ensures order { IsOrder (G.meaning graph.now) (node ∷ nodes_of spots.old.items) chain.new.items stuck.now }
    ensures listed { IsListed chain.new.items stuck.now spots.new.items }
    ensures nodes { (x : ℕ) → tally x (nodes_of spots.new.items) ≡ tally x (node ∷ nodes_of spots.old.items) }
    ensures len { vec_len spots.new ≡ vec_len spots.old + 1 }
    ensures chain_capacity { vec_capacity chain.new ≡ vec_capacity chain.old }
    ensures spots_capacity { vec_capacity spots.new ≡ vec_capacity spots.old }
{
    let at = first_behind(graph, chain.as_slice(), 0, node);
    let _ = chain.insert(at, node);
    make_way(spots, at as u32);
    add_spot(spots, node, at as u32);
}

// A node that has no wires and the highest rank joins the chain at its end.
pub fn append_over<L: Ledger, G: SignalGraph<L>>(
    graph: &G,
    chain: &mut Vec<u32>,
    stuck: &[u32],
    spots: &mut Vec<Spot>,
    node: u32,
)
    requires listed { IsListed chain.old.items stuck.now spots.old.items }
    requires fresh { tally node (nodes_of spots.old.items) ≡ 0 }
    requires alone { IsAlone (G.meaning graph.now) node }
    requires last { (x : ℕ) → 0 < tally x (nodes_of spots.old.items) → (G.meaning graph.now).rank x < (G.meaning graph.now).rank node }
    requires lawful { IsLawful (G.meaning graph.now) (node ∷ nodes_of spots.old.items) }
    requires order { IsOrder (G.meaning graph.now) (nodes_of spots.old.items) chain.old.items stuck.now }
    requires few { length spots.old.items + 1 < nowhere }
    requires chain_room { length spots.old.items < vec_capacity chain.old }
    requires spots_room { length spots.old.items < vec_capacity spots.old }
    ensures chain { chain.new.items ≡ chain.old.items ++ node ∷ [] }
    ensures order { IsOrder (G.meaning graph.now) (node ∷ nodes_of spots.old.items) chain.new.items stuck.now }
    ensures listed { IsListed chain.new.items stuck.now spots.new.items }
    ensures nodes { (x : ℕ) → tally x (nodes_of spots.new.items) ≡ tally x (node ∷ nodes_of spots.old.items) }
    ensures len { vec_len spots.new ≡ vec_len spots.old + 1 }
    ensures chain_capacity { vec_capacity chain.new ≡ vec_capacity chain.old }
    ensures spots_capacity { vec_capacity spots.new ≡ vec_capacity spots.old }
{
    let last = chain.len();
    chain.push_reserved(node);
    add_spot(spots, node, last as u32);
}

// A node of the chain that has no wires leaves it.
pub fn remove_over(chain: &mut Vec<u32>, stuck: &[u32], spots: &mut Vec<Spot>, node: u32)
    requires listed { IsListed chain.old.items stuck.now spots.old.items }
    requires once { (x : ℕ) → tally x chain.old.items ≤ 1 }
    requires there { 0 < tally node chain.old.items }
    ensures chain { chain.new.items ≡ take_out node chain.old.items }
    ensures listed { IsListed chain.new.items stuck.now spots.new.items }
    ensures nodes { (x : ℕ) → tally x (nodes_of spots.old.items) ≡ tally x (node ∷ nodes_of spots.new.items) }
    ensures len { vec_len spots.new + 1 ≡ vec_len spots.old }
    ensures chain_capacity { vec_capacity chain.new ≡ vec_capacity chain.old }
    ensures spots_capacity { vec_capacity spots.new ≡ vec_capacity spots.old }
{
    let at = place(spots.as_slice(), node);
    let _ = chain.remove(at as usize);
    remove_spot(spots, node);
    close_up(spots, at);
}
