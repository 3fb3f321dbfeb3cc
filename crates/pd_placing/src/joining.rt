//! A box joins the order of its canvas.

ghost use Rattle.std.specs.Prelude.{◌≡◌, ◌≤◌, ◌+◌, ℕ, true, false, length};
ghost use Rattle.slab.specs.Slab.{get};
ghost use Rattle.pd_order.specs.Graph.{take_out, IsLawful, IsOrder};
ghost use Rattle.pd_web.specs.Canvases.{keys_at};
ghost use Rattle.pd_patch.specs.Listing.{IsThere};
ghost use Rattle.pd_patch.specs.Orders.{is_signal_node};
ghost use Rattle.pd_patch.specs.Telling.{order_in};
ghost use Rattle.pd_wiring.specs.Graphs.{canvas_graph, signal_boxes, graph_told, signal_told, IsOrderIn, AreOrderedBy};
ghost use Rattle.pd_placing.specs.Room.{TakesMore, HasPlaces};
ghost use Rattle.pd_placing.specs.Placing.{is_last as is_last_so, IsLoose, LacksBox, AreOrderedBut, StayBut, StandsAlone, IsBehind};

use crate::boxes::{is_last_box, is_signal_box};
use pd_grove::Grove;
use pd_links::Links;
use pd_order::{Order, Steps};
use pd_wiring::CanvasGraph;
use std::sync::ledger::Ledger;

/// Puts a box that stands in a canvas, and has no signal wires, into the canvas's order. A box that has no part in signals
/// changes nothing.
pub fn place_box<L: Ledger>(
    orders: &mut Vec<Option<Order>>,
    grove: &Grove,
    links: &Links,
    canvas: u32,
    key: u32,
    steps: &mut Steps<L>,
)
    requires here { IsThere (keys_at grove.now canvas) key }
    requires loose { IsLoose links.now key }
    requires lawful { IsLawful (canvas_graph grove.now links.now canvas) (signal_boxes grove.now canvas) }
    requires lacks { LacksBox grove.now links.now orders.old.items canvas key }
    requires room { is_signal_node (get grove.now.nodes key) ≡ true → HasPlaces (order_in orders.old.items canvas) 1 }
    ensures order { IsOrderIn (canvas_graph grove.now links.now canvas) (signal_boxes grove.now canvas) (order_in orders.new.items canvas) }
    ensures all { AreOrderedBut grove.now links.now orders.old.items canvas key → AreOrderedBy grove.now links.now orders.new.items }
    ensures others { StayBut orders.old.items orders.new.items canvas }
    ensures slots { length orders.new.items ≡ length orders.old.items }
    ensures places { (n : ℕ) → HasPlaces (order_in orders.old.items canvas) (n + 1) → HasPlaces (order_in orders.new.items canvas) n }
    ensures none { is_signal_node (get grove.now.nodes key) ≡ false → orders.new ≡ orders.old }
    ensures none_looks { is_signal_node (get grove.now.nodes key) ≡ false → steps.new ≡ steps.old }
    ensures last_looks { is_last_so (keys_at grove.now canvas) key ≡ true → steps.new ≡ steps.old }
    ensures looks { steps.new ≤ steps.old + 8 }
{
    if !is_signal_box(grove, key) {
        return;
    }
    let is_last = is_last_box(grove, canvas, key);
    let graph = CanvasGraph {
        grove,
        links,
        canvas,
    };
    join_in(orders.as_mut_slice(), &graph, key, is_last, steps);
}

/// A box joins the order of the graph's canvas.
fn join_in<L: Ledger>(
    orders: &mut [Option<Order>],
    graph: &CanvasGraph,
    key: u32,
    is_last: bool,
    steps: &mut Steps<L>,
)
    requires alone { StandsAlone graph.now key }
    requires behind { is_last ≡ true → IsBehind graph.now key }
    requires order { IsOrderIn (graph_told graph.now) (take_out key (signal_told graph.now)) (order_in orders.old graph.now.canvas) }
    requires room { HasPlaces (order_in orders.old graph.now.canvas) 1 }
    ensures order { IsOrderIn (graph_told graph.now) (signal_told graph.now) (order_in orders.new graph.now.canvas) }
    ensures others { StayBut orders.old orders.new graph.now.canvas }
    ensures places { (n : ℕ) → HasPlaces (order_in orders.old graph.now.canvas) (n + 1) → HasPlaces (order_in orders.new graph.now.canvas) n }
    ensures last_looks { is_last ≡ true → steps.new ≡ steps.old }
    ensures looks { steps.new ≤ steps.old + 8 }
{
    let slot = &mut orders[graph.canvas as usize];
    join_slot(slot, graph, key, is_last, steps);
}

fn join_slot<L: Ledger>(
    slot: &mut Option<Order>,
    graph: &CanvasGraph,
    key: u32,
    is_last: bool,
    steps: &mut Steps<L>,
)
    requires alone { StandsAlone graph.now key }
    requires behind { is_last ≡ true → IsBehind graph.now key }
    requires order { IsOrderIn (graph_told graph.now) (take_out key (signal_told graph.now)) slot.old }
    requires room { HasPlaces slot.old 1 }
    ensures order { IsOrderIn (graph_told graph.now) (signal_told graph.now) slot.new }
    ensures places { (n : ℕ) → HasPlaces slot.old (n + 1) → HasPlaces slot.new n }
    ensures last_looks { is_last ≡ true → steps.new ≡ steps.old }
    ensures looks { steps.new ≤ steps.old + 8 }
{
    match slot {
        Some(order) => join(order, graph, key, is_last, steps),
        None => {}
    }
}

fn join<L: Ledger>(
    order: &mut Order,
    graph: &CanvasGraph,
    key: u32,
    is_last: bool,
    steps: &mut Steps<L>,
)
    requires alone { StandsAlone graph.now key }
    requires behind { is_last ≡ true → IsBehind graph.now key }
    requires order { IsOrder (graph_told graph.now) (take_out key (signal_told graph.now)) order.old.chain order.old.stuck }
    requires room { TakesMore order.old 1 }
    ensures order { IsOrder (graph_told graph.now) (signal_told graph.now) order.new.chain order.new.stuck }
    ensures places { (n : ℕ) → TakesMore order.old (n + 1) → TakesMore order.new n }
    ensures last_looks { is_last ≡ true → steps.new ≡ steps.old }
    ensures looks { steps.new ≤ steps.old + 8 }
{
    order.laws();
    if is_last {
        order.append_alone(graph, key, steps);
    } else {
        order.insert_alone(graph, key, steps);
    }
}
