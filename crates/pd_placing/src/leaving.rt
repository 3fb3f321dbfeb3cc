//! A box leaves the order of its canvas.

ghost use Rattle.std.specs.Prelude.{◌≡◌, ◌+◌, ℕ, true, false, length};
ghost use Rattle.slab.specs.Slab.{get};
ghost use Rattle.pd_order.specs.Graph.{take_out, IsLawful, IsOrder};
ghost use Rattle.pd_web.specs.Canvases.{keys_at};
ghost use Rattle.pd_patch.specs.Listing.{IsThere};
ghost use Rattle.pd_patch.specs.Orders.{is_signal_node};
ghost use Rattle.pd_patch.specs.Telling.{order_in};
ghost use Rattle.pd_wiring.specs.Graphs.{canvas_graph, signal_boxes, graph_told, signal_told, IsOrderIn, AreOrderedBy};
ghost use Rattle.pd_placing.specs.Room.{TakesMore, HasPlaces};
ghost use Rattle.pd_placing.specs.Placing.{IsLoose, LacksBox, AreOrderedBut, StayBut, StandsAlone};

use crate::boxes::is_signal_box;
use pd_grove::Grove;
use pd_links::Links;
use pd_order::Order;
use pd_wiring::CanvasGraph;

/// Takes a box that still stands in a canvas, and has no signal wires any more, out of the canvas's order. A box that has no
/// part in signals changes nothing.
pub fn displace_box(
    orders: &mut Vec<Option<Order>>,
    grove: &Grove,
    links: &Links,
    canvas: u32,
    key: u32,
)
    requires here { IsThere (keys_at grove.now canvas) key }
    requires loose { IsLoose links.now key }
    requires lawful { IsLawful (canvas_graph grove.now links.now canvas) (signal_boxes grove.now canvas) }
    requires order { IsOrderIn (canvas_graph grove.now links.now canvas) (signal_boxes grove.now canvas) (order_in orders.old.items canvas) }
    ensures lacks { LacksBox grove.now links.now orders.new.items canvas key }
    ensures all { AreOrderedBy grove.now links.now orders.old.items → AreOrderedBut grove.now links.now orders.new.items canvas key }
    ensures others { StayBut orders.old.items orders.new.items canvas }
    ensures slots { length orders.new.items ≡ length orders.old.items }
    ensures places { (n : ℕ) → is_signal_node (get grove.now.nodes key) ≡ true → HasPlaces (order_in orders.old.items canvas) n → HasPlaces (order_in orders.new.items canvas) (n + 1) }
    ensures none { is_signal_node (get grove.now.nodes key) ≡ false → orders.new ≡ orders.old }
{
    if !is_signal_box(grove, key) {
        return;
    }
    let graph = CanvasGraph {
        grove,
        links,
        canvas,
    };
    leave_in(orders.as_mut_slice(), &graph, key);
}

/// A box leaves the order of the graph's canvas.
fn leave_in(orders: &mut [Option<Order>], graph: &CanvasGraph, key: u32)
    requires alone { StandsAlone graph.now key }
    requires order { IsOrderIn (graph_told graph.now) (signal_told graph.now) (order_in orders.old graph.now.canvas) }
    ensures order { IsOrderIn (graph_told graph.now) (take_out key (signal_told graph.now)) (order_in orders.new graph.now.canvas) }
    ensures others { StayBut orders.old orders.new graph.now.canvas }
    ensures places { (n : ℕ) → HasPlaces (order_in orders.old graph.now.canvas) n → HasPlaces (order_in orders.new graph.now.canvas) (n + 1) }
{
    let slot = &mut orders[graph.canvas as usize];
    leave_slot(slot, graph, key);
}

fn leave_slot(slot: &mut Option<Order>, graph: &CanvasGraph, key: u32)
    requires alone { StandsAlone graph.now key }
    requires order { IsOrderIn (graph_told graph.now) (signal_told graph.now) slot.old }
    ensures order { IsOrderIn (graph_told graph.now) (take_out key (signal_told graph.now)) slot.new }
    ensures places { (n : ℕ) → HasPlaces slot.old n → HasPlaces slot.new (n + 1) }
{
    match slot {
        Some(order) => leave(order, graph, key),
        None => {}
    }
}

fn leave(order: &mut Order, graph: &CanvasGraph, key: u32)
    requires alone { StandsAlone graph.now key }
    requires order { IsOrder (graph_told graph.now) (signal_told graph.now) order.old.chain order.old.stuck }
    ensures order { IsOrder (graph_told graph.now) (take_out key (signal_told graph.now)) order.new.chain order.new.stuck }
    ensures places { (n : ℕ) → TakesMore order.old n → TakesMore order.new (n + 1) }
{
    order.laws();
    order.remove_alone(key);
}
