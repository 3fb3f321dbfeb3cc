//! The order of a canvas that has come with boxes.

ghost use Rattle.std.specs.Prelude.{◌≡◌, ◌≤◌, ◌+◌, ◌*◌, ℕ, length};
ghost use Rattle.pd_order.specs.Graph.{tally, total, ends, IsLawful, IsOrder};
ghost use Rattle.pd_patch.specs.Telling.{order_in};
ghost use Rattle.pd_wiring.specs.Graphs.{canvas_graph, signal_boxes, graph_told, signal_told, IsOrderIn};
ghost use Rattle.pd_placing.specs.Room.{TakesMore, HasPlaces};
ghost use Rattle.pd_placing.specs.Placing.{StayBut};

use pd_grove::Grove;
use pd_links::Links;
use pd_order::{Order, Steps};
use pd_wiring::CanvasGraph;
use std::sync::ledger::Ledger;

/// Gives a canvas that has come with boxes and wires the order of its signal boxes, from nothing. They may be listed in any
/// order.
pub fn fold_order<L: Ledger>(
    orders: &mut Vec<Option<Order>>,
    grove: &Grove,
    links: &Links,
    canvas: u32,
    signal: &[u32],
    steps: &mut Steps<L>,
)
    requires boxes { (x : ℕ) → tally x signal.now ≡ tally x (signal_boxes grove.now canvas) }
    requires lawful { IsLawful (canvas_graph grove.now links.now canvas) (signal_boxes grove.now canvas) }
    requires room { HasPlaces (order_in orders.old.items canvas) (length signal.now) }
    ensures order { IsOrderIn (canvas_graph grove.now links.now canvas) (signal_boxes grove.now canvas) (order_in orders.new.items canvas) }
    ensures others { StayBut orders.old.items orders.new.items canvas }
    ensures slots { length orders.new.items ≡ length orders.old.items }
    ensures looks { steps.new ≤ steps.old + 4 * (length signal.now + total (ends (canvas_graph grove.now links.now canvas)) signal.now) + 8 }
{
    let graph = CanvasGraph {
        grove,
        links,
        canvas,
    };
    fold_in(orders.as_mut_slice(), &graph, signal, steps);
}

fn fold_in<L: Ledger>(
    orders: &mut [Option<Order>],
    graph: &CanvasGraph,
    signal: &[u32],
    steps: &mut Steps<L>,
)
    requires boxes { (x : ℕ) → tally x signal.now ≡ tally x (signal_told graph.now) }
    requires lawful { IsLawful (graph_told graph.now) (signal_told graph.now) }
    requires room { HasPlaces (order_in orders.old graph.now.canvas) (length signal.now) }
    ensures order { IsOrderIn (graph_told graph.now) (signal_told graph.now) (order_in orders.new graph.now.canvas) }
    ensures others { StayBut orders.old orders.new graph.now.canvas }
    ensures looks { steps.new ≤ steps.old + 4 * (length signal.now + total (ends (graph_told graph.now)) signal.now) + 8 }
{
    let slot = &mut orders[graph.canvas as usize];
    fold_slot(slot, graph, signal, steps);
}

fn fold_slot<L: Ledger>(
    slot: &mut Option<Order>,
    graph: &CanvasGraph,
    signal: &[u32],
    steps: &mut Steps<L>,
)
    requires boxes { (x : ℕ) → tally x signal.now ≡ tally x (signal_told graph.now) }
    requires lawful { IsLawful (graph_told graph.now) (signal_told graph.now) }
    requires room { HasPlaces slot.old (length signal.now) }
    ensures order { IsOrderIn (graph_told graph.now) (signal_told graph.now) slot.new }
    ensures looks { steps.new ≤ steps.old + 4 * (length signal.now + total (ends (graph_told graph.now)) signal.now) + 8 }
{
    match slot {
        Some(order) => fold_boxes(order, graph, signal, steps),
        None => {}
    }
}

fn fold_boxes<L: Ledger>(
    order: &mut Order,
    graph: &CanvasGraph,
    signal: &[u32],
    steps: &mut Steps<L>,
)
    requires boxes { (x : ℕ) → tally x signal.now ≡ tally x (signal_told graph.now) }
    requires lawful { IsLawful (graph_told graph.now) (signal_told graph.now) }
    requires room { TakesMore order.old (length signal.now) }
    ensures order { IsOrder (graph_told graph.now) (signal_told graph.now) order.new.chain order.new.stuck }
    ensures looks { steps.new ≤ steps.old + 4 * (length signal.now + total (ends (graph_told graph.now)) signal.now) + 8 }
{
    order.fold(graph, signal, steps);
}
