//! The order of a canvas, mended where a signal wire came or went.

ghost use Rattle.std.specs.Prelude.{◌≡◌, ◌≢◌, ℕ, ◌≤◌, ◌+◌};
ghost use Rattle.pd_order.specs.Graph.{IsOrder};
ghost use Rattle.pd_patch.specs.Telling.{order_in};
ghost use Rattle.pd_wiring.specs.Graphs.{graph_told, signal_told, graph_before, graph_with, CanMend, IsOrderIn};
ghost use Rattle.pd_wiring.specs.Changes.{most_mending, mending, HasSamePlaces, SamePlaces};

use crate::graph::CanvasGraph;
use pd_chain::SignalWire;
use pd_order::{Order, Steps};
use std::sync::ledger::Ledger;

/// What became of a wire.
#[derive(Clone, Copy)]
pub enum Change {
    Came,
    Went,
}

/// Mends the order of the graph's canvas, in whose graph the wire came or went.
pub(crate) fn mend<L: Ledger>(
    orders: &mut [Option<Order>],
    graph: &CanvasGraph,
    wire: SignalWire,
    change: Change,
    steps: &mut Steps<L>,
)
    requires ready { CanMend graph.now wire change }
    requires order { IsOrderIn (graph_before change (graph_told graph.now) wire) (signal_told graph.now) (order_in orders.old graph.now.canvas) }
    ensures order { IsOrderIn (graph_told graph.now) (signal_told graph.now) (order_in orders.new graph.now.canvas) }
    ensures others { (c : ℕ) → c ≢ graph.now.canvas → order_in orders.new c ≡ order_in orders.old c }
    ensures places { (c : ℕ) → SamePlaces (order_in orders.old c) (order_in orders.new c) }
    ensures looks { steps.new ≤ steps.old + most_mending (graph_with change (graph_told graph.now) wire) wire.sink (order_in orders.old graph.now.canvas) (order_in orders.new graph.now.canvas) }
{
    let slot = &mut orders[graph.canvas as usize];
    mend_slot(slot, graph, wire, change, steps);
}

fn mend_slot<L: Ledger>(
    slot: &mut Option<Order>,
    graph: &CanvasGraph,
    wire: SignalWire,
    change: Change,
    steps: &mut Steps<L>,
)
    requires ready { CanMend graph.now wire change }
    requires order { IsOrderIn (graph_before change (graph_told graph.now) wire) (signal_told graph.now) slot.old }
    ensures order { IsOrderIn (graph_told graph.now) (signal_told graph.now) slot.new }
    ensures places { SamePlaces slot.old slot.new }
    ensures looks { steps.new ≤ steps.old + most_mending (graph_with change (graph_told graph.now) wire) wire.sink slot.old slot.new }
{
    match slot {
        Some(order) => mend_order(order, graph, wire, change, steps),
        None => {}
    }
}

fn mend_order<L: Ledger>(
    order: &mut Order,
    graph: &CanvasGraph,
    wire: SignalWire,
    change: Change,
    steps: &mut Steps<L>,
)
    requires ready { CanMend graph.now wire change }
    requires order { IsOrder (graph_before change (graph_told graph.now) wire) (signal_told graph.now) order.old.chain order.old.stuck }
    ensures order { IsOrder (graph_told graph.now) (signal_told graph.now) order.new.chain order.new.stuck }
    ensures places { HasSamePlaces order.old order.new }
    ensures looks { steps.new ≤ steps.old + mending (graph_with change (graph_told graph.now) wire) wire.sink order.old order.new }
{
    order.laws();
    match change {
        Change::Came => order.mend_add(graph, wire.source, wire.sink, steps),
        Change::Went => order.mend_cut(graph, wire.source, wire.sink, steps),
    }
}
