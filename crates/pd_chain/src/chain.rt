// The order of a canvas's signal boxes, from nothing.
ghost use Rattle.std.specs.Prelude.{◌≡◌, ℕ, ◌+◌, ◌*◌, ◌<◌, ◌≤◌, length, IfOk, OnErr};
ghost use Rattle.pd_order.specs.Graph.{tally, IsOrder};
ghost use Rattle.pd_order.specs.Spots.{nodes_of};
ghost use Rattle.pd_chain.specs.Entries.{entry_limit};
ghost use Rattle.pd_chain.specs.Wires.{graph_of, IsCanvas};

use crate::graph::{Graph, SignalWire};
use pd_order::{Order, Steps};
use std::alloc::{AllocError, Global};
use std::sync::ledger::Ledger;

/// The chain and the stuck list of a canvas, from nothing.
///
/// `nodes` are the keys of all its boxes, in the order of their numbers, and `signal` those of its signal boxes, in any
/// order. `wires` are its signal wires, each as often as it is there. The looks at them are counted in `steps`.
pub fn order_of<L: Ledger>(
    alloc: Global,
    nodes: &[u32],
    signal: &[u32],
    wires: &[SignalWire],
    steps: &mut Steps<L>,
) -> Result<Order, AllocError>
    requires canvas { IsCanvas nodes.now signal.now wires.now }
    requires few_nodes { length nodes.now < entry_limit }
    requires few_wires { length wires.now < entry_limit }
    ensures order { IfOk result (λ made. IsOrder (graph_of nodes.now wires.now) signal.now made.chain made.stuck) }
    ensures nodes { IfOk result (λ made. (x : ℕ) → tally x (nodes_of made.spots) ≡ tally x signal.now) }
    ensures room { IfOk result (λ made. length signal.now ≤ made.room) }
    ensures looks { steps.new ≤ steps.old + 4 * (length signal.now + 2 * length wires.now) + 8 }
    ensures no_looks { OnErr result (steps.new ≡ steps.old) }
{
    let graph = Graph::of(alloc, nodes, wires)?;
    let mut order = Order::new(alloc)?;
    order.reserve(signal.len() as u32)?;
    order.fold(&graph, signal, steps);
    Ok(order)
}
