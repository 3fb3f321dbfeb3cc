//! A signal wire more or less in the links, and in the order of its canvas.

ghost use Rattle.std.specs.Prelude.{◌≡◌, ◌<◌, ◌≤◌, ◌+◌, ℕ, Some, true};
ghost use Rattle.slab.specs.Slab.{get};
ghost use Rattle.pd_order.specs.Graph.{tally, add_wire};
ghost use Rattle.pd_links.specs.declared.links.Links.{Links};
ghost use Rattle.pd_links.specs.Linked.{feeders_of, followers_of, HasOneMore, KeepsLinkRoom, TakesOne, UsesLinkRoom};
ghost use Rattle.pd_grove.specs.Owning.{board_in};
ghost use Rattle.pd_patch.specs.Linked.{ShareCanvas};
ghost use Rattle.pd_patch.specs.Orders.{is_signal_node};
ghost use Rattle.pd_patch.specs.Telling.{order_in};
ghost use Rattle.pd_wiring.specs.Graphs.{signal_boxes, graph_before, graph_with, AreWired, HasOrderBy};
ghost use Rattle.pd_wiring.specs.declared.mend.Change.TheVariants.{Came};
ghost use Rattle.pd_wiring.specs.Changes.{graph_in, HasOrders, most_mending, StaysButWire};

use crate::graph::CanvasGraph;
use crate::mend::{Change, mend};
use pd_chain::SignalWire;
use pd_grove::Grove;
use pd_order::Steps;
use pd_patch::Patch;
use std::sync::ledger::Ledger;

/// A signal wire more, which the web has already.
pub(crate) fn link<L: Ledger>(patch: &mut Patch, wire: SignalWire, steps: &mut Steps<L>)
    requires room { TakesOne patch.old.links wire.source wire.sink }
    requires wired { (more : Links) → HasOneMore patch.old.links more wire.source wire.sink → AreWired patch.old.grove patch.old.web more }
    requires together { ShareCanvas patch.old.grove wire.source wire.sink }
    requires signal { is_signal_node (get patch.old.grove.nodes wire.sink) ≡ true }
    requires orders { HasOrders patch.old }
    ensures links { HasOneMore patch.old.links patch.new.links wire.source wire.sink }
    ensures room { UsesLinkRoom patch.old.links patch.new.links wire.source wire.sink }
    ensures orders { HasOrders patch.new }
    ensures rest { StaysButWire patch.old patch.new wire.source }
    ensures web { patch.new.web ≡ patch.old.web }
    ensures looks { (c : ℕ) → board_in (get patch.old.grove.nodes wire.source) ≡ Some c → steps.new ≤ steps.old + most_mending (graph_in patch.new c) wire.sink (order_in patch.old.orders.items c) (order_in patch.new.orders.items c) }
{
    patch.links.add(wire.source, wire.sink);
    mend_canvas(patch, wire, Change::Came, steps);
}

/// A signal wire less, which the web has no more.
pub(crate) fn unlink<L: Ledger>(patch: &mut Patch, wire: SignalWire, steps: &mut Steps<L>)
    requires from { 0 < tally wire.sink (followers_of patch.old.links wire.source) }
    requires into { 0 < tally wire.source (feeders_of patch.old.links wire.sink) }
    requires wired { (less : Links) → HasOneMore less patch.old.links wire.source wire.sink → AreWired patch.old.grove patch.old.web less }
    requires together { ShareCanvas patch.old.grove wire.source wire.sink }
    requires signal { is_signal_node (get patch.old.grove.nodes wire.sink) ≡ true }
    requires orders { HasOrders patch.old }
    ensures links { HasOneMore patch.new.links patch.old.links wire.source wire.sink }
    ensures room { KeepsLinkRoom patch.old.links patch.new.links }
    ensures orders { HasOrders patch.new }
    ensures rest { StaysButWire patch.old patch.new wire.source }
    ensures web { patch.new.web ≡ patch.old.web }
    ensures looks { (c : ℕ) → board_in (get patch.old.grove.nodes wire.source) ≡ Some c → steps.new ≤ steps.old + most_mending (add_wire (graph_in patch.new c) wire.source wire.sink) wire.sink (order_in patch.old.orders.items c) (order_in patch.new.orders.items c) }
{
    patch.links.cut(wire.source, wire.sink);
    mend_canvas(patch, wire, Change::Went, steps);
}

/// Mends the order of the canvas of a wire that came into the links or went out of them.
fn mend_canvas<L: Ledger>(patch: &mut Patch, wire: SignalWire, change: Change, steps: &mut Steps<L>)
    requires wired { AreWired patch.old.grove patch.old.web patch.old.links }
    requires wire { change ≡ Came → 0 < tally wire.source (feeders_of patch.old.links wire.sink) }
    requires signal { is_signal_node (get patch.old.grove.nodes wire.sink) ≡ true }
    requires together { ShareCanvas patch.old.grove wire.source wire.sink }
    requires orders { (c : ℕ) → HasOrderBy (graph_before change (graph_in patch.old c) wire) (signal_boxes patch.old.grove c) (get patch.old.grove.boards c) (order_in patch.old.orders.items c) }
    ensures orders { HasOrders patch.new }
    ensures links { patch.new.links ≡ patch.old.links }
    ensures rest { StaysButWire patch.old patch.new wire.source }
    ensures web { patch.new.web ≡ patch.old.web }
    ensures looks { (c : ℕ) → board_in (get patch.old.grove.nodes wire.source) ≡ Some c → steps.new ≤ steps.old + most_mending (graph_with change (graph_in patch.new c) wire) wire.sink (order_in patch.old.orders.items c) (order_in patch.new.orders.items c) }
{
    let Some(canvas) = canvas_of(&patch.grove, wire.source) else {
        return;
    };
    let graph = CanvasGraph {
        grove: &patch.grove,
        links: &patch.links,
        canvas,
    };
    mend(patch.orders.as_mut_slice(), &graph, wire, change, steps);
}

/// In which canvas a box lies.
fn canvas_of(grove: &Grove, node: u32) -> Option<u32>
    ensures { result ≡ board_in (get grove.now.nodes node) }
{
    match grove.node(node) {
        Some(inside) => Some(inside.board),
        None => None,
    }
}
