//! One wire less.

ghost use Rattle.std.specs.Prelude.{◌≡◌, ◌≤◌, ◌+◌, ℕ, false, Some};
ghost use Rattle.slab.specs.Slab.{get};
ghost use Rattle.pd_order.specs.Graph.{add_wire};
ghost use Rattle.pd_links.specs.Linked.{KeepsLinkRoom};
ghost use Rattle.pd_grove.specs.Owning.{board_in};
ghost use Rattle.pd_web.specs.Changes.{CutsWire};
ghost use Rattle.pd_patch.specs.Telling.{order_in};
ghost use Rattle.pd_wiring.specs.Changes.{is_signal_line as is_signal_so, graph_in, most_mending, CanRewire, LeadsAlong, StaysButWire, StaysBuilt};

use crate::lines::is_signal_line;
use crate::link::unlink;
use pd_chain::SignalWire;
use pd_order::Steps;
use pd_patch::Patch;
use pd_web::Line;
use pd_wire::WireKey;
use std::sync::ledger::Ledger;

/// Takes out the wire of a key, which leads along this line. Looks at signal wires are counted in `steps`.
pub fn detach<L: Ledger>(patch: &mut Patch, line: Line, key: WireKey, steps: &mut Steps<L>)
    requires runs { CanRewire patch.old }
    requires wire { LeadsAlong patch.old.web key line }
    ensures cuts { CutsWire patch.old.web patch.new.web key }
    ensures rest { StaysButWire patch.old patch.new line.source }
    ensures rewires { CanRewire patch.new }
    ensures built { StaysBuilt patch.old patch.new }
    ensures room { KeepsLinkRoom patch.old.links patch.new.links }
    ensures control { is_signal_so patch.old.web line ≡ false → steps.new ≡ steps.old }
    ensures looks { (c : ℕ) → board_in (get patch.old.grove.nodes line.source) ≡ Some c → steps.new ≤ steps.old
        + most_mending (add_wire (graph_in patch.new c) line.source line.sink) line.sink (order_in patch.old.orders.items c) (order_in patch.new.orders.items c) }
{
    patch.web.laws();
    let signal = is_signal_line(&patch.web, line);
    patch.web.cut(key);
    if !signal {
        return;
    }
    let wire = SignalWire {
        source: line.source,
        sink: line.sink,
    };
    unlink(patch, wire, steps);
}
