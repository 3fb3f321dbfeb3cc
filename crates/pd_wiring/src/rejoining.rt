//! One wire more, at a place of a fan-out.

ghost use Rattle.std.specs.Prelude.{◌≡◌, ◌≤◌, ◌+◌, ℕ, false, Some};
ghost use Rattle.slab.specs.Slab.{get};
ghost use Rattle.pd_wire.specs.Book.{StandsAt};
ghost use Rattle.pd_links.specs.Linked.{UsesLinkRoom};
ghost use Rattle.pd_grove.specs.Owning.{board_in};
ghost use Rattle.pd_web.specs.Lines.{IsRoute};
ghost use Rattle.pd_web.specs.Hops.{fan_keys, feed_hops};
ghost use Rattle.pd_web.specs.Changes.{Joins};
ghost use Rattle.pd_seek.specs.Places.{IsPlace};
ghost use Rattle.pd_patch.specs.Linked.{ShareCanvas};
ghost use Rattle.pd_patch.specs.Telling.{order_in};
ghost use Rattle.pd_wiring.specs.Changes.{is_signal_line as is_signal_so, graph_in, most_mending, CanRewire, TakesWire, StaysButWire, StaysBuilt};

use crate::lines::is_signal_line;
use crate::link::link;
use pd_chain::SignalWire;
use pd_order::Steps;
use pd_patch::Patch;
use pd_seek::feed_place;
use pd_web::Line;
use pd_wire::WireKey;
use std::sync::ledger::Ledger;

/// Puts a wire in as `attach` does, but in the fan-out of its outlet before the wire `before`, or last where there is none.
pub fn attach_before<L: Ledger>(
    patch: &mut Patch,
    line: Line,
    before: Option<WireKey>,
    steps: &mut Steps<L>,
) -> WireKey
    requires runs { CanRewire patch.old }
    requires together { ShareCanvas patch.old.grove line.source line.sink }
    requires route { IsRoute patch.old.web.sockets.items line }
    requires room { TakesWire patch.old line }
    requires before { (place : ℕ) × StandsAt (fan_keys patch.old.web line.source line.outlet) place before }
    ensures joins { (fan_place : ℕ) → StandsAt (fan_keys patch.old.web line.source line.outlet) fan_place before →
        (place : ℕ) × IsPlace patch.old.numbers.items line (feed_hops patch.old.web line.sink line.inlet) place
        × Joins patch.old.web patch.new.web result line fan_place place }
    ensures rest { StaysButWire patch.old patch.new line.source }
    ensures rewires { CanRewire patch.new }
    ensures built { StaysBuilt patch.old patch.new }
    ensures left { UsesLinkRoom patch.old.links patch.new.links line.source line.sink }
    ensures control { is_signal_so patch.old.web line ≡ false → steps.new ≡ steps.old }
    ensures looks { (c : ℕ) → board_in (get patch.old.grove.nodes line.source) ≡ Some c → steps.new ≤ steps.old
        + most_mending (graph_in patch.new c) line.sink (order_in patch.old.orders.items c) (order_in patch.new.orders.items c) }
{
    let next = feed_place(&patch.web, patch.numbers.as_slice(), line);
    let key = patch.web.rejoin(line, before, next);
    if is_signal_line(&patch.web, line) {
        let wire = SignalWire {
            source: line.source,
            sink: line.sink,
        };
        link(patch, wire, steps);
        return key;
    }
    key
}
