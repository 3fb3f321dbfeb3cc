//! The order of a canvas of which a box becomes another one.

ghost use Rattle.std.specs.Prelude.{◌≡◌, ◌≤◌, ◌+◌, ◌&&◌, ℕ, true, false};
ghost use Rattle.slab.specs.Slab.{get};
ghost use Rattle.pd_order.specs.Graph.{IsLawful};
ghost use Rattle.pd_web.specs.Canvases.{keys_at};
ghost use Rattle.pd_patch.specs.Listing.{IsThere};
ghost use Rattle.pd_patch.specs.Orders.{is_signal as is_signal_so, is_signal_node};
ghost use Rattle.pd_patch.specs.Telling.{order_in};
ghost use Rattle.pd_wiring.specs.Graphs.{canvas_graph, signal_boxes, IsOrderIn};
ghost use Rattle.pd_placing.specs.Room.{HasPlaces};
ghost use Rattle.pd_placing.specs.Placing.{IsLoose, LacksBox, StayBut};

use pd_grove::Grove;
use pd_kind::Kind;
use pd_links::Links;
use pd_order::{Order, Steps};
use pd_placing::{displace_box, is_signal_box, place_box};
use std::sync::ledger::Ledger;

/// Whether the box of a key keeps its place in the order of its canvas where it becomes one of a kind: both stand in it.
pub(crate) fn keeps_place(grove: &Grove, key: u32, kind: &Kind) -> bool
    ensures { result ≡ (is_signal_node (get grove.now.nodes key) && is_signal_so kind.now) }
{
    is_signal_box(grove, key) && is_signal(kind)
}

/// Whether boxes of a kind stand in signal orders.
fn is_signal(kind: &Kind) -> bool
    ensures { result ≡ is_signal_so kind.now }
{
    matches!(kind, Kind::Tone(_) | Kind::Signal(_) | Kind::Vline)
}

/// Takes a box out of the order of its canvas, but where it keeps its place.
pub(crate) fn leave_order(
    orders: &mut Vec<Option<Order>>,
    grove: &Grove,
    links: &Links,
    canvas: u32,
    key: u32,
    stays: bool,
)
    requires here { IsThere (keys_at grove.now canvas) key }
    requires loose { stays ≡ false → IsLoose links.now key }
    requires lawful { IsLawful (canvas_graph grove.now links.now canvas) (signal_boxes grove.now canvas) }
    requires order { IsOrderIn (canvas_graph grove.now links.now canvas) (signal_boxes grove.now canvas) (order_in orders.old.items canvas) }
    ensures lacks { stays ≡ false → LacksBox grove.now links.now orders.new.items canvas key }
    ensures same { stays ≡ true → orders.new ≡ orders.old }
    ensures others { StayBut orders.old.items orders.new.items canvas }
    ensures places { HasPlaces (order_in orders.old.items canvas) 1 → HasPlaces (order_in orders.new.items canvas) 1 }
{
    if !stays {
        displace_box(orders, grove, links, canvas, key);
    }
}

/// Puts a box into the order of its canvas, if it stands in it, but where it kept its place.
pub(crate) fn join_order<L: Ledger>(
    orders: &mut Vec<Option<Order>>,
    grove: &Grove,
    links: &Links,
    canvas: u32,
    key: u32,
    stays: bool,
    steps: &mut Steps<L>,
)
    requires here { IsThere (keys_at grove.now canvas) key }
    requires loose { stays ≡ false → IsLoose links.now key }
    requires lawful { IsLawful (canvas_graph grove.now links.now canvas) (signal_boxes grove.now canvas) }
    requires lacks { stays ≡ false → LacksBox grove.now links.now orders.old.items canvas key }
    requires order { stays ≡ true → IsOrderIn (canvas_graph grove.now links.now canvas) (signal_boxes grove.now canvas) (order_in orders.old.items canvas) }
    requires room { HasPlaces (order_in orders.old.items canvas) 1 }
    ensures order { IsOrderIn (canvas_graph grove.now links.now canvas) (signal_boxes grove.now canvas) (order_in orders.new.items canvas) }
    ensures others { StayBut orders.old.items orders.new.items canvas }
    ensures no_looks { stays ≡ true → steps.new ≡ steps.old }
    ensures none_looks { is_signal_node (get grove.now.nodes key) ≡ false → steps.new ≡ steps.old }
    ensures looks { steps.new ≤ steps.old + 8 }
{
    if !stays {
        place_box(orders, grove, links, canvas, key, steps);
    }
}
