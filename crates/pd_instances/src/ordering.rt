//! The signal orders of canvases that have come.

ghost use Rattle.std.specs.Prelude.{◌≡◌, ◌<◌, ◌≤◌, ◌+◌, ◌++◌, ◌∷◌, [], ℕ, Some, None, drop, length, vec_capacity, vec_len, IsTrue};
ghost use Rattle.std.specs.List.{AllZip, flat_map};
ghost use Rattle.slab.specs.Slab.{get, ContainsKey};
ghost use Rattle.pd_order.specs.Graph.{IsLawful};
ghost use Rattle.pd_grove.specs.Telling.{inner_in};
ghost use Rattle.pd_grove.specs.TextOrder.{keys_of_spots};
ghost use Rattle.pd_owning.specs.Bound.{is_among};
ghost use Rattle.pd_web.specs.Canvases.{keys_at};
ghost use Rattle.pd_patch.specs.Orders.{signal_among};
ghost use Rattle.pd_patch.specs.Telling.{order_in};
ghost use Rattle.pd_placing.specs.Placing.{StayBut};
ghost use Rattle.pd_placing.specs.Room.{TakesMore};
ghost use Rattle.pd_wiring.specs.Graphs.{canvas_graph, signal_boxes, IsOrderIn};
ghost use Rattle.pd_instances.specs.Needs.{inside_at, IsOrderRoom};
ghost use Rattle.pd_instances.specs.Layers.{AreNextOrders, OrdersAll};
ghost use Rattle.pd_instances.specs.Part.{fold_looks, looks_held, looks_of};

use pd_grove::{Grove, Spot};
use pd_links::Links;
use pd_order::{Order, Steps};
use pd_placing::{fold_order, is_signal_box};
use std::collections::VecDeque;
use std::sync::ledger::Ledger;

/// Gives the canvases that boxes hold the orders that their wires give. No memory is taken: the orders have room, and so has the list for the
/// signal boxes of one canvas.
pub(crate) fn order_all<L: Ledger>(
    orders: &mut Vec<Option<Order>>,
    grove: &Grove,
    links: &Links,
    spots: &[Spot],
    rooms: &mut VecDeque<Order>,
    signal: &mut Vec<u32>,
    steps: &mut Steps<L>,
)
    requires lawful { (c : ℕ) → IsLawful (canvas_graph grove.now links.now c) (signal_boxes grove.now c) }
    requires boards { (k c : ℕ) → IsTrue (is_among (keys_of_spots spots.now) k) → inner_in (get grove.now.nodes k) ≡ Some c → ContainsKey grove.now.boards c }
    requires slots { (k c : ℕ) → IsTrue (is_among (keys_of_spots spots.now) k) → inner_in (get grove.now.nodes k) ≡ Some c → c < length orders.old.items }
    requires rooms { AllZip IsOrderRoom (flat_map (inside_at grove.now) (keys_of_spots spots.now)) rooms.old.items }
    requires lists { (k c : ℕ) → IsTrue (is_among (keys_of_spots spots.now) k) → inner_in (get grove.now.nodes k) ≡ Some c → length (keys_at grove.now c) ≤ vec_capacity signal.old }
    ensures orders { OrdersAll grove.now links.now orders.old.items orders.new.items (keys_of_spots spots.now) }
    ensures slots { length orders.new.items ≡ length orders.old.items }
    ensures list { vec_capacity signal.new ≡ vec_capacity signal.old }
    ensures looks { steps.new ≤ steps.old + looks_of grove.now links.now (keys_of_spots spots.now) }
{
    for spot in spots {
        order_inside(orders, grove, links, spot.node, rooms, signal, steps);
    }
}

/// Gives the canvas that a box holds the order that its wires give, from the first of some orders.
fn order_inside<L: Ledger>(
    orders: &mut Vec<Option<Order>>,
    grove: &Grove,
    links: &Links,
    key: u32,
    rooms: &mut VecDeque<Order>,
    signal: &mut Vec<u32>,
    steps: &mut Steps<L>,
)
    requires lawful { (c : ℕ) → IsLawful (canvas_graph grove.now links.now c) (signal_boxes grove.now c) }
    requires board { (c : ℕ) → inner_in (get grove.now.nodes key) ≡ Some c → ContainsKey grove.now.boards c }
    requires slots { (c : ℕ) → inner_in (get grove.now.nodes key) ≡ Some c → c < length orders.old.items }
    requires room { AreNextOrders (inside_at grove.now key) rooms.old.items }
    requires list { (c : ℕ) → inner_in (get grove.now.nodes key) ≡ Some c → length (keys_at grove.now c) ≤ vec_capacity signal.old }
    ensures order { (c : ℕ) → inner_in (get grove.now.nodes key) ≡ Some c → IsOrderIn (canvas_graph grove.now links.now c) (signal_boxes grove.now c) (order_in orders.new.items c) }
    ensures others { (c : ℕ) → inner_in (get grove.now.nodes key) ≡ Some c → StayBut orders.old.items orders.new.items c }
    ensures none { inner_in (get grove.now.nodes key) ≡ None → orders.new ≡ orders.old }
    ensures slots { length orders.new.items ≡ length orders.old.items }
    ensures rest { rooms.new.items ≡ drop (length (inside_at grove.now key)) rooms.old.items }
    ensures list { vec_capacity signal.new ≡ vec_capacity signal.old }
    ensures looks { steps.new ≤ steps.old + looks_held grove.now links.now (inner_in (get grove.now.nodes key)) }
{
    let Some(canvas) = grove.canvas_in(key) else {
        return;
    };
    let Some(order) = rooms.pop_front() else {
        unreachable!()
    };
    order_canvas(orders, grove, links, canvas, order, signal, steps);
}

/// Gives a canvas that has come the order that its wires give.
fn order_canvas<L: Ledger>(
    orders: &mut Vec<Option<Order>>,
    grove: &Grove,
    links: &Links,
    canvas: u32,
    order: Order,
    signal: &mut Vec<u32>,
    steps: &mut Steps<L>,
)
    requires lawful { IsLawful (canvas_graph grove.now links.now canvas) (signal_boxes grove.now canvas) }
    requires slot { canvas < length orders.old.items }
    requires room { TakesMore order (length (keys_at grove.now canvas)) }
    requires list { length (keys_at grove.now canvas) ≤ vec_capacity signal.old }
    ensures order { IsOrderIn (canvas_graph grove.now links.now canvas) (signal_boxes grove.now canvas) (order_in orders.new.items canvas) }
    ensures others { StayBut orders.old.items orders.new.items canvas }
    ensures slots { length orders.new.items ≡ length orders.old.items }
    ensures list { vec_capacity signal.new ≡ vec_capacity signal.old }
    ensures looks { steps.new ≤ steps.old + fold_looks grove.now links.now canvas }
{
    list_signal_boxes(grove, canvas, signal);
    put_order(orders, canvas, order);
    fold_order(orders, grove, links, canvas, signal.as_slice(), steps);
}

/// Puts an order under the key of a canvas.
fn put_order(orders: &mut Vec<Option<Order>>, canvas: u32, order: Order)
    requires slot { canvas < length orders.old.items }
    ensures is { order_in orders.new.items canvas ≡ Some order }
    ensures others { StayBut orders.old.items orders.new.items canvas }
    ensures slots { length orders.new.items ≡ length orders.old.items }
{
    orders[canvas as usize] = Some(order);
}

/// Lists the signal boxes of a canvas, in a list that has room for all its boxes.
fn list_signal_boxes(grove: &Grove, canvas: u32, signal: &mut Vec<u32>)
    requires room { length (keys_at grove.now canvas) ≤ vec_capacity signal.old }
    ensures boxes { signal.new.items ≡ signal_boxes grove.now canvas }
    ensures room { vec_capacity signal.new ≡ vec_capacity signal.old }
{
    signal.clear();
    if let Some(board) = grove.board(canvas) {
        push_signal_boxes(grove, board.nodes.as_slice(), signal);
    }
}

/// Adds those of some boxes that stand in the signal order.
fn push_signal_boxes(grove: &Grove, keys: &[u32], signal: &mut Vec<u32>)
    requires none { signal.old.items ≡ [] }
    requires empty { vec_len signal.old ≡ 0 }
    requires room { length keys.now ≤ vec_capacity signal.old }
    ensures boxes { signal.new.items ≡ signal_among grove.now keys.now }
    ensures room { vec_capacity signal.new ≡ vec_capacity signal.old }
{
    for key in keys {
        push_signal_box(grove, *key, signal);
    }
}

/// Adds a box, where it stands in the signal order.
fn push_signal_box(grove: &Grove, key: u32, signal: &mut Vec<u32>)
    requires room { vec_len signal.old < vec_capacity signal.old }
    ensures boxes { signal.new.items ≡ signal.old.items ++ signal_among grove.now (key ∷ []) }
    ensures len { vec_len signal.new ≤ vec_len signal.old + 1 }
    ensures room { vec_capacity signal.new ≡ vec_capacity signal.old }
{
    if is_signal_box(grove, key) {
        signal.push_reserved(key);
    }
}
