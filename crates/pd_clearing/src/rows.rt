//! What a patch keeps by key where some boxes go: ports, clocks, blocks, numbers, and the orders of canvases.

ghost use Rattle.std.specs.Prelude.{◌≡◌, ◌+◌, ◌≤◌, ℕ, None, Some, IsTrue, map, slice_get};
ghost use Rattle.slab.specs.Slab.{get};
ghost use Rattle.pd_grove.specs.TextOrder.{keys_of_spots};
ghost use Rattle.pd_owning.specs.Bound.{is_among};
ghost use Rattle.pd_web.specs.Canvases.{keys_at};
ghost use Rattle.pd_web.specs.Changes.{HasRoom};
ghost use Rattle.pd_ports.specs.Boxes.{HasNoWires};
ghost use Rattle.pd_ports.specs.Known.{KnowsHomes};
ghost use Rattle.pd_patch.specs.Numbers.{AreApart};
ghost use Rattle.pd_patch.specs.Telling.{order_in};
ghost use Rattle.pd_boxes.specs.Rows.{NumbersFrom, PutsUnder};
ghost use Rattle.pd_clearing.specs.Clearing.{DropsAll, without_all};
ghost use Rattle.pd_clearing.specs.Layers.{ClosesAll, DropsOrders, DropsUnder};

use pd_boxes::{Blocks, Place};
use pd_grove::{Grove, Spot};
use pd_order::Order;
use pd_placing::close_order;
use pd_ports::{close_box, port_boxes_stay_known};
use pd_timers::Timers;
use pd_web::Web;
use std::alloc::Global;

/// Takes the orders of the canvases in these boxes away.
pub(crate) fn close_orders(orders: &mut Vec<Option<Order>>, grove: &Grove, spots: &[Spot])
    ensures { DropsOrders grove.now orders.old.items orders.new.items (keys_of_spots spots.now) }
{
    for spot in spots {
        close_inside(orders, grove.canvas_in(spot.node));
    }
}

/// Takes the order of a canvas away, if there is that canvas.
fn close_inside(orders: &mut Vec<Option<Order>>, canvas: Option<u32>)
    ensures none { (c : ℕ) → canvas ≡ Some c → order_in orders.new.items c ≡ None }
    ensures others { (c : ℕ) → (canvas ≡ Some c → ⊥) → order_in orders.new.items c ≡ order_in orders.old.items c }
{
    if let Some(canvas) = canvas {
        close_order(orders, canvas);
    }
}

/// Takes the clocks of these boxes away.
pub(crate) fn clear_clocks(timers: &mut Timers, spots: &[Spot])
    ensures clocks { timers.new.clocks.clocks ≡ without_all (keys_of_spots spots.now) timers.old.clocks.clocks }
    ensures end { timers.new.end ≡ timers.old.end }
{
    for spot in spots {
        timers.clear(spot.node);
    }
}

/// Takes the ports of these boxes away, which have no wires. No memory is taken.
pub(crate) fn close_boxes(web: &mut Web, alloc: Global, spots: &[Spot])
    requires here { (k : ℕ) → IsTrue (is_among (keys_of_spots spots.now) k) → HasRoom web.old (k + 1) 0 0 }
    requires bare { (k : ℕ) → IsTrue (is_among (keys_of_spots spots.now) k) → HasNoWires web.old k }
    requires known { KnowsHomes web.old }
    ensures { ClosesAll web.old web.new (keys_of_spots spots.now) }
{
    port_boxes_stay_known();
    for spot in spots {
        close_box(web, alloc, spot.node);
    }
}

/// Drops the blocks of these boxes.
pub(crate) fn drop_all(values: &mut Vec<Blocks>, alloc: Global, spots: &[Spot])
    ensures { DropsAll (map (λ b. b.items) values.old.items) (map (λ b. b.items) values.new.items) (keys_of_spots spots.now) }
{
    for spot in spots {
        drop_blocks(values, alloc, spot.node);
    }
}

/// Drops the blocks of a box.
fn drop_blocks(values: &mut Vec<Blocks>, alloc: Global, key: u32)
    ensures { DropsUnder (map (λ b. b.items) values.old.items) (map (λ b. b.items) values.new.items) key }
{
    if (key as usize) < values.len() {
        values[key as usize] = Vec::new(alloc);
    }
}

/// Lowers the numbers of the boxes of a canvas from a number on by one.
pub fn lower_numbers(numbers: &mut Vec<u32>, grove: &Grove, place: Place)
    requires apart { AreApart (keys_at grove.now place.canvas) }
    requires above { (i k : ℕ) → place.number ≤ i → slice_get (keys_at grove.now place.canvas) i ≡ Some k → slice_get numbers.old.items k ≡ Some (i + 1) }
    ensures { NumbersFrom numbers.old.items numbers.new.items (keys_at grove.now place.canvas) place.number }
{
    if let Some(board) = grove.board(place.canvas) {
        lower_from(numbers, board.nodes.as_slice(), place.number as usize);
    }
}

/// Lowers the numbers of the boxes of a list from one on by one.
fn lower_from(numbers: &mut Vec<u32>, keys: &[u32], number: usize)
    requires apart { AreApart keys.now }
    requires above { (i k : ℕ) → number ≤ i → slice_get keys.now i ≡ Some k → slice_get numbers.old.items k ≡ Some (i + 1) }
    ensures { NumbersFrom numbers.old.items numbers.new.items keys.now number }
{
    for i in number..keys.len() {
        lower(numbers, keys[i]);
    }
}

/// Lowers the number under a key by one.
fn lower(numbers: &mut Vec<u32>, key: u32)
    requires { (n : ℕ) × (slice_get numbers.old.items key ≡ Some (n + 1)) }
    ensures { (n : ℕ) → slice_get numbers.old.items key ≡ Some (n + 1) → PutsUnder numbers.old.items numbers.new.items key n }
{
    numbers[key as usize] -= 1;
}
