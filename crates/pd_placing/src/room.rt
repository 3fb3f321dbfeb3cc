//! Room set aside for boxes that join an order, and for canvases to come.

ghost use Rattle.std.specs.Prelude.{◌≡◌, ◌<◌, ◌≤◌, ◌+◌, ℕ, true, IsSome, OnOk, length};
ghost use Rattle.pd_order.specs.Spots.{nowhere};
ghost use Rattle.pd_links.specs.declared.links.Links.{Links};
ghost use Rattle.pd_grove.specs.declared.grove.Grove.{Grove};
ghost use Rattle.pd_patch.specs.Telling.{order_in};
ghost use Rattle.pd_wiring.specs.Graphs.{AreOrderedBy};
ghost use Rattle.pd_placing.specs.Room.{TakesMore, HasPlaces, SameLists, IsSameButRoom};
ghost use Rattle.pd_placing.specs.Placing.{StayBut};

use pd_order::Order;
use std::alloc::AllocError;

/// An order has fewer boxes than this.
const MOST_BOXES: usize = 4_294_967_295;

/// Sets room aside for so many boxes more in the order of a canvas. What the orders tell stays, whatever the answer.
///
/// # Errors
///
/// `AllocError` where memory ran out, or where the order has as many boxes as can be counted.
pub fn reserve_place(
    orders: &mut Vec<Option<Order>>,
    canvas: u32,
    boxes: u32,
) -> Result<(), AllocError>
    requires { IsSome (order_in orders.old.items canvas) }
    ensures places { OnOk result (HasPlaces (order_in orders.new.items canvas) boxes) }
    ensures same { IsSameButRoom (order_in orders.old.items canvas) (order_in orders.new.items canvas) }
    ensures others { StayBut orders.old.items orders.new.items canvas }
    ensures slots { length orders.new.items ≡ length orders.old.items }
    ensures all { (g : Grove) (l : Links) → AreOrderedBy g l orders.old.items → AreOrderedBy g l orders.new.items }
{
    reserve_in(orders.as_mut_slice(), canvas, boxes)
}

fn reserve_in(orders: &mut [Option<Order>], canvas: u32, boxes: u32) -> Result<(), AllocError>
    requires { IsSome (order_in orders.old canvas) }
    ensures places { OnOk result (HasPlaces (order_in orders.new canvas) boxes) }
    ensures same { IsSameButRoom (order_in orders.old canvas) (order_in orders.new canvas) }
    ensures others { StayBut orders.old orders.new canvas }
{
    let slot = &mut orders[canvas as usize];
    reserve_slot(slot, boxes)
}

fn reserve_slot(slot: &mut Option<Order>, boxes: u32) -> Result<(), AllocError>
    ensures places { OnOk result (HasPlaces slot.new boxes) }
    ensures same { IsSameButRoom slot.old slot.new }
{
    match slot {
        Some(order) => reserve_boxes(order, boxes),
        None => Err(AllocError),
    }
}

fn reserve_boxes(order: &mut Order, boxes: u32) -> Result<(), AllocError>
    ensures places { OnOk result (TakesMore order.new boxes) }
    ensures same { SameLists order.old order.new }
{
    if !counts(order, boxes) {
        return Err(AllocError);
    }
    order.reserve_more(boxes)
}

/// Whether so many boxes more can be counted.
fn counts(order: &Order, boxes: u32) -> bool
    ensures { result ≡ true → length order.now.spots + boxes < nowhere }
{
    order.laws();
    let listed = order.chain().len().saturating_add(order.stuck().len());
    listed.saturating_add(boxes as usize) < MOST_BOXES
}

/// Sets a place aside for the order of each canvas whose key is below `end`. What the orders tell stays, whatever the answer.
///
/// # Errors
///
/// `AllocError` where memory ran out.
#[tactic(auto, using(crate::proofs::PlaceLemmas::none_more))]
pub fn reserve_orders(orders: &mut Vec<Option<Order>>, end: usize) -> Result<(), AllocError>
    ensures slots { OnOk result (end ≤ length orders.new.items) }
    ensures same { (c : ℕ) → order_in orders.new.items c ≡ order_in orders.old.items c }
    ensures longer { length orders.old.items ≤ length orders.new.items }
{
    for _ in orders.len()..end {
        orders.push(None)?;
    }
    Ok(())
}
