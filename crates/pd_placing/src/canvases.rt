//! The order of a canvas that has come, or has gone.

ghost use Rattle.std.specs.Prelude.{◌≡◌, ◌<◌, ℕ, [], None, length};
ghost use Rattle.pd_links.specs.declared.links.Links.{Links};
ghost use Rattle.pd_grove.specs.declared.grove.Grove.{Grove};
ghost use Rattle.pd_web.specs.Canvases.{keys_at};
ghost use Rattle.pd_patch.specs.Telling.{order_in};
ghost use Rattle.pd_wiring.specs.Graphs.{canvas_graph, signal_boxes, IsOrderIn};
ghost use Rattle.pd_placing.specs.Room.{IsEmptyOrder};
ghost use Rattle.pd_placing.specs.Placing.{StayBut};

use pd_order::Order;
use std::alloc::Global;

/// Gives a canvas the order of no boxes. It takes no memory.
pub fn open_order(alloc: Global, orders: &mut Vec<Option<Order>>, canvas: u32)
    requires slot { canvas < length orders.old.items }
    ensures empty { IsEmptyOrder (order_in orders.new.items canvas) }
    ensures order { (g : Grove) (l : Links) → keys_at g canvas ≡ [] → IsOrderIn (canvas_graph g l canvas) (signal_boxes g canvas) (order_in orders.new.items canvas) }
    ensures others { StayBut orders.old.items orders.new.items canvas }
    ensures slots { length orders.new.items ≡ length orders.old.items }
{
    let order = Order::new(alloc).unwrap();
    orders[canvas as usize] = Some(order);
}

/// Takes the order of a canvas away, if it has one.
pub fn close_order(orders: &mut Vec<Option<Order>>, canvas: u32)
    ensures none { order_in orders.new.items canvas ≡ None }
    ensures others { StayBut orders.old.items orders.new.items canvas }
    ensures slots { length orders.new.items ≡ length orders.old.items }
{
    if (canvas as usize) < orders.len() {
        orders[canvas as usize] = None;
    }
}
