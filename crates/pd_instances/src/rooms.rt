//! Room for boxes that come, one for each box or canvas of a list in text order.

ghost use Rattle.std.specs.Prelude.{◌≡◌, ◌≢◌, ◌<◌, ◌≤◌, ◌+◌, ◌^◌, ◌++◌, [], ℕ, List, map, length, replicate, slice_get, Some, IfOk, OnOk};
ghost use Rattle.std.specs.List.{AllZip};
ghost use Rattle.pd_tree.specs.Trees.{stands_in};
ghost use Rattle.pd_web.specs.Changes.{IsSame, KeepsRoom};
ghost use Rattle.pd_placing.specs.Room.{TakesMore};
ghost use Rattle.pd_instances.specs.Needs.{inside_of, inside_with, insides_of, wires_all, AreLinkRooms, AreRoomsFor, Inside, IsLinkRoom, IsOrderRoom, IsRoomFor};

use crate::needs::Need;
use crate::room::BoxRoom;
use pd_boxes::silent_blocks;
use pd_canvas::Wire;
use pd_links::LinkRoom;
use pd_order::Order;
use pd_ports::reserve_ports;
use pd_tree::Row;
use pd_web::Web;
use std::alloc::{AllocError, Global};
use std::collections::VecDeque;

/// An order has fewer boxes than this, and a canvas that comes has fewer wires.
const MOST: usize = 4_294_967_290;

/// Room for boxes that need this.
///
/// # Errors
///
/// `AllocError` where memory ran out.
pub(crate) fn box_rooms(
    alloc: Global,
    web: &mut Web,
    needs: &VecDeque<Need>,
) -> Result<VecDeque<BoxRoom>, AllocError>
    ensures same { IsSame web.old web.new }
    ensures kept { KeepsRoom web.old web.new }
    ensures rooms { IfOk result (λ rooms. AreRoomsFor needs.now.items rooms.items) }
{
    let mut rooms = VecDeque::with_capacity(alloc, needs.len())?;
    for i in 0..needs.len() {
        let room = box_room(alloc, web, needs[i])?;
        rooms.push_back(room)?;
    }
    Ok(rooms)
}

/// Room for a box that needs this.
fn box_room(alloc: Global, web: &mut Web, need: Need) -> Result<BoxRoom, AllocError>
    ensures same { IsSame web.old web.new }
    ensures kept { KeepsRoom web.old web.new }
    ensures room { IfOk result (IsRoomFor need) }
{
    let blocks = silent_blocks(alloc, need.blocks)?;
    let ports = reserve_ports(web, alloc, 0, need.inlets, need.outlets)?;
    Ok(BoxRoom { ports, blocks })
}

/// For each canvas that one of these boxes holds, room for the signal wires of its boxes.
///
/// # Errors
///
/// `AllocError` where memory ran out, or where a canvas has more wires than can be counted.
pub(crate) fn link_rooms(alloc: Global, rows: &[Row]) -> Result<VecDeque<Vec<LinkRoom>>, AllocError>
    ensures { IfOk result (λ rooms. AllZip AreLinkRooms (insides_of (stands_in rows.now)) (map (λ v. v.items) rooms.items)) }
{
    let mut rooms = VecDeque::new(alloc);
    for row in rows {
        add_link_rooms(alloc, row, &mut rooms)?;
    }
    Ok(rooms)
}

/// Adds the room for the signal wires of the boxes of the canvas that a box holds, where it holds one.
fn add_link_rooms(
    alloc: Global,
    row: &Row,
    rooms: &mut VecDeque<Vec<LinkRoom>>,
) -> Result<(), AllocError>
    ensures { OnOk result ((insides : List Inside) → AllZip AreLinkRooms insides (map (λ v. v.items) rooms.old.items) →
        AllZip AreLinkRooms (insides ++ inside_of row.now.sheet row.now.boxes) (map (λ v. v.items) rooms.new.items)) }
{
    let Some(sheet) = &row.sheet else {
        return Ok(());
    };
    let inside = rooms_inside(alloc, sheet.wires.as_slice(), row.boxes)?;
    rooms.push_back(inside)?;
    Ok(())
}

/// For each box of a canvas room for its signal wires, as many as there are wires at it.
fn rooms_inside(alloc: Global, wires: &[Wire], boxes: u32) -> Result<Vec<LinkRoom>, AllocError>
    ensures { IfOk result (λ rooms. AreLinkRooms (inside_with wires.now boxes) rooms.items) }
{
    if wires.len() > MOST {
        return Err(AllocError);
    }
    let mut from = zeros(alloc, boxes)?;
    let mut into = zeros(alloc, boxes)?;
    for wire in wires {
        count_at(&mut from, wire.source)?;
        count_at(&mut into, wire.sink)?;
    }
    let mut rooms = Vec::with_capacity(alloc, boxes as usize)?;
    for i in 0..from.len() {
        let room = link_room(alloc, from[i], into[i])?;
        rooms.push(room)?;
    }
    Ok(rooms)
}

/// So many zeros.
fn zeros(alloc: Global, count: u32) -> Result<Vec<u32>, AllocError>
    ensures { IfOk result (λ zeros. zeros.items ≡ replicate count 0) }
{
    let mut zeros = Vec::with_capacity(alloc, count as usize)?;
    for _ in 0..count {
        zeros.push(0)?;
    }
    Ok(zeros)
}

/// Counts one more at a number, where it is one of the list.
fn count_at(counts: &mut Vec<u32>, number: u32) -> Result<(), AllocError>
    ensures others { (i : ℕ) → i ≢ number → slice_get counts.new.items i ≡ slice_get counts.old.items i }
    ensures here { (n : ℕ) → slice_get counts.old.items number ≡ Some n → OnOk result (slice_get counts.new.items number ≡ Some (n + 1)) }
    ensures all { length counts.new.items ≡ length counts.old.items }
{
    let i = number as usize;
    if i >= counts.len() {
        return Ok(());
    }
    let Some(more) = counts[i].checked_add(1) else {
        return Err(AllocError);
    };
    counts[i] = more;
    Ok(())
}

/// Room for so many signal wires from a box, and to it.
fn link_room(alloc: Global, from: u32, into: u32) -> Result<LinkRoom, AllocError>
    ensures { IfOk result (IsLinkRoom from into) }
{
    let into = Vec::with_capacity(alloc, into as usize)?;
    let from = Vec::with_capacity(alloc, from as usize)?;
    Ok(LinkRoom { into, from })
}

/// For each canvas that one of these boxes holds, an order with room for its boxes.
///
/// # Errors
///
/// `AllocError` where memory ran out, or where a canvas has more boxes than can be counted.
pub(crate) fn order_rooms(alloc: Global, rows: &[Row]) -> Result<VecDeque<Order>, AllocError>
    ensures { IfOk result (λ orders. AllZip IsOrderRoom (insides_of (stands_in rows.now)) orders.items) }
{
    let mut orders = VecDeque::new(alloc);
    for row in rows {
        add_order_room(alloc, row, &mut orders)?;
    }
    Ok(orders)
}

/// Adds an order with room for the boxes of the canvas that a box holds, where it holds one.
fn add_order_room(alloc: Global, row: &Row, orders: &mut VecDeque<Order>) -> Result<(), AllocError>
    ensures { OnOk result ((insides : List Inside) → AllZip IsOrderRoom insides orders.old.items →
        AllZip IsOrderRoom (insides ++ inside_of row.now.sheet row.now.boxes) orders.new.items) }
{
    if row.sheet.is_none() {
        return Ok(());
    }
    let order = order_room(alloc, row.boxes)?;
    orders.push_back(order)?;
    Ok(())
}

/// An order with room for so many boxes.
fn order_room(alloc: Global, boxes: u32) -> Result<Order, AllocError>
    ensures { IfOk result (λ order. (order.chain ≡ []) × (order.stuck ≡ []) × (order.spots ≡ []) × TakesMore order boxes) }
{
    if boxes as usize > MOST {
        return Err(AllocError);
    }
    let mut order = Order::new(alloc)?;
    order.reserve_more(boxes)?;
    Ok(order)
}

/// How many wires the canvases have that these boxes hold, whether they fit or not.
///
/// # Errors
///
/// `AllocError` where there are more than can be counted.
pub(crate) fn wire_count(rows: &[Row]) -> Result<u32, AllocError>
    ensures { IfOk result (λ count. count ≡ wires_all (insides_of (stands_in rows.now))) }
{
    let mut count: u32 = 0;
    for row in rows {
        count = add_wires(count, row)?;
    }
    Ok(count)
}

fn add_wires(count: u32, row: &Row) -> Result<u32, AllocError>
    ensures { IfOk result (λ all. all ≡ count + wires_all (inside_of row.now.sheet row.now.boxes)) }
{
    let Some(sheet) = &row.sheet else {
        return Ok(count);
    };
    let Ok(more) = u32::try_from(sheet.wires.as_slice().len()) else {
        return Err(AllocError);
    };
    match count.checked_add(more) {
        Some(all) => Ok(all),
        None => Err(AllocError),
    }
}
