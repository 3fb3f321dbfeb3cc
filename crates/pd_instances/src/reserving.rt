//! Room for a box that comes with all that lies in it, set aside in every layer.

ghost use Rattle.std.specs.Prelude.{◌≡◌, ◌∷◌, ◌+◌, ◌*◌, ◌<◌, ◌^◌, ℕ, length, IsSome, IfOk, OnOk};
ghost use Rattle.slab.specs.Slab.{ContainsKey};
ghost use Rattle.pd_tree.specs.Trees.{stands_in};
ghost use Rattle.pd_grove.specs.Planting.{seeds_in};
ghost use Rattle.pd_grove.specs.States.{AreFresh, AreSmall};
ghost use Rattle.pd_web.specs.Canvases.{keys_at};
ghost use Rattle.pd_web.specs.Changes.{HasRoom};
ghost use Rattle.pd_patch.specs.Telling.{order_in};
ghost use Rattle.pd_boxes.specs.Room.{SameButRoom};
ghost use Rattle.pd_instances.specs.Room.{stands_for, IsOnePart, ReachesAll, TakesPart};

use crate::names::reserve_names;
use crate::needs::needs_of;
use crate::room::PartRoom;
use crate::rooms::{box_rooms, link_rooms, order_rooms, wire_count};
use pd_atom::Symbols;
use pd_boxes::{Place, reach_numbers, reach_values};
use pd_clock::Time;
use pd_grove::{Grove, Seeds};
use pd_patch::Patch;
use pd_placing::{reserve_orders, reserve_place};
use pd_tree::Row;
use std::alloc::{AllocError, Global};

/// No more boxes than this come at once.
const MOST_ROWS: usize = 4_294_966_000;

/// A canvas can have so many boxes.
const MOST_BOXES: usize = 4_294_967_295;

/// Sets room aside for a box that comes into a live canvas with all that lies in it: these rows are its boxes in text order, in which a
/// `timer` will be reset at `now`. All that the patch tells stays, whatever the answer.
///
/// # Errors
///
/// `AllocError` where memory ran out, or where the patch has as many boxes as can be counted.
pub fn reserve_part(
    alloc: Global,
    patch: &mut Patch,
    place: Place,
    rows: Vec<Row>,
    now: Time,
    symbols: &mut Symbols,
) -> Result<PartRoom, AllocError>
    requires here { ContainsKey patch.old.grove.boards place.canvas }
    requires ordered { IsSome (order_in patch.old.orders.items place.canvas) }
    requires small { AreSmall rows.items }
    requires part { IsOnePart patch.old place (stands_in rows.items) }
    ensures same { SameButRoom patch.old patch.new }
    ensures table { symbols.new ≡ symbols.old }
    ensures place { IfOk result (λ room. room.place ≡ place) }
    ensures boxes { IfOk result (λ room. stands_for room ≡ stands_in rows.items) }
    ensures fresh { IfOk result (λ room. AreFresh patch.old.rate now (room.seed ∷ seeds_in room.inside)) }
    ensures room { IfOk result (λ room. TakesPart patch.new room symbols.old) }
{
    let count = rows.len();
    if count > MOST_ROWS {
        return Err(AllocError);
    }
    let needs = needs_of(alloc, rows.as_slice())?;
    let boxes = box_rooms(alloc, &mut patch.web, &needs)?;
    let links = link_rooms(alloc, rows.as_slice())?;
    let orders = order_rooms(alloc, rows.as_slice())?;
    let wires = wire_count(rows.as_slice())?;
    reserve_names(alloc, &mut patch.names, rows.as_slice(), symbols)?;
    patch.grove.reserve(count, place.canvas)?;
    take_one_more(&patch.grove, place.canvas)?;
    reach_keys(alloc, patch, wires)?;
    reserve_place(&mut patch.orders, place.canvas, 1)?;
    let spots = Vec::with_capacity(alloc, count)?;
    let signal = Vec::with_capacity(alloc, count)?;
    let mut inside = Seeds::prepare(alloc, rows, patch.rate, now)?;
    let Some(seed) = inside.next() else {
        return Err(AllocError);
    };
    Ok(PartRoom {
        place,
        seed,
        inside,
        boxes,
        links,
        orders,
        spots,
        signal,
    })
}

/// Makes all lists by key reach the keys that boxes and canvases can have, and sets room aside for so many wires.
fn reach_keys(alloc: Global, patch: &mut Patch, wires: u32) -> Result<(), AllocError>
    ensures same { SameButRoom patch.old patch.new }
    ensures grove { patch.new.grove ≡ patch.old.grove }
    ensures names { patch.new.names ≡ patch.old.names }
    ensures reach { OnOk result ((end : ℕ) × ReachesAll patch.new end × HasRoom patch.new.web end (2 * wires) wires) }
{
    let Ok(end) = u32::try_from(patch.grove.nodes_end()) else {
        return Err(AllocError);
    };
    let wires = wires as usize;
    patch
        .web
        .reserve(alloc, end as usize, wires + wires, wires)?;
    patch.links.reach(end)?;
    reach_numbers(&mut patch.numbers, end)?;
    reach_values(alloc, &mut patch.values, end)?;
    patch.timers.reach(end)?;
    let canvases = patch.grove.boards_end();
    reserve_orders(&mut patch.orders, canvases)
}

/// Sees that a canvas has fewer boxes than can be counted.
fn take_one_more(grove: &Grove, canvas: u32) -> Result<(), AllocError>
    ensures { OnOk result (length (keys_at grove.now canvas) + 1 < 2 ^ 32) }
{
    match grove.board(canvas) {
        Some(board) if board.nodes.len() >= MOST_BOXES => Err(AllocError),
        _ => Ok(()),
    }
}
