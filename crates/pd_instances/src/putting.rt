//! A box comes in, layer by layer, with all that lies in it.

ghost use Rattle.std.specs.Prelude.{◌≡◌, ◌<◌, ◌≤◌, [], ℕ, Bool, length, slice_get, vec_capacity, vec_len, Some};
ghost use Rattle.slab.specs.Slab.{get, ContainsKey};
ghost use Rattle.pd_grove.specs.Forest.{IsForest};
ghost use Rattle.pd_grove.specs.Owning.{board_in};
ghost use Rattle.pd_grove.specs.Standing.{depth_of};
ghost use Rattle.pd_grove.specs.TextOrder.{keys_of_spots, spot, spots_in_order};
ghost use Rattle.pd_owning.specs.Parts.{part_keys, part_spots};
ghost use Rattle.pd_grove.specs.Planting.{seeds_in};
ghost use Rattle.pd_web.specs.Canvases.{keys_at};
ghost use Rattle.pd_boxes.specs.Put.{CanPut, IsNoPort};
ghost use Rattle.pd_instances.specs.Part.{IsPartPut};
ghost use Rattle.pd_instances.specs.Room.{TakesPart};

use crate::linking::{lay_part, open_links};
use crate::numbering::number_all;
use crate::opening::open_all;
use crate::ordering::order_all;
use crate::room::PartRoom;
use crate::spots::push_box;
use pd_atom::Symbols;
use pd_boxes::number_boxes;
use pd_grove::{Grove, Spot};
use pd_order::Steps;
use pd_owning::{bind_boxes, spot_at};
use pd_patch::Patch;
use pd_placing::place_box;
use pd_ports::port_boxes_are_known;
use std::sync::ledger::Ledger;

/// So many canvases may lie in the root.
const MOST_LEVELS: u32 = 256;

/// A box that came, and the keys of all boxes that came with it, in text order.
#[derive(Drop)]
pub struct NewPart {
    pub key: u32,
    pub keys: Vec<u32>,
}

/// Puts a box with all that lies in it, for which room was set aside, into a live canvas at its number, and gives the keys. The boxes from that
/// number on move back by one. The box is no port of a box around. Looks at signal wires are counted in `steps`. No memory is taken.
pub fn put_part<L: Ledger>(
    patch: &mut Patch,
    room: PartRoom,
    symbols: &mut Symbols,
    steps: &mut Steps<L>,
) -> NewPart
    requires can { CanPut patch.old }
    requires here { ContainsKey patch.old.grove.boards room.place.canvas }
    requires number { room.place.number ≤ length (keys_at patch.old.grove room.place.canvas) }
    requires plain { IsNoPort patch.old room.place room.seed.row.kind }
    requires room { TakesPart patch.old room symbols.old }
    ensures put { IsPartPut patch.old patch.new symbols.old room.place room.seed (seeds_in room.inside) result.key steps.old steps.new }
    ensures keys { result.keys.items ≡ part_keys (get patch.new.grove.nodes) (get patch.new.grove.boards) result.key }
    ensures table { symbols.new ≡ symbols.old }
{
    port_boxes_are_known();
    let PartRoom {
        place,
        seed,
        mut inside,
        mut boxes,
        mut links,
        mut orders,
        mut spots,
        mut signal,
    } = room;
    let key = patch
        .grove
        .put_box(place.canvas, place.number, seed, &mut inside);
    keys_are_low(&patch.grove);
    tell_part(&patch.grove, key, place.canvas, &mut spots);
    let spots = spots.as_slice();
    open_all(
        &mut patch.web,
        &mut patch.values,
        &patch.grove,
        spots,
        &mut boxes,
    );
    bind_boxes(&mut patch.names, &patch.grove, spots, symbols);
    number_boxes(&mut patch.numbers, &patch.grove, place);
    number_all(&mut patch.numbers, &patch.grove, spots);
    place_box(
        &mut patch.orders,
        &patch.grove,
        &patch.links,
        place.canvas,
        key,
        steps,
    );
    open_links(&mut patch.links, &patch.grove, spots, &mut links);
    lay_part(&mut patch.web, &mut patch.links, &patch.grove, spots);
    patch.web.laws();
    order_all(
        &mut patch.orders,
        &patch.grove,
        &patch.links,
        spots,
        &mut orders,
        &mut signal,
        steps,
    );
    list_keys(spots, &mut signal);
    NewPart { key, keys: signal }
}

/// Makes a list that has room that of the keys of some boxes.
fn list_keys(spots: &[Spot], keys: &mut Vec<u32>)
    requires room { length spots.now ≤ vec_capacity keys.old }
    ensures { keys.new.items ≡ keys_of_spots spots.now }
{
    keys.clear();
    for spot in spots {
        keys.push_reserved(spot.node);
    }
}

/// Adds a box of a canvas and all boxes that lie in it, in text order, to an empty list that has room.
fn tell_part(grove: &Grove, key: u32, canvas: u32, spots: &mut Vec<Spot>)
    requires forest { IsForest (get grove.now.nodes) (get grove.now.boards) grove.now.root }
    requires lies { board_in (get grove.now.nodes key) ≡ Some canvas }
    requires none { spots.old.items ≡ [] }
    requires empty { vec_len spots.old ≡ 0 }
    requires room { (top : Bool) → length (part_spots (get grove.now.nodes) (get grove.now.boards) (spot top key)) ≤ vec_capacity spots.old }
    ensures { (top : Bool) × (spots.new.items ≡ part_spots (get grove.now.nodes) (get grove.now.boards) (spot top key)) × (i : ℕ) × (slice_get (spots_in_order grove.now) i ≡ Some (spot top key)) }
{
    let at = spot_at(grove, key);
    let levels = MOST_LEVELS.saturating_sub(depth_at(grove, canvas));
    push_box(grove, key, at.is_top, levels, spots);
}

/// In how many canvases a canvas lies.
fn depth_at(grove: &Grove, canvas: u32) -> u32
    ensures { result ≡ depth_of (get grove.now.boards canvas) }
{
    match grove.board(canvas) {
        Some(board) => board.depth,
        None => 0,
    }
}

/// The keys of boxes and canvases are below the room that there is for them. It does nothing.
fn keys_are_low(grove: &Grove)
    ensures boxes { (k : ℕ) → ContainsKey grove.now.nodes k → k < grove.now.nodes.capacity }
    ensures canvases { (c : ℕ) → ContainsKey grove.now.boards c → c < grove.now.boards.capacity }
{
    let boxes = grove.nodes_end();
    let canvases = grove.boards_end();
}
