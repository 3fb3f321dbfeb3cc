//! A box comes in, layer by layer.

ghost use Rattle.std.specs.Prelude.{◌≡◌, ◌≤◌, ◌+◌, ℕ, IsSome, length};
ghost use Rattle.slab.specs.Slab.{get, ContainsKey};
ghost use Rattle.pd_web.specs.Canvases.{keys_at};
ghost use Rattle.pd_web.specs.Changes.{HasRoom};
ghost use Rattle.pd_boxes.specs.Room.{TakesBox};
ghost use Rattle.pd_boxes.specs.Put.{CanPut, ComesIn, IsLeaf, IsNoPort, IsPut};

use crate::room::Room;
use crate::rows::{number_boxes, put_blocks};
use pd_atom::Symbols;
use pd_order::Steps;
use pd_owning::{bind_box, spot_at};
use pd_patch::Patch;
use pd_placing::place_box;
use pd_ports::open_box;
use std::sync::ledger::Ledger;

/// Puts a box, for which room was set aside, into a live canvas at its number, and gives its key. The boxes from that number on move back
/// by one. The box is no port of a box around. Looks at signal wires are counted in `steps`.
pub fn put<L: Ledger>(
    patch: &mut Patch,
    room: Room,
    symbols: &mut Symbols,
    steps: &mut Steps<L>,
) -> u32
    requires can { CanPut patch.old }
    requires here { ContainsKey patch.old.grove.boards room.place.canvas }
    requires number { room.place.number ≤ length (keys_at patch.old.grove room.place.canvas) }
    requires leaf { IsLeaf room.seed }
    requires plain { IsNoPort patch.old room.place room.seed.row.kind }
    requires room { TakesBox patch.old room symbols.old }
    ensures put { IsPut patch.old patch.new symbols.old room.place room.seed result }
    ensures table { symbols.new ≡ symbols.old }
    ensures looks { steps.new ≤ steps.old + 8 }
    ensures last_looks { room.place.number ≡ length (keys_at patch.old.grove room.place.canvas) → steps.new ≡ steps.old }
{
    let canvas = room.place.canvas;
    let key = put_apart(patch, room, symbols);
    place_box(
        &mut patch.orders,
        &patch.grove,
        &patch.links,
        canvas,
        key,
        steps,
    );
    key
}

/// Puts a box, for which room was set aside, into a live canvas in all layers but the orders, and gives its key. Where the box is a port of a box
/// around, that one is as it was.
pub fn put_apart(patch: &mut Patch, room: Room, symbols: &mut Symbols) -> u32
    requires can { CanPut patch.old }
    requires here { ContainsKey patch.old.grove.boards room.place.canvas }
    requires number { room.place.number ≤ length (keys_at patch.old.grove room.place.canvas) }
    requires leaf { IsLeaf room.seed }
    requires room { TakesBox patch.old room symbols.old }
    ensures comes { ComesIn patch.old patch.new symbols.old room.place room.seed result }
    ensures orders { patch.new.orders ≡ patch.old.orders }
    ensures near { (k : ℕ) → IsSome (get patch.new.grove.nodes k) → HasRoom patch.new.web (k + 1) 0 0 }
    ensures table { symbols.new ≡ symbols.old }
{
    let Room {
        place,
        seed,
        ports,
        blocks,
        mut inside,
    } = room;
    let key = patch
        .grove
        .put_box(place.canvas, place.number, seed, &mut inside);
    open_box(&mut patch.web, &patch.grove, key, ports);
    let spot = spot_at(&patch.grove, key);
    bind_box(&mut patch.names, &patch.grove, spot, symbols);
    number_boxes(&mut patch.numbers, &patch.grove, place);
    put_blocks(&mut patch.values, key, blocks);
    key
}
