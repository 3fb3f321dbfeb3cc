//! A box comes in with an empty canvas inside, layer by layer.

ghost use Rattle.std.specs.Prelude.{◌≡◌, ◌≢◌, ◌≤◌, ◌+◌, ℕ, Some, IsSome, length};
ghost use Rattle.slab.specs.Slab.{get, ContainsKey};
ghost use Rattle.pd_grove.specs.Telling.{inner_in};
ghost use Rattle.pd_web.specs.Canvases.{keys_at};
ghost use Rattle.pd_patch.specs.Telling.{order_in};
ghost use Rattle.pd_placing.specs.Room.{IsEmptyOrder};
ghost use Rattle.pd_boxes.specs.Put.{CanPut};
ghost use Rattle.pd_subpatches.specs.Shell.{IsShallow, IsShell, IsShellPut, ShellComesIn, TakesShell};

use pd_atom::Symbols;
use pd_boxes::{Room, number_boxes, put_blocks};
use pd_grove::Grove;
use pd_order::{Order, Steps};
use pd_owning::{bind_box, spot_at};
use pd_patch::Patch;
use pd_placing::{open_order, place_box};
use pd_ports::open_box;
use std::alloc::Global;
use std::sync::ledger::Ledger;

/// Puts a box with an empty canvas inside, for which room was set aside, into a live canvas at its number, and gives its key. The boxes
/// from that number on move back by one. Looks at signal wires are counted in `steps`.
pub fn put_shell<L: Ledger>(
    alloc: Global,
    patch: &mut Patch,
    room: Room,
    symbols: &mut Symbols,
    steps: &mut Steps<L>,
) -> u32
    requires can { CanPut patch.old }
    requires here { ContainsKey patch.old.grove.boards room.place.canvas }
    requires number { room.place.number ≤ length (keys_at patch.old.grove room.place.canvas) }
    requires shell { IsShell room.seed }
    requires shallow { IsShallow patch.old room.place }
    requires room { TakesShell patch.old room symbols.old }
    ensures put { IsShellPut patch.old patch.new symbols.old room.place room.seed result }
    ensures table { symbols.new ≡ symbols.old }
    ensures looks { steps.new ≤ steps.old + 8 }
    ensures last_looks { room.place.number ≡ length (keys_at patch.old.grove room.place.canvas) → steps.new ≡ steps.old }
{
    let canvas = room.place.canvas;
    let key = put_apart(patch, room, symbols);
    open_inside(alloc, &mut patch.orders, &patch.grove, key);
    place_box(
        &mut patch.orders,
        &patch.grove,
        &patch.links,
        canvas,
        key,
        steps,
    );
    key
}

/// Puts a box with an empty canvas inside into a live canvas in all layers but the orders, and gives its key.
fn put_apart(patch: &mut Patch, room: Room, symbols: &mut Symbols) -> u32
    requires can { CanPut patch.old }
    requires here { ContainsKey patch.old.grove.boards room.place.canvas }
    requires number { room.place.number ≤ length (keys_at patch.old.grove room.place.canvas) }
    requires shell { IsShell room.seed }
    requires shallow { IsShallow patch.old room.place }
    requires room { TakesShell patch.old room symbols.old }
    ensures comes { ShellComesIn patch.old patch.new symbols.old room.place room.seed result }
    ensures capacity { patch.new.grove.boards.capacity ≡ patch.old.grove.boards.capacity }
    ensures orders { patch.new.orders ≡ patch.old.orders }
    ensures table { symbols.new ≡ symbols.old }
{
    let Room {
        place,
        seed,
        ports,
        blocks,
        mut inside,
    } = room;
    let key = patch
        .grove
        .put_box(place.canvas, place.number, seed, &mut inside);
    open_box(&mut patch.web, &patch.grove, key, ports);
    let spot = spot_at(&patch.grove, key);
    bind_box(&mut patch.names, &patch.grove, spot, symbols);
    number_boxes(&mut patch.numbers, &patch.grove, place);
    put_blocks(&mut patch.values, key, blocks);
    key
}

/// Gives the canvas that a box holds the order of no boxes.
fn open_inside(alloc: Global, orders: &mut Vec<Option<Order>>, grove: &Grove, key: u32)
    requires live { (canvas : ℕ) → inner_in (get grove.now.nodes key) ≡ Some canvas → IsSome (get grove.now.boards canvas) }
    requires slots { grove.now.boards.capacity ≤ length orders.old.items }
    ensures empty { (canvas : ℕ) → inner_in (get grove.now.nodes key) ≡ Some canvas → IsEmptyOrder (order_in orders.new.items canvas) }
    ensures others { (canvas : ℕ) → inner_in (get grove.now.nodes key) ≢ Some canvas → order_in orders.new.items canvas ≡ order_in orders.old.items canvas }
{
    // The keys of canvases are below this.
    let end = grove.boards_end();
    if let Some(canvas) = grove.canvas_in(key) {
        open_order(alloc, orders, canvas);
    }
}
