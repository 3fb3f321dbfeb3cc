//! A port box comes in, layer by layer, and the box around gets its port.

ghost use Rattle.std.specs.Prelude.{◌≡◌, ◌≤◌, ◌+◌, length};
ghost use Rattle.slab.specs.Slab.{ContainsKey};
ghost use Rattle.pd_web.specs.Canvases.{keys_at};
ghost use Rattle.pd_following.specs.Ports.{CanPutPort, IsPortPut};
ghost use Rattle.pd_following.specs.Room.{TakesPort};

use crate::following::{follow_blocks, follow_port};
use crate::room::PortBoxRoom;
use pd_atom::Symbols;
use pd_boxes::put_apart;
use pd_order::Steps;
use pd_patch::Patch;
use pd_placing::place_box;
use pd_ports::{port_boxes_are_known, wires_still_meet};
use std::sync::ledger::Ledger;

/// Puts a port box, for which room was set aside, into a live canvas in a box at its number, and gives its key. The boxes from that number
/// on move back by one, and so do the ports of the box around from the new one's place on, with their wires. Looks at signal wires are
/// counted in `steps`.
pub fn put_port<L: Ledger>(
    patch: &mut Patch,
    room: PortBoxRoom,
    symbols: &mut Symbols,
    steps: &mut Steps<L>,
) -> u32
    requires can { CanPutPort patch.old room.own.place room.own.seed room.holder room.side }
    requires here { ContainsKey patch.old.grove.boards room.own.place.canvas }
    requires number { room.own.place.number ≤ length (keys_at patch.old.grove room.own.place.canvas) }
    requires room { TakesPort patch.old room symbols.old }
    ensures put { IsPortPut patch.old patch.new symbols.old room.own.place room.own.seed result room.holder room.side }
    ensures table { symbols.new ≡ symbols.old }
    ensures looks { steps.new ≤ steps.old + 8 }
    ensures last_looks { room.own.place.number ≡ length (keys_at patch.old.grove room.own.place.canvas) → steps.new ≡ steps.old }
{
    port_boxes_are_known();
    wires_still_meet();
    let PortBoxRoom {
        own,
        holder,
        side,
        around,
        blocks,
    } = room;
    let canvas = own.place.canvas;
    let key = put_apart(patch, own, symbols);
    follow_port(&mut patch.web, &patch.grove, holder, side, around);
    follow_blocks(&mut patch.values, side, holder, blocks);
    place_box(
        &mut patch.orders,
        &patch.grove,
        &patch.links,
        canvas,
        key,
        steps,
    );
    key
}
