//! A port box goes, layer by layer, and the box around loses its port.

ghost use Rattle.std.specs.Prelude.{◌≡◌, ◌<◌, ◌+◌, length, None, Some, slice_get};
ghost use Rattle.slab.specs.Slab.{get};
ghost use Rattle.pd_grove.specs.Telling.{inner_in};
ghost use Rattle.pd_web.specs.Canvases.{keys_at};
ghost use Rattle.pd_web.specs.Changes.{wires_told, HasRoom, KeepsRoom, Meet};
ghost use Rattle.pd_ports.specs.Boxes.{HasNoWires};
ghost use Rattle.pd_ports.specs.Known.{KnowsHomes};
ghost use Rattle.pd_placing.specs.Placing.{LacksBox};
ghost use Rattle.pd_boxes.specs.Put.{CanPut};
ghost use Rattle.pd_leaving.specs.Leaving.{CanTakePort, GoesOut, IsPortTaken};
ghost use Rattle.pd_leaving.specs.Room.{TakesLoss};
ghost use Rattle.pd_leaving.specs.Wires.{port_wires};

use crate::leaving::{leave_blocks, leave_port};
use crate::room::PortLoss;
use pd_atom::Symbols;
use pd_boxes::{Place, put_blocks};
use pd_clearing::lower_numbers;
use pd_misfits::{BoxWire, loosen_wires};
use pd_order::Steps;
use pd_owning::{spot_at, unbind_box};
use pd_patch::Patch;
use pd_placing::displace_box;
use pd_ports::{close_box, port_boxes_are_known, port_boxes_stay_known, wires_still_meet};
use pd_taking::loosen;
use std::alloc::Global;
use std::sync::ledger::Ledger;

/// The wires at the port that a port box was, in their order, which went with it, and how many wires are left.
#[derive(Drop)]
pub struct TakenPort {
    pub gone: Vec<BoxWire>,
    pub left: usize,
}

/// Takes the port box of a place out of its canvas, with the port that it is and with all wires at both. `loss` tells its key, the port and
/// the wires at it, and `wires` is how many wires there are. Looks at signal wires are counted in `steps`.
pub fn take_port<L: Ledger>(
    patch: &mut Patch,
    alloc: Global,
    place: Place,
    loss: PortLoss,
    wires: usize,
    symbols: &mut Symbols,
    steps: &mut Steps<L>,
) -> TakenPort
    requires can { CanTakePort patch.old place loss.key loss.port.node loss.port.side loss.port.port }
    requires room { TakesLoss patch.old loss }
    requires counted { wires ≡ wires_told patch.old.web }
    ensures taken { IsPortTaken patch.old patch.new symbols.old place loss.key loss.port.node loss.port.side loss.port.port steps.old steps.new }
    ensures gone { result.gone.items ≡ port_wires patch.old loss.port.node loss.port.side loss.port.port }
    ensures left { result.left ≡ wires_told patch.new.web }
    ensures table { symbols.new ≡ symbols.old }
{
    port_boxes_are_known();
    wires_still_meet();
    let PortLoss {
        key,
        port,
        wires: gone,
        around,
        blocks,
    } = loss;
    let left = loosen_wires(patch, port.node, gone.as_slice(), wires, steps);
    let left = loosen(patch, key, left, steps);
    take_out(patch, alloc, place, key, symbols);
    leave_port(&mut patch.web, &patch.grove, port.node, port.side, around);
    leave_blocks(&mut patch.values, port.side, port.node, blocks);
    TakenPort { gone, left }
}

/// Takes a box without wires and without a canvas inside out of every layer but that of the ports of other boxes.
fn take_out(patch: &mut Patch, alloc: Global, place: Place, key: u32, symbols: &mut Symbols)
    requires can { CanPut patch.old }
    requires is { slice_get (keys_at patch.old.grove place.canvas) place.number ≡ Some key }
    requires leaf { inner_in (get patch.old.grove.nodes key) ≡ None }
    requires meet { Meet patch.old.web }
    requires bare { HasNoWires patch.old.web key }
    requires reached { key < length patch.old.values.items }
    requires near { HasRoom patch.old.web (key + 1) 0 0 }
    ensures out { GoesOut patch.old patch.new symbols.old place key }
    ensures known { KnowsHomes patch.new.web }
    ensures lacks { LacksBox patch.old.grove patch.old.links patch.new.orders.items place.canvas key }
    ensures room { KeepsRoom patch.old.web patch.new.web }
    ensures table { symbols.new ≡ symbols.old }
{
    port_boxes_are_known();
    port_boxes_stay_known();
    let spot = spot_at(&patch.grove, key);
    displace_box(
        &mut patch.orders,
        &patch.grove,
        &patch.links,
        place.canvas,
        key,
    );
    unbind_box(&mut patch.names, &patch.grove, spot, symbols);
    patch.timers.clear(key);
    patch.grove.take_box(place.canvas, place.number);
    close_box(&mut patch.web, alloc, key);
    put_blocks(&mut patch.values, key, Vec::new(alloc));
    lower_numbers(&mut patch.numbers, &patch.grove, place);
}
