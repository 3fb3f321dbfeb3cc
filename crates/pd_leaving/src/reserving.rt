//! Room for the box around where a port of it goes, and the wires at that port.

ghost use Rattle.std.specs.Prelude.{◌≡◌, IfOk};
ghost use Rattle.std.specs.List.{list_any};
ghost use Rattle.pd_grove.specs.declared.ports.Side.TheVariants.{Outlets};
ghost use Rattle.pd_web.specs.Changes.{Meet};
ghost use Rattle.pd_web.specs.Hops.{ports_told};
ghost use Rattle.pd_patch.specs.Values.{block_count};
ghost use Rattle.pd_wiring.specs.Changes.{SameButRoom};
ghost use Rattle.pd_leaving.specs.Room.{TakesLoss, without_at};

use crate::listing::port_wires_at;
use crate::room::PortLoss;
use pd_boxes::silent_blocks;
use pd_patch::Patch;
use pd_ports::reserve_ports;
use pd_web::{Spot, Web};
use std::alloc::{AllocError, Global};

/// Lists the wires at the port of a box that the box of the key is, and sets room aside for the box to lose it. All that the patch tells stays, whatever the answer.
///
/// # Errors
///
/// `AllocError` where memory ran out.
pub fn reserve_loss(
    alloc: Global,
    patch: &mut Patch,
    key: u32,
    port: Spot,
) -> Result<PortLoss, AllocError>
    requires meet { Meet patch.old.web }
    ensures same { SameButRoom patch.old patch.new }
    ensures key { IfOk result (λ loss. loss.key ≡ key) }
    ensures port { IfOk result (λ loss. loss.port ≡ port) }
    ensures room { IfOk result (λ loss. TakesLoss patch.new loss) }
{
    let wires = port_wires_at(alloc, patch, port)?;
    let blocks = silent_blocks(alloc, blocks_then(&patch.web, port))?;
    let keys = patch.grove.nodes_end();
    let inlets = patch.web.inlets_at(port.node);
    let outlets = patch.web.outlets_at(port.node);
    let around = reserve_ports(&mut patch.web, alloc, keys, inlets, outlets)?;
    Ok(PortLoss {
        key,
        port,
        wires,
        around,
        blocks,
    })
}

/// How many blocks a box has where one of its outlets is gone.
fn blocks_then(web: &Web, port: Spot) -> u32
    ensures { result ≡ block_count (without_at (ports_told web.now Outlets port.node) port.port) }
{
    if !has_other_signal_outlet(web, port) {
        return 0;
    }
    let outlets = web.outlets_at(port.node);
    if port.port < outlets {
        outlets - 1
    } else {
        outlets
    }
}

/// Whether another outlet of the box than this one carries signals.
fn has_other_signal_outlet(web: &Web, port: Spot) -> bool
    ensures { result ≡ list_any (λ j. j.is_signal) (without_at (ports_told web.now Outlets port.node) port.port) }
{
    for outlet in 0..web.outlets_at(port.node) {
        if outlet != port.port && web.outlet_signal_at(port.node, outlet) {
            return true;
        }
    }
    false
}
