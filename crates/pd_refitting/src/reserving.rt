//! Room for what a box becomes, set aside in every layer that needs some.

ghost use Rattle.std.specs.Prelude.{◌≡◌, None, Some, IsSome, IfOk, nat_lt, if◌then◌else◌};
ghost use Rattle.slab.specs.Slab.{get, ContainsKey};
ghost use Rattle.pd_object.specs.Ports.{IsSmallKind};
ghost use Rattle.pd_grove.specs.declared.nodes.Node.{Node};
ghost use Rattle.pd_bind.specs.Owning.{root_owner};
ghost use Rattle.pd_patch.specs.Telling.{order_in};
ghost use Rattle.pd_boxes.specs.Room.{SameButRoom};
ghost use Rattle.pd_refitting.specs.Room.{IsFor, TakesRefit};

use crate::refitting::canvas_of;
use crate::room::RefitRoom;
use pd_atom::Symbols;
use pd_bind::name_of_row;
use pd_boxes::{reach_values, silent_blocks};
use pd_grove::Seed;
use pd_kind::{PortList, ports};
use pd_owning::reserve_owner;
use pd_patch::Patch;
use pd_placing::reserve_place;
use pd_ports::reserve_ports;
use std::alloc::{AllocError, Global};

/// Sets room aside, so that the live box of a key can become that of a seed. All that the patch tells stays, whatever the answer.
///
/// # Errors
///
/// `AllocError` where memory ran out, or where the name that the new box owns has as many owners, or its canvas as many boxes in its order,
/// as can be counted.
pub fn reserve_refit(
    alloc: Global,
    patch: &mut Patch,
    key: u32,
    seed: Seed,
    symbols: &mut Symbols,
) -> Result<RefitRoom, AllocError>
    requires here { ContainsKey patch.old.grove.nodes key }
    requires apart { get patch.old.grove.nodes root_owner ≡ None }
    requires ordered { (n : Node) → get patch.old.grove.nodes key ≡ Some n → IsSome (order_in patch.old.orders.items n.board) }
    requires small { IsSmallKind seed.row.kind }
    ensures same { SameButRoom patch.old patch.new }
    ensures table { symbols.new ≡ symbols.old }
    ensures refits { IfOk result (λ room. IsFor room key seed) }
    ensures room { IfOk result (λ room. TakesRefit patch.new room symbols.old) }
{
    let list = ports(&seed.row.kind);
    let count = block_count_of(&list);
    let blocks = silent_blocks(alloc, count)?;
    let owned = name_of_row(&seed.row, true, symbols);
    let end = patch.grove.nodes_end();
    let inlet_count = list.inlets();
    let outlet_count = list.outlets();
    let ports = reserve_ports(&mut patch.web, alloc, end, inlet_count, outlet_count)?;
    reserve_owner(&mut patch.names, owned, 1)?;
    reach_values(alloc, &mut patch.values, key + 1)?;
    let canvas = canvas_of(&patch.grove, key);
    reserve_place(&mut patch.orders, canvas, 1)?;
    Ok(RefitRoom {
        key,
        seed,
        ports,
        blocks,
    })
}

/// How many blocks a box with these ports has: one for each outlet, where the first carries signals.
fn block_count_of(list: &PortList) -> u32
    ensures { result ≡ (if nat_lt 0 list.now.signal_outlets then list.now.outlets else 0) }
{
    if list.outlet_signal(0) {
        list.outlets()
    } else {
        0
    }
}
