//! Room for a box that comes, set aside in every layer.

ghost use Rattle.std.specs.Prelude.{◌≡◌, [], IsSome, IfOk, nat_lt, if◌then◌else◌};
ghost use Rattle.slab.specs.Slab.{ContainsKey};
ghost use Rattle.pd_object.specs.Ports.{IsSmallKind};
ghost use Rattle.pd_grove.specs.Planting.{seeds_in};
ghost use Rattle.pd_patch.specs.Telling.{order_in};
ghost use Rattle.pd_boxes.specs.Room.{IsFor, SameButRoom, TakesBox};

use crate::ends::{keys_end, take_one_more};
use crate::room::{Place, Room};
use crate::rows::{reach_numbers, reach_values, silent_blocks};
use pd_atom::Symbols;
use pd_bind::name_of_row;
use pd_clock::{Rate, Time};
use pd_grove::{Seed, Seeds};
use pd_kind::{PortList, ports};
use pd_owning::reserve_owner;
use pd_patch::Patch;
use pd_placing::reserve_place;
use pd_ports::reserve_ports;
use std::alloc::{AllocError, Global};

/// Sets room aside for a box of a seed that comes into a live canvas. All that the patch tells stays, whatever the answer.
///
/// # Errors
///
/// `AllocError` where memory ran out, or where the patch has as many boxes as can be counted.
pub fn reserve_box(
    alloc: Global,
    patch: &mut Patch,
    place: Place,
    seed: Seed,
    symbols: &mut Symbols,
) -> Result<Room, AllocError>
    requires here { ContainsKey patch.old.grove.boards place.canvas }
    requires ordered { IsSome (order_in patch.old.orders.items place.canvas) }
    requires small { IsSmallKind seed.row.kind }
    ensures same { SameButRoom patch.old patch.new }
    ensures table { symbols.new ≡ symbols.old }
    ensures comes { IfOk result (λ room. IsFor room place seed) }
    ensures room { IfOk result (λ room. TakesBox patch.new room symbols.old) }
{
    let list = ports(&seed.row.kind);
    let count = block_count_of(&list);
    let blocks = silent_blocks(alloc, count)?;
    let inside = no_seeds(alloc, patch.rate)?;
    let owned = name_of_row(&seed.row, true, symbols);
    patch.grove.reserve(1, place.canvas)?;
    take_one_more(&patch.grove, place.canvas)?;
    let end = keys_end(&patch.grove)?;
    let inlet_count = list.inlets();
    let outlet_count = list.outlets();
    let ports = reserve_ports(
        &mut patch.web,
        alloc,
        end as usize,
        inlet_count,
        outlet_count,
    )?;
    reserve_owner(&mut patch.names, owned, 1)?;
    reach_numbers(&mut patch.numbers, end)?;
    reach_values(alloc, &mut patch.values, end)?;
    patch.timers.reach(end)?;
    reserve_place(&mut patch.orders, place.canvas, 1)?;
    Ok(Room {
        place,
        seed,
        ports,
        blocks,
        inside,
    })
}

/// How many blocks a box with these ports has: one for each outlet, where the first carries signals.
fn block_count_of(list: &PortList) -> u32
    ensures { result ≡ (if nat_lt 0 list.now.signal_outlets then list.now.outlets else 0) }
{
    if list.outlet_signal(0) {
        list.outlets()
    } else {
        0
    }
}

/// No seeds, for a box in which nothing lies.
fn no_seeds(alloc: Global, rate: Rate) -> Result<Seeds, AllocError>
    ensures { IfOk result (λ seeds. seeds_in seeds ≡ []) }
{
    let rows = Vec::new(alloc);
    let seeds = Seeds::prepare(alloc, rows, rate, Time::of_units(0))?;
    Ok(seeds)
}
