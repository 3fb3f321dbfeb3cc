//! Room for the box around where a port of it moves, and for the wires at that port.

ghost use Rattle.std.specs.Prelude.{◌≡◌, length, IfOk, IfSome};
ghost use Rattle.pd_grove.specs.declared.ports.Side.TheVariants.{Outlets};
ghost use Rattle.pd_web.specs.Hops.{fan_hops};
ghost use Rattle.pd_wiring.specs.Changes.{SameButRoom};
ghost use Rattle.pd_sliding.specs.Room.{TakesRoute};

use crate::room::PortRoute;
use pd_grove::Side;
use pd_patch::Patch;
use pd_ports::reserve_ports;
use pd_web::{Spot, Web};
use std::alloc::{AllocError, Global};

/// Sets room aside for the box around to get its ports when the port box of the key, which is this port of it, moves. All that the patch tells stays,
/// whatever the answer.
///
/// # Errors
///
/// `AllocError` where memory ran out.
pub fn reserve_route(
    alloc: Global,
    patch: &mut Patch,
    key: u32,
    port: Spot,
) -> Result<PortRoute, AllocError>
    ensures same { SameButRoom patch.old patch.new }
    ensures key { IfOk result (λ route. route.key ≡ key) }
    ensures port { IfOk result (λ route. route.port ≡ port) }
    ensures room { IfOk result (λ route. TakesRoute patch.new route) }
{
    let Some(wires) = wires_to_hold(&patch.web, port) else {
        return Err(AllocError);
    };
    let Some(ends) = wires.checked_add(wires) else {
        return Err(AllocError);
    };
    let lines = Vec::with_capacity(alloc, wires)?;
    let keys = patch.grove.nodes_end();
    let inlets = patch.web.inlets_at(port.node);
    let outlets = patch.web.outlets_at(port.node);
    patch.web.reserve(alloc, 0, ends, 0)?;
    let around = reserve_ports(&mut patch.web, alloc, keys, inlets, outlets)?;
    Ok(PortRoute {
        key,
        port,
        around,
        lines,
    })
}

/// How many wires are out while a port moves: those of an outlet.
fn wires_to_hold(web: &Web, port: Spot) -> Option<usize>
    ensures { IfSome result (λ n. port.side ≡ Outlets → n ≡ length (fan_hops web.now port.node port.port)) }
{
    match port.side {
        Side::Inlets => Some(0),
        Side::Outlets => fan_count(web, port.node, port.port),
    }
}

/// How many wires come from an outlet.
fn fan_count(web: &Web, node: u32, outlet: u32) -> Option<usize>
    ensures { IfSome result (λ n. n ≡ length (fan_hops web.now node outlet)) }
{
    let mut count: usize = 0;
    let mut next = web.fan_first(node, outlet);
    while let Some(hop) = next {
        count = count.checked_add(1)?;
        next = web.fan_next(hop);
    }
    Some(count)
}
