//! The wires of a canvas, by the numbers of its boxes.

ghost use Rattle.std.specs.Prelude.{◌≡◌, ◌++◌, ◌∷◌, [], OnOk, IfOk};
ghost use Rattle.pd_present.specs.Presents.{number_in, wire_along, outlet_wires, box_wires, wires_among};

use pd_canvas::{Wire, Wires};
use pd_web::{Hop, Web};
use std::alloc::{AllocError, Global};

/// The number under the key of a box.
fn number_of(numbers: &[u32], key: u32) -> u32
    ensures { result ≡ number_in numbers.now key }
{
    match numbers.get(key as usize) {
        Some(number) => *number,
        None => 0,
    }
}

/// The wires that leave boxes, box by box, outlet by outlet.
pub(crate) fn wires_of(
    alloc: Global,
    web: &Web,
    numbers: &[u32],
    keys: &[u32],
) -> Result<Wires, AllocError>
    ensures { IfOk result (λ w. w ≡ wires_among web.now numbers.now keys.now) }
{
    let mut wires = Vec::new(alloc);
    for key in keys {
        push_box_wires(web, numbers, *key, &mut wires)?;
    }
    Ok(Wires::from_vec(wires))
}

fn push_box_wires(
    web: &Web,
    numbers: &[u32],
    key: u32,
    wires: &mut Vec<Wire>,
) -> Result<(), AllocError>
    ensures { OnOk result (wires.new.items ≡ wires.old.items ++ box_wires web.now numbers.now key) }
{
    for outlet in 0..web.outlets_at(key) {
        push_outlet_wires(web, numbers, key, outlet, wires)?;
    }
    Ok(())
}

fn push_outlet_wires(
    web: &Web,
    numbers: &[u32],
    key: u32,
    outlet: u32,
    wires: &mut Vec<Wire>,
) -> Result<(), AllocError>
    ensures { OnOk result (wires.new.items ≡ wires.old.items ++ outlet_wires web.now numbers.now key outlet) }
{
    let mut next = web.fan_first(key, outlet);
    while let Some(hop) = next {
        push_wire(numbers, key, outlet, hop, wires)?;
        next = web.fan_next(hop);
    }
    Ok(())
}

fn push_wire(
    numbers: &[u32],
    key: u32,
    outlet: u32,
    hop: Hop,
    wires: &mut Vec<Wire>,
) -> Result<(), AllocError>
    ensures { OnOk result (wires.new.items ≡ wires.old.items ++ wire_along numbers.now key outlet hop ∷ []) }
{
    wires.push(Wire {
        source: number_of(numbers, key),
        outlet,
        sink: number_of(numbers, hop.node()),
        inlet: hop.port(),
    })?;
    Ok(())
}
