//! Room for the ports of one box, set aside.

ghost use Rattle.std.specs.Prelude.{OnOk, IfOk};
ghost use Rattle.pd_web.specs.Changes.{IsSame, KeepsRoom, HasRoom};
ghost use Rattle.pd_ports.specs.Room.{HasLists};

use pd_grove::PortSpot;
use pd_web::{Jack, Port, Web};
use std::alloc::{AllocError, Global};

/// Room for the ports of one box.
#[derive(Debug, Drop)]
pub struct PortRoom {
    pub(crate) inlets: Vec<Port>,
    pub(crate) outlets: Vec<Port>,
    pub(crate) jacks: Vec<Jack>,
    pub(crate) spots: Vec<PortSpot>,
}

/// Sets room aside for boxes with keys below `keys`, and for so many ports of one box.
///
/// # Errors
///
/// `AllocError` where memory ran out.
pub fn reserve_ports(
    web: &mut Web,
    alloc: Global,
    keys: usize,
    inlets: u32,
    outlets: u32,
) -> Result<PortRoom, AllocError>
    ensures same { IsSame web.old web.new }
    ensures kept { KeepsRoom web.old web.new }
    ensures room { OnOk result (HasRoom web.new keys 0 0) }
    ensures lists { IfOk result (λ room. HasLists room inlets outlets) }
{
    web.reserve(alloc, keys, 0, 0)?;
    room_for(alloc, inlets, outlets)
}

fn room_for(alloc: Global, inlets: u32, outlets: u32) -> Result<PortRoom, AllocError>
    ensures { IfOk result (λ room. HasLists room inlets outlets) }
{
    let most = inlets.max(outlets) as usize;
    Ok(PortRoom {
        inlets: Vec::with_capacity(alloc, inlets as usize)?,
        outlets: Vec::with_capacity(alloc, outlets as usize)?,
        jacks: Vec::with_capacity(alloc, most)?,
        spots: Vec::with_capacity(alloc, most)?,
    })
}
