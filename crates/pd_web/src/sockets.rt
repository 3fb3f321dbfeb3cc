//! The ports of boxes.

ghost use Rattle.std.specs.Prelude.{◌≡◌, ◌<◌, ◌≤◌, ◌^◌, ℕ, slice_get, length, OnOk, IfOk};
ghost use Rattle.std.specs.Option.{option_copied};
ghost use Rattle.slab.specs.Slab.{get};
ghost use Rattle.pd_grove.specs.declared.ports.Side.{Side};
ghost use Rattle.pd_web.specs.Jacks.{KindsSmall, jacks_at as jacks_of_box, made_in};
ghost use Rattle.pd_web.specs.Sockets.{AreFew, loose_ports, side_ports, ports_at, port_at as port_under, made_at};

use crate::jacks::{Jack, is_made_at, jacks_at};
use pd_grove::{Grove, Side};
use std::alloc::{AllocError, Global};

/// A port, and the number of its end in the book of wires, where it has one.
#[derive(Clone, Copy, Debug)]
pub struct Port {
    pub end: Option<u32>,
    pub jack: Jack,
}

// There may be many ports, most of them without wires.
const _: () = prove!(size_of::<Port>() == 20);

/// The ports of a box, and whether the box is made.
#[derive(Debug, Drop)]
pub struct Sockets {
    pub inlets: Vec<Port>,
    pub outlets: Vec<Port>,
    pub is_made: bool,
}

/// A port by the key of its box, its side and its number.
#[derive(Clone, Copy, Debug, PartialEq, Eq)]
pub struct Spot {
    pub node: u32,
    pub side: Side,
    pub port: u32,
}

impl Sockets {
    pub fn ports(&self, side: Side) -> &[Port]
        ensures { result.now ≡ side_ports side self.now }
    {
        match side {
            Side::Inlets => self.inlets.as_slice(),
            Side::Outlets => self.outlets.as_slice(),
        }
    }
}

/// The ports of the box of a key.
pub fn sockets_at(sockets: &[Sockets], node: u32) -> Option<&Sockets>
    ensures { option_copied result ≡ slice_get sockets.now node }
{
    sockets.get(node as usize)
}

/// A port of the box of a key.
pub fn port_at(sockets: &[Sockets], side: Side, node: u32, port: u32) -> Option<&Port>
    ensures { option_copied result ≡ port_under sockets.now side node port }
{
    sockets_at(sockets, node)?.ports(side).get(port as usize)
}

/// The ports of every box, by key.
pub fn lay_sockets(alloc: Global, grove: &Grove) -> Result<Vec<Sockets>, AllocError>
    requires { KindsSmall grove.now }
    ensures told { IfOk result (λ all. (side : Side) (k : ℕ) → ports_at all.items side k ≡ loose_ports (jacks_of_box side grove.now k)) }
    ensures made { IfOk result (λ all. (k : ℕ) → made_at all.items k ≡ made_in (get grove.now.nodes k)) }
    ensures few { IfOk result (λ all. AreFew all.items) }
    ensures len { IfOk result (λ all. length grove.now.nodes.slots ≤ length all.items) }
    ensures near { IfOk result (λ all. length all.items ≤ 2 ^ 32) }
{
    let mut sockets = Vec::new(alloc);
    let end = keys_end(grove.nodes_end())?;
    for key in 0..end {
        let made = box_sockets(alloc, grove, key as u32)?;
        sockets.push(made)?;
    }
    Ok(sockets)
}

/// A number above all keys, where every key is below 2^32.
pub fn keys_end(end: usize) -> Result<usize, AllocError>
    ensures same { IfOk result (λ same. same ≡ end) }
    ensures small { OnOk result (end ≤ 2 ^ 32) }
{
    if end > 4_294_967_296 {
        return Err(AllocError);
    }
    Ok(end)
}

/// The ports of a box.
pub fn box_sockets(alloc: Global, grove: &Grove, key: u32) -> Result<Sockets, AllocError>
    requires { KindsSmall grove.now }
    ensures told { IfOk result (λ s. (side : Side) → side_ports side s ≡ loose_ports (jacks_of_box side grove.now key)) }
    ensures made { IfOk result (λ s. s.is_made ≡ made_in (get grove.now.nodes key)) }
    ensures few { IfOk result (λ s. (side : Side) → length (side_ports side s) < 2 ^ 32) }
{
    let is_made = is_made_at(grove, key);
    let inlets = side_sockets(alloc, grove, Side::Inlets, key)?;
    let outlets = side_sockets(alloc, grove, Side::Outlets, key)?;
    Ok(Sockets {
        inlets,
        outlets,
        is_made,
    })
}

/// The ports of a box on a side.
fn side_sockets(alloc: Global, grove: &Grove, side: Side, key: u32) -> Result<Vec<Port>, AllocError>
    requires { KindsSmall grove.now }
    ensures told { IfOk result (λ ports. ports.items ≡ loose_ports (jacks_of_box side grove.now key)) }
    ensures few { IfOk result (λ ports. length ports.items < 2 ^ 32) }
{
    let jacks = jacks_at(alloc, grove, side, key)?;
    make_ports(alloc, jacks.as_slice())
}

/// The ports of a side, none with an end.
fn make_ports(alloc: Global, jacks: &[Jack]) -> Result<Vec<Port>, AllocError>
    ensures told { IfOk result (λ ports. ports.items ≡ loose_ports jacks.now) }
    ensures few { IfOk result (λ ports. length ports.items < 2 ^ 32) }
{
    if jacks.len() > 4_294_967_295 {
        return Err(AllocError);
    }
    let mut ports = Vec::with_capacity(alloc, jacks.len())?;
    for jack in jacks {
        ports.push(Port {
            end: None,
            jack: *jack,
        })?;
    }
    Ok(ports)
}
