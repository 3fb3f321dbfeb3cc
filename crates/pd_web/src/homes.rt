//! Which port of the box around a box is.

ghost use Rattle.std.specs.Prelude.{◌≡◌, ◌≢◌, ◌<◌, ◌≤◌, ◌^◌, ℕ, Some, None, IfOk, slice_get, length};
ghost use Rattle.pd_grove.specs.declared.ports.Side.{Side};
ghost use Rattle.pd_web.specs.Sockets.{AreFew, side_ports};
ghost use Rattle.pd_web.specs.Homes.{AreNear, AreTrue, AreKnown, IsAmong, IsOf, IsPort, Settles, home_at};

use crate::sockets::{Port, Sockets, Spot};
use pd_grove::Side;
use std::alloc::{AllocError, Global};

/// For each box that is a port of its canvas, which port of the box around it is.
pub fn lay_homes(alloc: Global, sockets: &[Sockets]) -> Result<Vec<Option<Spot>>, AllocError>
    requires near { AreNear sockets.now }
    requires few { AreFew sockets.now }
    requires keys { length sockets.now ≤ 2 ^ 32 }
    ensures told { IfOk result (λ homes. AreTrue sockets.now homes.items) }
    ensures found { IfOk result (λ homes. AreKnown sockets.now homes.items (length sockets.now)) }
{
    let mut homes = no_homes(alloc, sockets.len())?;
    settle_boxes(homes.as_mut_slice(), sockets);
    Ok(homes)
}

/// Writes of each box that is a port of one of these, which.
fn settle_boxes(homes: &mut [Option<Spot>], sockets: &[Sockets])
    requires near { AreNear sockets.now }
    requires few { AreFew sockets.now }
    requires keys { length sockets.now ≤ 2 ^ 32 }
    requires far { length homes.old ≡ length sockets.now }
    requires none { (j : ℕ) → home_at homes.old j ≡ None }
    ensures told { AreTrue sockets.now homes.new }
    ensures found { AreKnown sockets.now homes.new (length sockets.now) }
{
    for (key, own) in sockets.iter().enumerate() {
        settle_box(homes, own, key as u32);
    }
}

fn no_homes(alloc: Global, count: usize) -> Result<Vec<Option<Spot>>, AllocError>
    ensures none { IfOk result (λ homes. (j : ℕ) → home_at homes.items j ≡ None) }
    ensures len { IfOk result (λ homes. length homes.items ≡ count) }
{
    let mut homes = Vec::new(alloc);
    for _ in 0..count {
        homes.push(None)?;
    }
    Ok(homes)
}

/// Writes of each box that is a port of this one, which.
pub fn settle_box(homes: &mut [Option<Spot>], own: &Sockets, key: u32)
    requires { (side : Side) → length (side_ports side own.now) < 2 ^ 32 }
    ensures { Settles homes.old homes.new (IsOf own.now key) }
{
    settle_all(homes, own.inlets.as_slice(), Side::Inlets, key);
    settle_all(homes, own.outlets.as_slice(), Side::Outlets, key);
}

/// Writes of each box that is one of these ports on a side of a box, which.
fn settle_all(homes: &mut [Option<Spot>], ports: &[Port], side: Side, node: u32)
    requires { length ports.now < 2 ^ 32 }
    ensures { Settles homes.old homes.new (IsAmong side node ports.now) }
{
    for (i, port) in ports.iter().enumerate() {
        let spot = Spot {
            node,
            side,
            port: i as u32,
        };
        settle(homes, port.jack.inner, spot);
    }
}

fn settle(homes: &mut [Option<Spot>], inner: Option<u32>, spot: Spot)
    ensures { Settles homes.old homes.new (IsPort spot inner) }
{
    if let Some(inner) = inner {
        put_home(homes, inner as usize, spot);
    }
}

pub fn put_home(homes: &mut [Option<Spot>], inner: usize, spot: Spot)
    ensures is { inner < length homes.old → home_at homes.new inner ≡ Some spot }
    ensures others { (j : ℕ) → j ≢ inner → home_at homes.new j ≡ home_at homes.old j }
    ensures far { length homes.old ≤ inner → homes.new ≡ homes.old }
{
    if inner < homes.len() {
        homes[inner] = Some(spot);
    }
}
