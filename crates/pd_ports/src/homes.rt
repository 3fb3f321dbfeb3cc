//! What is known of boxes that are ports of a box.

ghost use Rattle.std.specs.Prelude.{◌≡◌, ◌≢◌, ◌<◌, ◌^◌, ℕ, Some, length};
ghost use Rattle.pd_grove.specs.declared.ports.Side.{Side};
ghost use Rattle.pd_web.specs.Sockets.{side_ports};
ghost use Rattle.pd_web.specs.Homes.{IsOf, Settles, home_at, inner_of};
ghost use Rattle.pd_ports.specs.Homes.{Forgets, IsInner, IsInnerOf, Knows, is_of, less};

use pd_grove::Side;
use pd_web::{Port, Sockets, Spot, put_home, settle_box};

/// Writes of each box that is a port of this one, which.
pub(crate) fn know_ports(homes: &mut Vec<Option<Spot>>, own: &Sockets, key: u32)
    requires { (side : Side) → length (side_ports side own.now) < 2 ^ 32 }
    ensures { Settles homes.old.items homes.new.items (IsOf own.now key) }
{
    settle_box(homes.as_mut_slice(), own, key);
}

/// Of no box that is one of these ports it is known any more that it is a port of this box.
pub(crate) fn forget_ports(homes: &mut Vec<Option<Spot>>, own: &Sockets, key: u32)
    ensures { Forgets homes.old.items homes.new.items key (IsInnerOf own.now) }
{
    forget_side(homes, own.inlets.as_slice(), key);
    forget_side(homes, own.outlets.as_slice(), key);
}

/// Of no box that is one of these ports of a side it is known any more that it is a port of this box.
pub(crate) fn forget_side(homes: &mut Vec<Option<Spot>>, ports: &[Port], key: u32)
    ensures { Forgets homes.old.items homes.new.items key (IsInner ports.now) }
{
    forget_all(homes.as_mut_slice(), ports, key);
}

/// Writes of each box that is one of these ports on a side of a box, which.
pub(crate) fn know_side(homes: &mut Vec<Option<Spot>>, ports: &[Port], side: Side, key: u32)
    requires once { (i m j : ℕ) → inner_of ports.now i ≡ Some j → inner_of ports.now m ≡ Some j → i ≡ m }
    requires few { length ports.now < 2 ^ 32 }
    ensures { Knows homes.old.items homes.new.items ports.now side key }
{
    know_all(homes.as_mut_slice(), ports, side, key);
}

fn know_all(homes: &mut [Option<Spot>], ports: &[Port], side: Side, node: u32)
    requires once { (i m j : ℕ) → inner_of ports.now i ≡ Some j → inner_of ports.now m ≡ Some j → i ≡ m }
    requires few { length ports.now < 2 ^ 32 }
    ensures { Knows homes.old homes.new ports.now side node }
{
    for (i, port) in ports.iter().enumerate() {
        let spot = Spot {
            node,
            side,
            port: i as u32,
        };
        know(homes, port.jack.inner, spot);
    }
}

fn know(homes: &mut [Option<Spot>], inner: Option<u32>, spot: Spot)
    ensures is { (j : ℕ) → inner ≡ Some j → j < length homes.old → home_at homes.new j ≡ Some spot }
    ensures others { (j : ℕ) → (inner ≡ Some j → ⊥) → home_at homes.new j ≡ home_at homes.old j }
{
    if let Some(inner) = inner {
        put_home(homes, inner as usize, spot);
    }
}

fn forget_all(homes: &mut [Option<Spot>], ports: &[Port], node: u32)
    ensures { Forgets homes.old homes.new node (IsInner ports.now) }
{
    for port in ports {
        forget(homes, port.jack.inner, node);
    }
}

fn forget(homes: &mut [Option<Spot>], inner: Option<u32>, node: u32)
    ensures { Forgets homes.old homes.new node (λ j. inner ≡ Some j) }
{
    if let Some(inner) = inner {
        forget_at(homes, inner as usize, node);
    }
}

fn forget_at(homes: &mut [Option<Spot>], inner: usize, node: u32)
    ensures is { home_at homes.new inner ≡ less node (home_at homes.old inner) }
    ensures others { (j : ℕ) → j ≢ inner → home_at homes.new j ≡ home_at homes.old j }
{
    if inner < homes.len() && is_port_of(homes[inner], node) {
        homes[inner] = None;
    }
}

fn is_port_of(home: Option<Spot>, node: u32) -> bool
    ensures { result ≡ is_of node home }
{
    match home {
        Some(spot) => spot.node == node,
        None => false,
    }
}
