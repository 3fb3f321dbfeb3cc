//! A box that goes loses its ports.

ghost use Rattle.std.specs.Prelude.{◌≡◌, ◌+◌, ℕ, [], Some, false};
ghost use Rattle.pd_wire.specs.Book.{IsEnd, fan_of, feeds_of};
ghost use Rattle.pd_web.specs.declared.sockets.Spot.{Spot};
ghost use Rattle.pd_web.specs.Sockets.{end_at};
ghost use Rattle.pd_web.specs.Hops.{port_told};
ghost use Rattle.pd_web.specs.Changes.{HasRoom, KeepsRoom};
ghost use Rattle.pd_ports.specs.Boxes.{HasNoWires, HasPorts, IsTrueOf, but_of};

use crate::ends::drop_ends;
use crate::homes::forget_ports;
use crate::swaps::swap_sockets;
use pd_web::{Sockets, Web};
use std::alloc::Global;

/// Takes the ports of a box away that has no wires. Their ends are free in the book of wires again. No memory is taken.
pub fn close_box(web: &mut Web, alloc: Global, key: u32)
    requires here { HasRoom web.old (key + 1) 0 0 }
    requires bare { HasNoWires web.old key }
    requires homes { IsTrueOf web.old key }
    ensures ports { HasPorts web.old web.new key (λ _. []) false }
    ensures homes { (j : ℕ) → port_told web.new j ≡ but_of key (port_told web.old j) }
    ensures ends { (s : Spot) (e : ℕ) → s.node ≡ key → end_at web.old.sockets.items s ≡ Some e →
        fan_of web.old.book e ≡ [] → feeds_of web.old.book e ≡ [] → IsEnd web.new.book e → ⊥ }
    ensures room { KeepsRoom web.old web.new }
{
    let own = swap_sockets(&mut web.sockets, key, no_ports(alloc));
    forget_ports(&mut web.homes, &own, key);
    drop_ends(&mut web.book, &own);
}

/// What stands for the ports of a box that isn't there.
fn no_ports(alloc: Global) -> Sockets
    ensures inlets { result.inlets.items ≡ [] }
    ensures outlets { result.outlets.items ≡ [] }
    ensures made { result.is_made ≡ false }
{
    Sockets {
        inlets: Vec::new(alloc),
        outlets: Vec::new(alloc),
        is_made: false,
    }
}
