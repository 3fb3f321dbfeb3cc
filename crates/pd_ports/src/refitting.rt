//! A box that lives gets other ports, and its wires stay at the ports of their numbers.

ghost use Rattle.std.specs.Prelude.{◌≡◌, ◌+◌, ◌<◌, ◌≤◌, ℕ, None, IsSome, Some, [], length, slice_get};
ghost use Rattle.slab.specs.Slab.{get, ContainsKey};
ghost use Rattle.pd_grove.specs.declared.ports.Side.{Side};
ghost use Rattle.pd_grove.specs.declared.ports.Side.TheVariants.{Inlets, Outlets};
ghost use Rattle.pd_web.specs.Jacks.{KindsSmall, jacks_at, made_in};
ghost use Rattle.pd_web.specs.Hops.{port_told};
ghost use Rattle.pd_web.specs.Homes.{IsPortOf};
ghost use Rattle.pd_web.specs.Changes.{HasRoom, KeepsRoom};
ghost use Rattle.pd_ports.specs.Room.{HasLists};
ghost use Rattle.pd_ports.specs.Boxes.{HasPorts, IsTrueOf, but_of};
ghost use Rattle.pd_ports.specs.Moves.{keys_at};

use crate::ends::drop_ends;
use crate::filling::filled;
use crate::homes::{forget_ports, know_ports};
use crate::room::PortRoom;
use crate::swaps::swap_keeping;
use pd_grove::Grove;
use pd_web::{Sockets, Web};

/// Gives a live box the ports of its kind, or of the canvas in it, in place of those that it had. The wires of each port stay at the one of
/// its number, and those of numbers that are no more were cut before. No memory is taken.
pub fn refit_box(web: &mut Web, grove: &Grove, key: u32, room: PortRoom)
    requires small { KindsSmall grove.now }
    requires here { ContainsKey grove.now.nodes key }
    requires near { (k : ℕ) → IsSome (get grove.now.nodes k) → HasRoom web.old (k + 1) 0 0 }
    requires lists { HasLists room (length (jacks_at Inlets grove.now key)) (length (jacks_at Outlets grove.now key)) }
    requires beyond { (side : Side) (i : ℕ) → length (jacks_at side grove.now key) ≤ i → keys_at web.old side key i ≡ [] }
    requires homes { IsTrueOf web.old key }
    requires apart { (j i : ℕ) → IsPortOf grove.now j key i → but_of key (port_told web.old j) ≡ None }
    ensures ports { HasPorts web.old web.new key (λ side. jacks_at side grove.now key) (made_in (get grove.now.nodes key)) }
    ensures homes { (j i : ℕ) → IsPortOf grove.now j key i → (m : ℕ) × (port_told web.new j ≡ Some (key, m)) × IsPortOf grove.now j key m }
    ensures other_homes { (j : ℕ) → ((i : ℕ) → IsPortOf grove.now j key i → ⊥) → port_told web.new j ≡ but_of key (port_told web.old j) }
    ensures room { KeepsRoom web.old web.new }
{
    let own = filled(room, grove, key);
    let left = swap_keeping(&mut web.sockets, key, own);
    forget_ports(&mut web.homes, &left, key);
    let sockets = web.sockets.as_slice();
    know_ports(&mut web.homes, sockets_of(sockets, key), key);
    drop_ends(&mut web.book, &left);
}

/// The ports of a box.
fn sockets_of(sockets: &[Sockets], key: u32) -> &Sockets
    requires { key < length sockets.now }
    ensures { slice_get sockets.now key ≡ Some result.now }
{
    &sockets[key as usize]
}
