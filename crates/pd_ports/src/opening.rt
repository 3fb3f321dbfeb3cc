//! A box that has come gets its ports.

ghost use Rattle.std.specs.Prelude.{◌≡◌, ◌+◌, ℕ, [], None, IsSome, length};
ghost use Rattle.slab.specs.Slab.{get, ContainsKey};
ghost use Rattle.pd_grove.specs.declared.ports.Side.{Side};
ghost use Rattle.pd_grove.specs.declared.ports.Side.TheVariants.{Inlets, Outlets};
ghost use Rattle.pd_web.specs.Jacks.{KindsSmall, jacks_at, made_in};
ghost use Rattle.pd_web.specs.Hops.{ports_told, port_told};
ghost use Rattle.pd_web.specs.Homes.{IsPortOf};
ghost use Rattle.pd_web.specs.Changes.{HasRoom, KeepsRoom};
ghost use Rattle.pd_ports.specs.Room.{HasLists};
ghost use Rattle.pd_ports.specs.Boxes.{HasPorts, KnowsPorts};

use crate::filling::filled;
use crate::homes::know_ports;
use crate::room::PortRoom;
use crate::swaps::swap_sockets;
use pd_grove::Grove;
use pd_web::Web;

/// Gives a live box that has no ports those of the canvas in it, or else those of its kind. No memory is taken.
pub fn open_box(web: &mut Web, grove: &Grove, key: u32, room: PortRoom)
    requires small { KindsSmall grove.now }
    requires here { ContainsKey grove.now.nodes key }
    requires near { (k : ℕ) → IsSome (get grove.now.nodes k) → HasRoom web.old (k + 1) 0 0 }
    requires lists { HasLists room (length (jacks_at Inlets grove.now key)) (length (jacks_at Outlets grove.now key)) }
    requires bare { (side : Side) → ports_told web.old side key ≡ [] }
    requires apart { (j i : ℕ) → IsPortOf grove.now j key i → port_told web.old j ≡ None }
    ensures ports { HasPorts web.old web.new key (λ side. jacks_at side grove.now key) (made_in (get grove.now.nodes key)) }
    ensures homes { KnowsPorts grove.now web.old web.new key }
    ensures room { KeepsRoom web.old web.new }
{
    let own = filled(room, grove, key);
    know_ports(&mut web.homes, &own, key);
    swap_sockets(&mut web.sockets, key, own);
}
