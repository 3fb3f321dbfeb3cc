//! A side of a box follows the canvas that the box holds, and feeds stay in order.

ghost use Rattle.std.specs.Prelude.{◌≡◌, ◌+◌, ℕ, List, IsSome, length};
ghost use Rattle.slab.specs.Slab.{get};
ghost use Rattle.pd_grove.specs.declared.ports.Side.TheVariants.{Inlets, Outlets};
ghost use Rattle.pd_grove.specs.Owning.{AreOwn};
ghost use Rattle.pd_grove.specs.Telling.{inner_in};
ghost use Rattle.pd_web.specs.Jacks.{jacks_at};
ghost use Rattle.pd_web.specs.Changes.{HasRoom, KeepsRoom, Meet, wires_told};
ghost use Rattle.pd_ports.specs.Room.{HasLists};
ghost use Rattle.pd_ports.specs.Moves.{FollowsPorts};
ghost use Rattle.pd_ports.specs.Known.{AreBareWithout, AreFreeFor, KnowsHomes};
ghost use Rattle.pd_moving.specs.Orders.{AreAllInOrder, HasOwnLabel, KeepTheirOrder};

use pd_grove::{Grove, Side};
use pd_ports::{PortRoom, follow_ports};
use pd_web::Web;

/// Gives the box that holds a canvas the inlets that this canvas has now, and each takes its feeds along.
pub fn follow_inlets(web: &mut Web, grove: &Grove, key: u32, room: PortRoom)
    requires holds { IsSome (inner_in (get grove.now.nodes key)) }
    requires own { AreOwn (get grove.now.nodes) (get grove.now.boards) }
    requires near { (k : ℕ) → IsSome (get grove.now.nodes k) → HasRoom web.old (k + 1) 0 0 }
    requires lists { HasLists room (length (jacks_at Inlets grove.now key)) (length (jacks_at Outlets grove.now key)) }
    requires known { KnowsHomes web.old }
    requires free { AreFreeFor web.old key Inlets (jacks_at Inlets grove.now key) }
    requires gone { AreBareWithout web.old key Inlets (jacks_at Inlets grove.now key) }
    requires meet { Meet web.old }
    ensures follows { FollowsPorts web.old web.new key Inlets (jacks_at Inlets grove.now key) }
    ensures order { (labels : List ℕ) → AreAllInOrder labels web.old → AreAllInOrder labels web.new }
    ensures known { KnowsHomes web.new }
    ensures meet { Meet web.new }
    ensures as_many { wires_told web.new ≡ wires_told web.old }
    ensures room { KeepsRoom web.old web.new }
{
    web.laws();
    follow_ports(web, grove, key, Side::Inlets, room);
}

/// Gives the box that holds a canvas the outlets that this canvas has now, and each takes its fan-out along. Feeds stay in order where those
/// of the outlets that have wires keep their order.
pub fn follow_outlets(web: &mut Web, grove: &Grove, key: u32, room: PortRoom)
    requires holds { IsSome (inner_in (get grove.now.nodes key)) }
    requires own { AreOwn (get grove.now.nodes) (get grove.now.boards) }
    requires near { (k : ℕ) → IsSome (get grove.now.nodes k) → HasRoom web.old (k + 1) 0 0 }
    requires lists { HasLists room (length (jacks_at Inlets grove.now key)) (length (jacks_at Outlets grove.now key)) }
    requires known { KnowsHomes web.old }
    requires free { AreFreeFor web.old key Outlets (jacks_at Outlets grove.now key) }
    requires gone { AreBareWithout web.old key Outlets (jacks_at Outlets grove.now key) }
    requires meet { Meet web.old }
    ensures follows { FollowsPorts web.old web.new key Outlets (jacks_at Outlets grove.now key) }
    ensures order { (labels : List ℕ) → KeepTheirOrder web.old key (jacks_at Outlets grove.now key) → HasOwnLabel labels web.old key →
        AreAllInOrder labels web.old → AreAllInOrder labels web.new }
    ensures known { KnowsHomes web.new }
    ensures meet { Meet web.new }
    ensures as_many { wires_told web.new ≡ wires_told web.old }
    ensures room { KeepsRoom web.old web.new }
{
    web.laws();
    follow_ports(web, grove, key, Side::Outlets, room);
}
