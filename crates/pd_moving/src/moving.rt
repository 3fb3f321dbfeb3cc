//! An outlet gets another place among those of the box that holds its canvas.

ghost use Rattle.std.specs.Prelude.{◌≡◌, ◌+◌, ◌*◌, ◌≤◌, ℕ, [], Some, IsSome, length, vec_capacity};
ghost use Rattle.slab.specs.Slab.{get};
ghost use Rattle.pd_grove.specs.declared.ports.Side.TheVariants.{Inlets, Outlets};
ghost use Rattle.pd_grove.specs.Owning.{AreOwn};
ghost use Rattle.pd_grove.specs.Telling.{inner_in};
ghost use Rattle.pd_web.specs.Jacks.{jacks_at};
ghost use Rattle.pd_web.specs.Hops.{fan_hops, port_told};
ghost use Rattle.pd_web.specs.Changes.{HasRoom, Meet, wires_told};
ghost use Rattle.pd_ports.specs.Room.{HasLists};
ghost use Rattle.pd_ports.specs.Known.{AreBareWithout, AreFreeFor, KnowsHomes};
ghost use Rattle.pd_moving.specs.Orders.{AreAllInOrder, HasOwnLabel, IsOutletThen, KeepTheirOrderBut, MovesBySteps, MovesOutlet};

use crate::following::follow_outlets;
use crate::laying::lay_lines;
use crate::lifting::lift_outlet;
use pd_grove::Grove;
use pd_ports::PortRoom;
use pd_web::{Line, Web};

/// Gives the box that holds a canvas the outlets that this canvas has now, where the one that is the box `port` got another place, and the
/// others with wires keep their order. The wires of this one are taken out and put in again. `lines` is an empty list with room for them,
/// and room for as many ports with a first wire twice over is set aside.
pub fn move_outlet(
    web: &mut Web,
    grove: &Grove,
    labels: &[u32],
    key: u32,
    outlet: u32,
    port: u32,
    room: PortRoom,
    lines: Vec<Line>,
)
    requires holds { IsSome (inner_in (get grove.now.nodes key)) }
    requires own { AreOwn (get grove.now.nodes) (get grove.now.boards) }
    requires near { (k : ℕ) → IsSome (get grove.now.nodes k) → HasRoom web.old (k + 1) 0 0 }
    requires lists { HasLists room (length (jacks_at Inlets grove.now key)) (length (jacks_at Outlets grove.now key)) }
    requires known { KnowsHomes web.old }
    requires free { AreFreeFor web.old key Outlets (jacks_at Outlets grove.now key) }
    requires gone { AreBareWithout web.old key Outlets (jacks_at Outlets grove.now key) }
    requires meet { Meet web.old }
    requires was { port_told web.old port ≡ Some (key, outlet) }
    requires is { IsOutletThen grove.now key port }
    requires empty { lines.items ≡ [] }
    requires fits { length (fan_hops web.old key outlet) ≤ vec_capacity lines }
    requires ends { HasRoom web.old 0 (2 * length (fan_hops web.old key outlet)) 0 }
    ensures moves { MovesOutlet web.old web.new key (jacks_at Outlets grove.now key) }
    ensures steps { MovesBySteps web.old web.new labels.now key outlet (jacks_at Outlets grove.now key) }
    ensures order { KeepTheirOrderBut web.old key outlet (jacks_at Outlets grove.now key) → HasOwnLabel labels.now web.old key →
        AreAllInOrder labels.now web.old → AreAllInOrder labels.now web.new }
    ensures known { KnowsHomes web.new }
    ensures meet { Meet web.new }
    ensures as_many { wires_told web.new ≡ wires_told web.old }
{
    let mut lines = lines;
    lift_outlet(web, key, outlet, &mut lines);
    web.laws();
    follow_outlets(web, grove, key, room);
    let place = port_number(web, port);
    let noted = lines.as_slice();
    lay_lines(web, labels, key, place, noted);
}

/// The number of the port that a box is.
fn port_number(web: &Web, port: u32) -> u32
    requires { IsSome (port_told web.now port) }
    ensures { (k m : ℕ) → port_told web.now port ≡ Some (k, m) → result ≡ m }
{
    let Some((_, number)) = web.port_of(port) else {
        unreachable!()
    };
    number
}
