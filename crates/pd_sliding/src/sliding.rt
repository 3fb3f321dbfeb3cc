//! A port box moves, and the box around gets the ports that its canvas has then.

ghost use Rattle.std.specs.Prelude.{◌≡◌, ◌+◌, ◌*◌, ◌≤◌, ℕ, [], length, vec_capacity, IsSome, Some};
ghost use Rattle.slab.specs.Slab.{get};
ghost use Rattle.pd_grove.specs.declared.ports.Side.TheVariants.{Inlets, Outlets};
ghost use Rattle.pd_grove.specs.Owning.{AreOwn};
ghost use Rattle.pd_grove.specs.Telling.{inner_in};
ghost use Rattle.pd_web.specs.Changes.{HasRoom, Meet, wires_told};
ghost use Rattle.pd_web.specs.Hops.{fan_hops, feed_hops, port_told, ports_told};
ghost use Rattle.pd_web.specs.Jacks.{jacks_at};
ghost use Rattle.pd_seek.specs.Places.{AreInOrder};
ghost use Rattle.pd_ports.specs.Known.{KnowsHomes};
ghost use Rattle.pd_ports.specs.Room.{HasLists};
ghost use Rattle.pd_sliding.specs.Room.{TakesRoute};
ghost use Rattle.pd_sliding.specs.Slides.{inlet_slid, IsOneElsewhere, Slides};
ghost use Rattle.pd_sliding.specs.Sliding.{CanSlide, HaveOwnLabel, IsSlid};

use crate::room::PortRoute;
use pd_grove::{Grove, Side};
use pd_moving::{follow_inlets, move_outlet};
use pd_num::Num;
use pd_patch::Patch;
use pd_ports::{PortRoom, port_boxes_are_known};
use pd_web::{Line, Spot, Web};

/// Gives a port box another place in its canvas's window, and the box around the ports that this canvas has then. It tells the number that the
/// port has among them.
pub fn slide_port(patch: &mut Patch, route: PortRoute, x: Num, y: Num) -> u32
    requires can { CanSlide patch.old route.key route.port.node route.port.side route.port.port }
    requires room { TakesRoute patch.old route }
    ensures { IsSlid patch.old patch.new route.key route.port.node route.port.side x y route.port.port result }
{
    port_boxes_are_known();
    let PortRoute {
        key,
        port,
        around,
        lines,
    } = route;
    patch.grove.move_box(key, x, y);
    follow(
        &mut patch.web,
        &patch.grove,
        patch.numbers.as_slice(),
        key,
        port,
        around,
        lines,
    );
    patch.web.laws();
    number_of(&patch.web, key)
}

/// Gives the box around the ports that its canvas has now, where the box of the key, which was this port of it, may have another place.
fn follow(
    web: &mut Web,
    grove: &Grove,
    labels: &[u32],
    key: u32,
    port: Spot,
    room: PortRoom,
    lines: Vec<Line>,
)
    requires holds { IsSome (inner_in (get grove.now.nodes port.node)) }
    requires own { AreOwn (get grove.now.nodes) (get grove.now.boards) }
    requires near { (k : ℕ) → IsSome (get grove.now.nodes k) → HasRoom web.old (k + 1) 0 0 }
    requires lists { HasLists room (length (jacks_at Inlets grove.now port.node)) (length (jacks_at Outlets grove.now port.node)) }
    requires known { KnowsHomes web.old }
    requires meet { Meet web.old }
    requires was { port_told web.old key ≡ Some (port.node, port.port) }
    requires elsewhere { (to : ℕ) × IsOneElsewhere web.old (jacks_at port.side grove.now port.node) port.node port.side key port.port to }
    requires empty { lines.items ≡ [] }
    requires fits { port.side ≡ Outlets → length (fan_hops web.old port.node port.port) ≤ vec_capacity lines }
    requires ends { port.side ≡ Outlets → HasRoom web.old 0 (2 * length (fan_hops web.old port.node port.port)) 0 }
    ensures slides { (to : ℕ) → IsOneElsewhere web.old (jacks_at port.side grove.now port.node) port.node port.side key port.port to →
        Slides web.old web.new port.node port.side port.port to }
    ensures now { ports_told web.new port.side port.node ≡ jacks_at port.side grove.now port.node }
    ensures in_order { (to : ℕ) → IsOneElsewhere web.old (jacks_at port.side grove.now port.node) port.node port.side key port.port to →
        (n i : ℕ) → HaveOwnLabel labels.now (feed_hops web.old n i) port.node → AreInOrder labels.now (feed_hops web.old n i) →
        AreInOrder labels.now (feed_hops web.new n (inlet_slid port.side port.node port.port to n i)) }
    ensures known { KnowsHomes web.new }
    ensures meet { Meet web.new }
    ensures as_many { wires_told web.new ≡ wires_told web.old }
{
    web.laws();
    match port.side {
        Side::Inlets => follow_inlets(web, grove, port.node, room),
        Side::Outlets => move_outlet(web, grove, labels, port.node, port.port, key, room, lines),
    }
}

/// The number of the port that a box is.
fn number_of(web: &Web, key: u32) -> u32
    requires { IsSome (port_told web.now key) }
    ensures { (k m : ℕ) → port_told web.now key ≡ Some (k, m) → result ≡ m }
{
    let Some((_, number)) = web.port_of(key) else {
        unreachable!()
    };
    number
}
