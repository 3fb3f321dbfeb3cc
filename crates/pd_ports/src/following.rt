//! A side of a box follows the port boxes of the canvas that the box holds.

ghost use Rattle.std.specs.Prelude.{◌≡◌, ◌+◌, ◌<◌, ◌≤◌, ℕ, [], map, length, vec_capacity, IsSome};
ghost use Rattle.slab.specs.Slab.{get};
ghost use Rattle.pd_grove.specs.declared.ports.Side.{Side};
ghost use Rattle.pd_grove.specs.declared.ports.Side.TheVariants.{Inlets, Outlets};
ghost use Rattle.pd_grove.specs.Owning.{AreOwn};
ghost use Rattle.pd_grove.specs.Telling.{inner_in};
ghost use Rattle.pd_web.specs.Jacks.{spot_jack, jacks_at, jacks_in};
ghost use Rattle.pd_web.specs.Changes.{HasRoom, KeepsRoom, Meet, wires_told};
ghost use Rattle.pd_ports.specs.Room.{HasLists};
ghost use Rattle.pd_ports.specs.Moves.{FollowsPorts};
ghost use Rattle.pd_ports.specs.Known.{AreBareWithout, AreFreeFor, KnowsHomes};

use crate::moves::set_ports;
use crate::room::PortRoom;
use crate::spots::gather_spots;
use pd_grove::{Grove, Node, PortSpot, Side};
use pd_web::{Jack, Port, Web};

/// Gives a side of the box that holds a canvas the ports that this canvas has now, as where a port box came into it, went, moved or
/// changed its kind. The wires of each box that was a port there before go with it. No memory is taken.
pub fn follow_ports(web: &mut Web, grove: &Grove, key: u32, side: Side, room: PortRoom)
    requires holds { IsSome (inner_in (get grove.now.nodes key)) }
    requires own { AreOwn (get grove.now.nodes) (get grove.now.boards) }
    requires near { (k : ℕ) → IsSome (get grove.now.nodes k) → HasRoom web.old (k + 1) 0 0 }
    requires lists { HasLists room (length (jacks_at Inlets grove.now key)) (length (jacks_at Outlets grove.now key)) }
    requires known { KnowsHomes web.old }
    requires free { AreFreeFor web.old key side (jacks_at side grove.now key) }
    requires gone { AreBareWithout web.old key side (jacks_at side grove.now key) }
    requires meet { Meet web.old }
    ensures follows { FollowsPorts web.old web.new key side (jacks_at side grove.now key) }
    ensures known { KnowsHomes web.new }
    ensures meet { Meet web.new }
    ensures as_many { wires_told web.new ≡ wires_told web.old }
    ensures room { KeepsRoom web.old web.new }
{
    let PortRoom {
        inlets,
        outlets,
        mut jacks,
        mut spots,
    } = room;
    gather_jacks(&mut jacks, &mut spots, grove, side, key);
    let list = side_list(side, inlets, outlets);
    let told = jacks.as_slice();
    set_ports(web, key, side, told, list);
}

/// The list for the ports of a side.
fn side_list(side: Side, inlets: Vec<Port>, outlets: Vec<Port>) -> Vec<Port>
    requires no_inlets { inlets.items ≡ [] }
    requires no_outlets { outlets.items ≡ [] }
    ensures empty { result.items ≡ [] }
    ensures fits { (count : Side → ℕ) → count Inlets ≤ vec_capacity inlets → count Outlets ≤ vec_capacity outlets → count side ≤ vec_capacity result }
{
    match side {
        Side::Inlets => inlets,
        Side::Outlets => outlets,
    }
}

/// The ports that the canvas in a box gives it on a side.
fn gather_jacks(
    jacks: &mut Vec<Jack>,
    spots: &mut Vec<PortSpot>,
    grove: &Grove,
    side: Side,
    key: u32,
)
    requires holds { IsSome (inner_in (get grove.now.nodes key)) }
    requires empty { jacks.old.items ≡ [] }
    requires room { length (jacks_at side grove.now key) ≤ vec_capacity jacks.old }
    requires spots { length (jacks_at side grove.now key) ≤ vec_capacity spots.old }
    ensures { jacks.new.items ≡ jacks_at side grove.now key }
{
    if let Some(node) = grove.node(key) {
        gather_inside(jacks, spots, grove, side, node);
    }
}

fn gather_inside(
    jacks: &mut Vec<Jack>,
    spots: &mut Vec<PortSpot>,
    grove: &Grove,
    side: Side,
    node: &Node,
)
    requires holds { IsSome node.now.inner }
    requires empty { jacks.old.items ≡ [] }
    requires room { length (jacks_in side grove.now (Some node.now)) ≤ vec_capacity jacks.old }
    requires spots { length (jacks_in side grove.now (Some node.now)) ≤ vec_capacity spots.old }
    ensures { jacks.new.items ≡ jacks_in side grove.now (Some node.now) }
{
    if let Some(canvas) = node.inner {
        gather_spots(spots, grove, side, canvas);
        fill_jacks(jacks, spots.as_slice());
    }
}

fn fill_jacks(jacks: &mut Vec<Jack>, spots: &[PortSpot])
    requires empty { jacks.old.items ≡ [] }
    requires room { length spots.now ≤ vec_capacity jacks.old }
    ensures { jacks.new.items ≡ map spot_jack spots.now }
{
    for spot in spots {
        jacks.push_reserved(Jack {
            is_signal: spot.is_signal,
            inner: Some(spot.node),
        });
    }
}
