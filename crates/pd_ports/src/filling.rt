//! The ports of a box, written into lists that have room for them.

ghost use Rattle.std.specs.Prelude.{◌≡◌, ◌<◌, ◌≤◌, ◌^◌, [], Some, map, length, vec_capacity};
ghost use Rattle.slab.specs.Slab.{get};
ghost use Rattle.pd_object.specs.Ports.{IsSmallKind};
ghost use Rattle.pd_grove.specs.declared.ports.Side.{Side};
ghost use Rattle.pd_grove.specs.declared.ports.Side.TheVariants.{Inlets, Outlets};
ghost use Rattle.pd_web.specs.Jacks.{KindsSmall, plain_jack, spot_jack, marks, kind_jacks, canvas_jacks, jacks_in, jacks_at, made_in};
ghost use Rattle.pd_web.specs.Sockets.{loose_ports, side_ports};
ghost use Rattle.pd_ports.specs.Room.{HasLists};

use crate::room::PortRoom;
use crate::spots::gather_spots;
use pd_grove::{Grove, Node, PortSpot, Side};
use pd_kind::{Kind, PortList, ports};
use pd_web::{Jack, Port, Sockets, is_made_at};

/// The ports of a box, none with an end, in the room that was set aside for them.
pub(crate) fn filled(room: PortRoom, grove: &Grove, key: u32) -> Sockets
    requires small { KindsSmall grove.now }
    requires lists { HasLists room (length (jacks_at Inlets grove.now key)) (length (jacks_at Outlets grove.now key)) }
    ensures told { (side : Side) → side_ports side result ≡ loose_ports (jacks_at side grove.now key) }
    ensures made { result.is_made ≡ made_in (get grove.now.nodes key) }
    ensures few { (side : Side) → length (side_ports side result) < 2 ^ 32 }
{
    let PortRoom {
        mut inlets,
        mut outlets,
        mut spots,
        ..
    } = room;
    fill_ports(&mut inlets, &mut spots, grove, Side::Inlets, key);
    fill_ports(&mut outlets, &mut spots, grove, Side::Outlets, key);
    Sockets {
        inlets,
        outlets,
        is_made: is_made_at(grove, key),
    }
}

/// The ports of a box on a side.
fn fill_ports(list: &mut Vec<Port>, spots: &mut Vec<PortSpot>, grove: &Grove, side: Side, key: u32)
    requires small { KindsSmall grove.now }
    requires empty { list.old.items ≡ [] }
    requires room { length (jacks_at side grove.now key) ≤ vec_capacity list.old }
    requires spots { length (jacks_at side grove.now key) ≤ vec_capacity spots.old }
    ensures told { list.new.items ≡ loose_ports (jacks_at side grove.now key) }
    ensures kept { vec_capacity spots.old ≤ vec_capacity spots.new }
{
    if let Some(node) = grove.node(key) {
        fill_node(list, spots, grove, side, node);
    }
}

fn fill_node(
    list: &mut Vec<Port>,
    spots: &mut Vec<PortSpot>,
    grove: &Grove,
    side: Side,
    node: &Node,
)
    requires small { IsSmallKind node.now.kind }
    requires empty { list.old.items ≡ [] }
    requires room { length (jacks_in side grove.now (Some node.now)) ≤ vec_capacity list.old }
    requires spots { length (jacks_in side grove.now (Some node.now)) ≤ vec_capacity spots.old }
    ensures told { list.new.items ≡ loose_ports (jacks_in side grove.now (Some node.now)) }
    ensures kept { vec_capacity spots.old ≤ vec_capacity spots.new }
{
    match node.inner {
        Some(canvas) => fill_from_canvas(list, spots, grove, side, canvas),
        None => fill_from_kind(list, side, &node.kind),
    }
}

/// The ports that a canvas gives the box in which it is.
fn fill_from_canvas(
    list: &mut Vec<Port>,
    spots: &mut Vec<PortSpot>,
    grove: &Grove,
    side: Side,
    canvas: u32,
)
    requires empty { list.old.items ≡ [] }
    requires room { length (canvas_jacks side grove.now canvas) ≤ vec_capacity list.old }
    requires spots { length (canvas_jacks side grove.now canvas) ≤ vec_capacity spots.old }
    ensures told { list.new.items ≡ loose_ports (canvas_jacks side grove.now canvas) }
    ensures kept { vec_capacity spots.old ≤ vec_capacity spots.new }
{
    gather_spots(spots, grove, side, canvas);
    fill_from_spots(list, spots.as_slice());
}

fn fill_from_spots(list: &mut Vec<Port>, spots: &[PortSpot])
    requires empty { list.old.items ≡ [] }
    requires room { length spots.now ≤ vec_capacity list.old }
    ensures { list.new.items ≡ loose_ports (map spot_jack spots.now) }
{
    for spot in spots {
        list.push_reserved(Port {
            end: None,
            jack: Jack {
                is_signal: spot.is_signal,
                inner: Some(spot.node),
            },
        });
    }
}

/// The ports of a kind.
fn fill_from_kind(list: &mut Vec<Port>, side: Side, kind: &Kind)
    requires small { IsSmallKind kind.now }
    requires empty { list.old.items ≡ [] }
    requires room { length (kind_jacks side kind.now) ≤ vec_capacity list.old }
    ensures { list.new.items ≡ loose_ports (kind_jacks side kind.now) }
{
    let own = ports(kind);
    match side {
        Side::Inlets => fill_inlets(list, &own),
        Side::Outlets => fill_outlets(list, &own),
    }
}

fn fill_inlets(list: &mut Vec<Port>, own: &PortList)
    requires empty { list.old.items ≡ [] }
    requires room { own.now.inlets ≤ vec_capacity list.old }
    ensures { list.new.items ≡ loose_ports (map plain_jack (marks own.now.signal_inlets own.now.inlets)) }
{
    for i in 0..own.inlets() {
        list.push_reserved(Port {
            end: None,
            jack: Jack {
                is_signal: own.inlet_signal(i),
                inner: None,
            },
        });
    }
}

fn fill_outlets(list: &mut Vec<Port>, own: &PortList)
    requires empty { list.old.items ≡ [] }
    requires room { own.now.outlets ≤ vec_capacity list.old }
    ensures { list.new.items ≡ loose_ports (map plain_jack (marks own.now.signal_outlets own.now.outlets)) }
{
    for i in 0..own.outlets() {
        list.push_reserved(Port {
            end: None,
            jack: Jack {
                is_signal: own.outlet_signal(i),
                inner: None,
            },
        });
    }
}
