//! Which ports a box has.

ghost use Rattle.std.specs.Prelude.{◌≡◌, ◌≤◌, ℕ, Some, map, IfOk, length};
ghost use Rattle.slab.specs.Slab.{get};
ghost use Rattle.pd_object.specs.Ports.{IsSmallKind, ports_of};
ghost use Rattle.pd_tree.specs.Ports.{is_made};
ghost use Rattle.pd_grove.specs.declared.nodes.Node.{Node};
ghost use Rattle.pd_web.specs.Jacks.{KindsSmall, plain_jack, spot_jack, marks, kind_jacks as jacks_of_kind, canvas_jacks as jacks_of_canvas, jacks_in, jacks_at as jacks_of_box, made_in};

use pd_grove::{Grove, Node, PortSpot, Side};
use pd_kind::{Kind, PortList, ports};
use std::alloc::{AllocError, Global};

/// A port of a box: whether it carries signals, and, where the box holds a canvas, the key of the box in it that is this port.
#[derive(Clone, Copy, Debug, PartialEq, Eq)]
pub struct Jack {
    pub is_signal: bool,
    pub inner: Option<u32>,
}

/// The ports of a box on a side: those of the canvas in it, or else those of its kind.
pub fn jacks_at(alloc: Global, grove: &Grove, side: Side, key: u32) -> Result<Vec<Jack>, AllocError>
    requires { KindsSmall grove.now }
    ensures { IfOk result (λ jacks. jacks.items ≡ jacks_of_box side grove.now key) }
{
    match grove.node(key) {
        Some(node) => node_jacks(alloc, grove, side, node),
        None => Ok(Vec::new(alloc)),
    }
}

/// Whether a box is made. One that holds a canvas is.
pub fn is_made_at(grove: &Grove, key: u32) -> bool
    ensures { result ≡ made_in (get grove.now.nodes key) }
{
    match grove.node(key) {
        Some(node) => node.inner.is_some() || is_made_kind(&node.kind),
        None => false,
    }
}

fn is_made_kind(kind: &Kind) -> bool
    ensures { result ≡ is_made kind.now }
{
    match kind {
        Kind::Unmade => false,
        _ => true,
    }
}

fn node_jacks(
    alloc: Global,
    grove: &Grove,
    side: Side,
    node: &Node,
) -> Result<Vec<Jack>, AllocError>
    requires { IsSmallKind node.now.kind }
    ensures { IfOk result (λ jacks. jacks.items ≡ jacks_in side grove.now (Some node.now)) }
{
    match node.inner {
        Some(canvas) => canvas_jacks(alloc, grove, side, canvas),
        None => kind_jacks(alloc, side, &node.kind),
    }
}

/// The ports that a canvas gives the box in which it is.
fn canvas_jacks(
    alloc: Global,
    grove: &Grove,
    side: Side,
    canvas: u32,
) -> Result<Vec<Jack>, AllocError>
    ensures { IfOk result (λ jacks. jacks.items ≡ jacks_of_canvas side grove.now canvas) }
{
    let spots = grove.ports_in(alloc, side, canvas)?;
    spot_jacks(alloc, spots.as_slice())
}

fn spot_jacks(alloc: Global, spots: &[PortSpot]) -> Result<Vec<Jack>, AllocError>
    ensures { IfOk result (λ jacks. jacks.items ≡ map spot_jack spots.now) }
{
    let mut jacks = Vec::new(alloc);
    for spot in spots {
        jacks.push(Jack {
            is_signal: spot.is_signal,
            inner: Some(spot.node),
        })?;
    }
    Ok(jacks)
}

/// The ports of a kind.
fn kind_jacks(alloc: Global, side: Side, kind: &Kind) -> Result<Vec<Jack>, AllocError>
    requires { IsSmallKind kind.now }
    ensures { IfOk result (λ jacks. jacks.items ≡ jacks_of_kind side kind.now) }
{
    let list = ports(kind);
    match side {
        Side::Inlets => inlet_jacks(alloc, &list),
        Side::Outlets => outlet_jacks(alloc, &list),
    }
}

fn inlet_jacks(alloc: Global, list: &PortList) -> Result<Vec<Jack>, AllocError>
    ensures { IfOk result (λ jacks. jacks.items ≡ map plain_jack (marks list.now.signal_inlets list.now.inlets)) }
{
    let mut jacks = Vec::new(alloc);
    for i in 0..list.inlets() {
        jacks.push(Jack {
            is_signal: list.inlet_signal(i),
            inner: None,
        })?;
    }
    Ok(jacks)
}

fn outlet_jacks(alloc: Global, list: &PortList) -> Result<Vec<Jack>, AllocError>
    ensures { IfOk result (λ jacks. jacks.items ≡ map plain_jack (marks list.now.signal_outlets list.now.outlets)) }
{
    let mut jacks = Vec::new(alloc);
    for i in 0..list.outlets() {
        jacks.push(Jack {
            is_signal: list.outlet_signal(i),
            inner: None,
        })?;
    }
    Ok(jacks)
}
