//! The signal orders of all canvases.

ghost use Rattle.std.specs.Prelude.{◌≡◌, ◌<◌, ◌≤◌, ◌+◌, ◌*◌, ◌++◌, ◌∷◌, [], ℕ, true, length, slice_get, IfOk, OnOk, OnErr};
ghost use Rattle.slab.specs.Slab.{get};
ghost use Rattle.pd_order.specs.Graph.{IsOrder};
ghost use Rattle.pd_chain.specs.Wires.{graph_of, IsCanvas};
ghost use Rattle.pd_grove.specs.Owning.{AreOwn};
ghost use Rattle.pd_web.specs.Canvases.{keys_at};
ghost use Rattle.pd_web.specs.Hops.{fan_hops};
ghost use Rattle.pd_patch.specs.Grown.{AreLaid};
ghost use Rattle.pd_patch.specs.Looks.{most_looks};
ghost use Rattle.pd_patch.specs.Orders.{is_signal as is_signal_so, is_signal_node, signal_among, hop_wires, wires_by, wires_from, box_wires, signal_wires_among, IsChain, HasOrder, AreOrdered};

use crate::numbers::canvas_end;
use pd_chain::{SignalWire, order_of};
use pd_grove::Grove;
use pd_kind::Kind;
use pd_order::{Order, Steps};
use pd_web::{Hop, Web};
use std::alloc::{AllocError, Global};
use std::marker::Brand;
use std::sync::ledger::{Blank, Ledger};

/// A patch has at most so many wires.
const MOST_WIRES: u32 = 65_536;

/// The signal order of each canvas, by its key.
pub(crate) fn orders_of(
    alloc: Global,
    grove: &Grove,
    web: &Web,
) -> Result<Vec<Option<Order>>, AllocError>
    requires own { AreOwn (get grove.now.nodes) (get grove.now.boards) }
    requires laid { AreLaid grove.now web.now }
    ensures { IfOk result (λ orders. AreOrdered grove.now web.now orders.items) }
{
    orders_in::<Brand>(alloc, grove, web, Blank::new(1))
}

// The same with a ledger for the count of looks, which nobody reads.
fn orders_in<L: Ledger>(
    alloc: Global,
    grove: &Grove,
    web: &Web,
    blank: Blank,
) -> Result<Vec<Option<Order>>, AllocError>
    requires name { blank.name ≡ L.name }
    requires parts { blank.parts ≡ L.parts }
    requires some { 0 < blank.parts }
    requires own { AreOwn (get grove.now.nodes) (get grove.now.boards) }
    requires laid { AreLaid grove.now web.now }
    ensures { IfOk result (λ orders. AreOrdered grove.now web.now orders.items) }
{
    let mut steps = Steps::<L>::new(blank);
    let end = canvas_end(grove)?;
    let mut orders = Vec::new(alloc);
    for key in 0..end {
        let order = order_under(alloc, grove, web, key, &mut steps)?;
        orders.push(order)?;
    }
    Ok(orders)
}

/// The signal order of the canvas under a key, where there is one.
fn order_under<L: Ledger>(
    alloc: Global,
    grove: &Grove,
    web: &Web,
    key: u32,
    steps: &mut Steps<L>,
) -> Result<Option<Order>, AllocError>
    requires own { AreOwn (get grove.now.nodes) (get grove.now.boards) }
    requires laid { AreLaid grove.now web.now }
    ensures order { IfOk result (λ o. HasOrder grove.now web.now (get grove.now.boards key) o) }
    ensures looks { steps.new ≤ steps.old + most_looks grove.now web.now (keys_at grove.now key) }
{
    match grove.board(key) {
        Some(board) => order_in_board(alloc, grove, web, board.nodes.as_slice(), steps),
        None => Ok(None),
    }
}

/// The signal order of a canvas whose boxes have these keys.
fn order_in_board<L: Ledger>(
    alloc: Global,
    grove: &Grove,
    web: &Web,
    nodes: &[u32],
    steps: &mut Steps<L>,
) -> Result<Option<Order>, AllocError>
    requires canvas { IsCanvas nodes.now (signal_among grove.now nodes.now) (signal_wires_among web.now (signal_among grove.now nodes.now)) }
    requires few { (k outlet : ℕ) → length (fan_hops web.now k outlet) ≤ 65536 }
    ensures order { IfOk result (IsChain grove.now web.now nodes.now) }
    ensures looks { steps.new ≤ steps.old + most_looks grove.now web.now nodes.now }
{
    let signal = signal_boxes(alloc, grove, nodes)?;
    let wires = signal_wires(alloc, web, signal.as_slice())?;
    let order = order_among(alloc, nodes, signal.as_slice(), wires.as_slice(), steps)?;
    Ok(Some(order))
}

/// The order of boxes by their wires, where there are no more of them than can be counted.
fn order_among<L: Ledger>(
    alloc: Global,
    nodes: &[u32],
    signal: &[u32],
    wires: &[SignalWire],
    steps: &mut Steps<L>,
) -> Result<Order, AllocError>
    requires { IsCanvas nodes.now signal.now wires.now }
    ensures order { IfOk result (λ made. IsOrder (graph_of nodes.now wires.now) signal.now made.chain made.stuck) }
    ensures looks { OnOk result (steps.new ≤ steps.old + 4 * (length signal.now + 2 * length wires.now) + 8) }
    ensures no_looks { OnErr result (steps.new ≡ steps.old) }
{
    if is_few(nodes.len()) && is_few(wires.len()) {
        return order_of(alloc, nodes, signal, wires, steps);
    }
    Err(AllocError)
}

/// Whether the boxes of a kind stand in the signal order.
fn is_signal(kind: &Kind) -> bool
    ensures { result ≡ is_signal_so kind.now }
{
    matches!(kind, Kind::Tone(_) | Kind::Signal(_) | Kind::Vline)
}

/// Whether the box of a key stands in the signal order: one that holds a canvas, or of such a kind.
fn is_signal_box(grove: &Grove, key: u32) -> bool
    ensures { result ≡ is_signal_node (get grove.now.nodes key) }
{
    match grove.node(key) {
        Some(node) => node.inner.is_some() || is_signal(&node.kind),
        None => false,
    }
}

/// Those of the boxes that stand in the signal order.
fn signal_boxes(alloc: Global, grove: &Grove, nodes: &[u32]) -> Result<Vec<u32>, AllocError>
    ensures { IfOk result (λ signal. signal.items ≡ signal_among grove.now nodes.now) }
{
    let mut signal = Vec::new(alloc);
    for key in nodes {
        push_signal_box(grove, *key, &mut signal)?;
    }
    Ok(signal)
}

/// Adds a box, where it stands in the signal order.
fn push_signal_box(grove: &Grove, key: u32, signal: &mut Vec<u32>) -> Result<(), AllocError>
    ensures { OnOk result (signal.new.items ≡ signal.old.items ++ signal_among grove.now (key ∷ [])) }
{
    if is_signal_box(grove, key) {
        signal.push(key)?;
    }
    Ok(())
}

/// The signal wires that leave boxes.
fn signal_wires(alloc: Global, web: &Web, signal: &[u32]) -> Result<Vec<SignalWire>, AllocError>
    requires few { (k outlet : ℕ) → length (fan_hops web.now k outlet) ≤ 65536 }
    ensures { IfOk result (λ wires. wires.items ≡ signal_wires_among web.now signal.now) }
{
    let mut wires = Vec::new(alloc);
    for key in signal {
        push_box_wires(web, *key, &mut wires)?;
    }
    Ok(wires)
}

/// Adds the signal wires that leave a box.
pub(crate) fn push_box_wires(
    web: &Web,
    node: u32,
    wires: &mut Vec<SignalWire>,
) -> Result<(), AllocError>
    requires few { (outlet : ℕ) → length (fan_hops web.now node outlet) ≤ 65536 }
    ensures { OnOk result (wires.new.items ≡ wires.old.items ++ box_wires web.now node) }
{
    for outlet in 0..web.outlets_at(node) {
        push_signal_outlet(web, node, outlet, wires)?;
    }
    Ok(())
}

/// Adds the signal wires of an outlet, where it carries signals.
fn push_signal_outlet(
    web: &Web,
    node: u32,
    outlet: u32,
    wires: &mut Vec<SignalWire>,
) -> Result<(), AllocError>
    requires few { length (fan_hops web.now node outlet) ≤ 65536 }
    ensures { OnOk result (wires.new.items ≡ wires.old.items ++ wires_from web.now node outlet) }
{
    if web.outlet_signal_at(node, outlet) {
        return push_outlet_wires(web, node, outlet, wires);
    }
    Ok(())
}

/// Adds the signal wires among those of an outlet.
fn push_outlet_wires(
    web: &Web,
    node: u32,
    outlet: u32,
    wires: &mut Vec<SignalWire>,
) -> Result<(), AllocError>
    requires few { length (fan_hops web.now node outlet) ≤ 65536 }
    ensures { OnOk result (wires.new.items ≡ wires.old.items ++ wires_by web.now node (fan_hops web.now node outlet)) }
{
    let mut next = web.fan_first(node, outlet);
    for _ in 0..MOST_WIRES {
        if next.is_none() {
            return Ok(());
        }
        next = push_hop(web, node, outlet, next, wires)?;
    }
    Ok(())
}

/// Adds the wire to a port, where that carries signals, and gives the next wire of the outlet.
fn push_hop(
    web: &Web,
    source: u32,
    outlet: u32,
    hop: Option<Hop>,
    wires: &mut Vec<SignalWire>,
) -> Result<Option<Hop>, AllocError>
    ensures wires { OnOk result (wires.new.items ≡ wires.old.items ++ hop_wires web.now source hop) }
    ensures next { (i : ℕ) → hop ≡ slice_get (fan_hops web.now source outlet) i → IfOk result (λ next. next ≡ slice_get (fan_hops web.now source outlet) (i + 1)) }
{
    match hop {
        Some(hop) => {
            push_wire(web, source, hop, wires)?;
            Ok(web.fan_next(hop))
        }
        None => Ok(None),
    }
}

/// Adds the wire to a port, where that carries signals.
fn push_wire(
    web: &Web,
    source: u32,
    hop: Hop,
    wires: &mut Vec<SignalWire>,
) -> Result<(), AllocError>
    ensures { OnOk result (wires.new.items ≡ wires.old.items ++ wires_by web.now source (hop ∷ [])) }
{
    if web.inlet_signal_at(hop.node(), hop.port()) {
        wires.push(SignalWire {
            source,
            sink: hop.node(),
        })?;
    }
    Ok(())
}

/// Whether so many boxes or wires can be counted.
fn is_few(count: usize) -> bool
    ensures { result ≡ true → count < 4294967295 }
{
    count < 4_294_967_295
}
