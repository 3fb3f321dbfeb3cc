//! Boxes as wires see them.

ghost use Rattle.std.specs.Prelude.{◌≡◌, IfOk};
ghost use Rattle.pd_object.specs.Ports.{IsSmallKind};
ghost use Rattle.pd_tree.specs.Ports.{is_made};
ghost use Rattle.pd_tree.specs.Trees.{stand_of};
ghost use Rattle.pd_fit.specs.Seeing.{view_of, views_of, leaf_view, holder_view, marks};

use crate::ports::{Side, inlet_of, outlet_of, signals_among};
use pd_kind::{Kind, PortList, ports};
use pd_num::Num;
use pd_tree::Row;
use std::alloc::{AllocError, Global};

/// The ports of a box; where it stands, in millionths; and whether it is itself an inlet or an outlet of its canvas, and carries
/// signals there.
#[derive(Debug, Drop)]
pub struct Seen {
    pub inlets: Vec<bool>,
    pub outlets: Vec<bool>,
    pub is_made: bool,
    pub x: Num,
    pub inlet: Option<bool>,
    pub outlet: Option<bool>,
}

/// A box that holds no canvas.
pub(crate) fn leaf(alloc: Global, row: &Row) -> Result<Seen, AllocError>
    requires { IsSmallKind row.now.kind }
    ensures { IfOk result (λ seen. view_of seen ≡ leaf_view (stand_of row.now).cell) }
{
    let list = ports(&row.kind);
    let inlets = inlets_of(alloc, &list)?;
    let outlets = outlets_of(alloc, &list)?;
    Ok(Seen {
        inlets,
        outlets,
        is_made: is_made_kind(&row.kind),
        x: row.element.x,
        inlet: inlet_of(&row.kind),
        outlet: outlet_of(&row.kind),
    })
}

/// A box that holds a canvas with these boxes.
pub(crate) fn holder(alloc: Global, row: &Row, inner: &[Seen]) -> Result<Seen, AllocError>
    ensures { IfOk result (λ seen. view_of seen ≡ holder_view (stand_of row.now).cell (views_of inner.now)) }
{
    let inlets = signals_among(alloc, Side::Inlets, inner)?;
    let outlets = signals_among(alloc, Side::Outlets, inner)?;
    Ok(Seen {
        inlets,
        outlets,
        is_made: true,
        x: row.element.x,
        inlet: None,
        outlet: None,
    })
}

fn is_made_kind(kind: &Kind) -> bool
    ensures { result ≡ is_made kind.now }
{
    match kind {
        Kind::Unmade => false,
        _ => true,
    }
}

fn inlets_of(alloc: Global, list: &PortList) -> Result<Vec<bool>, AllocError>
    ensures { IfOk result (λ signals. signals.items ≡ marks list.now.signal_inlets list.now.inlets) }
{
    let mut signals = Vec::new(alloc);
    for i in 0..list.inlets() {
        signals.push(list.inlet_signal(i))?;
    }
    Ok(signals)
}

fn outlets_of(alloc: Global, list: &PortList) -> Result<Vec<bool>, AllocError>
    ensures { IfOk result (λ signals. signals.items ≡ marks list.now.signal_outlets list.now.outlets) }
{
    let mut signals = Vec::new(alloc);
    for i in 0..list.outlets() {
        signals.push(list.outlet_signal(i))?;
    }
    Ok(signals)
}
