//! Which box an edit deletes, or why it is refused, and which port of the box around it is.

ghost use Rattle.std.specs.Prelude.{◌≡◌, ◌<◌, ℕ, true, length, option_map, Some, Ok, Err, IfOk, IfErr, IfSome, IsSome};
ghost use Rattle.slab.specs.Slab.{get};
ghost use Rattle.pd_grove.specs.declared.nodes.Node.{Node};
ghost use Rattle.pd_grove.specs.declared.ports.Side.{Side};
ghost use Rattle.pd_grove.specs.Ports.{port_signal};
ghost use Rattle.pd_grove.specs.Telling.{inner_in};
ghost use Rattle.pd_web.specs.Hops.{place_of, port_told};
ghost use Rattle.pd_deleting.specs.Deletes.{going};

use pd_boxes::Place;
use pd_grove::{Grove, Side};
use pd_kind::{Glue, Kind, Side as PortSide, Signal};
use pd_patch::Patch;
use pd_web::Spot;
use pd_wiring::EditRefusal;

/// A box that goes: the place at which it stands, and its key.
#[derive(Clone, Copy)]
pub(crate) struct Going {
    pub place: Place,
    pub key: u32,
}

/// The box of a number of the canvas at a path.
pub(crate) fn box_to_go(patch: &Patch, path: &[u32], number: u32) -> Result<Going, EditRefusal>
    ensures is { IfOk result (λ b. going patch.now path.now number ≡ Ok (b.place.canvas, b.key)) }
    ensures number { IfOk result (λ b. b.place.number ≡ number) }
    ensures refused { IfErr result (λ why. going patch.now path.now number ≡ Err why) }
{
    let Some(canvas) = patch.grove.own_canvas_at(path) else {
        return Err(EditRefusal::NoCanvas);
    };
    let Some(key) = patch.grove.box_key(canvas, number) else {
        return Err(EditRefusal::NoBox { number });
    };
    let place = Place { canvas, number };
    Ok(Going { place, key })
}

/// The port of the box around that a box is; `None` where it is none.
pub(crate) fn port_of(patch: &Patch, key: u32) -> Option<Spot>
    ensures told { option_map place_of result ≡ port_told patch.now.web key }
    ensures side { IfSome result (λ s. (n : Node) (side : Side) → get patch.now.grove.nodes key ≡ Some n → IsSome (port_signal side n.kind) → s.side ≡ side) }
{
    let (node, port) = patch.web.port_of(key)?;
    let side = side_at(&patch.grove, key);
    Some(Spot { node, side, port })
}

/// On which side a port box is a port.
fn side_at(grove: &Grove, key: u32) -> Side
    ensures { (n : Node) (side : Side) → get grove.now.nodes key ≡ Some n → IsSome (port_signal side n.kind) → result ≡ side }
{
    match grove.node(key) {
        Some(node) => side_of(&node.kind),
        None => Side::Inlets,
    }
}

/// On which side a box of a kind is a port, where it is one.
fn side_of(kind: &Kind) -> Side
    ensures { (side : Side) → IsSome (port_signal side kind.now) → result ≡ side }
{
    match kind {
        Kind::Glue(
            Glue::Port {
                side: PortSide::Outlet,
            },
        ) => Side::Outlets,
        Kind::Signal(Signal::Outlet) => Side::Outlets,
        _ => Side::Inlets,
    }
}

/// Whether a port box holds no canvas, and each box has a place for its blocks, as in every patch that runs.
pub(crate) fn can_lose_port(patch: &Patch, key: u32) -> bool
    ensures leaf { result ≡ true → inner_in (get patch.now.grove.nodes key) ≡ None }
    ensures reached { result ≡ true → (k : ℕ) → IsSome (get patch.now.grove.nodes k) → k < length patch.now.values.items }
{
    patch.grove.canvas_in(key).is_none() && has_places(patch)
}

/// Whether each box has a place for its blocks.
fn has_places(patch: &Patch) -> bool
    ensures { result ≡ true → (k : ℕ) → IsSome (get patch.now.grove.nodes k) → k < length patch.now.values.items }
{
    let Ok(end) = u32::try_from(patch.grove.nodes_end()) else {
        return false;
    };
    let from = patch.values.len().min(end as usize) as u32;
    for key in from..end {
        if patch.grove.node(key).is_some() {
            return false;
        }
    }
    true
}
