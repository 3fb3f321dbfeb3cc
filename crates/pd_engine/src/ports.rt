//! The canvas around the one in which a port box lies.

ghost use Rattle.std.specs.Prelude.{◌≡◌, ◌||◌, is_some};
ghost use Rattle.slab.specs.Slab.{get};
ghost use Rattle.pd_grove.specs.declared.ports.Side.TheVariants.{Inlets, Outlets};
ghost use Rattle.pd_grove.specs.Ports.{port_signal};
ghost use Rattle.pd_adding.specs.Standing.{is_port_in};
ghost use Rattle.pd_stage.specs.Lines.{canvas_around as canvas_around_so, canvas_of_port as canvas_so};

use pd_kind::{Glue, Kind, Signal};
use pd_patch::Patch;

/// The canvas in which the box lies that holds a canvas, where a box of the latter is a port of that one.
pub(crate) fn canvas_of_port(patch: &Patch, key: u32, canvas: u32) -> Option<u32>
    ensures { result ≡ canvas_so patch.now key canvas }
{
    if is_port_box(patch, key) {
        canvas_around(patch, canvas)
    } else {
        None
    }
}

fn canvas_around(patch: &Patch, canvas: u32) -> Option<u32>
    ensures { result ≡ canvas_around_so patch.now canvas }
{
    let holder = patch.grove.board(canvas)?.holder?;
    Some(patch.grove.node(holder)?.board)
}

/// Whether a box is a port of its canvas.
fn is_port_box(patch: &Patch, key: u32) -> bool
    ensures { result ≡ is_port_in (get patch.now.grove.nodes key) }
{
    match patch.grove.node(key) {
        Some(node) => is_port(&node.kind),
        None => false,
    }
}

/// Whether a box of a kind is a port of its canvas.
fn is_port(kind: &Kind) -> bool
    ensures { result ≡ (is_some (port_signal Inlets kind.now) || is_some (port_signal Outlets kind.now)) }
{
    match kind {
        Kind::Glue(Glue::Port { .. }) | Kind::Signal(Signal::Inlet | Signal::Outlet) => true,
        _ => false,
    }
}
