//! Which box an edit moves, or why it is refused, and which port of the box around it is.

ghost use Rattle.std.specs.Prelude.{◌≡◌, ◌||◌, true, false, Some, Ok, Err, IfOk, IfErr, IfSome, IfNone, IsSome, is_some};
ghost use Rattle.slab.specs.Slab.{get};
ghost use Rattle.pd_canvas.specs.Edits.{is_array as is_array_so};
ghost use Rattle.pd_canvas.specs.Views.{shape_of};
ghost use Rattle.pd_grove.specs.declared.nodes.Node.{Node};
ghost use Rattle.pd_grove.specs.declared.ports.Side.{Side};
ghost use Rattle.pd_grove.specs.declared.ports.Side.TheVariants.{Inlets, Outlets};
ghost use Rattle.pd_grove.specs.Forest.{holder_in};
ghost use Rattle.pd_grove.specs.Ports.{port_signal};
ghost use Rattle.pd_web.specs.Hops.{port_told};
ghost use Rattle.pd_adding.specs.Standing.{is_port_in};
ghost use Rattle.pd_shifting.specs.Moves.{is_array_in, is_port_around as is_port_so, moving};

use pd_canvas::Form;
use pd_grove::{Grove, Side};
use pd_kind::{Glue, Kind, Side as PortSide, Signal};
use pd_patch::Patch;
use pd_web::{Spot, Web};
use pd_wiring::EditRefusal;

/// A box that moves, and the canvas in which it lies, by their keys.
#[derive(Clone, Copy)]
pub(crate) struct Moving {
    pub canvas: u32,
    pub key: u32,
}

/// The box of a number of the canvas at a path, where it can move.
pub(crate) fn box_to_move(patch: &Patch, path: &[u32], number: u32) -> Result<Moving, EditRefusal>
    ensures is { IfOk result (λ b. moving patch.now path.now number ≡ Ok (b.canvas, b.key)) }
    ensures refused { IfErr result (λ why. moving patch.now path.now number ≡ Err why) }
{
    let Some(canvas) = patch.grove.own_canvas_at(path) else {
        return Err(EditRefusal::NoCanvas);
    };
    let Some(key) = patch.grove.box_key(canvas, number) else {
        return Err(EditRefusal::NoBox { number });
    };
    if is_array_box(&patch.grove, key) {
        return Err(EditRefusal::NoBox { number });
    }
    Ok(Moving { canvas, key })
}

/// The port of the box around that a box of a canvas is; `None` where it is none.
pub(crate) fn port_to_slide(patch: &Patch, moving: Moving) -> Option<Spot>
    requires known { is_port_so patch.now.grove moving.canvas moving.key ≡ true → IsSome (port_told patch.now.web moving.key) }
    ensures none { IfNone result (is_port_so patch.now.grove moving.canvas moving.key ≡ false) }
    ensures port { IfSome result (λ s. is_port_so patch.now.grove moving.canvas moving.key ≡ true) }
    ensures told { IfSome result (λ s. port_told patch.now.web moving.key ≡ Some (s.node, s.port)) }
    ensures side { IfSome result (λ s. (n : Node) (side : Side) → get patch.now.grove.nodes moving.key ≡ Some n → IsSome (port_signal side n.kind) → s.side ≡ side) }
{
    if !is_port_around(&patch.grove, moving.canvas, moving.key) {
        return None;
    }
    Some(port_of(&patch.web, &patch.grove, moving.key))
}

/// The port of the box around that a port box is.
fn port_of(web: &Web, grove: &Grove, key: u32) -> Spot
    requires { IsSome (port_told web.now key) }
    ensures told { port_told web.now key ≡ Some (result.node, result.port) }
    ensures side { (n : Node) (side : Side) → get grove.now.nodes key ≡ Some n → IsSome (port_signal side n.kind) → result.side ≡ side }
{
    let Some((node, port)) = web.port_of(key) else {
        unreachable!()
    };
    let side = side_at(grove, key);
    Spot { node, side, port }
}

/// On which side a port box is a port.
fn side_at(grove: &Grove, key: u32) -> Side
    ensures { (n : Node) (side : Side) → get grove.now.nodes key ≡ Some n → IsSome (port_signal side n.kind) → result ≡ side }
{
    match grove.node(key) {
        Some(node) => side_of(&node.kind),
        None => Side::Inlets,
    }
}

/// On which side a box of a kind is a port, where it is one.
fn side_of(kind: &Kind) -> Side
    ensures { (side : Side) → IsSome (port_signal side kind.now) → result ≡ side }
{
    match kind {
        Kind::Glue(
            Glue::Port {
                side: PortSide::Outlet,
            },
        ) => Side::Outlets,
        Kind::Signal(Signal::Outlet) => Side::Outlets,
        _ => Side::Inlets,
    }
}

/// Whether a box is an array.
fn is_array_box(grove: &Grove, key: u32) -> bool
    ensures { result ≡ is_array_in (get grove.now.nodes key) }
{
    match grove.node(key) {
        Some(node) => is_array(&node.element.form),
        None => false,
    }
}

/// Whether an element of a form is an array.
fn is_array(form: &Form) -> bool
    ensures { result ≡ is_array_so (shape_of form.now) }
{
    match form {
        Form::Array(_) => true,
        _ => false,
    }
}

/// Whether a box of a canvas is a port of the box around.
fn is_port_around(grove: &Grove, canvas: u32, key: u32) -> bool
    ensures { result ≡ is_port_so grove.now canvas key }
{
    is_held(grove, canvas) && is_port_box(grove, key)
}

/// Whether a box holds the canvas of a key.
fn is_held(grove: &Grove, canvas: u32) -> bool
    ensures { result ≡ is_some (holder_in (get grove.now.boards canvas)) }
{
    match grove.board(canvas) {
        Some(board) => board.holder.is_some(),
        None => false,
    }
}

/// Whether a box is a port of its canvas.
fn is_port_box(grove: &Grove, key: u32) -> bool
    ensures { result ≡ is_port_in (get grove.now.nodes key) }
{
    match grove.node(key) {
        Some(node) => is_port(&node.kind),
        None => false,
    }
}

/// Whether a box of a kind is a port of its canvas.
fn is_port(kind: &Kind) -> bool
    ensures { result ≡ (is_some (port_signal Inlets kind.now) || is_some (port_signal Outlets kind.now)) }
{
    match kind {
        Kind::Glue(Glue::Port { .. }) | Kind::Signal(Signal::Inlet | Signal::Outlet) => true,
        _ => false,
    }
}
