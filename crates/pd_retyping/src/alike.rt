//! Which box can become another one in its place.

ghost use Rattle.std.specs.Prelude.{◌≡◌, ◌||◌, true, false, is_some};
ghost use Rattle.slab.specs.Slab.{get};
ghost use Rattle.pd_grove.specs.declared.ports.Side.TheVariants.{Inlets, Outlets};
ghost use Rattle.pd_grove.specs.Forest.{holder_in};
ghost use Rattle.pd_grove.specs.Ports.{port_signal};
ghost use Rattle.pd_refitting.specs.Refits.{IsPlainIn};
ghost use Rattle.pd_retyping.specs.Becoming.{IsAlike};

use pd_grove::Node;
use pd_kind::{Glue, Kind, Signal};
use pd_patch::Patch;

/// Whether a box of a patch can become one of a kind that holds no canvas: it holds none either, and neither is a port of a box around.
pub(crate) fn is_alike(patch: &Patch, node: &Node, kind: &Kind) -> bool
    ensures yes { result ≡ true → IsAlike patch.now node.now kind.now }
    ensures no { result ≡ false → IsAlike patch.now node.now kind.now → ⊥ }
{
    if node.inner.is_some() {
        return false;
    }
    if !is_plain_in(patch, node.board, &node.kind) {
        return false;
    }
    is_plain_in(patch, node.board, kind)
}

/// Whether a box of a kind is no port of a box around a canvas.
fn is_plain_in(patch: &Patch, canvas: u32, kind: &Kind) -> bool
    ensures yes { result ≡ true → IsPlainIn patch.now canvas kind.now }
    ensures no { result ≡ false → IsPlainIn patch.now canvas kind.now → ⊥ }
{
    if !is_held(patch, canvas) {
        return true;
    }
    !is_port(kind)
}

/// Whether a box holds the canvas of a key.
fn is_held(patch: &Patch, canvas: u32) -> bool
    ensures { result ≡ is_some (holder_in (get patch.now.grove.boards canvas)) }
{
    match patch.grove.board(canvas) {
        Some(board) => board.holder.is_some(),
        None => false,
    }
}

/// Whether a box of a kind is a port of its canvas.
fn is_port(kind: &Kind) -> bool
    ensures { result ≡ (is_some (port_signal Inlets kind.now) || is_some (port_signal Outlets kind.now)) }
{
    match kind {
        Kind::Glue(Glue::Port { .. }) | Kind::Signal(Signal::Inlet | Signal::Outlet) => true,
        _ => false,
    }
}
