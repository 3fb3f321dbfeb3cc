//! What the order of a canvas asks of its boxes.

ghost use Rattle.std.specs.Prelude.{◌≡◌};
ghost use Rattle.slab.specs.Slab.{get};
ghost use Rattle.pd_web.specs.Canvases.{keys_at};
ghost use Rattle.pd_patch.specs.Orders.{is_signal as is_signal_so, is_signal_node};
ghost use Rattle.pd_placing.specs.Placing.{is_last};

use pd_grove::Grove;
use pd_kind::Kind;

/// Whether the boxes of a kind stand in the signal order.
fn is_signal(kind: &Kind) -> bool
    ensures { result ≡ is_signal_so kind.now }
{
    matches!(kind, Kind::Tone(_) | Kind::Signal(_) | Kind::Vline)
}

/// Whether the box of a key stands in the signal order: one that holds a canvas, or of such a kind.
pub fn is_signal_box(grove: &Grove, key: u32) -> bool
    ensures { result ≡ is_signal_node (get grove.now.nodes key) }
{
    match grove.node(key) {
        Some(node) => node.inner.is_some() || is_signal(&node.kind),
        None => false,
    }
}

/// Whether the box of a key is the last of a canvas.
pub(crate) fn is_last_box(grove: &Grove, canvas: u32, key: u32) -> bool
    ensures { result ≡ is_last (keys_at grove.now canvas) key }
{
    match grove.board(canvas) {
        Some(board) => ends_with(board.nodes.as_slice(), key),
        None => false,
    }
}

fn ends_with(keys: &[u32], key: u32) -> bool
    ensures { result ≡ is_last keys.now key }
{
    match keys.last() {
        Some(last) => *last == key,
        None => false,
    }
}
