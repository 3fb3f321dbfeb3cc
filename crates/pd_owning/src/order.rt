//! Which of two boxes comes first in text order, by climbing out of both to a canvas that they share.

ghost use Rattle.std.specs.Prelude.{◌≡◌, ◌≢◌, ◌<◌, ◌≤◌, ◌↔◌, ℕ, Some, IsTrue, slice_get, option_and_then};
ghost use Rattle.slab.specs.Slab.{get};
ghost use Rattle.pd_grove.specs.Owning.{board_in};
ghost use Rattle.pd_grove.specs.Forest.{IsForest};
ghost use Rattle.pd_grove.specs.Labelled.{IsLabelled};
ghost use Rattle.pd_grove.specs.TextOrder.{keys_in_order};
ghost use Rattle.pd_owning.specs.Order.{holder_of, box_out, level, StandBeside};

use pd_grove::Grove;

/// Whether a box comes before another one in text order. Both are climbed out of to a canvas that they share, so this
/// takes at most so many steps as canvases lie around them.
pub fn comes_before(grove: &Grove, node: u32, other: u32) -> bool
    requires forest { IsForest (get grove.now.nodes) (get grove.now.boards) grove.now.root }
    requires labelled { IsLabelled grove.now }
    ensures { (i j : ℕ) → slice_get (keys_in_order grove.now) i ≡ Some node → slice_get (keys_in_order grove.now) j ≡ Some other →
        (IsTrue result ↔ (i < j)) }
{
    let depth = level_of(grove, node);
    let other_depth = level_of(grove, other);
    let shared = depth.min(other_depth);
    let Some(outer) = out_from(grove, node, depth - shared) else {
        return false;
    };
    let Some(other_outer) = out_from(grove, other, other_depth - shared) else {
        return false;
    };
    if outer == other_outer {
        return depth < other_depth;
    }
    leads(grove, outer, other_outer, shared)
}

/// Whether of two boxes that lie in as many canvases the first comes before the other. At most so many canvases lie around them.
fn leads(grove: &Grove, node: u32, other: u32, canvases: u32) -> bool
    requires forest { IsForest (get grove.now.nodes) (get grove.now.boards) grove.now.root }
    requires labelled { IsLabelled grove.now }
    ensures { (m i j : ℕ) → m ≤ canvases → i ≢ j → StandBeside (get grove.now.nodes) (get grove.now.boards) m m node other i j →
        (IsTrue result ↔ (i < j)) }
{
    if lie_together(grove, node, other) {
        return grove.is_before(node, other);
    }
    if canvases == 0 {
        return false;
    }
    let Some(outer) = holder(grove, node) else {
        return false;
    };
    let Some(other_outer) = holder(grove, other) else {
        return false;
    };
    leads(grove, outer, other_outer, canvases - 1)
}

/// Whether two boxes lie in one canvas.
fn lie_together(grove: &Grove, node: u32, other: u32) -> bool
    ensures { IsTrue result ↔ (board_in (get grove.now.nodes node) ≡ board_in (get grove.now.nodes other)) }
{
    match (canvas_of(grove, node), canvas_of(grove, other)) {
        (Some(canvas), Some(other_canvas)) => canvas == other_canvas,
        (None, None) => true,
        (Some(_), None) | (None, Some(_)) => false,
    }
}

/// The canvas in which a box lies.
fn canvas_of(grove: &Grove, node: u32) -> Option<u32>
    ensures { result ≡ board_in (get grove.now.nodes node) }
{
    let node = grove.node(node)?;
    Some(node.board)
}

/// The box that holds the canvas of a box.
pub(crate) fn holder(grove: &Grove, node: u32) -> Option<u32>
    ensures { result ≡ holder_of (get grove.now.nodes) (get grove.now.boards) node }
{
    let canvas = canvas_of(grove, node)?;
    grove.board(canvas)?.holder
}

/// In how many canvases the canvas of a box lies.
pub(crate) fn level_of(grove: &Grove, node: u32) -> u32
    ensures { result ≡ level (get grove.now.nodes) (get grove.now.boards) node }
{
    let Some(canvas) = canvas_of(grove, node) else {
        return 0;
    };
    match grove.board(canvas) {
        Some(board) => board.depth,
        None => 0,
    }
}

/// The box so many boxes further out.
fn out_from(grove: &Grove, node: u32, boxes: u32) -> Option<u32>
    ensures { result ≡ box_out (get grove.now.nodes) (get grove.now.boards) boxes node }
{
    let mut here = Some(node);
    for _ in 0..boxes {
        here = holder_around(grove, here);
    }
    here
}

/// The box that holds the canvas of a box, if there is that box.
fn holder_around(grove: &Grove, node: Option<u32>) -> Option<u32>
    ensures { result ≡ option_and_then (holder_of (get grove.now.nodes) (get grove.now.boards)) node }
{
    holder(grove, node?)
}
