//! A box with all that lies in it, told in text order.

ghost use Rattle.std.specs.Prelude.{◌≡◌, ◌++◌, ℕ, OnOk};
ghost use Rattle.slab.specs.Slab.{get};
ghost use Rattle.pd_grove.specs.TextOrder.{keys_inside, box_spots, spots_among};
ghost use Rattle.pd_owning.specs.Parts.{part_spots};

use crate::order::level_of;
use crate::spots::is_subpatch;
use pd_grove::{Grove, Spot};
use std::alloc::AllocError;

/// So many canvases may lie in the root.
const MOST_LEVELS: u32 = 256;

/// Adds a box and all boxes that lie in it, in text order.
///
/// # Errors
///
/// `AllocError` where memory ran out.
pub fn push_part(grove: &Grove, spot: Spot, spots: &mut Vec<Spot>) -> Result<(), AllocError>
    ensures { OnOk result (spots.new.items ≡ spots.old.items ++ part_spots (get grove.now.nodes) (get grove.now.boards) spot) }
{
    let levels = MOST_LEVELS.saturating_sub(level_of(grove, spot.node));
    push_box(grove, spot.node, spot.is_top, levels, spots)
}

/// Adds the boxes of a canvas, each before those inside it.
#[cycle(telling)]
fn push_boxes(
    grove: &Grove,
    keys: &[u32],
    is_top: bool,
    canvases: u32,
    spots: &mut Vec<Spot>,
) -> Result<(), AllocError>
    ensures { OnOk result (spots.new.items ≡ spots.old.items ++ spots_among (get grove.now.nodes) (get grove.now.boards) canvases is_top keys.now) }
{
    if canvases == 0 {
        return Ok(());
    }
    for key in keys {
        push_box(grove, *key, is_top, canvases - 1, spots)?;
    }
    Ok(())
}

/// Adds a live box, and then those inside it.
#[cycle(telling)]
fn push_box(
    grove: &Grove,
    key: u32,
    is_top: bool,
    canvases: u32,
    spots: &mut Vec<Spot>,
) -> Result<(), AllocError>
    ensures { OnOk result (spots.new.items ≡ spots.old.items ++ box_spots (get grove.now.boards) (spots_among (get grove.now.nodes) (get grove.now.boards) canvases) is_top key (get grove.now.nodes key)) }
{
    let Some(node) = grove.node(key) else {
        return Ok(());
    };
    spots.push(Spot { node: key, is_top })?;
    let inside = keys_inside_box(grove, node.inner);
    let is_top = is_top && is_subpatch(grove, key);
    push_boxes(grove, inside, is_top, canvases, spots)
}

/// The keys of the boxes of the canvas that a box holds.
fn keys_inside_box(grove: &Grove, inner: Option<u32>) -> &[u32]
    ensures { result.now ≡ keys_inside (get grove.now.boards) inner }
{
    let Some(canvas) = inner else {
        return &[];
    };
    match grove.board(canvas) {
        Some(board) => board.nodes.as_slice(),
        None => &[],
    }
}
