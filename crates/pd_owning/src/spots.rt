//! The place of a box in text order, by its key.

ghost use Rattle.std.specs.Prelude.{◌≡◌, ◌≤◌, ℕ, Some, slice_get};
ghost use Rattle.slab.specs.Slab.{get, ContainsKey};
ghost use Rattle.pd_grove.specs.Forest.{IsForest};
ghost use Rattle.pd_grove.specs.TextOrder.{spots_in_order};
ghost use Rattle.pd_owning.specs.Order.{is_sub_box, is_own};

use crate::order::{holder, level_of};
use pd_canvas::Form;
use pd_grove::{Grove, Spot};

/// A live box as it stands in text order: whether it is in the patch's own document is whether all boxes around it are subpatches.
pub fn spot_at(grove: &Grove, node: u32) -> Spot
    requires forest { IsForest (get grove.now.nodes) (get grove.now.boards) grove.now.root }
    requires here { ContainsKey grove.now.nodes node }
    ensures node { result.node ≡ node }
    ensures stands { (i : ℕ) × (slice_get (spots_in_order grove.now) i ≡ Some result) }
{
    Spot {
        node,
        is_top: is_in_own_document(grove, node, level_of(grove, node)),
    }
}

/// Whether the boxes around a box are subpatches, so many of them.
fn is_in_own_document(grove: &Grove, node: u32, boxes: u32) -> bool
    ensures { result ≡ is_own (get grove.now.nodes) (get grove.now.boards) boxes node }
{
    if boxes == 0 {
        return true;
    }
    match holder(grove, node) {
        Some(outer) => { is_in_own_document(grove, outer, boxes - 1) && is_subpatch(grove, outer) }
        None => true,
    }
}

/// Whether a box is a subpatch.
pub(crate) fn is_subpatch(grove: &Grove, node: u32) -> bool
    ensures { result ≡ is_sub_box (get grove.now.nodes node) }
{
    match grove.node(node) {
        Some(node) => matches!(node.element.form, Form::Sub(_)),
        None => false,
    }
}
