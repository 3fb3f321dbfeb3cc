//! A box that has come with all that lies in it, told in text order in a list that has room.

ghost use Rattle.std.specs.Prelude.{◌≡◌, ◌≤◌, ◌+◌, ◌-◌, ◌++◌, ℕ, length, vec_len, vec_capacity};
ghost use Rattle.slab.specs.Slab.{get};
ghost use Rattle.pd_canvas.specs.Views.{shape_of};
ghost use Rattle.pd_grove.specs.TextOrder.{is_sub, keys_inside, box_spots, spots_among};

use pd_canvas::Form;
use pd_grove::{Grove, Spot};

/// Adds the boxes of a canvas, each before those inside it. No memory is taken.
#[cycle(telling)]
fn push_boxes(grove: &Grove, keys: &[u32], is_top: bool, canvases: u32, spots: &mut Vec<Spot>)
    requires room { vec_len spots.old + length (spots_among (get grove.now.nodes) (get grove.now.boards) canvases is_top keys.now) ≤ vec_capacity spots.old }
    ensures told { spots.new.items ≡ spots.old.items ++ spots_among (get grove.now.nodes) (get grove.now.boards) canvases is_top keys.now }
    ensures len { vec_len spots.new ≡ vec_len spots.old + length (spots_among (get grove.now.nodes) (get grove.now.boards) canvases is_top keys.now) }
    ensures room { vec_capacity spots.new ≡ vec_capacity spots.old }
{
    if canvases == 0 {
        return;
    }
    for key in keys {
        push_box(grove, *key, is_top, canvases - 1, spots);
    }
}

/// Adds a live box, and then those inside it, where so many canvases may lie in one another there. No memory is taken.
#[cycle(telling)]
pub(crate) fn push_box(grove: &Grove, key: u32, is_top: bool, canvases: u32, spots: &mut Vec<Spot>)
    requires room { vec_len spots.old + length (box_spots (get grove.now.boards) (spots_among (get grove.now.nodes) (get grove.now.boards) canvases) is_top key (get grove.now.nodes key)) ≤ vec_capacity spots.old }
    ensures told { spots.new.items ≡ spots.old.items ++ box_spots (get grove.now.boards) (spots_among (get grove.now.nodes) (get grove.now.boards) canvases) is_top key (get grove.now.nodes key) }
    ensures len { vec_len spots.new ≡ vec_len spots.old + length (box_spots (get grove.now.boards) (spots_among (get grove.now.nodes) (get grove.now.boards) canvases) is_top key (get grove.now.nodes key)) }
    ensures room { vec_capacity spots.new ≡ vec_capacity spots.old }
{
    let Some(node) = grove.node(key) else {
        return;
    };
    spots.push_reserved(Spot { node: key, is_top });
    let inside = keys_inside_box(grove, node.inner);
    let is_top = is_top && is_subpatch(&node.element.form);
    push_boxes(grove, inside, is_top, canvases, spots);
}

/// The keys of the boxes of the canvas that a box holds.
pub(crate) fn keys_inside_box(grove: &Grove, inner: Option<u32>) -> &[u32]
    ensures { result.now ≡ keys_inside (get grove.now.boards) inner }
{
    let Some(canvas) = inner else {
        return &[];
    };
    match grove.board(canvas) {
        Some(board) => board.nodes.as_slice(),
        None => &[],
    }
}

/// Whether the form is a subpatch's.
fn is_subpatch(form: &Form) -> bool
    ensures { result ≡ is_sub (shape_of form.now) }
{
    matches!(form, Form::Sub(_))
}
