//! Boxes in text order: each box before those inside it.

ghost use Rattle.std.specs.Prelude.{◌≡◌, ◌≤◌, ◌++◌, ℕ, Bool, true, map, Some, IsSome, OnOk, IfOk};
ghost use Rattle.std.specs.List.{AllByRecursion};
ghost use Rattle.slab.specs.Slab.{get};
ghost use Rattle.pd_tree.specs.declared.rows.Sheet.{Sheet};
ghost use Rattle.pd_tree.specs.Trees.{Trees};
ghost use Rattle.pd_grove.specs.Standing.{GroveStands};
ghost use Rattle.pd_grove.specs.Telling.{keys_in};
ghost use Rattle.pd_canvas.specs.Views.{shape_of};
ghost use Rattle.pd_grove.specs.TextOrder.{is_sub, keys_inside, deep, cells_in_order, placed_in_order, keys_standing, spots_among, box_spots, spots_in_order, keys_of_spots, keys_in_order, cell_under, placed_at};

use crate::boards::Board;
use crate::grove::Grove;
use crate::nodes::Node;
use pd_canvas::Form;
use slab::Slab;
use std::alloc::{AllocError, Global};

/// So many canvases may lie in one another, with the root.
const MOST_CANVASES: u32 = 257;

/// A box in text order: its key, and whether it is in the patch's own document and not inside an abstraction.
#[derive(Clone, Copy, Debug, PartialEq, Eq)]
pub struct Spot {
    pub node: u32,
    pub is_top: bool,
}

impl Grove {
    /// All boxes in text order.
    ///
    /// # Errors
    ///
    /// `AllocError` where memory ran out.
    pub fn spots(&self, alloc: Global) -> Result<Vec<Spot>, AllocError>
        ensures value { IfOk result (λ spots. spots.items ≡ spots_in_order self.now) }
        ensures boxes { (s : Sheet) (t : Trees) → GroveStands self.now s t → deep t ≤ 256 →
            IfOk result (λ spots. map (placed_at (get self.now.nodes)) spots.items ≡ map (λ p. Some p) (placed_in_order true t)) }
    {
        let mut spots = Vec::new(alloc);
        let keys = keys_in_board(&self.boards, self.root);
        push_spots(
            &self.nodes,
            &self.boards,
            keys,
            true,
            MOST_CANVASES,
            &mut spots,
        )?;
        Ok(spots)
    }

    /// The keys of all boxes in text order.
    ///
    /// # Errors
    ///
    /// `AllocError` where memory ran out.
    pub fn in_text_order(&self, alloc: Global) -> Result<Vec<u32>, AllocError>
        ensures value { IfOk result (λ keys. keys.items ≡ keys_in_order self.now) }
        ensures live { IfOk result (λ keys. AllByRecursion (λ k. IsSome (get self.now.nodes k)) keys.items) }
        ensures cells { (s : Sheet) (t : Trees) → GroveStands self.now s t → deep t ≤ 256 →
            IfOk result (λ keys. map (cell_under (get self.now.nodes)) keys.items ≡ map (λ c. Some c) (cells_in_order t)) }
        ensures standing { (s : Sheet) (t : Trees) (g : GroveStands self.now s t) → deep t ≤ 256 →
            IfOk result (λ keys. keys.items ≡ keys_standing (get self.now.nodes) (get self.now.boards) self.now.root 0 g.keys t g.stands) }
    {
        let spots = self.spots(alloc)?;
        keys_of(alloc, &spots)
    }
}

/// The keys of boxes.
fn keys_of(alloc: Global, spots: &[Spot]) -> Result<Vec<u32>, AllocError>
    ensures { IfOk result (λ keys. keys.items ≡ keys_of_spots spots.now) }
{
    let mut keys = Vec::with_capacity(alloc, spots.len())?;
    for spot in spots {
        keys.push(spot.node)?;
    }
    Ok(keys)
}

/// Adds the boxes of a canvas, each before those inside it.
#[cycle(spots)]
fn push_spots(
    nodes: &Slab<Node>,
    boards: &Slab<Board>,
    keys: &[u32],
    is_top: bool,
    canvases: u32,
    spots: &mut Vec<Spot>,
) -> Result<(), AllocError>
    ensures { OnOk result (spots.new.items ≡ spots.old.items ++ spots_among (get nodes.now) (get boards.now) canvases is_top keys.now) }
{
    if canvases == 0 {
        return Ok(());
    }
    for key in keys {
        push_box(nodes, boards, *key, is_top, canvases - 1, spots)?;
    }
    Ok(())
}

/// Adds a live box, and then those inside it.
#[cycle(spots)]
fn push_box(
    nodes: &Slab<Node>,
    boards: &Slab<Board>,
    key: u32,
    is_top: bool,
    canvases: u32,
    spots: &mut Vec<Spot>,
) -> Result<(), AllocError>
    ensures { OnOk result (spots.new.items ≡ spots.old.items ++ box_spots (get boards.now) (spots_among (get nodes.now) (get boards.now) canvases) is_top key (get nodes.now key)) }
{
    let Some(node) = nodes.get(key as usize) else {
        return Ok(());
    };
    spots.push(Spot { node: key, is_top })?;
    let inside = keys_inside_box(boards, node.inner);
    let is_top = is_top && is_subpatch(&node.element.form);
    push_spots(nodes, boards, inside, is_top, canvases, spots)
}

/// The keys of the boxes of a canvas.
fn keys_in_board(boards: &Slab<Board>, board: u32) -> &[u32]
    ensures { result.now ≡ keys_in (get boards.now board) }
{
    match boards.get(board as usize) {
        Some(board) => board.nodes.as_slice(),
        None => &[],
    }
}

/// The keys of the boxes of the canvas that a box holds.
fn keys_inside_box(boards: &Slab<Board>, inner: Option<u32>) -> &[u32]
    ensures { result.now ≡ keys_inside (get boards.now) inner }
{
    match inner {
        Some(board) => keys_in_board(boards, board),
        None => &[],
    }
}

/// Whether the form is a subpatch's.
pub(crate) fn is_subpatch(form: &Form) -> bool
    ensures { result ≡ is_sub (shape_of form.now) }
{
    matches!(form, Form::Sub(_))
}
