//! What a running tree tells in text order: each box before those inside it.

ghost use Rattle.std.specs.Prelude.{◌≡◌, ◌≤◌, ◌++◌, ◌∷◌, [], ℕ, List, length, OnOk, IfOk};
ghost use Rattle.slab.specs.Slab.{get};
ghost use Rattle.pd_tree.specs.declared.rows.Sheet.{Sheet};
ghost use Rattle.pd_canvas.specs.Views.{entry_of};
ghost use Rattle.pd_tree.specs.Trees.{Trees, zeros_in, own_zeros};
ghost use Rattle.pd_grove.specs.Standing.{Stands, GroveStands};
ghost use Rattle.pd_grove.specs.TextOrder.{deep};

use crate::boards::Board;
use crate::grove::Grove;
use crate::nodes::Node;
use pd_canvas::{Form, Numbers};
use slab::Slab;
use std::alloc::{AllocError, Global};

/// So many canvases may lie in one another.
const MOST_LEVELS: u32 = 256;

impl Grove {
    /// The `$0` numbers: the root's, and those of abstractions in text order.
    ///
    /// # Errors
    ///
    /// `AllocError` where memory ran out.
    pub fn zeros(&self, alloc: Global) -> Result<Numbers, AllocError>
        ensures { (s : Sheet) (t : Trees) → GroveStands self.now s t → deep t ≤ 256 → IfOk result (λ zeros. zeros ≡ s.zero ∷ zeros_in t) }
    {
        let mut zeros = Vec::new(alloc);
        let Some(board) = self.boards.get(self.root as usize) else {
            return Ok(Numbers::from_vec(zeros));
        };
        zeros.push(board.sheet.zero)?;
        push_zeros(
            &self.nodes,
            &self.boards,
            board.nodes.as_slice(),
            MOST_LEVELS,
            &mut zeros,
        )?;
        Ok(Numbers::from_vec(zeros))
    }
}

/// The `$0` numbers of the abstractions among boxes and inside them.
#[cycle(zeros)]
fn push_zeros(
    nodes: &Slab<Node>,
    boards: &Slab<Board>,
    keys: &[u32],
    left: u32,
    zeros: &mut Vec<u32>,
) -> Result<(), AllocError>
    ensures { (b d : ℕ) (t : Trees) → Stands (get nodes.now) (get boards.now) b d keys.now t → deep t ≤ left →
        OnOk result (zeros.new.items ≡ zeros.old.items ++ zeros_in t) }
{
    for key in keys {
        push_zeros_at(nodes, boards, *key, left, zeros)?;
    }
    Ok(())
}

/// The `$0` numbers of a box, where it is an abstraction, and of those inside it.
#[cycle(zeros)]
fn push_zeros_at(
    nodes: &Slab<Node>,
    boards: &Slab<Board>,
    key: u32,
    left: u32,
    zeros: &mut Vec<u32>,
) -> Result<(), AllocError>
    ensures { (b d : ℕ) (t : Trees) → Stands (get nodes.now) (get boards.now) b d (key ∷ []) t → deep t ≤ left →
        OnOk result (zeros.new.items ≡ zeros.old.items ++ zeros_in t) }
{
    let Some(node) = nodes.get(key as usize) else {
        return Ok(());
    };
    let Some(inner) = node.inner else {
        return Ok(());
    };
    let Some(board) = boards.get(inner as usize) else {
        return Ok(());
    };
    push_own(node, board, zeros)?;
    if left > 0 {
        push_zeros(nodes, boards, board.nodes.as_slice(), left - 1, zeros)?;
    }
    Ok(())
}

/// The `$0` of the canvas of a box, where the box is an abstraction.
fn push_own(node: &Node, board: &Board, zeros: &mut Vec<u32>) -> Result<(), AllocError>
    ensures { OnOk result (zeros.new.items ≡ zeros.old.items ++ own_zeros (entry_of node.now.element).head.form board.now.sheet) }
{
    if !matches!(node.element.form, Form::Sub(_)) {
        zeros.push(board.sheet.zero)?;
    }
    Ok(())
}
