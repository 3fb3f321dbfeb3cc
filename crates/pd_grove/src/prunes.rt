//! A box leaves its canvas, with all that lies in it: each key under which something lay is free.

ghost use Rattle.std.specs.Prelude.{◌≡◌, ◌+◌, ◌<◌, ◌≤◌, ℕ, Option, Some, length, slice_get, take, drop};
ghost use Rattle.slab.specs.Slab.{get, ContainsKey, slab_len};
ghost use Rattle.pd_grove.specs.declared.nodes.Node.{Node};
ghost use Rattle.pd_grove.specs.declared.boards.Board.{Board};
ghost use Rattle.pd_grove.specs.Standing.{board_room};
ghost use Rattle.pd_grove.specs.Telling.{keys_in};
ghost use Rattle.pd_grove.specs.Forest.{IsForest};
ghost use Rattle.pd_grove.specs.Grafts.{LiesInBox, TakesBox};
ghost use Rattle.pd_grove.specs.Pruning.{GainsNone, LiesInOf, IsInsideOf, IsPart, LiesInFirst, IsPartOfFirst, AreThere, Leave};

use crate::boards::{Board, take_key};
use crate::grove::Grove;
use crate::nodes::{Node, inner_at};
use slab::Slab;

impl Grove {
    /// Takes the box of a number out of its canvas, with all that lies in it, and gives it back. The boxes behind it
    /// move up by one number.
    pub fn take_box(&mut self, canvas: u32, number: u32) -> Node
        requires forest { IsForest (get self.old.nodes) (get self.old.boards) self.old.root }
        requires here { number < length (keys_in (get self.old.boards canvas)) }
        ensures takes { let keys = keys_in (get self.old.boards canvas) in (k : ℕ) → slice_get keys number ≡ Some k →
            TakesBox (get self.old.nodes) (get self.new.nodes) (get self.old.boards) (get self.new.boards) canvas k result (take number keys) (drop (number + 1) keys) }
        ensures root { self.new.root ≡ self.old.root }
        ensures labels { self.new.labels ≡ self.old.labels }
        ensures next { slice_get (keys_in (get self.old.boards canvas)) number ≡ Some self.new.nodes.vacant_key }
        ensures own_room { board_room (get self.new.boards canvas) ≡ board_room (get self.old.boards canvas) + 1 }
        ensures nodes_room { slab_len self.new.nodes + 1 ≤ slab_len self.old.nodes }
        ensures boards_room { slab_len self.new.boards ≤ slab_len self.old.boards }
        ensures nodes_capacity { self.new.nodes.capacity ≡ self.old.nodes.capacity }
        ensures boards_capacity { self.new.boards.capacity ≡ self.old.boards.capacity }
    {
        let key = take_key(&mut self.boards, canvas, number);
        let inner = inner_at(&self.nodes, key);
        prune_inside(&mut self.nodes, &mut self.boards, inner);
        self.nodes.remove(key as usize)
    }
}

/// What a box holds goes, with all that lies in it.
#[cycle(pruning)]
fn prune_inside(nodes: &mut Slab<Node>, boards: &mut Slab<Board>, inner: Option<u32>)
    ensures leave { (ns : ℕ → Option Node) (bs : ℕ → Option Board) (root : ℕ) → IsForest ns bs root →
        AreThere ns (get nodes.old) bs (get boards.old) (LiesInOf ns bs inner) (IsInsideOf ns bs inner) →
        Leave (get nodes.old) (get nodes.new) (get boards.old) (get boards.new) (LiesInOf ns bs inner) (IsInsideOf ns bs inner) }
    ensures no_box_comes { GainsNone (get nodes.old) (get nodes.new) }
    ensures no_canvas_comes { GainsNone (get boards.old) (get boards.new) }
    ensures nodes_len { slab_len nodes.new ≤ slab_len nodes.old }
    ensures boards_len { slab_len boards.new ≤ slab_len boards.old }
    ensures nodes_capacity { nodes.new.capacity ≡ nodes.old.capacity }
    ensures boards_capacity { boards.new.capacity ≡ boards.old.capacity }
{
    if let Some(canvas) = inner {
        prune_canvas(nodes, boards, canvas);
    }
}

/// A canvas goes, with all that lies in it.
#[cycle(pruning)]
fn prune_canvas(nodes: &mut Slab<Node>, boards: &mut Slab<Board>, canvas: u32)
    ensures leave { (ns : ℕ → Option Node) (bs : ℕ → Option Board) (root : ℕ) → IsForest ns bs root →
        AreThere ns (get nodes.old) bs (get boards.old) (LiesInOf ns bs (Some canvas)) (IsInsideOf ns bs (Some canvas)) →
        Leave (get nodes.old) (get nodes.new) (get boards.old) (get boards.new) (LiesInOf ns bs (Some canvas)) (IsInsideOf ns bs (Some canvas)) }
    ensures no_box_comes { GainsNone (get nodes.old) (get nodes.new) }
    ensures no_canvas_comes { GainsNone (get boards.old) (get boards.new) }
    ensures nodes_len { slab_len nodes.new ≤ slab_len nodes.old }
    ensures boards_len { slab_len boards.new ≤ slab_len boards.old }
    ensures nodes_capacity { nodes.new.capacity ≡ nodes.old.capacity }
    ensures boards_capacity { boards.new.capacity ≡ boards.old.capacity }
{
    if let Some(board) = boards.try_remove(canvas as usize) {
        prune_boxes(nodes, boards, board.nodes.as_slice());
    }
}

/// The boxes of a canvas go, with all that lies in them.
#[cycle(pruning)]
fn prune_boxes(nodes: &mut Slab<Node>, boards: &mut Slab<Board>, keys: &[u32])
    ensures leave { (ns : ℕ → Option Node) (bs : ℕ → Option Board) (root c : ℕ) → IsForest ns bs root → keys.now ≡ keys_in (bs c) →
        AreThere ns (get nodes.old) bs (get boards.old) (LiesInFirst ns bs keys.now (length keys.now)) (IsPartOfFirst ns bs keys.now (length keys.now)) →
        Leave (get nodes.old) (get nodes.new) (get boards.old) (get boards.new) (LiesInFirst ns bs keys.now (length keys.now)) (IsPartOfFirst ns bs keys.now (length keys.now)) }
    ensures no_box_comes { GainsNone (get nodes.old) (get nodes.new) }
    ensures no_canvas_comes { GainsNone (get boards.old) (get boards.new) }
    ensures nodes_len { slab_len nodes.new ≤ slab_len nodes.old }
    ensures boards_len { slab_len boards.new ≤ slab_len boards.old }
    ensures nodes_capacity { nodes.new.capacity ≡ nodes.old.capacity }
    ensures boards_capacity { boards.new.capacity ≡ boards.old.capacity }
{
    for key in keys {
        prune_box(nodes, boards, *key);
    }
}

/// A box goes, with all that lies in it.
#[cycle(pruning)]
fn prune_box(nodes: &mut Slab<Node>, boards: &mut Slab<Board>, key: u32)
    ensures leave { (ns : ℕ → Option Node) (bs : ℕ → Option Board) (root : ℕ) → IsForest ns bs root →
        AreThere ns (get nodes.old) bs (get boards.old) (LiesInBox ns bs key) (IsPart ns bs key) →
        Leave (get nodes.old) (get nodes.new) (get boards.old) (get boards.new) (LiesInBox ns bs key) (IsPart ns bs key) }
    ensures no_box_comes { GainsNone (get nodes.old) (get nodes.new) }
    ensures no_canvas_comes { GainsNone (get boards.old) (get boards.new) }
    ensures nodes_len { slab_len nodes.new ≤ slab_len nodes.old }
    ensures boards_len { slab_len boards.new ≤ slab_len boards.old }
    ensures nodes_capacity { nodes.new.capacity ≡ nodes.old.capacity }
    ensures boards_capacity { boards.new.capacity ≡ boards.old.capacity }
{
    if let Some(node) = nodes.try_remove(key as usize) {
        prune_inside(nodes, boards, node.inner);
    }
}
