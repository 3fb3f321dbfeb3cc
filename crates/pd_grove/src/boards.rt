//! A running canvas under its key.

ghost use Rattle.std.specs.Prelude.{◌≡◌, ◌≢◌, ◌+◌, ◌<◌, ◌≤◌, ◌^◌, ◌++◌, ◌∷◌, [], ℕ, vec_len, vec_capacity, length, take, drop, slice_get, Some, None};
ghost use Rattle.slab.specs.Slab.{get, ContainsKey, HasRoomFor, slab_len};
ghost use Rattle.pd_grove.specs.Standing.{Gains, board_room, depth_of};
ghost use Rattle.pd_grove.specs.Telling.{keys_in};
ghost use Rattle.pd_grove.specs.Grafts.{HasOtherKeys};
ghost use Rattle.pd_label.specs.Labels.{PutsLabel};

use pd_label::Labels;
use pd_tree::Sheet;
use slab::Slab;

/// A running canvas: the key of the box that holds it, how many canvases it lies in, its sheet, and the keys of its boxes in the order of
/// their numbers.
#[derive(Debug, Drop)]
pub struct Board {
    pub holder: Option<u32>,
    pub depth: u32,
    pub sheet: Sheet,
    pub nodes: Vec<u32>,
}

/// In how many canvases a canvas lies.
pub(crate) fn depth_at(boards: &Slab<Board>, board: u32) -> u32
    ensures { result ≡ depth_of (get boards.now board) }
{
    match boards.get(board as usize) {
        Some(board) => board.depth,
        None => 0,
    }
}

/// Puts a box last in a canvas that has room for it.
pub(crate) fn put_last(boards: &mut Slab<Board>, board: u32, node: u32)
    requires here { ContainsKey boards.old board }
    requires room { 0 < board_room (get boards.old board) }
    ensures gains { Gains (get boards.old) (get boards.new) board node }
    ensures len { slab_len boards.new ≡ slab_len boards.old }
    ensures capacity { boards.new.capacity ≡ boards.old.capacity }
{
    let board = &mut boards[board as usize];
    board.nodes.push_reserved(node);
}

/// Puts a box at a number in a canvas that has room for it.
pub(crate) fn put_at(boards: &mut Slab<Board>, board: u32, number: u32, node: u32)
    requires here { ContainsKey boards.old board }
    requires place { number ≤ length (keys_in (get boards.old board)) }
    requires room { 0 < board_room (get boards.old board) }
    ensures keys { let keys = keys_in (get boards.old board) in
        HasOtherKeys (get boards.old) (get boards.new) board (take number keys ++ drop number keys) (take number keys ++ node ∷ drop number keys) }
    ensures len { slab_len boards.new ≡ slab_len boards.old }
    ensures capacity { boards.new.capacity ≡ boards.old.capacity }
{
    let board = &mut boards[board as usize];
    board.nodes.insert(number as usize, node).unwrap();
}

/// Labels the last box of a canvas, so that it stands behind the others.
pub(crate) fn label_last(labels: &mut Labels, boards: &Slab<Board>, board: u32)
    requires { ContainsKey boards.now board }
    ensures { let keys = keys_in (get boards.now board) in (n : ℕ) → length keys ≡ n + 1 → PutsLabel labels.old labels.new keys n }
{
    let keys = boards[board as usize].nodes.as_slice();
    if let Some(last) = keys.len().checked_sub(1) {
        labels.put(keys, last);
    }
}

/// Labels the box of a number of a canvas, so that it stands between those around it.
pub(crate) fn label_at(labels: &mut Labels, boards: &Slab<Board>, board: u32, number: u32)
    requires { number < length (keys_in (get boards.now board)) }
    ensures { PutsLabel labels.old labels.new (keys_in (get boards.now board)) number }
{
    let keys = boards[board as usize].nodes.as_slice();
    labels.put(keys, number as usize);
}

/// Takes the box of a number out of a canvas's list, and gives its key.
pub(crate) fn take_key(boards: &mut Slab<Board>, board: u32, number: u32) -> u32
    requires { number < length (keys_in (get boards.old board)) }
    ensures key { slice_get (keys_in (get boards.old board)) number ≡ Some result }
    ensures keys { let keys = keys_in (get boards.old board) in
        HasOtherKeys (get boards.old) (get boards.new) board (take number keys ++ result ∷ drop (number + 1) keys) (take number keys ++ drop (number + 1) keys) }
    ensures room { board_room (get boards.new board) ≡ board_room (get boards.old board) + 1 }
    ensures len { slab_len boards.new ≡ slab_len boards.old }
    ensures capacity { boards.new.capacity ≡ boards.old.capacity }
{
    let board = &mut boards[board as usize];
    board.nodes.remove(number as usize)
}

/// Opens a canvas without boxes, held by the box of a key.
pub(crate) fn open_board(
    boards: &mut Slab<Board>,
    holder: u32,
    depth: u32,
    sheet: Sheet,
    nodes: Vec<u32>,
) -> u32
    requires room { HasRoomFor boards.old 1 }
    requires small { boards.old.capacity ≤ 2 ^ 32 }
    ensures vacant { get boards.old result ≡ None }
    ensures opened { get boards.new result ≡ Some (record { holder = Some holder; depth = depth; sheet = sheet; nodes = nodes }) }
    ensures others { (k : ℕ) → k ≢ result → get boards.new k ≡ get boards.old k }
    ensures len { slab_len boards.new ≡ slab_len boards.old + 1 }
    ensures capacity { boards.new.capacity ≡ boards.old.capacity }
{
    let key = boards.insert_reserved(Board {
        holder: Some(holder),
        depth,
        sheet,
        nodes,
    });
    key as u32
}

/// Opens the root canvas without boxes.
pub(crate) fn open_root(boards: &mut Slab<Board>, sheet: Sheet, nodes: Vec<u32>) -> u32
    requires room { HasRoomFor boards.old 1 }
    requires small { boards.old.capacity ≤ 2 ^ 32 }
    ensures opened { get boards.new result ≡ Some (record { holder = None; depth = 0; sheet = sheet; nodes = nodes }) }
    ensures others { (k : ℕ) → k ≢ result → get boards.new k ≡ get boards.old k }
    ensures len { slab_len boards.new ≡ slab_len boards.old + 1 }
    ensures capacity { boards.new.capacity ≡ boards.old.capacity }
{
    let key = boards.insert_reserved(Board {
        holder: None,
        depth: 0,
        sheet,
        nodes,
    });
    key as u32
}
