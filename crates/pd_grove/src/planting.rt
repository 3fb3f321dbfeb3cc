//! Planting: boxes in text order get keys.

ghost use Rattle.std.specs.Prelude.{◌≡◌, ◌+◌, ◌-◌, ◌*◌, ◌^◌, ◌≤◌, ◌<◌, ℕ, List, length, ◌++◌, ◌∷◌, ◌≢◌, [], vec_len, vec_capacity, Some, None, IsSome, IfOk};
ghost use Rattle.slab.specs.Slab.{get, ContainsKey, HasRoomFor};
ghost use Rattle.pd_tree.specs.Trees.{Trees, Stand, width, stands_of};
ghost use Rattle.pd_grove.specs.Standing.{HasCell, NodesOf, IsEmpty, depth_of, board_room};
ghost use Rattle.pd_grove.specs.Planting.{seeds_in, SeedsOf, AreRoomy, IsRoomy, stands_ready, seed_stand, HaveRoom, Keeps, Plants, PlantsInside, IsMadeOf, Uses, one};
ghost use Rattle.pd_object.specs.Ports.{IsSmallKind};
ghost use Rattle.pd_tree.specs.declared.rows.Sheet.{Sheet};
ghost use Rattle.pd_grove.specs.declared.seeds.Seed.{Seed};
ghost use Rattle.pd_clock.specs.declared.times.Rate.{Rate};
ghost use Rattle.pd_grove.specs.States.{IsFresh, AreFresh, NodesFresh, SeedsSmall, NodesSmall};
ghost use Rattle.pd_grove.specs.Owning.{board_in, AreOwn};
ghost use Rattle.pd_grove.specs.Telling.{inner_in};
ghost use Rattle.pd_grove.specs.TextOrder.{deep};
ghost use Rattle.pd_grove.specs.Forest.{IsForest};
ghost use Rattle.pd_grove.specs.Labelled.{HaveLabels};

use crate::boards::{Board, label_last, open_board, put_last};
use crate::nodes::{Node, put_node, set_inner};
use crate::seeds::{Seed, Seeds};
use pd_label::Labels;
use pd_tree::{Row, Sheet};
use slab::Slab;
use std::alloc::{AllocError, Global};

/// Plants the next so many boxes of a canvas, each with what it holds.
#[cycle(planting)]
pub(crate) fn plant_boxes(
    nodes: &mut Slab<Node>,
    boards: &mut Slab<Board>,
    labels: &mut Labels,
    seeds: &mut Seeds,
    board: u32,
    depth: u32,
    count: u32,
)
    requires here { ContainsKey boards.old board }
    requires depth { depth_of (get boards.old board) ≡ depth }
    requires deep { depth + length (seeds_in seeds.old) < 2 ^ 32 }
    requires own_room { count ≤ board_room (get boards.old board) }
    requires room { HaveRoom nodes.old boards.old (length (seeds_in seeds.old)) }
    requires roomy { AreRoomy (seeds_in seeds.old) }
    ensures kept { Keeps (get nodes.old) (get nodes.new) (get boards.old) (get boards.new) board }
    ensures own_room { board_room (get boards.old board) ≤ board_room (get boards.new board) + count }
    ensures room { HaveRoom nodes.new boards.new (length (seeds_in seeds.new)) }
    ensures nodes_capacity { nodes.new.capacity ≡ nodes.old.capacity }
    ensures boards_capacity { boards.new.capacity ≡ boards.old.capacity }
    ensures roomy { AreRoomy (seeds_in seeds.new) }
    ensures fresh { (rate : Rate) (now : ℕ) → AreFresh rate now (seeds_in seeds.old) → NodesFresh rate now (get nodes.old) →
        AreFresh rate now (seeds_in seeds.new) × NodesFresh rate now (get nodes.new) }
    ensures small { SeedsSmall (seeds_in seeds.old) → NodesSmall (get nodes.old) → SeedsSmall (seeds_in seeds.new) × NodesSmall (get nodes.new) }
    ensures of_tree { (t : Trees) → SeedsOf t (seeds_in seeds.old) → NodesOf t (get nodes.old) → SeedsOf t (seeds_in seeds.new) × NodesOf t (get nodes.new) }
    ensures own { AreOwn (get nodes.old) (get boards.old) → AreOwn (get nodes.new) (get boards.new) }
    ensures fewer { length (seeds_in seeds.new) ≤ length (seeds_in seeds.old) }
    ensures labelled { AreOwn (get nodes.old) (get boards.old) → HaveLabels nodes.old.capacity labels.old (get boards.old) → HaveLabels nodes.new.capacity labels.new (get boards.new) }
    ensures uses { Uses (get nodes.old) (get nodes.new) (seeds_in seeds.old) (seeds_in seeds.new) }
    ensures forest { (root : ℕ) (t : Trees) (more : List Stand) → stands_ready (seeds_in seeds.old) ≡ stands_of t ++ more → width t ≡ count → depth + deep t < 257 →
        IsForest (get nodes.old) (get boards.old) root → IsForest (get nodes.new) (get boards.new) root }
    ensures plants { (t : Trees) (more : List Stand) → stands_ready (seeds_in seeds.old) ≡ stands_of t ++ more → width t ≡ count →
        Plants (get nodes.old) (get nodes.new) (get boards.old) (get boards.new) board depth t × (stands_ready (seeds_in seeds.new) ≡ more) }
{
    for _ in 0..count {
        plant_next(nodes, boards, labels, seeds, board, depth);
    }
}

/// Plants the next box of a canvas, with what it holds.
#[cycle(planting)]
fn plant_next(
    nodes: &mut Slab<Node>,
    boards: &mut Slab<Board>,
    labels: &mut Labels,
    seeds: &mut Seeds,
    board: u32,
    depth: u32,
)
    requires here { ContainsKey boards.old board }
    requires depth { depth_of (get boards.old board) ≡ depth }
    requires deep { depth + length (seeds_in seeds.old) < 2 ^ 32 }
    requires own_room { 1 ≤ board_room (get boards.old board) }
    requires room { HaveRoom nodes.old boards.old (length (seeds_in seeds.old)) }
    requires roomy { AreRoomy (seeds_in seeds.old) }
    ensures kept { Keeps (get nodes.old) (get nodes.new) (get boards.old) (get boards.new) board }
    ensures own_room { board_room (get boards.old board) ≤ board_room (get boards.new board) + 1 }
    ensures room { HaveRoom nodes.new boards.new (length (seeds_in seeds.new)) }
    ensures nodes_capacity { nodes.new.capacity ≡ nodes.old.capacity }
    ensures boards_capacity { boards.new.capacity ≡ boards.old.capacity }
    ensures roomy { AreRoomy (seeds_in seeds.new) }
    ensures fresh { (rate : Rate) (now : ℕ) → AreFresh rate now (seeds_in seeds.old) → NodesFresh rate now (get nodes.old) →
        AreFresh rate now (seeds_in seeds.new) × NodesFresh rate now (get nodes.new) }
    ensures small { SeedsSmall (seeds_in seeds.old) → NodesSmall (get nodes.old) → SeedsSmall (seeds_in seeds.new) × NodesSmall (get nodes.new) }
    ensures of_tree { (t : Trees) → SeedsOf t (seeds_in seeds.old) → NodesOf t (get nodes.old) → SeedsOf t (seeds_in seeds.new) × NodesOf t (get nodes.new) }
    ensures own { AreOwn (get nodes.old) (get boards.old) → AreOwn (get nodes.new) (get boards.new) }
    ensures fewer { length (seeds_in seeds.new) ≤ length (seeds_in seeds.old) }
    ensures labelled { AreOwn (get nodes.old) (get boards.old) → HaveLabels nodes.old.capacity labels.old (get boards.old) → HaveLabels nodes.new.capacity labels.new (get boards.new) }
    ensures uses { Uses (get nodes.old) (get nodes.new) (seeds_in seeds.old) (seeds_in seeds.new) }
    ensures forest { (root : ℕ) (t : Trees) (more : List Stand) → stands_ready (seeds_in seeds.old) ≡ stands_of t ++ more → width t ≡ 1 → depth + deep t < 257 →
        IsForest (get nodes.old) (get boards.old) root → IsForest (get nodes.new) (get boards.new) root }
    ensures plants { (t : Trees) (more : List Stand) → stands_ready (seeds_in seeds.old) ≡ stands_of t ++ more → width t ≡ 1 →
        Plants (get nodes.old) (get nodes.new) (get boards.old) (get boards.new) board depth t × (stands_ready (seeds_in seeds.new) ≡ more) }
{
    if let Some(seed) = seeds.next() {
        plant_box(nodes, boards, labels, seeds, seed, board, depth);
    }
}

/// Plants a box of a canvas, with what it holds.
#[cycle(planting)]
fn plant_box(
    nodes: &mut Slab<Node>,
    boards: &mut Slab<Board>,
    labels: &mut Labels,
    seeds: &mut Seeds,
    seed: Seed,
    board: u32,
    depth: u32,
)
    requires here { ContainsKey boards.old board }
    requires depth { depth_of (get boards.old board) ≡ depth }
    requires deep { depth + 1 + length (seeds_in seeds.old) < 2 ^ 32 }
    requires own_room { 1 ≤ board_room (get boards.old board) }
    requires room { HaveRoom nodes.old boards.old (length (seeds_in seeds.old) + 1) }
    requires roomy { AreRoomy (seeds_in seeds.old) }
    requires seed { IsRoomy seed }
    ensures kept { Keeps (get nodes.old) (get nodes.new) (get boards.old) (get boards.new) board }
    ensures own_room { board_room (get boards.old board) ≤ board_room (get boards.new board) + 1 }
    ensures room { HaveRoom nodes.new boards.new (length (seeds_in seeds.new)) }
    ensures nodes_capacity { nodes.new.capacity ≡ nodes.old.capacity }
    ensures boards_capacity { boards.new.capacity ≡ boards.old.capacity }
    ensures roomy { AreRoomy (seeds_in seeds.new) }
    ensures fresh { (rate : Rate) (now : ℕ) → IsFresh rate now seed → AreFresh rate now (seeds_in seeds.old) → NodesFresh rate now (get nodes.old) →
        AreFresh rate now (seeds_in seeds.new) × NodesFresh rate now (get nodes.new) }
    ensures small { IsSmallKind seed.row.kind → SeedsSmall (seeds_in seeds.old) → NodesSmall (get nodes.old) → SeedsSmall (seeds_in seeds.new) × NodesSmall (get nodes.new) }
    ensures of_tree { (t : Trees) → HasCell t (seed_stand seed).cell → SeedsOf t (seeds_in seeds.old) → NodesOf t (get nodes.old) → SeedsOf t (seeds_in seeds.new) × NodesOf t (get nodes.new) }
    ensures own { AreOwn (get nodes.old) (get boards.old) → AreOwn (get nodes.new) (get boards.new) }
    ensures fewer { length (seeds_in seeds.new) ≤ length (seeds_in seeds.old) }
    ensures labelled { AreOwn (get nodes.old) (get boards.old) → HaveLabels nodes.old.capacity labels.old (get boards.old) → HaveLabels nodes.new.capacity labels.new (get boards.new) }
    ensures uses { Uses (get nodes.old) (get nodes.new) (seed ∷ seeds_in seeds.old) (seeds_in seeds.new) }
    ensures forest { (root : ℕ) (t : Trees) (more : List Stand) → one (seed_stand seed) (stands_ready (seeds_in seeds.old)) ≡ stands_of t ++ more → width t ≡ 1 → depth + deep t < 257 →
        IsForest (get nodes.old) (get boards.old) root → IsForest (get nodes.new) (get boards.new) root }
    ensures plants { (t : Trees) (more : List Stand) → one (seed_stand seed) (stands_ready (seeds_in seeds.old)) ≡ stands_of t ++ more → width t ≡ 1 →
        Plants (get nodes.old) (get nodes.new) (get boards.old) (get boards.new) board depth t × (stands_ready (seeds_in seeds.new) ≡ more) }
{
    let Seed { row, state, room } = seed;
    let Row {
        element,
        text,
        kind,
        fault,
        sheet,
        boxes,
    } = row;
    let key = put_node(
        nodes,
        Node {
            board,
            element,
            text,
            kind,
            fault,
            state: Some(state),
            inner: None,
        },
    );
    put_last(boards, board, key);
    label_last(labels, boards, board);
    plant_inside(
        nodes,
        boards,
        labels,
        seeds,
        sheet,
        room,
        key,
        depth + 1,
        boxes,
    );
}

/// Plants what a box holds, where it holds a canvas.
#[cycle(planting)]
pub(crate) fn plant_inside(
    nodes: &mut Slab<Node>,
    boards: &mut Slab<Board>,
    labels: &mut Labels,
    seeds: &mut Seeds,
    sheet: Option<Sheet>,
    room: Vec<u32>,
    key: u32,
    depth: u32,
    boxes: u32,
)
    requires here { ContainsKey nodes.old key }
    requires deep { depth + length (seeds_in seeds.old) < 2 ^ 32 }
    requires none { room.items ≡ [] }
    requires empty { vec_len room ≡ 0 }
    requires own_room { boxes ≤ vec_capacity room }
    requires nodes_room { HasRoomFor nodes.old (length (seeds_in seeds.old)) }
    requires boards_room { HasRoomFor boards.old (length (seeds_in seeds.old) + 1) }
    requires nodes_small { nodes.old.capacity ≤ 2 ^ 32 }
    requires boards_small { boards.old.capacity ≤ 2 ^ 32 }
    requires roomy { AreRoomy (seeds_in seeds.old) }
    ensures nodes_stay { (k : ℕ) → k ≢ key → IsSome (get nodes.old k) → get nodes.new k ≡ get nodes.old k }
    ensures boards_stay { (k : ℕ) → IsSome (get boards.old k) → get boards.new k ≡ get boards.old k }
    ensures lies { board_in (get nodes.new key) ≡ board_in (get nodes.old key) }
    ensures room { HaveRoom nodes.new boards.new (length (seeds_in seeds.new)) }
    ensures nodes_capacity { nodes.new.capacity ≡ nodes.old.capacity }
    ensures boards_capacity { boards.new.capacity ≡ boards.old.capacity }
    ensures roomy { AreRoomy (seeds_in seeds.new) }
    ensures fresh { (rate : Rate) (now : ℕ) → AreFresh rate now (seeds_in seeds.old) → NodesFresh rate now (get nodes.old) →
        AreFresh rate now (seeds_in seeds.new) × NodesFresh rate now (get nodes.new) }
    ensures small { SeedsSmall (seeds_in seeds.old) → NodesSmall (get nodes.old) → SeedsSmall (seeds_in seeds.new) × NodesSmall (get nodes.new) }
    ensures of_tree { (t : Trees) → SeedsOf t (seeds_in seeds.old) → NodesOf t (get nodes.old) → SeedsOf t (seeds_in seeds.new) × NodesOf t (get nodes.new) }
    ensures own { AreOwn (get nodes.old) (get boards.old) → AreOwn (get nodes.new) (get boards.new) }
    ensures fewer { length (seeds_in seeds.new) ≤ length (seeds_in seeds.old) }
    ensures labelled { AreOwn (get nodes.old) (get boards.old) → HaveLabels nodes.old.capacity labels.old (get boards.old) → HaveLabels nodes.new.capacity labels.new (get boards.new) }
    ensures uses { Uses (get nodes.old) (get nodes.new) (seeds_in seeds.old) (seeds_in seeds.new) }
    ensures as_made { (s : Seed) → IsMadeOf s (get nodes.old key) → IsMadeOf s (get nodes.new key) }
    ensures none { sheet ≡ None → (nodes.new ≡ nodes.old) × (boards.new ≡ boards.old) }
    ensures forest { (root : ℕ) (s : Sheet) (t : Trees) (more : List Stand) → sheet ≡ Some s → stands_ready (seeds_in seeds.old) ≡ stands_of t ++ more → width t ≡ boxes →
        depth + deep t < 257 → inner_in (get nodes.old key) ≡ None → ((c : ℕ) → board_in (get nodes.old key) ≡ Some c → depth ≡ depth_of (get boards.old c) + 1) →
        IsForest (get nodes.old) (get boards.old) root → IsForest (get nodes.new) (get boards.new) root }
    ensures plain { sheet ≡ None → (get nodes.new key ≡ get nodes.old key) × (seeds_in seeds.new ≡ seeds_in seeds.old) }
    ensures plants { (s : Sheet) (t : Trees) (more : List Stand) → sheet ≡ Some s → stands_ready (seeds_in seeds.old) ≡ stands_of t ++ more → width t ≡ boxes →
        PlantsInside (get nodes.old) (get nodes.new) (get boards.old) (get boards.new) key depth s t × (stands_ready (seeds_in seeds.new) ≡ more) }
{
    if let Some(sheet) = sheet {
        let inner = open_board(boards, key, depth, sheet, room);
        set_inner(nodes, key, inner);
        plant_boxes(nodes, boards, labels, seeds, inner, depth, boxes);
    }
}

/// An empty slab with room for so many values, whose keys are below 2^32.
pub(crate) fn with_room<T: Drop>(alloc: Global, most: usize) -> Result<Slab<T>, AllocError>
    ensures empty { IfOk result (λ s. IsEmpty (get s)) }
    ensures room { IfOk result (λ s. HasRoomFor s most) }
    ensures small { IfOk result (λ s. s.capacity ≤ 2 ^ 32) }
{
    let slab = Slab::with_capacity(alloc, most)?;
    if slab.capacity() > 4_294_967_296 {
        return Err(AllocError);
    }
    Ok(slab)
}
