//! A running tree under keys.

ghost use Rattle.std.specs.Prelude.{◌≡◌, ◌<◌, IfOk};
ghost use Rattle.slab.specs.Slab.{get};
ghost use Rattle.pd_grove.specs.Keys.{AreLabelled};

use crate::boards::{Board, open_root};
use crate::nodes::Node;
use crate::planting::{plant_boxes, with_room};
use crate::seeds::Seeds;
use pd_clock::{Rate, Time};
use pd_label::Labels;
use pd_tree::{Row, Sheet};
use slab::Slab;
use std::alloc::{AllocError, Global};

/// Boxes and canvases under keys, the labels by which boxes stand in order, and the key of the root canvas. Labels rise along
/// the boxes of each canvas.
#[derive(Drop)]
pub struct Grove {
    pub(crate) nodes: Slab<Node>,
    pub(crate) boards: Slab<Board>,
    pub(crate) labels: Labels,
    pub(crate) root: u32,
    pub ghost labelled: { AreLabelled labels (get boards) },
}

impl Grove {
    ghost use Rattle.pd_tree.specs.Trees.{Trees, width, stands_of, stands_in};
    ghost use Rattle.pd_grove.specs.Standing.{GroveStands, NodesOf};
    ghost use Rattle.pd_grove.specs.States.{AreSmall, NodesFresh, NodesSmall};
    ghost use Rattle.pd_grove.specs.Owning.{AreOwn};
    ghost use Rattle.pd_grove.specs.TextOrder.{deep};
    ghost use Rattle.pd_grove.specs.Forest.{IsForest};

    /// Plants a grown document: its root's sheet, its boxes in text order, of which `count` are the root's own.
    ///
    /// # Errors
    ///
    /// `AllocError` where memory ran out.
    pub fn plant(
        alloc: Global,
        sheet: Sheet,
        rows: Vec<Row>,
        count: u32,
        rate: Rate,
        now: Time,
    ) -> Result<Grove, AllocError>
        requires { AreSmall rows.items }
        ensures stands { (t : Trees) → stands_in rows.items ≡ stands_of t → width t ≡ count → IfOk result (λ g. GroveStands g sheet t) }
        ensures of_tree { (t : Trees) → stands_in rows.items ≡ stands_of t → IfOk result (λ g. NodesOf t (get g.nodes)) }
        ensures fresh { IfOk result (λ g. NodesFresh rate now (get g.nodes)) }
        ensures small { IfOk result (λ g. NodesSmall (get g.nodes)) }
        ensures own { IfOk result (λ g. AreOwn (get g.nodes) (get g.boards)) }
        ensures forest { (t : Trees) → stands_in rows.items ≡ stands_of t → width t ≡ count → deep t < 257 →
            IfOk result (λ g. IsForest (get g.nodes) (get g.boards) g.root) }
    {
        let most = rows.len();
        let mut nodes = with_room(alloc, most)?;
        let mut boards = with_room(alloc, most + 1)?;
        let mut labels = Labels::new(alloc);
        labels.reach(nodes.capacity())?;
        let mut seeds = Seeds::prepare(alloc, rows, rate, now)?;
        let room = Vec::with_capacity(alloc, count as usize)?;
        let root = open_root(&mut boards, sheet, room);
        plant_boxes(
            &mut nodes,
            &mut boards,
            &mut labels,
            &mut seeds,
            root,
            0,
            count,
        );
        Ok(Grove {
            nodes,
            boards,
            labels,
            root,
        })
    }
}
