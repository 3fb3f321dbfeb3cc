//! A grown box comes into a canvas, with all that lies in it: room is set aside first, and then nothing can fail.

ghost use Rattle.std.specs.Prelude.{◌≡◌, ◌+◌, ◌<◌, ◌≤◌, ◌^◌, ◌++◌, ◌∷◌, [], List, length, take, drop, Some, OnOk};
ghost use Rattle.slab.specs.Slab.{get, ContainsKey};
ghost use Rattle.pd_tree.specs.Trees.{Trees, Stand, width, stands_of};
ghost use Rattle.pd_grove.specs.Standing.{Stands, depth_of};
ghost use Rattle.pd_grove.specs.Planting.{seeds_in, seed_stand, stands_ready, one, AreRoomy, IsRoomy, HaveRoom, Uses};
ghost use Rattle.pd_grove.specs.Telling.{keys_in};
ghost use Rattle.pd_grove.specs.TextOrder.{deep};
ghost use Rattle.pd_grove.specs.Forest.{IsForest};
ghost use Rattle.pd_grove.specs.Grafts.{HasPartMore};
ghost use Rattle.pd_grove.specs.Room.{HasPlace, IsSameButRoom};

use crate::boards::{depth_at, label_at, put_at};
use crate::grove::Grove;
use crate::nodes::{Node, put_node};
use crate::planting::plant_inside;
use crate::seeds::{Seed, Seeds};
use pd_tree::Row;
use std::alloc::AllocError;

/// Keys are below this.
const KEYS_END: usize = 4_294_967_296;

impl Grove {
    /// Sets room aside for so many more boxes and canvases, and for one more box of a live canvas.
    ///
    /// # Errors
    ///
    /// `AllocError` where memory ran out.
    pub fn reserve(&mut self, boxes: usize, canvas: u32) -> Result<(), AllocError>
        requires { ContainsKey self.old.boards canvas }
        ensures place { OnOk result (HasPlace self.new canvas boxes) }
        ensures same { IsSameButRoom self.old self.new }
    {
        self.nodes.reserve(boxes)?;
        self.boards.reserve(boxes)?;
        if self.nodes.capacity() > KEYS_END || self.boards.capacity() > KEYS_END {
            return Err(AllocError);
        }
        self.labels.reach(self.nodes.capacity())?;
        self.boards[canvas as usize].nodes.reserve(1)
    }

    /// Puts a grown box into a live canvas at a number, with what it holds, and gives its key. The boxes from that number on move back by one.
    pub fn put_box(&mut self, canvas: u32, number: u32, seed: Seed, seeds: &mut Seeds) -> u32
        requires forest { IsForest (get self.old.nodes) (get self.old.boards) self.old.root }
        requires here { ContainsKey self.old.boards canvas }
        requires number { number ≤ length (keys_in (get self.old.boards canvas)) }
        requires deep { depth_of (get self.old.boards canvas) + 1 + length (seeds_in seeds.old) < 2 ^ 32 }
        requires place { HasPlace self.old canvas (length (seeds_in seeds.old) + 1) }
        requires roomy { AreRoomy (seeds_in seeds.old) }
        requires seed { IsRoomy seed }
        ensures part { (t : Trees) (more : List Stand) → one (seed_stand seed) (stands_ready (seeds_in seeds.old)) ≡ stands_of t ++ more → width t ≡ 1 →
            depth_of (get self.old.boards canvas) + deep t < 257 →
            HasPartMore (get self.old.nodes) (get self.new.nodes) (get self.old.boards) (get self.new.boards) canvas result
            (take number (keys_in (get self.old.boards canvas))) (drop number (keys_in (get self.old.boards canvas))) }
        ensures stands { (t : Trees) (more : List Stand) → one (seed_stand seed) (stands_ready (seeds_in seeds.old)) ≡ stands_of t ++ more → width t ≡ 1 →
            Stands (get self.new.nodes) (get self.new.boards) canvas (depth_of (get self.old.boards canvas)) (result ∷ []) t × (stands_ready (seeds_in seeds.new) ≡ more) }
        ensures uses { Uses (get self.old.nodes) (get self.new.nodes) (seed ∷ seeds_in seeds.old) (seeds_in seeds.new) }
        ensures labels { self.new.nodes.capacity ≤ length self.new.labels }
        ensures key { result ≡ self.old.nodes.vacant_key }
        ensures root { self.new.root ≡ self.old.root }
        ensures roomy { AreRoomy (seeds_in seeds.new) }
        ensures room { HaveRoom self.new.nodes self.new.boards (length (seeds_in seeds.new)) }
        ensures nodes_capacity { self.new.nodes.capacity ≡ self.old.nodes.capacity }
        ensures boards_capacity { self.new.boards.capacity ≡ self.old.boards.capacity }
    {
        let depth = depth_at(&self.boards, canvas);
        let Seed { row, state, room } = seed;
        let Row {
            element,
            text,
            kind,
            fault,
            sheet,
            boxes,
        } = row;
        let key = put_node(
            &mut self.nodes,
            Node {
                board: canvas,
                element,
                text,
                kind,
                fault,
                state: Some(state),
                inner: None,
            },
        );
        put_at(&mut self.boards, canvas, number, key);
        label_at(&mut self.labels, &self.boards, canvas, number);
        plant_inside(
            &mut self.nodes,
            &mut self.boards,
            &mut self.labels,
            seeds,
            sheet,
            room,
            key,
            depth + 1,
            boxes,
        );
        key
    }
}
