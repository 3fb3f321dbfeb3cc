//! A box becomes another under its key: what grew anew in its place, or the same box with another text or at another place.

ghost use Rattle.std.specs.Prelude.{◌≡◌, ◌+◌, ◌<◌, ◌≤◌, ◌^◌, ◌∷◌, ◌++◌, [], ℕ, List, length, take, drop, slice_get, Some};
ghost use Rattle.slab.specs.Slab.{get, ContainsKey};
ghost use Rattle.pd_tree.specs.Trees.{Trees, Stand, width, stands_of};
ghost use Rattle.pd_grove.specs.Standing.{Stands, depth_of};
ghost use Rattle.pd_grove.specs.Planting.{seeds_in, seed_stand, stands_ready, one, AreRoomy, IsRoomy, HaveRoom};
ghost use Rattle.pd_grove.specs.Telling.{keys_in};
ghost use Rattle.pd_grove.specs.TextOrder.{deep};
ghost use Rattle.pd_grove.specs.Forest.{IsForest};
ghost use Rattle.pd_grove.specs.Refits.{at_place, with_text, Alters, Refits};

use crate::grove::Grove;
use crate::nodes::Node;
use crate::seeds::{Seed, Seeds};
use pd_canvas::{AtomRows, Atoms};
use pd_num::Num;
use std::alloc::Global;

impl Grove {
    /// Puts a grown box, with what it holds, in place of the box of a number, under that one's key and number, and gives that one back. All
    /// that lay in it goes, and all else stays.
    pub fn refit_box(&mut self, canvas: u32, number: u32, seed: Seed, seeds: &mut Seeds) -> Node
        requires forest { IsForest (get self.old.nodes) (get self.old.boards) self.old.root }
        requires here { number < length (keys_in (get self.old.boards canvas)) }
        requires deep { depth_of (get self.old.boards canvas) + 1 + length (seeds_in seeds.old) < 2 ^ 32 }
        requires place { HaveRoom self.old.nodes self.old.boards (length (seeds_in seeds.old) + 1) }
        requires labels { self.old.nodes.capacity ≤ length self.old.labels }
        requires roomy { AreRoomy (seeds_in seeds.old) }
        requires seed { IsRoomy seed }
        ensures refits { let keys = keys_in (get self.old.boards canvas) in
            (k : ℕ) (t : Trees) (more : List Stand) → slice_get keys number ≡ Some k → one (seed_stand seed) (stands_ready (seeds_in seeds.old)) ≡ stands_of t ++ more → width t ≡ 1 →
            depth_of (get self.old.boards canvas) + deep t < 257 →
            Refits (get self.old.nodes) (get self.new.nodes) (get self.old.boards) (get self.new.boards) canvas k result (take number keys) (drop (number + 1) keys)
            (seed ∷ seeds_in seeds.old) (seeds_in seeds.new) }
        ensures stands { (k : ℕ) (t : Trees) (more : List Stand) → slice_get (keys_in (get self.old.boards canvas)) number ≡ Some k →
            one (seed_stand seed) (stands_ready (seeds_in seeds.old)) ≡ stands_of t ++ more → width t ≡ 1 →
            Stands (get self.new.nodes) (get self.new.boards) canvas (depth_of (get self.old.boards canvas)) (k ∷ []) t × (stands_ready (seeds_in seeds.new) ≡ more) }
        ensures labels { self.new.nodes.capacity ≤ length self.new.labels }
        ensures root { self.new.root ≡ self.old.root }
        ensures roomy { AreRoomy (seeds_in seeds.new) }
        ensures room { HaveRoom self.new.nodes self.new.boards (length (seeds_in seeds.new)) }
    {
        let taken = self.take_box(canvas, number);
        self.put_box(canvas, number, seed, seeds);
        taken
    }

    /// Gives a live box another text, as it is `written` in the document and with its dollars replaced. Its width and its tail rows go with the old text; no memory is taken.
    pub fn retext_box(&mut self, alloc: Global, node: u32, written: Atoms, text: Atoms)
        requires { ContainsKey self.old.nodes node }
        ensures { Alters self.old self.new node (with_text written text) }
    {
        let node = &mut self.nodes[node as usize];
        node.element.text = written;
        node.element.width = None;
        node.element.tail = AtomRows::new(alloc);
        node.text = text;
    }

    /// Gives a live box another place in its canvas's window, in pixels as the document has it.
    pub fn move_box(&mut self, node: u32, x: Num, y: Num)
        requires { ContainsKey self.old.nodes node }
        ensures { Alters self.old self.new node (at_place x y) }
    {
        let node = &mut self.nodes[node as usize];
        node.element.x = x;
        node.element.y = y;
    }
}
