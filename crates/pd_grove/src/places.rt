//! The places of boxes in their canvases, by labels.

ghost use Rattle.std.specs.Prelude.{◌≡◌, ◌<◌, ◌↔◌, ℕ, Some, IsTrue, slice_get};
ghost use Rattle.slab.specs.Slab.{get, ContainsKey};
ghost use Rattle.pd_grove.specs.Telling.{keys_in};
ghost use Rattle.pd_grove.specs.Owning.{board_in};
ghost use Rattle.pd_grove.specs.Forest.{IsForest};
ghost use Rattle.pd_grove.specs.Labelled.{label_of};

use crate::grove::Grove;

impl Grove {
    /// The number of a live box in its canvas, found by halving.
    pub fn number_at(&self, node: u32) -> usize
        requires forest { IsForest (get self.now.nodes) (get self.now.boards) self.now.root }
        requires here { ContainsKey self.now.nodes node }
        ensures { (c : ℕ) → board_in (get self.now.nodes node) ≡ Some c → slice_get (keys_in (get self.now.boards c)) result ≡ Some node }
    {
        let board = self.nodes[node as usize].board;
        let keys = self.boards[board as usize].nodes.as_slice();
        self.labels.place(keys, node)
    }

    /// The label of a box: along the boxes of a canvas labels rise, and a box that comes or goes changes no label of another, unless
    /// there is none left between those around it.
    pub fn label(&self, node: u32) -> u64
        ensures { result ≡ label_of self.now node }
    {
        self.labels.label(node)
    }

    /// Whether a box of a canvas comes before another one of the same canvas.
    pub fn is_before(&self, node: u32, other: u32) -> bool
        ensures { (c i j : ℕ) → slice_get (keys_in (get self.now.boards c)) i ≡ Some node → slice_get (keys_in (get self.now.boards c)) j ≡ Some other →
            (IsTrue result ↔ (i < j)) }
    {
        self.labels.label(node) < self.labels.label(other)
    }
}
