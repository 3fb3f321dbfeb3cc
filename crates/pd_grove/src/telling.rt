//! What a running tree tells by its keys.

ghost use Rattle.std.specs.Prelude.{◌≡◌, ◌≤◌, length, Some, None, IsSome, slice_get, option_and_then};
ghost use Rattle.std.specs.Option.{option_copied, option_copied_mut};
ghost use Rattle.std.specs.Borrow.{sem};
ghost use Rattle.slab.specs.Slab.{get, ContainsKey};
ghost use Rattle.pd_grove.specs.OwnPaths.{sub_step_in, sub_reached};
ghost use Rattle.pd_grove.specs.Telling.{kind_in, inner_in, state_in, keys_in, step_in, reached, Keeps};

use crate::boards::Board;
use crate::grove::Grove;
use crate::nodes::Node;
use crate::spots::is_subpatch;
use pd_kind::{Kind, State};

impl Grove {
    ghost use Rattle.pd_grove.specs.Lending.{lends_node};

    /// A box; `None` exactly where none lives under the key.
    pub fn node(&self, key: u32) -> Option<&Node>
        ensures { option_copied result ≡ get self.now.nodes key }
    {
        self.nodes.get(key as usize)
    }

    /// A box, for writing; `None` exactly where none lives under the key.
    pub fn node_mut(&mut self, key: u32) -> Option<&mut Node>
        ensures* writes_back { sem 𝓛 (lends_node self.entry key result) }
        ensures value { option_copied_mut result ≡ get self.old.nodes key }
    {
        self.nodes.get_mut(key as usize)
    }

    /// A canvas; `None` exactly where none lives under the key.
    pub fn board(&self, key: u32) -> Option<&Board>
        ensures { option_copied result ≡ get self.now.boards key }
    {
        self.boards.get(key as usize)
    }

    /// A number above the keys of all boxes.
    pub fn nodes_end(&self) -> usize
        ensures slots { length self.now.nodes.slots ≤ result }
        ensures value { result ≡ self.now.nodes.capacity }
    {
        self.nodes.capacity()
    }

    /// The key that the next box gets.
    pub fn next_key(&self) -> usize
        ensures { result ≡ self.now.nodes.vacant_key }
    {
        self.nodes.vacant_key()
    }

    /// A number above the keys of all canvases.
    pub fn boards_end(&self) -> usize
        ensures slots { length self.now.boards.slots ≤ result }
        ensures value { result ≡ self.now.boards.capacity }
    {
        self.boards.capacity()
    }

    /// The key of the root canvas.
    pub fn root(&self) -> u32
        ensures { result ≡ self.now.root }
    {
        self.root
    }

    /// The kind of a live box.
    pub fn kind_at(&self, node: u32) -> &Kind
        requires { ContainsKey self.now.nodes node }
        ensures { kind_in (get self.now.nodes node) ≡ Some result.now }
    {
        &self.nodes[node as usize].kind
    }

    /// The key of the canvas that a box holds; `None` exactly where it holds none.
    pub fn canvas_in(&self, node: u32) -> Option<u32>
        ensures { result ≡ inner_in (get self.now.nodes node) }
    {
        self.nodes.get(node as usize)?.inner
    }

    /// The key of the box of a number of a canvas; `None` exactly from the canvas's number of boxes on.
    pub fn box_key(&self, canvas: u32, number: u32) -> Option<u32>
        ensures { result ≡ slice_get (keys_in (get self.now.boards canvas)) number }
    {
        let board = self.boards.get(canvas as usize)?;
        board.nodes.get(number as usize).copied()
    }

    /// What a box keeps, where it is in.
    pub fn state_at(&self, node: u32) -> Option<&State>
        ensures { option_copied result ≡ state_in (get self.now.nodes node) }
    {
        self.nodes.get(node as usize)?.state.as_ref()
    }

    /// The key of the canvas to which a path of box numbers leads from the root; `None` exactly where it leads to none.
    pub fn place_key(&self, path: &[u32]) -> Option<u32>
        ensures { result ≡ reached self.now (Some self.now.root) path.now }
    {
        let mut here = Some(self.root);
        for number in path {
            here = self.step(here, *number);
        }
        here
    }

    /// The canvas in a box of a canvas.
    fn step(&self, canvas: Option<u32>, number: u32) -> Option<u32>
        ensures { result ≡ option_and_then (λ c. step_in self.now c number) canvas }
    {
        let board = self.boards.get(canvas? as usize)?;
        let key = board.nodes.get(number as usize)?;
        self.nodes.get(*key as usize)?.inner
    }

    /// The key of the canvas of the patch's own document to which a path of box numbers leads from the root, through subpatches alone; `None`
    /// exactly where it leads to none.
    pub fn own_canvas_at(&self, path: &[u32]) -> Option<u32>
        ensures { result ≡ sub_reached self.now (Some self.now.root) path.now }
    {
        let mut here = Some(self.root);
        for number in path {
            here = self.own_step(here, *number);
        }
        here
    }

    /// The canvas in a box of a canvas, where the box is a subpatch.
    fn own_step(&self, canvas: Option<u32>, number: u32) -> Option<u32>
        ensures { result ≡ option_and_then (λ c. sub_step_in self.now c number) canvas }
    {
        let board = self.boards.get(canvas? as usize)?;
        let key = board.nodes.get(number as usize)?;
        let node = self.nodes.get(*key as usize)?;
        if is_subpatch(&node.element.form) {
            node.inner
        } else {
            None
        }
    }

    /// Takes out what a live box keeps. Its state has to be in.
    pub fn take_state(&mut self, node: u32) -> State
        requires { IsSome (state_in (get self.old.nodes node)) }
        ensures state { state_in (get self.old.nodes node) ≡ Some result }
        ensures keeps { Keeps self.old self.new node None }
    {
        let node = &mut self.nodes[node as usize];
        node.state.take().unwrap()
    }

    /// Gives a live box what it keeps.
    pub fn put_state(&mut self, node: u32, state: State)
        requires { ContainsKey self.old.nodes node }
        ensures { Keeps self.old self.new node (Some state) }
    {
        let node = &mut self.nodes[node as usize];
        node.state = Some(state);
    }
}
