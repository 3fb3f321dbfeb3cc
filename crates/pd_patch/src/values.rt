//! The blocks that signal outlets give, and what a block of samples asks of a patch.

ghost use Rattle.std.specs.Prelude.{◌≡◌, ◌+◌, ◌<◌, ◌≤◌, ℕ, Some, length, slice_get, slice_set, map, replicate, is_some, IsTrue, IfOk};
ghost use Rattle.std.specs.Option.{option_copied};
ghost use Rattle.pd_kind.specs.States.{silent_block};
ghost use Rattle.pd_grove.specs.declared.ports.Side.TheVariants.{Outlets};
ghost use Rattle.pd_web.specs.Hops.{feed_hops, ports_told};
ghost use Rattle.pd_patch.specs.Values.{blocks_told, block_at, block_count, first_blocks, with_block, with_silence, chain_in, stuck_in, AreSilent, SilentRest};

use crate::numbers::box_end;
use crate::patch::Patch;
use pd_grove::Grove;
use pd_num::Sig;
use pd_web::{Hop, Web};
use std::alloc::{AllocError, Global};

/// The blocks of the outlets of a box.
pub(crate) type Blocks = Vec<[Sig; 64]>;

/// The first blocks of each box, by its key: none under a key that isn't there.
pub(crate) fn values_of(alloc: Global, grove: &Grove, web: &Web) -> Result<Vec<Blocks>, AllocError>
    ensures silent { IfOk result (λ values. AreSilent grove.now web.now (map (λ b. b.items) values.items)) }
    ensures rows { IfOk result (λ values. (k : ℕ) → k < length values.items → slice_get (map (λ b. b.items) values.items) k ≡ Some (first_blocks web.now k)) }
{
    let end = box_end(grove)?;
    let mut values = Vec::new(alloc);
    for key in 0..end {
        let blocks = silent_blocks(alloc, blocks_at(web, key))?;
        values.push(blocks)?;
    }
    Ok(values)
}

/// How many blocks a box has: one for each outlet, where one of those carries signals.
fn blocks_at(web: &Web, node: u32) -> u32
    ensures { result ≡ block_count (ports_told web.now Outlets node) }
{
    for outlet in 0..web.outlets_at(node) {
        if web.outlet_signal_at(node, outlet) {
            return web.outlets_at(node);
        }
    }
    0
}

/// So many blocks of 0.
#[tactic(auto, unfolding(pd_kind::specs::States::silent_block))]
fn silent_blocks(alloc: Global, count: u32) -> Result<Blocks, AllocError>
    ensures { IfOk result (λ blocks. blocks.items ≡ replicate count silent_block) }
{
    let mut blocks = Vec::with_capacity(alloc, count as usize)?;
    for _ in 0..count {
        blocks.push([Sig::default(); 64])?;
    }
    Ok(blocks)
}

/// Sets a block of a list, where it has that place.
fn put_block(blocks: &mut Blocks, outlet: u32, block: &[Sig; 64])
    ensures { blocks.new.items ≡ slice_set blocks.old.items outlet block.now }
{
    let outlet = outlet as usize;
    if outlet < blocks.len() {
        blocks[outlet] = *block;
    }
}

/// Sets each block of a list to 0.
#[tactic(auto, unfolding(pd_kind::specs::States::silent_block))]
fn silence_all(blocks: &mut Blocks)
    ensures { blocks.new.items ≡ map (λ _. silent_block) blocks.old.items }
{
    let silence = [Sig::default(); 64];
    for i in 0..blocks.len() {
        blocks[i] = silence;
    }
}

impl Patch {
    /// The block of an outlet; `None` exactly where the box has no signal outlets or not that outlet.
    pub fn values_at(&self, node: u32, outlet: u32) -> Option<&[Sig; 64]>
        ensures { option_copied result ≡ block_at (blocks_told self.now) node outlet }
    {
        self.values.get(node as usize)?.get(outlet as usize)
    }

    /// Lends the block of an outlet that has one.
    pub fn values_mut(&mut self, node: u32, outlet: u32) -> &mut [Sig; 64]
        requires { IsTrue (is_some (block_at (blocks_told self.old) node outlet)) }
    {
        let blocks = &mut self.values[node as usize];
        &mut blocks[outlet as usize]
    }

    /// Sets the block of an outlet. Where it has none, nothing changes.
    pub fn put_values(&mut self, node: u32, outlet: u32, block: &[Sig; 64])
        ensures values { blocks_told self.new ≡ with_block (blocks_told self.old) node outlet block.now }
        ensures tree { self.new.grove ≡ self.old.grove }
        ensures rest { SilentRest self.old self.new }
    {
        let node = node as usize;
        if node < self.values.len() {
            put_block(&mut self.values[node], outlet, block);
        }
    }

    /// The outlets of a box give 0.
    pub fn silence_values(&mut self, node: u32)
        ensures values { blocks_told self.new ≡ with_silence (blocks_told self.old) node }
        ensures tree { self.new.grove ≡ self.old.grove }
        ensures rest { SilentRest self.old self.new }
    {
        let node = node as usize;
        if node < self.values.len() {
            silence_all(&mut self.values[node]);
        }
    }

    /// The first wire of an inlet: the box that feeds it, and its outlet. `None` exactly where there is none.
    pub fn feed_first(&self, node: u32, inlet: u32) -> Option<Hop>
        ensures { result ≡ slice_get (feed_hops self.now.web node inlet) 0 }
    {
        self.web.feed_first(node, inlet)
    }

    /// The next wire of the inlet, in the order of source, outlet and fan-out. `None` exactly at the end.
    pub fn feed_next(&self, hop: Hop) -> Option<Hop>
        ensures { (node inlet i : ℕ) → slice_get (feed_hops self.now.web node inlet) i ≡ Some hop →
            result ≡ slice_get (feed_hops self.now.web node inlet) (i + 1) }
    {
        self.web.feed_next(hop)
    }

    /// How many boxes the chain of a canvas has.
    pub fn chain_len(&self, canvas: u32) -> usize
        ensures { result ≡ length (chain_in self.now canvas) }
    {
        match self.order_at(canvas) {
            Some(order) => order.chain().len(),
            None => 0,
        }
    }

    /// The box at a place of the chain of a canvas; `None` exactly from its length on.
    pub fn chain_at(&self, canvas: u32, place: usize) -> Option<u32>
        ensures { result ≡ slice_get (chain_in self.now canvas) place }
    {
        self.order_at(canvas)?.chain().get(place).copied()
    }

    /// How many boxes of a canvas are stuck.
    pub fn stuck_len(&self, canvas: u32) -> usize
        ensures { result ≡ length (stuck_in self.now canvas) }
    {
        match self.order_at(canvas) {
            Some(order) => order.stuck().len(),
            None => 0,
        }
    }

    /// The stuck box at a place among those of a canvas; `None` exactly from their number on.
    pub fn stuck_at(&self, canvas: u32, place: usize) -> Option<u32>
        ensures { result ≡ slice_get (stuck_in self.now canvas) place }
    {
        self.order_at(canvas)?.stuck().get(place).copied()
    }

    /// A number above the keys of all boxes.
    pub fn nodes_end(&self) -> usize
        ensures { length self.now.grove.nodes.slots ≤ result }
    {
        self.grove.nodes_end()
    }
}
