//! Blocks: every box of a patch's signal order gives 64 values an outlet, and the `dac~` boxes add to two channels.
//!
//! `run_block` leaves exactly the block of the patch, and all of the patch but what boxes keep and the blocks of
//! outlets as it was, the clocks too: no delay line has been written in the block that begins, the two channels are
//! silent, and the boxes run down the root's chain, a box that holds a canvas in its place; the stuck boxes of a
//! canvas give 0 and keep what they keep. What comes to a signal inlet is the sum of its signal wires in their
//! order, limited after each addition, or the number that it holds; a box that looks at another one finds the first
//! of its name. What a box keeps and gives is its turn (`pd_turn`). No call takes memory.
//!
//! Law: the number that bounds how many canvases the definition runs in one another makes no difference: a patch
//! that grew has fewer, so whatever its clocks are by then and whatever its boxes keep, no box is silent because it
//! lies too deep (`levels_are_enough`).
//!
//! Not said here: that a chain is that of the signal wires, and that every signal outlet has a block, which
//! `Patch::grow` says; `run_block` runs whatever chain is there, and a wire from an outlet without a block counts
//! as none. Time is measured (`docs/BENCHMARKS.md`).
//!
//! Definitions: `Blocks` (a block of a patch), `Inlets` (what comes to an inlet), `Nets` (what stays); `Given` is
//! of the loop inside.
#![tactic(auto)]

mod beside;
mod canvases;
mod inlets;
mod laws;
mod own;
mod ports;
mod room;

pub use canvases::run_block;
pub use laws::levels_are_enough;
