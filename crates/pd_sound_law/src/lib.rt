//! Laws of blocks: in a patch in order each box runs its own row in a block. It has no code that runs.
//!
//! `free_block` is the block in which each box runs its own row on the sums of its wires, down the signal orders, and
//! the conditions that a running program looks at aren't looked at: whether what a box keeps has its sizes, whether
//! it keeps anything, whether its ports or a `dac~`'s channels are few, and whether a box that it looks for by a name
//! keeps what it looks for, as many values as it wants; whether a `vline~` has run a block that ends later; whether the
//! outlet from which a wire comes has a block; whether a wire is among the first 65,536 of its inlet; and whether the
//! key of a delay line is below 2^32 where a block begins. Where all boxes keep what is of their kinds, with its sizes,
//! the first owner of each name keeps what is looked for there, each outlet that carries signals has a block, inlets
//! and keys are within their bounds, no `vline~` has run a block that ends after this one's start, a time at which
//! events come, and no box runs twice, the block of pd_block is that one (`blocks_are_free`). So it is in a patch that
//! stands, with any number of levels that is greater than that of its canvases (`patches_play_freely`), and what that
//! asks lasts through messages and blocks (`patches_stay_ready`; of the ends of blocks `pd_ends_law` says it). A
//! `dac~` of a patch that has grown has no more channels than a text has atoms (`grown_patches_have_few_channels`).
//! Where no inlet has more than 65,536 wires all of them are summed (`all_wires_are_summed`), and where all keys are
//! below 2^32 each delay line begins (`delay_lines_begin`).
//!
//! Nothing is looked at in the definition any more. The block of a box without a signal outlet goes nowhere.
//!
//! Definitions: `Freely` (the block in which nothing else is looked at), `Ready` (what that asks).
#![tactic(auto)]

mod laws;

pub use laws::{
    all_wires_are_summed, blocks_are_free, delay_lines_begin, grown_patches_have_few_channels,
    patches_play_freely, patches_stay_ready, rows_have_few_ports,
};
