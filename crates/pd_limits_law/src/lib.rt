//! Laws of the limits of a patch: what a running patch saves grows within them.
//!
//! In the tree of a running patch as it stands canvases lie no deeper than in the tree that grew, its boxes keep as many
//! values, and no more wires fit than a patch may have (`saved_patches_keep_the_limits`). So where that tree grows, the
//! growth of a patch is refused for want of memory alone (`saved_patches_are_refused_for_memory_alone`).
//!
//! Asked for wires: that they hold on (`HoldsWires` of `pd_inside_law`), since those inside abstractions count as well, and
//! that there are few (`HasFewWires`). That is so at first, and stays so through edits of wires, more room, and what
//! messages change (`few_wires_hold_on`).
//!
//! Definitions: `Limits`.
#![tactic(auto)]

mod laws;

pub use laws::{
    few_wires_hold_on, saved_patches_are_refused_for_memory_alone, saved_patches_keep_the_limits,
};
