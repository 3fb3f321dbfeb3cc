//! Laws of the ends of blocks: no box runs twice in a block, and no `vline~` ever has run a block that ends after
//! the next one's start. Nothing runs here.
//!
//! A `vline~` that is made has run no block (`what_is_made_has_run_no_block`), a message leaves the end of the block
//! that it ran last, whatever begins the delivery (`messages_run_no_block`), and after a block that end is the
//! block's at most (`blocks_end`). In a patch that stands each box runs once in a block (`boxes_run_once`), and a
//! block changes that end of no box that doesn't run in it (`other_boxes_run_no_block`). What boxes keep is of their
//! kinds in all that; `pd_sized` says that it stays so.
//!
//! Definitions: `Ends` (what a `vline~` has run), `Once` (which boxes run).
#![tactic(auto)]

mod laws;

pub use laws::{
    blocks_end, boxes_run_once, messages_run_no_block, other_boxes_run_no_block,
    what_is_made_has_run_no_block,
};
