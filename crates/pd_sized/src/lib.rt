//! Laws of sizes: what boxes keep always has the sizes with which it was made, so that each box's turn in a block
//! is whole. It has no code that runs.
//!
//! A delay line has room for a block and its next place in it, and a bus and a sum have 64 values: so is what a box
//! keeps at first, and so are all boxes of a patch that has just grown, and the blocks of their outlets
//! (`what_is_made_has_sizes`); so they stay over each message, resumption and write to a table, over a whole
//! delivery, whatever begins it (`messages_keep_sizes`), and over each block (`blocks_keep_sizes`).
//!
//! A box with its sizes does in a block what its object's row says; a `vline~` in order at the block's start runs;
//! and beside a box that it looks at, with its sizes, a box takes that one's values (`turns_are_whole`). In a patch
//! that has just grown the first that owns the name of a bus, a sum or a delay line is a `send~`, a `catch~` or a
//! `delwrite~`, and keeps one; it goes on keeping one where what boxes keep stays of the same objects
//! (`owners_serve`). So it does: each message, resumption and write to a table, a whole delivery, whatever begins
//! it (`messages_keep_objects`), and each block (`blocks_keep_objects`) change only the values of what a box keeps;
//! and kinds never change.
//!
//! Definitions: `Sizes`, `Alike` (of the same objects).
#![tactic(auto)]

mod laws;

pub use laws::{
    blocks_keep_objects, blocks_keep_sizes, boxes_keep_their_kinds, messages_keep_objects,
    messages_keep_sizes, owners_serve, turns_are_whole, what_is_made_has_sizes,
};
