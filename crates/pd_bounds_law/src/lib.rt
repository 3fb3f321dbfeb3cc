//! Laws of bounds: what a box keeps stays within the bounds that the row of its object names. Nothing runs here.
//!
//! The range of a `random` is a whole number of at least 1, the count of a `list split` one of at least 0, and the
//! other value of a toggle isn't 0. So is what a box keeps when it is made (`what_is_made_keeps_bounds`); so it
//! stays over each message, resumption and write to a table and over a whole delivery, whatever begins it
//! (`messages_keep_bounds`), and over each block (`blocks_keep_bounds`).
//!
//! Definitions: `Bounds`. The bounds of other objects, as the length of a text, are in `pd_kind`'s `Fit`.
#![tactic(auto)]

mod laws;

pub use laws::{blocks_keep_bounds, messages_keep_bounds, what_is_made_keeps_bounds};
