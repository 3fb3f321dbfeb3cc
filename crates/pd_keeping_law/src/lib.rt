//! Laws of what boxes keep: how messages and blocks change it. Nothing runs here.
//!
//! What a box keeps after a message is the same or of the same object with other values, and a signal object holds and
//! stores only numbers that the message says. So it is when a box hears a message, is resumed or has a value of its
//! table written, and over a whole delivery, whatever begins it (`messages_change_boxes`). A block changes only signal
//! objects, and leaves the numbers that their inlets hold and store, but for `line~` and `vline~`
//! (`blocks_change_boxes`). So a fact of what is kept lasts where each of these changes leaves it: a law above names
//! the fact, and looks at each change.
//!
//! Definitions: `Changes`.
#![tactic(auto)]

mod laws;

pub use laws::{blocks_change_boxes, messages_change_boxes};
