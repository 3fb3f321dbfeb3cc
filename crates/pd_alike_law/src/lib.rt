//! Laws of a patch that opened from what a running patch saved: it runs, is fed and owns names as that patch does.
//!
//! What `pd_saved_law` says of the tree and of the fan-outs of the patch that opened, this says of the rest. In each canvas
//! of the document the boxes of the same numbers run in the same order, and those of the same numbers are stuck
//! (`opened_patches_run_in_order`). Each name has in each class the same owners in the same order, by their places in text
//! order (`opened_patches_own_alike`). To each inlet the same wires come in the same order, by the numbers of the boxes and
//! by outlets (`opened_patches_are_fed_alike`); of equal wires none is told from another. All that is asked of the two
//! patches is `HasOpened`, which the text that is saved gives, and with it the owners (`saved_patches_open_alike`): what grows
//! owns the same names in each table that goes on (`what_grows_owns_alike`).
//!
//! In a patch that has just grown feeds are in the order of numbers and outlets, and each wire stands at both of its ports
//! (`feeds_begin_in_order`). Edits of wires leave both so (`edits_keep_feeds`); messages change neither.
//!
//! Asked besides for feeds: what is true of each web as code has it (`StandOnce`, `FedOnce`: `feeds_stand_once`). In each run all
//! of that holds (`pd_again_law`). Left: the canvases of abstractions, whose wires no edit changes.
//!
//! Definitions: `Alike` (what opened, orders and owners), `Feeds`.
#![tactic(auto)]

mod laws;
mod webs;

pub use laws::{
    edits_keep_feeds, feeds_begin_in_order, opened_patches_are_fed_alike, opened_patches_own_alike,
    opened_patches_run_in_order, saved_patches_open_alike, what_grows_owns_alike,
};
pub use webs::feeds_stand_once;
