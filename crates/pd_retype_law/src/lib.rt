//! Laws of edits that make boxes of a running patch others. Nothing runs here.
//!
//! Where an edit made a box another one (`RetypesBox` of `pd_retyping`), whatever ports the two have, the wires at the box that don't fit the new one
//! went; those that fit, but turn from signal wires to control wires or back, came back where they were. So each outlet has the wires that it had less
//! those that went, in their order (`outlets_keep_their_wires`). The document of the patch is the one after the edit less these wires, but for a toggle
//! with other values in its text than it keeps at first (`documents_follow_retypes`). The tree that stood stands with the new box in the place of the
//! old one and grows again from its own document, its wires hold and fit, and each name has its owners (`boxes_become_others_in_trees`); the counts are
//! those of the tree and of the wires that are left (`counts_follow_retypes`), and the patch can be saved (`retyped_boxes_can_be_saved`). All this holds
//! of a subpatch that got another text, too: no wire went then, and it holds what it held.
//!
//! Definitions: `Losing` (a page that loses wires).
#![tactic(auto)]

mod laws;

pub use laws::{
    boxes_become_others_in_trees, counts_follow_retypes, documents_follow_retypes,
    outlets_keep_their_wires, retyped_boxes_can_be_saved,
};
