//! Laws of saved patches: the document of a running patch, grown again, gives the patch that was saved. Nothing runs here.
//!
//! `tree_now` is the tree of a running patch as it stands: of each box of the patch's own document with what it keeps
//! (a message box with its text, an array that is saved with its values, a toggle whose text is whole with both of its
//! values), in each canvas of it with the wires that there are, and all else as it grew. The document that is saved is
//! the document of this tree (`documents_tell_trees`), and under the same `$0` numbers this tree grows from it again,
//! also where the table of names went on and the files answer more (`saved_documents_grow_again`). So after any
//! messages, blocks and edits of wires, as long as what boxes keep is theirs (`AreSavable`), which holds of what they
//! keep at first (`first_states_are_savable`).
//!
//! The wires that are saved of a canvas stand by source and outlet, those of each outlet as its fan-out does, and only one
//! list of wires is so (`saved_wires_are_fan_outs`). Of a canvas that was just laid they are the wires of its document
//! that fit, in their order (`laid_wires_are_saved`). Where a wire comes or goes, they change as by the same edit of a
//! document (`saved_wires_follow`), and the document that is saved changes in that canvas alone (`documents_follow_wires`).
//!
//! That messages and blocks leave what boxes keep theirs is in `pd_proper_law` (`what_boxes_keep_is_theirs`).
//!
//! Definitions: `Saving` (the tree as it stands), `Reloading` (what has grown, and stands by now), `Wires`.
#![tactic(auto)]

mod laws;
mod webs;

pub use laws::{
    documents_follow_wires, documents_tell_trees, first_states_are_savable, laid_wires_are_saved,
    saved_documents_grow_again, saved_wires_are_fan_outs, saved_wires_follow, trees_go_on,
};
pub use webs::wires_stand_once;
