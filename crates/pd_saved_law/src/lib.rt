//! Laws of what a running patch saves: edits of wires in its document, and the patch that grows from it again.
//!
//! An edit of wires that is made changes the document that is saved as the same edit of a document does, in its canvas and
//! nowhere else (`edits_edit_the_document`), and so a proper one stays proper (`saved_documents_stay_proper`). From the
//! document that is saved, read back from its text, the patch opens again as its tree as it stands, with the same `$0`
//! numbers and in the same table of names (`saved_patches_open_again`). It has in each canvas of the document the same
//! ports and wires as the patch that was saved, at each outlet in the same order (`opened_patches_have_the_wires`), since
//! each wire of a running patch fits (`wires_go_on_fitting`).
//!
//! Asked of the patch that is saved: that a tree stands in it and that what its boxes keep is theirs (`RunsAs`), which holds
//! at first and outlasts edits of wires (`patches_run_on`), and that its document is proper. Both hold in each run
//! (`pd_proper_law`, `pd_again_law`). That the wires to each inlet, the owners of names and the signal orders of what opens
//! again are those of the patch that was saved stands in `pd_alike_law`.
//!
//! Definitions: `Fitting`; all others are those of `pd_reload_law` and of the crates below.
#![tactic(auto)]

mod laws;

pub use laws::{
    edits_edit_the_document, opened_patches_have_the_wires, patches_run_on,
    saved_documents_stay_proper, saved_patches_open_again, wires_go_on_fitting,
};
