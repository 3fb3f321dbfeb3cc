//! Laws of growth; `pd_growth`'s code stands beside them, and nothing runs here.
//!
//! Growth takes the `$0` numbers and the room of what grows and only adds names (`growth_takes`). A patch has at
//! most 16,384 boxes, those inside others too (`patches_are_small`). What grows at an element is a function of the
//! element, of what is around it, of the answers of the files that it asks for and of its own `$0` numbers
//! (`growth_is_local`), one part after the other (`growth_splits`). The document of what grew is the one that grew,
//! for documents at most 255 canvases deep below the root (`document_stays`). Growth never looks at wires
//! (`wires_are_unseen`) or at where a box stands (`places_are_unseen`).
//!
//! A patch's own document with the wires that fit, grown again with its own numbers, gives the same boxes, texts,
//! kinds, numbers and fitting wires (`patches_grow_again`, `grown_patches_regrow`). Each box of a canvas grows
//! again by itself, and so the canvas does with other boxes among them (`boxes_regrow`, `canvases_regrow`). So an
//! edit of one canvas leaves what lies around it as it is (`edits_regrow`), also where boxes keep other contents: a
//! message box another text, an array other values, a toggle other ones (`contents_regrow`). What grows again goes
//! on to in longer tables (`regrowth_lasts`), where the library learns more (`regrowth_outlives_learning`), and
//! where it answers otherwise for one name for which none of its boxes asks (`regrowth_outlives_changes`). A
//! document of which each outermost box that asks for a name was grown anew regrows under the library that answers
//! otherwise for that name (`rebuilt_documents_regrow`); which boxes ask for a name is told by one walk
//! (`boxes_ask_as_named`, `asking_laws`), and a published document leaves the answers for all other names
//! (`published_documents_answer`).
//!
//! `pd_gather`, `pd_guards` and `pd_steady` use some of these laws. Edits of boxes, the law that a saved patch loads as
//! it stood, and undo will stand on the others; none of these is made yet. What is left are steps on the way.
//!
//! Definitions: `Regrowth`, `Rewiring` (trees with other wires), `Canvases` and `Filling` (other contents of a
//! canvas), `Asking` and `Renewal` (which boxes ask for a file, and their growth anew), `Suits`.
#![tactic(auto)]

mod laws;

pub use laws::{
    asking_laws, boxes_ask_as_named, boxes_regrow, canvases_regrow, contents_regrow,
    document_stays, edits_regrow, grown_patches_regrow, grown_texts_are_known, growth_is_local,
    growth_splits, growth_takes, library_changes, library_grows, longer_tables_suit,
    patches_are_small, patches_grow_again, paths_lead_within, places_are_unseen,
    published_documents_answer, rebuilt_documents_regrow, regrowth_lasts,
    regrowth_outlives_changes, regrowth_outlives_learning, sound_documents_suit, trimming_laws,
    wires_are_unseen,
};
