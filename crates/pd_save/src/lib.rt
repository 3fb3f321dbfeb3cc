//! The running patch's document, written and put on a shelf under a name.
//!
//! `put_document` puts the text of the document as it stands (`Patch::document`) in place of what the name held; all
//! other files stay. A refusal comes where the shelf failed, which it counts, or for want of memory, after which all
//! is as before. The patch and the table of names are only read.
//!
//! Free: want of memory. A document with an atom or a name that isn't of the table has no text; none such comes of a
//! patch, which is not proved here, so it is looked for first and answered as want of memory.
//!
//! Definitions: `pd_patch`'s `Document` (the document as it stands), `pd_doc`'s `Writing` (its text) and `Atoms`
//! (which documents are of a table), `pd_io`'s `Rows` (files by name).
#![tactic(auto)]

mod atoms;
mod pages;
mod saving;

pub use saving::put_document;
