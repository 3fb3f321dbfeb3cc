//! The library of abstractions: the files that growing documents asked for, as a shelf gave them.
//!
//! `Library::gather` asks the shelf for exactly the files that growing a document asks for and that weren't known,
//! one after the other, each read in its place; then growth lacks none. A refusal leaves what was known and the
//! table of names as they were; a failure of the shelf is told only where its count of faults rose. A file that
//! isn't read as a document counts as refused and not as absent.
//!
//! It is one walk over the boxes of the document's root: a box that lacks a file grows anew once the file is known,
//! and no box before it does. So time goes with the files and boxes, but for many files that one box of the root
//! lacks: that is measured, and promised by no clause. `Library::gather_box` does the same for one box at its site
//! and gives its rows; a refusal leaves files, names and supply as they were. `Library::forget` forgets what was learned last.
//! Free: want of memory.
//!
//! Definitions: `Gather` (what is asked for and what is known after it), `Boxes` (the same for one box), `Fetching`,
//! `Steps`, `Refusals`.
#![tactic(auto)]

mod boxes;
mod fetching;
mod gathering;
mod learning;
mod library;
mod reading;
mod refusal;
mod root;

pub use boxes::Site;
pub use library::Library;
pub use refusal::{BoxRefusal, GatherRefusal};
