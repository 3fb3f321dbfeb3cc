//! The document of a running patch as it stands.
//!
//! `present` gives exactly the patch's own document at present: each canvas with its records, its boxes and the
//! wires that there are, by the numbers of their boxes; a message box with the text that it keeps, an array whose
//! flags save its values with these, a toggle whose text is whole with its value and other value. Where more than
//! 257 canvases lie in one another, which no patch has that grew, those inside are empty. Free: want of memory.
//! `present_box` gives one box of it, with what it holds. `pd_save` writes the document.
//!
//! Definitions: `Presents` (the document), `Contents` (a box).
#![tactic(auto)]

mod boxes;
mod canvases;
mod contents;
mod wires;

pub use canvases::{present, present_box};
