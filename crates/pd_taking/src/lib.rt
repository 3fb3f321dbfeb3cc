//! All wires at a box of a running patch go.
//!
//! `loosen` takes all wires at a box out, one after the other, each with the mend that the order of its canvas needs (`Loosens`): every
//! other wire stays, in its place and under its key (`LosesWires`), and all else of the patch but links and the order of the box's canvas.
//! It asks what an edit of wires asks (`CanRewire`), and that each wire stands at both of its ports. It takes no memory and can't fail.
//!
//! By no clause: in which order the wires at the box go, which nothing tells but the looks.
//!
//! Definitions: `Loosening` (the wires at a box go).
#![tactic(auto)]

mod loosening;

pub use loosening::loosen;
