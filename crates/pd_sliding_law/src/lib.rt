//! Laws of a port box that moves in a canvas that a box of a running patch holds. Nothing runs here.
//!
//! The document that is saved has then the element of the box at its place, and in the canvas around the wires at the box that holds it lead
//! to the ports where they are: the port that the box is went from one number to another, and those between made way. The wires of a canvas
//! stand by their outlets, so where an outlet went they are put in order again (`documents_follow_slides`).
//!
//! Definitions: `Slid` (a page where a port of a box went).
#![tactic(auto)]

mod laws;

pub use laws::documents_follow_slides;
