//! Laws of a port box that comes into a canvas that a box of a running patch holds. Nothing runs here.
//!
//! The document that is saved has then the element of the box at its number in its canvas, and in the canvas around the wires at the box that holds it
//! lead to the ports where they are: those with the number of the new port and further ones to the next (`documents_follow_ports`).
//!
//! Definitions: `Raised` (a page where a box has a port more).
#![tactic(auto)]

mod laws;

pub use laws::documents_follow_ports;
