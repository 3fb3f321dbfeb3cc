//! Laws of a port box that goes from a canvas that a box of a running patch holds. Nothing runs here.
//!
//! The document that is saved has then no wire at the port that the box was; its canvas is as after the edit that deletes the box; and in the
//! canvas around the wires at the box that holds it lead to the ports where they are: those with further numbers than the port's to the ones
//! before (`documents_follow_lost_ports`). The box is gone from the tree as any other, so that laws of boxes that go hold of it as well
//! (`trees_follow_deletes` and `trees_less_grow_again` of `pd_taking_law`).
//!
//! Definitions: `Lowered` (a page where a box has a port fewer).
#![tactic(auto)]

mod laws;

pub use laws::documents_follow_lost_ports;
