//! The boxes of a running patch as a list in text order, and what they mean as a tree. It has types and
//! definitions, and no code that runs.
//!
//! A running tree is canvases with their `$0`, and boxes with their expanded texts and kinds, each with the canvas
//! that it holds, if any. `Row` and `Sheet` are the same as a list in text order: a box that holds a canvas stands
//! before the boxes inside it, with their count. The ports of a canvas are its port boxes from left to right, those
//! of one x by number; a wire fits where its boxes and ports are there and no signal goes into control.
//!
//! Definitions: `Trees`, `Ports`. What grows is such a tree (`pd_growth`), and it stands under keys (`pd_grove`).
#![tactic(auto)]

mod rows;

pub use rows::{Fault, Row, Sheet};
