//! Laws of boxes and canvases under keys; `pd_grove`'s code stands beside them, and nothing runs here.
//!
//! Where each box and canvas is sound by itself (`IsForest`), the keys tell one tree, and that tree stands
//! (`forests_stand`); with a box more, less or changed in one canvas, or with other wires there, the keys are a
//! forest again and their tree is the former one with this canvas changed (`forests_change`, `prunes`), and where a box
//! becomes another under its key all else stays (`refits`).
//!
//! The relations are those of `pd_grove`, whose calls meet them: `put_box` meets `HasPartMore`, `take_box` `TakesBox`,
//! `refit_box` `Refits`.
#![tactic(auto)]

mod laws;

pub use laws::{forests_change, forests_stand, prunes, refits};
