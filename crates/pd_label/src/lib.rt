//! Labels by which boxes stand in order: along the list of a canvas's keys labels rise, so that the place of a key is found
//! by halving, and a key that goes changes no other label.
//!
//! `Labels::place` finds a key in a list along which labels rise. `put` labels the key of a number so that they rise again,
//! where they rose without it, and changes no label of a key outside the list; `reach` takes the memory before, and
//! `put` itself takes none. Free: which labels keys get, and how often a list is labelled anew.
//!
//! Definitions: `Labels`.
#![tactic(auto)]

mod labels;

pub use labels::Labels;
