//! Laws of texts and channels: a `dac~` has no more channels than a text has atoms. It has no code that runs.
//!
//! The texts of a proper document have at most 1,024 atoms each (`texts_are_short`). So each `dac~` of a tree that
//! grows from such documents has at most 1,024 channels, and so has each of a patch in which the tree stands
//! (`channels_are_few`).
//!
//! Definitions: `Channels`.
#![tactic(auto)]

mod laws;

pub use laws::{channels_are_few, texts_are_short};
