//! The samples of `phasor~`, `osc~` and `noise~`, a block at a time.
//!
//! `run` gives for a block of 64 samples exactly the samples and the state of the object's row, by definitions over
//! the list of inputs, for every kind, state and input: a kind of another row, or a state of another kind, changes
//! nothing, and so do blocks in other numbers than the object's signal inlets and outlets. `run_steady` gives the
//! same for a box whose one inlet has the same number in each sample, which isn't written out then.
//!
//! Phases and samples are whole numbers and never wrap. The table of the cosine is computed when the crate is
//! checked, and proved to be the polynomial's values. No call takes memory. The speed is measured:
//! `docs/BENCHMARKS.md`.
//!
//! Definitions: `Cosine`, `Tones` (phases, seeds), `Rows`.
#![tactic(auto)]

mod changes;
mod cosine;
mod fractions;
mod kernels;
mod phases;
mod rows;

pub use rows::{run, run_steady};
