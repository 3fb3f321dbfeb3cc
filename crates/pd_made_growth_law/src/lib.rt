//! A made patch grows within the limits of a patch. It has no code that runs.
//!
//! Law: the made patch of at most 1,000 voices, with a new table that has its words, grows under each file name and
//! whatever is known of files, and asks for none: all its boxes are objects. At most two wires a voice fit, and no box
//! keeps a table, an array or a delay line (`made_patches_grow`).
//!
//! Definitions: `Grows`.
#![tactic(auto)]

mod laws;

pub use laws::made_patches_grow;
