//! What an expanded text names: a kind with its arguments, an abstraction, or nothing.
//!
//! `kind_of` gives exactly what the text names, with the defaults of the arguments that are missing, and a kind
//! without a list of more than 1,024 items. `number_at` is the number at a place of a list of atoms, or the
//! default; `argument_name_at` is the symbol at a place once commas and semicolons are left out. Free: want of
//! memory.
//!
//! The words are looked up one row at a time: control objects, lists, panel objects, signal objects, each in a file
//! of its own.
//!
//! Definitions: `Naming`, which has the rows with their words, arguments and defaults.
#![tactic(auto)]

mod arguments;
mod control_words;
mod list_words;
mod naming;
mod panel_words;
mod signal_words;

pub use arguments::{argument_name_at, number_at};
pub use naming::kind_of;
