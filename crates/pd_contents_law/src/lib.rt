//! Laws of what a save writes of what boxes keep: the text of a message box reads back as it is, and an array and a table have as many values as at
//! first. Nothing runs here.
//!
//! An atom is settled where reading its spelling gives it. The text of a message box in a document that was read is so, and `set`, `add` and
//! their like settle what they put into one. So all boxes keep such texts when they are made (`what_is_made_has_contents`), over each message and a
//! whole delivery, whatever begins it (`messages_keep_contents`), over each block (`blocks_keep_contents`), and where the table of names goes on
//! (`contents_go_on`).
//!
//! Definitions: `Contents`. That the numbers of an array are in their range is in `pd_guards`.
#![tactic(auto)]

mod laws;

pub use laws::{
    blocks_keep_contents, contents_go_on, messages_keep_contents, what_is_made_has_contents,
};
