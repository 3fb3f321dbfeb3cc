//! The script of a made patch is commands. It has no code that runs.
//!
//! Law: the script of the made patch of at most 1,000 voices is records, two for each voice and one at the end. In each
//! table of names they read as these commands, and bring no names: a millisecond after the record before, the wire of
//! the voice to the left inlet of the output is cut; at once there is one to the right inlet; and then the end
//! (`made_scripts_are_commands`).
//!
//! Definitions: `Records`.
#![tactic(auto)]

mod laws;

pub use laws::made_scripts_are_commands;
