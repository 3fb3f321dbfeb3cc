//! The script: records read as timed commands.
//!
//! `read_command` gives of a record's tokens the milliseconds and the command that they are, with the table after
//! the names that the command brings: the receiver's or the document's, then those of the atoms. It gives none
//! exactly where the tokens are no command, one of them is too long or the table can't take the names; the table is
//! then as before. A definition reads tokens without their escapes, so `\send` is `send`. What a command names is
//! of the table after it, and the atoms of a message are numbers and symbols. A path with a number above 65,535 is
//! the path 65,536.
//!
//! It takes no memory: the lists of a command are taken out of a room, which keeps those that the command doesn't
//! hold, and where there is no command the room is whole. The lists of every command have all the room that a
//! record asks for, which their types say (`CommandAtoms`, `CommandPath`). So `give_back`, which asks that the room
//! has the lists that the command lacks, leaves it whole and takes no memory; `is_whole` tells exactly whether it
//! is. An edit of a command is seen as pd_canvas's edit, and `copy` makes one. Only `CommandRoom::new` and `copy`
//! take memory.
//!
//! Law: a record that is read leaves a table that goes on (`tables_go_on`).
//!
//! Definitions: `Scripts` (what a record says), `Changes` (its edits), `Fields`, `Atoms`, `Tokens`, `Tables` (what
//! is of a table), `Origins`, `Room`; `Edits`, `Options` and `Splits` help.
#![tactic(auto)]

mod atoms;
mod changes;
mod commands;
mod edits;
mod fields;
mod laws;
mod lists;
mod reading;
mod room;
mod tokens;

pub use commands::{Command, Script};
pub use edits::{CommandEdit, CommandPlace};
pub use laws::tables_go_on;
pub use lists::{CommandAtoms, CommandPath};
pub use reading::read_command;
pub use room::CommandRoom;
