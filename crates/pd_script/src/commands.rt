//! Commands.

use crate::edits::{CommandEdit, CommandPlace};
use crate::lists::{CommandAtoms, CommandPath};
use pd_atom::Sym;

/// A command of the script. Its lists have all the room that a record asks for.
#[derive(Debug, Drop)]
pub enum Command {
    /// The message that the atoms make goes to the receivers of a name.
    Send {
        name: Sym,
        atoms: CommandAtoms,
    },
    /// An edit of one canvas of a document.
    Edit {
        place: CommandPlace,
        edit: CommandEdit,
    },
    /// A document is saved; the root one has no name.
    Save {
        document: Option<Sym>,
    },
    /// The signal order of the canvas at a path is printed.
    Show {
        path: CommandPath,
    },
    /// The last edit is taken back.
    Undo,
    /// The last edit that was taken back is made again.
    Redo,
}

/// What a record of the script says.
#[derive(Debug, Drop)]
pub enum Script {
    /// A command is carried out.
    Run(Command),
    /// The run ends.
    End,
}
