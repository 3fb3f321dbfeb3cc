//! How a run ends.
ghost use Rattle.std.specs.Prelude.{◌≡◌};
ghost use Rattle.pd_play.specs.Ending.{code_of, is_end};

use pd_engine::BadCause;

/// How a run ended.
#[derive(Debug, Clone, Copy, PartialEq, Eq)]
pub enum Status {
    /// The run came to its end.
    Done,
    /// The words aren't those of the command.
    Usage,
    /// There is no file of the patch's name.
    PatchAbsent,
    /// The patch is refused: at the record of this number, counted from 1, or as a whole at number 0.
    PatchBad { number: u32, cause: BadCause },
    /// The script's record of this number, counted from 1, is no command.
    ScriptBad { number: u32 },
    /// The script couldn't be read on.
    ReadFault,
    /// A line or a sample couldn't be written.
    WriteFault,
    /// The folder couldn't be read.
    ShelfFault,
    /// There was no memory to read the words or to open the patch with.
    NoMemory,
}

impl Status {
    /// Whether the run came to its end.
    pub(crate) fn is_done(&self) -> bool
        ensures { result ≡ is_end self.now }
    {
        match self {
            Status::Done => true,
            Status::Usage => false,
            Status::PatchAbsent => false,
            Status::PatchBad { .. } => false,
            Status::ScriptBad { .. } => false,
            Status::ReadFault => false,
            Status::WriteFault => false,
            Status::ShelfFault => false,
            Status::NoMemory => false,
        }
    }

    /// The exit code of a program that ends so.
    pub fn code(&self) -> u8
        ensures { result ≡ code_of self.now }
    {
        match self {
            Status::Done => 0,
            Status::Usage => 2,
            Status::PatchAbsent => 3,
            Status::PatchBad { .. } => 4,
            Status::ScriptBad { .. } => 5,
            Status::ReadFault => 6,
            Status::WriteFault => 7,
            Status::ShelfFault => 8,
            Status::NoMemory => 9,
        }
    }
}
