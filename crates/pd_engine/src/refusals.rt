//! Why a patch doesn't open, and how a command ends.

ghost use Rattle.std.specs.Prelude.{◌≡◌, ◌≢◌};
ghost use Rattle.pd_engine.specs.Refusals.{unread as unread_as, ungathered as ungathered_as, ungrown as ungrown_as, unsaved as unsaved_as};

use pd_doc::DocRefusal;
use pd_edit::EditRefusal;
use pd_gather::GatherRefusal;
use pd_io::ShelfError;
use pd_patch::GrowRefusal;
use std::alloc::AllocError;

/// Why a patch is refused.
#[derive(Clone, Copy, Debug, PartialEq, Eq)]
pub enum BadCause {
    BadRecord,
    DataStructure,
    TooDeep,
    TooLong,
    TooManyBoxes,
    TooManyWires,
    TooMuchSound,
    SymbolsFull,
}

/// Why a patch doesn't open.
#[derive(Clone, Copy, Debug, PartialEq, Eq)]
pub enum OpenRefusal {
    /// The folder has no such file.
    Absent,
    /// The file is refused at the record of this number, or, with number 0, the patch as a whole.
    Bad { number: u32, cause: BadCause },
    ShelfFault,
    WriteFault,
    NoMemory,
}

/// How a command ends.
#[derive(Clone, Copy, Debug, PartialEq, Eq)]
pub enum Outcome {
    Done,
    Refused(EditRefusal),
    /// The list to undo or redo is empty.
    Nothing,
}

/// Why the engine doesn't go on.
#[derive(Clone, Copy, Debug, PartialEq, Eq)]
pub enum EngineFault {
    /// Lines or samples weren't taken.
    WriteFault,
    /// An earlier call answered `WriteFault`.
    Stopped,
}

impl From<AllocError> for OpenRefusal {
    ghost use Rattle.std.specs.Prelude.{◌≡◌};
    ghost use Rattle.pd_engine.specs.declared.refusals.OpenRefusal.TheVariants.{NoMemory};

    ghost from_gives = { λ _ e. e ≡ NoMemory };

    fn from(_: AllocError) -> OpenRefusal {
        OpenRefusal::NoMemory
    }
}

/// A document that can't be read.
pub(crate) fn unread(refusal: DocRefusal) -> OpenRefusal
    ensures { result ≡ unread_as refusal }
{
    let (number, cause) = match refusal {
        DocRefusal::BadRecord { number } => (number, BadCause::BadRecord),
        DocRefusal::DataStructure { number } => (number, BadCause::DataStructure),
        DocRefusal::TooDeep { number } => (number, BadCause::TooDeep),
        DocRefusal::TooLong { number } => (number, BadCause::TooLong),
        DocRefusal::TooManyBoxes { number } => (number, BadCause::TooManyBoxes),
        DocRefusal::TooManyWires { number } => (number, BadCause::TooManyWires),
        DocRefusal::SymbolsFull { number } => (number, BadCause::SymbolsFull),
        DocRefusal::NoMemory => return OpenRefusal::NoMemory,
    };
    OpenRefusal::Bad { number, cause }
}

/// A refusal of the patch as a whole.
fn whole(cause: BadCause) -> OpenRefusal
    ensures { result ≡ OpenRefusal.Bad 0 cause }
{
    OpenRefusal::Bad { number: 0, cause }
}

/// Files that can't be gathered.
pub(crate) fn ungathered(refusal: GatherRefusal) -> OpenRefusal
    ensures value { result ≡ ungathered_as refusal }
    ensures shelf { result ≡ OpenRefusal.ShelfFault → refusal ≡ GatherRefusal.ShelfFault }
    ensures write { result ≢ OpenRefusal.WriteFault }
{
    match refusal {
        GatherRefusal::ShelfFault => OpenRefusal::ShelfFault,
        GatherRefusal::SymbolsFull => whole(BadCause::SymbolsFull),
        GatherRefusal::NoMemory => OpenRefusal::NoMemory,
    }
}

/// A document that doesn't grow.
pub(crate) fn ungrown(refusal: GrowRefusal) -> OpenRefusal
    ensures { result ≡ ungrown_as refusal }
{
    match refusal {
        GrowRefusal::SymbolsFull => whole(BadCause::SymbolsFull),
        GrowRefusal::TooManyBoxes => whole(BadCause::TooManyBoxes),
        GrowRefusal::TooManyWires => whole(BadCause::TooManyWires),
        GrowRefusal::TooMuchSound => whole(BadCause::TooMuchSound),
        GrowRefusal::NoMemory => OpenRefusal::NoMemory,
    }
}

/// A document that can't be saved.
pub(crate) fn unsaved(error: ShelfError) -> EditRefusal
    ensures { result ≡ unsaved_as error }
{
    match error {
        ShelfError::Failed => EditRefusal::ShelfFault,
        ShelfError::NoMemory => EditRefusal::NoMemory,
    }
}
