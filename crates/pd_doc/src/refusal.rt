//! Why a text is no document.

use std::alloc::{AllocError, AllocFailed};
use thiserror::Error;

/// Why a text is no document, with the number of the record that a rule refuses. Records are numbered from 1, the empty ones too.
#[derive(Clone, Copy, Debug, PartialEq, Eq, Error)]
pub enum DocRefusal {
    /// The record is none that the format has, or is unfinished.
    #[error("bad record")]
    BadRecord { number: u32 },
    /// The record belongs to a data structure.
    #[error("data structure")]
    DataStructure { number: u32 },
    /// The record opens the 257th nested canvas.
    #[error("too deep")]
    TooDeep { number: u32 },
    /// A token has more than 255 bytes, a text more than 1,024 atoms, or an array more than 16,777,216 values.
    #[error("too long")]
    TooLong { number: u32 },
    /// The record is the 16,385th element of the document.
    #[error("too many boxes")]
    TooManyBoxes { number: u32 },
    /// The record is the 65,537th wire of the document.
    #[error("too many wires")]
    TooManyWires { number: u32 },
    /// The record brings a name to a table that is full.
    #[error("too many symbols")]
    SymbolsFull { number: u32 },
    /// Memory is wanting.
    #[error("out of memory")]
    NoMemory,
}

impl From<AllocError> for DocRefusal {
    ghost use Rattle.std.specs.Prelude.{◌≡◌};
    ghost use Rattle.pd_doc.specs.declared.refusal.DocRefusal.TheVariants.{NoMemory};

    ghost from_gives = { λ _ e. e ≡ NoMemory };

    fn from(_: AllocError) -> DocRefusal {
        DocRefusal::NoMemory
    }
}

impl<T: Drop> From<AllocFailed<T>> for DocRefusal {
    ghost use Rattle.std.specs.Prelude.{◌≡◌};
    ghost use Rattle.pd_doc.specs.declared.refusal.DocRefusal.TheVariants.{NoMemory};

    ghost from_gives = { λ _ e. e ≡ NoMemory };

    fn from(_: AllocFailed<T>) -> DocRefusal {
        DocRefusal::NoMemory
    }
}
