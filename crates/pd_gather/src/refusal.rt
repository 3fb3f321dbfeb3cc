//! Why files are not gathered, and why a box is refused.

use pd_io::ShelfError;
use std::alloc::{AllocError, AllocFailed};
use thiserror::Error;

/// Why the files that a document asks for are not gathered.
#[derive(Clone, Copy, Debug, PartialEq, Eq, Error)]
pub enum GatherRefusal {
    /// The shelf failed, and counted it.
    #[error("shelf fault")]
    ShelfFault,
    /// There is a name more than the table holds.
    #[error("too many symbols")]
    SymbolsFull,
    /// Memory is wanting.
    #[error("out of memory")]
    NoMemory,
}

impl From<AllocError> for GatherRefusal {
    ghost use Rattle.std.specs.Prelude.{◌≡◌};
    ghost use Rattle.pd_gather.specs.declared.refusal.GatherRefusal.TheVariants.{NoMemory};

    ghost from_gives = { λ _ e. e ≡ NoMemory };

    fn from(_: AllocError) -> GatherRefusal {
        GatherRefusal::NoMemory
    }
}

impl<T: Drop> From<AllocFailed<T>> for GatherRefusal {
    ghost use Rattle.std.specs.Prelude.{◌≡◌};
    ghost use Rattle.pd_gather.specs.declared.refusal.GatherRefusal.TheVariants.{NoMemory};

    ghost from_gives = { λ _ e. e ≡ NoMemory };

    fn from(_: AllocFailed<T>) -> GatherRefusal {
        GatherRefusal::NoMemory
    }
}

impl From<ShelfError> for GatherRefusal {
    ghost use Rattle.std.specs.Prelude.{◌≡◌};
    ghost use Rattle.pd_gather.specs.Fetching.{refusal_of};

    ghost from_gives = { λ error e. e ≡ refusal_of error };

    fn from(error: ShelfError) -> GatherRefusal {
        match error {
            ShelfError::Failed => GatherRefusal::ShelfFault,
            ShelfError::NoMemory => GatherRefusal::NoMemory,
        }
    }
}

/// Why a box that comes is refused.
#[derive(Clone, Copy, Debug, PartialEq, Eq, Error)]
pub enum BoxRefusal {
    /// A box is one more than there is room for, or no `$0` is left.
    #[error("too many boxes")]
    TooManyBoxes,
    /// The shelf failed, and counted it.
    #[error("shelf fault")]
    ShelfFault,
    /// There is a name more than the table holds.
    #[error("too many symbols")]
    SymbolsFull,
    /// Memory is wanting.
    #[error("out of memory")]
    NoMemory,
}

impl From<GatherRefusal> for BoxRefusal {
    ghost use Rattle.std.specs.Prelude.{◌≡◌};
    ghost use Rattle.pd_gather.specs.Refusals.{box_refusal};

    ghost from_gives = { λ refusal e. e ≡ box_refusal refusal };

    fn from(refusal: GatherRefusal) -> BoxRefusal {
        match refusal {
            GatherRefusal::ShelfFault => BoxRefusal::ShelfFault,
            GatherRefusal::SymbolsFull => BoxRefusal::SymbolsFull,
            GatherRefusal::NoMemory => BoxRefusal::NoMemory,
        }
    }
}
