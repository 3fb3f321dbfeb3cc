//! Why a patch doesn't grow.

use pd_growth::Stop;
use std::alloc::{AllocError, AllocFailed};
use thiserror::Error;

/// Why a document doesn't grow into a running patch.
#[derive(Clone, Copy, Debug, PartialEq, Eq, Error)]
pub enum GrowRefusal {
    /// There is a name more than the table holds.
    #[error("too many symbols")]
    SymbolsFull,
    /// There are more than 16,384 boxes, or a `$0` would exceed 1,000,000,000.
    #[error("too many boxes")]
    TooManyBoxes,
    /// More than 65,536 wires fit.
    #[error("too many wires")]
    TooManyWires,
    /// Tables, arrays and delay lines would have more than 16,777,216 values.
    #[error("too much sound")]
    TooMuchSound,
    /// Memory is wanting.
    #[error("out of memory")]
    NoMemory,
}

impl From<AllocError> for GrowRefusal {
    ghost use Rattle.std.specs.Prelude.{◌≡◌};
    ghost use Rattle.pd_patch.specs.declared.refusal.GrowRefusal.TheVariants.{NoMemory};

    ghost from_gives = { λ _ e. e ≡ NoMemory };

    fn from(_: AllocError) -> GrowRefusal {
        GrowRefusal::NoMemory
    }
}

impl<T: Drop> From<AllocFailed<T>> for GrowRefusal {
    ghost use Rattle.std.specs.Prelude.{◌≡◌};
    ghost use Rattle.pd_patch.specs.declared.refusal.GrowRefusal.TheVariants.{NoMemory};

    ghost from_gives = { λ _ e. e ≡ NoMemory };

    fn from(_: AllocFailed<T>) -> GrowRefusal {
        GrowRefusal::NoMemory
    }
}

impl From<Stop> for GrowRefusal {
    ghost use Rattle.std.specs.Prelude.{◌≡◌};
    ghost use Rattle.pd_patch.specs.Refusals.{stopped};

    ghost from_gives = { λ stop e. e ≡ stopped stop };

    /// A file of which nothing is known doesn't come where the library answers all names.
    fn from(stop: Stop) -> GrowRefusal {
        match stop {
            Stop::SymbolsFull => GrowRefusal::SymbolsFull,
            Stop::TooManyBoxes => GrowRefusal::TooManyBoxes,
            Stop::Lacks(_) | Stop::NoMemory => GrowRefusal::NoMemory,
        }
    }
}
