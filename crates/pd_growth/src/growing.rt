//! Why growth ends.

use pd_atom::Sym;
use std::alloc::{AllocError, AllocFailed};

/// Why growth ends before the document is grown.
#[derive(Clone, Copy, Debug, PartialEq, Eq)]
pub enum Stop {
    /// A name more than the table holds.
    SymbolsFull,
    /// A box more than there is room for, or a `$0` above 1,000,000,000.
    TooManyBoxes,
    /// Nothing is known of the file of this abstraction.
    Lacks(Sym),
    NoMemory,
}

impl From<AllocError> for Stop {
    ghost use Rattle.std.specs.Prelude.{◌≡◌};
    ghost use Rattle.pd_growth.specs.declared.growing.Stop.TheVariants.{NoMemory};

    ghost from_gives = { λ _ e. e ≡ NoMemory };

    fn from(_: AllocError) -> Stop {
        Stop::NoMemory
    }
}

impl<T: Drop> From<AllocFailed<T>> for Stop {
    ghost use Rattle.std.specs.Prelude.{◌≡◌};
    ghost use Rattle.pd_growth.specs.declared.growing.Stop.TheVariants.{NoMemory};

    ghost from_gives = { λ _ e. e ≡ NoMemory };

    fn from(_: AllocFailed<T>) -> Stop {
        Stop::NoMemory
    }
}
