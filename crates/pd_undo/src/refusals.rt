//! Why nothing is undone or made again.

use std::alloc::AllocError;

/// Why an undo or redo gives no turns.
#[derive(Clone, Copy, Debug, PartialEq, Eq)]
pub enum UndoRefusal {
    /// There is no entry.
    Empty,
    NoMemory,
}

impl From<AllocError> for UndoRefusal {
    ghost use Rattle.std.specs.Prelude.{◌≡◌};
    ghost use Rattle.pd_undo.specs.declared.refusals.UndoRefusal.TheVariants.{NoMemory};

    ghost from_gives = { λ _ e. e ≡ NoMemory };

    fn from(_: AllocError) -> UndoRefusal {
        UndoRefusal::NoMemory
    }
}
