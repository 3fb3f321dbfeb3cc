//! Lists of turns.

ghost use Rattle.std.specs.Prelude.{◌≡◌, IfOk, map};
ghost use Rattle.pd_undo.specs.Acts.{placed};

use crate::copies::copy_turns;
use pd_canvas::Turn;
use std::alloc::{AllocError, Global};
use std::marker::Model;

/// Turns, in the order in which they are made. Contracts see of each its path and its act, which has an element as its entry.
#[derive(Drop)]
pub struct Turns {
    items: Vec<Turn>,
}

impl Model for Turns {
    ghost use Rattle.std.specs.Prelude.{List, map};
    ghost use Rattle.pd_undo.specs.Acts.{Placed, placed};
    ghost use Rattle.pd_undo.specs.Codes.{turns_code};

    ghost Value = { List Placed };

    ghost coded = { turns_code };

    ghost view = { λ t. map placed t.items.items };
}

impl Turns {
    pub fn from_vec(items: Vec<Turn>) -> Turns
        ensures { result ≡ map placed items.items }
    {
        Turns { items }
    }

    pub fn into_vec(self) -> Vec<Turn>
        ensures { map placed result.items ≡ self }
    {
        self.items
    }

    pub fn as_slice(&self) -> &[Turn]
        ensures { map placed result.now ≡ self.now }
    {
        self.items.as_slice()
    }

    pub fn copy(&self) -> Result<Turns, AllocError>
        ensures { IfOk result (λ t. t ≡ self.now) }
    {
        let items = copy_turns(self.alloc(), self.items.as_slice())?;
        Ok(Turns { items })
    }

    /// The allocator that the list keeps.
    pub(crate) fn alloc(&self) -> Global {
        *self.items.allocator()
    }
}
