//! Copies of turns and of the elements that they hold.

ghost use Rattle.std.specs.Prelude.{◌≡◌, IfOk, map};
ghost use Rattle.pd_canvas.specs.Views.{entry_of};
ghost use Rattle.pd_undo.specs.Acts.{act_of, placed};

use pd_canvas::{Change, Turn, copy_element};
use std::alloc::{AllocError, Global};

pub(crate) fn copy_turns(alloc: Global, turns: &[Turn]) -> Result<Vec<Turn>, AllocError>
    ensures { IfOk result (λ v. map placed v.items ≡ map placed turns.now) }
{
    let mut copies = Vec::with_capacity(alloc, turns.len())?;
    for turn in turns {
        copies.push(copy_turn(alloc, turn)?)?;
    }
    Ok(copies)
}

/// A turn that equals another and shares nothing with it.
pub(crate) fn copy_turn(alloc: Global, turn: &Turn) -> Result<Turn, AllocError>
    ensures { IfOk result (λ t. placed t ≡ placed turn.now) }
{
    Ok(Turn {
        path: turn.path.copy()?,
        change: copy_change(alloc, &turn.change)?,
    })
}

fn copy_change(alloc: Global, change: &Change) -> Result<Change, AllocError>
    ensures { IfOk result (λ c. act_of c ≡ act_of change.now) }
{
    match change {
        Change::Put { number, element } => {
            let element = copy_element(element)?;
            Ok(Change::Put {
                number: *number,
                element,
            })
        }
        Change::Take { number } => Ok(Change::Take { number: *number }),
        Change::Swap { number, element } => {
            let element = copy_element(element)?;
            Ok(Change::Swap {
                number: *number,
                element,
            })
        }
        Change::Wires { wires } => {
            let wires = wires.copy()?;
            Ok(Change::Wires { wires })
        }
    }
}
