//! A box with an empty canvas inside, for which room is set aside and which then comes in.

ghost use Rattle.std.specs.Prelude.{◌≡◌, ◌≤◌, ◌+◌, length, IfOk, OnErr};
ghost use Rattle.slab.specs.Slab.{ContainsKey};
ghost use Rattle.pd_web.specs.Canvases.{keys_at};
ghost use Rattle.pd_boxes.specs.Put.{CanPut};
ghost use Rattle.pd_boxes.specs.Room.{SameButRoom};
ghost use Rattle.pd_subpatches.specs.Shell.{AddsShell, IsShallow, IsShell};

use crate::laws::shells_run_on;
use crate::putting::put_shell;
use crate::reserving::reserve_shell;
use pd_atom::Symbols;
use pd_boxes::{Place, room_changes_nothing};
use pd_grove::Seed;
use pd_order::Steps;
use pd_patch::Patch;
use std::alloc::{AllocError, Global};
use std::sync::ledger::Ledger;

/// Sets room aside for a box of a seed with an empty canvas inside, puts it into a live canvas at a number, and gives its key. The boxes
/// from that number on move back by one.
///
/// # Errors
///
/// `AllocError` where memory ran out, or where the patch has as many boxes as can be counted.
pub fn add_shell<L: Ledger>(
    alloc: Global,
    patch: &mut Patch,
    place: Place,
    seed: Seed,
    symbols: &mut Symbols,
    steps: &mut Steps<L>,
) -> Result<u32, AllocError>
    requires can { CanPut patch.old }
    requires here { ContainsKey patch.old.grove.boards place.canvas }
    requires number { place.number ≤ length (keys_at patch.old.grove place.canvas) }
    requires shell { IsShell seed }
    requires shallow { IsShallow patch.old place }
    ensures put { IfOk result (AddsShell patch.old patch.new symbols.old place seed) }
    ensures short { OnErr result (SameButRoom patch.old patch.new) }
    ensures goes_on { CanPut patch.new }
    ensures table { symbols.new ≡ symbols.old }
    ensures looks { steps.new ≤ steps.old + 8 }
    ensures last_looks { place.number ≡ length (keys_at patch.old.grove place.canvas) → steps.new ≡ steps.old }
    ensures no_looks { OnErr result (steps.new ≡ steps.old) }
{
    shells_run_on();
    room_changes_nothing();
    let room = reserve_shell(alloc, patch, place, seed, symbols)?;
    Ok(put_shell(alloc, patch, room, symbols, steps))
}
