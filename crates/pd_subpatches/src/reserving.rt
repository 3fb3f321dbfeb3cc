//! Room for a box that comes with an empty canvas inside, set aside in every layer.

ghost use Rattle.std.specs.Prelude.{◌≡◌, IsSome, IfOk};
ghost use Rattle.slab.specs.Slab.{ContainsKey};
ghost use Rattle.pd_patch.specs.Telling.{order_in};
ghost use Rattle.pd_boxes.specs.Room.{IsFor, SameButRoom};
ghost use Rattle.pd_subpatches.specs.Shell.{IsShell, TakesShell};

use pd_atom::Symbols;
use pd_boxes::{Place, Room, reserve_box};
use pd_grove::Seed;
use pd_patch::Patch;
use pd_placing::reserve_orders;
use std::alloc::{AllocError, Global};

/// Sets room aside for a box of a seed that comes into a live canvas with an empty canvas inside. All that the patch tells stays,
/// whatever the answer.
///
/// # Errors
///
/// `AllocError` where memory ran out, or where the patch has as many boxes as can be counted.
pub fn reserve_shell(
    alloc: Global,
    patch: &mut Patch,
    place: Place,
    seed: Seed,
    symbols: &mut Symbols,
) -> Result<Room, AllocError>
    requires here { ContainsKey patch.old.grove.boards place.canvas }
    requires ordered { IsSome (order_in patch.old.orders.items place.canvas) }
    requires shell { IsShell seed }
    ensures same { SameButRoom patch.old patch.new }
    ensures table { symbols.new ≡ symbols.old }
    ensures comes { IfOk result (λ room. IsFor room place seed) }
    ensures room { IfOk result (λ room. TakesShell patch.new room symbols.old) }
{
    let room = reserve_box(alloc, patch, place, seed, symbols)?;
    let end = patch.grove.boards_end();
    reserve_orders(&mut patch.orders, end)?;
    Ok(room)
}
