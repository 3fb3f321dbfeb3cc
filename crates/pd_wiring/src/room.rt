//! Room set aside for a wire.

ghost use Rattle.std.specs.Prelude.{◌≡◌, OnOk};
ghost use Rattle.pd_web.specs.Changes.{KeepsRoom};
ghost use Rattle.pd_wiring.specs.Changes.{CanRewire, TakesWire, SameButRoom, StaysBuilt};

use pd_patch::Patch;
use pd_web::Line;
use std::alloc::{AllocError, Global};

/// Sets room aside for one wire more along a line. All that the patch tells stays, whatever the answer.
///
/// # Errors
///
/// `AllocError` where memory ran out, or where one of the two boxes has as many signal wires as can be counted.
pub fn reserve_wire(alloc: Global, patch: &mut Patch, line: Line) -> Result<(), AllocError>
    ensures same { SameButRoom patch.old patch.new }
    ensures kept { KeepsRoom patch.old.web patch.new.web }
    ensures rewires { CanRewire patch.old → CanRewire patch.new }
    ensures built { StaysBuilt patch.old patch.new }
    ensures room { OnOk result (TakesWire patch.new line) }
{
    patch.web.reserve(alloc, 0, 2, 1)?;
    patch.links.reserve_one(line.source, line.sink)?;
    Ok(())
}
