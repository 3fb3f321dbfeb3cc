//! A wire put in or taken out, and how many there are then.

ghost use Rattle.std.specs.Prelude.{◌≡◌, ◌≤◌, ◌+◌, OnOk, OnErr};
ghost use Rattle.pd_web.specs.Canvases.{keys_at};
ghost use Rattle.pd_web.specs.Lines.{IsRoute};
ghost use Rattle.pd_web.specs.Changes.{wires_told};
ghost use Rattle.pd_patch.specs.Linked.{ShareCanvas};
ghost use Rattle.pd_patch.specs.Listing.{IsThere};
ghost use Rattle.pd_wiring.specs.Changes.{CanRewire, LeadsAlong, SameButRoom};
ghost use Rattle.pd_wiring.specs.Plans.{Attaches, Detaches, Attached, Detached, most_looks};

use crate::asking::{Coming, Going};
use pd_order::Steps;
use pd_patch::Patch;
use pd_web::wires_are_counted;
use pd_wiring::{attach, detach, reserve_wire};
use std::alloc::{AllocError, Global};
use std::sync::ledger::Ledger;

/// Sets room aside for a wire and puts it in.
pub(crate) fn put_in<L: Ledger>(
    alloc: Global,
    patch: &mut Patch,
    coming: Coming,
    steps: &mut Steps<L>,
) -> Result<(), AllocError>
    requires rewires { CanRewire patch.old }
    requires route { IsRoute patch.old.web.sockets.items coming.line }
    requires together { ShareCanvas patch.old.grove coming.line.source coming.line.sink }
    requires inside { IsThere (keys_at patch.old.grove coming.canvas) coming.line.source }
    ensures done { OnOk result (Attached patch.old patch.new coming.line) }
    ensures short { OnErr result (SameButRoom patch.old patch.new) }
    ensures rewires { CanRewire patch.new }
    ensures more { OnOk result (wires_told patch.new.web ≡ wires_told patch.old.web + 1) }
    ensures as_many { OnErr result (wires_told patch.new.web ≡ wires_told patch.old.web) }
    ensures looks { OnOk result (steps.new ≤ steps.old + most_looks (Attaches coming.canvas coming.line) patch.old patch.new) }
    ensures no_looks { OnErr result (steps.new ≡ steps.old) }
{
    wires_are_counted();
    reserve_wire(alloc, patch, coming.line)?;
    attach(patch, coming.line, steps);
    Ok(())
}

/// Takes a wire out.
pub(crate) fn take_out<L: Ledger>(patch: &mut Patch, going: Going, steps: &mut Steps<L>)
    requires rewires { CanRewire patch.old }
    requires leads { LeadsAlong patch.old.web going.key going.line }
    requires inside { IsThere (keys_at patch.old.grove going.canvas) going.line.source }
    ensures done { Detached patch.old patch.new going.key going.line }
    ensures rewires { CanRewire patch.new }
    ensures less { wires_told patch.old.web ≡ wires_told patch.new.web + 1 }
    ensures looks { steps.new ≤ steps.old + most_looks (Detaches going.canvas going.key going.line) patch.old patch.new }
{
    wires_are_counted();
    patch.web.laws();
    detach(patch, going.line, going.key, steps);
}
