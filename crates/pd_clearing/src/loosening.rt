//! The wires at some boxes go.

ghost use Rattle.std.specs.Prelude.{◌≡◌, ℕ, IsTrue, IsSome};
ghost use Rattle.slab.specs.Slab.{get};
ghost use Rattle.pd_grove.specs.TextOrder.{keys_of_spots};
ghost use Rattle.pd_owning.specs.Bound.{is_among};
ghost use Rattle.pd_web.specs.Changes.{wires_told, Meet};
ghost use Rattle.pd_wiring.specs.Changes.{CanRewire};
ghost use Rattle.pd_clearing.specs.Losing.{LoosensAll};

use pd_grove::Spot;
use pd_order::Steps;
use pd_patch::Patch;
use pd_taking::loosen;
use std::sync::ledger::Ledger;

/// Takes all wires at these boxes out, one after the other. `wires` is how many wires there are, and what is given how many there are then.
pub(crate) fn loosen_all<L: Ledger>(
    patch: &mut Patch,
    spots: &[Spot],
    wires: usize,
    steps: &mut Steps<L>,
) -> usize
    requires runs { CanRewire patch.old }
    requires meet { Meet patch.old.web }
    requires live { (k : ℕ) → IsTrue (is_among (keys_of_spots spots.now) k) → IsSome (get patch.old.grove.nodes k) }
    requires counted { wires ≡ wires_told patch.old.web }
    ensures loosens { LoosensAll patch.old patch.new (keys_of_spots spots.now) (keys_of_spots spots.now) steps.old steps.new }
    ensures counted { result ≡ wires_told patch.new.web }
{
    let mut left = wires;
    for spot in spots {
        left = loosen(patch, spot.node, left, steps);
    }
    left
}
