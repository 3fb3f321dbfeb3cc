//! Wires at a box go.

ghost use Rattle.std.specs.Prelude.{◌≡◌, ◌+◌, length};
ghost use Rattle.pd_links.specs.Linked.{KeepsLinkRoom};
ghost use Rattle.pd_web.specs.Changes.{wires_told, Meet};
ghost use Rattle.pd_wiring.specs.Changes.{CanRewire};
ghost use Rattle.pd_taking.specs.Loosening.{Loosens};
ghost use Rattle.pd_misfits.specs.Shedding.{AreWiresAt, Sheds};

use crate::wires::BoxWire;
use pd_order::Steps;
use pd_patch::Patch;
use pd_wiring::detach;
use std::sync::ledger::Ledger;

/// Takes these wires at a box out, one after the other. `wires` is how many wires there are, and what is given how many there are then.
/// Looks at signal wires are counted in `steps`.
pub fn loosen_wires<L: Ledger>(
    patch: &mut Patch,
    key: u32,
    gone: &[BoxWire],
    wires: usize,
    steps: &mut Steps<L>,
) -> usize
    requires runs { CanRewire patch.old }
    requires meet { Meet patch.old.web }
    requires wires { AreWiresAt patch.old.web key gone.now }
    requires counted { wires ≡ wires_told patch.old.web }
    ensures loosens { Loosens patch.old patch.new key steps.old steps.new }
    ensures sheds { Sheds patch.old.web patch.new.web gone.now }
    ensures room { KeepsLinkRoom patch.old.links patch.new.links }
    ensures counted { result ≡ wires_told patch.new.web }
    ensures fewer { wires_told patch.new.web + length gone.now ≡ wires_told patch.old.web }
{
    let mut left = wires;
    for wire in gone {
        patch.web.laws();
        detach(patch, wire.line, wire.key, steps);
        left -= 1;
    }
    left
}
