//! Wires that were taken out come back.

ghost use Rattle.std.specs.Prelude.{ℕ, List};
ghost use Rattle.pd_web.specs.declared.web.Web.{Web};
ghost use Rattle.pd_misfits.specs.declared.wires.BoxWire.{BoxWire};
ghost use Rattle.pd_turning.specs.Returns.{CanReturn, PutsBack};

use crate::noting::NotedWire;
use pd_order::Steps;
use pd_patch::Patch;
use pd_wiring::attach_before;
use std::sync::ledger::Ledger;

/// Puts wires at a box that were noted and taken out in again, in their order, each at its place in its fan-out and among the feeds of its inlet. No
/// memory is taken. Looks at signal wires are counted in `steps`.
pub fn put_back<L: Ledger>(patch: &mut Patch, key: u32, notes: &[NotedWire], steps: &mut Steps<L>)
    requires { (w : Web) × (ms : List BoxWire) × CanReturn w patch.old key ms notes.now }
    ensures { (w : Web) (ms : List BoxWire) → CanReturn w patch.old key ms notes.now → PutsBack w patch.old patch.new key ms steps.old steps.new }
{
    for note in notes {
        attach_before(patch, note.line, note.before, steps);
    }
}
