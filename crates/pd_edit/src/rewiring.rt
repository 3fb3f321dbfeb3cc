//! An edit of wires, decided and made.

ghost use Rattle.std.specs.Prelude.{◌≡◌, ◌≢◌, ◌≤◌, ◌+◌, Ok, Err, IfOk, IfErr, OnErr};
ghost use Rattle.pd_canvas.specs.declared.edits.Edit.TheVariants as edit_kind;
ghost use Rattle.pd_web.specs.Changes.{wires_told};
ghost use Rattle.pd_wiring.specs.declared.refusals.EditRefusal.TheVariants.{NoMemory};
ghost use Rattle.pd_wiring.specs.Changes.{CanRewire, SameButRoom};
ghost use Rattle.pd_wiring.specs.Plans.{Plan, planned, most_looks, IsRewired};

use crate::asking::{wire_to_come, wire_to_go};
use crate::wires::{put_in, take_out};
use pd_canvas::{Edit, Wire};
use pd_order::Steps;
use pd_patch::Patch;
use pd_wiring::EditRefusal;
use std::alloc::Global;
use std::sync::ledger::Ledger;

/// What an edit of wires changed: the canvas of a key, and how many wires there are now.
#[derive(Clone, Copy, Debug, PartialEq, Eq)]
pub struct Rewired {
    pub canvas: u32,
    pub wires: usize,
}

/// Makes an edit of the running patch's own document in the canvas at a path, where it is one of wires. `wires` is how
/// many wires there are; looks at signal wires are counted in `steps`.
///
/// # Errors
///
/// The first reason why the edit can't be made: `NoDocument` for an edit of boxes, `NoCanvas`, `NoBox`, `NoPort`; then
/// `SignalIntoControl`, `TooManyWires` and `NoMemory` for a wire that would come, `NoWire` for one that would go.
pub fn rewire<L: Ledger>(
    alloc: Global,
    patch: &mut Patch,
    wires: usize,
    path: &[u32],
    edit: &Edit,
    steps: &mut Steps<L>,
) -> Result<Rewired, EditRefusal>
    requires rewires { CanRewire patch.old }
    requires counted { wires ≡ wires_told patch.old.web }
    ensures done { IfOk result (λ r. IsRewired patch.old patch.new path.now edit.now r.canvas) }
    ensures count { IfOk result (λ r. r.wires ≡ wires_told patch.new.web) }
    ensures refused { IfErr result (λ why. why ≢ NoMemory → (planned patch.old path.now edit.now ≡ Err why) × (patch.new ≡ patch.old)) }
    ensures short { result ≡ Err NoMemory → (plan : Plan) × (planned patch.old path.now edit.now ≡ Ok plan) × SameButRoom patch.old patch.new }
    ensures rewires { CanRewire patch.new }
    ensures counted { OnErr result (wires ≡ wires_told patch.new.web) }
    ensures looks { IfOk result (λ r. (plan : Plan) → planned patch.old path.now edit.now ≡ Ok plan → steps.new ≤ steps.old + most_looks plan patch.old patch.new) }
    ensures no_looks { OnErr result (steps.new ≡ steps.old) }
{
    match edit {
        Edit::Connect { wire } => connect(alloc, patch, wires, path, wire, steps),
        Edit::Disconnect { wire } => disconnect(patch, wires, path, wire, steps),
        Edit::Obj { .. }
        | Edit::Msg { .. }
        | Edit::Comment { .. }
        | Edit::FloatBox { .. }
        | Edit::SymbolBox { .. }
        | Edit::Sub { .. }
        | Edit::Delete { .. }
        | Edit::Retype { .. }
        | Edit::Move { .. } => Err(EditRefusal::NoDocument),
    }
}

/// One wire more, in the canvas at a path.
fn connect<L: Ledger>(
    alloc: Global,
    patch: &mut Patch,
    wires: usize,
    path: &[u32],
    wire: &Wire,
    steps: &mut Steps<L>,
) -> Result<Rewired, EditRefusal>
    requires rewires { CanRewire patch.old }
    requires counted { wires ≡ wires_told patch.old.web }
    ensures done { IfOk result (λ r. IsRewired patch.old patch.new path.now (edit_kind.Connect wire.now) r.canvas) }
    ensures count { IfOk result (λ r. r.wires ≡ wires_told patch.new.web) }
    ensures refused { IfErr result (λ why. why ≢ NoMemory → (planned patch.old path.now (edit_kind.Connect wire.now) ≡ Err why) × (patch.new ≡ patch.old)) }
    ensures short { result ≡ Err NoMemory → (plan : Plan) × (planned patch.old path.now (edit_kind.Connect wire.now) ≡ Ok plan) × SameButRoom patch.old patch.new }
    ensures rewires { CanRewire patch.new }
    ensures counted { OnErr result (wires ≡ wires_told patch.new.web) }
    ensures looks { IfOk result (λ r. (plan : Plan) → planned patch.old path.now (edit_kind.Connect wire.now) ≡ Ok plan → steps.new ≤ steps.old + most_looks plan patch.old patch.new) }
    ensures no_looks { OnErr result (steps.new ≡ steps.old) }
{
    let place = wire_to_come(patch, wires, path, wire)?;
    if put_in(alloc, patch, place, steps).is_err() {
        return Err(EditRefusal::NoMemory);
    }
    Ok(Rewired {
        canvas: place.canvas,
        wires: wires + 1,
    })
}

/// One wire less, in the canvas at a path.
fn disconnect<L: Ledger>(
    patch: &mut Patch,
    wires: usize,
    path: &[u32],
    wire: &Wire,
    steps: &mut Steps<L>,
) -> Result<Rewired, EditRefusal>
    requires rewires { CanRewire patch.old }
    requires counted { wires ≡ wires_told patch.old.web }
    ensures done { IfOk result (λ r. IsRewired patch.old patch.new path.now (edit_kind.Disconnect wire.now) r.canvas) }
    ensures count { IfOk result (λ r. r.wires ≡ wires_told patch.new.web) }
    ensures refused { IfErr result (λ why. (why ≢ NoMemory) × (planned patch.old path.now (edit_kind.Disconnect wire.now) ≡ Err why) × (patch.new ≡ patch.old)) }
    ensures rewires { CanRewire patch.new }
    ensures looks { IfOk result (λ r. (plan : Plan) → planned patch.old path.now (edit_kind.Disconnect wire.now) ≡ Ok plan → steps.new ≤ steps.old + most_looks plan patch.old patch.new) }
    ensures no_looks { OnErr result (steps.new ≡ steps.old) }
{
    let place = wire_to_go(patch, path, wire)?;
    let canvas = place.canvas;
    take_out(patch, place, steps);
    Ok(Rewired {
        canvas,
        wires: wires - 1,
    })
}
