//! What a signal object gives for a block that needs nothing of another box.

ghost use Rattle.std.specs.Prelude.{◌≡◌, length};
ghost use Rattle.pd_object.specs.Ports.{signal_ports};
ghost use Rattle.pd_signal.specs.Boxes.{HasBlocks, IsSized};
ghost use Rattle.pd_signal.specs.Rows.{signal_row, run_of};

use crate::keepers::{
    run_catch, run_delwrite, run_hip, run_line, run_lop, run_samphold, run_send, run_snapshot,
};
use crate::operations::{run_clip, run_function, run_operation, run_sig};
use pd_kind::{Kind, Signal, State};
use pd_num::Sig;

fn run_signal(signal: &Signal, state: &mut State, ins: &[[Sig; 64]], outs: &mut [[Sig; 64]])
    requires inlets { length ins.now ≡ (signal_ports signal.now).signal_inlets }
    requires outlets { length outs.old ≡ (signal_ports signal.now).signal_outlets }
    requires sized { IsSized state.old }
    ensures ran { record { state = state.new; outs = outs.new } ≡ signal_row signal.now state.old ins.now outs.old }
    ensures sized { IsSized state.new }
{
    match signal {
        Signal::Sig { .. } => run_sig(state, outs),
        Signal::Operation {
            operation,
            right,
            ..
        } => run_operation(*operation, *right, state, ins, outs),
        Signal::Function { function } => run_function(*function, state, ins, outs),
        Signal::Clip { .. } => run_clip(state, ins, outs),
        Signal::Line => run_line(state, outs),
        Signal::Samphold => run_samphold(state, ins, outs),
        Signal::Lop { .. } => run_lop(state, ins, outs),
        Signal::Hip { .. } => run_hip(state, ins, outs),
        Signal::Delwrite { .. } => run_delwrite(state, ins),
        Signal::Send { .. } => run_send(state, ins),
        Signal::Catch { .. } => run_catch(state, outs),
        Signal::Snapshot => run_snapshot(state, ins),
        Signal::Delread { .. }
        | Signal::Receive { .. }
        | Signal::Throw { .. }
        | Signal::Tabread { .. }
        | Signal::Dac { .. }
        | Signal::Inlet
        | Signal::Outlet => {}
    }
}

/// Runs a box for a block: what it keeps, and the blocks of its signal outlets, from those of its signal inlets.
///
/// A box of another kind stays as it is, and so do its outlets: the oscillators, `vline~`, the objects that look at
/// another box's values, and those of the canvas's ports.
#[tactic(auto, unfolding(crate::specs::Rows::run_of))]
pub fn run(kind: &Kind, state: &mut State, ins: &[[Sig; 64]], outs: &mut [[Sig; 64]])
    requires blocks { HasBlocks kind.now ins.now outs.old }
    requires sized { IsSized state.old }
    ensures ran { record { state = state.new; outs = outs.new } ≡ run_of kind.now state.old ins.now outs.old }
    ensures sized { IsSized state.new }
{
    if let Kind::Signal(signal) = kind {
        run_signal(signal, state, ins, outs);
    }
}
