//! `receive~`, `throw~`, `delread~` and `tabread~`: objects that look at another box's values.

ghost use Rattle.std.specs.Prelude.{◌≡◌, ◌<◌, ℤ, List, length};
ghost use Rattle.pd_num.specs.Scale.{billionths, sum_of};
ghost use Rattle.pd_signal.specs.Samples.{zip_with};
ghost use Rattle.pd_object.specs.Ports.{signal_ports};
ghost use Rattle.pd_kind.specs.States.{silent_block};
ghost use Rattle.pd_signal.specs.Boxes.{HasBlocks};
ghost use Rattle.pd_signal.specs.Delays.{delayed};
ghost use Rattle.pd_signal.specs.SharedRows.{IsBus, IsLine, SignalFits, Fits, or_silence, heard_from, receive_row, throw_row, delread_row, shared_row, shared_run_of, tabread_row, table_row, table_run_of};

use crate::buses::{add_to, no_signal};
use crate::delays::read_line;
use crate::maps::fill;
use crate::tables::look_up;
use pd_clock::Rate;
use pd_kind::{Kind, Line, Signal, State};
use pd_num::{Num, Sig};

/// Silence.
#[tactic(auto, unfolding(pd_kind::specs::States::silent_block))]
fn silence(out: &mut [Sig; 64])
    ensures { out.new ≡ silent_block }
{
    fill(no_signal(), out);
}

/// A bus's block, silence without a bus.
fn copy_bus(shared: &[Sig], out: &mut [Sig; 64])
    requires { IsBus shared.now }
    ensures { out.new ≡ or_silence shared.now }
{
    if shared.is_empty() {
        silence(out);
    } else {
        out.copy_from_slice(shared);
    }
}

/// `receive~`
fn run_receive(state: &State, outs: &mut [[Sig; 64]], shared: &[Sig])
    requires outlets { 0 < length outs.old }
    requires bus { IsBus shared.now }
    ensures { record { state = state.now; outs = outs.new } ≡ receive_row state.now outs.old shared.now }
{
    if let State::Bare = state {
        copy_bus(shared, &mut outs[0]);
    }
}

/// Adds a block to a bus, where there is one.
fn throw(shared: &mut [Sig], x: &[Sig; 64])
    requires { IsBus shared.old }
    ensures { shared.new ≡ zip_with (sum_of billionths) shared.old x.now }
{
    if !shared.is_empty() {
        add_to(shared, x);
    }
}

/// `throw~`
fn run_throw(state: &State, ins: &[[Sig; 64]], shared: &mut [Sig])
    requires inlets { 0 < length ins.now }
    requires bus { IsBus shared.old }
    ensures { (outs : List (List ℤ)) → record { ran = record { state = state.now; outs = outs }; shared = shared.new } ≡ throw_row state.now ins.now outs shared.old }
{
    if let State::Throw { .. } = state {
        throw(shared, &ins[0]);
    }
}

/// What a reader gives, silence without a line.
fn hear_line(shared: &[Sig], line: Line, rate: Rate, time: Num, out: &mut [Sig; 64])
    requires { IsLine shared.now line }
    ensures { out.new ≡ heard_from shared.now (delayed shared.now line rate time) }
{
    if shared.is_empty() {
        silence(out);
    } else {
        read_line(shared, line, rate, time, out);
    }
}

/// `delread~`
fn run_delread(state: &State, outs: &mut [[Sig; 64]], shared: &[Sig], line: Line)
    requires outlets { 0 < length outs.old }
    requires fits { IsLine shared.now line }
    ensures { record { state = state.now; outs = outs.new } ≡ delread_row state.now outs.old shared.now line }
{
    if let State::Delread { time, rate } = state {
        hear_line(shared, line, *rate, *time, &mut outs[0]);
    }
}

fn run_shared_signal(
    signal: &Signal,
    state: &State,
    ins: &[[Sig; 64]],
    shared: &mut [Sig],
    line: Line,
    outs: &mut [[Sig; 64]],
)
    requires inlets { length ins.now ≡ (signal_ports signal.now).signal_inlets }
    requires outlets { length outs.old ≡ (signal_ports signal.now).signal_outlets }
    requires fits { SignalFits signal.now shared.old line }
    ensures { record { ran = record { state = state.now; outs = outs.new }; shared = shared.new } ≡ shared_row signal.now state.now ins.now outs.old shared.old line }
{
    match signal {
        Signal::Receive { .. } => run_receive(state, outs, shared),
        Signal::Throw { .. } => run_throw(state, ins, shared),
        Signal::Delread { .. } => run_delread(state, outs, shared, line),
        _ => {}
    }
}

/// Runs for a block a box that looks at another box's values: a `receive~` at the block of the first `send~` of its
/// name, a `throw~` at the sum of the `catch~`, to which it adds, and a `delread~` at the ring of the `delwrite~`,
/// with its place in it. Where there is no such box, `shared` is empty. A box of another kind stays as it is, and so
/// does all else.
#[tactic(auto, unfolding(crate::specs::SharedRows::shared_run_of))]
pub fn run_shared(
    kind: &Kind,
    state: &mut State,
    ins: &[[Sig; 64]],
    shared: &mut [Sig],
    line: Line,
    outs: &mut [[Sig; 64]],
)
    requires blocks { HasBlocks kind.now ins.now outs.old }
    requires fits { Fits kind.now shared.old line }
    ensures ran { record { ran = record { state = state.new; outs = outs.new }; shared = shared.new } ≡ shared_run_of kind.now state.old ins.now outs.old shared.old line }
    ensures kept { state.new ≡ state.old }
{
    if let Kind::Signal(signal) = kind {
        run_shared_signal(signal, state, ins, shared, line, outs);
    }
}

/// `tabread~`
fn run_tabread(state: &State, ins: &[[Sig; 64]], table: &[Num], outs: &mut [[Sig; 64]])
    requires inlets { 0 < length ins.now }
    requires outlets { 0 < length outs.old }
    ensures { record { state = state.now; outs = outs.new } ≡ tabread_row state.now ins.now outs.old table.now }
{
    if let State::SignalTabread { .. } = state {
        look_up(table, &ins[0], &mut outs[0]);
    }
}

/// Runs a `tabread~` for a block, over the first table of its name, which is empty where there is none. A box of
/// another kind stays as it is, and so do its outlets.
#[tactic(auto, unfolding(crate::specs::SharedRows::table_run_of))]
pub fn run_table(
    kind: &Kind,
    state: &mut State,
    ins: &[[Sig; 64]],
    table: &[Num],
    outs: &mut [[Sig; 64]],
)
    requires blocks { HasBlocks kind.now ins.now outs.old }
    ensures ran { record { state = state.new; outs = outs.new } ≡ table_run_of kind.now state.old ins.now outs.old table.now }
    ensures kept { state.new ≡ state.old }
{
    if let Kind::Signal(Signal::Tabread { .. }) = kind {
        run_tabread(state, ins, table, outs);
    }
}
