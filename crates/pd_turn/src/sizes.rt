//! The conditions under which a box can run. They are looked at here, since no clause says yet that what a box keeps is of its kind.

ghost use Rattle.std.specs.Prelude.{◌≡◌, ◌≤◌, ◌^◌, true, IfSome, List, ℤ, length};
ghost use Rattle.pd_signal.specs.Boxes.{IsSized};
ghost use Rattle.pd_signal.specs.SharedRows.{Fits, SignalFits};
ghost use Rattle.pd_vline.specs.Taken.{CanRun};
ghost use Rattle.pd_turn.specs.Rows.{is_ring as is_whole_ring, is_sized as sized, may_run as runs, can_run as ran_before, is_fitting as fits, is_fitting_signal as fits_signal};
ghost use Rattle.pd_turn.specs.Sizes.{few, few_of, few_of_tone, few_of_signal, ArePorts, AreTonePorts, AreSignalPorts};

use pd_clock::Time;
use pd_kind::{Kind, Line, Signal, State, Tone};

/// How many signal inlets and signal outlets a box has: at most two and one.
#[derive(Clone, Copy, Debug)]
pub struct Few {
    pub inlets: usize,
    pub outlets: usize,
}

fn counted(inlets: usize, outlets: usize) -> Option<Few>
    ensures { result ≡ few inlets outlets }
{
    Some(Few { inlets, outlets })
}

/// The signal ports of a box that runs of its own or beside another; `None` for others.
pub fn few_ports(kind: &Kind) -> Option<Few>
    ensures few { result ≡ few_of kind.now }
    ensures ports { IfSome result (λ f. ArePorts kind.now f.inlets f.outlets) }
{
    match kind {
        Kind::Tone(tone) => tone_ports(tone),
        Kind::Signal(signal) => signal_few(signal),
        Kind::Vline => counted(0, 1),
        _ => None,
    }
}

fn tone_ports(tone: &Tone) -> Option<Few>
    ensures few { result ≡ few_of_tone tone.now }
    ensures ports { IfSome result (λ f. AreTonePorts tone.now f.inlets f.outlets) }
{
    match tone {
        Tone::Phasor { .. } | Tone::Osc { .. } => counted(1, 1),
        Tone::Noise => counted(0, 1),
    }
}

fn signal_few(signal: &Signal) -> Option<Few>
    ensures few { result ≡ few_of_signal signal.now }
    ensures ports { IfSome result (λ f. AreSignalPorts signal.now f.inlets f.outlets) }
{
    match signal {
        Signal::Sig { .. } => counted(0, 1),
        Signal::Operation { right: None, .. } => counted(2, 1),
        Signal::Operation { right: Some(_), .. } => counted(1, 1),
        Signal::Function { .. } => counted(1, 1),
        Signal::Clip { .. } => counted(1, 1),
        Signal::Line => counted(0, 1),
        Signal::Samphold => counted(2, 1),
        Signal::Lop { .. } => counted(1, 1),
        Signal::Hip { .. } => counted(1, 1),
        Signal::Delwrite { .. } => counted(1, 0),
        Signal::Delread { .. } => counted(0, 1),
        Signal::Send { .. } => counted(1, 0),
        Signal::Receive { .. } => counted(0, 1),
        Signal::Throw { .. } => counted(1, 0),
        Signal::Catch { .. } => counted(0, 1),
        Signal::Snapshot => counted(1, 0),
        Signal::Tabread { .. } => counted(1, 1),
        Signal::Dac { .. } => None,
        Signal::Inlet => None,
        Signal::Outlet => None,
    }
}

/// Whether what a box keeps has the sizes that it was made with.
pub(crate) fn is_sized(state: &State) -> bool
    ensures is { result ≡ sized state.now }
    ensures sized { result ≡ true → IsSized state.now }
{
    match state {
        State::Delwrite { values, next, .. } => is_ring(values.as_slice().len(), *next),
        State::SignalSend { block, .. } => block.as_slice().len() == 64,
        State::Catch { sum } => sum.as_slice().len() == 64,
        _ => true,
    }
}

fn is_ring(count: usize, next: u32) -> bool
    ensures { result ≡ is_whole_ring count next }
{
    64 <= count && count <= 4_294_967_296 && (next as usize) < count
}

/// Whether a state is that of a `vline~` that can run from a time on.
pub(crate) fn may_run(state: &State, start: Time) -> bool
    ensures is { result ≡ runs start state.now }
    ensures early { result ≡ true → start ≤ 2 ^ 101 }
    ensures can { result ≡ true → CanRun start state.now }
{
    start.units() <= 1 << 101 && can_run(state, start)
}

/// Whether a `vline~` has run no block beyond a time.
fn can_run(state: &State, start: Time) -> bool
    ensures is { result ≡ ran_before start state.now }
    ensures can { result ≡ true → CanRun start state.now }
{
    match state {
        State::Vline(book) => book.ramps().end.units() <= start.units(),
        _ => false,
    }
}

/// Whether another box's values are as many as a box of the kind looks for.
pub(crate) fn is_fitting(kind: &Kind, count: usize, line: Line) -> bool
    ensures is { result ≡ fits kind.now count line }
    ensures fit { (values : List ℤ) → length values ≡ count → result ≡ true → Fits kind.now values line }
{
    match kind {
        Kind::Signal(signal) => is_fitting_signal(signal, count, line),
        _ => false,
    }
}

fn is_fitting_signal(signal: &Signal, count: usize, line: Line) -> bool
    ensures is { result ≡ fits_signal signal.now count line }
    ensures fit { (values : List ℤ) → length values ≡ count → result ≡ true → SignalFits signal.now values line }
{
    match signal {
        Signal::Receive { .. } => count == 64,
        Signal::Throw { .. } => count == 64,
        Signal::Delread { .. } => 64 <= count && (line.next as usize) < count,
        _ => false,
    }
}
