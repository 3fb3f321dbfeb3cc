//! Numbers that the inlets of signal objects hold or store.

ghost use Rattle.std.specs.Prelude.{◌≡◌, ◌<◌, ◌+◌, ◌*◌, ◌^◌, length, drop, slice_get};
ghost use Rattle.pd_clock.specs.Rates.{samples};
ghost use Rattle.pd_kind.specs.Fit.{IsLike};
ghost use Rattle.pd_held.specs.Stores.{phase_of as phase_of_number, stored_at, held_at, atom_stored, list_stored, with_time};

use crate::slopes::slope_to;
use pd_atom::Atom;
use pd_clock::Rate;
use pd_kind::{Items, State};
use pd_num::Num;

/// The phase that a number sets.
fn phase_of(number: Num, rate: Rate) -> u64
    ensures value { result ≡ phase_of_number number rate }
    ensures below { result < samples rate * 10 ^ 9 }
{
    let part = (number.micros() * 1000).rem_euclid(1_000_000_000) as u64;
    part * u64::from(rate.hz())
}

/// Holds a number at an inlet of a `dac~`, where it has that inlet.
fn hold_at(held: &mut Items<Num>, inlet: usize, number: Num)
    ensures held { held.new ≡ held_at held.old inlet number }
    ensures count { length held.new ≡ length held.old }
{
    if inlet < held.as_slice().len() {
        held.set(inlet, number);
    }
}

/// A number came to the first inlet.
fn store_first(state: &mut State, number: Num)
    ensures stored { state.new ≡ stored_at state.old 0 number }
    ensures kept { IsLike state.old state.new }
{
    match state {
        State::Line(slope) => slope_to(slope, number),
        State::Sig { value } => *value = number,
        State::Phasor { held, .. } => *held = number,
        State::Osc { held, .. } => *held = number,
        State::SignalOperation { left, .. } => *left = number,
        State::SignalFunction { held } => *held = number,
        State::SignalClip { held, .. } => *held = number,
        State::Samphold { held, .. } => *held = number,
        State::Lop { held, .. } => *held = number,
        State::Hip { held, .. } => *held = number,
        State::Delwrite { held, .. } => *held = number,
        State::SignalSend { held, .. } => *held = number,
        State::Throw { held } => *held = number,
        State::Delread { time, .. } => *time = number,
        State::Snapshot { held, .. } => *held = number,
        State::SignalTabread { held } => *held = number,
        State::SignalInlet { held } => *held = number,
        State::SignalOutlet { held } => *held = number,
        State::Dac { held } => hold_at(held, 0, number),
        _ => {}
    }
}

/// A number came to the second inlet.
fn store_second(state: &mut State, number: Num)
    ensures stored { state.new ≡ stored_at state.old 1 number }
    ensures kept { IsLike state.old state.new }
{
    match state {
        State::Phasor { phase, rate, .. } => {
            let rate = *rate;
            *phase = phase_of(number, rate);
        }
        State::Osc { phase, rate, .. } => {
            let rate = *rate;
            *phase = phase_of(number, rate);
        }
        State::SignalOperation { right, .. } => *right = number,
        State::SignalClip { low, .. } => *low = number,
        State::Line(slope) => slope.time = number,
        State::Samphold { control, .. } => *control = number,
        State::Lop { hertz, .. } => *hertz = number,
        State::Hip { hertz, .. } => *hertz = number,
        State::Dac { held } => hold_at(held, 1, number),
        _ => {}
    }
}

/// A number came to the third inlet or a later one.
fn store_later(state: &mut State, inlet: usize, number: Num)
    requires { 1 < inlet }
    ensures stored { state.new ≡ stored_at state.old inlet number }
    ensures kept { IsLike state.old state.new }
{
    match state {
        State::SignalClip { high, .. } if inlet == 2 => *high = number,
        State::Dac { held } => hold_at(held, inlet, number),
        _ => {}
    }
}

/// A number came to an inlet, which holds or stores it.
pub(crate) fn store(state: &mut State, inlet: usize, number: Num)
    ensures stored { state.new ≡ stored_at state.old inlet number }
    ensures kept { IsLike state.old state.new }
{
    match inlet {
        0 => store_first(state, number),
        1 => store_second(state, number),
        _ => store_later(state, inlet, number),
    }
}

/// One atom of a spread list.
fn store_atom(state: &mut State, inlet: usize, atom: Atom)
    ensures stored { state.new ≡ atom_stored state.old inlet atom }
    ensures kept { IsLike state.old state.new }
{
    if let Atom::Number(number) = atom {
        store(state, inlet, number);
    }
}

/// The atoms of a spread list behind the first.
#[tactic(auto, using(crate::proofs::LikeLemmas::like_chain))]
pub(crate) fn store_list(state: &mut State, atoms: &[Atom])
    ensures stored { state.new ≡ list_stored state.old 1 (drop 1 atoms.now) }
    ensures kept { IsLike state.old state.new }
{
    for i in 1..atoms.len() {
        store_atom(state, i, atoms[i]);
    }
}
