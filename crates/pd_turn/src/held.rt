//! The numbers that signal inlets hold.

ghost use Rattle.std.specs.Prelude.{◌≡◌, ◌<◌, slice_index_or, pos};
ghost use Rattle.pd_turn.specs.Held.{held_of, held_first as first_held, held_later as later_held};

use pd_kind::State;
use pd_num::Num;

/// The number that a signal inlet holds: the last that came to it.
pub fn held_in(state: &State, inlet: u32) -> Num
    ensures { result ≡ held_of state.now inlet }
{
    if inlet == 0 {
        held_first(state)
    } else {
        held_later(state, inlet)
    }
}

fn held_first(state: &State) -> Num
    ensures { result ≡ first_held state.now }
{
    match state {
        State::Phasor { held, .. } => *held,
        State::Osc { held, .. } => *held,
        State::SignalOperation { left, .. } => *left,
        State::SignalFunction { held } => *held,
        State::SignalClip { held, .. } => *held,
        State::Samphold { held, .. } => *held,
        State::Lop { held, .. } => *held,
        State::Hip { held, .. } => *held,
        State::Delwrite { held, .. } => *held,
        State::SignalSend { held, .. } => *held,
        State::Throw { held } => *held,
        State::Snapshot { held, .. } => *held,
        State::SignalTabread { held } => *held,
        State::Dac { held } => number_at(held.as_slice(), 0),
        State::SignalInlet { held } => *held,
        State::SignalOutlet { held } => *held,
        _ => Num::default(),
    }
}

fn held_later(state: &State, inlet: u32) -> Num
    ensures { result ≡ later_held state.now inlet }
{
    match state {
        State::SignalOperation { right, .. } => *right,
        State::Samphold { control, .. } => *control,
        State::Dac { held } => number_at(held.as_slice(), inlet),
        _ => Num::default(),
    }
}

fn number_at(numbers: &[Num], i: u32) -> Num
    ensures { result ≡ slice_index_or numbers.now i (pos 0) }
{
    match numbers.get(i as usize) {
        Some(number) => *number,
        None => Num::default(),
    }
}
