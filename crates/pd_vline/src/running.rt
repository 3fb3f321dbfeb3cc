//! A block of samples.

ghost use Rattle.std.specs.Prelude.{◌≡◌, ℕ, ◌+◌, ◌≤◌, ◌^◌, List, []};
ghost use Rattle.pd_clock.specs.declared.times.Rate.{Rate};
ghost use Rattle.pd_object.specs.declared.kinds.Kind.TheVariants.{Vline};
ghost use Rattle.pd_kind.specs.declared.states.Ramp.{Ramp};
ghost use Rattle.pd_kind.specs.States.{start_of};
ghost use Rattle.pd_vline.specs.Ramps.{AreSamples, IsStanding, at};
ghost use Rattle.pd_vline.specs.Taken.{CanRun, left_by_run, present, ran, state_at};

use crate::passing::{advance, fill};
use pd_clock::Time;
use pd_kind::{RampBook, State};
use pd_num::Sig;

/// So many units of time a block.
const BLOCK: u128 = 64_000_000_000;

fn run_book(book: &mut RampBook, start: Time, out: &mut [Sig; 64])
    requires { start ≤ 2 ^ 101 }
    ensures book { book.new ≡ ran start book.old }
    ensures samples { AreSamples out.new (present book.old) start }
{
    let end = start.units() + BLOCK;
    let place = fill(book.ramps(), start, out);
    let place = advance(place, book.ramps().ramps.as_slice(), end);
    book.leave(place.base, place.count, Time::of_units(end));
}

/// A `vline~` runs.
fn run_state(state: &mut State, start: Time, out: &mut [Sig; 64])
    requires early { start ≤ 2 ^ 101 }
    requires vline { CanRun start state.old }
    ensures state { state.new ≡ left_by_run start state.old }
    ensures samples { AreSamples out.new (state_at state.old) start }
{
    if let State::Vline(book) = state {
        run_book(book, start, out);
    }
}

/// The samples of the block that starts at a time, which is no earlier than the end of the last block that the box ran; and what the
/// box keeps after it. It takes no memory.
pub fn run(state: &mut State, start: Time, out: &mut [Sig; 64])
    requires early { start ≤ 2 ^ 101 }
    requires vline { CanRun start state.old }
    ensures state { state.new ≡ left_by_run start state.old }
    ensures samples { AreSamples out.new (state_at state.old) start }
    ensures stands { (l : List Ramp) → IsStanding state.old l → IsStanding state.new l × AreSamples out.new (at l) start }
{
    run_state(state, start, out);
}

/// A new `vline~` stands for no ramps.
pub fn fresh_stands()
    ensures { (rate : Rate) → IsStanding (start_of Vline rate) [] }
{}
