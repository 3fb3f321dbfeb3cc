//! `timer` and `random`.

ghost use Rattle.std.specs.Prelude.{◌≡◌, ◌<◌, ◌≤◌, ◌*◌, ◌-◌, ◌/◌, ◌^◌, length};
ghost use Rattle.pd_kind.specs.Said.{said_by};
ghost use Rattle.pd_kind.specs.declared.states.State.TheVariants.{Timer, Random};
ghost use Rattle.pd_plain.specs.Values.{leaves};
ghost use Rattle.pd_plain.specs.Timed.{elapsed as elapsed_time, timer_hot, timer_cold, timer_row, next_seed as seed_after, drawn as share_drawn, random_hot, random_cold, random_row};

use crate::numbers::{units_of, whole, whole_at_least_one};
use pd_atom::{Atom, Sym};
use pd_clock::{Rate, Time};
use pd_kind::{Row, Sends, Sort, first_sort, sort_of, stored, told};
use pd_num::Num;

/// The milliseconds from a time to a later one, saturated.
fn elapsed(rate: Rate, reset: Time, now: Time) -> Num
    ensures { result ≡ elapsed_time rate reset now }
{
    let units = now.units().saturating_sub(reset.units());
    let count = (units / u128::from(rate.hz())).min(1_000_000_000_000_000) as i64;
    match Num::of_micros(count) {
        Some(number) => number,
        None => unreachable!(),
    }
}

fn timer_left(reset: &mut Time, rate: Rate, now: Time, selector: Sym, sort: &Sort, out: &mut Sends)
    ensures { leaves (Timer reset.new rate) (said_by out.new) ≡ timer_hot reset.old rate now selector sort.now }
{
    match sort {
        Sort::Bang => {
            *reset = now;
            out.say_nothing();
        }
        _ => out.refuse(Row::Timer, told(sort, selector)),
    }
}

fn timer_right(reset: Time, rate: Rate, now: Time, selector: Sym, sort: &Sort, out: &mut Sends)
    ensures { leaves (Timer reset rate) (said_by out.new) ≡ timer_cold reset rate now selector sort.now }
{
    match sort {
        Sort::Bang => out.say_number(0, elapsed(rate, reset, now)),
        _ => out.refuse(Row::Timer, selector),
    }
}

/// `timer`
pub(crate) fn hear_timer(
    reset: &mut Time,
    rate: Rate,
    now: Time,
    inlet: u32,
    selector: Sym,
    atoms: &[Atom],
    out: &mut Sends,
)
    ensures { leaves (Timer reset.new rate) (said_by out.new) ≡ timer_row reset.old rate now inlet selector atoms.now }
{
    let sort = sort_of(selector, atoms);
    if inlet == 0 {
        timer_left(reset, rate, now, selector, &first_sort(&sort, atoms), out);
    } else {
        let since = *reset;
        timer_right(since, rate, now, selector, &sort, out);
    }
}

/// The number that is drawn after this one.
fn next_seed(seed: u32) -> u32
    ensures { result ≡ seed_after seed }
{
    let next = (u64::from(seed) * 1_664_525 + 1_013_904_223) % (1 << 32);
    next as u32
}

/// The share of the range that a drawn number stands for.
fn drawn(seed: u32, range: Num) -> Num
    ensures { result ≡ share_drawn seed range }
{
    let share = u64::from(units_of(range)) * u64::from(seed) / (1 << 32);
    whole(share as u32)
}

fn random_left(seed: &mut u32, range: Num, selector: Sym, sort: &Sort, out: &mut Sends)
    ensures { leaves (Random seed.new range) (said_by out.new) ≡ random_hot seed.old range selector sort.now }
{
    match sort {
        Sort::Bang => {
            let next = next_seed(*seed);
            *seed = next;
            out.say_number(0, drawn(next, range));
        }
        _ => out.refuse(Row::Random, told(sort, selector)),
    }
}

fn random_right(seed: u32, range: &mut Num, selector: Sym, sort: &Sort, out: &mut Sends)
    ensures { leaves (Random seed range.new) (said_by out.new) ≡ random_cold seed range.old selector sort.now }
{
    match sort {
        Sort::Float(number) => {
            *range = whole_at_least_one(*number);
            out.say_nothing();
        }
        _ => out.refuse(Row::Random, selector),
    }
}

/// `random`
pub(crate) fn hear_random(
    seed: &mut u32,
    range: &mut Num,
    inlet: u32,
    selector: Sym,
    atoms: &[Atom],
    out: &mut Sends,
)
    ensures { leaves (Random seed.new range.new) (said_by out.new) ≡ random_row seed.old range.old inlet selector atoms.now }
{
    let sort = sort_of(selector, atoms);
    if inlet == 0 {
        let kept = whole_at_least_one(stored(&sort, atoms, 1, *range));
        *range = kept;
        random_left(seed, kept, selector, &first_sort(&sort, atoms), out);
    } else {
        let seed = *seed;
        random_right(seed, range, selector, &sort, out);
    }
}
