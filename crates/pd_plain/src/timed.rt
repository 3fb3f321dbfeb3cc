//! `metro`, `delay` and `until`.

ghost use Rattle.std.specs.Prelude.{◌≡◌, ℕ, ◌<◌, ◌≤◌, length, [], ◌∷◌, pos, Option};
ghost use Rattle.std.specs.Int.{int_max};
ghost use Rattle.pd_kind.specs.Said.{said_by, bang_to};
ghost use Rattle.pd_kind.specs.declared.states.State.TheVariants.{Until, Metro, Delay};
ghost use Rattle.pd_plain.specs.Values.{leaves};
ghost use Rattle.pd_plain.specs.Timed.{says_with, until_hot, until_cold, until_row, until_resumed, metro_period, delay_time, metro_started, metro_stopped, metro_other, metro_hot, metro_cold, metro_row, delay_set, delay_other, delay_hot, delay_cold, delay_row};

use crate::numbers::units_of;
use crate::values::is_called;
use pd_atom::{Atom, Sym, Symbols};
use pd_kind::{Deed, Row, Sends, Sort, Target, first_sort, sort_of, stored, told};
use pd_num::Num;

/// Says a deed, and nothing else.
fn say_deed(deed: Deed, out: &mut Sends)
    ensures { said_by out.new ≡ says_with deed [] }
{
    out.clear();
    out.deed = deed;
}

/// Says a bang to outlet 0, with a deed.
fn bang_with(deed: Deed, out: &mut Sends)
    ensures { said_by out.new ≡ says_with deed (bang_to 0 ∷ []) }
{
    out.clear();
    out.send(Target::Outlet(0), Sym::bang(), &[]);
    out.deed = deed;
}

/// The greater of two numbers.
fn greater(one: Num, other: Num) -> Num
    ensures { result ≡ int_max one other }
{
    if other.micros() < one.micros() {
        one
    } else {
        other
    }
}

fn until_left(
    is_running: &mut bool,
    count: &mut Option<u32>,
    selector: Sym,
    sort: &Sort,
    out: &mut Sends,
)
    ensures { leaves (Until is_running.new count.new) (said_by out.new) ≡ until_hot is_running.old count.old selector sort.now }
{
    match sort {
        Sort::Bang => {
            *is_running = true;
            *count = None;
            say_deed(Deed::Again, out);
        }
        Sort::Float(number) => {
            *is_running = true;
            *count = Some(units_of(*number));
            say_deed(Deed::Again, out);
        }
        _ => out.refuse(Row::Until, told(sort, selector)),
    }
}

/// `until`
pub(crate) fn hear_until(
    is_running: &mut bool,
    count: &mut Option<u32>,
    inlet: u32,
    selector: Sym,
    atoms: &[Atom],
    out: &mut Sends,
)
    ensures { leaves (Until is_running.new count.new) (said_by out.new) ≡ until_row is_running.old count.old inlet selector atoms.now }
{
    let sort = sort_of(selector, atoms);
    if inlet == 0 {
        until_left(is_running, count, selector, &first_sort(&sort, atoms), out);
    } else {
        until_right(is_running, selector, &sort, out);
    }
}

fn until_right(is_running: &mut bool, selector: Sym, sort: &Sort, out: &mut Sends)
    ensures { (count : Option ℕ) → leaves (Until is_running.new count) (said_by out.new) ≡ until_cold is_running.old count selector sort.now }
{
    match sort {
        Sort::Bang => {
            *is_running = false;
            out.say_nothing();
        }
        _ => out.refuse(Row::Until, selector),
    }
}

/// `until` is resumed.
pub(crate) fn resume_until(is_running: bool, count: &mut Option<u32>, out: &mut Sends)
    ensures { leaves (Until is_running count.new) (said_by out.new) ≡ until_resumed is_running count.old }
{
    if !is_running {
        out.say_nothing();
        return;
    }
    match *count {
        None => bang_with(Deed::Again, out),
        Some(0) => out.say_nothing(),
        Some(left) => {
            *count = Some(left - 1);
            bang_with(Deed::Again, out);
        }
    }
}

/// The period that a `metro` sets its clock by: at least a millisecond.
pub(crate) fn period_of(period: Num) -> Num
    ensures { result ≡ metro_period period }
{
    greater(period, one())
}

/// One.
fn one() -> Num
    ensures { result ≡ pos 1000000 }
{
    match Num::of_micros(1_000_000) {
        Some(one) => one,
        None => unreachable!(),
    }
}

/// None.
fn zero() -> Num
    ensures { result ≡ pos 0 }
{
    match Num::of_micros(0) {
        Some(zero) => zero,
        None => unreachable!(),
    }
}

/// A `metro` sets its clock and sends a bang.
pub(crate) fn start_metro(period: Num, out: &mut Sends)
    ensures { leaves (Metro period) (said_by out.new) ≡ metro_started period }
{
    bang_with(Deed::SetClock(period_of(period)), out);
}

fn other_metro(symbols: &Symbols, period: Num, selector: Sym, out: &mut Sends)
    requires { selector < length symbols.now }
    ensures { leaves (Metro period) (said_by out.new) ≡ metro_other symbols.now period selector }
{
    if is_called(symbols, selector, b"stop") {
        say_deed(Deed::ClearClock, out);
    } else {
        out.refuse(Row::Metro, selector);
    }
}

fn metro_left(symbols: &Symbols, period: Num, selector: Sym, sort: &Sort, out: &mut Sends)
    requires { selector < length symbols.now }
    ensures { leaves (Metro period) (said_by out.new) ≡ metro_hot symbols.now period selector sort.now }
{
    match sort {
        Sort::Bang => start_metro(period, out),
        Sort::Float(number) if number.micros() == 0 => say_deed(Deed::ClearClock, out),
        Sort::Float(_) => start_metro(period, out),
        Sort::Other => other_metro(symbols, period, selector, out),
        _ => out.refuse(Row::Metro, told(sort, selector)),
    }
}

fn metro_right(period: &mut Num, selector: Sym, sort: &Sort, out: &mut Sends)
    ensures { leaves (Metro period.new) (said_by out.new) ≡ metro_cold period.old selector sort.now }
{
    match sort {
        Sort::Float(number) => {
            *period = *number;
            out.say_nothing();
        }
        _ => out.refuse(Row::Metro, selector),
    }
}

/// `metro`
pub(crate) fn hear_metro(
    symbols: &Symbols,
    period: &mut Num,
    inlet: u32,
    selector: Sym,
    atoms: &[Atom],
    out: &mut Sends,
)
    requires { selector < length symbols.now }
    ensures { leaves (Metro period.new) (said_by out.new) ≡ metro_row symbols.now period.old inlet selector atoms.now }
{
    let sort = sort_of(selector, atoms);
    if inlet == 0 {
        let kept = stored(&sort, atoms, 1, *period);
        *period = kept;
        metro_left(symbols, kept, selector, &first_sort(&sort, atoms), out);
    } else {
        metro_right(period, selector, &sort, out);
    }
}

/// A `delay` sets its clock.
fn set_delay(time: Num, out: &mut Sends)
    ensures { leaves (Delay time) (said_by out.new) ≡ delay_set time }
{
    say_deed(Deed::SetClock(greater(time, zero())), out);
}

fn other_delay(symbols: &Symbols, time: Num, selector: Sym, out: &mut Sends)
    requires { selector < length symbols.now }
    ensures { leaves (Delay time) (said_by out.new) ≡ delay_other symbols.now time selector }
{
    if is_called(symbols, selector, b"stop") {
        say_deed(Deed::ClearClock, out);
    } else {
        out.refuse(Row::Delay, selector);
    }
}

fn delay_left(symbols: &Symbols, time: &mut Num, selector: Sym, sort: &Sort, out: &mut Sends)
    requires { selector < length symbols.now }
    ensures { leaves (Delay time.new) (said_by out.new) ≡ delay_hot symbols.now time.old selector sort.now }
{
    match sort {
        Sort::Bang => set_delay(*time, out),
        Sort::Float(number) => {
            *time = *number;
            set_delay(*number, out);
        }
        Sort::Other => other_delay(symbols, *time, selector, out),
        _ => out.refuse(Row::Delay, told(sort, selector)),
    }
}

fn delay_right(time: &mut Num, selector: Sym, sort: &Sort, out: &mut Sends)
    ensures { leaves (Delay time.new) (said_by out.new) ≡ delay_cold time.old selector sort.now }
{
    match sort {
        Sort::Float(number) => {
            *time = *number;
            out.say_nothing();
        }
        _ => out.refuse(Row::Delay, selector),
    }
}

/// `delay`
pub(crate) fn hear_delay(
    symbols: &Symbols,
    time: &mut Num,
    inlet: u32,
    selector: Sym,
    atoms: &[Atom],
    out: &mut Sends,
)
    requires { selector < length symbols.now }
    ensures { leaves (Delay time.new) (said_by out.new) ≡ delay_row symbols.now time.old inlet selector atoms.now }
{
    let sort = sort_of(selector, atoms);
    if inlet == 0 {
        let kept = stored(&sort, atoms, 1, *time);
        *time = kept;
        delay_left(symbols, time, selector, &first_sort(&sort, atoms), out);
    } else {
        delay_right(time, selector, &sort, out);
    }
}
