//! The stored times, and the ramps that messages make.

ghost use Rattle.std.specs.Prelude.{◌≡◌, ◌+◌, ◌*◌, ◌≤◌, ◌^◌, pos, ◌≤ℤ◌, length, slice_get, nat_lt};
ghost use Rattle.std.specs.List.{prefix_len};
ghost use Rattle.std.specs.Option.{option_copied};
ghost use Rattle.pd_kind.specs.Books.{IsBook, IsShort, IsTime, with_times};
ghost use Rattle.pd_vline.specs.Rows.{limited as limited_to_day, units as units_of, float_ramp as ramp_of_float, stop_ramp as ramp_of_stop, staying as staying_before, time_or, spread as spread_over, stored_at};

use pd_atom::Atom;
use pd_clock::{Rate, Time};
use pd_kind::{Ramp, RampBook, Ramps, Sort};
use pd_num::{Num, Sig};

/// The greatest time in millionths of a millisecond.
const DAY: i64 = 86_400_000_000_000;

/// A number of milliseconds, limited to a day.
fn limited(time: Num) -> Num
    ensures value { result ≡ limited_to_day time }
    ensures range { IsTime result }
{
    match Num::of_micros(time.micros().clamp(0, DAY)) {
        Some(time) => time,
        None => unreachable!(),
    }
}

/// None.
pub(crate) fn zero() -> Num
    ensures value { result ≡ pos 0 }
    ensures range { IsTime result }
{
    Num::default()
}

/// A number of milliseconds in units of time.
fn units(rate: Rate, time: Num) -> u128
    requires { IsTime time }
    ensures value { result ≡ units_of rate time }
    ensures day { result ≤ 8294400000000000000 }
{
    time.micros() as u128 * u128::from(rate.hz())
}

/// The ramp of a number.
pub(crate) fn float_ramp(ramps: &Ramps, now: Time, number: Num) -> Ramp
    requires book { IsBook ramps.now }
    requires early { now ≤ 2 ^ 101 }
    ensures ramp { result ≡ ramp_of_float ramps.now now number }
    ensures short { IsShort result }
{
    let start = now.units() + units(ramps.rate, ramps.delay);
    let end = start + units(ramps.rate, ramps.time);
    Ramp {
        start: Time::of_units(start),
        end: Time::of_units(end),
        target: Sig::of_num(number),
    }
}

/// The ramp that holds a value.
pub(crate) fn stop_ramp(now: Time, value: Sig) -> Ramp
    ensures ramp { result ≡ ramp_of_stop now value }
    ensures short { IsShort result }
{
    Ramp {
        start: now,
        end: now,
        target: value,
    }
}

/// How many of the ramps start before a new one.
pub(crate) fn staying(new: &Ramp, ramps: &[Ramp]) -> usize
    ensures { result ≡ staying_before new.now ramps.now }
{
    let start = new.start.units();
    let mut count = 0;
    for ramp in ramps {
        if start <= ramp.start.units() {
            break;
        }
        count += 1;
    }
    count
}

/// The time that an atom of a spread list stores.
fn time_at(atoms: &[Atom], i: usize, time: Num) -> Num
    requires { IsTime time }
    ensures value { result ≡ time_or (slice_get atoms.now i) time }
    ensures range { IsTime result }
{
    match atoms.get(i) {
        Some(Atom::Number(number)) => limited(*number),
        _ => time,
    }
}

/// The second and third atoms of a list are stored.
pub(crate) fn spread(sort: &Sort, book: &mut RampBook, atoms: &[Atom])
    ensures { book.new ≡ spread_over sort.now book.old atoms.now }
{
    if let Sort::List = sort {
        let ramps = book.ramps();
        let time = time_at(atoms, 1, ramps.time);
        let delay = time_at(atoms, 2, ramps.delay);
        book.store(time, delay);
    }
}

/// Stores a number at inlet 1 or 2.
pub(crate) fn store(book: &mut RampBook, inlet: u32, number: Num)
    ensures { book.new ≡ stored_at book.old inlet number }
{
    let ramps = book.ramps();
    let time = ramps.time;
    let delay = ramps.delay;
    match inlet {
        1 => book.store(limited(number), delay),
        2 => book.store(time, limited(number)),
        _ => {}
    }
}
