//! The value of a ramp at a time.

ghost use Rattle.std.specs.Prelude.{◌≡◌, ◌<◌, ◌≤◌, ◌+◌, ◌-◌, ◌*◌, pos, ◌+ℤ◌, ◌-ℤ◌, ◌*ℤ◌, int_div, unsigned_abs, IfSome};
ghost use Rattle.pd_num.specs.Scale.{IsInRange, billionths};
ghost use Rattle.pd_kind.specs.Books.{IsShort};
ghost use Rattle.pd_vline.specs.Ramps.{value_on as value_of_ramp, base_at as value_of_base};
ghost use Rattle.pd_vline.specs.Values.{IsPart};

use pd_clock::Time;
use pd_kind::Ramp;
use pd_num::Sig;

/// The part of a way that is done, toward zero.
fn part_of(way: i128, done: u128, length: u128) -> i128
    requires way { unsigned_abs way ≤ 2000000000000000000 }
    requires order { done < length }
    requires length { length ≤ 8294400000000000000 }
    ensures { result ≡ int_div (way *ℤ pos done) (pos length) }
{
    way * done as i128 / length as i128
}

/// The signal value of a count in their range.
fn signal(count: i128) -> Sig
    requires { IsInRange billionths count }
    ensures { result ≡ count }
{
    match Sig::of_nanos(count as i64) {
        Some(value) => value,
        None => unreachable!(),
    }
}

/// The count of a signal value.
fn wide(value: Sig) -> i128
    ensures same { result ≡ value }
    ensures range { IsInRange billionths result }
{
    value.nanos() as i128
}

fn way_between(from: i128, to: i128) -> i128
    requires from { IsInRange billionths from }
    requires to { IsInRange billionths to }
    ensures way { result ≡ to -ℤ from }
    ensures small { unsigned_abs result ≤ 2000000000000000000 }
{
    to - from
}

/// A part of the way from a count to another behind the first.
fn on_way(from: i128, to: i128, part: i128) -> i128
    requires from { IsInRange billionths from }
    requires to { IsInRange billionths to }
    requires part { IsPart (to -ℤ from) part }
    ensures sum { result ≡ from +ℤ part }
    ensures range { IsInRange billionths result }
{
    from + part
}

/// The value between two on the way from the first to the second.
fn between(from: Sig, target: Sig, done: u128, length: u128) -> Sig
    requires order { done < length }
    requires length { length ≤ 8294400000000000000 }
    ensures { result ≡ from +ℤ int_div ((target -ℤ from) *ℤ pos done) (pos length) }
{
    let start = wide(from);
    let end = wide(target);
    let part = part_of(way_between(start, end), done, length);
    signal(on_way(start, end, part))
}

/// The value at a time of a ramp that starts at a value.
pub(crate) fn value_on(ramp: &Ramp, from: Sig, time: Time) -> Sig
    requires { IsShort ramp.now }
    ensures { result ≡ value_of_ramp ramp.now from time }
{
    let now = time.units();
    let start = ramp.start.units();
    let end = ramp.end.units();
    if end <= now {
        ramp.target
    } else if now <= start {
        from
    } else {
        between(from, ramp.target, now - start, end - start)
    }
}

/// The value of a base at a time.
pub(crate) fn base_at(base: &Option<(Ramp, Sig)>, time: Time) -> Sig
    requires { IfSome base.now (λ b. IsShort b.0) }
    ensures { result ≡ value_of_base base.now time }
{
    match base {
        Some((ramp, from)) => value_on(ramp, *from, time),
        None => Sig::default(),
    }
}
