//! What a `line~` does with what it hears.

ghost use Rattle.std.specs.Prelude.{◌≡◌, ◌<◌, ◌≤◌, ◌*◌, ◌/◌, ◌^◌, pos, ◌+ℤ◌, ◌-ℤ◌, ◌*ℤ◌, ◌<ℤ◌, int_div, unsigned_abs};
ghost use Rattle.pd_num.specs.Scale.{saturated, billionths};
ghost use Rattle.pd_held.specs.Slopes.{slope_value as value_of_slope, standing as standing_slope, slope_length as length_of_slope, slope_to as slope_to_number, slope_held as held_slope};

use pd_clock::Rate;
use pd_kind::Slope;
use pd_num::{Num, Sig};

/// How far a slope is from its start, toward zero: the way, the samples of it that are done, and all samples.
fn part_of(way: i128, done: u64, length: u64) -> i128
    requires way { unsigned_abs way ≤ 2000000000000000000 }
    requires order { done < length }
    ensures value { result ≡ int_div (way *ℤ pos done) (pos length) }
    ensures small { unsigned_abs result ≤ 2000000000000000000 * 18446744073709551616 }
{
    let parts = way * i128::from(done);
    parts / i128::from(length)
}

/// The signal value of a count, limited to the range of signal values.
fn limited(count: i128) -> Sig
    ensures { result ≡ saturated billionths.limit count }
{
    let nanos = count.clamp(-1_000_000_000_000_000_000, 1_000_000_000_000_000_000);
    match Sig::of_nanos(nanos as i64) {
        Some(value) => value,
        None => unreachable!(),
    }
}

/// The count of a signal value.
fn wide(value: Sig) -> i128
    ensures same { result ≡ value }
    ensures small { unsigned_abs result ≤ 1000000000000000000 }
{
    value.nanos() as i128
}

fn way_between(from: i128, to: i128) -> i128
    requires from { unsigned_abs from ≤ 1000000000000000000 }
    requires to { unsigned_abs to ≤ 1000000000000000000 }
    ensures way { result ≡ to -ℤ from }
    ensures small { unsigned_abs result ≤ 2000000000000000000 }
{
    to - from
}

fn sum(from: i128, part: i128) -> i128
    requires from { unsigned_abs from ≤ 1000000000000000000 }
    requires part { unsigned_abs part ≤ 2000000000000000000 * 18446744073709551616 }
    ensures { result ≡ from +ℤ part }
{
    from + part
}

/// The value after so many of the samples of a slope.
fn between(start: Sig, target: Sig, done: u64, length: u64) -> Sig
    requires { done < length }
    ensures { result ≡ saturated billionths.limit (start +ℤ int_div ((target -ℤ start) *ℤ pos done) (pos length)) }
{
    let from = wide(start);
    let way = way_between(from, wide(target));
    let part = part_of(way, done, length);
    limited(sum(from, part))
}

/// The value of the next sample.
pub(crate) fn slope_value(slope: &Slope) -> Sig
    ensures { result ≡ value_of_slope slope.now }
{
    if slope.length <= slope.at {
        slope.target
    } else {
        between(slope.start, slope.target, slope.at, slope.length)
    }
}

/// The slope stands at a value.
fn stand(slope: &mut Slope, time: Num, value: Sig)
    ensures { slope.new ≡ standing_slope slope.old time value }
{
    slope.time = time;
    slope.target = value;
    slope.length = 0;
    slope.at = 0;
}

/// So many samples, whole blocks and at least one, for a time in milliseconds that isn't negative.
fn slope_length(rate: Rate, time: Num) -> u64
    requires { pos 0 <ℤ time }
    ensures { result ≡ length_of_slope rate time }
{
    let units = time.micros() as u128 * u128::from(rate.hz());
    let blocks = (units / 1_000_000_000) as u64 / 64;
    blocks.max(1) * 64
}

/// A slope to the number heard, over the stored time, which is set back to 0.
pub(crate) fn slope_to(slope: &mut Slope, number: Num)
    ensures { slope.new ≡ slope_to_number slope.old number }
{
    let time = slope.time;
    let target = Sig::of_num(number);
    if time.micros() <= 0 {
        stand(slope, zero(), target);
        return;
    }
    let start = slope_value(slope);
    let length = slope_length(slope.rate, time);
    slope.time = zero();
    slope.start = start;
    slope.target = target;
    slope.length = length;
    slope.at = 0;
}

/// None.
fn zero() -> Num
    ensures { result ≡ pos 0 }
{
    match Num::of_micros(0) {
        Some(zero) => zero,
        None => unreachable!(),
    }
}

/// The slope holds the value of the next sample.
pub(crate) fn hold_slope(slope: &mut Slope)
    ensures { slope.new ≡ held_slope slope.old }
{
    let time = slope.time;
    let value = slope_value(slope);
    stand(slope, time, value);
}
