//! `line~` over a block.

ghost use Rattle.std.specs.Prelude.{◌≡◌, ◌<◌, ◌≤◌, ◌-◌, ◌+◌, ◌*◌, ◌^◌, pos, ◌+ℤ◌, ◌-ℤ◌, ◌*ℤ◌, int_div, unsigned_abs, IfSome};
ghost use Rattle.pd_num.specs.Scale.{saturated, billionths};
ghost use Rattle.pd_signal.specs.Ramps.{slope_sample, ramp_of, slope_after};

use pd_kind::Slope;
use pd_num::Sig;

/// Above this length the work is done in 128 bits.
const LONG: u64 = 1_000_000_000_000;

/// A part of a way, toward zero: the way, the samples of it that are done, and all samples. `None` where 64 bits aren't
/// enough for it.
fn short_part(way: i64, done: u64, length: u64) -> Option<i64>
    requires { done < length }
    ensures { IfSome result (λ part. part ≡ int_div (way *ℤ pos done) (pos length)) }
{
    if length > LONG {
        return None;
    }
    match way.checked_mul(done as i64) {
        Some(parts) => Some(parts / length as i64),
        None => None,
    }
}

/// The same in 128 bits.
fn long_part(way: i64, done: u64, length: u64) -> i128
    requires way { unsigned_abs way ≤ 2000000000000000000 }
    requires order { done < length }
    ensures value { result ≡ int_div (way *ℤ pos done) (pos length) }
    ensures small { unsigned_abs result ≤ 2000000000000000000 * 18446744073709551616 }
{
    let parts = i128::from(way) * i128::from(done);
    parts / i128::from(length)
}

/// A part of a way, toward zero.
fn part_of(way: i64, done: u64, length: u64) -> i128
    requires way { unsigned_abs way ≤ 2000000000000000000 }
    requires order { done < length }
    ensures value { result ≡ int_div (way *ℤ pos done) (pos length) }
    ensures small { unsigned_abs result ≤ 2000000000000000000 * 18446744073709551616 }
{
    match short_part(way, done, length) {
        Some(part) => i128::from(part),
        None => long_part(way, done, length),
    }
}

/// The signal value of a count, limited to the range of signal values.
fn limited(count: i128) -> Sig
    ensures { result ≡ saturated billionths.limit count }
{
    let nanos = count.clamp(-1_000_000_000_000_000_000, 1_000_000_000_000_000_000);
    match Sig::of_nanos(nanos as i64) {
        Some(value) => value,
        None => unreachable!(),
    }
}

fn way_between(from: Sig, to: Sig) -> i64
    ensures way { result ≡ to -ℤ from }
    ensures small { unsigned_abs result ≤ 2000000000000000000 }
{
    to.nanos() - from.nanos()
}

fn sum(from: Sig, part: i128) -> i128
    requires part { unsigned_abs part ≤ 2000000000000000000 * 18446744073709551616 }
    ensures { result ≡ from +ℤ part }
{
    i128::from(from.nanos()) + part
}

/// The value after so many of the samples of a slope.
fn between(start: Sig, target: Sig, done: u64, length: u64) -> Sig
    requires { done < length }
    ensures { result ≡ saturated billionths.limit (start +ℤ int_div ((target -ℤ start) *ℤ pos done) (pos length)) }
{
    let part = part_of(way_between(start, target), done, length);
    limited(sum(start, part))
}

/// The i-th of the next samples, of which so many are before the slope's end.
fn sample(slope: &Slope, left: u64, i: u64) -> Sig
    requires { left ≡ slope.now.length - slope.now.at }
    ensures { result ≡ slope_sample slope.now (slope.now.at + i) }
{
    let length = slope.length;
    if i < left {
        between(slope.start, slope.target, slope.at + i, length)
    } else {
        slope.target
    }
}

/// The values of the next 64 samples of a slope, and the slope after them.
pub(crate) fn ramp(slope: &mut Slope, out: &mut [Sig; 64])
    ensures out { out.new ≡ ramp_of slope.old }
    ensures slope { slope.new ≡ slope_after slope.old }
{
    ramp_values(slope, out);
    slope.at = slope.at.saturating_add(64).min(slope.length);
}

fn ramp_values(slope: &Slope, out: &mut [Sig; 64])
    ensures { out.new ≡ ramp_of slope.now }
{
    let left = slope.length.saturating_sub(slope.at);
    for i in 0..64 {
        out[i] = sample(slope, left, i as u64);
    }
}
