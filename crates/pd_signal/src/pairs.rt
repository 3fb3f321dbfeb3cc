//! Two blocks, sample by sample.

ghost use Rattle.std.specs.Prelude.{◌≡◌, ◌<◌, ◌≤◌, ◌^◌, ◌*ℤ◌, true, pos, int_div, unsigned_abs, replicate, map};
ghost use Rattle.pd_num.specs.Scale.{billionths, sum_of, difference_of, product_of, quotient_of};
ghost use Rattle.pd_signal.specs.Samples.{zip_with, greater_of, lesser_of};
ghost use Rattle.pd_signal.specs.Shorts.{raised_of, lowered_of, short_of};

use pd_num::Sig;

fn greater(x: Sig, y: Sig) -> Sig
    ensures { result ≡ greater_of x y }
{
    if x.nanos() <= y.nanos() { y } else { x }
}

fn lesser(x: Sig, y: Sig) -> Sig
    ensures { result ≡ lesser_of x y }
{
    if x.nanos() <= y.nanos() { x } else { y }
}

/// The product of two values of at most so many billionths takes 64 bits: this is the root of 2^63, cut.
const SMALL: i64 = 3_037_000_499;

/// The product where it may need 128 bits, out of the way of the loops.
#[inline(never)]
fn long_product(x: Sig, y: Sig) -> Sig
    ensures { result ≡ product_of billionths x y }
{
    x.mul(y)
}

/// A count of billionths of billionths, toward zero.
#[inline]
fn rounded(count: i64) -> Sig
    ensures { result ≡ int_div count (pos billionths.unit) }
{
    match Sig::of_nanos(count / 1_000_000_000) {
        Some(value) => value,
        None => unreachable!(),
    }
}

/// Whether a value is small.
#[inline]
fn is_small(x: i64) -> bool
    ensures { result ≡ true → unsigned_abs x ≤ 3037000499 }
{
    -SMALL <= x && x <= SMALL
}

/// The product of small values, in billionths of billionths.
#[inline]
fn small_product(x: i64, y: i64) -> i64
    requires x { unsigned_abs x ≤ 3037000499 }
    requires y { unsigned_abs y ≤ 3037000499 }
    ensures { result ≡ x *ℤ y }
{
    x * y
}

/// The product, toward zero.
#[inline]
fn product(x: Sig, y: Sig) -> Sig
    ensures { result ≡ product_of billionths x y }
{
    if is_small(x.nanos()) && is_small(y.nanos()) {
        rounded(small_product(x.nanos(), y.nanos()))
    } else {
        long_product(x, y)
    }
}

/// The sums of two blocks.
#[inline(never)]
pub(crate) fn add_all(x: &[Sig; 64], y: &[Sig; 64], out: &mut [Sig; 64])
    ensures { out.new ≡ zip_with (sum_of billionths) x.now y.now }
{
    for i in 0..64 {
        out[i] = x[i].add(y[i]);
    }
}

/// The differences of two blocks.
#[inline(never)]
pub(crate) fn subtract_all(x: &[Sig; 64], y: &[Sig; 64], out: &mut [Sig; 64])
    ensures { out.new ≡ zip_with (difference_of billionths) x.now y.now }
{
    for i in 0..64 {
        out[i] = x[i].sub(y[i]);
    }
}

/// The products of two blocks.
#[inline(never)]
pub(crate) fn multiply_all(x: &[Sig; 64], y: &[Sig; 64], out: &mut [Sig; 64])
    ensures { out.new ≡ zip_with (product_of billionths) x.now y.now }
{
    for i in 0..64 {
        out[i] = product(x[i], y[i]);
    }
}

/// The products of a block and one value, where some may need 128 bits.
#[inline(never)]
fn scale_long(x: &[Sig; 64], factor: Sig, out: &mut [Sig; 64])
    ensures { out.new ≡ map (λ v. product_of billionths v factor) x.now }
{
    for i in 0..64 {
        out[i] = product(x[i], factor);
    }
}

/// The value raised by 2^31, in 64 bits.
#[inline]
#[tactic(auto, unfolding(crate::specs::Shorts::raised_of), using(crate::proofs::ShortLemmas::short_is))]
fn raised(x: Sig) -> u64
    ensures value { result ≡ raised_of x }
    ensures short { result < 2 ^ 32 → short_of x ≡ x }
{
    x.nanos().cast_unsigned().wrapping_add(1 << 31)
}

/// The value that was raised.
#[inline]
#[tactic(auto, unfolding(crate::specs::Shorts::lowered_of))]
fn lowered(raised: u64) -> i64
    ensures value { result ≡ lowered_of raised }
    ensures small { unsigned_abs result ≤ 3037000499 }
{
    (raised % (1 << 32)) as i64 - (1 << 31)
}

/// The product of a value in 32 bits and a small one.
#[inline]
fn short_product(x: Sig, factor: Sig) -> Sig
    requires { unsigned_abs factor ≤ 3037000499 }
    ensures { result ≡ product_of billionths (short_of x) factor }
{
    rounded(small_product(lowered(raised(x)), factor.nanos()))
}

/// Whether each value fits 32 bits, by one look at all of them.
#[inline]
fn are_short(x: &[Sig; 64]) -> bool
    ensures { result ≡ true → map short_of x.now ≡ x.now }
{
    let mut bits = 0;
    for i in 0..64 {
        bits |= raised(x[i]);
    }
    bits < 1 << 32
}

/// The products of a block of values in 32 bits and a small one.
#[inline]
fn scale_short(x: &[Sig; 64], factor: Sig, out: &mut [Sig; 64])
    requires { unsigned_abs factor ≤ 3037000499 }
    ensures { out.new ≡ map (λ v. product_of billionths (short_of v) factor) x.now }
{
    for i in 0..64 {
        out[i] = short_product(x[i], factor);
    }
}

/// The products of a block and one value.
#[inline(never)]
pub(crate) fn scale_all(x: &[Sig; 64], factor: Sig, out: &mut [Sig; 64])
    ensures { out.new ≡ zip_with (product_of billionths) x.now (replicate 64 factor) }
{
    if is_small(factor.nanos()) && are_short(x) {
        scale_short(x, factor, out);
    } else {
        scale_long(x, factor, out);
    }
}

/// The quotients of two blocks.
pub(crate) fn divide_all(x: &[Sig; 64], y: &[Sig; 64], out: &mut [Sig; 64])
    ensures { out.new ≡ zip_with (quotient_of billionths) x.now y.now }
{
    for i in 0..64 {
        out[i] = x[i].div(y[i]);
    }
}

/// The greater of each two samples.
pub(crate) fn greater_all(x: &[Sig; 64], y: &[Sig; 64], out: &mut [Sig; 64])
    ensures { out.new ≡ zip_with greater_of x.now y.now }
{
    for i in 0..64 {
        out[i] = greater(x[i], y[i]);
    }
}

/// The lesser of each two samples.
pub(crate) fn lesser_all(x: &[Sig; 64], y: &[Sig; 64], out: &mut [Sig; 64])
    ensures { out.new ≡ zip_with lesser_of x.now y.now }
{
    for i in 0..64 {
        out[i] = lesser(x[i], y[i]);
    }
}
