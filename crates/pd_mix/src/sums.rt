//! Blocks, value by value.

ghost use Rattle.std.specs.Prelude.{◌≡◌, ◌<◌, ◌^◌, true, replicate};
ghost use Rattle.pd_num.specs.Scale.{billionths, signal_of, sum_of};
ghost use Rattle.pd_kind.specs.States.{silent_block};
ghost use Rattle.pd_signal.specs.Samples.{zip_with};
ghost use Rattle.pd_mix.specs.Sums.{raised_of, lowered_of, short_sum};

use pd_num::{Num, Sig};

/// The same number in each value.
pub fn fill(number: Num, out: &mut [Sig; 64])
    ensures { out.new ≡ replicate 64 (signal_of number) }
{
    let block = [Sig::of_num(number); 64];
    *out = block;
}

/// Each value 0.
#[tactic(auto, unfolding(pd_kind::specs::States::silent_block))]
pub fn silence(out: &mut [Sig; 64])
    ensures { out.new ≡ silent_block }
{
    let block = [Sig::default(); 64];
    *out = block;
}

/// The same block.
pub fn copy(block: &[Sig; 64], out: &mut [Sig; 64])
    ensures { out.new ≡ block.now }
{
    *out = *block;
}

/// The sum where it may be beyond the greatest value, out of the way of the loop.
#[inline(never)]
fn limited_sum(x: Sig, y: Sig) -> Sig
    ensures { result ≡ sum_of billionths x y }
{
    x.add(y)
}

/// The sum.
#[inline]
fn sum(x: Sig, y: Sig) -> Sig
    ensures { result ≡ sum_of billionths x y }
{
    match Sig::of_nanos(x.nanos() + y.nanos()) {
        Some(sum) => sum,
        None => limited_sum(x, y),
    }
}

/// A block is added, limited after each sum, where some sum may be beyond the greatest value.
#[inline(never)]
fn add_limited(block: &[Sig; 64], out: &mut [Sig; 64])
    ensures { out.new ≡ zip_with (sum_of billionths) out.old block.now }
{
    for i in 0..64 {
        out[i] = sum(out[i], block[i]);
    }
}

/// The sum raised by 2^59, in 64 bits.
#[inline]
#[tactic(auto, unfolding(crate::specs::Sums::raised_of), using(crate::proofs::SumLemmas::short_is))]
fn raised(x: Sig, y: Sig) -> u64
    ensures value { result ≡ raised_of x y }
    ensures short { result < 2 ^ 60 → short_sum x y ≡ sum_of billionths x y }
{
    (x.nanos() + y.nanos())
        .cast_unsigned()
        .wrapping_add(1 << 59)
}

/// The sum that was raised.
#[inline]
#[tactic(auto, unfolding(crate::specs::Sums::lowered_of))]
fn lowered(raised: u64) -> Sig
    ensures { result ≡ lowered_of raised }
{
    match Sig::of_nanos((raised % (1 << 60)) as i64 - (1 << 59)) {
        Some(sum) => sum,
        None => unreachable!(),
    }
}

/// Whether no sum of two blocks needs a limit, by one look at all of them.
#[inline]
fn are_small(x: &[Sig; 64], y: &[Sig; 64]) -> bool
    ensures { result ≡ true → zip_with short_sum x.now y.now ≡ zip_with (sum_of billionths) x.now y.now }
{
    let mut bits = 0;
    for i in 0..64 {
        bits |= raised(x[i], y[i]);
    }
    bits < 1 << 60
}

/// A block is added by sums that aren't limited.
#[inline]
fn add_small(block: &[Sig; 64], out: &mut [Sig; 64])
    ensures { out.new ≡ zip_with short_sum out.old block.now }
{
    for i in 0..64 {
        out[i] = lowered(raised(out[i], block[i]));
    }
}

/// A block is added, limited after each sum.
#[inline(never)]
pub fn add(block: &[Sig; 64], out: &mut [Sig; 64])
    ensures { out.new ≡ zip_with (sum_of billionths) out.old block.now }
{
    if are_small(out, block) {
        add_small(block, out);
    } else {
        add_limited(block, out);
    }
}
