//! `lop~`, `hip~` and `samphold~` over a block.

ghost use Rattle.std.specs.Prelude.{◌≡◌};
ghost use Rattle.pd_signal.specs.Samples.{last_of, nearer, low_passed, high_passed, kept_at, kept_values};

use crate::buses::no_signal;
use crate::pairs::subtract_all;
use pd_num::Sig;

/// The next value of a low pass on its way to `x`.
fn near(factor: Sig, value: Sig, x: Sig) -> Sig
    ensures { result ≡ nearer factor value x }
{
    value.add(factor.mul(x.sub(value)))
}

/// The values of a low pass, which goes on from `value`.
pub(crate) fn low_pass(factor: Sig, value: &mut Sig, x: &[Sig; 64], out: &mut [Sig; 64])
    ensures out { out.new ≡ low_passed factor value.old x.now }
    ensures value { value.new ≡ last_of value.old (low_passed factor value.old x.now) }
{
    let mut present = *value;
    for i in 0..64 {
        present = near(factor, present, x[i]);
        out[i] = present;
    }
    *value = present;
}

/// The value that `samphold~` keeps at a sample.
fn keep(last: Sig, kept: Sig, x: Sig, y: Sig) -> Sig
    ensures { result ≡ kept_at last kept x y }
{
    if y.nanos() < last.nanos() { x } else { kept }
}

/// The values that `samphold~` keeps at each sample, the last of which stays kept.
pub(crate) fn keep_all(last: Sig, kept: &mut Sig, x: &[Sig; 64], y: &[Sig; 64], out: &mut [Sig; 64])
    ensures out { out.new ≡ kept_values last kept.old x.now y.now }
    ensures kept { kept.new ≡ last_of kept.old (kept_values last kept.old x.now y.now) }
{
    let mut before = last;
    let mut value = *kept;
    for i in 0..64 {
        value = keep(before, value, x[i], y[i]);
        before = y[i];
        out[i] = value;
    }
    *kept = value;
}

/// A block less its low pass, which goes on from `value`.
pub(crate) fn high_pass(factor: Sig, value: &mut Sig, x: &[Sig; 64], out: &mut [Sig; 64])
    ensures out { out.new ≡ high_passed factor value.old x.now }
    ensures value { value.new ≡ last_of value.old (low_passed factor value.old x.now) }
{
    let mut low = [no_signal(); 64];
    low_pass(factor, value, x, &mut low);
    subtract_all(x, &low, out);
}
