//! One block, sample by sample.

ghost use Rattle.std.specs.Prelude.{◌≡◌, map, replicate};
ghost use Rattle.pd_signal.specs.Samples.{magnitude_of, wrapped, clipped};

use pd_num::Sig;

/// A signal value without its sign.
fn magnitude(x: Sig) -> Sig
    ensures { result ≡ magnitude_of x }
{
    match Sig::of_nanos(x.nanos().abs()) {
        Some(value) => value,
        None => unreachable!(),
    }
}

/// A signal value less the greatest whole unit that isn't above it.
fn wrap(x: Sig) -> Sig
    ensures { result ≡ wrapped x }
{
    match Sig::of_nanos(x.nanos().rem_euclid(1_000_000_000)) {
        Some(value) => value,
        None => unreachable!(),
    }
}

fn clip(low: Sig, high: Sig, x: Sig) -> Sig
    ensures { result ≡ clipped low high x }
{
    if x.nanos() < low.nanos() {
        low
    } else if high.nanos() < x.nanos() {
        high
    } else {
        x
    }
}

/// The same value in each sample.
pub(crate) fn fill(value: Sig, out: &mut [Sig; 64])
    ensures { out.new ≡ replicate 64 value }
{
    for x in out.iter_mut() {
        *x = value;
    }
}

/// The magnitudes of a block.
pub(crate) fn magnitudes(x: &[Sig; 64], out: &mut [Sig; 64])
    ensures { out.new ≡ map magnitude_of x.now }
{
    for i in 0..64 {
        out[i] = magnitude(x[i]);
    }
}

/// Each sample less the greatest whole unit that isn't above it.
pub(crate) fn wrap_all(x: &[Sig; 64], out: &mut [Sig; 64])
    ensures { out.new ≡ map wrapped x.now }
{
    for i in 0..64 {
        out[i] = wrap(x[i]);
    }
}

/// Each sample, limited.
pub(crate) fn clip_all(low: Sig, high: Sig, x: &[Sig; 64], out: &mut [Sig; 64])
    ensures { out.new ≡ map (clipped low high) x.now }
{
    for i in 0..64 {
        out[i] = clip(low, high, x[i]);
    }
}
