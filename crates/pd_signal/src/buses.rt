//! Blocks that `send~`, `catch~` and `throw~` keep, add to and clear.

ghost use Rattle.std.specs.Prelude.{◌≡◌, length, pos, replicate};
ghost use Rattle.pd_num.specs.Scale.{billionths, sum_of};
ghost use Rattle.pd_kind.specs.States.{silent_block};
ghost use Rattle.pd_signal.specs.Samples.{zip_with};

use pd_kind::Samples;
use pd_num::Sig;

/// The signal value 0.
pub(crate) fn no_signal() -> Sig
    ensures { result ≡ pos 0 }
{
    match Sig::of_nanos(0) {
        Some(value) => value,
        None => unreachable!(),
    }
}

/// Keeps a block.
pub(crate) fn keep_block(kept: &mut Samples, x: &[Sig; 64])
    requires { length kept.old ≡ 64 }
    ensures kept { kept.new ≡ x.now }
    ensures len { length kept.new ≡ 64 }
{
    for i in 0..64 {
        kept.set(i, x[i]);
    }
}

/// Gives the kept block, and clears it.
#[tactic(auto, unfolding(pd_kind::specs::States::silent_block))]
pub(crate) fn take_block(kept: &mut Samples, out: &mut [Sig; 64])
    requires { length kept.old ≡ 64 }
    ensures out { out.new ≡ kept.old }
    ensures kept { kept.new ≡ silent_block }
    ensures len { length kept.new ≡ 64 }
{
    out.copy_from_slice(kept.as_slice());
    let silent = [no_signal(); 64];
    keep_block(kept, &silent);
}

/// Adds a block to a sum.
pub(crate) fn add_to(sum: &mut [Sig], x: &[Sig; 64])
    requires { length sum.old ≡ 64 }
    ensures { sum.new ≡ zip_with (sum_of billionths) sum.old x.now }
{
    for i in 0..64 {
        let before = sum[i];
        sum[i] = before.add(x[i]);
    }
}
