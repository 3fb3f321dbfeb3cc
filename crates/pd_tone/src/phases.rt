//! Phases on a circle.

ghost use Rattle.std.specs.Prelude.{◌≡◌, ◌<◌, ◌≤◌, ◌*◌, ◌%◌, pos, unsigned_abs};
ghost use Rattle.std.specs.Int.{int_rem_euclid};
ghost use Rattle.pd_num.specs.Scale.{billionths, IsInRange};
ghost use Rattle.pd_tone.specs.Tones.{moved as moved_phase};

/// The place on a circle of a sum that is at least 0. It mostly needs no division.
#[inline]
#[tactic(auto, using(crate::proofs::Circle::within, crate::proofs::Circle::above))]
fn forward(circle: u64, sum: u64) -> u64
    requires circle { 0 < circle }
    requires small { circle ≤ 96000000000000 }
    ensures value { pos result ≡ int_rem_euclid (pos sum) (pos circle) }
    ensures small { result < circle }
{
    if sum < circle {
        sum
    } else if sum < 2 * circle {
        sum - circle
    } else {
        sum % circle
    }
}

/// The place on a circle of a sum.
#[inline]
#[tactic(auto, using(crate::proofs::Circle::below))]
fn on_circle(circle: u64, sum: i64) -> u64
    requires circle { 0 < circle }
    requires small { circle ≤ 96000000000000 }
    ensures { result ≡ unsigned_abs (int_rem_euclid sum (pos circle)) }
{
    if sum >= 0 {
        forward(circle, sum as u64)
    } else if -(circle as i64) <= sum {
        (sum + circle as i64) as u64
    } else {
        sum.rem_euclid(circle as i64) as u64
    }
}

/// The place that a phase stands for.
#[inline]
fn reduced(circle: u64, phase: u64) -> u64
    requires { 0 < circle }
    ensures value { result ≡ phase % circle }
    ensures small { result < circle }
{
    if phase < circle {
        phase
    } else {
        phase % circle
    }
}

/// The phase after a step from a place on the circle.
#[inline]
#[tactic(auto, unfolding(crate::specs::Tones::moved), using(crate::proofs::Circle::moved_small))]
pub(crate) fn moved_within(circle: u64, phase: u64, step: i64) -> u64
    requires circle { 0 < circle }
    requires small { circle ≤ 96000000000000 }
    requires within { phase < circle }
    requires step { IsInRange billionths step }
    ensures value { result ≡ moved_phase circle phase step }
    ensures small { result < circle }
{
    on_circle(circle, phase as i64 + step)
}

/// The phase after a step.
#[inline]
#[tactic(auto, using(crate::proofs::Circle::moved_is))]
pub(crate) fn moved(circle: u64, phase: u64, step: i64) -> u64
    requires circle { 0 < circle }
    requires small { circle ≤ 96000000000000 }
    requires step { IsInRange billionths step }
    ensures { result ≡ moved_phase circle phase step }
{
    on_circle(circle, reduced(circle, phase) as i64 + step)
}
