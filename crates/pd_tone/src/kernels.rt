//! The samples of a block.

ghost use Rattle.std.specs.Prelude.{◌≡◌, ◌<◌, ◌≤◌, ◌+◌, ◌*◌, ◌/◌, ◌%◌, ◌^◌, ◌-ℤ◌, ◌*ℤ◌, pos, int_div, map, replicate, IfSome};
ghost use Rattle.pd_num.specs.Scale.{billionths, IsInRange};
ghost use Rattle.pd_tone.specs.Cosine.{cosine as cosine_of};
ghost use Rattle.pd_tone.specs.Tones.{circle as circle_of, phases, phase_after, steady_block, share, next_seed as seed_after_this, seeds, seed_after, noise as noise_of};
ghost use Rattle.pd_clock.specs.Rates.{samples as samples_of};

use crate::cosine::{cosine, cosine_at, cosine_within};
use crate::fractions::{fraction, high_product, stepped};
use crate::phases::{moved, moved_within};
use pd_clock::Rate;
use pd_num::Sig;

/// The signal value of a count of billionths.
#[inline]
fn signal(nanos: i64) -> Sig
    requires { IsInRange billionths nanos }
    ensures { result ≡ nanos }
{
    match Sig::of_nanos(nanos) {
        Some(value) => value,
        None => unreachable!(),
    }
}

/// The phasor's sample at a phase.
#[inline]
#[tactic(auto, using(crate::proofs::Blocks::share_small))]
fn phasor_sample(hertz: u64, phase: u64) -> Sig
    requires { 44100 ≤ hertz }
    ensures { result ≡ share hertz phase }
{
    signal((phase / hertz) as i64)
}

/// The oscillator's sample at a phase.
#[inline]
fn osc_sample(part: u64, phase: u64) -> Sig
    requires part { 0 < part }
    requires small { part ≤ 46875000000 }
    ensures { result ≡ cosine_of (part * 2048) phase }
{
    signal(cosine(part, phase))
}

#[inline(always)]
fn phasor_at(hertz: u64, phase: &mut u64, input: &[Sig; 64], output: &mut [Sig; 64])
    requires hertz { 44100 ≤ hertz }
    requires small { hertz ≤ 96000 }
    ensures phase { phase.new ≡ phase_after (hertz * 1000000000) phase.old input.now }
    ensures samples { output.new ≡ map (share hertz) (phases (hertz * 1000000000) phase.old input.now) }
{
    let circle = hertz * 1_000_000_000;
    let mut now = *phase;
    for i in 0..64 {
        output[i] = phasor_sample(hertz, now);
        now = moved(circle, now, input[i].nanos());
    }
    *phase = now;
}

/// The oscillator's sample at a phase within the circle.
#[inline]
#[tactic(auto, using(crate::proofs::Circle::few_parts))]
fn osc_sample_within(part: u64, phase: u64) -> Sig
    requires part { 0 < part }
    requires small { part ≤ 46875000000 }
    requires within { phase < part * 2048 }
    ensures { result ≡ cosine_of (part * 2048) phase }
{
    signal(cosine_within(part, phase))
}

#[inline(always)]
fn osc_within(part: u64, phase: &mut u64, input: &[Sig; 64], output: &mut [Sig; 64])
    requires part { 0 < part }
    requires small { part ≤ 46875000000 }
    requires within { phase.old < part * 2048 }
    ensures phase { phase.new ≡ phase_after (part * 2048) phase.old input.now }
    ensures samples { output.new ≡ map (cosine_of (part * 2048)) (phases (part * 2048) phase.old input.now) }
{
    let circle = part * 2048;
    let mut now = *phase;
    for i in 0..64 {
        output[i] = osc_sample_within(part, now);
        now = moved_within(circle, now, input[i].nanos());
    }
    *phase = now;
}

#[inline(always)]
fn osc_beyond(part: u64, phase: &mut u64, input: &[Sig; 64], output: &mut [Sig; 64])
    requires part { 0 < part }
    requires small { part ≤ 46875000000 }
    ensures phase { phase.new ≡ phase_after (part * 2048) phase.old input.now }
    ensures samples { output.new ≡ map (cosine_of (part * 2048)) (phases (part * 2048) phase.old input.now) }
{
    let circle = part * 2048;
    let mut now = *phase;
    for i in 0..64 {
        output[i] = osc_sample(part, now);
        now = moved(circle, now, input[i].nanos());
    }
    *phase = now;
}

/// The number that each value of a block is, where they are one number.
fn steady(input: &[Sig; 64]) -> Option<Sig>
    ensures { IfSome result (λ step. input.now ≡ replicate 64 step) }
{
    let first = input[0];
    for i in 0..64 {
        if input[i].nanos() != first.nanos() {
            return None;
        }
    }
    Some(first)
}

/// The oscillator's sample at a fraction of a part of the circle that is little above the phase.
#[inline]
#[tactic(auto, using(crate::proofs::Shares::cosine_near))]
fn osc_sample_at(part: u64, index: u64, fraction: u64) -> Sig
    requires part { 0 < part }
    requires small { part ≤ 46875000000 }
    requires index { index < 2048 }
    requires near { fraction * part % 2 ^ 64 ≤ 64 * part }
    ensures { result ≡ cosine_of (part * 2048) (index * part + fraction * part / 2 ^ 64) }
{
    signal(cosine_at(index as usize, fraction))
}

/// Steps of one size: the part of the circle and the fraction of it go on in step with the phase, without a division.
#[inline(always)]
fn osc_steady(part: u64, phase: &mut u64, step: Sig, output: &mut [Sig; 64])
    requires part { 0 < part }
    requires small { part ≤ 46875000000 }
    requires within { phase.old < part * 2048 }
    ensures phase { phase.new ≡ phase_after (part * 2048) phase.old (replicate 64 step) }
    ensures samples { output.new ≡ map (cosine_of (part * 2048)) (phases (part * 2048) phase.old (replicate 64 step)) }
{
    let way = moved_within(part * 2048, 0, step.nanos());
    let parts = way / part;
    let share = fraction(part, way % part);
    let mut index = *phase / part;
    let mut now = fraction(part, *phase % part);
    for i in 0..64 {
        output[i] = osc_sample_at(part, index, now);
        let next = stepped(index, now, parts, share);
        index = next.0;
        now = next.1;
    }
    *phase = index * part + high_product(now, part);
}

/// From a phase within the circle.
#[inline(always)]
fn osc_on_circle(part: u64, phase: &mut u64, input: &[Sig; 64], output: &mut [Sig; 64])
    requires part { 0 < part }
    requires small { part ≤ 46875000000 }
    requires within { phase.old < part * 2048 }
    ensures phase { phase.new ≡ phase_after (part * 2048) phase.old input.now }
    ensures samples { output.new ≡ map (cosine_of (part * 2048)) (phases (part * 2048) phase.old input.now) }
{
    match steady(input) {
        Some(step) => osc_steady(part, phase, step, output),
        None => osc_within(part, phase, input, output),
    }
}

/// From a phase within the circle each sample's phase is within it, so that none has to be looked at.
#[inline(always)]
fn osc_at(part: u64, phase: &mut u64, input: &[Sig; 64], output: &mut [Sig; 64])
    requires part { 0 < part }
    requires small { part ≤ 46875000000 }
    ensures phase { phase.new ≡ phase_after (part * 2048) phase.old input.now }
    ensures samples { output.new ≡ map (cosine_of (part * 2048)) (phases (part * 2048) phase.old input.now) }
{
    if *phase < part * 2048 {
        osc_on_circle(part, phase, input, output);
    } else {
        osc_beyond(part, phase, input, output);
    }
}

/// The samples of `phasor~`. The rate's own arm divides by a constant.
#[inline(never)]
pub(crate) fn phasor(rate: Rate, phase: &mut u64, input: &[Sig; 64], output: &mut [Sig; 64])
    ensures phase { phase.new ≡ phase_after (circle_of rate) phase.old input.now }
    ensures samples { output.new ≡ map (share (samples_of rate)) (phases (circle_of rate) phase.old input.now) }
{
    match rate {
        Rate::R44100 => phasor_at(44_100, phase, input, output),
        Rate::R48000 => phasor_at(48_000, phase, input, output),
        Rate::R88200 => phasor_at(88_200, phase, input, output),
        Rate::R96000 => phasor_at(96_000, phase, input, output),
    }
}

/// The samples of `osc~`, from the size of one of the 2,048 parts of the rate's circle.
#[inline(never)]
pub(crate) fn osc(rate: Rate, phase: &mut u64, input: &[Sig; 64], output: &mut [Sig; 64])
    ensures phase { phase.new ≡ phase_after (circle_of rate) phase.old input.now }
    ensures samples { output.new ≡ map (cosine_of (circle_of rate)) (phases (circle_of rate) phase.old input.now) }
{
    match rate {
        Rate::R44100 => osc_at(21_533_203_125, phase, input, output),
        Rate::R48000 => osc_at(23_437_500_000, phase, input, output),
        Rate::R88200 => osc_at(43_066_406_250, phase, input, output),
        Rate::R96000 => osc_at(46_875_000_000, phase, input, output),
    }
}

/// Steps of one size from any phase.
#[inline(always)]
fn osc_steady_at(part: u64, phase: &mut u64, step: Sig, output: &mut [Sig; 64])
    requires part { 0 < part }
    requires small { part ≤ 46875000000 }
    ensures phase { phase.new ≡ phase_after (part * 2048) phase.old (replicate 64 step) }
    ensures samples { output.new ≡ map (cosine_of (part * 2048)) (phases (part * 2048) phase.old (replicate 64 step)) }
{
    if part * 2048 <= *phase {
        osc_beyond(part, phase, &[step; 64], output);
    } else {
        osc_steady(part, phase, step, output);
    }
}

/// The samples of `osc~` at one frequency, without a look at each sample of its inlet.
#[inline(never)]
#[tactic(auto, unfolding(crate::specs::Tones::steady_block))]
pub(crate) fn osc_steadily(rate: Rate, phase: &mut u64, step: Sig, output: &mut [Sig; 64])
    ensures phase { phase.new ≡ phase_after (circle_of rate) phase.old (steady_block step) }
    ensures samples { output.new ≡ map (cosine_of (circle_of rate)) (phases (circle_of rate) phase.old (steady_block step)) }
{
    match rate {
        Rate::R44100 => osc_steady_at(21_533_203_125, phase, step, output),
        Rate::R48000 => osc_steady_at(23_437_500_000, phase, step, output),
        Rate::R88200 => osc_steady_at(43_066_406_250, phase, step, output),
        Rate::R96000 => osc_steady_at(46_875_000_000, phase, step, output),
    }
}

/// The number of `noise~` after this one.
#[inline]
#[tactic(auto, unfolding(crate::specs::Tones::next_seed))]
fn next_seed(seed: u32) -> u32
    ensures { result ≡ seed_after_this seed }
{
    let next = (u64::from(seed) * 1_664_525 + 1_013_904_223) % (1 << 32);
    next as u32
}

/// The sample of a number of `noise~`.
#[inline]
#[tactic(auto, unfolding(crate::specs::Tones::noise))]
fn noise_sample(seed: u32) -> Sig
    ensures { result ≡ noise_of seed }
{
    signal((i64::from(seed) - (1 << 31)) * 1_000_000_000 / (1 << 31))
}

/// The samples of `noise~`.
#[inline(never)]
pub(crate) fn noise(seed: &mut u32, output: &mut [Sig; 64])
    ensures seed { seed.new ≡ seed_after 64 seed.old }
    ensures samples { output.new ≡ map noise_of (seeds 64 seed.old) }
{
    let mut now = *seed;
    for i in 0..64 {
        now = next_seed(now);
        output[i] = noise_sample(now);
    }
    *seed = now;
}
