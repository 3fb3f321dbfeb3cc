//! What a block of `phasor~`, `osc~` or `noise~` gives.

ghost use Rattle.std.specs.Prelude.{◌≡◌, ◌∷◌, [], replicate};
ghost use Rattle.pd_tone.specs.Rows.{tone_row, row};
ghost use Rattle.pd_tone.specs.Tones.{steady_block};

use crate::kernels::{noise, osc, osc_steadily, phasor};
use pd_kind::{Kind, State, Tone};
use pd_num::Sig;

/// Runs a block of 64 samples of a box that keeps `state`. `ins` has a block for each signal inlet and `outs` one for each
/// signal outlet. Boxes of other kinds change nothing.
#[tactic(auto, unfolding(crate::specs::Rows::row))]
pub fn run(kind: &Kind, state: &mut State, ins: &[[Sig; 64]], outs: &mut [[Sig; 64]])
    ensures { record { state = state.new; outs = outs.new } ≡ row kind.now state.old ins.now outs.old }
{
    match kind {
        Kind::Tone(tone) => run_tone(tone, state, ins, outs),
        _ => {}
    }
}

#[tactic(auto, unfolding(crate::specs::Rows::tone_row))]
fn run_tone(tone: &Tone, state: &mut State, ins: &[[Sig; 64]], outs: &mut [[Sig; 64]])
    ensures { record { state = state.new; outs = outs.new } ≡ tone_row tone.now state.old ins.now outs.old }
{
    match (tone, state, ins, outs) {
        (Tone::Phasor { .. }, State::Phasor { phase, rate, .. }, [input], [output]) => {
            phasor(*rate, phase, input, output);
        }
        (Tone::Osc { .. }, State::Osc { phase, rate, .. }, [input], [output]) => {
            osc(*rate, phase, input, output);
        }
        (Tone::Noise, State::Noise { seed }, [], [output]) => noise(seed, output),
        _ => {}
    }
}

/// Runs a block of a box whose one signal inlet has the same number in each sample. An `osc~` then doesn't look at each of them.
#[tactic(auto, unfolding(crate::specs::Rows::row, crate::specs::Tones::steady_block))]
pub fn run_steady(kind: &Kind, state: &mut State, step: Sig, outs: &mut [[Sig; 64]])
    ensures { record { state = state.new; outs = outs.new } ≡ row kind.now state.old (replicate 64 step ∷ []) outs.old }
{
    match kind {
        Kind::Tone(tone) => steady_tone(tone, state, step, outs),
        _ => {}
    }
}

#[tactic(auto, unfolding(crate::specs::Rows::tone_row))]
fn steady_tone(tone: &Tone, state: &mut State, step: Sig, outs: &mut [[Sig; 64]])
    ensures { record { state = state.new; outs = outs.new } ≡ tone_row tone.now state.old (steady_block step ∷ []) outs.old }
{
    match (tone, state, outs) {
        (Tone::Phasor { .. }, State::Phasor { phase, rate, .. }, [output]) => {
            phasor(*rate, phase, &filled(step), output);
        }
        (Tone::Osc { .. }, State::Osc { phase, rate, .. }, [output]) => {
            osc_steadily(*rate, phase, step, output);
        }
        _ => {}
    }
}

/// The block that has a number in each sample.
#[inline(always)]
#[tactic(auto, unfolding(crate::specs::Tones::steady_block))]
fn filled(step: Sig) -> [Sig; 64]
    ensures { result ≡ steady_block step }
{
    [step; 64]
}
