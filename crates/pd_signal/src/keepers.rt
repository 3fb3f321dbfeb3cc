//! The objects that keep samples: `line~`, `samphold~`, `lop~`, `hip~`, `delwrite~`, `send~`, `catch~` and `snapshot~`.

ghost use Rattle.std.specs.Prelude.{◌≡◌, ◌<◌, ◌≤◌, ◌*◌, ◌/◌, min, ℤ, List, length};
ghost use Rattle.pd_num.specs.Scale.{billionths};
ghost use Rattle.pd_clock.specs.Rates.{samples};
ghost use Rattle.pd_signal.specs.Boxes.{IsSized};
ghost use Rattle.pd_signal.specs.Rows.{last_sample as last_of_block, line_row, samphold_row, factor_of, lop_row, hip_row, delwrite_row, send_row, catch_row, snapshot_row};

use crate::buses::{keep_block, no_signal, take_block};
use crate::delays::write_line;
use crate::filters::{high_pass, keep_all, low_pass};
use crate::ramps::ramp;
use pd_clock::Rate;
use pd_kind::State;
use pd_num::{Num, Sig};

fn last_sample(block: &[Sig; 64]) -> Sig
    ensures { result ≡ last_of_block block.now }
{
    block[63]
}

/// `line~`
pub(crate) fn run_line(state: &mut State, outs: &mut [[Sig; 64]])
    requires { 0 < length outs.old }
    ensures ran { record { state = state.new; outs = outs.new } ≡ line_row state.old outs.old }
    ensures sized { IsSized state.old → IsSized state.new }
{
    if let State::Line(slope) = state {
        ramp(slope, &mut outs[0]);
    }
}

/// `samphold~`
pub(crate) fn run_samphold(state: &mut State, ins: &[[Sig; 64]], outs: &mut [[Sig; 64]])
    requires inlets { 1 < length ins.now }
    requires outlets { 0 < length outs.old }
    ensures ran { record { state = state.new; outs = outs.new } ≡ samphold_row state.old ins.now outs.old }
    ensures sized { IsSized state.old → IsSized state.new }
{
    if let State::Samphold { last, kept, .. } = state {
        let before = *last;
        keep_all(before, kept, &ins[0], &ins[1], &mut outs[0]);
        *last = last_sample(&ins[1]);
    }
}

/// How many billionths the factor of a low pass has, at a frequency in millionths that isn't negative.
fn factor_count(rate: Rate, hertz: u64) -> u64
    requires { hertz ≤ 1000000000000000 }
    ensures value { result ≡ min (hertz * 6283185307 / (samples rate * 1000000)) billionths.unit }
    ensures small { result ≤ billionths.unit }
{
    let parts = u128::from(hertz) * 6_283_185_307;
    let whole = u128::from(rate.hz()) * 1_000_000;
    (parts / whole).min(1_000_000_000) as u64
}

/// The factor of a low pass.
fn factor(rate: Rate, hertz: Num) -> Sig
    ensures { result ≡ factor_of rate hertz }
{
    let micros = hertz.micros();
    if micros < 0 {
        return no_signal();
    }
    match Sig::of_nanos(factor_count(rate, micros as u64) as i64) {
        Some(value) => value,
        None => unreachable!(),
    }
}

/// `lop~`
pub(crate) fn run_lop(state: &mut State, ins: &[[Sig; 64]], outs: &mut [[Sig; 64]])
    requires inlets { 0 < length ins.now }
    requires outlets { 0 < length outs.old }
    ensures ran { record { state = state.new; outs = outs.new } ≡ lop_row state.old ins.now outs.old }
    ensures sized { IsSized state.old → IsSized state.new }
{
    if let State::Lop {
        hertz,
        value,
        rate,
        ..
    } = state
    {
        low_pass(factor(*rate, *hertz), value, &ins[0], &mut outs[0]);
    }
}

/// `hip~`
pub(crate) fn run_hip(state: &mut State, ins: &[[Sig; 64]], outs: &mut [[Sig; 64]])
    requires inlets { 0 < length ins.now }
    requires outlets { 0 < length outs.old }
    ensures ran { record { state = state.new; outs = outs.new } ≡ hip_row state.old ins.now outs.old }
    ensures sized { IsSized state.old → IsSized state.new }
{
    if let State::Hip {
        hertz,
        value,
        rate,
        ..
    } = state
    {
        high_pass(factor(*rate, *hertz), value, &ins[0], &mut outs[0]);
    }
}

/// `delwrite~`
pub(crate) fn run_delwrite(state: &mut State, ins: &[[Sig; 64]])
    requires inlets { 0 < length ins.now }
    requires sized { IsSized state.old }
    ensures ran { (outs : List (List ℤ)) → record { state = state.new; outs = outs } ≡ delwrite_row state.old ins.now outs }
    ensures sized { IsSized state.new }
{
    if let State::Delwrite {
        values,
        next,
        ran,
        ..
    } = state
    {
        write_line(values, next, &ins[0]);
        *ran = true;
    }
}

/// `send~`
pub(crate) fn run_send(state: &mut State, ins: &[[Sig; 64]])
    requires inlets { 0 < length ins.now }
    requires sized { IsSized state.old }
    ensures ran { (outs : List (List ℤ)) → record { state = state.new; outs = outs } ≡ send_row state.old ins.now outs }
    ensures sized { IsSized state.new }
{
    if let State::SignalSend { block, .. } = state {
        keep_block(block, &ins[0]);
    }
}

/// `catch~`
pub(crate) fn run_catch(state: &mut State, outs: &mut [[Sig; 64]])
    requires outlets { 0 < length outs.old }
    requires sized { IsSized state.old }
    ensures ran { record { state = state.new; outs = outs.new } ≡ catch_row state.old outs.old }
    ensures sized { IsSized state.new }
{
    if let State::Catch { sum } = state {
        take_block(sum, &mut outs[0]);
    }
}

/// `snapshot~`
pub(crate) fn run_snapshot(state: &mut State, ins: &[[Sig; 64]])
    requires inlets { 0 < length ins.now }
    ensures ran { (outs : List (List ℤ)) → record { state = state.new; outs = outs } ≡ snapshot_row state.old ins.now outs }
    ensures sized { IsSized state.old → IsSized state.new }
{
    if let State::Snapshot { last, .. } = state {
        *last = last_sample(&ins[0]);
    }
}
