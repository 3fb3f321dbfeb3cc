//! `sig~`, the arithmetic objects, `abs~`, `wrap~` and `clip~`.

ghost use Rattle.std.specs.Prelude.{◌≡◌, ◌<◌, length, replicate};
ghost use Rattle.pd_object.specs.Ports.{operation_ports_of};
ghost use Rattle.pd_signal.specs.Samples.{zip_with};
ghost use Rattle.pd_signal.specs.Rows.{sig_row, operation_of, operation_row, function_row, clip_row};

use crate::maps::{clip_all, fill, magnitudes, wrap_all};
use crate::pairs::{
    add_all, divide_all, greater_all, lesser_all, multiply_all, scale_all, subtract_all,
};
use pd_kind::{SignalFunction, SignalOperation, State};
use pd_num::{Num, Sig};

/// `sig~`
pub(crate) fn run_sig(state: &State, outs: &mut [[Sig; 64]])
    requires { 0 < length outs.old }
    ensures { record { state = state.now; outs = outs.new } ≡ sig_row state.now outs.old }
{
    if let State::Sig { value } = state {
        fill(Sig::of_num(*value), &mut outs[0]);
    }
}

fn operate(operation: SignalOperation, x: &[Sig; 64], y: &[Sig; 64], out: &mut [Sig; 64])
    ensures { out.new ≡ zip_with (operation_of operation) x.now y.now }
{
    match operation {
        SignalOperation::Add => add_all(x, y, out),
        SignalOperation::Subtract => subtract_all(x, y, out),
        SignalOperation::Multiply => multiply_all(x, y, out),
        SignalOperation::Divide => divide_all(x, y, out),
        SignalOperation::Greatest => greater_all(x, y, out),
        SignalOperation::Least => lesser_all(x, y, out),
    }
}

/// An operation on a block and one value. A product needs no second block.
fn operate_by(operation: SignalOperation, x: &[Sig; 64], value: Sig, out: &mut [Sig; 64])
    ensures { out.new ≡ zip_with (operation_of operation) x.now (replicate 64 value) }
{
    match operation {
        SignalOperation::Multiply => scale_all(x, value, out),
        _ => operate(operation, x, &[value; 64], out),
    }
}

/// The arithmetic objects.
pub(crate) fn run_operation(
    operation: SignalOperation,
    argument: Option<Num>,
    state: &State,
    ins: &[[Sig; 64]],
    outs: &mut [[Sig; 64]],
)
    requires inlets { length ins.now ≡ (operation_ports_of argument).signal_inlets }
    requires outlets { 0 < length outs.old }
    ensures { record { state = state.now; outs = outs.new } ≡ operation_row operation argument state.now ins.now outs.old }
{
    if let State::SignalOperation { right, .. } = state {
        match argument {
            Some(_) => operate_by(operation, &ins[0], Sig::of_num(*right), &mut outs[0]),
            None => operate(operation, &ins[0], &ins[1], &mut outs[0]),
        }
    }
}

/// `abs~` `wrap~`
pub(crate) fn run_function(
    function: SignalFunction,
    state: &State,
    ins: &[[Sig; 64]],
    outs: &mut [[Sig; 64]],
)
    requires inlets { 0 < length ins.now }
    requires outlets { 0 < length outs.old }
    ensures { record { state = state.now; outs = outs.new } ≡ function_row function state.now ins.now outs.old }
{
    if let State::SignalFunction { .. } = state {
        match function {
            SignalFunction::Magnitude => magnitudes(&ins[0], &mut outs[0]),
            SignalFunction::Wrap => wrap_all(&ins[0], &mut outs[0]),
        }
    }
}

/// `clip~`
pub(crate) fn run_clip(state: &State, ins: &[[Sig; 64]], outs: &mut [[Sig; 64]])
    requires inlets { 0 < length ins.now }
    requires outlets { 0 < length outs.old }
    ensures { record { state = state.now; outs = outs.new } ≡ clip_row state.now ins.now outs.old }
{
    if let State::SignalClip { low, high, .. } = state {
        clip_all(Sig::of_num(*low), Sig::of_num(*high), &ins[0], &mut outs[0]);
    }
}
