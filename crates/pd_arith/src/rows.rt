//! What an arithmetic box does with a message.

ghost use Rattle.std.specs.Prelude.{◌≡◌, pos, unsigned_abs};
ghost use Rattle.pd_kind.specs.Fit.{IsLike};
ghost use Rattle.pd_kind.specs.Said.{said_by};
ghost use Rattle.pd_arith.specs.Rows.{clipped, clip_hot, clip_cold, clip_row, function_of, function_heard, function_row, arith_row, heard};

use crate::frequencies::frequency;
use crate::pairs::{Binary, hear_pair};
use pd_atom::{Atom, Sym, Symbols};
use pd_kind::{
    Arith, Around, Function, Kind, Message, Row, Sends, Sort, State, first_sort, sort_of, stored,
    told,
};
use pd_num::Num;

fn clip(low: Num, high: Num, number: Num) -> Num
    ensures { result ≡ clipped low high number }
{
    if number.micros() < low.micros() {
        low
    } else if high.micros() < number.micros() {
        high
    } else {
        number
    }
}

/// A message at inlet 0 of a `clip`.
fn hear_clipped(low: Num, high: Num, selector: Sym, sort: &Sort, out: &mut Sends)
    ensures { said_by out.new ≡ clip_hot low high selector sort.now }
{
    match sort {
        Sort::Float(number) => out.say_number(0, clip(low, high, *number)),
        _ => out.refuse(Row::Clip, told(sort, selector)),
    }
}

/// A message at inlet 1 or 2 of a `clip`.
fn hear_limit(
    low: &mut Num,
    high: &mut Num,
    inlet: u32,
    selector: Sym,
    sort: &Sort,
    out: &mut Sends,
)
    ensures { record { left = low.new; right = high.new; said = said_by out.new } ≡ clip_cold low.old high.old inlet selector sort.now }
{
    match sort {
        Sort::Float(number) => {
            if inlet == 1 {
                *low = *number;
            } else {
                *high = *number;
            }
            out.say_nothing();
        }
        _ => out.refuse(Row::Clip, selector),
    }
}

/// A message at an inlet of a `clip`.
fn hear_clip(
    low: &mut Num,
    high: &mut Num,
    inlet: u32,
    selector: Sym,
    atoms: &[Atom],
    out: &mut Sends,
)
    ensures { record { left = low.new; right = high.new; said = said_by out.new } ≡ clip_row low.old high.old inlet selector atoms.now }
{
    let sort = sort_of(selector, atoms);
    if inlet == 0 {
        let lower = stored(&sort, atoms, 1, *low);
        let upper = stored(&sort, atoms, 2, *high);
        *low = lower;
        *high = upper;
        let first = first_sort(&sort, atoms);
        hear_clipped(lower, upper, selector, &first, out);
    } else {
        hear_limit(low, high, inlet, selector, &sort, out);
    }
}

fn apply(function: Function, number: Num) -> Num
    ensures { result ≡ function_of function number }
{
    match function {
        Function::Magnitude => magnitude(number),
        Function::Frequency => frequency(number),
    }
}

fn magnitude(number: Num) -> Num
    ensures { result ≡ pos (unsigned_abs number) }
{
    match Num::of_micros(number.micros().abs()) {
        Some(number) => number,
        None => unreachable!(),
    }
}

/// A message at the inlet of `abs` or `mtof`.
fn hear_function(function: Function, selector: Sym, atoms: &[Atom], out: &mut Sends)
    ensures { said_by out.new ≡ function_row function selector atoms.now }
{
    let sort = first_sort(&sort_of(selector, atoms), atoms);
    match &sort {
        Sort::Float(number) => out.say_number(0, apply(function, *number)),
        _ => out.refuse(Row::Function, told(&sort, selector)),
    }
}

/// What an arithmetic box does with a message at an inlet.
fn hear_arith(
    arith: &Arith,
    state: &mut State,
    inlet: u32,
    selector: Sym,
    atoms: &[Atom],
    out: &mut Sends,
)
    ensures heard { record { state = state.new; said = said_by out.new } ≡ arith_row arith.now state.old inlet selector atoms.now }
    ensures kept { IsLike state.old state.new }
{
    match (arith, state) {
        (Arith::Operation { operation, .. }, State::Operation { left, right }) => {
            hear_pair(
                Binary::Operation(*operation),
                left,
                right,
                inlet,
                selector,
                atoms,
                out,
            );
        }
        (Arith::Comparison { comparison, .. }, State::Comparison { left, right }) => {
            hear_pair(
                Binary::Comparison(*comparison),
                left,
                right,
                inlet,
                selector,
                atoms,
                out,
            );
        }
        (Arith::Division { division, .. }, State::Division { left, right }) => {
            hear_pair(
                Binary::Division(*division),
                left,
                right,
                inlet,
                selector,
                atoms,
                out,
            );
        }
        (Arith::Clip { .. }, State::Clip { low, high }) => {
            hear_clip(low, high, inlet, selector, atoms, out);
        }
        (Arith::Function { function }, _) => hear_function(*function, selector, atoms, out),
        _ => out.say_nothing(),
    }
}

/// What an arithmetic box that keeps `state` does with a message at an inlet: the state after it, and in `out` what is
/// said. A list at inlet 0 is spread: its atoms 1 and on are stored in inlets 1 and on where they are numbers, and its atom 0 is
/// heard. It changes no name, and looks at nothing around.
#[tactic(auto, unfolding(crate::specs::Rows::heard))]
pub fn hear(
    kind: &Kind,
    state: &mut State,
    inlet: u32,
    message: Message,
    symbols: &mut Symbols,
    around: &Around,
    out: &mut Sends,
)
    ensures heard { record { state = state.new; said = said_by out.new } ≡ heard kind.now state.old inlet message.entry.selector message.entry.atoms.now }
    ensures kept { IsLike state.old state.new }
    ensures names { symbols.new ≡ symbols.old }
{
    let selector = message.selector;
    let atoms = message.atoms;
    let _names = &symbols;
    let _around = around;
    match kind {
        Kind::Arith(arith) => hear_arith(arith, state, inlet, selector, atoms, out),
        _ => out.say_nothing(),
    }
}
