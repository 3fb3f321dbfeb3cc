//! What a signal object does with a message.

ghost use Rattle.std.specs.Prelude.{◌≡◌, ◌<◌, length, bytes_eq};
ghost use Rattle.pd_kind.specs.Fit.{IsLike};
ghost use Rattle.pd_kind.specs.Said.{said_by};
ghost use Rattle.pd_held.specs.Rows.{leaves, spread as spread_over, hears_numbers as hears_numbers_so, bang_heard, other_heard, hot, cold, sounding_row};

use crate::slopes::hold_slope;
use crate::stores::{store, store_list};
use pd_atom::{Atom, Sym, Symbols};
use pd_kind::{Row, Sends, SignalRow, Sort, State, first_sort, sort_of};

fn hears_numbers(row: SignalRow) -> bool
    ensures { result ≡ hears_numbers_so row }
{
    !matches!(row, SignalRow::Noise | SignalRow::SignalReceive)
}

/// The atoms of a list behind the first are stored.
fn spread(sort: &Sort, state: &mut State, atoms: &[Atom])
    ensures spread { state.new ≡ spread_over sort.now state.old atoms.now }
    ensures kept { IsLike state.old state.new }
{
    if let Sort::List = sort {
        store_list(state, atoms);
    }
}

/// A bang at inlet 0.
fn hear_bang(row: SignalRow, state: &State, selector: Sym, out: &mut Sends)
    ensures { said_by out.new ≡ bang_heard row state.now selector }
{
    match state {
        State::Snapshot { last, .. } => out.say_number(0, last.to_num()),
        _ => out.refuse(Row::Sounding(row), selector),
    }
}

/// Whether the bytes are a word.
fn is_word(bytes: &[u8], word: &[u8]) -> bool
    ensures { result ≡ bytes_eq bytes.now word.now }
{
    bytes == word
}

/// A message of another selector at inlet 0.
fn hear_other(symbols: &Symbols, row: SignalRow, state: &mut State, selector: Sym, out: &mut Sends)
    requires { selector < length symbols.now }
    ensures heard { leaves state.new (said_by out.new) ≡ other_heard symbols.now row state.old selector }
    ensures kept { IsLike state.old state.new }
{
    let is_stop = is_word(symbols.name(selector), b"stop");
    match state {
        State::Line(slope) if is_stop => {
            hold_slope(slope);
            out.say_nothing();
        }
        _ => out.refuse(Row::Sounding(row), selector),
    }
}

/// A message at inlet 0, once a list is spread.
fn hear_first(
    symbols: &Symbols,
    row: SignalRow,
    state: &mut State,
    selector: Sym,
    sort: &Sort,
    out: &mut Sends,
)
    requires { selector < length symbols.now }
    ensures heard { leaves state.new (said_by out.new) ≡ hot symbols.now row state.old selector sort.now }
    ensures kept { IsLike state.old state.new }
{
    match sort {
        Sort::Float(number) if hears_numbers(row) => {
            store(state, 0, *number);
            out.say_nothing();
        }
        Sort::Float(_) => out.refuse(Row::Sounding(row), Sym::float()),
        Sort::Bang => hear_bang(row, state, selector, out),
        Sort::Symbol(_) => out.refuse(Row::Sounding(row), Sym::symbol()),
        Sort::List | Sort::Other => hear_other(symbols, row, state, selector, out),
    }
}

/// A message at another inlet.
fn hear_later(
    row: SignalRow,
    state: &mut State,
    inlet: u32,
    selector: Sym,
    sort: &Sort,
    out: &mut Sends,
)
    ensures heard { leaves state.new (said_by out.new) ≡ cold row state.old inlet selector sort.now }
    ensures kept { IsLike state.old state.new }
{
    match sort {
        Sort::Float(number) => {
            store(state, inlet as usize, *number);
            out.say_nothing();
        }
        _ => out.refuse(Row::Sounding(row), selector),
    }
}

/// What a signal object of a row that keeps `state` does with a message at an inlet.
#[tactic(auto, unfolding(crate::specs::Rows::sounding_row), using(crate::proofs::LikeLemmas::like_chain))]
pub fn hear_held(
    row: SignalRow,
    state: &mut State,
    inlet: u32,
    selector: Sym,
    atoms: &[Atom],
    symbols: &Symbols,
    out: &mut Sends,
)
    requires { selector < length symbols.now }
    ensures heard { record { state = state.new; said = said_by out.new } ≡ sounding_row symbols.now row state.old inlet selector atoms.now }
    ensures kept { IsLike state.old state.new }
{
    let sort = sort_of(selector, atoms);
    if inlet == 0 {
        spread(&sort, state, atoms);
        let first = first_sort(&sort, atoms);
        hear_first(symbols, row, state, selector, &first, out);
    } else {
        hear_later(row, state, inlet, selector, &sort, out);
    }
}
