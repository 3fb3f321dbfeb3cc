//! What a `vline~` does with a message.

ghost use Rattle.std.specs.Prelude.{◌≡◌, ℕ, ◌<◌, ◌≤◌, ◌^◌, length, List, bytes_eq};
ghost use Rattle.pd_kind.specs.declared.states.Ramp.{Ramp};
ghost use Rattle.pd_kind.specs.Books.{IsShort};
ghost use Rattle.pd_kind.specs.Said.{said_by};
ghost use Rattle.pd_vline.specs.Ramps.{IsStanding};
ghost use Rattle.pd_vline.specs.Rows.{leaves, refused, with_ramp, float_heard, other_heard, hot, cold, vline_row, heard, heard_list, IsOpen};

use crate::passing::value_at;
use crate::stores::{float_ramp, spread, staying, stop_ramp, store, zero};
use pd_atom::{Atom, Sym, Symbols};
use pd_clock::Time;
use pd_kind::{
    Around, Kind, Message, Notice, Ramp, RampBook, Row, Sends, SignalRow, Sort, State, first_sort,
    sort_of,
};
use pd_num::Num;

/// The row's objects have no method for the selector.
fn refuse(selector: Sym, book: &RampBook, out: &mut Sends)
    ensures { leaves book.now (said_by out.new) ≡ refused book.now selector }
{
    out.refuse(Row::Sounding(SignalRow::Vline), selector);
}

/// Adds a ramp where there is room for it.
fn add(book: &mut RampBook, ramp: Ramp, out: &mut Sends)
    requires { IsShort ramp }
    ensures { leaves book.new (said_by out.new) ≡ with_ramp book.old ramp }
{
    let kept = staying(&ramp, book.ramps().ramps.as_slice());
    if kept < 256 {
        book.add(kept, ramp);
        out.say_nothing();
    } else {
        out.clear();
        out.note(Notice::TooManyRamps);
    }
}

/// A number makes a ramp.
fn hear_float(book: &mut RampBook, now: Time, number: Num, out: &mut Sends)
    requires { now ≤ 2 ^ 101 }
    ensures { leaves book.new (said_by out.new) ≡ float_heard book.old now number }
{
    let ramp = float_ramp(book.ramps(), now, number);
    book.store(zero(), zero());
    add(book, ramp, out);
}

/// Whether the bytes are a word.
fn is_word(bytes: &[u8], word: &[u8]) -> bool
    ensures { result ≡ bytes_eq bytes.now word.now }
{
    bytes == word
}

/// A message of another selector: `stop`, or none that is heard.
fn hear_other(symbols: &Symbols, book: &mut RampBook, now: Time, selector: Sym, out: &mut Sends)
    requires selector { selector < length symbols.now }
    requires early { now ≤ 2 ^ 101 }
    ensures { leaves book.new (said_by out.new) ≡ other_heard symbols.now now book.old selector }
{
    if is_word(symbols.name(selector), b"stop") {
        let value = value_at(book.ramps(), now);
        add(book, stop_ramp(now, value), out);
    } else {
        refuse(selector, book, out);
    }
}

/// A message at inlet 0, once a list is spread.
fn hear_first(
    symbols: &Symbols,
    book: &mut RampBook,
    now: Time,
    selector: Sym,
    sort: &Sort,
    out: &mut Sends,
)
    requires selector { selector < length symbols.now }
    requires early { now ≤ 2 ^ 101 }
    ensures { leaves book.new (said_by out.new) ≡ hot symbols.now now book.old selector sort.now }
{
    match sort {
        Sort::Float(number) => hear_float(book, now, *number, out),
        Sort::Bang => refuse(selector, book, out),
        Sort::Symbol(_) => refuse(Sym::symbol(), book, out),
        Sort::List | Sort::Other => hear_other(symbols, book, now, selector, out),
    }
}

/// A message at another inlet.
fn hear_later(book: &mut RampBook, inlet: u32, selector: Sym, sort: &Sort, out: &mut Sends)
    ensures { leaves book.new (said_by out.new) ≡ cold book.old inlet selector sort.now }
{
    match sort {
        Sort::Float(number) => {
            store(book, inlet, *number);
            out.say_nothing();
        }
        _ => refuse(selector, book, out),
    }
}

#[tactic(auto, unfolding(crate::specs::Rows::vline_row))]
fn hear_book(
    symbols: &Symbols,
    book: &mut RampBook,
    now: Time,
    inlet: u32,
    selector: Sym,
    atoms: &[Atom],
    out: &mut Sends,
)
    requires selector { selector < length symbols.now }
    requires early { now ≤ 2 ^ 101 }
    ensures { leaves book.new (said_by out.new) ≡ vline_row symbols.now now book.old inlet selector atoms.now }
{
    let sort = sort_of(selector, atoms);
    if inlet == 0 {
        spread(&sort, book, atoms);
        let first = first_sort(&sort, atoms);
        hear_first(symbols, book, now, selector, &first, out);
    } else {
        hear_later(book, inlet, selector, &sort, out);
    }
}

/// A message at a box of a kind.
fn hear_state(
    kind: &Kind,
    state: &mut State,
    inlet: u32,
    selector: Sym,
    atoms: &[Atom],
    symbols: &Symbols,
    now: Time,
    out: &mut Sends,
)
    requires selector { selector < length symbols.now }
    requires early { now ≤ 2 ^ 101 }
    ensures { record { state = state.new; said = said_by out.new } ≡ heard symbols.now now kind.now state.old inlet selector atoms.now }
{
    match (kind, state) {
        (Kind::Vline, State::Vline(book)) => {
            hear_book(symbols, book, now, inlet, selector, atoms, out);
        }
        _ => out.say_nothing(),
    }
}

/// What a `vline~` does with a message at an inlet: the state after it, and in `out` what is said. `around.now` is no earlier than the
/// end of the last block that the box ran. Other boxes hear nothing. It takes no memory.
pub fn hear(
    kind: &Kind,
    state: &mut State,
    inlet: u32,
    message: Message,
    symbols: &mut Symbols,
    around: &Around,
    out: &mut Sends,
)
    requires selector { message.selector < length symbols.old }
    requires early { around.now.now ≤ 2 ^ 101 }
    requires open { IsOpen around.now.now state.old }
    ensures heard { record { state = state.new; said = said_by out.new } ≡ heard symbols.old around.entry.now.now kind.now state.old inlet message.entry.selector message.entry.atoms.now }
    ensures names { symbols.new ≡ symbols.old }
    ensures stands { (l : List Ramp) → IsStanding state.old l → IsStanding state.new (heard_list symbols.old around.entry.now.now kind.now state.old inlet message.entry.selector message.entry.atoms.now l) }
{
    let now = around.now;
    hear_state(
        kind,
        state,
        inlet,
        message.selector,
        message.atoms,
        symbols,
        now,
        out,
    );
}
