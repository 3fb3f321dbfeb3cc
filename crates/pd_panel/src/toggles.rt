//! `tgl`, and what both objects send.

ghost use Rattle.std.specs.Prelude.{◌≡◌, ◌<◌, length, slice_get};
ghost use Rattle.pd_kind.specs.Said.{said_by};
ghost use Rattle.pd_kind.specs.declared.states.State.TheVariants as state;
ghost use Rattle.pd_panel.specs.Rows.{leaves, is_called as is_called_so, is_zero as is_zero_so, bang_shown, number_shown, flipped as flipped_of, toggle_set, toggle_nonzero, toggle_other, toggle_hot, toggle_row};

use pd_atom::{Atom, Sym, Symbols};
use pd_kind::{Row, Sends, Sort, Target, first_sort, sort_of, told};
use pd_num::Num;

/// Whether a selector's name is the word.
fn is_called(symbols: &Symbols, selector: Sym, word: &[u8]) -> bool
    requires { selector < length symbols.now }
    ensures { result ≡ is_called_so symbols.now selector word.now }
{
    symbols.name(selector) == word
}

pub(crate) fn is_zero(number: Num) -> bool
    ensures { result ≡ is_zero_so number }
{
    number.micros() == 0
}

/// Says a bang to outlet 0 and then to a name, where there is one.
pub(crate) fn show_bang(name: Option<Sym>, out: &mut Sends)
    ensures { said_by out.new ≡ bang_shown name }
{
    out.clear();
    out.send(Target::Outlet(0), Sym::bang(), &[]);
    if let Some(name) = name {
        out.send(Target::Name { name, loud: false }, Sym::bang(), &[]);
    }
}

/// Says a number to outlet 0 and then to a name, where there is one.
pub(crate) fn show_number(name: Option<Sym>, number: Num, out: &mut Sends)
    ensures { said_by out.new ≡ number_shown name number }
{
    out.clear();
    out.send(Target::Outlet(0), Sym::float(), &[Atom::Number(number)]);
    if let Some(name) = name {
        out.send(
            Target::Name { name, loud: false },
            Sym::float(),
            &[Atom::Number(number)],
        );
    }
}

fn flipped(value: Num, other: Num) -> Num
    ensures { result ≡ flipped_of value other }
{
    if is_zero(value) {
        other
    } else {
        Num::default()
    }
}

fn set_value(
    value: &mut Num,
    other: Num,
    saved: bool,
    selector: Sym,
    atoms: &[Atom],
    out: &mut Sends,
)
    ensures { leaves (state.Toggle value.new other saved) (said_by out.new) ≡ toggle_set value.old other saved selector (slice_get atoms.now 0) }
{
    match atoms.first() {
        Some(Atom::Number(number)) => {
            *value = *number;
            out.say_nothing();
        }
        _ => out.refuse(Row::Toggle, selector),
    }
}

fn set_other(
    value: Num,
    other: &mut Num,
    saved: bool,
    selector: Sym,
    atoms: &[Atom],
    out: &mut Sends,
)
    ensures { leaves (state.Toggle value other.new saved) (said_by out.new) ≡ toggle_nonzero value other.old saved selector (slice_get atoms.now 0) }
{
    match atoms.first() {
        Some(Atom::Number(number)) => {
            if !is_zero(*number) {
                *other = *number;
            }
            out.say_nothing();
        }
        _ => out.refuse(Row::Toggle, selector),
    }
}

fn hear_other(
    symbols: &Symbols,
    value: &mut Num,
    other: &mut Num,
    saved: bool,
    selector: Sym,
    atoms: &[Atom],
    out: &mut Sends,
)
    requires { selector < length symbols.now }
    ensures { leaves (state.Toggle value.new other.new saved) (said_by out.new) ≡ toggle_other symbols.now value.old other.old saved selector atoms.now }
{
    if is_called(symbols, selector, b"set") {
        let other = *other;
        set_value(value, other, saved, selector, atoms, out);
    } else if is_called(symbols, selector, b"nonzero") {
        let value = *value;
        set_other(value, other, saved, selector, atoms, out);
    } else {
        out.refuse(Row::Toggle, selector);
    }
}

/// A message at a `tgl` with this send name. A list is heard as its first atom.
pub(crate) fn hear_toggle(
    symbols: &Symbols,
    name: Option<Sym>,
    value: &mut Num,
    other: &mut Num,
    saved: bool,
    selector: Sym,
    atoms: &[Atom],
    out: &mut Sends,
)
    requires { selector < length symbols.now }
    ensures { leaves (state.Toggle value.new other.new saved) (said_by out.new) ≡ toggle_row symbols.now name value.old other.old saved selector atoms.now }
{
    let sort = first_sort(&sort_of(selector, atoms), atoms);
    match &sort {
        Sort::Float(number) => {
            *value = *number;
            show_number(name, *number, out);
        }
        Sort::Bang => {
            let turned = flipped(*value, *other);
            *value = turned;
            show_number(name, turned, out);
        }
        Sort::Other => hear_other(symbols, value, other, saved, selector, atoms, out),
        _ => out.refuse(Row::Toggle, told(&sort, selector)),
    }
}
