//! Number and symbol boxes.

ghost use Rattle.std.specs.Prelude.{◌≡◌, ◌<◌, ◌≤◌, length, [], ◌∷◌, slice_get};
ghost use Rattle.std.specs.List.{All};
ghost use Rattle.pd_atom.specs.Atoms.{IsOf};
ghost use Rattle.pd_atom.specs.declared.Atom.TheVariants as atom;
ghost use Rattle.pd_kind.specs.Said.{said_by};
ghost use Rattle.pd_kind.specs.declared.states.State.TheVariants.{FloatBox, SymbolBox};
ghost use Rattle.pd_plain.specs.Values.{leaves, shown, box_send_name as box_send_name_of, float_box_set, float_box_other, float_box_hot, float_box_row, symbol_box_set, symbol_box_other, symbol_box_hot, symbol_box_row};

use crate::values::is_called;
use pd_atom::{Atom, Sym, Symbols};
use pd_kind::{Row, Sends, Sort, Target, argument_name_at, first_sort, sort_of, told};
use pd_num::Num;

/// The place of the send name among the arguments of a number or symbol box.
const SEND_NAME: usize = 6;

/// The send name of a number or symbol box; `-` is no name.
fn box_send_name(symbols: &Symbols, text: &[Atom]) -> Option<Sym>
    requires { All (IsOf symbols.now) text.now }
    ensures { result ≡ box_send_name_of symbols.now text.now }
{
    match argument_name_at(text, SEND_NAME) {
        Some(name) if !is_called(symbols, name, b"-") => Some(name),
        _ => None,
    }
}

/// Says one atom to outlet 0 and then to a name, where there is one.
fn show(name: Option<Sym>, selector: Sym, atom: Atom, out: &mut Sends)
    ensures { said_by out.new ≡ shown name selector (atom ∷ []) }
{
    let atoms = [atom];
    out.clear();
    out.send(Target::Outlet(0), selector, &atoms);
    if let Some(name) = name {
        out.send(Target::Name { name, loud: false }, selector, &atoms);
    }
}

fn set_float_box(value: &mut Num, selector: Sym, atoms: &[Atom], out: &mut Sends)
    ensures { leaves (FloatBox value.new) (said_by out.new) ≡ float_box_set value.old selector (slice_get atoms.now 0) }
{
    match atoms.first() {
        Some(Atom::Number(number)) => {
            *value = *number;
            out.say_nothing();
        }
        _ => out.refuse(Row::FloatBox, selector),
    }
}

fn other_float_box(
    symbols: &Symbols,
    value: &mut Num,
    selector: Sym,
    atoms: &[Atom],
    out: &mut Sends,
)
    requires { selector < length symbols.now }
    ensures { leaves (FloatBox value.new) (said_by out.new) ≡ float_box_other symbols.now value.old selector atoms.now }
{
    if is_called(symbols, selector, b"set") {
        set_float_box(value, selector, atoms, out);
    } else {
        out.refuse(Row::FloatBox, selector);
    }
}

/// A number box of this text.
pub(crate) fn hear_float_box(
    symbols: &Symbols,
    text: &[Atom],
    value: &mut Num,
    selector: Sym,
    atoms: &[Atom],
    out: &mut Sends,
)
    requires selector { selector < length symbols.now }
    requires text { All (IsOf symbols.now) text.now }
    ensures { leaves (FloatBox value.new) (said_by out.new) ≡ float_box_row symbols.now (box_send_name_of symbols.now text.now) value.old selector atoms.now }
{
    let name = box_send_name(symbols, text);
    let sort = first_sort(&sort_of(selector, atoms), atoms);
    match &sort {
        Sort::Float(number) => {
            *value = *number;
            show(name, Sym::float(), Atom::Number(*number), out);
        }
        Sort::Bang => show(name, Sym::float(), Atom::Number(*value), out),
        Sort::Other => other_float_box(symbols, value, selector, atoms, out),
        _ => out.refuse(Row::FloatBox, told(&sort, selector)),
    }
}

fn set_symbol_box(value: &mut Sym, selector: Sym, atoms: &[Atom], out: &mut Sends)
    ensures { leaves (SymbolBox value.new) (said_by out.new) ≡ symbol_box_set value.old selector (slice_get atoms.now 0) }
{
    match atoms.first() {
        Some(Atom::Symbol(symbol)) => {
            *value = *symbol;
            out.say_nothing();
        }
        _ => out.refuse(Row::SymbolBox, selector),
    }
}

fn other_symbol_box(
    symbols: &Symbols,
    value: &mut Sym,
    selector: Sym,
    atoms: &[Atom],
    out: &mut Sends,
)
    requires { selector < length symbols.now }
    ensures { leaves (SymbolBox value.new) (said_by out.new) ≡ symbol_box_other symbols.now value.old selector atoms.now }
{
    if is_called(symbols, selector, b"set") {
        set_symbol_box(value, selector, atoms, out);
    } else {
        out.refuse(Row::SymbolBox, selector);
    }
}

/// A symbol box of this text.
pub(crate) fn hear_symbol_box(
    symbols: &Symbols,
    text: &[Atom],
    value: &mut Sym,
    selector: Sym,
    atoms: &[Atom],
    out: &mut Sends,
)
    requires selector { selector < length symbols.now }
    requires text { All (IsOf symbols.now) text.now }
    ensures { leaves (SymbolBox value.new) (said_by out.new) ≡ symbol_box_row symbols.now (box_send_name_of symbols.now text.now) value.old selector atoms.now }
{
    let name = box_send_name(symbols, text);
    let sort = first_sort(&sort_of(selector, atoms), atoms);
    match &sort {
        Sort::Symbol(symbol) => {
            *value = *symbol;
            show(name, Sym::symbol(), Atom::Symbol(*symbol), out);
        }
        Sort::Bang => show(name, Sym::symbol(), Atom::Symbol(*value), out),
        Sort::Other => other_symbol_box(symbols, value, selector, atoms, out),
        _ => out.refuse(Row::SymbolBox, told(&sort, selector)),
    }
}
