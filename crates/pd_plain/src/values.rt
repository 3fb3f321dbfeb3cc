//! The objects that keep a value.

ghost use Rattle.std.specs.Prelude.{◌≡◌, ◌<◌, ◌≤◌, length, slice_get};
ghost use Rattle.pd_atom.specs.Names.{name_of};
ghost use Rattle.pd_kind.specs.Said.{said_by, sends_only, send_to};
ghost use Rattle.pd_kind.specs.declared.states.State.TheVariants.{Float, Int, Symbol, Moses, Spigot, Swap, Change, Send};
ghost use Rattle.pd_plain.specs.Values.{leaves, is_called as is_called_so, float_hot, float_cold, float_row, int_hot, int_cold, int_row, symbol_hot, symbol_cold, symbol_row, moses_outlet as moses_outlet_of, moses_hot, moses_cold, moses_row, spigot_cold, spigot_row, swapped, swap_hot, swap_cold, swap_row, changed, change_set, change_other, change_hot, change_row, passed, to_name, send_cold, send_row};

use pd_atom::{Atom, Sym, Symbols};
use pd_kind::{Row, Sends, Sort, Target, first_sort, sort_of, stored, told};
use pd_num::Num;

/// Whether a selector's name is the word.
pub(crate) fn is_called(symbols: &Symbols, selector: Sym, word: &[u8]) -> bool
    requires { selector < length symbols.now }
    ensures { result ≡ is_called_so symbols.now selector word.now }
{
    symbols.name(selector) == word
}

/// Says the message as it is to an outlet, and nothing else.
pub(crate) fn pass(outlet: u32, selector: Sym, atoms: &[Atom], out: &mut Sends)
    requires { length atoms.now ≤ 1024 }
    ensures { said_by out.new ≡ passed outlet selector atoms.now }
{
    out.clear();
    out.send(Target::Outlet(outlet), selector, atoms);
}

fn float_left(value: &mut Num, selector: Sym, sort: &Sort, out: &mut Sends)
    ensures { leaves (Float value.new) (said_by out.new) ≡ float_hot value.old selector sort.now }
{
    match sort {
        Sort::Float(number) => {
            *value = *number;
            out.say_number(0, *number);
        }
        Sort::Bang => out.say_number(0, *value),
        _ => out.refuse(Row::Float, told(sort, selector)),
    }
}

fn float_right(value: &mut Num, selector: Sym, sort: &Sort, out: &mut Sends)
    ensures { leaves (Float value.new) (said_by out.new) ≡ float_cold value.old selector sort.now }
{
    match sort {
        Sort::Float(number) => {
            *value = *number;
            out.say_nothing();
        }
        _ => out.refuse(Row::Float, selector),
    }
}

/// `float`
pub(crate) fn hear_float(
    value: &mut Num,
    inlet: u32,
    selector: Sym,
    atoms: &[Atom],
    out: &mut Sends,
)
    ensures { leaves (Float value.new) (said_by out.new) ≡ float_row value.old inlet selector atoms.now }
{
    let sort = sort_of(selector, atoms);
    if inlet == 0 {
        let kept = stored(&sort, atoms, 1, *value);
        *value = kept;
        float_left(value, selector, &first_sort(&sort, atoms), out);
    } else {
        float_right(value, selector, &sort, out);
    }
}

fn int_left(value: &mut Num, selector: Sym, sort: &Sort, out: &mut Sends)
    ensures { leaves (Int value.new) (said_by out.new) ≡ int_hot value.old selector sort.now }
{
    match sort {
        Sort::Float(number) => {
            let whole = number.trunc();
            *value = whole;
            out.say_number(0, whole);
        }
        Sort::Bang => out.say_number(0, *value),
        _ => out.refuse(Row::Int, told(sort, selector)),
    }
}

fn int_right(value: &mut Num, selector: Sym, sort: &Sort, out: &mut Sends)
    ensures { leaves (Int value.new) (said_by out.new) ≡ int_cold value.old selector sort.now }
{
    match sort {
        Sort::Float(number) => {
            *value = number.trunc();
            out.say_nothing();
        }
        _ => out.refuse(Row::Int, selector),
    }
}

/// `int`
pub(crate) fn hear_int(value: &mut Num, inlet: u32, selector: Sym, atoms: &[Atom], out: &mut Sends)
    ensures { leaves (Int value.new) (said_by out.new) ≡ int_row value.old inlet selector atoms.now }
{
    let sort = sort_of(selector, atoms);
    if inlet == 0 {
        let kept = stored(&sort, atoms, 1, *value);
        *value = kept.trunc();
        int_left(value, selector, &first_sort(&sort, atoms), out);
    } else {
        int_right(value, selector, &sort, out);
    }
}

fn symbol_left(value: &mut Sym, selector: Sym, sort: &Sort, out: &mut Sends)
    ensures { leaves (Symbol value.new) (said_by out.new) ≡ symbol_hot value.old selector sort.now }
{
    match sort {
        Sort::Symbol(symbol) => {
            *value = *symbol;
            out.say_symbol(0, *symbol);
        }
        Sort::Bang => out.say_symbol(0, *value),
        _ => out.refuse(Row::Symbol, told(sort, selector)),
    }
}

fn symbol_right(value: &mut Sym, selector: Sym, sort: &Sort, out: &mut Sends)
    ensures { leaves (Symbol value.new) (said_by out.new) ≡ symbol_cold value.old selector sort.now }
{
    match sort {
        Sort::Symbol(symbol) => {
            *value = *symbol;
            out.say_nothing();
        }
        _ => out.refuse(Row::Symbol, selector),
    }
}

/// `symbol`
pub(crate) fn hear_symbol(
    value: &mut Sym,
    inlet: u32,
    selector: Sym,
    atoms: &[Atom],
    out: &mut Sends,
)
    ensures { leaves (Symbol value.new) (said_by out.new) ≡ symbol_row value.old inlet selector atoms.now }
{
    let sort = sort_of(selector, atoms);
    if inlet == 0 {
        symbol_left(value, selector, &first_sort(&sort, atoms), out);
    } else {
        symbol_right(value, selector, &sort, out);
    }
}

fn moses_outlet(bound: Num, number: Num) -> u32
    ensures { result ≡ moses_outlet_of bound number }
{
    if number.micros() < bound.micros() {
        0
    } else {
        1
    }
}

fn moses_left(bound: Num, selector: Sym, sort: &Sort, out: &mut Sends)
    ensures { leaves (Moses bound) (said_by out.new) ≡ moses_hot bound selector sort.now }
{
    match sort {
        Sort::Float(number) => out.say_number(moses_outlet(bound, *number), *number),
        _ => out.refuse(Row::Moses, told(sort, selector)),
    }
}

fn moses_right(bound: &mut Num, selector: Sym, sort: &Sort, out: &mut Sends)
    ensures { leaves (Moses bound.new) (said_by out.new) ≡ moses_cold bound.old selector sort.now }
{
    match sort {
        Sort::Float(number) => {
            *bound = *number;
            out.say_nothing();
        }
        _ => out.refuse(Row::Moses, selector),
    }
}

/// `moses`
pub(crate) fn hear_moses(
    bound: &mut Num,
    inlet: u32,
    selector: Sym,
    atoms: &[Atom],
    out: &mut Sends,
)
    ensures { leaves (Moses bound.new) (said_by out.new) ≡ moses_row bound.old inlet selector atoms.now }
{
    let sort = sort_of(selector, atoms);
    if inlet == 0 {
        let kept = stored(&sort, atoms, 1, *bound);
        *bound = kept;
        moses_left(kept, selector, &first_sort(&sort, atoms), out);
    } else {
        moses_right(bound, selector, &sort, out);
    }
}

fn spigot_right(gate: &mut Num, selector: Sym, sort: &Sort, out: &mut Sends)
    ensures { leaves (Spigot gate.new) (said_by out.new) ≡ spigot_cold gate.old selector sort.now }
{
    match sort {
        Sort::Float(number) => {
            *gate = *number;
            out.say_nothing();
        }
        _ => out.refuse(Row::Spigot, selector),
    }
}

/// `spigot`
pub(crate) fn hear_spigot(
    gate: &mut Num,
    inlet: u32,
    selector: Sym,
    atoms: &[Atom],
    out: &mut Sends,
)
    requires { length atoms.now ≤ 1024 }
    ensures { leaves (Spigot gate.new) (said_by out.new) ≡ spigot_row gate.old inlet selector atoms.now }
{
    if inlet != 0 {
        let sort = sort_of(selector, atoms);
        spigot_right(gate, selector, &sort, out);
    } else if gate.micros() == 0 {
        out.say_nothing();
    } else {
        pass(0, selector, atoms, out);
    }
}

fn swap_out(left: Num, right: Num, out: &mut Sends)
    ensures { leaves (Swap left right) (said_by out.new) ≡ swapped left right }
{
    out.clear();
    out.send(Target::Outlet(1), Sym::float(), &[Atom::Number(left)]);
    out.send(Target::Outlet(0), Sym::float(), &[Atom::Number(right)]);
}

fn swap_left(left: &mut Num, right: Num, selector: Sym, sort: &Sort, out: &mut Sends)
    ensures { leaves (Swap left.new right) (said_by out.new) ≡ swap_hot left.old right selector sort.now }
{
    match sort {
        Sort::Float(number) => {
            *left = *number;
            swap_out(*number, right, out);
        }
        Sort::Bang => swap_out(*left, right, out),
        _ => out.refuse(Row::Swap, told(sort, selector)),
    }
}

fn swap_right(left: Num, right: &mut Num, selector: Sym, sort: &Sort, out: &mut Sends)
    ensures { leaves (Swap left right.new) (said_by out.new) ≡ swap_cold left right.old selector sort.now }
{
    match sort {
        Sort::Float(number) => {
            *right = *number;
            out.say_nothing();
        }
        _ => out.refuse(Row::Swap, selector),
    }
}

/// `swap`
pub(crate) fn hear_swap(
    left: &mut Num,
    right: &mut Num,
    inlet: u32,
    selector: Sym,
    atoms: &[Atom],
    out: &mut Sends,
)
    ensures { leaves (Swap left.new right.new) (said_by out.new) ≡ swap_row left.old right.old inlet selector atoms.now }
{
    let sort = sort_of(selector, atoms);
    if inlet == 0 {
        let kept = stored(&sort, atoms, 1, *right);
        *right = kept;
        swap_left(left, kept, selector, &first_sort(&sort, atoms), out);
    } else {
        let left = *left;
        swap_right(left, right, selector, &sort, out);
    }
}

fn change_to(value: &mut Num, number: Num, out: &mut Sends)
    ensures { leaves (Change value.new) (said_by out.new) ≡ changed value.old number }
{
    if value.micros() == number.micros() {
        out.say_nothing();
    } else {
        *value = number;
        out.say_number(0, number);
    }
}

fn set_change(value: &mut Num, selector: Sym, atoms: &[Atom], out: &mut Sends)
    ensures { leaves (Change value.new) (said_by out.new) ≡ change_set value.old selector (slice_get atoms.now 0) }
{
    match atoms.first() {
        Some(Atom::Number(number)) => {
            *value = *number;
            out.say_nothing();
        }
        _ => out.refuse(Row::Change, selector),
    }
}

fn other_change(symbols: &Symbols, value: &mut Num, selector: Sym, atoms: &[Atom], out: &mut Sends)
    requires { selector < length symbols.now }
    ensures { leaves (Change value.new) (said_by out.new) ≡ change_other symbols.now value.old selector atoms.now }
{
    if is_called(symbols, selector, b"set") {
        set_change(value, selector, atoms, out);
    } else {
        out.refuse(Row::Change, selector);
    }
}

/// `change`
pub(crate) fn hear_change(
    symbols: &Symbols,
    value: &mut Num,
    selector: Sym,
    atoms: &[Atom],
    out: &mut Sends,
)
    requires { selector < length symbols.now }
    ensures { leaves (Change value.new) (said_by out.new) ≡ change_row symbols.now value.old selector atoms.now }
{
    let sort = first_sort(&sort_of(selector, atoms), atoms);
    match &sort {
        Sort::Float(number) => change_to(value, *number, out),
        Sort::Bang => out.say_number(0, *value),
        Sort::Other => other_change(symbols, value, selector, atoms, out),
        _ => out.refuse(Row::Change, told(&sort, selector)),
    }
}

/// Says the message to a name, where there is one.
fn send_on(name: Option<Sym>, selector: Sym, atoms: &[Atom], out: &mut Sends)
    requires { length atoms.now ≤ 1024 }
    ensures { said_by out.new ≡ sends_only (to_name name selector atoms.now) }
{
    out.clear();
    if let Some(name) = name {
        out.send(Target::Name { name, loud: false }, selector, atoms);
    }
}

fn send_right(name: &mut Option<Sym>, selector: Sym, sort: &Sort, out: &mut Sends)
    ensures { leaves (Send name.new) (said_by out.new) ≡ send_cold name.old selector sort.now }
{
    match sort {
        Sort::Symbol(symbol) => {
            *name = Some(*symbol);
            out.say_nothing();
        }
        _ => out.refuse(Row::Send, selector),
    }
}

/// `send`
pub(crate) fn hear_send(
    name: &mut Option<Sym>,
    inlet: u32,
    selector: Sym,
    atoms: &[Atom],
    out: &mut Sends,
)
    requires { length atoms.now ≤ 1024 }
    ensures { leaves (Send name.new) (said_by out.new) ≡ send_row name.old inlet selector atoms.now }
{
    if inlet == 0 {
        let name = *name;
        send_on(name, selector, atoms, out);
    } else {
        let sort = sort_of(selector, atoms);
        send_right(name, selector, &sort, out);
    }
}
