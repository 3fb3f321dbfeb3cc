//! `route` and `select`.

ghost use Rattle.std.specs.Prelude.{◌≡◌, ◌≤◌, ◌∷◌, [], length};
ghost use Rattle.pd_kind.specs.Said.{said_by, sends_only};
ghost use Rattle.pd_kind.specs.Forming.{message_send};
ghost use Rattle.pd_kind.specs.declared.messages.Target.TheVariants.{Outlet};
ghost use Rattle.pd_list.specs.Choices.{Chosen, same_atom, place_of as place_of_atom, choice_cold, selected, select_hot, unchosen, routed_rest, route_by_number, route_numbers, routed_message, route_hot, route_row, select_row};

use crate::messages::{is_plain, pass};
use pd_atom::{Atom, Sym};
use pd_kind::{Items, Row, Sends, Sort, Target, sort_of};

/// Whether two atoms are of the same sort and value.
fn is_same(a: &Atom, b: &Atom) -> bool
    ensures { result ≡ same_atom a.now b.now }
{
    match (a, b) {
        (Atom::Number(a), Atom::Number(b)) => a.micros() == b.micros(),
        (Atom::Symbol(a), Atom::Symbol(b)) => a == b,
        _ => false,
    }
}

/// The place of the first of the arguments that is the atom.
fn place_of(atom: &Atom, arguments: &[Atom]) -> Option<u32>
    requires { length arguments.now ≤ 1024 }
    ensures { result ≡ place_of_atom atom.now arguments.now }
{
    for (i, argument) in arguments.iter().enumerate() {
        if is_same(atom, argument) {
            return Some(i as u32);
        }
    }
    None
}

/// A message at inlet 1.
fn hear_argument(row: Row, arguments: &mut Items<Atom>, selector: Sym, sort: &Sort, out: &mut Sends)
    ensures heard { record { arguments = arguments.new; said = said_by out.new } ≡ choice_cold row arguments.old selector sort.now }
    ensures length { length arguments.new ≡ length arguments.old }
{
    match (arguments.as_slice(), sort) {
        ([Atom::Number(_), ..], Sort::Float(number)) => {
            arguments.set(0, Atom::Number(*number));
            out.say_nothing();
        }
        ([Atom::Symbol(_), ..], Sort::Symbol(symbol)) => {
            arguments.set(0, Atom::Symbol(*symbol));
            out.say_nothing();
        }
        _ => out.refuse(row, selector),
    }
}

/// Says a message that no argument chooses to the last outlet.
fn pass_last(arguments: &[Atom], selector: Sym, atoms: &[Atom], out: &mut Sends)
    requires arguments { length arguments.now ≤ 1024 }
    requires short { length atoms.now ≤ 1024 }
    ensures { said_by out.new ≡ unchosen arguments.now selector atoms.now }
{
    pass(arguments.len() as u32, selector, atoms, out);
}

fn say_selected(
    place: Option<u32>,
    arguments: &[Atom],
    selector: Sym,
    atoms: &[Atom],
    out: &mut Sends,
)
    requires arguments { length arguments.now ≤ 1024 }
    requires short { length atoms.now ≤ 1024 }
    ensures { said_by out.new ≡ selected place arguments.now selector atoms.now }
{
    match place {
        Some(i) => out.say_bang(i),
        None => pass_last(arguments, selector, atoms, out),
    }
}

/// A message at inlet 0 of a `select`.
fn hear_selected(arguments: &[Atom], selector: Sym, atoms: &[Atom], sort: &Sort, out: &mut Sends)
    requires arguments { length arguments.now ≤ 1024 }
    requires short { length atoms.now ≤ 1024 }
    ensures { said_by out.new ≡ select_hot arguments.now selector atoms.now sort.now }
{
    match sort {
        Sort::Float(number) => {
            let place = place_of(&Atom::Number(*number), arguments);
            say_selected(place, arguments, selector, atoms, out);
        }
        Sort::Symbol(symbol) => {
            let place = place_of(&Atom::Symbol(*symbol), arguments);
            say_selected(place, arguments, selector, atoms, out);
        }
        _ => pass_last(arguments, selector, atoms, out),
    }
}

/// Says the message that atoms make to an outlet, and nothing else.
fn say_message(outlet: u32, atoms: &[Atom], out: &mut Sends)
    requires { length atoms.now ≤ 1024 }
    ensures { said_by out.new ≡ sends_only (message_send (Outlet outlet) atoms.now ∷ []) }
{
    out.clear();
    out.send_message(Target::Outlet(outlet), atoms);
}

fn say_rest(
    place: Option<u32>,
    arguments: &[Atom],
    selector: Sym,
    atoms: &[Atom],
    rest: &[Atom],
    out: &mut Sends,
)
    requires arguments { length arguments.now ≤ 1024 }
    requires short { length atoms.now ≤ 1024 }
    requires rest_short { length rest.now ≤ 1024 }
    ensures { said_by out.new ≡ routed_rest place arguments.now selector atoms.now rest.now }
{
    match place {
        Some(i) => say_message(i, rest, out),
        None => pass_last(arguments, selector, atoms, out),
    }
}

/// A float or a list where numbers choose.
fn choose_number(arguments: &[Atom], selector: Sym, atoms: &[Atom], out: &mut Sends)
    requires arguments { length arguments.now ≤ 1024 }
    requires short { length atoms.now ≤ 1024 }
    ensures { said_by out.new ≡ route_by_number arguments.now selector atoms.now }
{
    match atoms {
        [Atom::Number(number), rest @ ..] => {
            let place = place_of(&Atom::Number(*number), arguments);
            say_rest(place, arguments, selector, atoms, rest, out);
        }
        _ => pass_last(arguments, selector, atoms, out),
    }
}

/// A message where numbers choose.
fn hear_numbers(arguments: &[Atom], selector: Sym, atoms: &[Atom], sort: &Sort, out: &mut Sends)
    requires arguments { length arguments.now ≤ 1024 }
    requires short { length atoms.now ≤ 1024 }
    ensures { said_by out.new ≡ route_numbers arguments.now selector atoms.now sort.now }
{
    match sort {
        Sort::Float(_) | Sort::List => choose_number(arguments, selector, atoms, out),
        _ => pass_last(arguments, selector, atoms, out),
    }
}

/// A message where selectors choose.
fn hear_selectors(
    place: Option<u32>,
    arguments: &[Atom],
    selector: Sym,
    atoms: &[Atom],
    out: &mut Sends,
)
    requires arguments { length arguments.now ≤ 1024 }
    requires short { length atoms.now ≤ 1024 }
    ensures { said_by out.new ≡ routed_message place arguments.now selector atoms.now }
{
    match place {
        Some(i) if is_plain(selector) => pass(i, selector, atoms, out),
        Some(i) => say_message(i, atoms, out),
        None => pass_last(arguments, selector, atoms, out),
    }
}

/// A message at inlet 0 of a `route`.
fn hear_routed(arguments: &[Atom], selector: Sym, atoms: &[Atom], out: &mut Sends)
    requires arguments { length arguments.now ≤ 1024 }
    requires short { length atoms.now ≤ 1024 }
    ensures { said_by out.new ≡ route_hot arguments.now selector atoms.now }
{
    match arguments {
        [Atom::Number(_), ..] => {
            let sort = sort_of(selector, atoms);
            hear_numbers(arguments, selector, atoms, &sort, out);
        }
        _ => {
            let place = place_of(&Atom::Symbol(selector), arguments);
            hear_selectors(place, arguments, selector, atoms, out);
        }
    }
}

/// `route`
pub(crate) fn hear_route(
    arguments: &mut Items<Atom>,
    inlet: u32,
    selector: Sym,
    atoms: &[Atom],
    out: &mut Sends,
)
    requires arguments { length arguments.old ≤ 1024 }
    requires short { length atoms.now ≤ 1024 }
    ensures heard { record { arguments = arguments.new; said = said_by out.new } ≡ route_row arguments.old inlet selector atoms.now }
    ensures length { length arguments.new ≡ length arguments.old }
{
    if inlet == 0 {
        hear_routed(arguments.as_slice(), selector, atoms, out);
    } else {
        let sort = sort_of(selector, atoms);
        hear_argument(Row::Route, arguments, selector, &sort, out);
    }
}

/// `select`
pub(crate) fn hear_select(
    arguments: &mut Items<Atom>,
    inlet: u32,
    selector: Sym,
    atoms: &[Atom],
    out: &mut Sends,
)
    requires arguments { length arguments.old ≤ 1024 }
    requires short { length atoms.now ≤ 1024 }
    ensures heard { record { arguments = arguments.new; said = said_by out.new } ≡ select_row arguments.old inlet selector atoms.now }
    ensures length { length arguments.new ≡ length arguments.old }
{
    let sort = sort_of(selector, atoms);
    if inlet == 0 {
        hear_selected(arguments.as_slice(), selector, atoms, &sort, out);
    } else {
        hear_argument(Row::Select, arguments, selector, &sort, out);
    }
}
