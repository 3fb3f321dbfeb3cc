//! The message that atoms make.

ghost use Rattle.std.specs.Prelude.{◌≡◌, ◌≤◌, ◌∷◌, [], length};
ghost use Rattle.pd_kind.specs.declared.messages.Target.TheVariants.{Outlet};
ghost use Rattle.pd_kind.specs.Forming.{float_in, symbol_of, normal_send, list_send, send_of_message};
ghost use Rattle.pd_engine.specs.Messages.{message_in, one_in, one_of as one_told, Forms};

use pd_atom::{Atom, Sym};
use pd_num::Num;

/// The most atoms of a message.
const MOST: usize = 1024;

/// A message in its normal form, and whether it was cut.
#[derive(Clone, Copy)]
pub(crate) struct Formed<'a> {
    pub(crate) selector: Sym,
    pub(crate) atoms: &'a [Atom],
    pub(crate) is_cut: bool,
}

/// The one atom of a message that begins with `float` or `symbol`.
pub(crate) fn one_atom(atoms: &[Atom]) -> Atom
    ensures { result ≡ one_in atoms.now }
{
    match atoms {
        [Atom::Symbol(selector), rest @ ..] => one_of(*selector, rest),
        _ => Atom::Number(Num::default()),
    }
}

fn one_of(selector: Sym, rest: &[Atom]) -> Atom
    ensures { result ≡ one_told selector rest.now }
{
    if selector == Sym::symbol() {
        first_symbol(rest)
    } else {
        first_number(rest)
    }
}

fn first_number(atoms: &[Atom]) -> Atom
    ensures { result ≡ Atom.Number (float_in atoms.now) }
{
    match atoms {
        [Atom::Number(number), ..] => Atom::Number(*number),
        _ => Atom::Number(Num::default()),
    }
}

fn first_symbol(atoms: &[Atom]) -> Atom
    ensures { result ≡ Atom.Symbol (symbol_of atoms.now) }
{
    match atoms {
        [Atom::Symbol(symbol), ..] => Atom::Symbol(*symbol),
        _ => Atom::Symbol(Sym::symbol()),
    }
}

/// The message of atoms: none is a `bang`; one that begins with a symbol has it as its selector; else it is a list. `one` is their
/// `one_atom`.
pub(crate) fn message_of<'a>(atoms: &'a [Atom], one: &'a [Atom]) -> Formed<'a>
    requires { one.now ≡ one_in atoms.now ∷ [] }
    ensures { Forms result (message_in atoms.now) }
{
    match atoms {
        [Atom::Symbol(selector), rest @ ..] => selected(*selector, rest, one),
        _ => listed(atoms),
    }
}

fn selected<'a>(selector: Sym, rest: &'a [Atom], one: &'a [Atom]) -> Formed<'a>
    requires { one.now ≡ one_told selector rest.now ∷ [] }
    ensures { Forms result (normal_send (Outlet 0) selector rest.now) }
{
    if selector == Sym::bang() {
        return whole(selector, &[]);
    }
    if selector == Sym::float() || selector == Sym::symbol() {
        return whole(selector, one);
    }
    if selector == Sym::list() {
        return listed(rest);
    }
    cut(selector, rest)
}

fn listed<'a>(atoms: &'a [Atom]) -> Formed<'a>
    ensures { Forms result (list_send (Outlet 0) atoms.now) }
{
    match atoms {
        [] => whole(Sym::bang(), atoms),
        [Atom::Number(_)] => whole(Sym::float(), atoms),
        [Atom::Symbol(_)] => whole(Sym::symbol(), atoms),
        _ => cut(Sym::list(), atoms),
    }
}

fn whole<'a>(selector: Sym, atoms: &'a [Atom]) -> Formed<'a>
    requires { length atoms.now ≤ 1024 }
    ensures { Forms result (send_of_message (Outlet 0) selector atoms.now) }
{
    Formed {
        selector,
        atoms,
        is_cut: false,
    }
}

/// The message with its first 1,024 atoms.
fn cut<'a>(selector: Sym, atoms: &'a [Atom]) -> Formed<'a>
    ensures { Forms result (send_of_message (Outlet 0) selector atoms.now) }
{
    if atoms.len() <= MOST {
        return whole(selector, atoms);
    }
    Formed {
        selector,
        atoms: &atoms[..MOST],
        is_cut: true,
    }
}
