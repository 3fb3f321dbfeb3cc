//! The arguments of an object's text.

ghost use Rattle.std.specs.Prelude.{◌≡◌, ◌≤◌, pos, length, map, bytes_eq, Some, IfOk};
ghost use Rattle.std.specs.List.{AllByRecursion, filter, list_all};
ghost use Rattle.pd_atom.specs.Atoms.{IsOf};
ghost use Rattle.pd_naming.specs.Naming.{is_argument as counts, arguments_of, number_or, number_at as number_at_place, name_at as name_at_place, symbol_in as symbol_of, or_symbol as symbol_or, first_number as first_number_of, first_letter as first_letter_of, is_whole_text as is_whole};

use pd_atom::{Atom, Sym};
use pd_num::Num;
use std::alloc::{AllocError, Global};

/// Whether the bytes are a word.
pub(crate) fn is_word(bytes: &[u8], word: &[u8]) -> bool
    ensures { result ≡ bytes_eq bytes.now word.now }
{
    bytes.len() == word.len() && bytes == word
}

/// One.
pub(crate) fn one() -> Num
    ensures { result ≡ pos 1000000 }
{
    match Num::of_micros(1_000_000) {
        Some(one) => one,
        None => unreachable!(),
    }
}

/// A hundred.
pub(crate) fn hundred() -> Num
    ensures { result ≡ pos 100000000 }
{
    match Num::of_micros(100_000_000) {
        Some(hundred) => hundred,
        None => unreachable!(),
    }
}

/// Neither a comma nor a semicolon.
fn is_argument(atom: Atom) -> bool
    ensures { result ≡ counts atom }
{
    !matches!(atom, Atom::Comma | Atom::Semi)
}

/// The atoms but commas and semicolons.
pub(crate) fn arguments(alloc: Global, atoms: &[Atom]) -> Result<Vec<Atom>, AllocError>
    ensures items { IfOk result (λ list. list.items ≡ arguments_of atoms.now) }
    ensures few { IfOk result (λ list. length list.items ≤ length atoms.now) }
{
    let mut list = Vec::new(alloc);
    for atom in atoms {
        if is_argument(*atom) {
            list.push(*atom)?;
        }
    }
    Ok(list)
}

/// The symbol that an atom is, where it is one.
fn symbol_in(atom: &Atom) -> Option<Sym>
    ensures { result ≡ symbol_of (Some atom.now) }
{
    match atom {
        Atom::Symbol(symbol) => Some(*symbol),
        _ => None,
    }
}

/// The symbol among the arguments at a place, where one is there. Commas and semicolons are left out before places are counted.
pub fn argument_name_at(atoms: &[Atom], i: usize) -> Option<Sym>
    ensures { result ≡ name_at_place (arguments_of atoms.now) i }
{
    let mut before = 0;
    for atom in atoms {
        if is_argument(*atom) {
            if before == i {
                return symbol_in(atom);
            }
            before += 1;
        }
    }
    None
}

/// The number at a place, and the default where none is there.
pub fn number_at(arguments: &[Atom], i: usize, default: Num) -> Num
    ensures { result ≡ number_at_place arguments.now i default }
{
    match arguments.get(i) {
        Some(Atom::Number(number)) => *number,
        _ => default,
    }
}

/// The symbol at a place, where one is there.
pub(crate) fn name_at(arguments: &[Atom], i: usize) -> Option<Sym>
    ensures { result ≡ name_at_place arguments.now i }
{
    symbol_in(arguments.get(i)?)
}

/// The symbol, or `symbol` where none is there.
pub(crate) fn or_symbol(name: Option<Sym>) -> Sym
    ensures { result ≡ symbol_or name }
{
    match name {
        Some(symbol) => symbol,
        None => Sym::symbol(),
    }
}

/// The first argument, where it is a number.
pub(crate) fn first_number(arguments: &[Atom]) -> Option<Num>
    ensures { result ≡ first_number_of arguments.now }
{
    match arguments.first() {
        Some(Atom::Number(number)) => Some(*number),
        _ => None,
    }
}

/// The first byte of a name, 0 where it has none.
pub(crate) fn first_letter(name: &[u8]) -> u8
    ensures { result ≡ first_letter_of name.now }
{
    match name {
        [] => 0,
        [first, ..] => *first,
    }
}

/// Whether the atoms behind an object's name are 14, none of them a comma or semicolon.
pub(crate) fn is_whole_text(atoms: &[Atom]) -> bool
    ensures { result ≡ is_whole atoms.now }
{
    has_no_mark(atoms) && atoms.len() == 14
}

/// Whether no atom is a comma or semicolon.
fn has_no_mark(atoms: &[Atom]) -> bool
    ensures { result ≡ list_all counts atoms.now }
{
    for atom in atoms {
        if !is_argument(*atom) {
            return false;
        }
    }
    true
}
