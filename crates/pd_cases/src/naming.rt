//! The atoms of a text, and what it names.

ghost use Rattle.std.specs.Prelude.{◌≡◌, true, IfOk};
ghost use Rattle.std.specs.List.{All};
ghost use Rattle.pd_atom.specs.Atoms.{IsOf};
ghost use Rattle.pd_object.specs.Ports.{IsSmallNamed};

use anyhow::{Result, bail, ensure};
use pd_atom::{Atom, SymbolRefusal, Symbols, read_token};
use pd_kind::{Named, kind_of};
use std::alloc::Global;

/// Whether the name that an atom has, if any, is of the table, and its dollar has at most four digits.
pub(crate) fn is_of_table(atom: &Atom, symbols: &Symbols) -> bool
    ensures { result ≡ true → IsOf symbols.now atom.now }
{
    match atom {
        Atom::Symbol(name) | Atom::DollarSymbol(name) => name.number() < symbols.len(),
        Atom::Dollar(number) => *number <= 9999,
        Atom::Number(_) | Atom::Comma | Atom::Semi => true,
    }
}

pub(crate) fn are_of_table(atoms: &[Atom], symbols: &Symbols) -> bool
    ensures { result ≡ true → All (IsOf symbols.now) atoms.now }
{
    match atoms {
        [] => true,
        [first, rest @ ..] => is_of_table(first, symbols) && are_of_table(rest, symbols),
    }
}

/// The atoms of a text's words.
pub(crate) fn atoms_of(alloc: Global, text: &str, symbols: &mut Symbols) -> Result<Vec<Atom>>
    ensures { IfOk result (λ atoms. All (IsOf symbols.new) atoms.items) }
{
    let mut atoms = Vec::new(alloc);
    for token in text.as_bytes().split(|byte| *byte == b' ') {
        if !token.is_empty() {
            match read_token(symbols, token) {
                Ok(atom) => atoms.push(atom)?,
                Err(SymbolRefusal::TooLong) => bail!("a name is too long"),
                Err(SymbolRefusal::Full) => bail!("too many names"),
            }
        }
    }
    Ok(atoms)
}

/// What a text names; the names that it brings go into the table.
pub(crate) fn named_of(alloc: Global, text: &str, symbols: &mut Symbols) -> Result<Named>
    ensures { IfOk result IsSmallNamed }
{
    let atoms = atoms_of(alloc, text, symbols)?;
    ensure!(atoms.len() <= 1024, "a text of {} atoms", atoms.len());
    Ok(kind_of(alloc, atoms.as_slice(), symbols)?)
}
