//! Names and atoms.

ghost use Rattle.std.specs.Prelude.{◌≡◌, ◌<◌, ◌≤◌, length, vec_capacity, IfSome};
ghost use Rattle.std.specs.List.{list_all};
ghost use Rattle.pd_atom.specs.Names.{Names, Extends};
ghost use Rattle.pd_atom.specs.Atoms.{IsOf};
ghost use Rattle.pd_script.specs.Tables.{AreOf, DocumentOf};
ghost use Rattle.pd_script.specs.Options.{Gives};
ghost use Rattle.pd_script.specs.Tokens.{most_tokens};
ghost use Rattle.pd_script.specs.Atoms.{atom_of, atoms_of, is_plain as is_plain_atom, symbol_in, symbol_of, document_of};

use crate::tokens::Tokens;
use pd_atom::{Atom, Sym, Symbols, read_token};

/// The atom of a token, where the table can take its name.
#[tactic(auto, unfolding(crate::specs::Atoms::atom_of))]
fn atom(token: &[u8], symbols: &mut Symbols) -> Option<Atom>
    requires { 0 < length token.now }
    ensures exact { Gives (λ a. (a, symbols.new)) result (atom_of symbols.old token.now) }
    ensures of_table { IfSome result (IsOf symbols.new) }
    ensures extends { Extends symbols.old symbols.new }
{
    match read_token(symbols, token) {
        Ok(atom) => Some(atom),
        Err(_) => None,
    }
}

/// Leaves the atoms of the tokens in `out`.
#[tactic(auto, using(crate::proofs::AtomLemmas::names_go_on))]
pub(crate) fn atoms(
    tokens: &mut Tokens<'_>,
    symbols: &mut Symbols,
    out: &mut Vec<Atom>,
) -> Option<()>
    requires { most_tokens ≤ vec_capacity out.old }
    ensures exact { Gives (λ _. (out.new.items, symbols.new)) result (atoms_of symbols.old tokens.old) }
    ensures capacity { vec_capacity out.new ≡ vec_capacity out.old }
    ensures of_table { IfSome result (λ _. AreOf symbols.new out.new.items) }
    ensures extends { Extends symbols.old symbols.new }
{
    out.clear();
    let _ = tokens.is_empty();
    while let Some(token) = tokens.next() {
        out.push_reserved(atom(token.as_slice(), symbols)?);
    }
    Some(())
}

/// Whether the atoms are numbers and symbols.
pub(crate) fn are_plain(atoms: &[Atom]) -> bool
    ensures { result ≡ list_all is_plain_atom atoms.now }
{
    for atom in atoms {
        if !is_plain(atom) {
            return false;
        }
    }
    true
}

fn is_plain(atom: &Atom) -> bool
    ensures { result ≡ is_plain_atom atom.now }
{
    matches!(atom, Atom::Number(_) | Atom::Symbol(_))
}

fn only_symbol(atom: &Atom) -> Option<Sym>
    ensures value { result ≡ symbol_in atom.now }
    ensures of_table { (names : Names) → IsOf names atom.now → IfSome result (λ s. s < length names) }
{
    match atom {
        Atom::Symbol(s) => Some(*s),
        _ => None,
    }
}

/// The symbol of a token that is one.
pub(crate) fn symbol(token: &[u8], symbols: &mut Symbols) -> Option<Sym>
    requires { 0 < length token.now }
    ensures exact { Gives (λ s. (s, symbols.new)) result (symbol_of symbols.old token.now) }
    ensures of_table { IfSome result (λ s. s < length symbols.new) }
    ensures extends { Extends symbols.old symbols.new }
{
    let atom = atom(token, symbols)?;
    only_symbol(&atom)
}

/// The document that a token names; a dot is the root.
pub(crate) fn document(token: &[u8], symbols: &mut Symbols) -> Option<Option<Sym>>
    requires { 0 < length token.now }
    ensures exact { Gives (λ d. (d, symbols.new)) result (document_of symbols.old token.now) }
    ensures of_table { IfSome result (DocumentOf symbols.new) }
    ensures extends { Extends symbols.old symbols.new }
{
    if token == b".".as_slice() {
        return Some(None);
    }
    Some(Some(symbol(token, symbols)?))
}
