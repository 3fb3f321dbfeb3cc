//! Whether names and atoms are of the table.

ghost use Rattle.std.specs.Prelude.{◌≡◌, ◌<◌, true, length};
ghost use Rattle.std.specs.List.{All};
ghost use Rattle.pd_atom.specs.Atoms.{IsOf};
ghost use Rattle.pd_hearing.specs.Guards.{is_name as has_name, is_atom, are_atoms};

use pd_atom::{Atom, Sym, Symbols};

/// Whether a name is of the table.
pub fn is_name(symbols: &Symbols, name: Sym) -> bool
    ensures name { result ≡ true → name < length symbols.now }
    ensures value { result ≡ has_name symbols.now name }
{
    name.number() < symbols.len()
}

/// Whether an atom is of the table.
pub fn is_known(symbols: &Symbols, atom: &Atom) -> bool
    ensures atom { result ≡ true → IsOf symbols.now atom.now }
    ensures value { result ≡ is_atom symbols.now atom.now }
{
    match atom {
        Atom::Symbol(name) | Atom::DollarSymbol(name) => is_name(symbols, *name),
        Atom::Dollar(number) => *number <= 9_999,
        Atom::Number(_) | Atom::Comma | Atom::Semi => true,
    }
}

/// Whether all atoms are of the table.
#[tactic(auto, unfolding(crate::specs::Guards::are_atoms))]
pub fn are_known(symbols: &Symbols, atoms: &[Atom]) -> bool
    ensures atoms { result ≡ true → All (IsOf symbols.now) atoms.now }
    ensures value { result ≡ are_atoms symbols.now atoms.now }
{
    for atom in atoms {
        if !is_known(symbols, atom) {
            return false;
        }
    }
    true
}
