//! Whether a text is of the table.

ghost use Rattle.std.specs.Prelude.{◌≡◌, true, false};
ghost use Rattle.std.specs.List.{All};
ghost use Rattle.pd_atom.specs.Atoms.{IsOf};

use pd_atom::{Atom, Symbols};

/// Whether all atoms are of the table.
pub(crate) fn are_of(symbols: &Symbols, atoms: &[Atom]) -> bool
    ensures all { result ≡ true → All (IsOf symbols.now) atoms.now }
    ensures some { result ≡ false → All (IsOf symbols.now) atoms.now → ⊥ }
{
    for atom in atoms {
        if !is_of(symbols, atom) {
            return false;
        }
    }
    true
}

/// Whether an atom is of the table.
fn is_of(symbols: &Symbols, atom: &Atom) -> bool
    ensures is { result ≡ true → IsOf symbols.now atom.now }
    ensures other { result ≡ false → IsOf symbols.now atom.now → ⊥ }
{
    match atom {
        Atom::Symbol(name) | Atom::DollarSymbol(name) => name.number() < symbols.len(),
        Atom::Dollar(number) => *number <= 9_999,
        Atom::Number(_) | Atom::Comma | Atom::Semi => true,
    }
}
