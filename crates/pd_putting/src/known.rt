//! Whether the text of an edit is of the table.

ghost use Rattle.std.specs.Prelude.{◌≡◌, true, false};
ghost use Rattle.std.specs.List.{All};
ghost use Rattle.pd_atom.specs.Atoms.{IsOf};
ghost use Rattle.pd_adding.specs.Boxes.{IsKnown};

use pd_atom::{Atom, Symbols};
use pd_canvas::Edit;

/// Whether the atoms of an edit's text are of the table, as those of an edit without a text are.
pub(crate) fn is_known(symbols: &Symbols, edit: &Edit) -> bool
    ensures known { result ≡ true → IsKnown symbols.now edit.now }
    ensures unknown { result ≡ false → IsKnown symbols.now edit.now → ⊥ }
{
    match edit {
        Edit::Obj { text, .. }
        | Edit::Msg { text, .. }
        | Edit::Comment { text, .. }
        | Edit::FloatBox { text, .. }
        | Edit::SymbolBox { text, .. }
        | Edit::Sub { name: text, .. }
        | Edit::Retype { text, .. } => are_of(symbols, text.as_slice()),
        Edit::Connect { .. } | Edit::Disconnect { .. } | Edit::Delete { .. } | Edit::Move { .. } =>
            true,
    }
}

/// Whether all atoms are of the table.
fn are_of(symbols: &Symbols, atoms: &[Atom]) -> bool
    ensures all { result ≡ true → All (IsOf symbols.now) atoms.now }
    ensures some { result ≡ false → All (IsOf symbols.now) atoms.now → ⊥ }
{
    for atom in atoms {
        if !is_of(symbols, atom) {
            return false;
        }
    }
    true
}

/// Whether an atom is of the table.
fn is_of(symbols: &Symbols, atom: &Atom) -> bool
    ensures is { result ≡ true → IsOf symbols.now atom.now }
    ensures other { result ≡ false → IsOf symbols.now atom.now → ⊥ }
{
    match atom {
        Atom::Symbol(name) | Atom::DollarSymbol(name) => name.number() < symbols.len(),
        Atom::Dollar(number) => *number <= 9_999,
        Atom::Number(_) | Atom::Comma | Atom::Semi => true,
    }
}
