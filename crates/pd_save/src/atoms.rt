//! Whether atoms and names are of a table.

ghost use Rattle.std.specs.Prelude.{◌↔◌, IsTrue};
ghost use Rattle.pd_atom.specs.Atoms.{IsOf};
ghost use Rattle.pd_canvas.specs.Views.{shape_of};
ghost use Rattle.pd_doc.specs.Atoms.{AreOf, RowsOf, ShapeOf};

use pd_atom::{Atom, Symbols};
use pd_canvas::{Atoms, Form};

fn atom_is_of(atom: Atom, symbols: &Symbols) -> bool
    ensures { IsTrue result ↔ IsOf symbols.now atom }
{
    match atom {
        Atom::Symbol(symbol) | Atom::DollarSymbol(symbol) => symbol.number() < symbols.len(),
        Atom::Dollar(number) => number <= 9_999,
        Atom::Number(_) | Atom::Comma | Atom::Semi => true,
    }
}

pub(crate) fn atoms_are_of(atoms: &[Atom], symbols: &Symbols) -> bool
    ensures { IsTrue result ↔ AreOf symbols.now atoms.now }
{
    for atom in atoms {
        if !atom_is_of(*atom, symbols) {
            return false;
        }
    }
    true
}

pub(crate) fn rows_are_of(rows: &[Atoms], symbols: &Symbols) -> bool
    ensures { IsTrue result ↔ RowsOf symbols.now rows.now }
{
    for row in rows {
        if !atoms_are_of(row.as_slice(), symbols) {
            return false;
        }
    }
    true
}

/// Whether the word of an element of this form is of the table.
pub(crate) fn form_is_of(form: &Form, symbols: &Symbols) -> bool
    ensures { IsTrue result ↔ ShapeOf symbols.now (shape_of form.now) }
{
    match form {
        Form::Other(word) => word.number() < symbols.len(),
        _ => true,
    }
}
