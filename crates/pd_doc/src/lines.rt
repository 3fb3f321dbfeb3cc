//! Records as lines of text.

ghost use Rattle.std.specs.Prelude.{◌≡◌, ◌*◌, ◌<◌, [], ◌∷◌, ◌++◌, OnOk, map, pos, min, codes};
ghost use Rattle.std.specs.List.{AllByRecursion};
ghost use Rattle.pd_lex.specs.Text.{escaped};
ghost use Rattle.pd_atom.specs.Atoms.{IsOf, spelled};
ghost use Rattle.pd_atom.specs.declared.Atom.TheVariants.{Number, Symbol};
ghost use Rattle.pd_canvas.specs.Views.{shape_of};
ghost use Rattle.pd_doc.specs.Atoms.{AreOf, RowsOf, ShapeOf};
ghost use Rattle.pd_doc.specs.Writing.{atom_pieces, whole as whole_of, wire_atoms, spaced, width_pieces, word_of, atom_piece};
ghost use Rattle.pd_doc.specs.Lines.{line_text, rows_text, wires_text, run_text, values_text};

use pd_atom::{Atom, Symbols, write_atom};
use pd_canvas::{Atoms, Form, Wire};
use pd_num::Num;
use std::alloc::AllocError;

/// The number of so many whole units.
pub(crate) fn whole(units: u64) -> Num
    ensures { result ≡ whole_of units }
{
    let micros = units.min(1_000_000_000) * 1_000_000;
    match Num::of_micros(micros as i64) {
        Some(number) => number,
        None => unreachable!(),
    }
}

/// Appends atoms with a space before each.
pub(crate) fn push_atoms(
    symbols: &Symbols,
    atoms: &[Atom],
    out: &mut Vec<u8>,
) -> Result<(), AllocError>
    requires { AreOf symbols.now atoms.now }
    ensures { OnOk result (out.new.items ≡ out.old.items ++ spaced (atom_pieces symbols.now atoms.now)) }
{
    for atom in atoms {
        out.push(b' ')?;
        write_atom(symbols, *atom, out)?;
    }
    Ok(())
}

/// Appends a line of a word or two and atoms.
pub(crate) fn push_line(
    symbols: &Symbols,
    words: &[u8],
    atoms: &[Atom],
    out: &mut Vec<u8>,
) -> Result<(), AllocError>
    requires { AreOf symbols.now atoms.now }
    ensures { OnOk result (out.new.items ≡ out.old.items ++ line_text words.now (spaced (atom_pieces symbols.now atoms.now))) }
{
    out.extend_from_slice(words)?;
    push_atoms(symbols, atoms, out)?;
    out.extend_from_slice(b";\n")?;
    Ok(())
}

/// Appends a line for each row.
pub(crate) fn push_rows(
    symbols: &Symbols,
    words: &[u8],
    rows: &[Atoms],
    out: &mut Vec<u8>,
) -> Result<(), AllocError>
    requires { RowsOf symbols.now rows.now }
    ensures { OnOk result (out.new.items ≡ out.old.items ++ rows_text symbols.now words.now rows.now) }
{
    for row in rows {
        push_line(symbols, words, row.as_slice(), out)?;
    }
    Ok(())
}

/// Appends the line of a wire.
fn push_wire(symbols: &Symbols, wire: Wire, out: &mut Vec<u8>) -> Result<(), AllocError>
    ensures { OnOk result (out.new.items ≡ out.old.items ++ line_text (codes "#X connect") (spaced (atom_pieces symbols.now (wire_atoms wire)))) }
{
    let atoms = [
        Atom::Number(whole(u64::from(wire.source))),
        Atom::Number(whole(u64::from(wire.outlet))),
        Atom::Number(whole(u64::from(wire.sink))),
        Atom::Number(whole(u64::from(wire.inlet))),
    ];
    push_line(symbols, b"#X connect", &atoms, out)
}

/// Appends a line for each wire.
pub(crate) fn push_wires(
    symbols: &Symbols,
    wires: &[Wire],
    out: &mut Vec<u8>,
) -> Result<(), AllocError>
    ensures { OnOk result (out.new.items ≡ out.old.items ++ wires_text symbols.now wires.now) }
{
    for wire in wires {
        push_wire(symbols, *wire, out)?;
    }
    Ok(())
}

/// Appends numbers with a space before each.
fn push_numbers(symbols: &Symbols, numbers: &[Num], out: &mut Vec<u8>) -> Result<(), AllocError>
    ensures { OnOk result (out.new.items ≡ out.old.items ++ spaced (map (λ v. atom_piece symbols.now (Number v)) numbers.now)) }
{
    for number in numbers {
        push_atoms(symbols, &[Atom::Number(*number)], out)?;
    }
    Ok(())
}

/// Appends the width of an element.
pub(crate) fn push_width(
    symbols: &Symbols,
    width: Option<Num>,
    out: &mut Vec<u8>,
) -> Result<(), AllocError>
    ensures { OnOk result (out.new.items ≡ out.old.items ++ spaced (width_pieces symbols.now width)) }
{
    if let Some(width) = width {
        out.extend_from_slice(b", f")?;
        push_atoms(symbols, &[Atom::Number(width)], out)?;
    }
    Ok(())
}

/// Appends the word of an element.
pub(crate) fn push_word(symbols: &Symbols, form: &Form, out: &mut Vec<u8>) -> Result<(), AllocError>
    requires { ShapeOf symbols.now (shape_of form.now) }
    ensures { OnOk result (out.new.items ≡ out.old.items ++ word_of symbols.now (shape_of form.now)) }
{
    match form {
        Form::Obj => out.extend_from_slice(b"obj"),
        Form::Msg => out.extend_from_slice(b"msg"),
        Form::Comment => out.extend_from_slice(b"text"),
        Form::FloatBox => out.extend_from_slice(b"floatatom"),
        Form::SymbolBox => out.extend_from_slice(b"symbolatom"),
        Form::Sub(_) => out.extend_from_slice(b"restore"),
        Form::Array(_) => out.extend_from_slice(b"array"),
        Form::Other(sym) => write_atom(symbols, Atom::Symbol(*sym), out),
    }
}

/// Appends the line of a run of values from a place on.
fn push_run(
    symbols: &Symbols,
    from: usize,
    values: &[Num],
    out: &mut Vec<u8>,
) -> Result<(), AllocError>
    ensures { OnOk result (out.new.items ≡ out.old.items ++ run_text symbols.now from values.now) }
{
    out.extend_from_slice(b"#A")?;
    push_atoms(symbols, &[Atom::Number(whole(from as u64))], out)?;
    push_numbers(symbols, values, out)?;
    out.extend_from_slice(b";\n")
}

/// Appends the values of an array in lines of 1,000.
pub(crate) fn push_values(
    symbols: &Symbols,
    values: &[Num],
    out: &mut Vec<u8>,
) -> Result<(), AllocError>
    ensures { OnOk result (out.new.items ≡ out.old.items ++ values_text symbols.now values.now) }
{
    let mut from = 0;
    while from < values.len() {
        let end = from.saturating_add(1_000).min(values.len());
        push_run(symbols, from, &values[from..end], out)?;
        from = end;
    }
    Ok(())
}
