//! How atoms are spelled, and what their spellings read as.
ghost use Rattle.std.specs.Prelude.{◌≡◌, ◌<◌, ◌+◌, ◌≤◌, ◌++◌, length, decimal, OnOk, OnErr};
ghost use Rattle.arrayvec.specs.ArrayVec.{array_vec_len};
ghost use Rattle.pd_lex.specs.Text.{escaped};
ghost use Rattle.pd_atom.specs.Names.{given, name_of};
ghost use Rattle.pd_atom.specs.Atoms.{IsOf, spelled};
ghost use Rattle.pd_atom.specs.Tokens.{atom_read, settled, IsSettled};

use crate::tokens::{named_atom, nameless_atom};
use crate::{Atom, Sym, Symbols};
use arrayvec::ArrayVec;
use itoa::Buffer;
use std::alloc::AllocError;

/// Appends the spelling of an atom with a backslash before each white space byte, comma, semicolon, dollar and backslash.
pub fn write_atom(symbols: &Symbols, atom: Atom, out: &mut Vec<u8>) -> Result<(), AllocError>
    requires { IsOf symbols.now atom }
    ensures ok { OnOk result (out.new.items ≡ out.old.items ++ escaped (spelled symbols.now atom)) }
    ensures err { OnErr result (out.new.items ≡ out.old.items) }
{
    let mut spelling = ArrayVec::new();
    spell(symbols, atom, &mut spelling);
    pd_lex::put_escaped(spelling.as_slice(), out)
}

/// What reading the spelling of an atom gives. Reading it needs no new name.
pub fn settle(symbols: &Symbols, atom: Atom) -> Atom
    requires { IsOf symbols.now atom }
    ensures value { result ≡ settled symbols.now atom }
    ensures read { atom_read symbols.now (spelled symbols.now atom) ≡ given result symbols.now }
    ensures settled { IsSettled symbols.now result }
    ensures of_table { IsOf symbols.now result }
{
    match atom {
        Atom::Number(number) => {
            // `micros` is called for its clause that a number is in range, which the proof cites.
            let _micros = number.micros();
            Atom::Number(number)
        }
        Atom::Symbol(sym) => settle_name(symbols, sym),
        Atom::Dollar(number) => Atom::Dollar(number),
        Atom::DollarSymbol(sym) => settle_name(symbols, sym),
        Atom::Comma => Atom::Comma,
        Atom::Semi => Atom::Semi,
    }
}

/// What reading a name of the table gives.
fn settle_name(symbols: &Symbols, sym: Sym) -> Atom
    requires { sym < length symbols.now }
    ensures read { atom_read symbols.now (name_of symbols.now sym) ≡ given result symbols.now }
    ensures settled { IsSettled symbols.now result }
    ensures of_table { IsOf symbols.now result }
{
    let name = symbols.name(sym);
    match nameless_atom(name) {
        Some(other) => other,
        None => named_atom(name, sym),
    }
}

/// Leaves the bytes of an atom in `out`.
pub(crate) fn spell(symbols: &Symbols, atom: Atom, out: &mut ArrayVec<u8, 255>)
    requires { IsOf symbols.now atom }
    ensures value { out.new.items ≡ spelled symbols.now atom }
    ensures some { 0 < length out.new.items }
{
    out.clear();
    match atom {
        Atom::Number(number) => {
            // `micros` is called for its clause that a number is in range, which the proof cites.
            let _micros = number.micros();
            let mut digits = ArrayVec::new();
            number.print(&mut digits);
            append(digits.as_slice(), out);
        }
        Atom::Symbol(sym) | Atom::DollarSymbol(sym) => append(symbols.name(sym), out),
        Atom::Dollar(number) => {
            out.push(b'$');
            push_digits(number, out);
        }
        Atom::Comma => out.push(b','),
        Atom::Semi => out.push(b';'),
    }
}

/// Puts bytes at the end.
fn append(bytes: &[u8], out: &mut ArrayVec<u8, 255>)
    requires { array_vec_len out.old + length bytes.now ≤ 255 }
    ensures { out.new.items ≡ out.old.items ++ bytes.now }
{
    let _ = out.try_extend_from_slice(bytes);
}

/// Puts the digits of a number at the end.
fn push_digits(number: u16, out: &mut ArrayVec<u8, 255>)
    requires { array_vec_len out.old ≤ 250 }
    ensures { out.new.items ≡ out.old.items ++ decimal number }
{
    let mut buffer = Buffer::new();
    append(buffer.format(number).as_bytes(), out);
}
