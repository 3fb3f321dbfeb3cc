//! Numbers and atoms of a line.
ghost use Rattle.std.specs.Prelude.{◌≡◌, ◌++◌, ◌∷◌, OnOk, OnErr, decimal};
ghost use Rattle.std.specs.List.{All};
ghost use Rattle.pd_num.specs.Printing.{printed};
ghost use Rattle.pd_atom.specs.Atoms.{IsOf, spelled};
ghost use Rattle.pd_say.specs.Gathering.{Says, Fails, HasCause};
ghost use Rattle.pd_say.specs.Messages.{after_space, spaced, joined};

use crate::gathering::{Held, put};
use arrayvec::ArrayVec;
use itoa::Buffer;
use pd_atom::{Atom, Symbols};
use pd_io::{Sink, SinkFailed};
use pd_num::Num;

/// Says two pieces.
pub fn put_pair<L: Sink>(
    first: &[u8],
    second: &[u8],
    held: &mut Held,
    sink: &mut L,
) -> Result<(), SinkFailed>
    ensures ok { OnOk result (Says (L.taken sink.old) held.old.items (L.taken sink.new) held.new.items (first.now ++ second.now)) }
    ensures err { OnErr result (Fails (L.taken sink.old) held.old.items (L.taken sink.new) (first.now ++ second.now)) }
    ensures cause { HasCause (L.faults sink.old) (L.faults sink.new) result }
{
    put(first, held, sink)?;
    put(second, held, sink)
}

/// Says a number.
fn put_number<L: Sink>(number: Num, held: &mut Held, sink: &mut L) -> Result<(), SinkFailed>
    ensures ok { OnOk result (Says (L.taken sink.old) held.old.items (L.taken sink.new) held.new.items (printed number)) }
    ensures err { OnErr result (Fails (L.taken sink.old) held.old.items (L.taken sink.new) (printed number)) }
    ensures cause { HasCause (L.faults sink.old) (L.faults sink.new) result }
{
    let mut text = ArrayVec::new();
    number.print(&mut text);
    put(&text, held, sink)
}

/// Says a whole number.
pub(crate) fn put_count<L: Sink>(
    count: u32,
    held: &mut Held,
    sink: &mut L,
) -> Result<(), SinkFailed>
    ensures ok { OnOk result (Says (L.taken sink.old) held.old.items (L.taken sink.new) held.new.items (decimal count)) }
    ensures err { OnErr result (Fails (L.taken sink.old) held.old.items (L.taken sink.new) (decimal count)) }
    ensures cause { HasCause (L.faults sink.old) (L.faults sink.new) result }
{
    put(Buffer::new().format(count).as_bytes(), held, sink)
}

/// Says an atom.
pub(crate) fn put_atom<L: Sink>(
    atom: Atom,
    symbols: &Symbols,
    held: &mut Held,
    sink: &mut L,
) -> Result<(), SinkFailed>
    requires { IsOf symbols.now atom }
    ensures ok { OnOk result (Says (L.taken sink.old) held.old.items (L.taken sink.new) held.new.items (spelled symbols.now atom)) }
    ensures err { OnErr result (Fails (L.taken sink.old) held.old.items (L.taken sink.new) (spelled symbols.now atom)) }
    ensures cause { HasCause (L.faults sink.old) (L.faults sink.new) result }
{
    match atom {
        Atom::Number(number) => put_number(number, held, sink),
        Atom::Symbol(symbol) | Atom::DollarSymbol(symbol) => put(symbols.name(symbol), held, sink),
        Atom::Dollar(number) => put_pair(b"$", Buffer::new().format(number).as_bytes(), held, sink),
        Atom::Comma => put(b",", held, sink),
        Atom::Semi => put(b";", held, sink),
    }
}

/// Says an atom and a space before it.
fn put_spaced_atom<L: Sink>(
    atom: Atom,
    symbols: &Symbols,
    held: &mut Held,
    sink: &mut L,
) -> Result<(), SinkFailed>
    requires { IsOf symbols.now atom }
    ensures ok { OnOk result (Says (L.taken sink.old) held.old.items (L.taken sink.new) held.new.items (after_space symbols.now atom)) }
    ensures err { OnErr result (Fails (L.taken sink.old) held.old.items (L.taken sink.new) (after_space symbols.now atom)) }
    ensures cause { HasCause (L.faults sink.old) (L.faults sink.new) result }
{
    put(b" ", held, sink)?;
    put_atom(atom, symbols, held, sink)
}

/// Says atoms, a space before each.
pub(crate) fn put_spaced<L: Sink>(
    atoms: &[Atom],
    symbols: &Symbols,
    held: &mut Held,
    sink: &mut L,
) -> Result<(), SinkFailed>
    requires { All (λ a. IsOf symbols.now a) atoms.now }
    ensures ok { OnOk result (Says (L.taken sink.old) held.old.items (L.taken sink.new) held.new.items (spaced symbols.now atoms.now)) }
    ensures err { OnErr result (Fails (L.taken sink.old) held.old.items (L.taken sink.new) (spaced symbols.now atoms.now)) }
    ensures cause { HasCause (L.faults sink.old) (L.faults sink.new) result }
{
    for atom in atoms {
        put_spaced_atom(*atom, symbols, held, sink)?;
    }
    Ok(())
}

/// Says an atom and then more, a space before each of these.
fn put_list<L: Sink>(
    first: Atom,
    rest: &[Atom],
    symbols: &Symbols,
    held: &mut Held,
    sink: &mut L,
) -> Result<(), SinkFailed>
    requires first { IsOf symbols.now first }
    requires rest { All (λ a. IsOf symbols.now a) rest.now }
    ensures ok { OnOk result (Says (L.taken sink.old) held.old.items (L.taken sink.new) held.new.items (joined symbols.now (first ∷ rest.now))) }
    ensures err { OnErr result (Fails (L.taken sink.old) held.old.items (L.taken sink.new) (joined symbols.now (first ∷ rest.now))) }
    ensures cause { HasCause (L.faults sink.old) (L.faults sink.new) result }
{
    put_atom(first, symbols, held, sink)?;
    put_spaced(rest, symbols, held, sink)
}

/// Says atoms with a space between them.
pub(crate) fn put_joined<L: Sink>(
    atoms: &[Atom],
    symbols: &Symbols,
    held: &mut Held,
    sink: &mut L,
) -> Result<(), SinkFailed>
    requires { All (λ a. IsOf symbols.now a) atoms.now }
    ensures ok { OnOk result (Says (L.taken sink.old) held.old.items (L.taken sink.new) held.new.items (joined symbols.now atoms.now)) }
    ensures err { OnErr result (Fails (L.taken sink.old) held.old.items (L.taken sink.new) (joined symbols.now atoms.now)) }
    ensures cause { HasCause (L.faults sink.old) (L.faults sink.new) result }
{
    match atoms {
        [] => Ok(()),
        [first, rest @ ..] => put_list(*first, rest, symbols, held, sink),
    }
}

/// Says a piece and then atoms, a space before each.
pub(crate) fn put_with_atoms<L: Sink>(
    piece: &[u8],
    atoms: &[Atom],
    symbols: &Symbols,
    held: &mut Held,
    sink: &mut L,
) -> Result<(), SinkFailed>
    requires { All (λ a. IsOf symbols.now a) atoms.now }
    ensures ok { OnOk result (Says (L.taken sink.old) held.old.items (L.taken sink.new) held.new.items (piece.now ++ spaced symbols.now atoms.now)) }
    ensures err { OnErr result (Fails (L.taken sink.old) held.old.items (L.taken sink.new) (piece.now ++ spaced symbols.now atoms.now)) }
    ensures cause { HasCause (L.faults sink.old) (L.faults sink.new) result }
{
    put(piece, held, sink)?;
    put_spaced(atoms, symbols, held, sink)
}
