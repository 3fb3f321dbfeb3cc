//! The words and the message of a print.
ghost use Rattle.std.specs.Prelude.{◌≡◌, ◌<◌, length, OnOk, OnErr};
ghost use Rattle.std.specs.List.{All};
ghost use Rattle.pd_atom.specs.Atoms.{IsOf};
ghost use Rattle.pd_say.specs.Gathering.{Says, Fails, HasCause};
ghost use Rattle.pd_say.specs.Messages.{words_text, message_text, shows_atoms_alone as shows_alone, starts_with_number as starts_with};

use crate::atoms::{put_joined, put_with_atoms};
use crate::gathering::{Held, put};
use pd_atom::{Atom, Sym, Symbols};
use pd_io::{Sink, SinkFailed};

/// Says the words of a print.
pub(crate) fn put_words<L: Sink>(
    words: &[Atom],
    symbols: &Symbols,
    held: &mut Held,
    sink: &mut L,
) -> Result<(), SinkFailed>
    requires { All (λ a. IsOf symbols.now a) words.now }
    ensures ok { OnOk result (Says (L.taken sink.old) held.old.items (L.taken sink.new) held.new.items (words_text symbols.now words.now)) }
    ensures err { OnErr result (Fails (L.taken sink.old) held.old.items (L.taken sink.new) (words_text symbols.now words.now)) }
    ensures cause { HasCause (L.faults sink.old) (L.faults sink.new) result }
{
    match words {
        [] => put(b"print", held, sink),
        _ => put_joined(words, symbols, held, sink),
    }
}

fn starts_with_number(atoms: &[Atom]) -> bool
    ensures { result ≡ starts_with atoms.now }
{
    matches!(atoms, [Atom::Number(_), ..])
}

fn shows_atoms_alone(selector: Sym, atoms: &[Atom]) -> bool
    ensures { result ≡ shows_alone selector atoms.now }
{
    (selector == Sym::float() || selector == Sym::list()) && starts_with_number(atoms)
}

/// Says what a print shows of a message.
pub(crate) fn put_message<L: Sink>(
    selector: Sym,
    atoms: &[Atom],
    symbols: &Symbols,
    held: &mut Held,
    sink: &mut L,
) -> Result<(), SinkFailed>
    requires selector { selector < length symbols.now }
    requires atoms { All (λ a. IsOf symbols.now a) atoms.now }
    ensures ok { OnOk result (Says (L.taken sink.old) held.old.items (L.taken sink.new) held.new.items (message_text symbols.now selector atoms.now)) }
    ensures err { OnErr result (Fails (L.taken sink.old) held.old.items (L.taken sink.new) (message_text symbols.now selector atoms.now)) }
    ensures cause { HasCause (L.faults sink.old) (L.faults sink.new) result }
{
    if shows_atoms_alone(selector, atoms) {
        put_joined(atoms, symbols, held, sink)
    } else {
        put_with_atoms(symbols.name(selector), atoms, symbols, held, sink)
    }
}
