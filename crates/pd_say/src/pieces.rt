//! The pieces of a line.
ghost use Rattle.std.specs.Prelude.{◌≡◌, OnOk, OnErr};
ghost use Rattle.std.specs.List.{AllByRecursion};
ghost use Rattle.pd_say.specs.Gathering.{Says, Fails, HasCause};
ghost use Rattle.pd_say.specs.Pieces.{piece_text, pieces_text, PieceOf};

use crate::atoms::{put_atom, put_count};
use crate::gathering::{Held, put};
use crate::messages::{put_message, put_words};
use crate::paths::{put_canvas, put_marked};
use crate::refusals::put_why;
use pd_atom::{Sym, Symbols};
use pd_io::{Sink, SinkFailed};

/// A piece of a line.
#[derive(Clone, Copy)]
pub(crate) enum Piece<'a> {
    Bytes(&'a [u8]),
    Count(u32),
    Atom(pd_atom::Atom),
    /// The words of a print.
    Words(&'a [pd_atom::Atom]),
    /// What a print shows of a message.
    Message(Sym, &'a [pd_atom::Atom]),
    /// The name of a draft, and a path.
    Canvas(Option<Sym>, &'a [u32]),
    /// Numbers, a space before each.
    Numbers(&'a [u32]),
    Why(crate::refusals::Why),
}

fn put_piece<L: Sink>(
    piece: &Piece<'_>,
    symbols: &Symbols,
    held: &mut Held,
    sink: &mut L,
) -> Result<(), SinkFailed>
    requires { PieceOf symbols.now piece.now }
    ensures ok { OnOk result (Says (L.taken sink.old) held.old.items (L.taken sink.new) held.new.items (piece_text symbols.now piece.now)) }
    ensures err { OnErr result (Fails (L.taken sink.old) held.old.items (L.taken sink.new) (piece_text symbols.now piece.now)) }
    ensures cause { HasCause (L.faults sink.old) (L.faults sink.new) result }
{
    match piece {
        Piece::Bytes(bytes) => put(bytes, held, sink),
        Piece::Count(count) => put_count(*count, held, sink),
        Piece::Atom(atom) => put_atom(*atom, symbols, held, sink),
        Piece::Words(words) => put_words(words, symbols, held, sink),
        Piece::Message(selector, atoms) => put_message(*selector, atoms, symbols, held, sink),
        Piece::Canvas(document, path) => put_canvas(*document, path, symbols, held, sink),
        Piece::Numbers(numbers) => put_marked(b' ', numbers, held, sink),
        Piece::Why(why) => put_why(*why, held, sink),
    }
}

/// Says pieces, one after the other.
pub(crate) fn put_all<L: Sink>(
    pieces: &[Piece<'_>],
    symbols: &Symbols,
    held: &mut Held,
    sink: &mut L,
) -> Result<(), SinkFailed>
    requires { AllByRecursion (PieceOf symbols.now) pieces.now }
    ensures ok { OnOk result (Says (L.taken sink.old) held.old.items (L.taken sink.new) held.new.items (pieces_text symbols.now pieces.now)) }
    ensures err { OnErr result (Fails (L.taken sink.old) held.old.items (L.taken sink.new) (pieces_text symbols.now pieces.now)) }
    ensures cause { HasCause (L.faults sink.old) (L.faults sink.new) result }
{
    for piece in pieces {
        put_piece(piece, symbols, held, sink)?;
    }
    Ok(())
}
