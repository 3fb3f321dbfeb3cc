//! The pieces of a text: each is a message.

ghost use Rattle.std.specs.Prelude.{◌≡◌, ◌<◌, ◌≤◌, ◌+◌, true, length, drop};
ghost use Rattle.std.specs.List.{All};
ghost use Rattle.pd_atom.specs.Atoms.{IsOf};
ghost use Rattle.pd_atom.specs.Names.{Extends};
ghost use Rattle.pd_kind.specs.Said.{said_by};
ghost use Rattle.pd_message.specs.Texts.{noted, missing_notices, delivered, expanded_with, filled_with, filled_run, piece_run};
ghost use Rattle.pd_message.specs.Room.{run_of, filling_of, HasRoom, Takes};

use pd_atom::{Atom, Symbols, expand};
use pd_kind::{Notice, Sends, Target};

/// Where the messages of a segment go.
#[derive(Clone, Copy, Debug, PartialEq, Eq, Drop)]
pub enum Receiver {
    Known(Target),
    /// The receiver's name isn't a symbol.
    Wrong(Atom),
    /// The table of names has no room for the receiver's name.
    Full,
}

/// Tells a missing argument.
pub(crate) fn note_missing(missing: Option<u16>, out: &mut Sends)
    requires { length out.old.notices < 2048 }
    ensures said { said_by out.new ≡ noted (said_by out.old) (missing_notices missing) }
    ensures rows { out.new.rows ≡ out.old.rows }
    ensures atoms { out.new.atoms ≡ out.old.atoms }
    ensures notices { length out.new.notices ≤ length out.old.notices + 1 }
{
    if let Some(number) = missing {
        out.note(Notice::NoArgument { number });
    }
}

/// Expands one more atom of the piece whose atoms stand from `first` on. Answers whether the table of names had room.
fn expand_atom(
    atom: Atom,
    args: &[Atom],
    first: u32,
    symbols: &mut Symbols,
    out: &mut Sends,
) -> bool
    requires of_table { IsOf symbols.old atom }
    requires args { All (IsOf symbols.old) args.now }
    requires first { first ≤ length out.old.atoms }
    requires atoms { length out.old.atoms < 2048 }
    requires notices { length out.old.notices < 2048 }
    ensures filling { filling_of symbols.new first out.new result ≡ expanded_with args.now (filling_of symbols.old first out.old true) atom }
    ensures extends { Extends symbols.old symbols.new }
    ensures rows { out.new.rows ≡ out.old.rows }
    ensures atoms { length out.new.atoms ≤ length out.old.atoms + 1 }
    ensures longer { length out.old.atoms ≤ length out.new.atoms }
    ensures notices { length out.new.notices ≤ length out.old.notices + 1 }
{
    match expand(symbols, atom, 0, args) {
        Ok(expanded) => {
            out.push_atom(expanded.atom);
            note_missing(expanded.missing, out);
            true
        }
        Err(_) => false,
    }
}

/// Expands the atoms of a piece, which stand from `first` on, up to one for which the table of names has no room.
fn fill(piece: &[Atom], args: &[Atom], first: u32, symbols: &mut Symbols, out: &mut Sends) -> bool
    requires piece { All (IsOf symbols.old) piece.now }
    requires args { All (IsOf symbols.old) args.now }
    requires first { first ≤ length out.old.atoms }
    requires atoms { length out.old.atoms + length piece.now ≤ 2048 }
    requires notices { length out.old.notices + length piece.now ≤ 2048 }
    ensures filling { filling_of symbols.new first out.new result ≡ filled_with args.now (filling_of symbols.old first out.old true) piece.now }
    ensures extends { Extends symbols.old symbols.new }
    ensures rows { out.new.rows ≡ out.old.rows }
    ensures atoms { length out.new.atoms ≤ length out.old.atoms + length piece.now }
    ensures longer { length out.old.atoms ≤ length out.new.atoms }
    ensures notices { length out.new.notices ≤ length out.old.notices + length piece.now }
{
    for atom in piece {
        if !expand_atom(*atom, args, first, symbols, out) {
            return false;
        }
    }
    true
}

/// What the receiver hears of the atoms from `first` on.
fn deliver(to: &Receiver, first: u32, out: &mut Sends)
    requires rows { length out.old.rows < 1024 }
    requires first { first ≤ length out.old.atoms }
    requires atoms { length out.old.atoms < 2048 }
    requires notices { length out.old.notices < 2048 }
    ensures said { said_by out.new ≡ delivered to.now (said_by out.old) (drop first out.old.atoms) }
    ensures rows { length out.new.rows ≤ length out.old.rows + 1 }
    ensures atoms { length out.new.atoms ≤ length out.old.atoms + 1 }
    ensures notices { length out.new.notices ≤ length out.old.notices + 1 }
{
    match to {
        Receiver::Known(target) => out.send_message_from(*target, first),
        Receiver::Wrong(name) => out.note(Notice::NoReceiver { name: *name }),
        Receiver::Full => out.note(Notice::TableFull),
    }
}

/// A piece that isn't empty is expanded and goes to its receiver.
fn run_filled(to: &Receiver, piece: &[Atom], args: &[Atom], symbols: &mut Symbols, out: &mut Sends)
    requires piece { All (IsOf symbols.old) piece.now }
    requires args { All (IsOf symbols.old) args.now }
    requires room { HasRoom out.old (length piece.now) }
    requires some { 0 < length piece.now }
    ensures run { run_of symbols.new out.new ≡ filled_run args.now to.now (run_of symbols.old out.old) piece.now }
    ensures extends { Extends symbols.old symbols.new }
    ensures takes { Takes out.old out.new (length piece.now) }
{
    if matches!(to, Receiver::Full) {
        out.note(Notice::TableFull);
        return;
    }
    let first = out.atoms.len() as u32;
    if fill(piece, args, first, symbols, out) {
        deliver(to, first, out);
    } else {
        out.note(Notice::TableFull);
    }
}

/// A piece goes to its receiver; an empty one is skipped.
pub(crate) fn run_piece(
    to: &Receiver,
    piece: &[Atom],
    args: &[Atom],
    symbols: &mut Symbols,
    out: &mut Sends,
)
    requires piece { All (IsOf symbols.old) piece.now }
    requires args { All (IsOf symbols.old) args.now }
    requires room { HasRoom out.old (length piece.now) }
    ensures run { run_of symbols.new out.new ≡ piece_run args.now to.now (run_of symbols.old out.old) piece.now }
    ensures extends { Extends symbols.old symbols.new }
    ensures takes { Takes out.old out.new (length piece.now) }
{
    if !piece.is_empty() {
        run_filled(to, piece, args, symbols, out);
    }
}
