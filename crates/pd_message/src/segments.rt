//! The segments of a text, and their receivers.

ghost use Rattle.std.specs.Prelude.{◌≡◌, ◌<◌, ◌≤◌, ◌+◌, ◌*◌, length, take, drop, position, IfSome};
ghost use Rattle.std.specs.List.{All};
ghost use Rattle.pd_atom.specs.Atoms.{IsOf};
ghost use Rattle.pd_atom.specs.Names.{Extends};
ghost use Rattle.pd_atom.specs.Expansion.{expanded};
ghost use Rattle.pd_kind.specs.Said.{said_by};
ghost use Rattle.std.specs.List.{slice_split};
ghost use Rattle.pd_message.specs.Texts.{is_comma, is_semi, segment_run, receiver_at, received, named_run, named_runs, text_run};
ghost use Rattle.pd_message.specs.Room.{run_of, HasRoom, Takes};

use crate::pieces::{Receiver, note_missing, run_piece};
use pd_atom::{Atom, Symbols, expand};
use pd_kind::{Sends, Target};

/// The place of the first comma.
fn first_comma(atoms: &[Atom]) -> Option<usize>
    ensures { result ≡ position is_comma atoms.now }
{
    atoms.iter().position(|atom| matches!(atom, Atom::Comma))
}

/// The place of the first semicolon.
fn first_semi(atoms: &[Atom]) -> Option<usize>
    ensures { result ≡ position is_semi atoms.now }
{
    atoms.iter().position(|atom| matches!(atom, Atom::Semi))
}

/// The atoms before a place.
fn before(atoms: &[Atom], place: usize) -> &[Atom]
    requires { place ≤ length atoms.now }
    ensures { result.now ≡ take place atoms.now }
{
    &atoms[..place]
}

/// The atoms behind a place.
fn behind(atoms: &[Atom], place: usize) -> &[Atom]
    requires { place < length atoms.now }
    ensures { result.now ≡ drop (place + 1) atoms.now }
{
    &atoms[place + 1..]
}

/// The pieces of a segment, one by one.
fn run_segment(
    to: &Receiver,
    segment: &[Atom],
    args: &[Atom],
    symbols: &mut Symbols,
    out: &mut Sends,
)
    requires segment { All (IsOf symbols.old) segment.now }
    requires args { All (IsOf symbols.old) args.now }
    requires room { HasRoom out.old (length segment.now) }
    ensures run { run_of symbols.new out.new ≡ segment_run args.now to.now (run_of symbols.old out.old) segment.now }
    ensures extends { Extends symbols.old symbols.new }
    ensures takes { Takes out.old out.new (length segment.now) }
{
    let mut rest = segment;
    while let Some(place) = first_comma(rest) {
        run_piece(to, before(rest, place), args, symbols, out);
        rest = behind(rest, place);
    }
    run_piece(to, rest, args, symbols, out);
}

/// The receiver that an expanded atom is.
fn receiver_of(atom: Atom) -> Receiver
    ensures { result ≡ receiver_at atom }
{
    match atom {
        Atom::Symbol(name) => Receiver::Known(Target::Name { name, loud: true }),
        _ => Receiver::Wrong(atom),
    }
}

/// A segment behind its receiver's name.
fn run_received(name: Atom, segment: &[Atom], args: &[Atom], symbols: &mut Symbols, out: &mut Sends)
    requires name { IsOf symbols.old name }
    requires segment { All (IsOf symbols.old) segment.now }
    requires args { All (IsOf symbols.old) args.now }
    requires room { HasRoom out.old (length segment.now + 1) }
    ensures run { run_of symbols.new out.new ≡ received args.now (run_of symbols.old out.old) segment.now (expanded symbols.old name 0 args.now).names (expanded symbols.old name 0 args.now).answer }
    ensures extends { Extends symbols.old symbols.new }
    ensures takes { Takes out.old out.new (length segment.now + 1) }
{
    match expand(symbols, name, 0, args) {
        Ok(expanded) => {
            note_missing(expanded.missing, out);
            run_segment(&receiver_of(expanded.atom), segment, args, symbols, out);
        }
        Err(_) => run_segment(&Receiver::Full, segment, args, symbols, out),
    }
}

/// A segment whose first atom names its receiver; an empty one is skipped.
fn run_named(segment: &[Atom], args: &[Atom], symbols: &mut Symbols, out: &mut Sends)
    requires segment { All (IsOf symbols.old) segment.now }
    requires args { All (IsOf symbols.old) args.now }
    requires room { HasRoom out.old (length segment.now) }
    ensures run { run_of symbols.new out.new ≡ named_run args.now (run_of symbols.old out.old) segment.now }
    ensures extends { Extends symbols.old symbols.new }
    ensures takes { Takes out.old out.new (length segment.now) }
{
    if let [name, rest @ ..] = segment {
        run_received(*name, rest, args, symbols, out);
    }
}

/// The segments behind the first semicolon, one by one.
fn run_all_named(segments: &[Atom], args: &[Atom], symbols: &mut Symbols, out: &mut Sends)
    requires segments { All (IsOf symbols.old) segments.now }
    requires args { All (IsOf symbols.old) args.now }
    requires room { HasRoom out.old (length segments.now) }
    ensures run { run_of symbols.new out.new ≡ named_runs args.now (run_of symbols.old out.old) (slice_split is_semi segments.now) }
    ensures extends { Extends symbols.old symbols.new }
{
    let mut rest = segments;
    while let Some(place) = first_semi(rest) {
        run_named(before(rest, place), args, symbols, out);
        rest = behind(rest, place);
    }
    run_named(rest, args, symbols, out);
}

/// All messages of a text.
pub(crate) fn run_text(text: &[Atom], args: &[Atom], symbols: &mut Symbols, out: &mut Sends)
    requires text { All (IsOf symbols.old) text.now }
    requires args { All (IsOf symbols.old) args.now }
    requires room { HasRoom out.old (length text.now) }
    ensures run { run_of symbols.new out.new ≡ text_run args.now (run_of symbols.old out.old) text.now }
    ensures extends { Extends symbols.old symbols.new }
{
    let outlet = Receiver::Known(Target::Outlet(0));
    match first_semi(text) {
        Some(place) => {
            run_segment(&outlet, before(text, place), args, symbols, out);
            run_all_named(behind(text, place), args, symbols, out);
        }
        None => run_segment(&outlet, text, args, symbols, out),
    }
}
