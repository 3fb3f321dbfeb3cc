//! The edit that a canvas is asked for by a message.

ghost use Rattle.std.specs.Prelude.{◌≡◌, ◌<◌, length, bytes_eq};
ghost use Rattle.pd_atom.specs.Names.{name_of};
ghost use Rattle.pd_queue.specs.Asking.{verb_named, whole_of, whole_in, wire_of as wire_in, wire_between as wire_ends};

use pd_atom::{Atom, Sym, Symbols};
use pd_canvas::Wire;
use pd_num::Num;

/// What a canvas can be asked for.
#[derive(Clone, Copy, Debug, PartialEq, Eq)]
pub enum Verb {
    Box(BoxVerb),
    Connect,
    Disconnect,
}

/// Which box is new.
#[derive(Clone, Copy, Debug, PartialEq, Eq)]
pub enum BoxVerb {
    Obj,
    Msg,
    Text,
    FloatAtom,
    SymbolAtom,
}

/// How many millionths a unit has.
const UNIT: i64 = 1_000_000;

/// The greatest number of a box or a port, in millionths.
const MOST: i64 = 65_535_000_000;

/// Whether the bytes are a word.
fn is_word(bytes: &[u8], word: &[u8]) -> bool
    ensures { result ≡ bytes_eq bytes.now word.now }
{
    bytes == word
}

#[tactic(auto, unfolding(crate::specs::Asking::verb_named))]
fn verb_word(word: &[u8]) -> Option<Verb>
    ensures { result ≡ verb_named word.now }
{
    if is_word(word, b"obj") {
        Some(Verb::Box(BoxVerb::Obj))
    } else if is_word(word, b"msg") {
        Some(Verb::Box(BoxVerb::Msg))
    } else if is_word(word, b"text") {
        Some(Verb::Box(BoxVerb::Text))
    } else if is_word(word, b"floatatom") {
        Some(Verb::Box(BoxVerb::FloatAtom))
    } else if is_word(word, b"symbolatom") {
        Some(Verb::Box(BoxVerb::SymbolAtom))
    } else if is_word(word, b"connect") {
        Some(Verb::Connect)
    } else if is_word(word, b"disconnect") {
        Some(Verb::Disconnect)
    } else {
        None
    }
}

/// The verb that a selector is; a canvas has no method for any other.
pub fn verb_of(selector: Sym, symbols: &Symbols) -> Option<Verb>
    requires { selector < length symbols.now }
    ensures { result ≡ verb_named (name_of symbols.now selector) }
{
    verb_word(symbols.name(selector))
}

/// A whole number from 0 to 65,535.
fn whole(number: Num) -> Option<u32>
    ensures { result ≡ whole_of number }
{
    let micros = number.micros();
    if micros < 0 || micros > MOST || micros % UNIT != 0 {
        return None;
    }
    Some((micros / UNIT) as u32)
}

fn whole_atom(atom: Atom) -> Option<u32>
    ensures { result ≡ whole_in atom }
{
    match atom {
        Atom::Number(number) => whole(number),
        _ => None,
    }
}

/// The wire that exactly four whole numbers give.
pub(crate) fn wire_of(atoms: &[Atom]) -> Option<Wire>
    ensures { result ≡ wire_in atoms.now }
{
    match atoms {
        [source, outlet, sink, inlet] => wire_between(*source, *outlet, *sink, *inlet),
        _ => None,
    }
}

fn wire_between(source: Atom, outlet: Atom, sink: Atom, inlet: Atom) -> Option<Wire>
    ensures { result ≡ wire_ends (whole_in source) (whole_in outlet) (whole_in sink) (whole_in inlet) }
{
    Some(Wire {
        source: whole_atom(source)?,
        outlet: whole_atom(outlet)?,
        sink: whole_atom(sink)?,
        inlet: whole_atom(inlet)?,
    })
}
