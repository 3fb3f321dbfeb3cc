//! What a record is, by its first two words.

ghost use Rattle.std.specs.Prelude.{◌≡◌, map, bytes_eq};
ghost use Rattle.pd_doc.specs.Pieces.{piece};
ghost use Rattle.pd_doc.specs.Kinds.{kind_behind, box_word as box_word_of, record_word as record_word_of, word_kind as kind_of_word, opening_kind as kind_of_opening, kind_of as kind_of_pieces};

use crate::lexemes::{Lexeme, spells, unescape_lexeme};
use arrayvec::ArrayVec;

/// What a record is.
#[derive(Clone, Copy, Debug, PartialEq, Eq)]
pub(crate) enum Kind {
    /// `#N canvas`
    Canvas,
    /// A data structure: `#N struct` or `#X scalar`.
    Structure,
    /// `#X restore`
    Restore,
    /// `#X` and the word of an element.
    Plain(BoxWord),
    /// `#X array`
    Array,
    /// `#X connect`
    Connect,
    /// `#X coords`
    Coords,
    /// `#X` and any other word.
    Kept,
    /// `#A`
    Row,
    /// Anything else, which is refused.
    Other,
}

/// The word of an element.
#[derive(Clone, Copy, Debug, PartialEq, Eq)]
pub(crate) enum BoxWord {
    Obj,
    Msg,
    Text,
    FloatAtom,
    SymbolAtom,
    ListBox,
}

/// What the record of these tokens is.
#[tactic(auto, unfolding(crate::specs::Kinds::kind_of))]
pub(crate) fn kind_of(lexemes: &[Lexeme<'_>]) -> Kind
    ensures { result ≡ kind_of_pieces (map piece lexemes.now) }
{
    let [first, rest @ ..] = lexemes else {
        return Kind::Other;
    };
    if spells(*first, b"#N") {
        opening_kind(rest)
    } else if spells(*first, b"#X") {
        word_kind(rest)
    } else if spells(*first, b"#A") {
        Kind::Row
    } else {
        Kind::Other
    }
}

/// What a record of `#N` is, by the tokens behind it.
fn opening_kind(rest: &[Lexeme<'_>]) -> Kind
    ensures { result ≡ kind_behind kind_of_opening (map piece rest.now) }
{
    let mut word = ArrayVec::new();
    match rest {
        [second, ..] if unescape_lexeme(*second, &mut word) => opening_word(word.as_slice()),
        _ => Kind::Other,
    }
}

/// What a record of `#X` is, by the tokens behind it.
fn word_kind(rest: &[Lexeme<'_>]) -> Kind
    ensures { result ≡ kind_behind kind_of_word (map piece rest.now) }
{
    let mut word = ArrayVec::new();
    match rest {
        [second, ..] if unescape_lexeme(*second, &mut word) => any_word(word.as_slice()),
        _ => Kind::Other,
    }
}

/// What a record of `#N` and a word is.
fn opening_word(word: &[u8]) -> Kind
    ensures { result ≡ kind_of_opening word.now }
{
    if is_word(word, b"canvas") {
        Kind::Canvas
    } else if is_word(word, b"struct") {
        Kind::Structure
    } else {
        Kind::Other
    }
}

/// What a record of `#X` and a word is.
fn any_word(word: &[u8]) -> Kind
    ensures { result ≡ kind_of_word word.now }
{
    match box_word(word) {
        Some(known) => Kind::Plain(known),
        None => record_word(word),
    }
}

/// Whether the bytes are a word.
fn is_word(bytes: &[u8], word: &[u8]) -> bool
    ensures { result ≡ bytes_eq bytes.now word.now }
{
    bytes == word
}

/// The word of an element.
fn box_word(word: &[u8]) -> Option<BoxWord>
    ensures { result ≡ box_word_of word.now }
{
    if is_word(word, b"obj") {
        Some(BoxWord::Obj)
    } else if is_word(word, b"msg") {
        Some(BoxWord::Msg)
    } else if is_word(word, b"text") {
        Some(BoxWord::Text)
    } else if is_word(word, b"floatatom") {
        Some(BoxWord::FloatAtom)
    } else if is_word(word, b"symbolatom") {
        Some(BoxWord::SymbolAtom)
    } else if is_word(word, b"listbox") {
        Some(BoxWord::ListBox)
    } else {
        None
    }
}

/// Any other word of a record of `#X`.
fn record_word(word: &[u8]) -> Kind
    ensures { result ≡ record_word_of word.now }
{
    if is_word(word, b"restore") {
        Kind::Restore
    } else if is_word(word, b"array") {
        Kind::Array
    } else if is_word(word, b"connect") {
        Kind::Connect
    } else if is_word(word, b"coords") {
        Kind::Coords
    } else if is_word(word, b"scalar") {
        Kind::Structure
    } else {
        Kind::Kept
    }
}
