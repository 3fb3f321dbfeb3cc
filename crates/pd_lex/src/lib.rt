//! The text of Pd patches and scripts: its records, their tokens, and the backslashes in names.
//!
//! White space is space, tab, line feed and carriage return. A unit is a byte that is neither white space, comma,
//! semicolon nor backslash, or a backslash with any one byte behind it. A token is a longest run of units, or one
//! comma by itself. A record is tokens, with white space between them or around them, and then a semicolon. A text
//! is records and then white space alone; what else stands behind its last record is an unfinished rest. A place is
//! a count of bytes from the start of the text.
//!
//! `next_record` and `next_token` find the records and tokens that a text stands for by a relation on whole texts;
//! that every text stands for at most one list of records, and that it is the one that is read, is the law
//! `one_reading`. `unescape` gives a token's bytes without their backslashes, and False exactly above 255 bytes;
//! `put_escaped` puts the backslashes back, and what it puts reads as the name (law `escapes_read`). Want of memory
//! is the only failure, of `put_escaped` alone.
//!
//! Definitions: `Text` (the relation), `Reading` (the same, read from the left).
#![tactic(auto)]

ghost use Rattle.std.specs.Prelude.{ℕ, List, ◌≡◌, ◌+◌, ◌-◌, ◌≤◌, length, slice_range, IsTrue, MatchOption, IfSome, ◌<◌, drop, [], None};
ghost use Rattle.std.specs.List.{prefix_len};
ghost use Rattle.pd_lex.specs.Text.{is_space as is_space_byte, is_stop as is_stop_byte, Piece, AreSpaces, StandsForPieces, StandsFor};
ghost use Rattle.pd_lex.specs.Reading.{units_len, semicolon as semicolon_at, step_at, IsMark, is_body, pieces, records, rest_of, Reads, KeepsRest, IsFront, IsFirst, IsNext};

use memchr::memchr2;

mod escapes;

pub use escapes::{escapes_read, put_escaped, unescape};

/// What comes next in a text.
#[derive(Debug, Clone, Copy, PartialEq, Eq)]
pub enum Step {
    /// A record. `first` is the place of its first byte that isn't white space, which is its
    /// semicolon where it has no token, and `after` the place behind its semicolon.
    Rec { first: usize, after: usize },
    /// Only white space is left.
    End,
    /// An unfinished rest: more than white space, and no semicolon without a backslash. `byte` is
    /// the place of its first byte that isn't white space.
    Bad { byte: usize },
}

/// The place of a token's first byte, the place behind its last, and whether the token is a comma
/// without a backslash. The bytes between the places still have their backslashes.
#[derive(Debug, Clone, Copy, PartialEq, Eq)]
pub struct Token {
    pub first: usize,
    pub after: usize,
    pub bare_comma: bool,
}

fn is_space(b: u8) -> bool
    ensures { result ≡ is_space_byte b }
{
    b == b' ' || b == b'\t' || b == b'\n' || b == b'\r'
}

fn is_stop(b: u8) -> bool
    ensures { result ≡ is_stop_byte b }
{
    is_space(b) || b == b',' || b == b';'
}

/// How much white space comes first.
#[tactic(auto, using(crate::proofs::Steps::space_steps))]
fn spaces(bytes: &[u8]) -> usize
    ensures within { result ≤ length bytes.now }
    ensures value { result ≡ prefix_len is_space_byte bytes.now }
{
    for (i, b) in bytes.iter().enumerate() {
        if !is_space(*b) {
            return i;
        }
    }
    bytes.len()
}

/// How many bytes the longest run of units at the front has.
#[tactic(auto, using(crate::proofs::Steps::unit_steps))]
fn units(bytes: &[u8]) -> usize
    ensures within { result ≤ length bytes.now }
    ensures value { result ≡ units_len bytes.now }
{
    let mut i = 0;
    while i < bytes.len() {
        if bytes[i] == b'\\' {
            if i + 1 == bytes.len() {
                return i;
            }
            i += 2;
        } else if is_stop(bytes[i]) {
            return i;
        } else {
            i += 1;
        }
    }
    i
}

/// The first semicolon or backslash from a place on.
fn mark(bytes: &[u8], at: usize) -> Option<usize>
    requires { at ≤ length bytes.now }
    ensures { MatchOption result (semicolon_at (drop at bytes.now) ≡ None) (IsMark bytes.now at) }
{
    let found = memchr2(b';', b'\\', &bytes[at..])?;
    Some(at + found)
}

/// Where the first semicolon without a backslash is.
#[tactic(auto, using(crate::proofs::Marks::mark_steps))]
fn semicolon(bytes: &[u8]) -> Option<usize>
    ensures within { IfSome result (λ k. k < length bytes.now) }
    ensures value { result ≡ semicolon_at bytes.now }
{
    let mut i = 0;
    while let Some(k) = mark(bytes, i) {
        if bytes[k] == b';' {
            return Some(k);
        }
        // behind the byte that the backslash takes along
        i = (k + 2).min(bytes.len());
    }
    None
}

/// The first token of a record's part: its first place, its length, and whether it is a comma.
fn first_token(rest: &[u8]) -> Option<(usize, usize, bool)>
    requires { IsTrue (is_body rest.now) }
    ensures { MatchOption result (pieces rest.now ≡ []) (IsFirst rest.now) }
{
    let blank = spaces(rest);
    if blank == rest.len() {
        return None;
    }
    if rest[blank] == b',' {
        return Some((blank, 1, true));
    }
    Some((blank, units(&rest[blank..]), false))
}

/// The next token of a record from the place `at`, where the record's semicolon is at `after`.
///
/// `at` is where the record begins, or the place behind a token of it. `after` is one less than the
/// place that `next_record` gives as the record's `after`. `None` says that only white space is left.
pub fn next_token(bytes: &[u8], at: usize, after: usize) -> Option<Token>
    requires order { at ≤ after }
    requires within { after ≤ length bytes.now }
    requires body { IsTrue (is_body (slice_range bytes.now at after)) }
    ensures { MatchOption result (pieces (slice_range bytes.now at after) ≡ []) (IsNext bytes.now at after) }
{
    let (blank, len, bare_comma) = first_token(&bytes[at..after])?;
    Some(Token {
        first: at + blank,
        after: at + blank + len,
        bare_comma,
    })
}

/// The next record from the place `at`, which is the start of the text or the place behind a record.
///
/// A backslash that ends the text has no byte to take along, so it belongs to an unfinished rest.
pub fn next_record(bytes: &[u8], at: usize) -> Step
    requires { at ≤ length bytes.now }
    ensures exact { result ≡ step_at bytes.now at }
    ensures records { Reads bytes.now at result }
    ensures rest { KeepsRest bytes.now at result }
{
    let rest = &bytes[at..];
    let blank = spaces(rest);
    if blank == rest.len() {
        return Step::End;
    }
    match semicolon(rest) {
        Some(k) => Step::Rec {
            first: at + blank,
            after: at + k + 1,
        },
        None => Step::Bad { byte: at + blank },
    }
}

/// A text stands for at most one list of records, and it is the one that is read.
///
/// `only` and `whole`: a text that is records and then white space alone stands for the records that
/// are read, and for no others. `spaces`: no other text stands for records. `front`: the records of
/// a text with an unfinished rest are those before the rest. `tokens` and `body`: the same of the
/// tokens before a record's semicolon.
pub fn one_reading()
    ensures only { (text : List ℕ) (rs : List (List Piece)) → StandsFor text rs → records text ≡ rs }
    ensures whole { (text : List ℕ) → AreSpaces (rest_of text) → StandsFor text (records text) }
    ensures spaces { (text : List ℕ) (rs : List (List Piece)) → StandsFor text rs → AreSpaces (rest_of text) }
    ensures front { (text : List ℕ) → (front : List ℕ) × IsFront text front }
    ensures tokens { (body : List ℕ) (ps : List Piece) → StandsForPieces body ps → pieces body ≡ ps }
    ensures body { (body : List ℕ) → IsTrue (is_body body) → StandsForPieces body (pieces body) }
{}
