//! The tokens of a record, one after the other.

ghost use Rattle.std.specs.Prelude.{◌≡◌, ◌<◌, ◌≤◌, ◌+◌, [], ◌∷◌, length, map, not, true, false, IsTrue, IfSome, IfNone, MatchOption, vec_capacity};
ghost use Rattle.std.specs.List.{list_any, AllByRecursion};
ghost use Rattle.pd_lex.specs.Text.{unescaped};
ghost use Rattle.pd_lex.specs.Reading.{is_body, pieces};
ghost use Rattle.pd_script.specs.Tokens.{tokens_of, bytes_of, piece_in, is_long, is_empty, IsToken, most_tokens};
ghost use Rattle.pd_script.specs.Splits.{IsSplit};

use arrayvec::ArrayVec;
use pd_lex::{next_token, unescape};
use std::marker::Model;

/// A token without its escapes.
pub(crate) type Word = ArrayVec<u8, 255>;

/// The tokens that are left of a record, which contracts see as the list of their bytes without escapes.
#[derive(Drop)]
pub(crate) struct Tokens<'a> {
    body: &'a [u8],
}

impl<'a> Model for Tokens<'a> {
    ghost use Rattle.std.specs.Prelude.{List, ℕ};
    ghost use Rattle.pd_script.specs.Tokens.{tokens_of, IsReadable};

    ghost Value = { List (List ℕ) };

    ghost view = { λ t. tokens_of t.body.now };

    ghost invariant = { λ t. IsReadable t.body.now };
}

/// The first token: its bytes with their escapes, whether it is a comma by itself, and what stands behind it.
fn split_token(body: &[u8]) -> Option<(&[u8], bool, &[u8])>
    requires { IsTrue (is_body body.now) }
    ensures { MatchOption result (pieces body.now ≡ []) (λ r. IsSplit body.now r.0.now r.1 r.2.now) }
{
    let token = next_token(body, 0, body.len())?;
    Some((
        &body[token.first..token.after],
        token.bare_comma,
        &body[token.after..],
    ))
}

/// The bytes of a token without its escapes, and none where they are more than 255.
fn word(raw: &[u8], bare_comma: bool) -> Option<Word>
    ensures none { IfNone result (is_long (bytes_of (piece_in raw.now bare_comma)) ≡ true) }
    ensures some { IfSome result (λ w. (w.items ≡ bytes_of (piece_in raw.now bare_comma)) × (is_long w.items ≡ false)) }
{
    let mut word = ArrayVec::new();
    if bare_comma {
        word.push(b',');
        return Some(word);
    }
    if unescape(raw, &mut word) {
        Some(word)
    } else {
        None
    }
}

/// Whether no token is too long.
fn are_short(bytes: &[u8]) -> bool
    requires { IsTrue (is_body bytes.now) }
    ensures long { list_any is_long (tokens_of bytes.now) ≡ not result }
    ensures tokens { IsTrue result → AllByRecursion IsToken (tokens_of bytes.now) }
    ensures few { IsTrue result → length (tokens_of bytes.now) ≤ length bytes.now }
{
    let mut rest = bytes;
    while let Some((raw, bare_comma, after)) = split_token(rest) {
        if word(raw, bare_comma).is_none() {
            return false;
        }
        rest = after;
    }
    true
}

impl<'a> Tokens<'a> {
    /// The tokens of a record, which stands without its semicolon; none where one is too long.
    pub(crate) fn new(bytes: &'a [u8]) -> Option<Tokens<'a>>
        requires body { IsTrue (is_body bytes.now) }
        requires few { length bytes.now ≤ most_tokens }
        ensures none { IfNone result (list_any is_long (tokens_of bytes.now) ≡ true) }
        ensures some { IfSome result (λ t. (t ≡ tokens_of bytes.now) × (list_any is_long (tokens_of bytes.now) ≡ false)) }
    {
        if are_short(bytes) {
            Some(Tokens { body: bytes })
        } else {
            None
        }
    }

    /// The next token, and none at the end.
    pub(crate) fn next(&mut self) -> Option<Word>
        ensures none { IfNone result (self.old ≡ []) }
        ensures some { IfSome result (λ w. (self.old ≡ w.items ∷ self.new) × (0 < length w.items)) }
        ensures few { length self.old ≤ most_tokens }
    {
        let (raw, bare_comma, after) = split_token(self.body)?;
        let word = word(raw, bare_comma)?;
        self.body = after;
        Some(word)
    }

    /// Whether no token is left.
    pub(crate) fn is_empty(&self) -> bool
        ensures value { result ≡ is_empty self.now }
        ensures few { length self.now ≤ most_tokens }
    {
        split_token(self.body).is_none()
    }
}
