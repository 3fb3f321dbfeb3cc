//! The tokens of a record.

ghost use Rattle.std.specs.Prelude.{◌≡◌, ◌≤◌, ◌<◌, length, map, slice_range, OnOk, IsTrue, not};
ghost use Rattle.std.specs.List.{list_any};
ghost use Rattle.pd_lex.specs.Reading.{is_body, pieces};
ghost use Rattle.pd_doc.specs.Pieces.{piece, bytes_of, is_long, is_bare_comma, spells as spells_word, number_of};

use arrayvec::ArrayVec;
use pd_lex::{next_token, unescape};
use pd_num::Num;
use std::alloc::AllocError;

/// A token as it stands in the text, with its escapes.
#[derive(Clone, Copy)]
pub(crate) struct Lexeme<'a> {
    pub(crate) raw: &'a [u8],
    pub(crate) bare_comma: bool,
}

/// Leaves the tokens of a record in `out`.
pub(crate) fn split_record<'a>(
    bytes: &'a [u8],
    at: usize,
    after: usize,
    out: &mut Vec<Lexeme<'a>>,
) -> Result<(), AllocError>
    requires order { at ≤ after }
    requires within { after ≤ length bytes.now }
    requires body { IsTrue (is_body (slice_range bytes.now at after)) }
    ensures { OnOk result (map piece out.new.items ≡ pieces (slice_range bytes.now at after)) }
{
    out.clear();
    let mut place = at;
    while let Some(token) = next_token(bytes, place, after) {
        out.push(Lexeme {
            raw: &bytes[token.first..token.after],
            bare_comma: token.bare_comma,
        })?;
        place = token.after;
    }
    Ok(())
}

/// Leaves the bytes of a token without its escapes in `out`: false where they are more than 255.
pub(crate) fn unescape_lexeme(lexeme: Lexeme<'_>, out: &mut ArrayVec<u8, 255>) -> bool
    ensures fits { result ≡ not (is_long (piece lexeme.entry)) }
    ensures value { IsTrue result → out.new.items ≡ bytes_of (piece lexeme.entry) }
{
    if lexeme.bare_comma {
        out.clear();
        out.push(b',');
        true
    } else {
        unescape(lexeme.raw, out)
    }
}

/// Whether a token without its escapes has more than 255 bytes.
#[tactic(auto, using(crate::proofs::PieceLemmas::raw_fits))]
fn is_too_long(lexeme: Lexeme<'_>) -> bool
    ensures { result ≡ is_long (piece lexeme.entry) }
{
    let mut bytes = ArrayVec::new();
    lexeme.raw.len() > 255 && !unescape_lexeme(lexeme, &mut bytes)
}

/// Whether a token is too long.
pub(crate) fn has_long(lexemes: &[Lexeme<'_>]) -> bool
    ensures { result ≡ list_any is_long (map piece lexemes.now) }
{
    for lexeme in lexemes {
        if is_too_long(*lexeme) {
            return true;
        }
    }
    false
}

/// The number that a token spells.
pub(crate) fn number_at(lexeme: Lexeme<'_>) -> Option<Num>
    ensures { result ≡ number_of (piece lexeme.entry) }
{
    let mut bytes = ArrayVec::new();
    if unescape_lexeme(lexeme, &mut bytes) {
        Num::read(bytes.as_slice())
    } else {
        None
    }
}

/// Whether a token spells a word.
pub(crate) fn spells(lexeme: Lexeme<'_>, word: &[u8]) -> bool
    requires { length word.now ≤ 255 }
    ensures { result ≡ spells_word word.now (piece lexeme.entry) }
{
    let mut bytes = ArrayVec::new();
    unescape_lexeme(lexeme, &mut bytes) && bytes.as_slice() == word
}
