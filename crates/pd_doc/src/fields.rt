//! The fields of records.

ghost use Rattle.std.specs.Prelude.{◌≡◌, ◌≤◌, map, drop, option_map, IfOk};
ghost use Rattle.pd_doc.specs.Pieces.{piece, width_of, width_in, text_in, numbers_of};
ghost use Rattle.pd_doc.specs.Results.{Answers};
ghost use Rattle.pd_doc.specs.Fields.{position_of, size_in, array_size as array_size_of, is_name as is_name_piece, starts_with_name, whole_from, whole_of, wire_of};
ghost use Rattle.pd_canvas.specs.Arrays.{units_of, size_of, is_odd as is_odd_atom, is_saved as is_saved_text};

use crate::lexemes::{Lexeme, number_at, spells};
use crate::refusal::DocRefusal;
use pd_atom::Atom;
use pd_canvas::Wire;
use pd_num::Num;
use std::alloc::{AllocError, Global};

/// The tokens without the first ones.
#[tactic(auto, using(crate::proofs::PieceLemmas::pieces_behind))]
pub(crate) fn behind<'a, 'b>(lexemes: &'b [Lexeme<'a>], count: usize) -> &'b [Lexeme<'a>]
    ensures { map piece result.now ≡ drop count (map piece lexemes.now) }
{
    if count <= lexemes.len() {
        &lexemes[count..]
    } else {
        &lexemes[lexemes.len()..]
    }
}

/// The position that the first two tokens give.
pub(crate) fn position(lexemes: &[Lexeme<'_>], number: u32) -> Result<(Num, Num), DocRefusal>
    ensures { Answers (λ at. at) result (position_of number (map piece lexemes.now)) }
{
    match lexemes {
        [x, y, ..] => match (number_at(*x), number_at(*y)) {
            (Some(x), Some(y)) => Ok((x, y)),
            _ => Err(DocRefusal::BadRecord { number }),
        },
        _ => Err(DocRefusal::BadRecord { number }),
    }
}

/// The width that the first three tokens give: a bare comma, `f` and a number.
fn width(lexemes: &[Lexeme<'_>]) -> Option<Num>
    ensures { result ≡ width_of (map piece lexemes.now) }
{
    match lexemes {
        [comma, f, number, ..] if comma.bare_comma && spells(*f, b"f") => number_at(*number),
        _ => None,
    }
}

/// The tokens of a text without the width at their end, and the width.
pub(crate) fn split_width<'a, 'b>(lexemes: &'b [Lexeme<'a>]) -> (&'b [Lexeme<'a>], Option<Num>)
    ensures text { map piece result.0.now ≡ text_in (map piece lexemes.now) }
    ensures width { result.1 ≡ width_in (map piece lexemes.now) }
{
    let (text, end) = lexemes.split_at(lexemes.len().saturating_sub(3));
    let width = width(end);
    match width {
        Some(_) => (text, width),
        None => (lexemes, width),
    }
}

/// The numbers that the tokens spell, where each spells one.
pub(crate) fn numbers(alloc: Global, lexemes: &[Lexeme<'_>]) -> Result<Option<Vec<Num>>, AllocError>
    ensures { IfOk result (λ o. option_map (λ v. v.items) o ≡ numbers_of (map piece lexemes.now)) }
{
    let mut numbers = Vec::new(alloc);
    for lexeme in lexemes {
        match number_at(*lexeme) {
            Some(number) => numbers.push(number)?,
            None => return Ok(None),
        }
    }
    Ok(Some(numbers))
}

const UNIT: u64 = 1_000_000;

/// How many whole units a number has, toward zero, and 0 below zero.
pub(crate) fn units(number: Num) -> u64
    ensures { result ≡ units_of number }
{
    let micros = number.micros();
    if micros < 0 {
        0
    } else {
        micros.unsigned_abs() / UNIT
    }
}

/// The size that the second token of an array's text gives.
pub(crate) fn size(lexemes: &[Lexeme<'_>]) -> Option<u64>
    ensures { result ≡ size_in (map piece lexemes.now) }
{
    match lexemes {
        [_, size, ..] => match number_at(*size) {
            Some(number) => Some(units(number).max(1)),
            None => None,
        },
        _ => None,
    }
}

/// Whether a token reads as a symbol, a dollar or a dollar symbol.
fn is_name(lexeme: Lexeme<'_>) -> bool
    ensures { result ≡ is_name_piece (piece lexeme.entry) }
{
    !(spells(lexeme, b",") || spells(lexeme, b";") || number_at(lexeme).is_some())
}

/// The size of the array with this text.
pub(crate) fn array_size(lexemes: &[Lexeme<'_>], number: u32) -> Result<u64, DocRefusal>
    ensures { Answers (λ size. size) result (array_size_of number (map piece lexemes.now)) }
{
    match lexemes {
        [name, ..] if is_name(*name) => size(lexemes).ok_or(DocRefusal::BadRecord { number }),
        _ => Err(DocRefusal::BadRecord { number }),
    }
}

/// A whole number from 0 to 65,535.
fn whole(lexeme: Lexeme<'_>) -> Option<u32>
    ensures { result ≡ whole_of (piece lexeme.entry) }
{
    let micros = number_at(lexeme)?.micros();
    if micros < 0 {
        return None;
    }
    let count = micros.unsigned_abs();
    if count % UNIT == 0 && count / UNIT <= 65_535 {
        Some((count / UNIT) as u32)
    } else {
        None
    }
}

/// The wire that exactly four tokens give.
pub(crate) fn wire(lexemes: &[Lexeme<'_>]) -> Option<Wire>
    ensures { result ≡ wire_of (map piece lexemes.now) }
{
    match lexemes {
        [source, outlet, sink, inlet] => Some(Wire {
            source: whole(*source)?,
            outlet: whole(*outlet)?,
            sink: whole(*sink)?,
            inlet: whole(*inlet)?,
        }),
        _ => None,
    }
}

/// Whether the flags of an array, the fourth atom of its text, say that its values are saved.
pub(crate) fn is_saved(text: &[Atom]) -> bool
    ensures { result ≡ is_saved_text text.now }
{
    match text {
        [_, _, _, Atom::Number(flags), ..] => flags.micros().unsigned_abs() / UNIT % 2 == 1,
        _ => false,
    }
}
