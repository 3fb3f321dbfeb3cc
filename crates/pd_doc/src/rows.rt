//! Rows behind an element.

ghost use Rattle.std.specs.Prelude.{◌≡◌, ◌++◌, map, take, drop, option_map, IfOk};
ghost use Rattle.pd_atom.specs.Names.{Extends};
ghost use Rattle.pd_canvas.specs.Views.{entry_of, shape_of, held};
ghost use Rattle.pd_doc.specs.Pieces.{piece};
ghost use Rattle.pd_doc.specs.Results.{Answers};
ghost use Rattle.pd_doc.specs.States.{placed as placed_at, overlaid, with_head, with_values, placed_in};
ghost use Rattle.pd_doc.specs.Records.{values_of, row_of, row as row_in};
ghost use Rattle.pd_doc.specs.Views.{state_of};

use crate::atoms::atoms;
use crate::fields::{is_saved, numbers};
use crate::levels::Reader;
use crate::lexemes::Lexeme;
use crate::refusal::DocRefusal;
use pd_atom::Symbols;
use pd_canvas::{Element, Form, Nums};
use pd_num::Num;
use std::alloc::{AllocError, Global};

/// Writes a row over the first values, as far as there are values.
fn overlay(values: &mut [Num], row: &[Num])
    ensures { values.new ≡ overlaid row.now values.old }
{
    for i in 0..row.len().min(values.len()) {
        values[i] = row[i];
    }
}

/// Writes a row over the values from a place on.
fn overlay_from(values: &mut Vec<Num>, place: usize, row: &[Num])
    ensures { values.new.items ≡ take place values.old.items ++ overlaid row.now (drop place values.old.items) }
{
    if place < values.len() {
        overlay(&mut values[place..], row);
    }
}

/// Writes a row over the values from the place on that the whole units of a number name.
#[tactic(auto, using(crate::proofs::RowLemmas::place_steps, std::proofs::lemmas::List::drop_min))]
fn placed(values: Nums, start: Num, row: &[Num]) -> Nums
    ensures { result ≡ placed_at start row.now values }
{
    let mut values = values.into_vec();
    let micros = start.micros();
    let units = (micros.unsigned_abs() / 1_000_000) as usize;
    if micros >= 0 {
        overlay_from(&mut values, units, row);
        return Nums::from_vec(values);
    }
    let (_, row) = row.split_at(units.min(row.len()));
    overlay_from(&mut values, 0, row);
    Nums::from_vec(values)
}

/// The numbers of a row behind an array.
fn values(
    alloc: Global,
    form: &Form,
    lexemes: &[Lexeme<'_>],
) -> Result<Option<Vec<Num>>, AllocError>
    ensures { IfOk result (λ o. option_map (λ v. v.items) o ≡ values_of (shape_of form.now) (map piece lexemes.now)) }
{
    match form {
        Form::Array(_) => numbers(alloc, lexemes),
        _ => Ok(None),
    }
}

/// An array with a row of values, which it keeps where its flags say that they are saved.
fn with_numbers(element: Element, start: Num, row: &[Num]) -> Element
    ensures { entry_of result ≡ with_head (with_values start row.now (entry_of element).head) (entry_of element) }
{
    let Element {
        x,
        y,
        form,
        text,
        width,
        tail,
    } = element;
    let form = match form {
        Form::Array(values) if is_saved(text.as_slice()) => Form::Array(placed(values, start, row)),
        other => other,
    };
    Element {
        x,
        y,
        form,
        text,
        width,
        tail,
    }
}

/// An element with a row behind it.
#[tactic(auto, unfolding(crate::specs::Records::row_of), using(crate::proofs::ResultLemmas::result_steps))]
fn row_for(
    alloc: Global,
    element: Element,
    lexemes: &[Lexeme<'_>],
    number: u32,
    symbols: &mut Symbols,
) -> Result<Element, DocRefusal>
    ensures exact { Answers (λ e. (entry_of e, symbols.new)) result (row_of (entry_of element) symbols.old number (map piece lexemes.now)) }
    ensures extends { Extends symbols.old symbols.new }
{
    if let Some(numbers) = values(alloc, &element.form, lexemes)? {
        if let [start, row @ ..] = numbers.as_slice() {
            return Ok(with_numbers(element, *start, row));
        }
    }
    let mut element = element;
    element.tail.push(atoms(alloc, lexemes, number, symbols)?)?;
    Ok(element)
}

/// `#A` and a row.
#[tactic(auto, unfolding(crate::specs::Records::row), using(crate::proofs::ResultLemmas::result_steps, crate::proofs::RowLemmas::row_steps))]
pub(crate) fn row(
    alloc: Global,
    reader: &mut Reader,
    lexemes: &[Lexeme<'_>],
    number: u32,
    symbols: &mut Symbols,
) -> Result<(), DocRefusal>
    ensures exact { Answers (λ _. (state_of reader.new, symbols.new)) result (row_in (state_of reader.old) symbols.old number (map piece lexemes.now)) }
    ensures extends { Extends symbols.old symbols.new }
{
    let Some(mut canvas) = reader.canvases.pop() else {
        return Err(DocRefusal::BadRecord { number });
    };
    let Some(element) = canvas.boxes.pop() else {
        return Err(DocRefusal::BadRecord { number });
    };
    let element = row_for(alloc, element, lexemes, number, symbols)?;
    canvas.boxes.push(element)?;
    reader.canvases.push(canvas)?;
    Ok(())
}
