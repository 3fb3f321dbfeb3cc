//! What one record does: one function for each kind of record.

ghost use Rattle.std.specs.Prelude.{◌≡◌, ◌<◌, map, OnOk};
ghost use Rattle.pd_atom.specs.Names.{Extends};
ghost use Rattle.pd_doc.specs.Pieces.{piece};
ghost use Rattle.pd_doc.specs.Results.{Answers};
ghost use Rattle.pd_doc.specs.States.{with_kept, with_coords};
ghost use Rattle.pd_doc.specs.Records.{room_of, opening as opening_of, connect as connect_of, kept as kept_of};
ghost use Rattle.pd_doc.specs.Views.{state_of};

use crate::atoms::atoms;
use crate::fields::wire;
use crate::levels::{OpenCanvas, Reader, push_canvas, push_wire};
use crate::lexemes::Lexeme;
use crate::refusal::DocRefusal;
use pd_atom::Symbols;
use std::alloc::Global;

/// The greatest number of atoms of a text.
pub(crate) const ATOMS: usize = 1_024;

/// The greatest number of canvases in one another.
pub(crate) const DEPTH: usize = 256;

/// The greatest number of elements of a document.
const ELEMENTS: u32 = 16_384;

/// The greatest number of wires of a document.
const WIRES: u32 = 65_536;

/// A canvas with room for one element more is open.
pub(crate) fn room(reader: &Reader, number: u32) -> Result<(), DocRefusal>
    ensures exact { Answers (λ u. u) result (room_of (state_of reader.now) number) }
    ensures few { OnOk result (reader.now.elements < 16384) }
{
    if reader.canvases.is_empty() {
        return Err(DocRefusal::BadRecord { number });
    }
    if reader.elements >= ELEMENTS {
        return Err(DocRefusal::TooManyBoxes { number });
    }
    Ok(())
}

/// `#N canvas` and a header.
#[tactic(auto, unfolding(crate::specs::Records::opening), using(crate::proofs::ResultLemmas::result_steps))]
pub(crate) fn opening(
    alloc: Global,
    reader: &mut Reader,
    header: &[Lexeme<'_>],
    number: u32,
    symbols: &mut Symbols,
) -> Result<(), DocRefusal>
    ensures exact { Answers (λ _. (state_of reader.new, symbols.new)) result (opening_of (state_of reader.old) symbols.old number (map piece header.now)) }
    ensures extends { Extends symbols.old symbols.new }
{
    if header.len() > ATOMS {
        return Err(DocRefusal::TooLong { number });
    }
    if reader.canvases.len() >= DEPTH {
        return Err(DocRefusal::TooDeep { number });
    }
    let header = atoms(alloc, header, number, symbols)?;
    push_canvas(reader, OpenCanvas::new(alloc, number, header))?;
    Ok(())
}

/// `#X connect` and four numbers.
#[tactic(auto, unfolding(crate::specs::Records::connect), using(crate::proofs::ResultLemmas::result_steps))]
pub(crate) fn connect(
    reader: &mut Reader,
    lexemes: &[Lexeme<'_>],
    number: u32,
    symbols: &Symbols,
) -> Result<(), DocRefusal>
    ensures { Answers (λ _. (state_of reader.new, symbols.now)) result (connect_of (state_of reader.old) symbols.now number (map piece lexemes.now)) }
{
    let Some(wire) = wire(lexemes) else {
        return Err(DocRefusal::BadRecord { number });
    };
    if reader.canvases.is_empty() {
        return Err(DocRefusal::BadRecord { number });
    }
    if reader.wires >= WIRES {
        return Err(DocRefusal::TooManyWires { number });
    }
    push_wire(reader, wire)?;
    Ok(())
}

/// A kept record.
#[tactic(auto, unfolding(crate::specs::Records::kept), using(crate::proofs::ResultLemmas::result_steps))]
pub(crate) fn kept(
    alloc: Global,
    reader: &mut Reader,
    lexemes: &[Lexeme<'_>],
    number: u32,
    symbols: &mut Symbols,
) -> Result<(), DocRefusal>
    ensures exact { Answers (λ _. (state_of reader.new, symbols.new)) result (kept_of with_kept (state_of reader.old) symbols.old number (map piece lexemes.now)) }
    ensures extends { Extends symbols.old symbols.new }
{
    if lexemes.len() > ATOMS {
        return Err(DocRefusal::TooLong { number });
    }
    let Some(mut canvas) = reader.canvases.pop() else {
        return Err(DocRefusal::BadRecord { number });
    };
    canvas.kept.push(atoms(alloc, lexemes, number, symbols)?)?;
    reader.canvases.push(canvas)?;
    Ok(())
}

/// `#X coords` and atoms.
#[tactic(auto, unfolding(crate::specs::Records::kept), using(crate::proofs::ResultLemmas::result_steps))]
pub(crate) fn coords(
    alloc: Global,
    reader: &mut Reader,
    lexemes: &[Lexeme<'_>],
    number: u32,
    symbols: &mut Symbols,
) -> Result<(), DocRefusal>
    ensures exact { Answers (λ _. (state_of reader.new, symbols.new)) result (kept_of with_coords (state_of reader.old) symbols.old number (map piece lexemes.now)) }
    ensures extends { Extends symbols.old symbols.new }
{
    if lexemes.len() > ATOMS {
        return Err(DocRefusal::TooLong { number });
    }
    let Some(mut canvas) = reader.canvases.pop() else {
        return Err(DocRefusal::BadRecord { number });
    };
    canvas.coords.push(atoms(alloc, lexemes, number, symbols)?)?;
    reader.canvases.push(canvas)?;
    Ok(())
}
