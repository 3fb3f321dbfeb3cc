//! The records of elements.

ghost use Rattle.std.specs.Prelude.{◌≡◌, ◌*◌, map, pos, codes, IfOk};
ghost use Rattle.pd_atom.specs.Names.{Extends, interned};
ghost use Rattle.pd_canvas.specs.Pages.{empty_page};
ghost use Rattle.pd_canvas.specs.Views.{entry_of, shape_of, held};
ghost use Rattle.pd_canvas.specs.Edits.{new_header as header_of, new_name as name_of_new};
ghost use Rattle.pd_doc.specs.Pieces.{piece};
ghost use Rattle.pd_doc.specs.Results.{Answers, outcome_in};
ghost use Rattle.pd_doc.specs.Records.{makes_canvas as makes_canvas_of, form_of, zeros as zeros_of, entry_of_form, element as element_of, closing as closing_of, array as array_of};
ghost use Rattle.pd_doc.specs.Views.{state_of};

use crate::atoms::{atoms, name_refusal};
use crate::fields::{array_size, behind, position, size, split_width};
use crate::kinds::BoxWord;
use crate::levels::{Reader, push_box};
use crate::lexemes::{Lexeme, spells};
use crate::records::{ATOMS, DEPTH, room};
use crate::refusal::DocRefusal;
use pd_atom::{Atom, Sym, Symbols};
use pd_canvas::{AtomRows, Atoms, Canvas, Element, Form, Nums};
use pd_num::Num;
use std::alloc::{AllocError, Global};

/// The greatest size of an array.
const VALUES: u64 = 16_777_216;

/// A number of so many whole units.
fn whole(units: u16) -> Num
    ensures { result ≡ pos (units * 1000000) }
{
    match Num::of_micros(i64::from(units) * 1_000_000) {
        Some(number) => number,
        None => unreachable!(),
    }
}

/// The header of the canvas that an object's text makes.
fn new_header(alloc: Global, text: &Atoms) -> Result<Atoms, AllocError>
    ensures { IfOk result (λ h. h ≡ header_of text.now) }
{
    let mut header = Atoms::new(alloc);
    header.push(Atom::Number(whole(0)))?;
    header.push(Atom::Number(whole(0)))?;
    header.push(Atom::Number(whole(450)))?;
    header.push(Atom::Number(whole(300)))?;
    header.push(new_name(text.as_slice()))?;
    header.push(Atom::Number(whole(0)))?;
    Ok(header)
}

/// The name of the canvas that an object's text makes.
fn new_name(text: &[Atom]) -> Atom
    ensures { result ≡ name_of_new text.now }
{
    match text {
        [_, name, ..] => *name,
        _ => Atom::Symbol(Sym::subpatch()),
    }
}

/// Whether the text of an element makes a new canvas.
fn makes_canvas(word: BoxWord, text: &[Lexeme<'_>]) -> bool
    ensures { result ≡ makes_canvas_of word (map piece text.now) }
{
    match (word, text) {
        (BoxWord::Obj, [first, ..]) => spells(*first, b"pd"),
        _ => false,
    }
}

/// The form of an element by its word.
#[tactic(auto, unfolding(crate::specs::Records::form_of), using(crate::proofs::ResultLemmas::result_steps))]
fn form(word: BoxWord, number: u32, symbols: &mut Symbols) -> Result<Form, DocRefusal>
    ensures exact { Answers (λ f. (shape_of f, symbols.new)) result (form_of word number symbols.old) }
    ensures empty { IfOk result (λ f. held f ≡ empty_page) }
    ensures extends { Extends symbols.old symbols.new }
{
    Ok(match word {
        BoxWord::Obj => Form::Obj,
        BoxWord::Msg => Form::Msg,
        BoxWord::Text => Form::Comment,
        BoxWord::FloatAtom => Form::FloatBox,
        BoxWord::SymbolAtom => Form::SymbolBox,
        BoxWord::ListBox => Form::Other(list_box(number, symbols)?),
    })
}

/// The symbol `listbox`.
#[tactic(auto, using(crate::proofs::ResultLemmas::result_steps))]
fn list_box(number: u32, symbols: &mut Symbols) -> Result<Sym, DocRefusal>
    ensures exact { Answers (λ s. (s, symbols.new)) result (outcome_in number (interned symbols.old (codes "listbox"))) }
    ensures extends { Extends symbols.old symbols.new }
{
    match symbols.intern(b"listbox") {
        Ok(sym) => Ok(sym),
        Err(refusal) => Err(name_refusal(refusal, number)),
    }
}

/// An element, whose text may make a new canvas.
fn new_element(
    alloc: Global,
    is_new: bool,
    form: Form,
    at: (Num, Num),
    text: Atoms,
    width: Option<Num>,
) -> Result<Element, AllocError>
    requires { held form ≡ empty_page }
    ensures { IfOk result (λ e. entry_of e ≡ entry_of_form is_new (shape_of form) at text width) }
{
    let form = if is_new {
        let header = new_header(alloc, &text)?;
        Form::Sub(Box::new(alloc, Canvas::new(alloc, header))?)
    } else {
        form
    };
    Ok(Element {
        x: at.0,
        y: at.1,
        form,
        text,
        width,
        tail: AtomRows::new(alloc),
    })
}

/// `#X`, the word of an element, a position, and a text with or without a width.
#[tactic(auto, unfolding(crate::specs::Records::element), using(crate::proofs::ResultLemmas::result_steps))]
pub(crate) fn element(
    alloc: Global,
    word: BoxWord,
    reader: &mut Reader,
    lexemes: &[Lexeme<'_>],
    number: u32,
    symbols: &mut Symbols,
) -> Result<(), DocRefusal>
    ensures exact { Answers (λ _. (state_of reader.new, symbols.new)) result (element_of word (state_of reader.old) symbols.old number (map piece lexemes.now)) }
    ensures extends { Extends symbols.old symbols.new }
{
    let (text, width) = split_width(behind(lexemes, 2));
    let is_new = makes_canvas(word, text);
    if text.len() > ATOMS {
        return Err(DocRefusal::TooLong { number });
    }
    let at = position(lexemes, number)?;
    if is_new && reader.canvases.len() >= DEPTH {
        return Err(DocRefusal::TooDeep { number });
    }
    room(reader, number)?;
    let form = form(word, number, symbols)?;
    let text = atoms(alloc, text, number, symbols)?;
    push_box(reader, new_element(alloc, is_new, form, at, text, width)?)?;
    Ok(())
}

/// `#X restore`, a position, and a text with or without a width.
#[tactic(auto, unfolding(crate::specs::Records::closing), using(crate::proofs::ResultLemmas::result_steps))]
pub(crate) fn closing(
    alloc: Global,
    reader: &mut Reader,
    lexemes: &[Lexeme<'_>],
    number: u32,
    symbols: &mut Symbols,
) -> Result<(), DocRefusal>
    ensures exact { Answers (λ _. (state_of reader.new, symbols.new)) result (closing_of (state_of reader.old) symbols.old number (map piece lexemes.now)) }
    ensures extends { Extends symbols.old symbols.new }
{
    let (text, width) = split_width(behind(lexemes, 2));
    if text.len() > ATOMS {
        return Err(DocRefusal::TooLong { number });
    }
    let (x, y) = position(lexemes, number)?;
    if reader.canvases.len() < 2 {
        return Err(DocRefusal::BadRecord { number });
    }
    room(reader, number)?;
    let text = atoms(alloc, text, number, symbols)?;
    let Some(canvas) = reader.canvases.pop() else {
        return Err(DocRefusal::BadRecord { number });
    };
    let form = Form::Sub(Box::new(alloc, canvas.close()?)?);
    push_box(
        reader,
        Element {
            x,
            y,
            form,
            text,
            width,
            tail: AtomRows::new(alloc),
        },
    )?;
    Ok(())
}

/// So many values of 0.
fn zeros(alloc: Global, size: u64) -> Result<Nums, AllocError>
    ensures { IfOk result (λ values. values ≡ zeros_of size) }
{
    let mut values = Vec::new(alloc);
    values.resize(size as usize, whole(0))?;
    Ok(Nums::from_vec(values))
}

/// `#X array` and a text.
#[tactic(auto, unfolding(crate::specs::Records::array), using(crate::proofs::ResultLemmas::result_steps))]
pub(crate) fn array(
    alloc: Global,
    reader: &mut Reader,
    text: &[Lexeme<'_>],
    number: u32,
    symbols: &mut Symbols,
) -> Result<(), DocRefusal>
    ensures exact { Answers (λ _. (state_of reader.new, symbols.new)) result (array_of (state_of reader.old) symbols.old number (map piece text.now)) }
    ensures extends { Extends symbols.old symbols.new }
{
    if text.len() > ATOMS || size(text).is_some_and(|size| size > VALUES) {
        return Err(DocRefusal::TooLong { number });
    }
    let size = array_size(text, number)?;
    room(reader, number)?;
    let text = atoms(alloc, text, number, symbols)?;
    push_box(
        reader,
        Element {
            x: whole(0),
            y: whole(0),
            form: Form::Array(zeros(alloc, size)?),
            text,
            width: None,
            tail: AtomRows::new(alloc),
        },
    )?;
    Ok(())
}
