//! Writing a document.

ghost use Rattle.std.specs.Prelude.{◌≡◌, ◌++◌, OnOk, OnErr};
ghost use Rattle.pd_canvas.specs.Pages.{boxed};
ghost use Rattle.pd_canvas.specs.Views.{entry_of, entries_of};
ghost use Rattle.pd_doc.specs.Atoms.{HeadOf, BoxesOf, EntryOf, PageOf};
ghost use Rattle.pd_doc.specs.Writing.{text_of};
ghost use Rattle.pd_doc.specs.Lines.{page_text, boxes_text, box_text, element_text};

use crate::fields::is_saved;
use crate::lines::{
    push_atoms, push_line, push_rows, push_values, push_width, push_wires, push_word,
};
use pd_atom::{Atom, Symbols};
use pd_canvas::{Canvas, Doc, Element, Form};
use std::alloc::AllocError;

/// Appends the text of a document: each record on one line, its atoms separated by one space.
///
/// A canvas is written in the order header, kept records, elements each with its tail rows, connects, coords.
/// Connects stand in the order of the canvas's wires. Give wires that are sorted by source, then outlet, as those of a
/// proper document are: reading the text of others sorts them, and so doesn't give the same document back.
/// After a refusal for want of memory `out` is as before.
#[tactic(auto, using(crate::proofs::LineLemmas::page_lines))]
pub fn write(doc: &Doc, symbols: &Symbols, out: &mut Vec<u8>) -> Result<(), AllocError>
    requires { PageOf symbols.now doc.now.root }
    ensures ok { OnOk result (out.new.items ≡ out.old.items ++ text_of symbols.now doc.now.root) }
    ensures err { OnErr result (out.new.items ≡ out.old.items) }
{
    let mut text = Vec::new(*out.allocator());
    push_canvas(&doc.root, symbols, &mut text)?;
    out.extend_from_slice(text.as_slice())
}

/// Appends the text of a canvas.
#[cycle(write)]
fn push_canvas(canvas: &Canvas, symbols: &Symbols, out: &mut Vec<u8>) -> Result<(), AllocError>
    requires { PageOf symbols.now canvas.now }
    ensures { OnOk result (out.new.items ≡ out.old.items ++ page_text symbols.now canvas.now) }
{
    push_line(symbols, b"#N canvas", canvas.header.as_slice(), out)?;
    push_rows(symbols, b"#X", canvas.kept.as_slice(), out)?;
    let boxes = canvas.boxes.as_slice();
    push_boxes(boxes, symbols, out)?;
    push_wires(symbols, canvas.wires.as_slice(), out)?;
    push_rows(symbols, b"#X coords", canvas.coords.as_slice(), out)
}

/// Appends the text of elements.
#[cycle(write)]
fn push_boxes(elements: &[Element], symbols: &Symbols, out: &mut Vec<u8>) -> Result<(), AllocError>
    requires { BoxesOf symbols.now (boxed (entries_of elements.now)) }
    ensures { OnOk result (out.new.items ≡ out.old.items ++ boxes_text symbols.now (boxed (entries_of elements.now))) }
{
    for element in elements {
        push_box(element, symbols, out)?;
    }
    Ok(())
}

/// Appends the text of an element.
#[cycle(write)]
fn push_box(element: &Element, symbols: &Symbols, out: &mut Vec<u8>) -> Result<(), AllocError>
    requires { EntryOf symbols.now (entry_of element.now) }
    ensures { OnOk result (out.new.items ≡ out.old.items ++ box_text symbols.now (entry_of element.now)) }
{
    match &element.form {
        Form::Array(values) => {
            push_line(symbols, b"#X array", element.text.as_slice(), out)?;
            if is_saved(element.text.as_slice()) {
                push_values(symbols, values.as_slice(), out)?;
            }
        }
        Form::Sub(canvas) => {
            push_canvas(canvas.as_ref(), symbols, out)?;
            push_element(element, symbols, out)?;
        }
        _ => push_element(element, symbols, out)?,
    }
    push_rows(symbols, b"#A", element.tail.as_slice(), out)
}

/// Appends the record of an element.
fn push_element(element: &Element, symbols: &Symbols, out: &mut Vec<u8>) -> Result<(), AllocError>
    requires { HeadOf symbols.now (entry_of element.now).head }
    ensures { OnOk result (out.new.items ≡ out.old.items ++ element_text symbols.now (entry_of element.now).head) }
{
    out.extend_from_slice(b"#X ")?;
    push_word(symbols, &element.form, out)?;
    push_atoms(
        symbols,
        &[Atom::Number(element.x), Atom::Number(element.y)],
        out,
    )?;
    push_atoms(symbols, element.text.as_slice(), out)?;
    push_width(symbols, element.width, out)?;
    out.extend_from_slice(b";\n")
}
