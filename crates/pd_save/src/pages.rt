//! Whether documents are of a table.

ghost use Rattle.std.specs.Prelude.{◌↔◌, IsTrue};
ghost use Rattle.pd_canvas.specs.Pages.{boxed};
ghost use Rattle.pd_canvas.specs.Views.{entry_of, entries_of};
ghost use Rattle.pd_doc.specs.Atoms.{HeadOf, BoxesOf, EntryOf, PageOf};

use crate::atoms::{atoms_are_of, form_is_of, rows_are_of};
use pd_atom::Symbols;
use pd_canvas::{Canvas, Doc, Element, Form};

/// Whether all atoms and names of a document are of a table.
pub(crate) fn is_of(doc: &Doc, symbols: &Symbols) -> bool
    ensures { IsTrue result ↔ PageOf symbols.now doc.now.root }
{
    canvas_is_of(&doc.root, symbols)
}

#[cycle(is_of)]
fn canvas_is_of(canvas: &Canvas, symbols: &Symbols) -> bool
    ensures { IsTrue result ↔ PageOf symbols.now canvas.now }
{
    let boxes = canvas.boxes.as_slice();
    atoms_are_of(canvas.header.as_slice(), symbols)
        && rows_are_of(canvas.kept.as_slice(), symbols)
        && rows_are_of(canvas.coords.as_slice(), symbols)
        && boxes_are_of(boxes, symbols)
}

#[cycle(is_of)]
fn boxes_are_of(elements: &[Element], symbols: &Symbols) -> bool
    ensures { IsTrue result ↔ BoxesOf symbols.now (boxed (entries_of elements.now)) }
{
    for element in elements {
        if !box_is_of(element, symbols) {
            return false;
        }
    }
    true
}

#[cycle(is_of)]
fn box_is_of(element: &Element, symbols: &Symbols) -> bool
    ensures { IsTrue result ↔ EntryOf symbols.now (entry_of element.now) }
{
    if !head_is_of(element, symbols) {
        return false;
    }
    match &element.form {
        Form::Sub(canvas) => canvas_is_of(canvas.as_ref(), symbols),
        _ => true,
    }
}

fn head_is_of(element: &Element, symbols: &Symbols) -> bool
    ensures { IsTrue result ↔ HeadOf symbols.now (entry_of element.now).head }
{
    atoms_are_of(element.text.as_slice(), symbols)
        && rows_are_of(element.tail.as_slice(), symbols)
        && form_is_of(&element.form, symbols)
}
