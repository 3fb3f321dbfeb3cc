//! Copies of documents.

ghost use Rattle.std.specs.Prelude.{◌≡◌, IfOk};
ghost use Rattle.pd_canvas.specs.Views.{shape_of, held, entry_of, entries_of};

use crate::tree::{Canvas, Doc, Element, Elements, Form};
use std::alloc::{AllocError, Global};

/// A document that equals another and shares nothing with it.
pub fn copy(doc: &Doc) -> Result<Doc, AllocError>
    ensures { IfOk result (λ d. d ≡ doc.now) }
{
    let root = copy_canvas(&doc.root)?;
    Ok(Doc { root })
}

#[cycle(copy)]
fn copy_canvas(canvas: &Canvas) -> Result<Canvas, AllocError>
    ensures { IfOk result (λ c. c ≡ canvas.now) }
{
    let boxes = canvas.boxes.as_slice();
    let copies = copy_elements(canvas.boxes.alloc(), boxes)?;
    Ok(Canvas {
        header: canvas.header.copy()?,
        kept: canvas.kept.copy()?,
        boxes: Elements::from_vec(copies),
        wires: canvas.wires.copy()?,
        coords: canvas.coords.copy()?,
    })
}

#[cycle(copy)]
fn copy_elements(alloc: Global, elements: &[Element]) -> Result<Vec<Element>, AllocError>
    ensures { IfOk result (λ v. entries_of v.items ≡ entries_of elements.now) }
{
    let mut copies = Vec::with_capacity(alloc, elements.len())?;
    for element in elements {
        copies.push(copy_element(element)?)?;
    }
    Ok(copies)
}

/// An element that equals another and shares nothing with it.
#[cycle(copy)]
pub fn copy_element(element: &Element) -> Result<Element, AllocError>
    ensures { IfOk result (λ e. entry_of e ≡ entry_of element.now) }
{
    Ok(Element {
        x: element.x,
        y: element.y,
        form: copy_form(&element.form)?,
        text: element.text.copy()?,
        width: element.width,
        tail: element.tail.copy()?,
    })
}

#[cycle(copy)]
fn copy_form(form: &Form) -> Result<Form, AllocError>
    ensures shape { IfOk result (λ f. shape_of f ≡ shape_of form.now) }
    ensures held { IfOk result (λ f. held f ≡ held form.now) }
{
    match form {
        Form::Obj => Ok(Form::Obj),
        Form::Msg => Ok(Form::Msg),
        Form::Comment => Ok(Form::Comment),
        Form::FloatBox => Ok(Form::FloatBox),
        Form::SymbolBox => Ok(Form::SymbolBox),
        Form::Sub(canvas) => {
            let inner = copy_canvas(canvas.as_ref())?;
            Ok(Form::Sub(Box::new(*Box::allocator(canvas), inner)?))
        }
        Form::Array(values) => Ok(Form::Array(values.copy()?)),
        Form::Other(sym) => Ok(Form::Other(*sym)),
    }
}
