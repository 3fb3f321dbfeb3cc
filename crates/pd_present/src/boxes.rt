//! A box with what it has at present, but for the canvas that it holds.

ghost use Rattle.std.specs.Prelude.{◌≡◌, IfOk};
ghost use Rattle.std.specs.Option.{option_copied};
ghost use Rattle.pd_canvas.specs.Arrays.{is_saved as is_saved_text};
ghost use Rattle.pd_canvas.specs.Views.{entry_of, held, shape_of};
ghost use Rattle.pd_present.specs.Contents.{present_form, present_head, present_text, present_values};
ghost use Rattle.pd_present.specs.Presents.{blank_entry, held_in};

use crate::contents::{array_values, is_saved, message_text, object_text};
use pd_canvas::{AtomRows, Atoms, Canvas, Element, Form, Nums};
use pd_kind::State;
use pd_num::Num;
use std::alloc::{AllocError, Global};

/// Stands for a box that isn't there.
pub(crate) fn blank(alloc: Global) -> Element
    ensures { entry_of result ≡ blank_entry }
{
    Element {
        x: Num::default(),
        y: Num::default(),
        form: Form::Comment,
        text: Atoms::new(alloc),
        width: None,
        tail: AtomRows::new(alloc),
    }
}

/// The present text of a box.
fn text_now(
    alloc: Global,
    form: &Form,
    state: Option<&State>,
    text: &Atoms,
) -> Result<Atoms, AllocError>
    ensures { IfOk result (λ a. a ≡ present_text (shape_of form.now) (option_copied state.entry) text.now) }
{
    match form {
        Form::Msg => message_text(alloc, state, text.as_slice()),
        Form::Obj => object_text(alloc, state, text.as_slice()),
        _ => text.copy(),
    }
}

fn array_now(
    alloc: Global,
    text: &Atoms,
    state: Option<&State>,
    values: &Nums,
) -> Result<Nums, AllocError>
    ensures { IfOk result (λ v. v ≡ present_values (is_saved_text text.now) (option_copied state.entry) values.now) }
{
    if is_saved(text.as_slice()) {
        array_values(alloc, state, values)
    } else {
        values.copy()
    }
}

/// The present form of a box; one that holds a canvas has this one.
fn form_now(
    alloc: Global,
    form: &Form,
    text: &Atoms,
    state: Option<&State>,
    inner: Canvas,
) -> Result<Form, AllocError>
    ensures shape { IfOk result (λ f. shape_of f ≡ present_form text.now (option_copied state.entry) (shape_of form.now)) }
    ensures held { IfOk result (λ f. held f ≡ held_in (shape_of form.now) inner) }
{
    match form {
        Form::Obj => Ok(Form::Obj),
        Form::Msg => Ok(Form::Msg),
        Form::Comment => Ok(Form::Comment),
        Form::FloatBox => Ok(Form::FloatBox),
        Form::SymbolBox => Ok(Form::SymbolBox),
        Form::Sub(_) => Ok(Form::Sub(Box::new(alloc, inner)?)),
        Form::Array(values) => Ok(Form::Array(array_now(alloc, text, state, values)?)),
        Form::Other(word) => Ok(Form::Other(*word)),
    }
}

/// A box with what it has at present; one that holds a canvas has this one.
pub(crate) fn element_now(
    alloc: Global,
    element: &Element,
    state: Option<&State>,
    inner: Canvas,
) -> Result<Element, AllocError>
    ensures { IfOk result (λ e. entry_of e ≡ record { head = present_head (option_copied state.entry) (entry_of element.now).head; page = held_in (shape_of element.now.form) inner }) }
{
    Ok(Element {
        x: element.x,
        y: element.y,
        form: form_now(alloc, &element.form, &element.text, state, inner)?,
        text: text_now(alloc, &element.form, state, &element.text)?,
        width: element.width,
        tail: element.tail.copy()?,
    })
}
