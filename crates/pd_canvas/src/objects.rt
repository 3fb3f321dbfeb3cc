//! The elements that texts make.

ghost use Rattle.std.specs.Prelude.{◌≡◌, ◌∷◌, IfOk, if◌then◌else◌};
ghost use Rattle.pd_atom.specs.declared.Atom.TheVariants.{Symbol};
ghost use Rattle.pd_canvas.specs.Pages.{Obj, Sub, empty_page, page_with_header};
ghost use Rattle.pd_canvas.specs.Views.{shape_of, held, entry_of};
ghost use Rattle.pd_canvas.specs.Edits.{pd, begins_with_pd, new_name, new_header, element};

use crate::lists::{AtomRows, Atoms};
use crate::names::{is_pd_symbol, pd_symbol, subpatch_symbol, whole};
use crate::tree::{Canvas, Element, Form};
use pd_atom::Atom;
use pd_num::Num;
use std::alloc::{AllocError, Global};

/// An element without width and tail rows.
pub(crate) fn plain_element(alloc: Global, form: Form, x: Num, y: Num, text: Atoms) -> Element
    ensures { entry_of result ≡ element (shape_of form) (held form) x y text }
{
    Element {
        x,
        y,
        form,
        text,
        width: None,
        tail: AtomRows::new(alloc),
    }
}

/// What an object's text makes: a new subpatch where it begins with the symbol `pd`.
pub(crate) fn object_form(alloc: Global, text: &[Atom]) -> Result<Form, AllocError>
    ensures shape { IfOk result (λ f. shape_of f ≡ (if begins_with_pd text.now then Sub else Obj)) }
    ensures held { IfOk result (λ f. held f ≡ (if begins_with_pd text.now then page_with_header (new_header text.now) else empty_page)) }
{
    if starts_subpatch(text) {
        let canvas = Canvas::new(alloc, header_for(alloc, text)?);
        Ok(Form::Sub(Box::new(alloc, canvas)?))
    } else {
        Ok(Form::Obj)
    }
}

pub(crate) fn starts_subpatch(text: &[Atom]) -> bool
    ensures { result ≡ begins_with_pd text.now }
{
    match text {
        [] => false,
        [first, ..] => is_pd_symbol(*first),
    }
}

/// The header of a new subpatch.
fn header_for(alloc: Global, text: &[Atom]) -> Result<Atoms, AllocError>
    ensures { IfOk result (λ h. h ≡ new_header text.now) }
{
    let header = [
        Atom::Number(whole(0)),
        Atom::Number(whole(0)),
        Atom::Number(whole(450)),
        Atom::Number(whole(300)),
        name_for(text),
        Atom::Number(whole(0)),
    ];
    Ok(Atoms::from_vec(Vec::from_slice(alloc, &header)?))
}

fn name_for(text: &[Atom]) -> Atom
    ensures { result ≡ new_name text.now }
{
    match text {
        [_, name, ..] => *name,
        _ => subpatch_symbol(),
    }
}

/// A text after the symbol `pd`.
pub(crate) fn subpatch_text(name: &Atoms) -> Result<Atoms, AllocError>
    ensures { IfOk result (λ t. t ≡ Symbol pd ∷ name.now) }
{
    let mut text = Vec::new(name.alloc());
    text.push(pd_symbol())?;
    text.extend_from_slice(name.as_slice())?;
    Ok(Atoms::from_vec(text))
}
