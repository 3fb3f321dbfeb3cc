//! Edits of a document.

ghost use Rattle.std.specs.Prelude.{◌≡◌, ◌↔◌, ◌<◌, length, IsTrue, OnOk, OnErr, IsSomeAnd, slice_get, option_and_then};
ghost use Rattle.pd_canvas.specs.Pages.{elements_of};
ghost use Rattle.pd_canvas.specs.Views.{entry_of, entries_of};
ghost use Rattle.pd_canvas.specs.Paths.{along, sub_page, inside, edit_at};
ghost use Rattle.pd_canvas.specs.Edits.{edited, CanRetype, CanMove, Fits};

use crate::changes::{add, add_object, connect, delete, disconnect, move_box, retype_box};
use crate::lists::{Atoms, Numbers};
use crate::objects::{starts_subpatch, subpatch_text};
use crate::tree::{Canvas, Doc, Element, Form, canvas_at};
use crate::wires::Wire;
use pd_atom::Sym;
use pd_num::Num;
use std::alloc::AllocError;

/// An edit of one canvas, which names its boxes by number.
#[derive(Debug, Drop)]
pub enum Edit {
    Obj { x: Num, y: Num, text: Atoms },
    Msg { x: Num, y: Num, text: Atoms },
    Comment { x: Num, y: Num, text: Atoms },
    FloatBox { x: Num, y: Num, text: Atoms },
    SymbolBox { x: Num, y: Num, text: Atoms },
    Sub { x: Num, y: Num, name: Atoms },
    Connect { wire: Wire },
    Disconnect { wire: Wire },
    Delete { number: u32 },
    Retype { number: u32, text: Atoms },
    Move { number: u32, x: Num, y: Num },
}

/// The canvas that an edit is for: its document, by name or the root document, and the path to the canvas by box numbers.
#[derive(Debug, Drop)]
pub struct Place {
    pub document: Option<Sym>,
    pub path: Numbers,
}

/// Whether an edit can be made in the canvas that a path leads to: there is such a canvas, the box that the edit names is in it,
/// and the verb is for that box.
pub fn can_apply(doc: &Doc, path: &[u32], edit: &Edit) -> bool
    ensures { IsTrue result ↔ IsSomeAnd (along path.now doc.now.root) (Fits edit.now) }
{
    match canvas_at(&doc.root, path) {
        Some(canvas) => fits(canvas, edit),
        None => false,
    }
}

fn fits(canvas: &Canvas, edit: &Edit) -> bool
    ensures { IsTrue result ↔ Fits edit.now canvas.now }
{
    match edit {
        Edit::Delete { number } => has_box(canvas, *number),
        Edit::Retype { number, .. } => can_retype(canvas, *number),
        Edit::Move { number, .. } => can_move(canvas, *number),
        _ => true,
    }
}

fn has_box(canvas: &Canvas, number: u32) -> bool
    ensures { IsTrue result ↔ (number < length (elements_of canvas.now)) }
{
    (number as usize) < canvas.box_count()
}

fn can_retype(canvas: &Canvas, number: u32) -> bool
    ensures { IsTrue result ↔ IsSomeAnd (slice_get (elements_of canvas.now) number) CanRetype }
{
    can_retype_in(canvas.boxes.as_slice(), number)
}

fn can_move(canvas: &Canvas, number: u32) -> bool
    ensures { IsTrue result ↔ IsSomeAnd (slice_get (elements_of canvas.now) number) CanMove }
{
    can_move_in(canvas.boxes.as_slice(), number)
}

fn can_retype_in(elements: &[Element], number: u32) -> bool
    ensures { IsTrue result ↔ IsSomeAnd (slice_get (entries_of elements.now) number) CanRetype }
{
    match elements.get(number as usize) {
        Some(element) => match element.form {
            Form::Obj | Form::Msg | Form::Comment => true,
            Form::Sub(_) => starts_subpatch(element.text.as_slice()),
            _ => false,
        },
        None => false,
    }
}

fn can_move_in(elements: &[Element], number: u32) -> bool
    ensures { IsTrue result ↔ IsSomeAnd (slice_get (entries_of elements.now) number) CanMove }
{
    match elements.get(number as usize) {
        Some(element) => !matches!(&element.form, Form::Array(_)),
        None => false,
    }
}

/// Makes an edit in the canvas that a path of box numbers leads to, and nowhere else. An object whose text begins with the
/// symbol `pd` is a new subpatch. The edit's texts are taken as they are, and no limit is asked for.
pub fn apply_plain(doc: &mut Doc, path: &[u32], edit: &Edit) -> Result<(), AllocError>
    requires { IsSomeAnd (along path.now doc.old.root) (Fits edit.now) }
    ensures ok { OnOk result (doc.new.root ≡ edit_at path.now (edited edit.now) doc.old.root) }
    ensures err { OnErr result (doc.new.root ≡ doc.old.root) }
{
    edit_canvas(&mut doc.root, path, edit)
}

#[cycle(edit)]
fn edit_canvas(canvas: &mut Canvas, path: &[u32], edit: &Edit) -> Result<(), AllocError>
    requires { IsSomeAnd (along path.now canvas.old) (Fits edit.now) }
    ensures ok { OnOk result (canvas.new ≡ edit_at path.now (edited edit.now) canvas.old) }
    ensures err { OnErr result (canvas.new ≡ canvas.old) }
{
    match path {
        [] => edit_here(canvas, edit),
        [number, rest @ ..] => {
            let elements = &mut canvas.boxes.items;
            let element = &mut elements[*number as usize];
            edit_inside(element, rest, edit)
        }
    }
}

#[cycle(edit)]
fn edit_inside(element: &mut Element, path: &[u32], edit: &Edit) -> Result<(), AllocError>
    requires { IsSomeAnd (option_and_then (along path.now) (sub_page (entry_of element.old))) (Fits edit.now) }
    ensures ok { OnOk result (entry_of element.new ≡ inside (edit_at path.now (edited edit.now)) (entry_of element.old)) }
    ensures err { OnErr result (entry_of element.new ≡ entry_of element.old) }
{
    match &mut element.form {
        Form::Sub(inner) => edit_canvas(inner, path, edit),
        _ => unreachable!(),
    }
}

fn edit_here(canvas: &mut Canvas, edit: &Edit) -> Result<(), AllocError>
    requires { Fits edit.now canvas.old }
    ensures ok { OnOk result (canvas.new ≡ edited edit.now canvas.old) }
    ensures err { OnErr result (canvas.new ≡ canvas.old) }
{
    match edit {
        Edit::Obj { x, y, text } => add_object(canvas, *x, *y, text.copy()?),
        Edit::Msg { x, y, text } => add(canvas, Form::Msg, *x, *y, text.copy()?),
        Edit::Comment { x, y, text } => add(canvas, Form::Comment, *x, *y, text.copy()?),
        Edit::FloatBox { x, y, text } => add(canvas, Form::FloatBox, *x, *y, text.copy()?),
        Edit::SymbolBox { x, y, text } => add(canvas, Form::SymbolBox, *x, *y, text.copy()?),
        Edit::Sub { x, y, name } => add_object(canvas, *x, *y, subpatch_text(name)?),
        Edit::Connect { wire } => connect(canvas, *wire),
        Edit::Disconnect { wire } => {
            disconnect(canvas, *wire);
            Ok(())
        }
        Edit::Delete { number } => {
            delete(canvas, *number);
            Ok(())
        }
        Edit::Retype { number, text } => retype_box(canvas, *number, text),
        Edit::Move { number, x, y } => {
            move_box(canvas, *number, *x, *y);
            Ok(())
        }
    }
}
