//! The changes that edits make in one canvas.

ghost use Rattle.std.specs.Prelude.{◌≡◌, ◌<◌, length, OnOk, OnErr, IsSomeAnd, slice_get};
ghost use Rattle.pd_canvas.specs.Pages.{empty_page, elements_of};
ghost use Rattle.pd_canvas.specs.Wiring.{with_wire, without_wire};
ghost use Rattle.pd_canvas.specs.Views.{shape_of, held, entry_of};
ghost use Rattle.pd_canvas.specs.Paths.{change_box};
ghost use Rattle.pd_canvas.specs.Edits.{with_wires, element, object, retyped, moved, appended, without, CanRetype, CanMove};

use crate::lists::{AtomRows, Atoms};
use crate::objects::{object_form, plain_element, starts_subpatch};
use crate::tree::{Canvas, Element, Form};
use crate::wires::Wire;
use pd_num::Num;
use std::alloc::AllocError;

fn append(canvas: &mut Canvas, new: Element) -> Result<(), AllocError>
    ensures ok { OnOk result (canvas.new ≡ appended (entry_of new) canvas.old) }
    ensures err { OnErr result (canvas.new ≡ canvas.old) }
{
    canvas.boxes.push(new)
}

/// A new box of a form that holds no canvas.
pub(crate) fn add(
    canvas: &mut Canvas,
    form: Form,
    x: Num,
    y: Num,
    text: Atoms,
) -> Result<(), AllocError>
    requires { held form ≡ empty_page }
    ensures ok { OnOk result (canvas.new ≡ appended (element (shape_of form) empty_page x y text) canvas.old) }
    ensures err { OnErr result (canvas.new ≡ canvas.old) }
{
    let alloc = canvas.boxes.alloc();
    append(canvas, plain_element(alloc, form, x, y, text))
}

pub(crate) fn add_object(canvas: &mut Canvas, x: Num, y: Num, text: Atoms) -> Result<(), AllocError>
    ensures ok { OnOk result (canvas.new ≡ appended (object x y text) canvas.old) }
    ensures err { OnErr result (canvas.new ≡ canvas.old) }
{
    let alloc = canvas.boxes.alloc();
    let form = object_form(alloc, text.as_slice())?;
    append(canvas, plain_element(alloc, form, x, y, text))
}

pub(crate) fn connect(canvas: &mut Canvas, wire: Wire) -> Result<(), AllocError>
    ensures ok { OnOk result (canvas.new ≡ with_wires (with_wire wire canvas.old.wires) canvas.old) }
    ensures err { OnErr result (canvas.new ≡ canvas.old) }
{
    canvas.wires.connect(wire)
}

pub(crate) fn disconnect(canvas: &mut Canvas, wire: Wire)
    ensures { canvas.new ≡ with_wires (without_wire wire canvas.old.wires) canvas.old }
{
    canvas.wires.disconnect(wire);
}

pub(crate) fn delete(canvas: &mut Canvas, number: u32)
    requires { number < length (elements_of canvas.old) }
    ensures { canvas.new ≡ without number canvas.old }
{
    canvas.boxes.items.remove(number as usize);
    canvas.wires.drop_box(number);
}

pub(crate) fn retype_box(canvas: &mut Canvas, number: u32, text: &Atoms) -> Result<(), AllocError>
    requires { IsSomeAnd (slice_get (elements_of canvas.old) number) CanRetype }
    ensures ok { OnOk result (canvas.new ≡ change_box number (retyped text.now) canvas.old) }
    ensures err { OnErr result (canvas.new ≡ canvas.old) }
{
    let elements = &mut canvas.boxes.items;
    let element = &mut elements[number as usize];
    retype(element, text)
}

pub(crate) fn move_box(canvas: &mut Canvas, number: u32, x: Num, y: Num)
    requires { IsSomeAnd (slice_get (elements_of canvas.old) number) CanMove }
    ensures { canvas.new ≡ change_box number (moved x y) canvas.old }
{
    let elements = &mut canvas.boxes.items;
    let element = &mut elements[number as usize];
    element.x = x;
    element.y = y;
}

fn retype(element: &mut Element, text: &Atoms) -> Result<(), AllocError>
    requires { CanRetype (entry_of element.old) }
    ensures ok { OnOk result (entry_of element.new ≡ retyped text.now (entry_of element.old)) }
    ensures err { OnErr result (entry_of element.new ≡ entry_of element.old) }
{
    let alloc = text.alloc();
    let copied = text.copy()?;
    match &element.form {
        Form::Obj => {
            element.form = object_form(alloc, text.as_slice())?;
        }
        Form::Sub(_) => {
            if !starts_subpatch(text.as_slice()) {
                element.form = Form::Obj;
            }
        }
        _ => {}
    }
    element.text = copied;
    element.width = None;
    element.tail = AtomRows::new(alloc);
    Ok(())
}
