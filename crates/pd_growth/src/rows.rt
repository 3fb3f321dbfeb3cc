//! Rows of grown boxes.

ghost use Rattle.std.specs.Prelude.{◌≡◌, ◌≤◌, ◌++◌, ◌∷◌, [], None, Some, length, IfOk};
ghost use Rattle.std.specs.List.{AllByRecursion};
ghost use Rattle.pd_atom.specs.Names.{Names};
ghost use Rattle.pd_object.specs.Ports.{IsSmallKind};
ghost use Rattle.pd_object.specs.declared.kinds.Kind.TheVariants as kind_of;
ghost use Rattle.pd_canvas.specs.Pages.{elements_of};
ghost use Rattle.pd_canvas.specs.Views.{shape_of, entry_of};
ghost use Rattle.pd_tree.specs.Trees.{Leaf, Done, Stand, stands_of, stands_in, stand_of, sheet_of};
ghost use Rattle.pd_growth.specs.Growth.{cell_of};
ghost use Rattle.pd_growth.specs.Growing.{holder_stand};
ghost use Rattle.pd_growth.specs.Suits.{TextSuits, RowSuits};

use pd_atom::Atom;
use pd_canvas::{Atoms, Canvas, Element, Form};
use pd_kind::Kind;
use pd_tree::{Fault, Row, Sheet};
use std::alloc::{AllocError, Global};

/// A form without its canvas.
fn bare_form(alloc: Global, form: &Form) -> Result<Form, AllocError>
    ensures { IfOk result (λ f. shape_of f ≡ shape_of form.now) }
{
    match form {
        Form::Obj => Ok(Form::Obj),
        Form::Msg => Ok(Form::Msg),
        Form::Comment => Ok(Form::Comment),
        Form::FloatBox => Ok(Form::FloatBox),
        Form::SymbolBox => Ok(Form::SymbolBox),
        Form::Sub(_) => {
            let empty = Canvas::new(alloc, Atoms::new(alloc));
            Ok(Form::Sub(Box::new(alloc, empty)?))
        }
        Form::Array(values) => Ok(Form::Array(values.copy()?)),
        Form::Other(sym) => Ok(Form::Other(*sym)),
    }
}

/// A copy of an element without its canvas.
fn bare(alloc: Global, element: &Element) -> Result<Element, AllocError>
    ensures { IfOk result (λ e. (entry_of e).head ≡ (entry_of element.now).head) }
{
    Ok(Element {
        x: element.x,
        y: element.y,
        form: bare_form(alloc, &element.form)?,
        text: element.text.copy()?,
        width: element.width,
        tail: element.tail.copy()?,
    })
}

/// The sheet of a canvas.
pub(crate) fn sheet(
    alloc: Global,
    zero: u32,
    arguments: &[Atom],
    canvas: &Canvas,
) -> Result<Sheet, AllocError>
    ensures { IfOk result (λ s. s ≡ sheet_of zero arguments.now canvas.now) }
{
    Ok(Sheet {
        zero,
        arguments: Atoms::from_vec(Vec::from_slice(alloc, arguments)?),
        header: canvas.header.copy()?,
        kept: canvas.kept.copy()?,
        wires: canvas.wires.copy()?,
        coords: canvas.coords.copy()?,
    })
}

/// Puts a box last that holds no canvas.
pub(crate) fn push_plain(
    alloc: Global,
    element: &Element,
    text: Atoms,
    kind: Kind,
    fault: Option<Fault>,
    rows: &mut Vec<Row>,
) -> Result<(), AllocError>
    requires small { IsSmallKind kind }
    ensures rows { IfOk result (λ _. stands_in rows.new.items ≡ stands_in rows.old.items ++ stands_of (Leaf (cell_of (entry_of element.now).head text kind fault) Done)) }
    ensures suit { (names : Names) → TextSuits names text → AllByRecursion (RowSuits names) rows.old.items → IfOk result (λ _. AllByRecursion (RowSuits names) rows.new.items) }
{
    rows.push(Row {
        element: bare(alloc, element)?,
        text,
        kind,
        fault,
        sheet: None,
        boxes: 0,
    })?;
    Ok(())
}

/// Puts a box last that holds a canvas, before the boxes of that canvas, for which it sets room aside.
pub(crate) fn push_holder(
    alloc: Global,
    element: &Element,
    text: Atoms,
    sheet: Sheet,
    boxes: u32,
    rows: &mut Vec<Row>,
) -> Result<(), AllocError>
    ensures rows { IfOk result (λ _. stands_in rows.new.items ≡ stands_in rows.old.items ++ holder_stand (entry_of element.now).head text sheet boxes ∷ []) }
    ensures suit { (names : Names) → TextSuits names text → AllByRecursion (RowSuits names) rows.old.items → IfOk result (λ _. AllByRecursion (RowSuits names) rows.new.items) }
{
    rows.reserve(boxes as usize + 1)?;
    rows.push(Row {
        element: bare(alloc, element)?,
        text,
        kind: Kind::Canvas,
        fault: None,
        sheet: Some(sheet),
        boxes,
    })?;
    Ok(())
}
