//! The box that an edit puts into a canvas, as the document gets it.

ghost use Rattle.std.specs.Prelude.{◌≡◌, None, IfOk, IfSome, map, option_map};
ghost use Rattle.std.specs.List.{All};
ghost use Rattle.pd_atom.specs.Atoms.{IsOf};
ghost use Rattle.pd_atom.specs.Tokens.{settled};
ghost use Rattle.pd_canvas.specs.Views.{entry_of};
ghost use Rattle.pd_canvas.specs.Proper.{IsReady};
ghost use Rattle.pd_adding.specs.Boxes.{settled_edit, IsKnown, PutsBox, IsBare, box_put};

use pd_atom::{Symbols, settle};
use pd_canvas::{Atoms, Canvas, Doc, Edit, Element, apply_plain};
use std::alloc::{AllocError, Global};

/// The box that an edit puts last in a canvas, with its text settled; `None` where it puts none.
pub(crate) fn box_of(
    alloc: Global,
    symbols: &Symbols,
    edit: &Edit,
) -> Result<Option<Element>, AllocError>
    requires known { IsKnown symbols.now edit.now }
    ensures put { IfOk result (λ o. option_map entry_of o ≡ box_put (settled_edit symbols.now edit.now)) }
    ensures bare { IfOk result (λ o. IfSome o (λ e. IsBare symbols.now (entry_of e))) }
{
    // It is called for what it says of the table, which the proof cites.
    let _names = symbols.len();
    let Some(edit) = settled_box(alloc, symbols, edit)? else {
        return Ok(None);
    };
    let mut doc = Doc {
        root: Canvas::new(alloc, Atoms::new(alloc)),
    };
    apply_plain(&mut doc, &[], &edit)?;
    let mut boxes = doc.root.boxes.into_vec();
    Ok(boxes.pop())
}

/// An edit that puts a box, with its text settled; `None` for any other.
fn settled_box(alloc: Global, symbols: &Symbols, edit: &Edit) -> Result<Option<Edit>, AllocError>
    requires known { IsKnown symbols.now edit.now }
    ensures edit { IfOk result (λ o. IfSome o (λ e. e ≡ settled_edit symbols.now edit.now)) }
    ensures puts { IfOk result (λ o. IfSome o (λ e. PutsBox symbols.now e)) }
    ensures none { IfOk result (λ o. o ≡ None → box_put (settled_edit symbols.now edit.now) ≡ None) }
{
    let settled = match edit {
        Edit::Obj { x, y, text } => Edit::Obj {
            x: *x,
            y: *y,
            text: settled_text(alloc, symbols, text)?,
        },
        Edit::Msg { x, y, text } => Edit::Msg {
            x: *x,
            y: *y,
            text: settled_text(alloc, symbols, text)?,
        },
        Edit::Comment { x, y, text } => Edit::Comment {
            x: *x,
            y: *y,
            text: settled_text(alloc, symbols, text)?,
        },
        Edit::FloatBox { x, y, text } => Edit::FloatBox {
            x: *x,
            y: *y,
            text: settled_text(alloc, symbols, text)?,
        },
        Edit::SymbolBox { x, y, text } => Edit::SymbolBox {
            x: *x,
            y: *y,
            text: settled_text(alloc, symbols, text)?,
        },
        Edit::Sub { x, y, name } => Edit::Sub {
            x: *x,
            y: *y,
            name: settled_text(alloc, symbols, name)?,
        },
        Edit::Connect { .. }
        | Edit::Disconnect { .. }
        | Edit::Delete { .. }
        | Edit::Retype { .. }
        | Edit::Move { .. } => return Ok(None),
    };
    Ok(Some(settled))
}

/// Atoms as their spellings read.
fn settled_text(alloc: Global, symbols: &Symbols, text: &Atoms) -> Result<Atoms, AllocError>
    requires known { All (IsOf symbols.now) text.now }
    ensures text { IfOk result (λ t. t ≡ map (settled symbols.now) text.now) }
    ensures ready { IfOk result (λ t. All (IsReady symbols.now) t) }
{
    let mut out = Atoms::new(alloc);
    for atom in text.as_slice() {
        out.push(settle(symbols, *atom))?;
    }
    Ok(out)
}
