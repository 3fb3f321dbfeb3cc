//! Which box an edit puts into which canvas.

ghost use Rattle.std.specs.Prelude.{◌≡◌, ◌≢◌, ◌-◌, ◌&&◌, nat_lt, Ok, Err, IfOk, IfErr, IfSome, length};
ghost use Rattle.pd_canvas.specs.Views.{entry_of};
ghost use Rattle.pd_growth.specs.Suits.{EntrySuits};
ghost use Rattle.pd_grove.specs.TextOrder.{is_sub};
ghost use Rattle.pd_wiring.specs.declared.refusals.EditRefusal.TheVariants.{NoMemory};
ghost use Rattle.pd_adding.specs.Boxes.{IsKnown, settled_edit, box_put, CanBeWritten};
ghost use Rattle.pd_adding.specs.Coming.{coming, own_zero};

use crate::boxes::box_of;
use pd_atom::Symbols;
use pd_canvas::{Edit, Element, Form};
use pd_patch::Patch;
use pd_wiring::EditRefusal;
use std::alloc::Global;

/// How many atoms a text has at most.
const MOST_ATOMS: usize = 1_024;

/// How many canvases may lie in one another inside the root.
const LEVELS: usize = 255;

/// A box that comes: the key of its canvas, what the document gets, and how many canvases may lie in one another inside it.
#[derive(Drop)]
pub struct Coming {
    pub canvas: u32,
    pub element: Element,
    pub left: u32,
}

/// The box that an edit puts into the canvas at a path of the patch's own document, with its text settled, and that canvas.
///
/// # Errors
///
/// The first reason against it: `NoDocument` for an edit that puts no box, `NoCanvas`, `TextTooLong`, `TooDeep`. `NoMemory` may come in
/// place of any.
pub fn box_to_come(
    alloc: Global,
    patch: &Patch,
    symbols: &Symbols,
    path: &[u32],
    edit: &Edit,
) -> Result<Coming, EditRefusal>
    requires known { IsKnown symbols.now edit.now }
    ensures comes { IfOk result (λ c. coming symbols.now patch.now path.now edit.now ≡ Ok (c.canvas, entry_of c.element)) }
    ensures left { IfOk result (λ c. c.left ≡ 255 - length path.now) }
    ensures suits { IfOk result (λ c. EntrySuits symbols.now c.left (entry_of c.element)) }
    ensures written { IfOk result (λ c. IfSome (box_put (settled_edit symbols.now edit.now)) (CanBeWritten symbols.now)) }
    ensures refused { IfErr result (λ why. why ≢ NoMemory → coming symbols.now patch.now path.now edit.now ≡ Err why) }
{
    let Ok(put) = box_of(alloc, symbols, edit) else {
        return Err(EditRefusal::NoMemory);
    };
    let Some(element) = put else {
        return Err(EditRefusal::NoDocument);
    };
    // They are called for what they say of the place, which the proof cites.
    let _x = element.x.micros();
    let _y = element.y.micros();
    let Some(canvas) = patch.grove.own_canvas_at(path) else {
        return Err(EditRefusal::NoCanvas);
    };
    if element.text.len() > MOST_ATOMS {
        return Err(EditRefusal::TextTooLong);
    }
    if is_too_deep(&element, path) {
        return Err(EditRefusal::TooDeep);
    }
    let left = LEVELS.saturating_sub(path.len()) as u32;
    Ok(Coming {
        canvas,
        element,
        left,
    })
}

/// Whether the box is a subpatch for which the canvas at a path lies too deep.
fn is_too_deep(element: &Element, path: &[u32]) -> bool
    ensures { result ≡ (is_sub (entry_of element.now).head.form && nat_lt 254 (length path.now)) }
{
    match element.form {
        Form::Sub(_) => path.len() >= LEVELS,
        _ => false,
    }
}

/// The `$0` of the patch's own document, 0 where there is none.
pub fn zero_of(patch: &Patch) -> u32
    ensures { result ≡ own_zero patch.now }
{
    match patch.grove.board(patch.grove.root()) {
        Some(board) => board.sheet.zero,
        None => 0,
    }
}
