//! Which box an edit makes another one, and the edit that would put what it becomes.

ghost use Rattle.std.specs.Prelude.{◌≡◌, Some, IfOk, IfErr};
ghost use Rattle.std.specs.List.{All};
ghost use Rattle.slab.specs.Slab.{get};
ghost use Rattle.pd_atom.specs.Atoms.{IsOf};
ghost use Rattle.pd_canvas.specs.Edits.{begins_with_pd as begins_so, is_pd as is_pd_so};
ghost use Rattle.pd_canvas.specs.Views.{entry_of};
ghost use Rattle.pd_grove.specs.declared.nodes.Node.{Node};
ghost use Rattle.pd_adding.specs.Counts.{AreWithin};
ghost use Rattle.pd_retyping.specs.Asking.{takes_text_so, keeps_inside as keeps_so, settled_text, put_instead};
ghost use Rattle.pd_retyping.specs.Retypes.{counts_but};
ghost use Rattle.pd_retyping.specs.Becoming.{IsPlanned, IsUnplanned};

use pd_adding::Counts;
use pd_atom::{Atom, Sym, Symbols, settle};
use pd_canvas::{Atoms, Edit, Element, Form};
use pd_kind::sound_size;
use pd_patch::Patch;
use pd_wiring::EditRefusal;
use std::alloc::AllocError;

/// A box that is to become another one: its key, that of its canvas, whether it is a subpatch that keeps what it holds, and the edit that would put what it
/// becomes.
#[derive(Drop)]
pub(crate) struct Plan {
    pub canvas: u32,
    pub key: u32,
    pub keeps: bool,
    pub edit: Edit,
}

/// The box of a number of the canvas at a path, and the edit that would put what it becomes with a text.
///
/// # Errors
///
/// The first reason against it: `NoCanvas`, `NoBox`. `NoMemory` may come in place of any.
pub(crate) fn plan_of(
    patch: &Patch,
    symbols: &Symbols,
    path: &[u32],
    number: u32,
    text: &Atoms,
) -> Result<Plan, EditRefusal>
    requires known { All (IsOf symbols.now) text.now }
    ensures planned { IfOk result (IsPlanned symbols.now patch.now path.now number text.now) }
    ensures refused { IfErr result (IsUnplanned symbols.now patch.now path.now number text.now) }
{
    let Some(canvas) = patch.grove.own_canvas_at(path) else {
        return Err(EditRefusal::NoCanvas);
    };
    let Some(key) = patch.grove.box_key(canvas, number) else {
        return Err(EditRefusal::NoBox { number });
    };
    let Some(node) = patch.grove.node(key) else {
        return Err(EditRefusal::NoBox { number });
    };
    if !takes_text(&node.element) {
        return Err(EditRefusal::NoBox { number });
    }
    let keeps = keeps_inside(symbols, &node.element, text);
    match edit_instead(&node.element, text) {
        Ok(edit) => Ok(Plan {
            canvas,
            key,
            keeps,
            edit,
        }),
        Err(_) => Err(EditRefusal::NoMemory),
    }
}

/// Whether an element can have another text.
fn takes_text(element: &Element) -> bool
    ensures { result ≡ takes_text_so (entry_of element.now) }
{
    match element.form {
        Form::Obj | Form::Msg | Form::Comment => true,
        Form::Sub(_) => begins_with_pd(element.text.as_slice()),
        _ => false,
    }
}

/// Whether an element is a subpatch that keeps what it holds with a text.
fn keeps_inside(symbols: &Symbols, element: &Element, text: &Atoms) -> bool
    requires known { All (IsOf symbols.now) text.now }
    ensures { result ≡ keeps_so (entry_of element.now) (settled_text symbols.now text.now) }
{
    match element.form {
        Form::Sub(_) => settles_to_pd(symbols, text.as_slice()),
        _ => false,
    }
}

/// Whether a text begins with the symbol `pd`, as its spelling reads.
fn settles_to_pd(symbols: &Symbols, text: &[Atom]) -> bool
    requires known { All (IsOf symbols.now) text.now }
    ensures { result ≡ begins_so (settled_text symbols.now text.now) }
{
    match text {
        [] => false,
        [first, ..] => is_pd(settle(symbols, *first)),
    }
}

/// Whether a text begins with the symbol `pd`.
fn begins_with_pd(text: &[Atom]) -> bool
    ensures { result ≡ begins_so text.now }
{
    match text {
        [] => false,
        [first, ..] => is_pd(*first),
    }
}

/// Whether an atom is the symbol `pd`.
fn is_pd(atom: Atom) -> bool
    ensures { result ≡ is_pd_so atom }
{
    match atom {
        Atom::Symbol(sym) => sym == Sym::pd(),
        _ => false,
    }
}

/// The edit that would put what an element becomes with a text, at its place.
fn edit_instead(element: &Element, text: &Atoms) -> Result<Edit, AllocError>
    ensures { IfOk result (λ e. e ≡ put_instead (entry_of element.now) text.now) }
{
    let text = text.copy()?;
    let x = element.x;
    let y = element.y;
    match element.form {
        Form::Msg => Ok(Edit::Msg { x, y, text }),
        Form::Comment => Ok(Edit::Comment { x, y, text }),
        _ => Ok(Edit::Obj { x, y, text }),
    }
}

/// The counts of a patch without a box of it that holds no canvas.
pub(crate) fn counts_without(patch: &Patch, key: u32, counts: Counts) -> Counts
    ensures less { (n : Node) → get patch.now.grove.nodes key ≡ Some n → result ≡ counts_but patch.now.rate n counts }
    ensures within { AreWithin counts → AreWithin result }
{
    match patch.grove.node(key) {
        Some(node) => Counts {
            boxes: counts.boxes.saturating_sub(1),
            wires: counts.wires,
            sound: counts
                .sound
                .saturating_sub(sound_size(&node.kind, patch.rate)),
            next_zero: counts.next_zero,
        },
        None => counts,
    }
}
