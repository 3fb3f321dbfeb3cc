//! The turns that take an edit or other turns back.

ghost use Rattle.std.specs.Prelude.{◌≡◌, ◌<◌, [], ◌∷◌, ◌++◌, IfOk, OnOk, IsSomeAnd, length, map, get_or, option_to_list};
ghost use Rattle.pd_canvas.specs.Pages.{Entry, elements_of};
ghost use Rattle.pd_canvas.specs.Views.{entry_of, entries_of};
ghost use Rattle.pd_canvas.specs.Paths.{along};
ghost use Rattle.pd_canvas.specs.Edits.{Fits};
ghost use Rattle.pd_undo.specs.Acts.{Put as put_act, Swap as swap_act, Wires as wires_act, act_of, placed, done, IsThere, HasRoom, AreThere, HaveRoom};
ghost use Rattle.pd_undo.specs.Inverses.{page_at, around, box_at, at, wires_around, box_back, turns_back, opposite, opposites, wires_for, wires_of, inverse};

use crate::copies::copy_turn;
use crate::turns::Turns;
use pd_canvas::{
    Canvas, Change, Doc, Edit, Element, Numbers, Turn, Wires, canvas_at, copy, copy_element,
    plain_turn,
};
use std::alloc::{AllocError, Global};

/// The turns that take an edit of a document back, made before it: the box of the edit, where it has one, then the wires of its
/// canvas, then those of the canvas around, where there is one.
///
/// # Errors
///
/// `AllocError` where memory ran out, or a canvas has more boxes than a `u32` counts.
pub fn inverse_of(alloc: Global, doc: &Doc, path: &[u32], edit: &Edit) -> Result<Turns, AllocError>
    requires { IsSomeAnd (along path.now doc.now.root) (Fits edit.now) }
    ensures { IfOk result (λ t. t ≡ turns_back path.now edit.now doc.now.root) }
{
    let change = change_back(doc, path, edit)?;
    let mut turns = Vec::with_capacity(alloc, 3)?;
    push_change(alloc, path, change, &mut turns)?;
    push_wires(alloc, doc, path, &mut turns)?;
    push_wires_around(alloc, doc, path, &mut turns)?;
    Ok(Turns::from_vec(turns))
}

/// The turns that take turns of a document back, made before them.
pub(crate) fn inverse_turns(alloc: Global, doc: &Doc, turns: &[Turn]) -> Result<Turns, AllocError>
    requires there { AreThere (map placed turns.now) doc.now.root }
    requires room { HaveRoom (map placed turns.now) doc.now.root }
    ensures { IfOk result (λ t. t ≡ inverse (map placed turns.now) doc.now.root) }
{
    let mut here = copy(doc)?;
    let mut back = opposite_turns(alloc, &mut here, turns)?;
    push_former_wires(alloc, doc, turns, &mut back)?;
    Ok(Turns::from_vec(back))
}

/// The opposites of turns, the last one first. It makes the turns.
fn opposite_turns(alloc: Global, here: &mut Doc, turns: &[Turn]) -> Result<Vec<Turn>, AllocError>
    requires there { AreThere (map placed turns.now) here.old.root }
    requires room { HaveRoom (map placed turns.now) here.old.root }
    ensures { IfOk result (λ v. map placed v.items ≡ opposites (map placed turns.now) here.old.root) }
{
    let mut back = Vec::with_capacity(alloc, turns.len())?;
    for turn in turns {
        step(alloc, here, turn, &mut back)?;
    }
    Ok(back)
}

/// Puts the opposite of a turn before the others, and makes the turn.
fn step(alloc: Global, here: &mut Doc, turn: &Turn, back: &mut Vec<Turn>) -> Result<(), AllocError>
    requires there { IsSomeAnd (along turn.now.path here.old.root) (IsThere (act_of turn.now.change)) }
    requires room { IsSomeAnd (along turn.now.path here.old.root) (HasRoom (act_of turn.now.change)) }
    ensures done { OnOk result (here.new.root ≡ done (placed turn.now) here.old.root) }
    ensures back { OnOk result (map placed back.new.items ≡ at turn.now.path (opposite (act_of turn.now.change) (page_at turn.now.path here.old.root)) ++ map placed back.old.items) }
{
    let change = opposite_in(alloc, here, turn.path.as_slice(), &turn.change)?;
    if let Some(change) = change {
        back.insert(0, turn_at(alloc, turn.path.as_slice(), change)?)?;
    }
    plain_turn(here, copy_turn(alloc, turn)?)
}

/// Puts last, for each canvas whose wires the turns give, the wires that it has.
fn push_former_wires(
    alloc: Global,
    doc: &Doc,
    turns: &[Turn],
    back: &mut Vec<Turn>,
) -> Result<(), AllocError>
    ensures { OnOk result (map placed back.new.items ≡ map placed back.old.items ++ wires_of (map placed turns.now) doc.now.root) }
{
    for turn in turns {
        push_wires_for(alloc, doc, turn, back)?;
    }
    Ok(())
}

fn push_wires_for(
    alloc: Global,
    doc: &Doc,
    turn: &Turn,
    back: &mut Vec<Turn>,
) -> Result<(), AllocError>
    ensures { OnOk result (map placed back.new.items ≡ map placed back.old.items ++ at turn.now.path (wires_for (act_of turn.now.change) (page_at turn.now.path doc.now.root).wires)) }
{
    match turn.change {
        Change::Wires { .. } => push_wires(alloc, doc, turn.path.as_slice(), back),
        Change::Put { .. } | Change::Take { .. } | Change::Swap { .. } => Ok(()),
    }
}

/// Puts the wires of a canvas last.
fn push_wires(
    alloc: Global,
    doc: &Doc,
    path: &[u32],
    turns: &mut Vec<Turn>,
) -> Result<(), AllocError>
    ensures { OnOk result (map placed turns.new.items ≡ map placed turns.old.items ++ at path.now (wires_act (page_at path.now doc.now.root).wires ∷ [])) }
{
    let wires = wires_in(alloc, doc, path)?;
    push_turn(alloc, path, Change::Wires { wires }, turns)
}

/// Puts the wires of the canvas around another one last, where there is one.
fn push_wires_around(
    alloc: Global,
    doc: &Doc,
    path: &[u32],
    turns: &mut Vec<Turn>,
) -> Result<(), AllocError>
    ensures { OnOk result (map placed turns.new.items ≡ map placed turns.old.items ++ wires_around path.now (page_at (around path.now) doc.now.root).wires) }
{
    match path {
        [] => Ok(()),
        [around @ .., _] => push_wires(alloc, doc, around, turns),
    }
}

fn push_change(
    alloc: Global,
    path: &[u32],
    change: Option<Change>,
    turns: &mut Vec<Turn>,
) -> Result<(), AllocError>
    ensures { OnOk result (map placed turns.new.items ≡ map placed turns.old.items ++ at path.now (map act_of (option_to_list change))) }
{
    match change {
        Some(change) => push_turn(alloc, path, change, turns),
        None => Ok(()),
    }
}

fn push_turn(
    alloc: Global,
    path: &[u32],
    change: Change,
    turns: &mut Vec<Turn>,
) -> Result<(), AllocError>
    ensures { OnOk result (map placed turns.new.items ≡ map placed turns.old.items ++ at path.now (act_of change ∷ [])) }
{
    turns.push(turn_at(alloc, path, change)?)?;
    Ok(())
}

fn turn_at(alloc: Global, path: &[u32], change: Change) -> Result<Turn, AllocError>
    ensures { IfOk result (λ t. placed t ≡ record { path = path.now; act = act_of change }) }
{
    let path = Numbers::from_vec(Vec::from_slice(alloc, path)?);
    Ok(Turn { path, change })
}

/// The wires of the canvas that a path leads to.
fn wires_in(alloc: Global, doc: &Doc, path: &[u32]) -> Result<Wires, AllocError>
    ensures { IfOk result (λ w. w ≡ (page_at path.now doc.now.root).wires) }
{
    match canvas_at(&doc.root, path) {
        Some(canvas) => canvas.wires.copy(),
        None => Ok(Wires::new(alloc)),
    }
}

/// The opposite of a change, if it has one, in the canvas that a path leads to.
fn opposite_in(
    alloc: Global,
    doc: &Doc,
    path: &[u32],
    change: &Change,
) -> Result<Option<Change>, AllocError>
    requires { IsSomeAnd (along path.now doc.now.root) (IsThere (act_of change.now)) }
    ensures { IfOk result (λ o. map act_of (option_to_list o) ≡ opposite (act_of change.now) (page_at path.now doc.now.root)) }
{
    match canvas_at(&doc.root, path) {
        Some(canvas) => opposite_change(canvas, change),
        None => unreachable!(),
    }
}

fn opposite_change(canvas: &Canvas, change: &Change) -> Result<Option<Change>, AllocError>
    requires { IsThere (act_of change.now) canvas.now }
    ensures { IfOk result (λ o. map act_of (option_to_list o) ≡ opposite (act_of change.now) canvas.now) }
{
    match change {
        Change::Put { number, .. } => Ok(Some(Change::Take { number: *number })),
        Change::Take { number } => Ok(Some(put_back(canvas, *number)?)),
        Change::Swap { number, .. } => Ok(Some(swap_back(canvas, *number)?)),
        Change::Wires { .. } => Ok(None),
    }
}

/// The change of its box by which an edit is taken back, if it has a box, in the canvas that a path leads to.
fn change_back(doc: &Doc, path: &[u32], edit: &Edit) -> Result<Option<Change>, AllocError>
    requires { IsSomeAnd (along path.now doc.now.root) (Fits edit.now) }
    ensures { IfOk result (λ o. map act_of (option_to_list o) ≡ box_back edit.now (page_at path.now doc.now.root)) }
{
    match canvas_at(&doc.root, path) {
        Some(canvas) => box_change(canvas, edit),
        None => unreachable!(),
    }
}

fn box_change(canvas: &Canvas, edit: &Edit) -> Result<Option<Change>, AllocError>
    requires { Fits edit.now canvas.now }
    ensures { IfOk result (λ o. map act_of (option_to_list o) ≡ box_back edit.now canvas.now) }
{
    match edit {
        Edit::Obj { .. }
        | Edit::Msg { .. }
        | Edit::Comment { .. }
        | Edit::FloatBox { .. }
        | Edit::SymbolBox { .. }
        | Edit::Sub { .. } => Ok(Some(take_next(canvas)?)),
        Edit::Connect { .. } | Edit::Disconnect { .. } => Ok(None),
        Edit::Delete { number } => Ok(Some(put_back(canvas, *number)?)),
        Edit::Retype { number, .. } | Edit::Move { number, .. } => {
            Ok(Some(swap_back(canvas, *number)?))
        }
    }
}

/// Takes out the box that will come last.
fn take_next(canvas: &Canvas) -> Result<Change, AllocError>
    ensures { IfOk result (λ c. c ≡ Change.Take (length (elements_of canvas.now))) }
{
    match u32::try_from(canvas.box_count()) {
        Ok(number) => Ok(Change::Take { number }),
        Err(_) => Err(AllocError),
    }
}

/// Puts a box back at its number.
fn put_back(canvas: &Canvas, number: u32) -> Result<Change, AllocError>
    requires { number < length (elements_of canvas.now) }
    ensures { IfOk result (λ c. act_of c ≡ put_act number (box_at number canvas.now)) }
{
    let element = copy_box(canvas, number)?;
    Ok(Change::Put { number, element })
}

/// Puts a box back in the place of another.
fn swap_back(canvas: &Canvas, number: u32) -> Result<Change, AllocError>
    requires { number < length (elements_of canvas.now) }
    ensures { IfOk result (λ c. act_of c ≡ swap_act number (box_at number canvas.now)) }
{
    let element = copy_box(canvas, number)?;
    Ok(Change::Swap { number, element })
}

fn copy_box(canvas: &Canvas, number: u32) -> Result<Element, AllocError>
    requires { number < length (elements_of canvas.now) }
    ensures { IfOk result (λ e. entry_of e ≡ box_at number canvas.now) }
{
    copy_from(canvas.boxes.as_slice(), number)
}

fn copy_from(elements: &[Element], number: u32) -> Result<Element, AllocError>
    requires { number < length elements.now }
    ensures { IfOk result (λ e. (d : Entry) → entry_of e ≡ get_or (entries_of elements.now) number d) }
{
    copy_element(&elements[number as usize])
}
