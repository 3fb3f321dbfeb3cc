//! Turns: changes of one canvas, by which an edit is taken back.

ghost use Rattle.std.specs.Prelude.{◌≡◌, ◌<◌, ◌≤◌, length, OnOk, OnErr, IsSomeAnd, option_and_then};
ghost use Rattle.pd_canvas.specs.Pages.{elements_of};
ghost use Rattle.pd_canvas.specs.Views.{entry_of};
ghost use Rattle.pd_canvas.specs.Paths.{along, sub_page, inside, edit_at, change_box};
ghost use Rattle.pd_canvas.specs.Turns.{turned, put_in, CanTurn, LeavesRoom};

use crate::changes::delete;
use crate::lists::Numbers;
use crate::tree::{Canvas, Doc, Element, Form};
use crate::wires::Wires;
use std::alloc::AllocError;

/// A change of one canvas, which names a box by its number.
#[derive(Debug, Drop)]
pub enum Change {
    /// The element comes in at the number. It and the later boxes have numbers higher by one, and so have their wires.
    Put { number: u32, element: Element },
    /// The box goes with its wires, and the later boxes have numbers lower by one.
    Take { number: u32 },
    /// The element stands in the place of the box, whose wires stay.
    Swap { number: u32, element: Element },
    /// The canvas has these wires.
    Wires { wires: Wires },
}

/// A change of the canvas that a path of box numbers leads to.
#[derive(Debug, Drop)]
pub struct Turn {
    pub path: Numbers,
    pub change: Change,
}

/// Makes a change in the canvas that its path leads to, and nowhere else. It takes out no wire that doesn't fit.
pub fn plain_turn(doc: &mut Doc, turn: Turn) -> Result<(), AllocError>
    requires { IsSomeAnd (along turn.path doc.old.root) (CanTurn turn.change) }
    ensures ok { OnOk result (doc.new.root ≡ edit_at turn.path (turned turn.change) doc.old.root) }
    ensures err { OnErr result (doc.new.root ≡ doc.old.root) }
{
    let Turn { path, change } = turn;
    turn_canvas(&mut doc.root, path.as_slice(), change)
}

#[cycle(turn)]
fn turn_canvas(canvas: &mut Canvas, path: &[u32], change: Change) -> Result<(), AllocError>
    requires { IsSomeAnd (along path.now canvas.old) (CanTurn change) }
    ensures ok { OnOk result (canvas.new ≡ edit_at path.now (turned change) canvas.old) }
    ensures err { OnErr result (canvas.new ≡ canvas.old) }
{
    match path {
        [] => turn_here(canvas, change),
        [number, rest @ ..] => {
            let elements = &mut canvas.boxes.items;
            let element = &mut elements[*number as usize];
            turn_inside(element, rest, change)
        }
    }
}

#[cycle(turn)]
fn turn_inside(element: &mut Element, path: &[u32], change: Change) -> Result<(), AllocError>
    requires { IsSomeAnd (option_and_then (along path.now) (sub_page (entry_of element.old))) (CanTurn change) }
    ensures ok { OnOk result (entry_of element.new ≡ inside (edit_at path.now (turned change)) (entry_of element.old)) }
    ensures err { OnErr result (entry_of element.new ≡ entry_of element.old) }
{
    match &mut element.form {
        Form::Sub(inner) => turn_canvas(inner, path, change),
        _ => unreachable!(),
    }
}

fn turn_here(canvas: &mut Canvas, change: Change) -> Result<(), AllocError>
    requires { CanTurn change canvas.old }
    ensures ok { OnOk result (canvas.new ≡ turned change canvas.old) }
    ensures err { OnErr result (canvas.new ≡ canvas.old) }
{
    match change {
        Change::Put { number, element } => put(canvas, number, element),
        Change::Take { number } => {
            delete(canvas, number);
            Ok(())
        }
        Change::Swap { number, element } => {
            swap(canvas, number, element);
            Ok(())
        }
        Change::Wires { wires } => {
            canvas.wires = wires;
            Ok(())
        }
    }
}

fn put(canvas: &mut Canvas, number: u32, element: Element) -> Result<(), AllocError>
    requires place { number ≤ length (elements_of canvas.old) }
    requires room { LeavesRoom canvas.old.wires }
    ensures ok { OnOk result (canvas.new ≡ put_in number (entry_of element) canvas.old) }
    ensures err { OnErr result (canvas.new ≡ canvas.old) }
{
    canvas.boxes.items.insert(number as usize, element)?;
    canvas.wires.lift_box(number);
    Ok(())
}

fn swap(canvas: &mut Canvas, number: u32, element: Element)
    requires { number < length (elements_of canvas.old) }
    ensures { canvas.new ≡ change_box number (λ _. entry_of element) canvas.old }
{
    let elements = &mut canvas.boxes.items;
    elements[number as usize] = element;
}
