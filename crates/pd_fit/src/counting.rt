//! The wires of all canvases of a grown patch that fit, counted.

ghost use Rattle.std.specs.Prelude.{◌≡◌, ◌-◌, ◌++◌, [], nat_lt, min, take, drop, Some, None, OnOk, IfOk};
ghost use Rattle.std.specs.List.{AllByRecursion};
ghost use Rattle.pd_object.specs.Ports.{IsSmallKind};
ghost use Rattle.pd_tree.specs.Trees.{Trees, stand_of, stands_of, stands_in};
ghost use Rattle.pd_fit.specs.Fitting.{wires_inside, wires_fitting};
ghost use Rattle.pd_fit.specs.Seeing.{views_of};
ghost use Rattle.pd_fit.specs.Stacking.{stacked, stacked_on, wires_on, wires_stacked};

use crate::boxes::{Seen, holder, leaf};
use crate::wires::less_fitting;
use pd_tree::{Row, Sheet};
use std::alloc::{AllocError, Global};
use std::collections::VecDeque;

/// So many wires may fit.
pub const MOST_WIRES: u32 = 65_536;

/// Whether more than 65,536 wires fit of a grown document: its root's sheet, and its boxes in text order.
///
/// # Errors
///
/// `AllocError` where memory ran out.
pub fn has_too_many_wires(alloc: Global, sheet: &Sheet, rows: &[Row]) -> Result<bool, AllocError>
    requires { AllByRecursion (λ r. IsSmallKind r.kind) rows.now }
    ensures { (t : Trees) → stands_in rows.now ≡ stands_of t → IfOk result (λ many. many ≡ nat_lt 65536 (wires_fitting sheet.now t)) }
{
    let mut stack = VecDeque::with_capacity(alloc, rows.len())?;
    let left = stack_rows(alloc, rows, &mut stack)?;
    let boxes = take_all(alloc, &mut stack)?;
    Ok(less_fitting(boxes.as_slice(), sheet.wires.as_slice(), left) == 0)
}

/// How many wires fit of the canvases that these grown boxes hold, and 65,537 where there are more.
///
/// # Errors
///
/// `AllocError` where memory ran out.
pub fn wires_in(alloc: Global, rows: &[Row]) -> Result<u32, AllocError>
    requires { AllByRecursion (λ r. IsSmallKind r.kind) rows.now }
    ensures { (t : Trees) → stands_in rows.now ≡ stands_of t → IfOk result (λ count. count ≡ min 65537 (wires_inside t)) }
{
    let mut stack = VecDeque::with_capacity(alloc, rows.len())?;
    let left = stack_rows(alloc, rows, &mut stack)?;
    Ok(MOST_WIRES + 1 - left)
}

/// Stacks boxes from the last to the first, and gives 65,537 less the wires that fit of the canvases that they hold, or 0.
fn stack_rows(alloc: Global, rows: &[Row], stack: &mut VecDeque<Seen>) -> Result<u32, AllocError>
    requires small { AllByRecursion (λ r. IsSmallKind r.kind) rows.now }
    requires none { stack.old.items ≡ [] }
    ensures boxes { OnOk result (views_of stack.new.items ≡ stacked (stands_in rows.now)) }
    ensures left { IfOk result (λ left. left ≡ 65537 - wires_stacked (stands_in rows.now)) }
{
    let mut left = MOST_WIRES + 1;
    let mut i = rows.len();
    while i > 0 {
        i -= 1;
        left = stack_row(alloc, &rows[i], stack, left)?;
    }
    Ok(left)
}

/// Stacks a box before those that follow it, and gives a number less the wires that fit of the canvas that it holds, or 0.
fn stack_row(
    alloc: Global,
    row: &Row,
    stack: &mut VecDeque<Seen>,
    left: u32,
) -> Result<u32, AllocError>
    requires { IsSmallKind row.now.kind }
    ensures boxes { OnOk result (views_of stack.new.items ≡ stacked_on (stand_of row.now).cell row.now.sheet row.now.boxes (views_of stack.old.items)) }
    ensures left { IfOk result (λ less. less ≡ left - wires_on row.now.sheet row.now.boxes (views_of stack.old.items)) }
{
    match &row.sheet {
        Some(sheet) => stack_holder(alloc, row, sheet, stack, left),
        None => stack_leaf(alloc, row, stack, left),
    }
}

fn stack_leaf(
    alloc: Global,
    row: &Row,
    stack: &mut VecDeque<Seen>,
    left: u32,
) -> Result<u32, AllocError>
    requires { IsSmallKind row.now.kind }
    ensures boxes { OnOk result (views_of stack.new.items ≡ stacked_on (stand_of row.now).cell None row.now.boxes (views_of stack.old.items)) }
    ensures left { IfOk result (λ less. less ≡ left) }
{
    let seen = leaf(alloc, row)?;
    stack.push_front(seen)?;
    Ok(left)
}

fn stack_holder(
    alloc: Global,
    row: &Row,
    sheet: &Sheet,
    stack: &mut VecDeque<Seen>,
    left: u32,
) -> Result<u32, AllocError>
    ensures boxes { OnOk result (views_of stack.new.items ≡ stacked_on (stand_of row.now).cell (Some sheet.now) row.now.boxes (views_of stack.old.items)) }
    ensures left { IfOk result (λ less. less ≡ left - wires_on (Some sheet.now) row.now.boxes (views_of stack.old.items)) }
{
    let inner = take_first(alloc, stack, row.boxes as usize)?;
    let seen = holder(alloc, row, inner.as_slice())?;
    stack.push_front(seen)?;
    Ok(less_fitting(inner.as_slice(), sheet.wires.as_slice(), left))
}

/// Takes all boxes off.
fn take_all(alloc: Global, stack: &mut VecDeque<Seen>) -> Result<Vec<Seen>, AllocError>
    ensures { IfOk result (λ taken. taken.items ≡ stack.old.items) }
{
    let mut taken = Vec::new(alloc);
    while let Some(seen) = stack.pop_front() {
        taken.push(seen)?;
    }
    Ok(taken)
}

/// Takes the first so many boxes off.
fn take_first(
    alloc: Global,
    stack: &mut VecDeque<Seen>,
    count: usize,
) -> Result<Vec<Seen>, AllocError>
    ensures taken { IfOk result (λ taken. taken.items ≡ take count stack.old.items) }
    ensures rest { OnOk result (stack.new.items ≡ drop count stack.old.items) }
{
    let mut taken = Vec::with_capacity(alloc, count)?;
    for _ in 0..count {
        take_one(stack, &mut taken)?;
    }
    Ok(taken)
}

/// Takes the first box off, where there is one.
fn take_one(stack: &mut VecDeque<Seen>, taken: &mut Vec<Seen>) -> Result<(), AllocError>
    ensures taken { OnOk result (taken.new.items ≡ taken.old.items ++ take 1 stack.old.items) }
    ensures rest { OnOk result (stack.new.items ≡ drop 1 stack.old.items) }
{
    if let Some(seen) = stack.pop_front() {
        taken.push(seen)?;
    }
    Ok(())
}
