//! The numbers of boxes in their canvases.

ghost use Rattle.std.specs.Prelude.{◌≡◌, ◌<◌, ◌≤◌, ◌^◌, length, IfOk, OnOk};
ghost use Rattle.pd_web.specs.Canvases.{keys_at};
ghost use Rattle.pd_patch.specs.Numbers.{AreApart, AreUnder, Spares, AreNumbered};

use crate::listing::put_number;
use pd_grove::Grove;
use std::alloc::{AllocError, Global};

/// A number above the keys of all boxes.
pub(crate) fn box_end(grove: &Grove) -> Result<u32, AllocError>
    ensures above { IfOk result (λ end. length grove.now.nodes.slots ≤ end) }
    ensures small { IfOk result (λ end. end < 2 ^ 32) }
{
    match u32::try_from(grove.nodes_end()) {
        Ok(end) => Ok(end),
        Err(_) => Err(AllocError),
    }
}

/// A number above the keys of all canvases.
pub(crate) fn canvas_end(grove: &Grove) -> Result<u32, AllocError>
    ensures { IfOk result (λ end. length grove.now.boards.slots ≤ end) }
{
    match u32::try_from(grove.boards_end()) {
        Ok(end) => Ok(end),
        Err(_) => Err(AllocError),
    }
}

/// The number of each box in its canvas, by its key. Under a key that isn't there stands any number.
pub(crate) fn numbers_of(alloc: Global, grove: &Grove) -> Result<Vec<u32>, AllocError>
    ensures { IfOk result (λ numbers. AreNumbered grove.now numbers.items) }
{
    let end = canvas_end(grove)?;
    let mut numbers = Vec::new(alloc);
    for key in 0..end {
        put_numbers(grove, key, &mut numbers)?;
    }
    Ok(numbers)
}

/// Puts the numbers of the boxes of a canvas under their keys.
fn put_numbers(grove: &Grove, canvas: u32, numbers: &mut Vec<u32>) -> Result<(), AllocError>
    ensures under { OnOk result (AreApart (keys_at grove.now canvas) → AreUnder numbers.new.items (keys_at grove.now canvas)) }
    ensures others { OnOk result (Spares numbers.old.items numbers.new.items (keys_at grove.now canvas)) }
{
    match grove.board(canvas) {
        Some(board) => put_all(board.nodes.as_slice(), numbers),
        None => Ok(()),
    }
}

/// Puts the number of each box of a list under its key.
fn put_all(keys: &[u32], numbers: &mut Vec<u32>) -> Result<(), AllocError>
    ensures under { OnOk result (AreApart keys.now → AreUnder numbers.new.items keys.now) }
    ensures others { OnOk result (Spares numbers.old.items numbers.new.items keys.now) }
{
    for i in 0..keys.len() {
        put_number(numbers, keys[i], i)?;
    }
    Ok(())
}
