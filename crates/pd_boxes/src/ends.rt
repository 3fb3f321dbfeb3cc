//! The keys that boxes have and get, and how many boxes a canvas may have.

ghost use Rattle.std.specs.Prelude.{◌≡◌, ◌<◌, ◌≤◌, ◌^◌, ◌+◌, length, IfOk, OnOk};
ghost use Rattle.pd_web.specs.Canvases.{keys_at};

use pd_grove::Grove;
use std::alloc::AllocError;

/// A canvas can have so many boxes.
const MOST_BOXES: usize = 4_294_967_295;

/// No number of 32 bits is greater.
const LAST_NUMBER: u32 = 4_294_967_295;

/// A number above the keys of all boxes and above the key of the next one.
///
/// # Errors
///
/// `AllocError` where that is no number of 32 bits.
pub(crate) fn keys_end(grove: &Grove) -> Result<u32, AllocError>
    ensures live { IfOk result (λ end. length grove.now.nodes.slots ≤ end) }
    ensures next { IfOk result (λ end. grove.now.nodes.vacant_key < end) }
    ensures low { IfOk result (λ end. end < 2 ^ 32) }
{
    let end = small(grove.nodes_end())?;
    let next = small(grove.next_key())?;
    if next < end {
        return Ok(end);
    }
    if next < LAST_NUMBER {
        return Ok(next + 1);
    }
    Err(AllocError)
}

fn small(end: usize) -> Result<u32, AllocError>
    ensures same { IfOk result (λ number. number ≡ end) }
    ensures low { IfOk result (λ number. number < 2 ^ 32) }
{
    match u32::try_from(end) {
        Ok(number) => Ok(number),
        Err(_) => Err(AllocError),
    }
}

/// Sees that a canvas has fewer boxes than can be counted.
///
/// # Errors
///
/// `AllocError` where it has as many.
pub(crate) fn take_one_more(grove: &Grove, canvas: u32) -> Result<(), AllocError>
    ensures { OnOk result (length (keys_at grove.now canvas) + 1 < 2 ^ 32) }
{
    if box_count(grove, canvas) < MOST_BOXES {
        return Ok(());
    }
    Err(AllocError)
}

fn box_count(grove: &Grove, canvas: u32) -> usize
    ensures { result ≡ length (keys_at grove.now canvas) }
{
    match grove.board(canvas) {
        Some(board) => board.nodes.len(),
        None => 0,
    }
}
