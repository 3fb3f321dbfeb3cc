//! The room for the numbers of boxes in a line.

ghost use Rattle.std.specs.Prelude.{◌≤◌, vec_capacity};

use std::alloc::{AllocError, Global};

/// The most boxes whose numbers a line tells, which is the most boxes of a patch.
pub(crate) const MOST_BOXES: usize = 16_384;

/// Numbers of boxes, with room for those of a whole patch.
#[derive(Drop)]
pub struct BoxNumbers {
    pub(crate) numbers: Vec<u32>,
    ghost has_room: { 16384 ≤ vec_capacity numbers },
}

impl BoxNumbers {
    pub(crate) fn new(alloc: Global) -> Result<BoxNumbers, AllocError> {
        Ok(BoxNumbers {
            numbers: Vec::with_capacity(alloc, MOST_BOXES)?,
        })
    }
}
