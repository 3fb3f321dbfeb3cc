//! The keys of made boxes.

ghost use Rattle.std.specs.Prelude.{◌≡◌, ◌<◌, IfOk};
ghost use Rattle.pd_order.specs.Wired.{numbers_below};

use std::alloc::{AllocError, Global};

/// What is made for a measurement has no more boxes.
pub const MOST: u32 = 1 << 24;

/// The numbers from 0 to before `count`.
pub fn numbers(alloc: Global, count: u32) -> Result<Vec<u32>, AllocError>
    ensures { IfOk result (λ made. made.items ≡ numbers_below count) }
{
    let mut made = Vec::new(alloc);
    for number in 0..count {
        made.push(number)?;
    }
    Ok(made)
}

/// The i-th of so many numbers from 0: they come here and there, and each once as long as they are fewer than 7,919.
pub fn scattered(i: usize, count: usize) -> usize
    ensures { 0 < count → result < count }
{
    i.wrapping_mul(7_919) % count.max(1)
}
