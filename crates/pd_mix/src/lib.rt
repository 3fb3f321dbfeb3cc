//! Blocks of 64 signal values: their sums, and the samples that are written of them.
//!
//! `add`, `copy`, `fill` and `silence` give exactly the sum (limited after each addition), the block, the number's
//! value throughout, and silence. `write_samples` writes exactly the 256 bytes of a block of two channels: each
//! value is limited to one whole, its share of 32,767 is cut toward zero, 16 bits with the lower byte first, left
//! before right. No call takes memory.
//!
//! Definitions: `Samples`, `Sums`.
#![tactic(auto)]

mod samples;
mod sums;

pub use samples::{BYTES, write_samples};
pub use sums::{add, copy, fill, silence};
