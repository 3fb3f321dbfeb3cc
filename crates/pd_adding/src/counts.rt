//! What is counted of a patch.

/// How many boxes a patch may have.
pub(crate) const MOST_BOXES: u32 = 16_384;

/// How many boxes, wires, and values of tables, arrays and delay lines a patch has, and the `$0` of the abstraction that comes next.
/// Whoever keeps them keeps them those of the patch.
#[derive(Clone, Copy, Debug, PartialEq, Eq)]
pub struct Counts {
    pub boxes: u32,
    pub wires: usize,
    pub sound: u64,
    pub next_zero: u32,
}
