//! Where an edit is made.

use pd_clock::Time;

/// Which canvas an edit is for and when: the patch's file name, the path to the canvas, and the present time.
#[derive(Clone, Copy)]
pub struct Site<'a> {
    pub name: &'a [u8],
    pub path: &'a [u32],
    pub now: Time,
}
