//! An edit that puts a box into a canvas of the patch's own document, made on the running patch.
//!
//! `add_box` makes `obj`, `msg`, `text`, `floatatom`, `symbolatom` and `sub`: the box grows aside, asking for the files that are not
//! known yet, by what the folder holds, and then comes in as the last one of its canvas (`AddsBoxBy`). Any box comes: one without a canvas
//! inside, a subpatch, and an abstraction with all that lies in it, as it would have grown with the patch: under new keys, with its wires
//! that fit, its names, its `$0` numbers and the orders of its canvases. An `inlet` or `outlet` in a canvas that a box holds gives that box
//! the port that it is, and the wires at the ports behind it follow. All else of the patch stays, there are as many wires more as fit inside
//! the box, and signal wires are looked at for a box that holds boxes or is an abstraction alone, no more often than `put_looks` tells. No
//! box is refused for what it is: one that grew comes in, or memory was wanting. A refused edit (`IsNotAddedBy`) leaves the patch, the names
//! and the files that are known as they were; where memory ran out there may be more room in the patch, and all that it tells stays.
//!
//! `put_grown` is its second half, for any number of the canvas (`HasComeAt`): what grew comes in there, and the boxes from that number on
//! move back by one. Then signal wires may be looked at for the place of any box, no more often than `looks_anywhere` tells.
//!
//! The caller keeps the counts of the patch from one edit to the next, so that no edit counts boxes, wires or values.
//!
//! Law: what an edit comes to by what the folder holds, it comes to where that is untold (`folders_may_be_untold`).
//!
//! Free: want of memory, and the key of a box that comes.
//!
//! Definitions: `Adds` (a box that an edit puts, and why none is put), `Places` (one that comes in at a place).
#![tactic(auto)]

mod adding;
mod known;
mod laws;
mod parts;
mod placing;

pub use adding::{NewBox, add_box};
pub use laws::folders_may_be_untold;
pub use pd_adding::Site;
pub use placing::put_grown;
