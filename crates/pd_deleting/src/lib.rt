//! An edit that deletes a box of a canvas of the patch's own document, made on the running patch.
//!
//! `delete_box` takes the box of a number out of the canvas at a path, with all that lies in it and with all wires at these boxes; higher
//! numbers of that canvas fall by one (`ClearsBox`). Where the box is a port of the box around, that loses the port too, with the wires there,
//! which are told with the numbers that they had (`TakesPort`). It deletes every box that there is. A refused edit (`IsNotDeleted`) leaves the
//! patch as it was; where memory ran out there may be more room in it, and all that it tells stays. Memory is taken for the list of the boxes
//! that go, for the list of the wires at the port and for what the box around has then, and where the lists of ports don't reach to all keys.
//! It looks at no more signal wires than mending the orders of the canvases takes for each signal wire that goes.
//!
//! The caller keeps the counts of the patch from one edit to the next, so that an edit counts no more boxes and values than go.
//!
//! Free: want of memory. That is also the reason where a port box holds a canvas, or where some box has no place for its blocks, neither of
//! which is so in a patch that runs.
//!
//! Definitions: `Deletes` (which box goes, and why none does).
#![tactic(auto)]

mod asking;
mod deleting;

pub use deleting::{OldBox, delete_box};
