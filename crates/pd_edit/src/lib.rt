//! Edits of wires on the running patch: `connect` and `disconnect` in a canvas of its own document.
//!
//! `rewire` tells the wire by the numbers of the canvas's boxes and decides before it changes anything. What the edit
//! comes to is `planned`: a wire comes along a line, the first of those along a line goes, or the edit is refused. A
//! refused edit leaves the patch as it was; where memory ran out there may be more room in it, and all that it tells
//! stays. One that is made is `IsRewired`: the new wire stands last in the fan-out of its outlet and at its place among
//! the feeds of its inlet, or the old one is gone; every other wire and key, every box and what it keeps, the names,
//! the clocks, the blocks and the orders of the other canvases stay. It looks at no more signal wires than mending the
//! order of its canvas takes (`most_looks`), and at none where the wire carries no signal.
//!
//! The caller keeps the number of wires from one edit to the next, so that no edit counts them. Edits of boxes are
//! refused with `NoDocument`.
//!
//! Definitions: `pd_wiring`'s `Plans` and `Changes`.
#![tactic(auto)]

mod asking;
mod rewiring;
mod wires;

pub use pd_wiring::EditRefusal;
pub use rewiring::{Rewired, rewire};
