//! One wire more or less on a running patch.
//!
//! `reserve_wire` sets room aside for a wire between two boxes, and alone can fail: whatever it answers, all that the
//! patch tells stays. `attach` then puts the wire in: last in the fan-out of its outlet, among the feeds of its inlet
//! at its place by the numbers of boxes and outlets (`Joins`, `IsPlace`). `detach` takes a wire out (`CutsWire`).
//! Neither can fail. They ask of the patch what edits of wires rest on (`CanRewire`) and keep it; neither what boxes
//! keep nor names, clocks or blocks are part of that (`rewiring_asks_alike`), and a patch that runs has it
//! (`patches_that_run_rewire`), so that wires can be changed while a message is under way. Every other wire and key,
//! every box and what it keeps, the names, the clocks, the blocks and the orders of the other canvases stay, and each
//! order keeps its room (`StaysButWire`). A patch that runs goes on to be one (`IsBuilt`): the links are the signal
//! wires, and each canvas has the order that it has from nothing. Where the wire carries no signal no look is taken;
//! else at most as many as mending the order of its canvas takes (`most_mending`).
//!
//! `line_of` gives the line by keys of a wire that is told by numbers of boxes, or the first reason why it can't be
//! put in; `line_there` does the same whether the wire fits or not. What an edit of wires comes to, which wire comes
//! or goes and where, or why it is refused, is told by `planned` and `IsRewired`. Law: feeds that are in the order of
//! their boxes and outlets still are with one more or less (`feeds_stay_in_order`).
//!
//! Free: want of memory in `reserve_wire`. Whether there are too many wires is for the caller to decide.
//!
//! Definitions: `Changes` (what stays, room, looks), `Plans` (what an edit comes to), `Graphs` (the graph and the order
//! of a canvas), `Asking`.
#![tactic(auto)]

mod asking;
mod attaching;
mod detaching;
mod graph;
mod laws;
mod lines;
mod link;
mod mend;
mod refusals;
mod rejoining;
mod room;

pub use asking::{WireRefusal, line_of, line_there};
pub use attaching::attach;
pub use detaching::detach;
pub use graph::CanvasGraph;
pub use laws::{feeds_stay_in_order, patches_that_run_rewire, rewiring_asks_alike};
pub use refusals::EditRefusal;
pub use rejoining::attach_before;
pub use room::reserve_wire;
