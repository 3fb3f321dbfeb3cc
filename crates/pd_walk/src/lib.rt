//! Delivery of messages: depth first, with fixed stacks.
//!
//! For every patch, every start and every budget `Walker::deliver` gives what the depth-first recursion gives: what
//! the boxes keep, the clocks, the table of names, the edits that canvases were asked for, what is left of the
//! budget, whether the event was cut off, and the bytes of the lines (`ok`). Where the sink fails, the bytes that
//! it took are a first part of the recursion's (`err`), and its count of faults rose (`cause`). Boxes, canvases,
//! wires, owners of names, orders, numbers and the blocks of outlets stay (`net`), and the table of names only gets
//! names more (`extends`), both after a sink that failed too.
//!
//! The recursion is that of `pd_turns` with the rules of this crate: a task is a message that comes to an inlet of
//! a box or to a canvas, that a box is resumed, or that a line says that nobody hears, which alone costs nothing.
//! What a task does is its box's row and deed; what it causes are the deliveries of the sends along the wires of
//! their outlets or to the owners of their names, in order, and then the resumption of an `until` behind them. At
//! depth 1,000 it causes nothing, and a line says so once. Each delivery and each resumption takes one of
//! 1,000,000. No memory is taken, and the room of the stacks is proved to be enough: a hearing leaves at most 1,024
//! sends and 2,048 atoms, which lists with room say of themselves (`is_few`).
//!
//! A brief message to a box that is known to answer with at most another one goes on from box to box along single
//! wires without the stack, and so does the bang of an `until`; the same contract holds, since such a way leads on
//! to the same end as the recursion's tasks do (`Leads`). The boxes to which most messages go, a `float` and the
//! operations, are asked in the loop itself, and all others by a call.
//!
//! Each box that keeps something goes on to keep something, after a sink that failed too (`states`). What exactly
//! it keeps after such a failure isn't promised: the engine is stopped from then on. Free: want of memory in `new`,
//! and time, which is measured (`docs/BENCHMARKS.md`).
//!
//! `EditQueue` is `pd_queue`'s, and stands here too since `deliver` takes it.
//!
//! Definitions: `Acts` (what a task leaves, says and causes), `Outcome` (what becomes of an event); `Ways` and
//! `Relays` are of the loop inside.
#![tactic(auto)]

mod acting;
mod canvases;
mod printing;
mod relay;
mod routes;
mod walker;

pub use pd_queue::EditQueue;
pub use walker::{Budget, Start, Walker};
