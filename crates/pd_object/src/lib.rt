//! Kinds of boxes: a variant of `Kind` for each row of the objects' tables, with its arguments; the ports of each;
//! and the lists that kinds and states keep.
//!
//! `ports` gives a kind's inlets and outlets and which of them carry signals, and `Row::name` the name by which a
//! line tells a row, which is the first name of that row. The lists are `Items`, seen as what they hold, and
//! `Bounded`, with room that is taken once and whose calls after that take no memory. Free: want of memory.
//!
//! A new object begins here: a variant, its ports, its row's name (`docs/ARCHITECTURE.md`).
//!
//! Definitions: `Ports`, `RowNames`, `Lends` (a list whose items were lent).
#![tactic(auto)]

mod kinds;
mod lists;
mod port_lists;
mod row_names;

pub use kinds::{
    Arguments, Arith, Button, Channel, Comparison, Division, Function, Glue, Kind, Named,
    Operation, Panel, Side, Signal, SignalFunction, SignalOperation, Slot, Spelling, Toggle, Tone,
    Trigger, Values,
};
pub use lists::{Bounded, Items, no_signal, silence, zero, zeros};
pub use port_lists::{PortList, ports};
pub use row_names::{Row, SignalRow};
