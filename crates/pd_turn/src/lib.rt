//! One box's turn in a block: what it keeps and gives, alone, beside another box, or beside a table.
//!
//! `run_own` leaves exactly what the box keeps and the block of its outlet (the rows of `pd_tone`, `pd_signal` and
//! `pd_vline`), `run_pair` the same beside another box, whose values it reads or adds to, and what that one keeps
//! then, `run_silent` beside none, and `run_table` beside a table. `few_ports` gives the signal ports of a kind
//! that has at most two inlets and one outlet, and they are those of the kind; `held_in` gives the number that an
//! inlet holds, and `run_unfed` the turn of an `osc~` whose inlet holds its frequency, as `run_own` does with that
//! number in each sample. `manner_of` says how the boxes of a kind run that hold no canvas.
//!
//! A box whose kept values haven't the sizes that it was made with, or that ran beyond the block's start, keeps
//! what it kept and is silent: that never comes in a run (`pd_sized`, `pd_steady`). No call takes memory.
//!
//! Definitions: `Rows`, `Pairs`, `Held`, `Sizes`.
#![tactic(auto)]

mod beside;
mod held;
mod own;
mod sizes;
mod sorts;
mod tables;

pub use beside::{run_pair, run_silent, start_line};
pub use held::held_in;
pub use own::{is_osc, run_own, run_unfed};
pub use sizes::{Few, few_ports};
pub use sorts::{Manner, manner_of};
pub use tables::{run_table, table_name};
