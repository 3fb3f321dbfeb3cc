//! What is left to deliver in an event, and which task comes next.
//!
//! A stack holds the sends that are yet to be delivered, each as far as it has come, and so stands for a list of
//! tasks. `push_all` puts before them the deliveries of what a box sends, in order, and behind these that it is
//! resumed where it asked for that; `next_task` takes the next message or resumption off, and says before that of
//! each name that nobody hears. Only `Stack::new` takes memory, and what may wait at each of 1,000 depths has its
//! room then: 1,024 sends and 2,048 atoms.
//!
//! Definitions: `Tasks` (tasks, and those of a send), `Turns` (which tasks a stack stands for), `Piles` and `Pile`
//! (that all in it has its place and room).
#![tactic(auto)]

mod sending;
mod stack;
mod steps;

pub use sending::{leads_out, push_all};
pub use stack::{Cursor, Frame, Pending, Stack};
pub use steps::{Place, Task, end_at, next_task};
