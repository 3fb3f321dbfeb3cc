//! Tasks that cause tasks, under a budget: the recursion, and the same as one list of what is left to do. It has no
//! code that runs.
//!
//! Each task is done with all that it causes before the next one, a task that the budget doesn't allow cuts
//! everything off, and some tasks cost nothing. Laws: the number which bounds the recursion makes no difference
//! (`is_recursion`), and the recursion and one list of what is left to do, in which the first task is done and what
//! it causes comes before the rest, give the same (`is_agenda`).
//!
//! Definitions: `Turns`. Which tasks there are, and what they cause, is `pd_walk`'s to say.
#![tactic(auto)]

mod laws;

pub use laws::{is_agenda, is_recursion};
