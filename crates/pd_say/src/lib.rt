//! The printed lines: what each says, gathered from short pieces without taking memory and handed on in large ones.
//!
//! `say` says exactly the text of a line, and there is one definition for each line that is ever printed. What was
//! said is what the sink took and what is held back; where the sink fails it took a first part, and its count of
//! faults rose. `flush` hands on what is held back, and `line_of` gives the line of what an object tells. No call
//! takes memory. `say` asks that the symbols and atoms of a line are of the table.
//!
//! Definitions: `Lines` (the text of each line), `Messages`, `Paths`, `Refusals` (its parts), `Gathering` (what was
//! said and what was taken); `Atoms` and numbers are spelled as in `pd_atom`.
#![tactic(auto)]

mod atoms;
mod gathering;
mod lines;
mod messages;
mod paths;
mod pieces;
mod refusals;

pub use atoms::put_pair;
pub use gathering::{Held, flush, put};
pub use lines::{Ends, Line, line_of, say, say_notice};
pub use paths::CanvasPath;
pub use refusals::{Request, Why};
