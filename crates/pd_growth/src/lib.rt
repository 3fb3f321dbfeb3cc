//! Growth: from a document and the files that it names to a running tree.
//!
//! `grow` gives exactly the tree of a document under a file name and the files that are known: box by box in text
//! order, each counted, its text expanded, its names brought, an abstraction's file grown in place with the next
//! `$0`. Or it ends where a name, a box or a number is one too many, or where nothing is known of a file that is
//! asked for, with the names that came before. Every kind that it gives is small, every text of the table. Wires
//! are kept as the document has them; which of them fit is a function of the tree (`pd_tree`).
//!
//! `grow_box` grows one box by itself: exactly what the walk makes of this element under what is around it, from
//! these names, numbers and room, with what is left of them. An edit that brings a box will stand on it.
//!
//! Laws: a proper document can grow (`proper_suits`), also in a longer table (`suits_extended`), and so can known
//! files (`files_suit`). What else is true of growth stands in `pd_regrowth_law`. Free: want of memory.
//!
//! Definitions: `Growth` (`grown`, its steps), `Making` (what a box makes of its text), `Steps` (what a step gives
//! and leaves), `Suits`, `Growing`.
#![tactic(auto)]

mod boxes;
mod documents;
mod growing;
mod making;
mod rows;
mod scope;
mod single;
mod suits;
mod supply;
mod texts;

pub use documents::{Grown, grow};
pub use growing::Stop;
pub use scope::{Scope, Setting};
pub use single::grow_box;
pub use suits::{files_suit, proper_suits, suits_extended};
pub use supply::Supply;
