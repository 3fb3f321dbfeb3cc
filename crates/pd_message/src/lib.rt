//! Message boxes: what each does with a message.
//!
//! `hear_message` leaves exactly the state, the names, the sends and the lines of the row, for every state and
//! every message of at most 1,024 atoms of the table: the text is split at commas, behind a semicolon the first
//! word is a receiver, dollars take what came in, and `set`, `add`, `add2`, `addcomma` and `addsemi` change the
//! text, which stays within 1,024 atoms. What is kept after it is like what was kept before it. No call takes
//! memory.
//!
//! Definitions: `Texts` (what a text sends, what an edit makes of it), `Rows`, `Room`.
#![tactic(auto)]

mod edits;
mod pieces;
mod rows;
mod segments;

pub use pieces::Receiver;
pub use rows::hear_message;
