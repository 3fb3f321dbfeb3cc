//! The control objects that work with a message as a whole: `trigger`, `pack`, `unpack`, `route`, `select` and the
//! `list` objects.
//!
//! `hear_list` leaves exactly the state and the sends of the object's row, for every kind, state and inlet and
//! every message of at most 1,024 atoms; the lists of kind and state are to have at most 1,024 atoms too, and the
//! state's still have them after it. What is kept after it is like what was kept before it. No call takes memory.
//!
//! Definitions: `Outlets` (`trigger`), `Slots` (`pack`, `unpack`), `Choices` (`route`, `select`), `Lists`, `Rows`
//! (which object has which row).
#![tactic(auto)]

mod choices;
mod lists;
mod messages;
mod outlets;
mod rows;
mod slots;

pub use rows::hear_list;
