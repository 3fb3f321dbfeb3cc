//! What a box of a running patch does with a message, when its clock fires, when it is resumed and when it is
//! loaded; and what it asks for beside its sends.
//!
//! `hear_at`, `resume_at`, `fire_at` and `load_at` give what the box of a key does: its row, beside the table that
//! its kind names; and `do_deed` what its deed changes: its clock, or a value of a table. All else of the patch
//! stays.
//!
//! What a box hears meets the conditions of the objects' crates: that is looked at before each hearing, at a cost
//! of a few comparisons, and the definitions say what is passed over (`Guards`): a message of more than 1,024 atoms
//! or with a name that the table lacks, a box whose lists are longer or name such, a `vline~` whose block has run
//! beyond now. In a patch in order none of this ever happens (`pd_guards`).
//!
//! `hear_brief` does the same as `hear_at` for a brief message (a bang, or one number) at a box that answers it
//! with at most another one: `float`, `int`, `bang`, `receive`, the `inlet` of a canvas and the arithmetic objects
//! with two inlets. Asked of all boxes it answers exactly where the box's kind, what it keeps, the inlet and the
//! message say so, and asked of the common ones, `float` and the operations as `+`, at those of them alone; it
//! gives then exactly what `hear_at` says of such a message, and of another box that it has heard nothing, with
//! nothing changed. `goes_on_at` does the same as `resume_at` for an `until` that runs and has a turn left, and for
//! no other box, or changes nothing.
//!
//! No call takes memory.
//!
//! Definitions: `Worlds` (what an event leaves and what it changes), `Hearing`, `Deeds`, `Guards`, `Briefs`,
//! `Outlets`.
#![tactic(auto)]

mod briefs;
mod deeds;
mod hearing;
mod known;
mod small;

pub use briefs::{Asked, Brief, Reaction, goes_on_at, hear_brief};
pub use deeds::do_deed;
pub use hearing::{fire_at, hear_at, load_at, resume_at};
pub use known::{are_known, is_known, is_name};
