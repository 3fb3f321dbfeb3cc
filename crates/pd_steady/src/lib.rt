//! Laws of whole runs: all stays in order in them, so that nothing is ever passed over. It has no code that runs.
//!
//! A stage is steady where the patch is in order at its time, the canvases that own names are near, the values of
//! signals are in their range, and all is ready for the next block: what boxes keep is of their kinds, with its sizes,
//! who looks for a box by its name finds it, a box has a block for each outlet where one of them carries signals, no
//! inlet has more wires than a patch may have, and no `vline~` has run a block that ends later; and a tree stands, so
//! that no box runs twice in a block. Where a patch opens the stage is steady (`opening_is_steady`); it stays so
//! through commands whose names are of the table (`commands_stay_steady`), names that records bring
//! (`names_stay_steady`) and time (`time_stays_steady`), in a run in which each edit is lawful: edits of wires and
//! saves leave all that steadiness speaks of; a box that an edit puts, with all that lies in it, also a port of the box
//! around, is of a kind in order and keeps what its kind keeps at first, and so does one that another box becomes,
//! whatever ports the two have and whatever wires don't fit any more or turn; where wires follow a port that came, or one
//! that went, each inlet has wires as it had them; where an edit takes a box out with all that lies in it, also a port of
//! the box around, all others keep what they kept, and their names have their owners; and where one moves a box, also a
//! port of the box around, or gives a subpatch another text, all keep what they kept. So it is with those that a script
//! asks for and with those that messages ask for, which are taken at the end of their event; and the boxes that are
//! loaded behind an edit, with what is left of its event, leave a steady stage steady as its deliveries do.
//!
//! So a whole run in which each edit is lawful, from where a patch opens to its end, is the one in which each event
//! is the depth-first recursion over the objects' own definitions, and in each block each box runs its own row
//! (`free_block` of `pd_sound_law`, in which nothing is looked at). Nothing is ever
//! passed over in it, in lines, samples, files that are put, edits and where it leads (`runs_pass_nothing_over`).
//! With pd_engine's own events, edits and blocks these runs are pd_engine's (`runs_are_by_events`). In a run the lines of a
//! canvas's order tell all its boxes (`lines_tell_all_boxes`), and so does the line of each signal loop, where a
//! patch opens and where an edit makes one, in its canvas, in the one around or in those in the box that it puts
//! (`loops_tell_all_boxes`).
//!
//! Where each edit is lawful, what each box keeps is of the objects of what it kept at first, until an edit deletes
//! it, or a box in which it lies, or makes it another one. And a box that looks for a bus, a sum or a delay line finds
//! one in the first owner of its name, wherever a run has come to in which each table of names that is read goes on
//! (`owners_go_on`).
//!
//! Definitions: `Steady`, `Runs` and `Steps` (a run where it is given what events, edits and blocks come to), `Freely`
//! (events, edits and blocks where nothing is passed over), `Told`, `Serving`; `PassedOn` (definitions of edits, stages and
//! openings that are passed on to the crates above).
#![tactic(auto)]

mod laws;

pub use laws::{
    commands_stay_steady, lines_tell_all_boxes, loops_tell_all_boxes, names_stay_steady,
    opening_is_steady, owners_go_on, runs_are_by_events, runs_pass_nothing_over, time_stays_steady,
};
// The laws of messages and of blocks on which these stand.
pub use pd_guards::{
    blocks_stay_in_order, commands_begin_in_order, delivery_passes_nothing_over,
    messages_keep_values, order_lasts,
};
pub use pd_sized::messages_keep_sizes;
