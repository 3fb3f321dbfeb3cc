//! Laws of saves in whole runs: each opens again as the patch that was saved, and so would one between any two steps. Nothing runs here.
//!
//! In a run in which each edit is lawful, from where a patch opens through any commands, names and times to its end, whatever wires and boxes come
//! and go, wherever boxes move and whatever they become, each save of it puts a text that reads back as the patch's document with no name more. From
//! this, with the files that are known by then and under the `$0` numbers that the patch has, with whatever others behind them, the tree grows that
//! the patch is by then: the boxes, subpatches and abstractions that came, with all that lies in them, among the boxes that were there, each where it
//! was moved to and as what it became, without those that went and all that lay in them, message boxes with their texts, saved arrays with their
//! values, toggles with theirs, and the wires that there are. It grows so too as a file that is opened grows, its `$0` numbers from 1001 on, where
//! the patch has just the first of these: as it has where no box went or came before that has such a number or holds one that has
//! (`AllLeaveNumbers`), and no box without a canvas has one (`bare_boxes_leave_numbers`, `bare_boxes_bring_no_number`). The files are those that were
//! gathered where the patch opened, with those that boxes that came or became others asked for behind them. Load boxes that fire behind their edit
//! change none of this. Each patch that stands as that tree is as the patch that was saved (`saves_open_again`). Each name has the same owners, in
//! the same order. A path leads to a canvas in both or in neither, and canvas by canvas, those inside abstractions too, by the numbers of boxes, the
//! ports are the same, and the wires at each outlet and at each inlet, in their order; the same boxes run, in the same order, and the same are stuck.
//! What grows is within the limits of a patch: it is refused for want of memory alone. The same holds of the patch wherever the run has come to
//! between two steps, also where nothing is saved (`stages_open_again`).
//!
//! Definitions: `Again`; `Laws` (what the laws say); `Runs` (definitions of runs that are passed on to the crates above).
#![tactic(auto)]

mod laws;

pub use laws::{
    bare_boxes_bring_no_number, bare_boxes_leave_numbers, saves_open_again, stages_open_again,
};
// The laws of runs, of edits and of documents on which these stand.
pub use pd_put_law::{boxes_can_be_saved, boxes_come_into_trees, counts_follow_boxes};
pub use pd_reload_law::documents_tell_trees;
pub use pd_retype_law::{
    boxes_become_others_in_trees, counts_follow_retypes, retyped_boxes_can_be_saved,
};
pub use pd_shift_law::{moved_documents_can_be_saved, moved_trees_grow_again, wires_follow_moves};
pub use pd_shifted_law::{names_follow_moves, trees_follow_moves};
pub use pd_steady::{
    blocks_stay_in_order, commands_begin_in_order, delivery_passes_nothing_over,
    messages_keep_sizes, messages_keep_values, opening_is_steady, order_lasts,
};
pub use pd_take_law::{boxes_go_from_trees, counts_follow_deletes, shorter_documents_can_be_saved};
