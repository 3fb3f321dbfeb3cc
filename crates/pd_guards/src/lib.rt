//! Laws of delivery: what boxes keep, hear and say is in order, so that nothing is ever passed over. It has no code
//! that runs.
//!
//! A patch is in order at a time where the names that its boxes keep and that their kinds tell are of the table,
//! their lists have at most 1,024 atoms and their tables fewer than 2^32 values, their numbers are in the range of
//! numbers, and no `vline~` has run a block beyond that time; a message is so where its atoms are. A box in order
//! that hears a message in order does what its object's definition says: each of these conditions holds, in
//! printing too, and what it then keeps and says is in order, in a table of names that goes on
//! (`hearing_stays_in_order`; among the boxes of a patch, and for a box that is resumed or loaded or whose clock
//! fires, `boxes_stay_in_order`).
//!
//! So a whole delivery that begins in order is the depth-first recursion over the objects' own definitions, in
//! which nothing is looked at and nothing passed over, and it leaves the patch in order, as `Walker::deliver` does
//! (`delivery_passes_nothing_over`): for every world, budget and start, and every net in which the canvases that
//! own names are near (the path to each has at most 255 numbers, as many as an edit that is asked for may have). So
//! is each patch that has just grown (`grown_patches_are_near`), and no message changes that; the signal order of
//! each canvas to which a path leads has at most 16,384 boxes in it, those that are stuck too (`orders_are_short`).
//! Time alone changes none of that (`order_lasts`), and a `send` of the script begins its event in order
//! (`commands_begin_in_order`).
//!
//! The boxes of the tree that grows from proper documents are of kinds in order and keep at first what is in order
//! (`what_grows_is_in_order`), and so a patch that has just grown is in order at every time, and the values of
//! signals that its boxes keep and that its outlets give are in their range (`grown_patches_are_in_order`). A block
//! leaves in order what the boxes keep, from its end on, and leaves in their range the values of signals that they
//! keep and that their outlets give, where both were so before it (`blocks_stay_in_order`). Messages in order leave
//! the values of signals that boxes keep in their range too: each hearing, each resumption, each write to a table,
//! and so a whole delivery that begins in order (`messages_keep_values`).
//!
//! Definitions: `Order` and `Worlds` (what is in order), `Freely` (the rules where nothing is passed over),
//! `Growing`, `Near`, `Sounds`.
#![tactic(auto)]

mod laws;

pub use laws::{
    blocks_stay_in_order, boxes_stay_in_order, built_orders_are_short, built_patches_are_near,
    commands_begin_in_order, delivery_passes_nothing_over, grown_patches_are_in_order,
    grown_patches_are_near, hearing_stays_in_order, messages_keep_values, order_lasts,
    orders_are_short, what_grows_is_in_order,
};
