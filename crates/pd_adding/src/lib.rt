//! What an edit comes to that puts a box into a canvas of the patch's own document, before anything of the patch changes.
//!
//! It is told in three calls, for `obj`, `msg`, `text`, `floatatom`, `symbolatom` and `sub`. `box_to_come` gives the canvas and
//! the box that the document gets, with its text settled, or the first reason against it. `grow_coming` grows that box aside
//! with the files for which it asks; a refusal leaves names and files as they were. `counts_with` adds up what there would be,
//! or names the limit that is passed; what growth learned stays then. `grow_aside` makes all three, and forgets what growth
//! learned where `counts_with` refuses; what grew so isn't too deep for its canvas (`shallow`). The patch stays in any case.
//! What grew so grows again with the files that were gathered for it (`GrewWith`), and its element can be written and read
//! again (`CanBeWritten`).
//!
//! The caller keeps `Counts` from one edit to the next, so that no edit counts boxes, wires or values (`AreCounted` says
//! what they are). `count_patch` counts a patch that has just grown, which is within the limits (`grown_patches_are_limited`).
//! Where a wire comes or goes only the number of wires changes, and where boxes keep something else no count does
//! (`counts_stay`).
//!
//! Laws: called one after the other they come to `adding`, a function of the patch, the counts, the edit and what the shelf
//! gives (`steps_come_to_it`). The box is what a document gets by the edit (`edits_put_boxes`). Rows whose first one holds no
//! canvas are that one row, and such a box takes no `$0`; so is each message box, comment, number and symbol box, and each
//! object of a kind (`single_boxes`). Free: want of memory.
//!
//! Definitions: `Coming` (which box, and where), `Growing`, `Counts`, `Adding` (all three in one).
#![tactic(auto)]

mod adding;
mod boxes;
mod coming;
mod counting;
mod counts;
mod growing;
mod laws;
mod patches;
mod sites;

pub use adding::{Grown, grow_aside};
pub use coming::{Coming, box_to_come, zero_of};
pub use counting::counts_with;
pub use counts::Counts;
pub use growing::{Crop, grow_coming, refused_by};
pub use laws::{
    counts_stay, edits_put_boxes, grown_patches_are_limited, single_boxes, steps_come_to_it,
};
pub use patches::count_patch;
pub use sites::Site;
