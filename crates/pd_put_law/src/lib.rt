//! Laws of edits that put boxes into a running patch. Nothing runs here.
//!
//! Where an edit put a box, the tree that stood stands with the box last in its canvas, with all that lies in it: it grows again from its own
//! document, its wires hold and fit, and each name has its owners (`boxes_come_into_trees`). A port box is such a box too: the box around has a port
//! more then, and the wires at its ports behind that one are as many, and hold and fit where they are. In a box that holds canvases each of these has the
//! wires of its sheet that fit, and as many more are there. So it is, with the same tree, where room was set aside and no box came
//! (`room_keeps_trees`). The counts go on as those of the tree (`counts_follow_boxes`). Its document is proper, and what a save writes of boxes can
//! be written and read (`boxes_can_be_saved`). All this is so of a box that comes at any number of its canvas (`boxes_come_to_places`,
//! `counts_follow_places`, `places_can_be_saved`).
#![tactic(auto)]

mod laws;

pub use laws::{
    boxes_can_be_saved, boxes_come_into_trees, boxes_come_to_places, counts_follow_boxes,
    counts_follow_places, places_can_be_saved, room_keeps_trees,
};
