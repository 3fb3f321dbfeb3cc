//! A subpatch of a running patch gets another text, and keeps what it holds.
//!
//! `reserve_name` sets room aside for the text of a grown subpatch, and alone can fail: whatever it answers, all that the patch tells stays
//! (`SameButRoom`). `rename` then gives the box that text, and lets it hear at its new name in place of the old one, at its place among the owners of that
//! (`IsRenamed`). It takes no memory and can't fail. What the box holds stays, with what its boxes keep, and so does all else.
//!
//! Laws: a patch that runs goes on to be one (`patches_run_on_renamed`), also where room was set aside (`name_room_changes_nothing`); boxes and canvases
//! lie in one another as they did (`renames_change_boxes`).
//!
//! Free: want of memory in `reserve_name`, also where a name has as many owners as can be counted.
//!
//! Definitions: `Renaming` (what changes and what stays), `Room`.
#![tactic(auto)]

mod laws;
mod renaming;
mod reserving;
mod room;

pub use laws::{name_room_changes_nothing, patches_run_on_renamed, renames_change_boxes};
pub use renaming::rename;
pub use reserving::reserve_name;
pub use room::NameRoom;
