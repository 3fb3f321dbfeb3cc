//! An edit that makes a box of a canvas of the patch's own document another one, made on the running patch.
//!
//! `retype_box` gives the box of a number in the canvas at a path another text: what it becomes grows aside, asking for the files that are not
//! known yet, by what the folder holds, and then stands in its place, under its key and number (`RetypesBoxBy`). The wires at the box that don't
//! fit the new one go first, and are told. Those that fit it, but become signal wires or cease to be such, are taken out next, and come back where
//! they were once the box is the new one (`HasBecome`). The others stay. Each wire that goes, is taken out or comes back has the mend that the
//! order of the canvas needs. The new box has the ports of its kind and keeps what that keeps at first. All else of the patch stays. Beside the
//! mends signal wires are looked at 8 times at most, and only where the new box carries signals and the old one didn't. Messages, comments, objects
//! and subpatches take a text; an edit of any other box is refused with `NoBox`.
//!
//! A subpatch whose new text begins with `pd` keeps what it holds, its wires and its ports: it takes the text of an empty subpatch that grew aside, and
//! hears at the name that this gives it in place of the old one (`TakesText`). No signal wire is looked at then.
//!
//! Any other box it makes another one where neither holds a canvas, and where neither is a port of a box around. The others it refuses with
//! `NoDocument`, last of all reasons: a box that holds a canvas and becomes anything but a subpatch with what that held, or a box that would hold
//! one; and a port box. Room for all that comes or comes back is set aside before anything changes. A refused edit (`IsNotRetypedBy`) leaves the
//! patch, the names and the files that are known as they were; where memory ran out there may be more room in the patch, and all that it tells
//! stays.
//!
//! The caller keeps the counts of the patch from one edit to the next. What the box becomes is counted, and grows, where the old one is
//! counted no more.
//!
//! Law: what an edit comes to by what the folder holds, it comes to where that is untold (`folders_may_be_untold`).
//!
//! Free: want of memory, and the keys of the wires that come back.
//!
//! Definitions: `Asking` (which box, and what it becomes), `Retypes` (what an edit makes, and why it makes nothing), `Becoming`.
#![tactic(auto)]

mod alike;
mod asking;
mod becoming;
mod known;
mod laws;
mod making;
mod renaming;
mod retyping;

pub use laws::folders_may_be_untold;
pub use retyping::{RetypedBox, retype_box};
