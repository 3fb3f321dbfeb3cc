//! Where a patch stands between events, and what a part of a run leads to. It has no code that runs.
//!
//! Between events a patch stands at a stage: what messages leave as it is, what the boxes keep, the clocks, the
//! table of names, what edits go on from (the files that are known and the counts of the patch), the time, when the
//! next block ends, how many clocks fired since the last one, what the samples so far add up to, and what the edits
//! to come lead to. Whether an edit is made or refused can hang on memory, and so it is told apart: each edit that is
//! asked for takes the first of what is ahead, and where none is left it is refused for want of memory. A part of a
//! run leads to another stage. What happens on the way is one list in its order: each byte of a line, each byte of a
//! block of samples, and each file that is put under a name. Beside it stands the log of the edits that were taken,
//! each with the stage that it found, what was asked for, and what it came to.
//!
//! The definitions: an event with its deliveries, and then the edits that canvases were asked for, one taken after the
//! other, 256 at most; an edit by itself, which is an event too; the clocks below a time, at most 10,000 between two
//! blocks; a block; the way to a time; the last block of a run. Behind each edit the load boxes are loaded that it
//! made: these are deliveries of the same event, which has 1,000,000 at most, and what they ask for is taken last. What
//! an edit leads to is told by what it came to: a made one gives how the patch stands after it, its lines, the files
//! that it puts, and the boxes that are loaded; a refused one says why, and changes nothing; one that memory was
//! wanting for changes nothing but how much room there is.
//!
//! What an edit may come to is one definition (`IsLawful`). An edit of wires of the patch's own document is planned by
//! what the patch is (`pd_wiring`'s `planned`), and comes to no other end than that: it is made, and then all stays
//! but the wires with their links and orders, and a loop of its canvas is told; or it is refused for the reason of the
//! plan; or memory was wanting. An edit that puts a box comes to what `pd_putting` tells (`AddsBoxBy`, `IsNotPutBy`): the
//! box comes last into its canvas, with all that lies in it, and the box around gets the port that it is, if it is
//! one; all other boxes keep what they kept, and it is told why boxes could not be made, which wires in it don't fit,
//! a loop of the canvas around where a port came, and loops of its canvas and of those in it; the load boxes in it are
//! loaded; or it is refused for one of those reasons; or memory was wanting. An edit that deletes a box comes to what
//! `pd_deleting` tells (`DeletesBox`, `going`): the box goes with all that lies in it, with the wires and the clocks
//! of these boxes, and the box around loses the port that it was, if it was one, with the wires at that; all other
//! boxes keep what they kept, and it is told which wires went with the port, a loop of the canvas around where a port
//! went, and a loop of its canvas; or it is refused; or memory was wanting. An edit that moves a box comes to what
//! `pd_shifting` tells (`MovesBox`, `moving`): the box stands at another place of its canvas, and where it is a port
//! of the box around, the ports of that are in the order of these places, with their wires; all else stays, and it is
//! told a loop of the canvas around where ports changed places there, and a loop of its canvas; or it is refused; or
//! memory was wanting. An edit that gives a box another text comes to what `pd_retyping` tells (`RetypesBoxBy`,
//! `IsRefusedBy`): the wires at it that don't fit any more go, and it becomes another one in its place, with the ports
//! of its kind, with the other wires and without a clock; or, a subpatch that stays one, it takes the text and keeps
//! what it holds; all other boxes keep what they kept, and it is told why the new one could not be made, which wires
//! went, and a loop of its canvas; or it is refused; or memory was wanting. It makes no difference whether a command
//! or a message asks for an edit. A save of that document puts its text under the name of its file, and nothing else
//! changes; or it is refused for a fault of the folder or for want of memory. Edits and saves of drafts are refused,
//! and there is nothing to undo or redo.
//!
//! What a box grows to hangs on the files that the folder holds (`MayComeBy`). Edits go by a folder (`GoByFolder`)
//! where each comes to what it may by what the folder holds when it comes, where that is told: what it held at first,
//! with the files that were put since; behind a save that the folder failed to take, it isn't told any more. Each edit
//! that goes by a folder is lawful.
//!
//! What code has come to is said by two relations, both of whose sides are functions of what the edits to come lead
//! to. `Leads`: whatever more follows, the whole is these items and edits and then this rest; the sinks took the
//! items, the folder the files among them, and each edit is lawful, by what the folder held when it came; there were
//! no more looks at signal wires than these edits may take, each refusal for a fault of the folder raised its count,
//! and it holds what these edits leave in it, where they tell that. `BreaksOff`, where a sink fails:
//! the whole begins with these items, and both sinks have got what is for them of that one first part, so that no
//! sample is taken before a line that comes first.
//!
//! Laws: parts of a run can be taken together in any way, and where nothing happens nothing is added
//! (`parts_join`); of a first part of the list each sink gets a first part of what it gets of all
//! (`fronts_are_fronts`); what a stage has added up is what all samples on the way to it add up to
//! (`samples_are_added_up`); and edits that go by a folder, and others that go by what these leave in it, go by it
//! together (`edits_join_by_folder`).
//!
//! Definitions: `Items` (what happens, and what each sink gets of it), `Choices` (what edits come to), `Stages`
//! (stages, edits that were taken, parts of a run), `Lines` (lines with the numbers of boxes), `Lawful` (what edits
//! may come to), `Leads` (what was taken of a part), `Events`, `Times` (clocks and blocks), `Sums`, `Trees` (the tree
//! that stands at a stage, and the owners of names), `PassedOn` (what the crates below tell of boxes that come, go,
//! move and become others).
#![tactic(auto)]

mod laws;

pub use laws::{edits_join_by_folder, fronts_are_fronts, parts_join, samples_are_added_up};
// The edits of boxes of which these tell.
pub use pd_deleting::{OldBox, delete_box};
pub use pd_putting::{NewBox, Site, add_box};
pub use pd_retyping::{RetypedBox, retype_box};
pub use pd_shifting::{MovedBox, move_box};
