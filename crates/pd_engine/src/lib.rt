//! Events in time: opening, commands, clocks and blocks.
//!
//! Between events a patch stands at a stage (`pd_stage`). Each call is a function of the stage: it gives the stage
//! after it, what happens on the way, lines and samples in one list in their order, and the edits that were taken, and
//! the code does exactly that: for what these edits came to, whatever the edits after them lead to. Each is lawful
//! (pd_stage's `IsLawful`): an edit of wires of the patch's own document is made, or refused as it is planned to be or
//! for want of memory; one that puts a box grows it, with the files for which it asks, and puts it last into its
//! canvas with all that lies in it, gives the box around the port that it is, if it is one, and tells why boxes of
//! these could not be made and which wires in it don't fit; one that deletes a box takes it out with all that lies in
//! it, and with the wires and the clocks of these boxes, takes from the box around the port that it was, if it was
//! one, with the wires at that, and tells which these were; one that moves a box gives it another place in its window,
//! and the box around its ports in the order of these places, each with its wires; one that gives a box another text
//! grows what it becomes, takes out the wires at it that don't fit that, and puts that in its place where both are
//! boxes without a canvas and no ports of a box around, with the wires that fit, those that carry other things than
//! before too, and tells why it could not be made and which wires went; or it gives a subpatch that stays one that
//! text, and what it holds stays;
//! after each of these a loop of its canvas is told, after a port that came, went or changed its place first one of
//! the canvas around, and those of the canvases that came; a save puts the document's text under the name of its file;
//! every other edit or save is refused, and there is nothing to undo or redo. Behind an edit the load boxes that came
//! with its box are loaded, in text order. It makes no difference whether a command or a message asks for an edit.
//! Looks at signal wires are at most those of the edits. Each edit goes by what the folder holds when it comes, where
//! it tells that (pd_stage's `GoByFolder`): what grows asks for the files that it holds, and a save that was put is
//! there for the edits behind it; behind a save that the folder failed to take, it isn't told what it holds.
//!
//! `command` does what its command says: a `send` is its event, that is pd_walk's deliveries under 1,000,000, and
//! then each edit that was asked for is taken, 256 at most; `show` prints the order of the canvas that its path leads
//! to; an edit, a save, `undo` and `redo` are an event too: one edit is taken, and what is answered is what that came
//! to. What is loaded behind an edit are deliveries of its event, under what is left of the 1,000,000, and the edits
//! that they ask for are taken last. `advance` takes the steps to a time: each block that ends by it runs, after the
//! clocks below its end, and its samples are written; then the clocks below the time fire, each the first that was set
//! among those of the least time, at most 10,000 between two blocks; then it is that time. `finish` runs the block that
//! has begun, after its clocks. Where a sink fails, the sinks took the lines and the samples of one first part of that
//! list, and so no sample before a line that comes first (`part`); `WriteFault` comes only where a count of faults of the
//! sinks rose in that call (`cause`); after it, and only after it, calls answer `Stopped`, and then nothing changes (`nothing`).
//! `read_record` is pd_script's reading on the engine's own table; `document` is the document of the running patch, and
//! `tally` what the samples of the blocks so far add up to.
//!
//! `open` and `from_doc` (`opens`): the document is what pd_doc's definition reads of the file, which is the one
//! that the folder holds where it tells; its files are gathered; it and they are proper; the patch is one that
//! stands for the tree that growth gives, with `$0` from 1001; the lines are those of growth and of the load event,
//! and the engine stands where these lead, from the files that were gathered and the counts of the patch on. Edits
//! that put boxes go on from these, also those that messages ask for while boxes load or time passes (`advance`,
//! `finish`), and those that give boxes another text: the folder is asked for the files that a box and those in it
//! name, holds what it held (`kept`), and each refusal for a fault of it raised its count. A refusal to open has its cause (`refused`): no
//! such file, a text that isn't read, files whose names fill the table, a limit of growth, each with its number and
//! cause; after each but `WriteFault` no line was printed (`quiet`). A fault of the folder is answered only where its
//! count rose (`causes`).
//!
//! Law: from where a patch opens on, through commands and through time, a tree stands (pd_stage's `HasTree`): it stays
//! as it grew but for its clocks, what its boxes keep, the blocks of their outlets, its wires with their links and
//! orders, which stay sound, the boxes that edits put, delete, move or make others, and what comes with them; and so
//! each block that sounds is the whole one, however deep its canvases lie (`blocks_are_whole`).
//!
//! Free: want of memory, in opening, and of an edit or a save. A line tells the numbers of at most 16,384 boxes,
//! which is as many as a patch may have: the lines of `show` tell all boxes of an order, and the line of a signal
//! loop, which is printed where a patch opens and where an edit leaves one, all boxes of the loop
//! (`pd_steady`).
//!
//! Definitions: `Stages` (where an engine stands), `Commands`, `Edits`, `Messages`, `Opening`, `Remarks` (lines of growth and of
//! boxes that came), `Refusals`, `Causes`; events, clocks and blocks are those of `pd_stage`.
#![tactic(auto)]

mod commands;
mod document;
mod edits;
mod engine;
mod events;
mod laws;
mod messages;
mod opening;
mod ports;
mod printing;
mod puts;
mod refusals;
mod remarks;
mod room;
mod showing;
mod times;

pub use engine::Engine;
pub use laws::blocks_are_whole;
pub use pd_edit::EditRefusal;
pub use refusals::{BadCause, EngineFault, OpenRefusal, Outcome};
