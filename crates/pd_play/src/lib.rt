//! The player: what a run on the words of a command line reads, prints, saves and answers.
//!
//! The clause `plays` of `play` says what a run answers, prints and writes, where the words ask for the patch of a
//! file name or for a made one. The file opens as pd_engine's `open` says, with its lines; from there the script is run, and its bytes
//! are all that the source had left, where it tells that, in whatever pieces they come. The run takes record by
//! record. One of white space alone is counted and passed over. A record that is no command, that takes the time
//! past 86,400,000 ms or that is too long ends the run with `ScriptBad` and its number, and so does a rest that is
//! no record. A command brings its names, the patch is taken to its time, and it is carried out. At an `end` and at
//! the end of the script the block that has begun runs, and the status is `Done`. Status, lines, samples and files
//! are those of the run, and then comes the line of the status.
//!
//! Edits of wires and edits that put a box with all that lies in it, a port of the box around or an abstraction too,
//! which the script or a message asks for, edits of the script that delete a box with all that lies in it, or a port of
//! the box around with the wires at it, make a box without a canvas inside another such one, without the wires that
//! don't fit that, give a subpatch another text with which it keeps what it holds, or move a box, a port of the box
//! around too, and saves of the patch's own document are made: what each came to stands in the run, and it is lawful
//! (pd_stage's `Lawful`), by what the folder held when it came, where that is told. The load boxes that lie in what
//! came fire behind the edit that put it, in the same event. Other edits and saves are refused so far, with their
//! lines, and so are those that retype a port of a box around; there is nothing to undo or redo. Then the run goes on.
//!
//! Where the source fails, the script is what it gave until then: its whole records are run, and the status is
//! `ReadFault`. Lines and samples of the run and the files that are put, with the line of the status, stand in one list
//! in their order. Where a sink fails, the status is `WriteFault`, and what was taken and put is one first part of it,
//! and so no sample came before a line that comes first. With `Done`, nothing is left of the script, where the source
//! tells that, or the run met an `end`. Where the patch doesn't open, the line of its status follows, no script is
//! read, no sample is written and no file is put.
//!
//! Opening leaves what the folder holds. After the run it holds what it held with the files that were put, one
//! after the other, where it still tells what it holds. A save or an edit that fails for a fault of the folder is
//! refused with its line, and the count of such faults rose. Where nothing is played, the folder holds what it held. A status
//! that tells of a fault comes only where that count of faults rose (`causes`). The usage line is told where the
//! words are none of the command, unless memory is short or the line isn't taken
//! (`unplayed`); then the folder, the source of the script and the samples' sink are as they were (`untouched`).
//! The status for it comes nowhere else (`usage`). The exit code of each status is exact (`Status::code`).
//!
//! A made patch opens from the document that pd_made defines, under the patch's name, and is played by the script that
//! pd_made defines: the same run, but that no source can fail, and that the last line of a run that is done tells where
//! the patch stands then (`summary_at`): elements, wires, blocks, and the sum of the samples. The source of the script
//! is as it was (`unread`). Law: what stands there as the sum is that of all samples of the run, from where the patch
//! opens (`runs_add_up`).
//!
//! Free: want of memory for the words or in opening, and in each edit and save, which is refused then with its line.
//! Once the patch is open, it plays to its end: with `NoMemory` the source and the samples' sink are as they were, and
//! so is what the folder holds (`short`).
//!
//! `RecordFeed` and what it answers, `Fed`, are `pd_feed`'s.
//!
//! Definitions: `Patches` (a play of a patch by a script), `Runs` (the run of a script), `Playing` (what was taken
//! of it), `Ending` (statuses, lines, codes), `Made` (what a made run came to), `Refusing`, `Causes`, `Telling`.
#![tactic(auto)]

mod laws;
mod made;
mod player;
mod report;
mod session;
mod status;
mod steps;

pub use laws::runs_add_up;
pub use pd_engine::BadCause;
pub use pd_feed::{Fed, RecordFeed};
pub use player::play;
pub use status::Status;
