//! The player, as the program calls it, and the laws of its scripts: no message is ever passed over in a run.
//!
//! Messages are delivered under conditions that the program looks at when it runs, and what is out of order is passed
//! over, in the definitions of pd_engine and pd_play too. In a run that never comes. So the clause `plays` of `play`
//! says what a call prints, writes and puts into the folder by the run in which each event is the depth-first recursion
//! over the objects' own definitions. Where the words ask for the patch of a file name, its file is read and grows;
//! then come the lines of opening, the run of the script, whatever its bytes are, and the line of the status, with
//! lines, samples and files that are put in one list in their order. Edits of wires and edits that put a box with all
//! that lies in it, a port of the box around or an abstraction too, which the script or a message asks for, edits of
//! the script that delete a box with all that lies in it, or a port of the box around with the wires at it, make a box
//! without a canvas inside another such one, without the wires that don't fit that, give a subpatch another text with
//! which it keeps what it holds, or move a box, a port of the box around too, and saves of the patch's own document are
//! made, but that no port of a box around becomes another box: what each came to stands in the run, and it is lawful
//! (pd_stage's `Lawful`), by what the folder holds when it comes: what it held at the beginning, where it tells that,
//! with the files that were saved until then, and behind a save that it failed to take no more is said of it. The load
//! boxes that lie in what came fire behind the edit that put it, in the same event. Each save puts a text that opens
//! again as the patch that was saved, under the `$0` numbers that it had and with the files that were known by then;
//! and as a file that is opened does, where these numbers are the first ones from 1001 on, as they are until a box that
//! goes takes one of them away or one that comes brings one (pd_again_law's `Again`). All of the list was taken, and
//! the status is the run's; or a sink failed, the status is `WriteFault`, and what was taken and put is one first part
//! of it. The folder then holds what it held with the files of that list, one after the other, where it still tells
//! what it holds, and of the saves and edits no more were refused for a fault of it than it counted. With `Done`
//! nothing is left of the script, where the source tells that, or the run met an `end`. Where the patch doesn't open,
//! its cause is told, no script is read, no sample is written, and the folder holds what it held.
//!
//! Where they ask for a made patch, the document and the script are those of pd_made, and all else is the same; nothing
//! of the script's source is read (`unread`), and the last line of a run that is done tells what it came to.
//!
//! A run comes to its end where it can (`completes`): the words ask for the patch of a file, the folder and the
//! source tell what they hold, its file reads and grows within the limits of a patch, with the files that are held,
//! the script is commands up to its end or to an `end`, whatever the edits of the run lawfully come to, and no fault
//! comes; or they ask for a made patch, and no fault comes. Then the status is `Done`, or memory was short. An edit
//! that is refused, for want of memory too, ends no run.
//!
//! The other clauses are those of pd_play's `play`: a fault has its cause (`causes`), and the folder's count of
//! faults never falls (`folder_counted`); with other words the usage line is told, and the folder, the source of the
//! script and the samples' sink are as they were (`usage`, `unplayed`, `untouched`); where memory was short, the
//! source, the samples' sink and what the folder holds are (`short`).
//!
//! Laws: from each point whose stage is steady the run of a script in which each edit is lawful is the one in which no
//! message is passed over, and a patch opens at such a point (`scripts_pass_nothing_over`); so it is in all that
//! `play` takes to its sinks (`play_passes_nothing_over`). The run is steps, one after another: the names that a
//! record brings, the time that it comes to, and its command; then the last block, where the run comes to its end
//! (`scripts_are_steps`). With pd_engine's own events and blocks the run is pd_play's (`scripts_are_by_events`).
//!
//! In each block of the run each box runs its own row on the sums of all its wires (`free_block` of `pd_sound_law`). Its
//! definition looks at no condition. Free: want of memory for the words or in opening, and in each edit and save, which
//! is refused then with its line.
//!
//! Definitions: `Whole` (a play in which no message is passed over), `Complete` (when a run is sure to end),
//! `Scripts` (runs with events that are given), `Points` (steady points, steps), `Laws` (what the laws say).
#![tactic(auto)]

mod laws;
mod player;

pub use laws::{
    play_passes_nothing_over, scripts_are_by_events, scripts_are_steps, scripts_pass_nothing_over,
};
pub use pd_play::Status;
pub use player::play;
