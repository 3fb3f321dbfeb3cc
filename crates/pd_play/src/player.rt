//! The player as one call.

ghost use Rattle.std.specs.Prelude.{◌≡◌, ◌≢◌, ◌<◌, ◌≤◌, [], true, false, Some, IfSome, map, is_some};
ghost use Rattle.std.specs.String.{string_bytes};
ghost use Rattle.pd_words.specs.Grammar.{words_of};
ghost use Rattle.pd_script.specs.Room.{IsWhole};
ghost use Rattle.pd_stage.specs.Leads.{sinks};
ghost use Rattle.pd_play.specs.Causes.{HasRunCauses, HasCauses};
ghost use Rattle.pd_play.specs.Playing.{point_at, IsCounted, Ends};
ghost use Rattle.pd_play.specs.Patches.{Runs, PlaysPatch, PlaysBy, PlaysAsked};
ghost use Rattle.pd_play.specs.Telling.{IsUnplayed};

use crate::made::run_made;
use crate::report::tell;
use crate::session::Session;
use crate::status::Status;
use pd_clock::Rate;
use pd_io::{Shelf, Sink, Source};
use pd_order::Steps;
use pd_say::Held;
use pd_words::{Words, read_words};
use std::alloc::{AllocError, Global};
use std::marker::Brand;
use std::sync::ledger::{Blank, Ledger};

/// Plays a patch by a script: `words` are the words after the program's name, `shelf` is the folder of patches, printed lines go to
/// `lines` and the samples to `pcm`, 16 bits little-endian, left then right.
///
/// `plays` says what is printed, written and put into the folder: the lines of opening, the lines, samples and files of the script's run, and then
/// the line of the status. Edits of wires and edits that put a box with all that lies in it, a port of the box around or an abstraction too, which
/// the script or a message asks for, edits of the script that delete a box with all that lies in it, or a port of the box around with the wires at
/// it, make a box without a canvas inside another such one, without the wires that don't fit that, give a subpatch another text with which it keeps
/// what it holds, or move a box, a port of the box around too, and saves of the patch's own document are made; other edits and saves are refused so
/// far, those too that retype a port of a box around, and there is nothing to undo. The load boxes that lie in what came fire behind the edit that
/// put it. With `--make` a made patch is played by its own script, nothing of `script` is read, and the last line tells what the run came to. After
/// the usage line the folder, the script and the samples' sink are as they were; where memory is short, the script and the samples' sink are, and
/// what the folder holds.
pub fn play<H: Shelf, S: Source, L: Sink, P: Sink>(
    alloc: Global,
    words: &[String],
    shelf: &mut H,
    script: &mut S,
    lines: &mut L,
    pcm: &mut P,
) -> Status
    ensures folder_counted { H.faults shelf.old ≤ H.faults shelf.new }
    ensures causes { HasCauses (H.faults shelf.old) (H.faults shelf.new) (S.faults script.old) (S.faults script.new) (L.faults lines.old) (L.faults lines.new) (P.faults pcm.old) (P.faults pcm.new) result }
    ensures short { result ≡ Status.NoMemory → (H.holds shelf.new ≡ H.holds shelf.old) × (script.new ≡ script.old) × (pcm.new ≡ pcm.old) }
    ensures usage { result ≡ Status.Usage → is_some (words_of (map (λ w. string_bytes w) words.now)) ≡ false }
    ensures unplayed { is_some (words_of (map (λ w. string_bytes w) words.now)) ≡ false →
        IsUnplayed result (L.taken lines.old) (L.taken lines.new) (L.faults lines.old) (L.faults lines.new) }
    ensures untouched { is_some (words_of (map (λ w. string_bytes w) words.now)) ≡ false →
        (shelf.new ≡ shelf.old) × (script.new ≡ script.old) × (pcm.new ≡ pcm.old) }
    ensures unread { IfSome (words_of (map (λ w. string_bytes w) words.now)) (λ a. is_some a.make ≡ true → script.new ≡ script.old) }
    ensures plays { PlaysAsked (words_of (map (λ w. string_bytes w) words.now)) result (S.left script.old) (S.left script.new) (S.faults script.old) (S.faults script.new) (L.faults lines.old) (L.faults lines.new) (sinks (L.taken lines.old) (P.taken pcm.old) 0 (H.holds shelf.old) (H.faults shelf.old)) (sinks (L.taken lines.new) (P.taken pcm.new) 0 (H.holds shelf.new) (H.faults shelf.new)) }
{
    let mut held = Held::new();
    match read_words(alloc, words) {
        Ok(Some(asked)) => play_asked(alloc, &asked, shelf, script, &mut held, lines, pcm),
        Ok(None) => tell(b"", Status::Usage, &mut held, lines),
        Err(AllocError) => tell(b"", Status::NoMemory, &mut held, lines),
    }
}

/// Plays what the words ask for.
fn play_asked<H: Shelf, S: Source, L: Sink, P: Sink>(
    alloc: Global,
    asked: &Words<'_>,
    shelf: &mut H,
    script: &mut S,
    held: &mut Held,
    lines: &mut L,
    pcm: &mut P,
) -> Status
    requires empty { held.old.items ≡ [] }
    requires few { IfSome asked.now.make (λ n. n ≤ 1000) }
    ensures folder_counted { H.faults shelf.old ≤ H.faults shelf.new }
    ensures causes { HasCauses (H.faults shelf.old) (H.faults shelf.new) (S.faults script.old) (S.faults script.new) (L.faults lines.old) (L.faults lines.new) (P.faults pcm.old) (P.faults pcm.new) result }
    ensures short { result ≡ Status.NoMemory → (H.holds shelf.new ≡ H.holds shelf.old) × (script.new ≡ script.old) × (pcm.new ≡ pcm.old) }
    ensures usage { result ≢ Status.Usage }
    ensures unread { is_some asked.now.make ≡ true → script.new ≡ script.old }
    ensures plays { PlaysBy asked.now.make asked.now.patch.now asked.now.rate result (S.left script.old) (S.left script.new) (S.faults script.old) (S.faults script.new) (L.faults lines.old) (L.faults lines.new) (sinks (L.taken lines.old) (P.taken pcm.old) 0 (H.holds shelf.old) (H.faults shelf.old)) (sinks (L.taken lines.new) (P.taken pcm.new) 0 (H.holds shelf.new) (H.faults shelf.new)) }
{
    let name = asked.patch.as_bytes();
    match asked.make {
        None => run(alloc, name, asked.rate, shelf, script, held, lines, pcm),
        Some(voices) => run_made(alloc, voices, name, asked.rate, shelf, held, lines, pcm),
    }
}

/// Opens the patch, plays it, and tells how the run ended.
fn run<H: Shelf, S: Source, L: Sink, P: Sink>(
    alloc: Global,
    patch: &[u8],
    rate: Rate,
    shelf: &mut H,
    script: &mut S,
    held: &mut Held,
    lines: &mut L,
    pcm: &mut P,
) -> Status
    ensures folder_counted { H.faults shelf.old ≤ H.faults shelf.new }
    ensures causes { HasCauses (H.faults shelf.old) (H.faults shelf.new) (S.faults script.old) (S.faults script.new) (L.faults lines.old) (L.faults lines.new) (P.faults pcm.old) (P.faults pcm.new) result }
    ensures short { result ≡ Status.NoMemory → (H.holds shelf.new ≡ H.holds shelf.old) × (script.new ≡ script.old) × (pcm.new ≡ pcm.old) }
    ensures usage { result ≢ Status.Usage }
    ensures plays { PlaysPatch patch.now rate result (S.left script.old) (S.left script.new) (S.faults script.old) (S.faults script.new) (L.faults lines.old) (L.faults lines.new) (sinks (L.taken lines.old) (P.taken pcm.old) 0 (H.holds shelf.old) (H.faults shelf.old)) (sinks (L.taken lines.new) (P.taken pcm.new) 0 (H.holds shelf.new) (H.faults shelf.new)) }
{
    let status = play_whole(alloc, patch, rate, shelf, script, lines, pcm);
    held.clear();
    tell(patch, status, held, lines)
}

/// Opens the patch and plays it.
fn play_whole<H: Shelf, S: Source, L: Sink, P: Sink>(
    alloc: Global,
    patch: &[u8],
    rate: Rate,
    shelf: &mut H,
    script: &mut S,
    lines: &mut L,
    pcm: &mut P,
) -> Status
    ensures folder_counted { H.faults shelf.old ≤ H.faults shelf.new }
    ensures lines_counted { L.faults lines.old ≤ L.faults lines.new }
    ensures causes { HasCauses (H.faults shelf.old) (H.faults shelf.new) (S.faults script.old) (S.faults script.new) (L.faults lines.old) (L.faults lines.new) (P.faults pcm.old) (P.faults pcm.new) result }
    ensures short { result ≡ Status.NoMemory → (H.holds shelf.new ≡ H.holds shelf.old) × (script.new ≡ script.old) × (pcm.new ≡ pcm.old) }
    ensures usage { result ≢ Status.Usage }
    ensures runs { Runs patch.now rate result (S.left script.old) (S.left script.new) (S.faults script.old) (S.faults script.new) (sinks (L.taken lines.old) (P.taken pcm.old) 0 (H.holds shelf.old) (H.faults shelf.old)) (sinks (L.taken lines.new) (P.taken pcm.new) 0 (H.holds shelf.new) (H.faults shelf.new)) }
{
    match Session::open(alloc, patch, rate, shelf, lines) {
        Ok(session) => {
            let mut session = session;
            play_script::<H, S, L, P, Brand>(&mut session, script, shelf, lines, pcm, Blank::new(1))
        }
        Err(status) => status,
    }
}

/// Carries out the records of a script, one after the other. Nobody reads how many looks at signal wires that takes.
pub(crate) fn play_script<H: Shelf, S: Source, L: Sink, P: Sink, K: Ledger>(
    session: &mut Session,
    script: &mut S,
    shelf: &mut H,
    lines: &mut L,
    pcm: &mut P,
    blank: Blank,
) -> Status
    requires name { blank.name ≡ K.name }
    requires parts { blank.parts ≡ K.parts }
    requires some { 0 < blank.parts }
    requires running { session.old.engine.stopped ≡ false }
    requires counted { IsCounted session.old.number session.old.feed }
    requires whole { IsWhole session.old.room }
    ensures plays { Ends session.old.feed (point_at session.old) result (point_at session.new) (S.left script.old) (S.left script.new) (S.faults script.old) (S.faults script.new) (sinks (L.taken lines.old) (P.taken pcm.old) 0 (H.holds shelf.old) (H.faults shelf.old)) (sinks (L.taken lines.new) (P.taken pcm.new) 0 (H.holds shelf.new) (H.faults shelf.new)) }
    ensures folder_counted { H.faults shelf.old ≤ H.faults shelf.new }
    ensures causes { HasRunCauses (S.faults script.old) (S.faults script.new) (L.faults lines.old) (L.faults lines.new) (P.faults pcm.old) (P.faults pcm.new) (Some result) }
{
    let mut steps = Steps::<K>::new(blank);
    'records: loop {
        if let Some(status) = session.step(script, shelf, lines, pcm, &mut steps) {
            return status;
        }
    }
}
