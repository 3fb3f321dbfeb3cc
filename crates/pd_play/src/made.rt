//! A made patch, played by its own script.

ghost use Rattle.std.specs.Prelude.{◌≡◌, ◌≢◌, ◌≤◌, ℕ, [], false, List, Option, Some};
ghost use Rattle.pd_script.specs.Room.{IsWhole};
ghost use Rattle.pd_stage.specs.Leads.{sinks};
ghost use Rattle.pd_engine.specs.Stages.{stage_at};
ghost use Rattle.pd_play.specs.Causes.{HasMadeCauses};
ghost use Rattle.pd_play.specs.Made.{summary_line};
ghost use Rattle.pd_play.specs.Patches.{started, PlaysScript, PlaysMade};
ghost use Rattle.pd_play.specs.Playing.{Starts};
ghost use Rattle.pd_play.specs.Telling.{ends_with, Answers};
ghost use Rattle.pd_clock.specs.Rates.{samples};

use crate::player::play_script;
use crate::report::{tell, tell_summary};
use crate::session::Session;
use crate::status::Status;
use pd_clock::Rate;
use pd_io::{Shelf, Sink};
use pd_made::{ScriptSource, make_script};
use pd_say::Held;
use std::alloc::Global;
use std::marker::Brand;
use std::sync::ledger::Blank;

/// Makes a patch of so many voices, plays it by its script, and tells what that came to.
pub(crate) fn run_made<H: Shelf, L: Sink, P: Sink>(
    alloc: Global,
    voices: u32,
    name: &[u8],
    rate: Rate,
    shelf: &mut H,
    held: &mut Held,
    lines: &mut L,
    pcm: &mut P,
) -> Status
    requires { voices ≤ 1000 }
    ensures folder_counted { H.faults shelf.old ≤ H.faults shelf.new }
    ensures causes { HasMadeCauses (H.faults shelf.old) (H.faults shelf.new) (L.faults lines.old) (L.faults lines.new) (P.faults pcm.old) (P.faults pcm.new) result }
    ensures short { result ≡ Status.NoMemory → (H.holds shelf.new ≡ H.holds shelf.old) × (pcm.new ≡ pcm.old) }
    ensures plays { PlaysMade voices name.now rate result (L.faults lines.old) (L.faults lines.new) (sinks (L.taken lines.old) (P.taken pcm.old) 0 (H.holds shelf.old) (H.faults shelf.old)) (sinks (L.taken lines.new) (P.taken pcm.new) 0 (H.holds shelf.new) (H.faults shelf.new)) }
{
    held.clear();
    let Ok(script) = make_script(alloc, voices) else {
        return tell(name, Status::NoMemory, held, lines);
    };
    match Session::open_made(alloc, voices, name, rate, shelf, lines) {
        Ok(session) => play_made(
            session,
            voices,
            name,
            ScriptSource::new(script),
            shelf,
            held,
            lines,
            pcm,
        ),
        Err(status) => tell(name, status, held, lines),
    }
}

/// Plays a made patch that was opened, and tells what that came to.
fn play_made<H: Shelf, L: Sink, P: Sink>(
    session: Session,
    voices: u32,
    name: &[u8],
    script: ScriptSource,
    shelf: &mut H,
    held: &mut Held,
    lines: &mut L,
    pcm: &mut P,
) -> Status
    requires empty { held.old.items ≡ [] }
    requires running { session.engine.stopped ≡ false }
    requires whole { IsWhole session.room }
    requires starts { Starts session session.rate }
    ensures folder_counted { H.faults shelf.old ≤ H.faults shelf.new }
    ensures lines_counted { L.faults lines.old ≤ L.faults lines.new }
    ensures causes { HasMadeCauses (H.faults shelf.old) (H.faults shelf.new) (L.faults lines.old) (L.faults lines.new) (P.faults pcm.old) (P.faults pcm.new) result }
    ensures lasts { result ≢ Status.NoMemory }
    ensures plays { (left : Option (List ℕ)) × PlaysScript name.now (summary_line voices) (started (stage_at session.engine) (samples session.rate)) result (Some script) left 0 0 (sinks (L.taken lines.old) (P.taken pcm.old) 0 (H.holds shelf.old) (H.faults shelf.old)) (sinks (L.taken lines.new) (P.taken pcm.new) 0 (H.holds shelf.new) (H.faults shelf.new)) }
{
    let mut session = session;
    let mut script = script;
    let status = play_script::<H, ScriptSource, L, P, Brand>(
        &mut session,
        &mut script,
        shelf,
        lines,
        pcm,
        Blank::new(1),
    );
    tell_made(status, &session, voices, name, held, lines)
}

/// Tells how the run of a made patch ended: where it is done, what it came to.
fn tell_made<L: Sink>(
    status: Status,
    session: &Session,
    voices: u32,
    name: &[u8],
    held: &mut Held,
    lines: &mut L,
) -> Status
    requires { held.old.items ≡ [] }
    ensures answer { Answers (ends_with name.now (summary_line voices) status (stage_at session.now.engine [])) result (L.taken lines.old) (L.taken lines.new) (L.faults lines.old) (L.faults lines.new) }
    ensures counted { L.faults lines.old ≤ L.faults lines.new }
{
    if status.is_done() {
        return tell_summary(&session.summary(voices), held, lines);
    }
    tell(name, status, held, lines)
}
