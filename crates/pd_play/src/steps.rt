//! The records of a script, carried out one by one.
ghost use Rattle.std.specs.Prelude.{◌≡◌, ◌+◌, ◌*◌, ◌<◌, ◌≤◌, ◌⊎◌, false, Some, None, OnOk, OnErr};
ghost use Rattle.pd_io.specs.Faults.{Rose};
ghost use Rattle.pd_script.specs.Room.{IsWhole, IsWholeAfter, HasRest};
ghost use Rattle.pd_clock.specs.Rates.{samples};
ghost use Rattle.pd_stage.specs.Leads.{sinks, Comes, Stops};
ghost use Rattle.pd_stage.specs.Times.{advanced};
ghost use Rattle.pd_engine.specs.Stages.{stage_at};
ghost use Rattle.pd_play.specs.Causes.{HasRunCauses};
ghost use Rattle.pd_play.specs.Runs.{millionths as count_of_millionths, done, end_reached, carried_out, goes_on, said_run, timed_run, record_run, counted};
ghost use Rattle.pd_play.specs.Playing.{point_at, StaysBut, IsCounted, IsPlayed, Leads, fed_run, Steps};

use crate::session::Session;
use crate::status::Status;
use pd_clock::Time;
use pd_engine::EngineFault;
use pd_feed::Fed;
use pd_io::{Shelf, Sink, Source, SourceFailed};
use pd_num::Num;
use pd_order::Steps as Looks;
use pd_script::{Command, Script};
use std::sync::ledger::Ledger;

/// The longest time of a script: 86,400,000 milliseconds, in millionths of one.
const MOST_TIME: u64 = 86_400_000_000_000;

impl Session {
    /// Takes the next record and carries it out; how the run ends, where it ends.
    pub(crate) fn step<H: Shelf, S: Source, L: Sink, P: Sink, K: Ledger>(
        &mut self,
        script: &mut S,
        shelf: &mut H,
        lines: &mut L,
        pcm: &mut P,
        steps: &mut Looks<K>,
    ) -> Option<Status>
        requires running { self.old.engine.stopped ≡ false }
        requires counted { IsCounted self.old.number self.old.feed }
        requires whole { IsWhole self.old.room }
        ensures running { result ≡ None → self.new.engine.stopped ≡ false }
        ensures whole { result ≡ None → IsWhole self.new.room }
        ensures counted { result ≡ None → IsCounted self.new.number self.new.feed }
        ensures one_more { result ≡ None → self.new.number ≡ self.old.number + 1 }
        ensures steps { Steps result self.old.feed (point_at self.old) self.new.feed (point_at self.new) (S.left script.old) (S.left script.new) (S.faults script.old) (S.faults script.new) (sinks (L.taken lines.old) (P.taken pcm.old) steps.old (H.holds shelf.old) (H.faults shelf.old)) (sinks (L.taken lines.new) (P.taken pcm.new) steps.new (H.holds shelf.new) (H.faults shelf.new)) }
        ensures shelf_counted { H.faults shelf.old ≤ H.faults shelf.new }
        ensures causes { HasRunCauses (S.faults script.old) (S.faults script.new) (L.faults lines.old) (L.faults lines.new) (P.faults pcm.old) (P.faults pcm.new) result }
    {
        match self.feed.next(script) {
            Ok(fed) => self.run_fed(fed, shelf, lines, pcm, steps),
            Err(SourceFailed) => Some(Status::ReadFault),
        }
    }

    /// Carries out what the feed answered.
    fn run_fed<H: Shelf, L: Sink, P: Sink, K: Ledger>(
        &mut self,
        fed: Fed,
        shelf: &mut H,
        lines: &mut L,
        pcm: &mut P,
        steps: &mut Looks<K>,
    ) -> Option<Status>
        requires running { self.old.engine.stopped ≡ false }
        requires few { self.old.number < 4294967295 }
        requires whole { IsWhole self.old.room }
        ensures running { result ≡ None → self.new.engine.stopped ≡ false }
        ensures whole { result ≡ None → IsWhole self.new.room }
        ensures one_more { result ≡ None → self.new.number ≡ self.old.number + 1 }
        ensures record { result ≡ None → fed ≡ Fed.Record }
        ensures feed { self.new.feed ≡ self.old.feed }
        ensures leads { Leads result (λ m rest. fed_run fed self.old.feed.last (point_at self.old m) rest) (point_at self.new) (sinks (L.taken lines.old) (P.taken pcm.old) steps.old (H.holds shelf.old) (H.faults shelf.old)) (sinks (L.taken lines.new) (P.taken pcm.new) steps.new (H.holds shelf.new) (H.faults shelf.new)) }
        ensures shelf_counted { H.faults shelf.old ≤ H.faults shelf.new }
        ensures causes { HasRunCauses 0 0 (L.faults lines.old) (L.faults lines.new) (P.faults pcm.old) (P.faults pcm.new) result }
    {
        match fed {
            Fed::Record => self.run_record(shelf, lines, pcm, steps),
            Fed::End => Some(self.end(shelf, lines, pcm, steps)),
            Fed::TooLong | Fed::Unfinished => Some(self.bad_rest()),
        }
    }

    /// A rest that is no record counts as the next one.
    fn bad_rest(&self) -> Status
        requires { self.now.number < 4294967295 }
        ensures { result ≡ Status.ScriptBad (self.now.number + 1) }
    {
        Status::ScriptBad {
            number: self.number + 1,
        }
    }

    /// Carries out the record that was read last. One without tokens is counted and does nothing.
    fn run_record<H: Shelf, L: Sink, P: Sink, K: Ledger>(
        &mut self,
        shelf: &mut H,
        lines: &mut L,
        pcm: &mut P,
        steps: &mut Looks<K>,
    ) -> Option<Status>
        requires running { self.old.engine.stopped ≡ false }
        requires few { self.old.number < 4294967295 }
        requires whole { IsWhole self.old.room }
        ensures running { result ≡ None → self.new.engine.stopped ≡ false }
        ensures whole { result ≡ None → IsWhole self.new.room }
        ensures one_more { self.new.number ≡ self.old.number + 1 }
        ensures feed { self.new.feed ≡ self.old.feed }
        ensures leads { Leads result (λ m rest. record_run self.old.feed.last (counted (point_at self.old m)) rest) (point_at self.new) (sinks (L.taken lines.old) (P.taken pcm.old) steps.old (H.holds shelf.old) (H.faults shelf.old)) (sinks (L.taken lines.new) (P.taken pcm.new) steps.new (H.holds shelf.new) (H.faults shelf.new)) }
        ensures shelf_counted { H.faults shelf.old ≤ H.faults shelf.new }
        ensures causes { HasRunCauses 0 0 (L.faults lines.old) (L.faults lines.new) (P.faults pcm.old) (P.faults pcm.new) result }
    {
        self.number += 1;
        if self.feed.last().is_empty() {
            return None;
        }
        match self.engine.read_record(self.feed.last(), &mut self.room) {
            Some((milliseconds, script)) => self.run_at(
                milliseconds,
                script,
                shelf,
                lines,
                pcm,
                steps,
            ),
            None => Some(self.bad_record()),
        }
    }

    fn bad_record(&self) -> Status
        ensures { result ≡ Status.ScriptBad self.now.number }
    {
        Status::ScriptBad {
            number: self.number,
        }
    }

    /// Carries out what a record says so many milliseconds after the record before.
    fn run_at<H: Shelf, L: Sink, P: Sink, K: Ledger>(
        &mut self,
        milliseconds: Num,
        script: Script,
        shelf: &mut H,
        lines: &mut L,
        pcm: &mut P,
        steps: &mut Looks<K>,
    ) -> Option<Status>
        requires running { self.old.engine.stopped ≡ false }
        requires whole { IsWholeAfter (Some script) self.old.room }
        ensures running { result ≡ None → self.new.engine.stopped ≡ false }
        ensures whole { result ≡ None → IsWhole self.new.room }
        ensures number { self.new.number ≡ self.old.number }
        ensures feed { self.new.feed ≡ self.old.feed }
        ensures leads { Leads result (λ m rest. timed_run (self.old.time + count_of_millionths milliseconds) script (point_at self.old m) rest) (point_at self.new) (sinks (L.taken lines.old) (P.taken pcm.old) steps.old (H.holds shelf.old) (H.faults shelf.old)) (sinks (L.taken lines.new) (P.taken pcm.new) steps.new (H.holds shelf.new) (H.faults shelf.new)) }
        ensures shelf_counted { H.faults shelf.old ≤ H.faults shelf.new }
        ensures causes { HasRunCauses 0 0 (L.faults lines.old) (L.faults lines.new) (P.faults pcm.old) (P.faults pcm.new) result }
    {
        let time = self.time.saturating_add(millionths(milliseconds));
        if time > MOST_TIME {
            return Some(self.bad_record());
        }
        self.time = time;
        self.run_script(script, shelf, lines, pcm, steps)
    }

    /// Carries out what a record says, at the script's time.
    fn run_script<H: Shelf, L: Sink, P: Sink, K: Ledger>(
        &mut self,
        script: Script,
        shelf: &mut H,
        lines: &mut L,
        pcm: &mut P,
        steps: &mut Looks<K>,
    ) -> Option<Status>
        requires running { self.old.engine.stopped ≡ false }
        requires whole { IsWholeAfter (Some script) self.old.room }
        ensures running { result ≡ None → self.new.engine.stopped ≡ false }
        ensures whole { result ≡ None → IsWhole self.new.room }
        ensures stays { StaysBut self.old self.new }
        ensures leads { Leads result (λ m rest. said_run script (point_at self.old m) rest) (point_at self.new) (sinks (L.taken lines.old) (P.taken pcm.old) steps.old (H.holds shelf.old) (H.faults shelf.old)) (sinks (L.taken lines.new) (P.taken pcm.new) steps.new (H.holds shelf.new) (H.faults shelf.new)) }
        ensures shelf_counted { H.faults shelf.old ≤ H.faults shelf.new }
        ensures causes { HasRunCauses 0 0 (L.faults lines.old) (L.faults lines.new) (P.faults pcm.old) (P.faults pcm.new) result }
    {
        match script {
            Script::Run(command) => self.run_command(command, shelf, lines, pcm, steps),
            Script::End => Some(self.end_at(shelf, lines, pcm, steps)),
        }
    }

    fn run_command<H: Shelf, L: Sink, P: Sink, K: Ledger>(
        &mut self,
        command: Command,
        shelf: &mut H,
        lines: &mut L,
        pcm: &mut P,
        steps: &mut Looks<K>,
    ) -> Option<Status>
        requires running { self.old.engine.stopped ≡ false }
        requires rest { HasRest command self.old.room }
        ensures running { result ≡ None → self.new.engine.stopped ≡ false }
        ensures whole { result ≡ None → IsWhole self.new.room }
        ensures stays { StaysBut self.old self.new }
        ensures leads { Leads result (λ m rest. goes_on (point_at self.old m) rest (carried_out command (point_at self.old m))) (point_at self.new) (sinks (L.taken lines.old) (P.taken pcm.old) steps.old (H.holds shelf.old) (H.faults shelf.old)) (sinks (L.taken lines.new) (P.taken pcm.new) steps.new (H.holds shelf.new) (H.faults shelf.new)) }
        ensures shelf_counted { H.faults shelf.old ≤ H.faults shelf.new }
        ensures causes { HasRunCauses 0 0 (L.faults lines.old) (L.faults lines.new) (P.faults pcm.old) (P.faults pcm.new) result }
    {
        if let Err(fault) = self.reach(shelf, lines, pcm, steps) {
            return Some(fault_of(fault));
        }
        if let Err(fault) = self.engine.command(&command, shelf, lines, steps) {
            return Some(fault_of(fault));
        }
        self.room.give_back(command);
        None
    }

    /// Takes the patch to the script's time.
    fn reach<H: Shelf, L: Sink, P: Sink, K: Ledger>(
        &mut self,
        shelf: &mut H,
        lines: &mut L,
        pcm: &mut P,
        steps: &mut Looks<K>,
    ) -> Result<(), EngineFault>
        requires { self.old.engine.stopped ≡ false }
        ensures running { OnOk result (self.new.engine.stopped ≡ false) }
        ensures stays { StaysBut self.old self.new }
        ensures room { self.new.room ≡ self.old.room }
        ensures passed { OnOk result (Comes (advanced (self.old.time * samples self.old.rate)) (stage_at self.old.engine) (stage_at self.new.engine) (sinks (L.taken lines.old) (P.taken pcm.old) steps.old (H.holds shelf.old) (H.faults shelf.old)) (sinks (L.taken lines.new) (P.taken pcm.new) steps.new (H.holds shelf.new) (H.faults shelf.new))) }
        ensures part { OnErr result (Stops (advanced (self.old.time * samples self.old.rate)) (stage_at self.old.engine) (sinks (L.taken lines.old) (P.taken pcm.old) steps.old (H.holds shelf.old) (H.faults shelf.old)) (sinks (L.taken lines.new) (P.taken pcm.new) steps.new (H.holds shelf.new) (H.faults shelf.new))) }
        ensures kept { H.holds shelf.new ≡ H.holds shelf.old }
        ensures shelf_counted { H.faults shelf.old ≤ H.faults shelf.new }
        ensures cause { OnErr result (Rose (L.faults lines.old) (L.faults lines.new) ⊎ Rose (P.faults pcm.old) (P.faults pcm.new)) }
        ensures lines_counted { L.faults lines.old ≤ L.faults lines.new }
        ensures pcm_counted { P.faults pcm.old ≤ P.faults pcm.new }
    {
        let time = u128::from(self.time) * u128::from(self.rate.hz());
        self.engine
            .advance(Time::of_units(time), shelf, lines, pcm, steps)
    }

    /// Ends the run at the script's time.
    fn end_at<H: Shelf, L: Sink, P: Sink, K: Ledger>(
        &mut self,
        shelf: &mut H,
        lines: &mut L,
        pcm: &mut P,
        steps: &mut Looks<K>,
    ) -> Status
        requires { self.old.engine.stopped ≡ false }
        ensures stays { StaysBut self.old self.new }
        ensures plays { IsPlayed (λ m rest. end_reached (point_at self.old m)) result (point_at self.new) (sinks (L.taken lines.old) (P.taken pcm.old) steps.old (H.holds shelf.old) (H.faults shelf.old)) (sinks (L.taken lines.new) (P.taken pcm.new) steps.new (H.holds shelf.new) (H.faults shelf.new)) }
        ensures kept { H.holds shelf.new ≡ H.holds shelf.old }
        ensures shelf_counted { H.faults shelf.old ≤ H.faults shelf.new }
        ensures causes { HasRunCauses 0 0 (L.faults lines.old) (L.faults lines.new) (P.faults pcm.old) (P.faults pcm.new) (Some result) }
    {
        match self.reach(shelf, lines, pcm, steps) {
            Ok(()) => self.end(shelf, lines, pcm, steps),
            Err(fault) => fault_of(fault),
        }
    }

    /// Runs the block that began, and ends.
    fn end<H: Shelf, L: Sink, P: Sink, K: Ledger>(
        &mut self,
        shelf: &mut H,
        lines: &mut L,
        pcm: &mut P,
        steps: &mut Looks<K>,
    ) -> Status
        requires { self.old.engine.stopped ≡ false }
        ensures stays { StaysBut self.old self.new }
        ensures plays { IsPlayed (λ m rest. done (stage_at self.old.engine m)) result (point_at self.new) (sinks (L.taken lines.old) (P.taken pcm.old) steps.old (H.holds shelf.old) (H.faults shelf.old)) (sinks (L.taken lines.new) (P.taken pcm.new) steps.new (H.holds shelf.new) (H.faults shelf.new)) }
        ensures kept { H.holds shelf.new ≡ H.holds shelf.old }
        ensures shelf_counted { H.faults shelf.old ≤ H.faults shelf.new }
        ensures causes { HasRunCauses 0 0 (L.faults lines.old) (L.faults lines.new) (P.faults pcm.old) (P.faults pcm.new) (Some result) }
    {
        match self.engine.finish(shelf, lines, pcm, steps) {
            Ok(()) => Status::Done,
            Err(fault) => fault_of(fault),
        }
    }
}

/// The millionths of a number of milliseconds, which isn't below 0.
fn millionths(milliseconds: Num) -> u64
    ensures { result ≡ count_of_millionths milliseconds }
{
    milliseconds.micros().max(0).unsigned_abs()
}

fn fault_of(fault: EngineFault) -> Status
    ensures { result ≡ Status.WriteFault }
{
    match fault {
        EngineFault::WriteFault | EngineFault::Stopped => Status::WriteFault,
    }
}
