//! Clocks and blocks in time.

ghost use Rattle.std.specs.Prelude.{◌≡◌, ◌≤◌, ◌^◌, ℕ, List, Option, max, OnOk, OnErr};
ghost use Rattle.pd_say.specs.Gathering.{HasCause};
ghost use Rattle.pd_clock.specs.Queue.{Clock};
ghost use Rattle.pd_engine.specs.Causes.{HasCauses};
ghost use Rattle.pd_stage.specs.Leads.{sinks, Comes, Stops, Sounds, SoundsPart};
ghost use Rattle.pd_engine.specs.Stages.{stage_at};
ghost use Rattle.pd_stage.specs.Times as times;

use crate::engine::Engine;
use pd_block::run_block;
use pd_clock::Time;
use pd_io::{Shelf, Sink, SinkFailed, write_whole};
use pd_mix::{BYTES, write_samples};
use pd_num::Sig;
use pd_order::Steps;
use pd_walk::Start;
use std::sync::ledger::Ledger;

/// The length of a block of 64 samples, in units.
pub(crate) const BLOCK: u128 = 64_000_000_000;

/// So many clocks fire between two blocks at the most.
const MOST_FIRED: u32 = 10_000;

impl Engine {
    /// Runs each block that ends by a time, fires the clocks below it, and raises the time to it.
    pub(crate) fn advance_to<H: Shelf, L: Sink, P: Sink, K: Ledger>(
        &mut self,
        to: Time,
        shelf: &mut H,
        lines: &mut L,
        pcm: &mut P,
        steps: &mut Steps<K>,
    ) -> Result<(), SinkFailed>
        requires { to ≤ 2 ^ 100 }
        ensures ok { OnOk result (Comes (times.advanced to) (stage_at self.old) (stage_at self.new) (sinks (L.taken lines.old) (P.taken pcm.old) steps.old (H.holds shelf.old) (H.faults shelf.old)) (sinks (L.taken lines.new) (P.taken pcm.new) steps.new (H.holds shelf.new) (H.faults shelf.new))) }
        ensures err { OnErr result (Stops (times.advanced to) (stage_at self.old) (sinks (L.taken lines.old) (P.taken pcm.old) steps.old (H.holds shelf.old) (H.faults shelf.old)) (sinks (L.taken lines.new) (P.taken pcm.new) steps.new (H.holds shelf.new) (H.faults shelf.new))) }
        ensures cause { HasCauses (L.faults lines.old) (L.faults lines.new) (P.faults pcm.old) (P.faults pcm.new) result }
        ensures counted { H.faults shelf.old ≤ H.faults shelf.new }
        ensures kept { H.holds shelf.new ≡ H.holds shelf.old }
        ensures stays { self.new.stopped ≡ self.old.stopped }
    {
        while self.block_end.units() <= to.units() {
            self.run_next_block(shelf, lines, pcm, steps)?;
        }
        self.fire_below(to, shelf, lines, steps)?;
        self.time = later(self.time, to);
        Ok(())
    }

    /// Runs the block that began before the present time, where there is one.
    pub(crate) fn finish_block<H: Shelf, L: Sink, P: Sink, K: Ledger>(
        &mut self,
        shelf: &mut H,
        lines: &mut L,
        pcm: &mut P,
        steps: &mut Steps<K>,
    ) -> Result<(), SinkFailed>
        ensures ok { OnOk result (Comes times.finished (stage_at self.old) (stage_at self.new) (sinks (L.taken lines.old) (P.taken pcm.old) steps.old (H.holds shelf.old) (H.faults shelf.old)) (sinks (L.taken lines.new) (P.taken pcm.new) steps.new (H.holds shelf.new) (H.faults shelf.new))) }
        ensures err { OnErr result (Stops times.finished (stage_at self.old) (sinks (L.taken lines.old) (P.taken pcm.old) steps.old (H.holds shelf.old) (H.faults shelf.old)) (sinks (L.taken lines.new) (P.taken pcm.new) steps.new (H.holds shelf.new) (H.faults shelf.new))) }
        ensures cause { HasCauses (L.faults lines.old) (L.faults lines.new) (P.faults pcm.old) (P.faults pcm.new) result }
        ensures counted { H.faults shelf.old ≤ H.faults shelf.new }
        ensures kept { H.holds shelf.new ≡ H.holds shelf.old }
        ensures stays { self.new.stopped ≡ self.old.stopped }
    {
        let end = self.block_end.units();
        if end < BLOCK || end - BLOCK < self.time.units() {
            return self.run_next_block(shelf, lines, pcm, steps);
        }
        Ok(())
    }

    /// Fires the clocks below the end of the next block, and runs it.
    fn run_next_block<H: Shelf, L: Sink, P: Sink, K: Ledger>(
        &mut self,
        shelf: &mut H,
        lines: &mut L,
        pcm: &mut P,
        steps: &mut Steps<K>,
    ) -> Result<(), SinkFailed>
        ensures ok { OnOk result (Comes times.block_runs (stage_at self.old) (stage_at self.new) (sinks (L.taken lines.old) (P.taken pcm.old) steps.old (H.holds shelf.old) (H.faults shelf.old)) (sinks (L.taken lines.new) (P.taken pcm.new) steps.new (H.holds shelf.new) (H.faults shelf.new))) }
        ensures err { OnErr result (Stops times.block_runs (stage_at self.old) (sinks (L.taken lines.old) (P.taken pcm.old) steps.old (H.holds shelf.old) (H.faults shelf.old)) (sinks (L.taken lines.new) (P.taken pcm.new) steps.new (H.holds shelf.new) (H.faults shelf.new))) }
        ensures cause { HasCauses (L.faults lines.old) (L.faults lines.new) (P.faults pcm.old) (P.faults pcm.new) result }
        ensures counted { H.faults shelf.old ≤ H.faults shelf.new }
        ensures kept { H.holds shelf.new ≡ H.holds shelf.old }
        ensures stays { self.new.stopped ≡ self.old.stopped }
    {
        self.fire_below(self.block_end, shelf, lines, steps)?;
        self.sound_block(pcm)
    }

    /// Runs the boxes for the next block, adds up its samples, and writes them.
    fn sound_block<P: Sink>(&mut self, pcm: &mut P) -> Result<(), SinkFailed>
        ensures ok { OnOk result ((lines : Option (List ℕ)) (looks : ℕ) → Sounds times.block_sounds (stage_at self.old) (stage_at self.new) lines lines (P.taken pcm.old) (P.taken pcm.new) looks looks) }
        ensures err { OnErr result ((lines : Option (List ℕ)) (looks : ℕ) → SoundsPart times.block_sounds (stage_at self.old) lines lines (P.taken pcm.old) (P.taken pcm.new) looks looks) }
        ensures cause { HasCause (P.faults pcm.old) (P.faults pcm.new) result }
        ensures stays { self.new.stopped ≡ self.old.stopped }
        ensures library { self.new.library ≡ self.old.library }
    {
        let end = self.block_end.units();
        let start = Time::of_units(end.saturating_sub(BLOCK));
        let mut block = [[Sig::default(); 64]; 2];
        run_block(&mut self.patch, start, &mut block);
        let mut samples = [0; BYTES];
        write_samples(&block, &mut samples);
        self.tally.add(&samples);
        self.time = later(self.time, self.block_end);
        self.block_end = Time::of_units(end.saturating_add(BLOCK));
        self.fired = 0;
        write_whole(pcm, &samples)
    }

    /// Fires the clocks below a time, at most 10,000 between two blocks.
    fn fire_below<H: Shelf, L: Sink, K: Ledger>(
        &mut self,
        limit: Time,
        shelf: &mut H,
        lines: &mut L,
        steps: &mut Steps<K>,
    ) -> Result<(), SinkFailed>
        ensures ok { OnOk result ((samples : Option (List ℕ)) → Comes (times.clocks_fire limit) (stage_at self.old) (stage_at self.new) (sinks (L.taken lines.old) samples steps.old (H.holds shelf.old) (H.faults shelf.old)) (sinks (L.taken lines.new) samples steps.new (H.holds shelf.new) (H.faults shelf.new))) }
        ensures err { OnErr result ((samples : Option (List ℕ)) → Stops (times.clocks_fire limit) (stage_at self.old) (sinks (L.taken lines.old) samples steps.old (H.holds shelf.old) (H.faults shelf.old)) (sinks (L.taken lines.new) samples steps.new (H.holds shelf.new) (H.faults shelf.new))) }
        ensures cause { HasCause (L.faults lines.old) (L.faults lines.new) result }
        ensures counted { H.faults shelf.old ≤ H.faults shelf.new }
        ensures kept { H.holds shelf.new ≡ H.holds shelf.old }
        ensures stays { self.new.stopped ≡ self.old.stopped }
    {
        while self.fired < MOST_FIRED {
            let Some((time, owner)) = self.patch.next_clock(limit) else {
                return Ok(());
            };
            self.fire(time, owner, shelf, lines, steps)?;
        }
        Ok(())
    }

    /// A clock that was taken off fires.
    fn fire<H: Shelf, L: Sink, K: Ledger>(
        &mut self,
        time: Time,
        owner: u32,
        shelf: &mut H,
        lines: &mut L,
        steps: &mut Steps<K>,
    ) -> Result<(), SinkFailed>
        requires { self.old.fired ≤ 10000 }
        ensures ok { OnOk result ((samples : Option (List ℕ)) → Comes (λ s. times.fires_at s time owner) (stage_at self.old) (stage_at self.new) (sinks (L.taken lines.old) samples steps.old (H.holds shelf.old) (H.faults shelf.old)) (sinks (L.taken lines.new) samples steps.new (H.holds shelf.new) (H.faults shelf.new))) }
        ensures err { OnErr result ((samples : Option (List ℕ)) → Stops (λ s. times.fires_at s time owner) (stage_at self.old) (sinks (L.taken lines.old) samples steps.old (H.holds shelf.old) (H.faults shelf.old)) (sinks (L.taken lines.new) samples steps.new (H.holds shelf.new) (H.faults shelf.new))) }
        ensures cause { HasCause (L.faults lines.old) (L.faults lines.new) result }
        ensures counted { H.faults shelf.old ≤ H.faults shelf.new }
        ensures kept { H.holds shelf.new ≡ H.holds shelf.old }
        ensures stays { self.new.stopped ≡ self.old.stopped }
    {
        self.fired += 1;
        self.time = later(self.time, time);
        self.run_event(&Start::Clock { owner }, shelf, lines, steps)
    }
}

/// The later of two times.
fn later(a: Time, b: Time) -> Time
    ensures { result ≡ max a b }
{
    Time::of_units(a.units().max(b.units()))
}
