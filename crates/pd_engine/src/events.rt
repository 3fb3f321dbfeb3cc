//! Events: deliveries or an edit, and then the edits that canvases were asked for, each with the boxes that are loaded behind it.

ghost use Rattle.std.specs.Prelude.{◌≡◌, ◌≤◌, ℕ, List, [], Option, OnOk, OnErr};
ghost use Rattle.pd_io.specs.declared.files.FileRow.{FileRow};
ghost use Rattle.pd_walk.specs.Outcome.{all_loaded};
ghost use Rattle.pd_say.specs.Gathering.{HasCause};
ghost use Rattle.pd_stage.specs.Events.{event, beginning_of, whole, loaded_by, edits_of_by};
ghost use Rattle.pd_stage.specs.Leads.{sinks, Comes, Stops};
ghost use Rattle.pd_engine.specs.Edits.{AreAskedFor, left_of, IsLoadedSo, IsLoadedPart};
ghost use Rattle.pd_engine.specs.Stages.{stage_at};

use crate::engine::Engine;
use pd_io::{Shelf, Sink, SinkFailed};
use pd_order::Steps;
use pd_walk::{Budget, Start};
use std::sync::ledger::Ledger;

/// The most edits that an event takes behind its deliveries.
const MOST_EDITS: u32 = 256;

impl Engine {
    /// An event at the present time: its deliveries, and then the edits that canvases were asked for are taken.
    pub(crate) fn run_event<H: Shelf, L: Sink, K: Ledger>(
        &mut self,
        start: &Start<'_>,
        shelf: &mut H,
        lines: &mut L,
        steps: &mut Steps<K>,
    ) -> Result<(), SinkFailed>
        ensures ok { OnOk result ((samples : Option (List ℕ)) → Comes (λ s. event s (beginning_of start.now)) (stage_at self.old) (stage_at self.new) (sinks (L.taken lines.old) samples steps.old (H.holds shelf.old) (H.faults shelf.old)) (sinks (L.taken lines.new) samples steps.new (H.holds shelf.new) (H.faults shelf.new))) }
        ensures err { OnErr result ((samples : Option (List ℕ)) → Stops (λ s. event s (beginning_of start.now)) (stage_at self.old) (sinks (L.taken lines.old) samples steps.old (H.holds shelf.old) (H.faults shelf.old)) (sinks (L.taken lines.new) samples steps.new (H.holds shelf.new) (H.faults shelf.new))) }
        ensures cause { HasCause (L.faults lines.old) (L.faults lines.new) result }
        ensures counted { H.faults shelf.old ≤ H.faults shelf.new }
        ensures kept { H.holds shelf.new ≡ H.holds shelf.old }
        ensures stays { self.new.stopped ≡ self.old.stopped }
    {
        self.patch.set_now(self.time);
        let mut budget = Budget::new();
        self.queue.clear();
        // The lengths are asked for what they say of the tables, which the proof cites.
        let symbols = &mut self.symbols;
        let _before = symbols.len();
        let delivered = self.walker.deliver(
            &mut self.patch,
            symbols,
            start,
            self.time,
            &mut budget,
            &mut self.queue,
            lines,
        );
        let _after = symbols.len();
        delivered?;
        self.take_queued(&mut budget, shelf, lines, steps)
    }

    /// What follows from an edit that is an event: the boxes are loaded that it made, and then the edits that canvases were asked for are
    /// taken.
    pub(crate) fn follow_edit<H: Shelf, L: Sink, K: Ledger>(
        &mut self,
        shelf: &mut H,
        lines: &mut L,
        steps: &mut Steps<K>,
    ) -> Result<(), SinkFailed>
        requires { self.old.queue ≡ [] }
        ensures ok { OnOk result ((samples : Option (List ℕ)) → Comes (loaded_by all_loaded self.old.loads.items whole (edits_of_by all_loaded)) (stage_at self.old) (stage_at self.new) (sinks (L.taken lines.old) samples steps.old (H.holds shelf.old) (H.faults shelf.old)) (sinks (L.taken lines.new) samples steps.new (H.holds shelf.new) (H.faults shelf.new))) }
        ensures err { OnErr result ((samples : Option (List ℕ)) → Stops (loaded_by all_loaded self.old.loads.items whole (edits_of_by all_loaded)) (stage_at self.old) (sinks (L.taken lines.old) samples steps.old (H.holds shelf.old) (H.faults shelf.old)) (sinks (L.taken lines.new) samples steps.new (H.holds shelf.new) (H.faults shelf.new))) }
        ensures cause { HasCause (L.faults lines.old) (L.faults lines.new) result }
        ensures counted { H.faults shelf.old ≤ H.faults shelf.new }
        ensures kept { H.holds shelf.new ≡ H.holds shelf.old }
        ensures stays { self.new.stopped ≡ self.old.stopped }
    {
        let mut left = Budget::new();
        self.load_made(&mut left, lines)?;
        self.take_queued(&mut left, shelf, lines, steps)
    }

    /// Loads the boxes that an edit made, with what is left of its event.
    pub(crate) fn load_made<L: Sink>(
        &mut self,
        budget: &mut Budget,
        lines: &mut L,
    ) -> Result<(), SinkFailed>
        requires { AreAskedFor self.old.queue }
        ensures ok { OnOk result ((samples : Option (List ℕ)) (looks : ℕ) (held : Option (List FileRow)) (faults : ℕ) → IsLoadedSo self.old.loads.items (left_of budget.old self.old.queue) (left_of budget.new self.new.queue) (stage_at self.old) (stage_at self.new) (sinks (L.taken lines.old) samples looks held faults) (sinks (L.taken lines.new) samples looks held faults)) }
        ensures err { OnErr result ((samples : Option (List ℕ)) (looks : ℕ) (held : Option (List FileRow)) (faults : ℕ) → IsLoadedPart self.old.loads.items (left_of budget.old self.old.queue) (stage_at self.old) (sinks (L.taken lines.old) samples looks held faults) (sinks (L.taken lines.new) samples looks held faults)) }
        ensures asked { OnOk result (AreAskedFor self.new.queue) }
        ensures cause { HasCause (L.faults lines.old) (L.faults lines.new) result }
        ensures stays { self.new.stopped ≡ self.old.stopped }
    {
        self.patch.set_now(self.time);
        // The lengths are asked for what they say of the tables, which the proof cites.
        let symbols = &mut self.symbols;
        let _before = symbols.len();
        let boxes = self.loads.as_slice();
        let loaded = self.walker.deliver(
            &mut self.patch,
            symbols,
            &Start::Loads { boxes },
            self.time,
            budget,
            &mut self.queue,
            lines,
        );
        let _after = symbols.len();
        loaded
    }

    /// Takes the edits that canvases were asked for in the event, one after the other, also those that are asked for by boxes that are
    /// loaded behind one.
    fn take_queued<H: Shelf, L: Sink, K: Ledger>(
        &mut self,
        budget: &mut Budget,
        shelf: &mut H,
        lines: &mut L,
        steps: &mut Steps<K>,
    ) -> Result<(), SinkFailed>
        requires { AreAskedFor self.old.queue }
        ensures ok { OnOk result ((samples : Option (List ℕ)) → Comes (edits_of_by all_loaded (left_of budget.old self.old.queue)) (stage_at self.old) (stage_at self.new) (sinks (L.taken lines.old) samples steps.old (H.holds shelf.old) (H.faults shelf.old)) (sinks (L.taken lines.new) samples steps.new (H.holds shelf.new) (H.faults shelf.new))) }
        ensures err { OnErr result ((samples : Option (List ℕ)) → Stops (edits_of_by all_loaded (left_of budget.old self.old.queue)) (stage_at self.old) (sinks (L.taken lines.old) samples steps.old (H.holds shelf.old) (H.faults shelf.old)) (sinks (L.taken lines.new) samples steps.new (H.holds shelf.new) (H.faults shelf.new))) }
        ensures cause { HasCause (L.faults lines.old) (L.faults lines.new) result }
        ensures counted { H.faults shelf.old ≤ H.faults shelf.new }
        ensures kept { H.holds shelf.new ≡ H.holds shelf.old }
        ensures stays { self.new.stopped ≡ self.old.stopped }
    {
        for i in 0..MOST_EDITS {
            if self.queue.len() <= i {
                return Ok(());
            }
            self.take_asked(i, budget, shelf, lines, steps)?;
        }
        Ok(())
    }
}
