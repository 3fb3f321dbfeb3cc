//! The engine: one event after another.

ghost use Rattle.std.specs.Prelude.{◌≡◌, ◌≤◌, ◌^◌, ◌⊎◌, ℕ, true, false, IsTrue, IsErrOf, OnOk, OnErr, IfOk, IfSome, IfNone, List, Option, option_map, length};
ghost use Rattle.pd_io.specs.Faults.{Rose};
ghost use Rattle.pd_atom.specs.Names.{IsTable, Extends};
ghost use Rattle.pd_lex.specs.Reading.{is_body};
ghost use Rattle.pd_script.specs.Room.{IsWhole, IsWholeAfter};
ghost use Rattle.pd_script.specs.Options.{Gives};
ghost use Rattle.pd_script.specs.Tokens.{tokens_of};
ghost use Rattle.pd_script.specs.Tables.{ScriptOf};
ghost use Rattle.pd_script.specs.Scripts.{command_of};
ghost use Rattle.pd_stage.specs.Choices.{Choice};
ghost use Rattle.pd_stage.specs.Stages.{with_names};
ghost use Rattle.pd_stage.specs.Leads.{sinks, Comes, Stops};
ghost use Rattle.pd_stage.specs.Times.{advanced, finished};
ghost use Rattle.pd_engine.specs.Commands.{commanded, IsCarriedOut};
ghost use Rattle.pd_web.specs.Changes.{wires_told, Meet};
ghost use Rattle.pd_gather.specs.Gather.{AreProper};
ghost use Rattle.pd_boxes.specs.Put.{CanPut};
ghost use Rattle.pd_adding.specs.Coming.{own_zero};
ghost use Rattle.pd_adding.specs.Counts.{AreWithin};

use crate::refusals::{EngineFault, Outcome};
use crate::room::BoxNumbers;
use pd_adding::Counts;
use pd_atom::Symbols;
use pd_clock::Time;
use pd_gather::Library;
use pd_io::{Shelf, Sink, SinkFailed};
use pd_made::Tally;
use pd_num::Num;
use pd_order::Steps;
use pd_patch::Patch;
use pd_queue::EditQueue;
use pd_say::Held;
use pd_script::{Command, CommandRoom, Script, read_command, tables_go_on};
use pd_walk::Walker;
use std::alloc::Global;
use std::sync::ledger::Ledger;

/// A patch that plays: what it was opened from, its time, and the room of its events.
#[derive(Drop)]
pub struct Engine {
    pub(crate) alloc: Global,
    /// The name under which the patch is saved.
    pub(crate) file: Vec<u8>,
    pub(crate) patch: Patch,
    /// What is counted of the patch.
    pub(crate) counts: Counts,
    pub(crate) library: Library,
    pub(crate) symbols: Symbols,
    pub(crate) walker: Walker,
    pub(crate) queue: EditQueue,
    /// The boxes that are loaded behind an edit.
    pub(crate) loads: Vec<u32>,
    pub(crate) held: Held,
    /// The numbers of a line.
    pub(crate) numbers: BoxNumbers,
    pub(crate) time: Time,
    /// The end of the block that comes next.
    pub(crate) block_end: Time,
    /// How many clocks fired since the last block.
    pub(crate) fired: u32,
    /// What the samples so far add up to.
    pub(crate) tally: Tally,
    pub(crate) stopped: bool,
    ghost puts: { ∥ CanPut patch ∥₁ },
    ghost meet: { ∥ Meet patch.web ∥₁ },
    ghost counted: { counts.wires ≡ wires_told patch.web },
    ghost within: { ∥ AreWithin counts ∥₁ },
    ghost zero: { own_zero patch ≤ 1000000000 },
    ghost found: { ∥ AreProper symbols library ∥₁ },
}

impl Engine {
    ghost use Rattle.pd_engine.specs.Stages.{stage_at};

    /// The table of names.
    pub fn symbols(&self) -> &Symbols
        ensures { result.now ≡ self.now.symbols }
    {
        &self.symbols
    }

    /// What the samples of the blocks so far add up to.
    pub fn tally(&self) -> Tally
        ensures { result ≡ self.now.tally }
    {
        self.tally
    }

    /// The running patch.
    pub fn patch(&self) -> &Patch
        ensures { result.now ≡ self.now.patch }
    {
        &self.patch
    }

    /// Reads a record of the script, which has no semicolon, by the engine's own table of names. It takes no memory.
    pub fn read_record(&mut self, bytes: &[u8], room: &mut CommandRoom) -> Option<(Num, Script)>
        requires whole { IsWhole room.old }
        requires body { IsTrue (is_body bytes.now) }
        requires short { length bytes.now ≤ 65536 }
        ensures exact { Gives (λ r. (r.0, r.1, self.new.symbols)) result (command_of self.old.symbols (tokens_of bytes.now)) }
        ensures of_table { IfSome result (λ r. ScriptOf self.new.symbols r.1) }
        ensures refused { IfNone result (self.new.symbols ≡ self.old.symbols) }
        ensures whole { IsWholeAfter (option_map (λ r. r.1) result) room.new }
        ensures stage { (ahead : List Choice) → stage_at self.new ahead ≡ with_names (stage_at self.old ahead) self.new.symbols }
        ensures stays { self.new.stopped ≡ self.old.stopped }
        ensures library { self.new.library ≡ self.old.library }
    {
        read_by(&mut self.symbols, bytes, room)
    }

    /// Carries out a command at the present time, and prints what it has to print. Edits of wires are made, and so are edits that put a box
    /// with all that lies in it, be it an abstraction, a subpatch, a port of the box around or another box, and then its load boxes send;
    /// edits that delete a box with all that lies in it, also one that is a port of the box around, which then loses that with the wires at
    /// it; edits that move a box, or that make a box without a canvas another one, with the wires that fit that, also those that become signal
    /// wires or cease to be such, where it is no port of a box around; and saves of the patch's own document. So are the edits that its
    /// messages ask for. Others are refused, and there is nothing to undo or redo. An abstraction that comes is by the file that the folder
    /// holds then, where it tells what it holds and the file wasn't read before.
    ///
    /// # Errors
    ///
    /// `WriteFault` where the lines weren't taken; after that every call answers `Stopped` and does nothing.
    pub fn command<H: Shelf, L: Sink, K: Ledger>(
        &mut self,
        cmd: &Command,
        shelf: &mut H,
        lines: &mut L,
        steps: &mut Steps<K>,
    ) -> Result<Outcome, EngineFault>
        ensures said { IfOk result (λ outcome. (samples : Option (List ℕ)) → IsCarriedOut cmd.now outcome (stage_at self.old) (stage_at self.new) (sinks (L.taken lines.old) samples steps.old (H.holds shelf.old) (H.faults shelf.old)) (sinks (L.taken lines.new) samples steps.new (H.holds shelf.new) (H.faults shelf.new))) }
        ensures part { OnErr result ((samples : Option (List ℕ)) → Stops (commanded cmd.now) (stage_at self.old) (sinks (L.taken lines.old) samples steps.old (H.holds shelf.old) (H.faults shelf.old)) (sinks (L.taken lines.new) samples steps.new (H.holds shelf.new) (H.faults shelf.new))) }
        ensures stopped { self.old.stopped ≡ true → IsErrOf result EngineFault.Stopped }
        ensures stopped_before { IsErrOf result EngineFault.Stopped → self.old.stopped ≡ true }
        ensures nothing { self.old.stopped ≡ true → (self.new ≡ self.old) × (L.taken lines.new ≡ L.taken lines.old) }
        ensures after { OnErr result (self.new.stopped ≡ true) }
        ensures goes_on { OnOk result (self.new.stopped ≡ false) }
        ensures untouched { self.old.stopped ≡ true → shelf.new ≡ shelf.old }
        ensures shelf_counted { H.faults shelf.old ≤ H.faults shelf.new }
        ensures cause { IsErrOf result EngineFault.WriteFault → Rose (L.faults lines.old) (L.faults lines.new) }
        ensures counted { L.faults lines.old ≤ L.faults lines.new }
    {
        if self.stopped {
            return Err(EngineFault::Stopped);
        }
        match self.carry_out(cmd, shelf, lines, steps) {
            Ok(outcome) => Ok(outcome),
            Err(SinkFailed) => Err(self.stop()),
        }
    }

    /// Runs each block that ends by a time and each clock below it, with the edits that messages ask for, and then raises the time to it
    /// where it is below.
    ///
    /// # Errors
    ///
    /// `WriteFault` where lines or samples weren't taken; after that every call answers `Stopped` and does nothing.
    pub fn advance<H: Shelf, L: Sink, P: Sink, K: Ledger>(
        &mut self,
        to: Time,
        shelf: &mut H,
        lines: &mut L,
        pcm: &mut P,
        steps: &mut Steps<K>,
    ) -> Result<(), EngineFault>
        requires { to ≤ 2 ^ 100 }
        ensures passed { OnOk result (Comes (advanced to) (stage_at self.old) (stage_at self.new) (sinks (L.taken lines.old) (P.taken pcm.old) steps.old (H.holds shelf.old) (H.faults shelf.old)) (sinks (L.taken lines.new) (P.taken pcm.new) steps.new (H.holds shelf.new) (H.faults shelf.new))) }
        ensures part { OnErr result (Stops (advanced to) (stage_at self.old) (sinks (L.taken lines.old) (P.taken pcm.old) steps.old (H.holds shelf.old) (H.faults shelf.old)) (sinks (L.taken lines.new) (P.taken pcm.new) steps.new (H.holds shelf.new) (H.faults shelf.new))) }
        ensures stopped { self.old.stopped ≡ true → IsErrOf result EngineFault.Stopped }
        ensures stopped_before { IsErrOf result EngineFault.Stopped → self.old.stopped ≡ true }
        ensures nothing { self.old.stopped ≡ true → (self.new ≡ self.old) × (L.taken lines.new ≡ L.taken lines.old) × (P.taken pcm.new ≡ P.taken pcm.old) }
        ensures after { OnErr result (self.new.stopped ≡ true) }
        ensures goes_on { OnOk result (self.new.stopped ≡ false) }
        ensures untouched { self.old.stopped ≡ true → shelf.new ≡ shelf.old }
        ensures kept { H.holds shelf.new ≡ H.holds shelf.old }
        ensures shelf_counted { H.faults shelf.old ≤ H.faults shelf.new }
        ensures cause { IsErrOf result EngineFault.WriteFault → Rose (L.faults lines.old) (L.faults lines.new) ⊎ Rose (P.faults pcm.old) (P.faults pcm.new) }
        ensures lines_counted { L.faults lines.old ≤ L.faults lines.new }
        ensures pcm_counted { P.faults pcm.old ≤ P.faults pcm.new }
    {
        if self.stopped {
            return Err(EngineFault::Stopped);
        }
        match self.advance_to(to, shelf, lines, pcm, steps) {
            Ok(()) => Ok(()),
            Err(SinkFailed) => Err(self.stop()),
        }
    }

    /// Runs the block that began before the present time and hasn't run, where there is one, after the clocks below its end.
    ///
    /// # Errors
    ///
    /// `WriteFault` where lines or samples weren't taken; after that every call answers `Stopped` and does nothing.
    pub fn finish<H: Shelf, L: Sink, P: Sink, K: Ledger>(
        &mut self,
        shelf: &mut H,
        lines: &mut L,
        pcm: &mut P,
        steps: &mut Steps<K>,
    ) -> Result<(), EngineFault>
        ensures passed { OnOk result (Comes finished (stage_at self.old) (stage_at self.new) (sinks (L.taken lines.old) (P.taken pcm.old) steps.old (H.holds shelf.old) (H.faults shelf.old)) (sinks (L.taken lines.new) (P.taken pcm.new) steps.new (H.holds shelf.new) (H.faults shelf.new))) }
        ensures part { OnErr result (Stops finished (stage_at self.old) (sinks (L.taken lines.old) (P.taken pcm.old) steps.old (H.holds shelf.old) (H.faults shelf.old)) (sinks (L.taken lines.new) (P.taken pcm.new) steps.new (H.holds shelf.new) (H.faults shelf.new))) }
        ensures stopped { self.old.stopped ≡ true → IsErrOf result EngineFault.Stopped }
        ensures stopped_before { IsErrOf result EngineFault.Stopped → self.old.stopped ≡ true }
        ensures nothing { self.old.stopped ≡ true → (self.new ≡ self.old) × (L.taken lines.new ≡ L.taken lines.old) × (P.taken pcm.new ≡ P.taken pcm.old) }
        ensures after { OnErr result (self.new.stopped ≡ true) }
        ensures goes_on { OnOk result (self.new.stopped ≡ false) }
        ensures untouched { self.old.stopped ≡ true → shelf.new ≡ shelf.old }
        ensures kept { H.holds shelf.new ≡ H.holds shelf.old }
        ensures shelf_counted { H.faults shelf.old ≤ H.faults shelf.new }
        ensures cause { IsErrOf result EngineFault.WriteFault → Rose (L.faults lines.old) (L.faults lines.new) ⊎ Rose (P.faults pcm.old) (P.faults pcm.new) }
        ensures lines_counted { L.faults lines.old ≤ L.faults lines.new }
        ensures pcm_counted { P.faults pcm.old ≤ P.faults pcm.new }
    {
        if self.stopped {
            return Err(EngineFault::Stopped);
        }
        match self.finish_block(shelf, lines, pcm, steps) {
            Ok(()) => Ok(()),
            Err(SinkFailed) => Err(self.stop()),
        }
    }

    /// Nothing is done any more.
    fn stop(&mut self) -> EngineFault
        ensures fault { result ≡ EngineFault.WriteFault }
        ensures stopped { self.new.stopped ≡ true }
    {
        self.stopped = true;
        EngineFault::WriteFault
    }
}

/// Reads a record by a table of names, to which it only adds names.
fn read_by(symbols: &mut Symbols, bytes: &[u8], room: &mut CommandRoom) -> Option<(Num, Script)>
    requires whole { IsWhole room.old }
    requires body { IsTrue (is_body bytes.now) }
    requires short { length bytes.now ≤ 65536 }
    ensures exact { Gives (λ r. (r.0, r.1, symbols.new)) result (command_of symbols.old (tokens_of bytes.now)) }
    ensures of_table { IfSome result (λ r. ScriptOf symbols.new r.1) }
    ensures refused { IfNone result (symbols.new ≡ symbols.old) }
    ensures whole { IsWholeAfter (option_map (λ r. r.1) result) room.new }
    ensures extends { Extends symbols.old symbols.new }
    ensures table { IsTable symbols.old }
    ensures table_after { IsTable symbols.new }
{
    // These are called for what they say of names that come, which the proof cites.
    tables_go_on();
    let _names = symbols.len();
    let read = read_command(bytes, symbols, room);
    let _names = symbols.len();
    read
}
