//! Edits and saves of the patch's own document.

ghost use Rattle.std.specs.Prelude.{◌≡◌, ◌<◌, ◌≤◌, ℕ, true, false, List, [], Option, Some, None, length, OnOk, OnErr, IfOk};
ghost use Rattle.pd_io.specs.Stream.{grown, TookPart};
ghost use Rattle.pd_io.specs.declared.files.FileRow.{FileRow};
ghost use Rattle.pd_canvas.specs.declared.edits.Edit.{Edit as EditSeen};
ghost use Rattle.pd_canvas.specs.declared.edits.Edit.TheVariants as edit;
ghost use Rattle.pd_queue.specs.Entries.{wire_edit};
ghost use Rattle.pd_script.specs.Edits.{puts_box};
ghost use Rattle.pd_say.specs.Gathering.{HasCause};
ghost use Rattle.pd_web.specs.Changes.{wires_told};
ghost use Rattle.pd_wiring.specs.Changes.{CanRewire};
ghost use Rattle.pd_stage.specs.Choices.{Wanted, Edits, Asks, Saves};
ghost use Rattle.pd_stage.specs.Events.{edit_taken, edit_event};
ghost use Rattle.pd_stage.specs.Lawful.{why_of as why_so};
ghost use Rattle.pd_stage.specs.Leads.{sinks, Stops, SaysPart};
ghost use Rattle.pd_stage.specs.PassedOn.{keys_within};
ghost use Rattle.pd_stage.specs.Lines.{deleted_text, loads_inside, moved_text, put_text, retyped_text};
ghost use Rattle.pd_engine.specs.Stages.{stage_at};
ghost use Rattle.pd_engine.specs.Edits as edits;

use crate::engine::Engine;
use crate::printing::print_refusal;
use crate::puts::{keep_loads, print_put};
use crate::refusals::{Outcome, unsaved};
use crate::remarks::{print_gone, print_gone_around, print_loop, print_loop_around, print_unmade};
use pd_canvas::{Atoms, Edit, Place};
use pd_edit::{EditRefusal, rewire};
use pd_io::{Shelf, Sink, SinkFailed};
use pd_num::Num;
use pd_order::Steps;
use pd_patch::Patch;
use pd_save::put_document;
use pd_say::{Request, Why};
use pd_script::CommandEdit;
use pd_stage::{
    MovedBox, NewBox, OldBox, RetypedBox, Site, add_box, delete_box, move_box, retype_box,
};
use pd_walk::Budget;
use std::alloc::{AllocError, Global};
use std::sync::ledger::Ledger;

impl Engine {
    /// Takes the edit of a place of the queue, and loads the boxes that it made, with what is left of the event.
    pub(crate) fn take_asked<H: Shelf, L: Sink, K: Ledger>(
        &mut self,
        i: u32,
        budget: &mut Budget,
        shelf: &mut H,
        lines: &mut L,
        steps: &mut Steps<K>,
    ) -> Result<(), SinkFailed>
        requires place { i < length self.old.queue }
        requires asked { edits.AreAskedFor self.old.queue }
        ensures ok { OnOk result ((samples : Option (List ℕ)) → edits.IsAskedSo i (edits.left_of budget.old self.old.queue) (edits.left_of budget.new self.new.queue) (stage_at self.old) (stage_at self.new) (sinks (L.taken lines.old) samples steps.old (H.holds shelf.old) (H.faults shelf.old)) (sinks (L.taken lines.new) samples steps.new (H.holds shelf.new) (H.faults shelf.new))) }
        ensures err { OnErr result ((samples : Option (List ℕ)) → edits.IsAskedPart i (edits.left_of budget.old self.old.queue) (stage_at self.old) (sinks (L.taken lines.old) samples steps.old (H.holds shelf.old) (H.faults shelf.old)) (sinks (L.taken lines.new) samples steps.new (H.holds shelf.new) (H.faults shelf.new))) }
        ensures asked { OnOk result (edits.AreAskedFor self.new.queue) }
        ensures cause { HasCause (L.faults lines.old) (L.faults lines.new) result }
        ensures counted { H.faults shelf.old ≤ H.faults shelf.new }
        ensures kept { H.holds shelf.new ≡ H.holds shelf.old }
        ensures stays { self.new.stopped ≡ self.old.stopped }
    {
        let Some(asked) = self.queue.get(i) else {
            return Ok(());
        };
        let Some(edit) = asked.wire_edit() else {
            let copied = asked.copy(self.alloc);
            self.loads.clear();
            self.put_asked(copied, shelf, lines, steps)?;
            return self.load_made(budget, lines);
        };
        let done = make(
            self.alloc,
            &mut self.patch,
            &mut self.counts.wires,
            asked.path(),
            edit,
            steps,
        );
        self.tell(done, lines)?;
        Ok(())
    }

    /// Puts the box of an edit that a message asked for, or refuses it, also where it couldn't be copied with its place.
    fn put_asked<H: Shelf, L: Sink, K: Ledger>(
        &mut self,
        copied: Result<(Place, Edit), AllocError>,
        shelf: &mut H,
        lines: &mut L,
        steps: &mut Steps<K>,
    ) -> Result<Outcome, SinkFailed>
        requires empty { self.old.loads.items ≡ [] }
        requires puts { IfOk copied (λ c. puts_box c.1 ≡ true) }
        ensures ok { IfOk result (λ outcome. (path : List ℕ) (e : EditSeen) → puts_box e ≡ true → IfOk copied (λ c. (c.0.path ≡ path) × (c.1 ≡ e)) → (samples : Option (List ℕ)) → edits.IsTakenSo (Asks path e) outcome self.new.loads.items (stage_at self.old) (stage_at self.new) (sinks (L.taken lines.old) samples steps.old (H.holds shelf.old) (H.faults shelf.old)) (sinks (L.taken lines.new) samples steps.new (H.holds shelf.new) (H.faults shelf.new))) }
        ensures err { OnErr result ((path : List ℕ) (e : EditSeen) → puts_box e ≡ true → IfOk copied (λ c. (c.0.path ≡ path) × (c.1 ≡ e)) → (samples : Option (List ℕ)) → Stops (edit_taken (Asks path e)) (stage_at self.old) (sinks (L.taken lines.old) samples steps.old (H.holds shelf.old) (H.faults shelf.old)) (sinks (L.taken lines.new) samples steps.new (H.holds shelf.new) (H.faults shelf.new))) }
        ensures cause { HasCause (L.faults lines.old) (L.faults lines.new) result }
        ensures counted { H.faults shelf.old ≤ H.faults shelf.new }
        ensures kept { H.holds shelf.new ≡ H.holds shelf.old }
        ensures stays { self.new.stopped ≡ self.old.stopped }
        ensures queue { self.new.queue ≡ self.old.queue }
    {
        match copied {
            Ok((place, edit)) => {
                self.put_copied(place.path.as_slice(), &edit, shelf, lines, steps)
            }
            Err(_) => self.tell(Err(EditRefusal::NoMemory), lines),
        }
    }

    /// Makes an edit of the canvas at a path of the patch's own document, or refuses it, with all that follows from it.
    pub(crate) fn edit_own<H: Shelf, L: Sink, K: Ledger>(
        &mut self,
        path: &[u32],
        edit: &CommandEdit,
        shelf: &mut H,
        lines: &mut L,
        steps: &mut Steps<K>,
    ) -> Result<Outcome, SinkFailed>
        ensures ok { IfOk result (λ outcome. (samples : Option (List ℕ)) → edits.IsEvent (Edits None path.now edit.now) outcome (stage_at self.old) (stage_at self.new) (sinks (L.taken lines.old) samples steps.old (H.holds shelf.old) (H.faults shelf.old)) (sinks (L.taken lines.new) samples steps.new (H.holds shelf.new) (H.faults shelf.new))) }
        ensures err { OnErr result ((samples : Option (List ℕ)) → Stops (edit_event (Edits None path.now edit.now)) (stage_at self.old) (sinks (L.taken lines.old) samples steps.old (H.holds shelf.old) (H.faults shelf.old)) (sinks (L.taken lines.new) samples steps.new (H.holds shelf.new) (H.faults shelf.new))) }
        ensures cause { HasCause (L.faults lines.old) (L.faults lines.new) result }
        ensures counted { H.faults shelf.old ≤ H.faults shelf.new }
        ensures stays { self.new.stopped ≡ self.old.stopped }
    {
        if edit.puts_box() {
            return self.put_loaded(path, edit, shelf, lines, steps);
        }
        self.edit_alone(path, edit, shelf, lines, steps)
    }

    /// Makes an edit of the canvas at a path of the patch's own document that puts no box, or refuses it. Nothing follows from it.
    fn edit_alone<H: Shelf, L: Sink, K: Ledger>(
        &mut self,
        path: &[u32],
        edit: &CommandEdit,
        shelf: &mut H,
        lines: &mut L,
        steps: &mut Steps<K>,
    ) -> Result<Outcome, SinkFailed>
        requires { puts_box edit.now ≡ false }
        ensures ok { IfOk result (λ outcome. (samples : Option (List ℕ)) → edits.IsEdited path.now edit.now outcome [] (stage_at self.old) (stage_at self.new) (sinks (L.taken lines.old) samples steps.old (H.holds shelf.old) (H.faults shelf.old)) (sinks (L.taken lines.new) samples steps.new (H.holds shelf.new) (H.faults shelf.new))) }
        ensures err { OnErr result ((samples : Option (List ℕ)) → Stops (edit_taken (Edits None path.now edit.now)) (stage_at self.old) (sinks (L.taken lines.old) samples steps.old (H.holds shelf.old) (H.faults shelf.old)) (sinks (L.taken lines.new) samples steps.new (H.holds shelf.new) (H.faults shelf.new))) }
        ensures cause { HasCause (L.faults lines.old) (L.faults lines.new) result }
        ensures counted { H.faults shelf.old ≤ H.faults shelf.new }
        ensures stays { self.new.stopped ≡ self.old.stopped }
    {
        if let Some(number) = edit.deleted() {
            return self.delete_own(path, number, lines, steps);
        }
        if let Some((number, x, y)) = edit.moved() {
            return self.move_own(path, number, x, y, lines);
        }
        let Some(wire) = edit.wire_edit() else {
            return self.retype_own(path, edit, shelf, lines, steps);
        };
        let done = make(
            self.alloc,
            &mut self.patch,
            &mut self.counts.wires,
            path,
            wire,
            steps,
        );
        self.tell(done, lines)
    }

    /// Puts a box last into the canvas at a path of the patch's own document, or refuses it. The load boxes that lie in it are loaded, and
    /// the edits are taken that they ask for.
    fn put_loaded<H: Shelf, L: Sink, K: Ledger>(
        &mut self,
        path: &[u32],
        edit: &CommandEdit,
        shelf: &mut H,
        lines: &mut L,
        steps: &mut Steps<K>,
    ) -> Result<Outcome, SinkFailed>
        requires { puts_box edit.now ≡ true }
        ensures ok { IfOk result (λ outcome. (samples : Option (List ℕ)) → edits.IsEvent (Edits None path.now edit.now) outcome (stage_at self.old) (stage_at self.new) (sinks (L.taken lines.old) samples steps.old (H.holds shelf.old) (H.faults shelf.old)) (sinks (L.taken lines.new) samples steps.new (H.holds shelf.new) (H.faults shelf.new))) }
        ensures err { OnErr result ((samples : Option (List ℕ)) → Stops (edit_event (Edits None path.now edit.now)) (stage_at self.old) (sinks (L.taken lines.old) samples steps.old (H.holds shelf.old) (H.faults shelf.old)) (sinks (L.taken lines.new) samples steps.new (H.holds shelf.new) (H.faults shelf.new))) }
        ensures cause { HasCause (L.faults lines.old) (L.faults lines.new) result }
        ensures counted { H.faults shelf.old ≤ H.faults shelf.new }
        ensures stays { self.new.stopped ≡ self.old.stopped }
    {
        self.loads.clear();
        let outcome = self.put_own(path, edit, shelf, lines, steps)?;
        self.queue.clear();
        self.follow_edit(shelf, lines, steps)?;
        Ok(outcome)
    }

    /// Deletes the box of a number in the canvas at a path of the patch's own document, with all that lies in it, and with the port that it is of
    /// the box around, or refuses it.
    fn delete_own<L: Sink, K: Ledger>(
        &mut self,
        path: &[u32],
        number: u32,
        lines: &mut L,
        steps: &mut Steps<K>,
    ) -> Result<Outcome, SinkFailed>
        ensures ok { IfOk result (λ outcome. (samples : Option (List ℕ)) (held : Option (List FileRow)) (faults : ℕ) → edits.IsEdited path.now (edit.Delete number) outcome [] (stage_at self.old) (stage_at self.new) (sinks (L.taken lines.old) samples steps.old held faults) (sinks (L.taken lines.new) samples steps.new held faults)) }
        ensures err { OnErr result (SaysPart (edit_taken (Edits None path.now (edit.Delete number))) (stage_at self.old) (L.taken lines.old) (L.taken lines.new) steps.old steps.new) }
        ensures cause { HasCause (L.faults lines.old) (L.faults lines.new) result }
        ensures stays { self.new.stopped ≡ self.old.stopped }
    {
        let done = delete_box(
            self.alloc,
            &mut self.patch,
            self.counts,
            path,
            number,
            &mut self.symbols,
            steps,
        );
        match done {
            Ok(gone) => {
                self.counts = gone.counts;
                self.tell_deleted(&gone, lines)
            }
            Err(why) => self.tell(Err(why), lines),
        }
    }

    /// Moves the box of a number in the canvas at a path of the patch's own document to another place, with the port that it is of the box around, or
    /// refuses it.
    fn move_own<L: Sink>(
        &mut self,
        path: &[u32],
        number: u32,
        x: Num,
        y: Num,
        lines: &mut L,
    ) -> Result<Outcome, SinkFailed>
        ensures ok { IfOk result (λ outcome. (samples : Option (List ℕ)) (looks : ℕ) (held : Option (List FileRow)) (faults : ℕ) → edits.IsEdited path.now (edit.Move number x y) outcome [] (stage_at self.old) (stage_at self.new) (sinks (L.taken lines.old) samples looks held faults) (sinks (L.taken lines.new) samples looks held faults)) }
        ensures err { OnErr result ((looks : ℕ) → SaysPart (edit_taken (Edits None path.now (edit.Move number x y))) (stage_at self.old) (L.taken lines.old) (L.taken lines.new) looks looks) }
        ensures cause { HasCause (L.faults lines.old) (L.faults lines.new) result }
        ensures stays { self.new.stopped ≡ self.old.stopped }
    {
        let done = move_box(self.alloc, &mut self.patch, path, number, x, y);
        match done {
            Ok(moved) => self.tell_moved(moved, lines),
            Err(why) => self.tell(Err(why), lines),
        }
    }

    /// Gives a box in the canvas at a path of the patch's own document another text, or refuses it.
    fn retype_own<H: Shelf, L: Sink, K: Ledger>(
        &mut self,
        path: &[u32],
        edit: &CommandEdit,
        shelf: &mut H,
        lines: &mut L,
        steps: &mut Steps<K>,
    ) -> Result<Outcome, SinkFailed>
        requires { edits.IsRetype edit.now }
        ensures ok { IfOk result (λ outcome. (samples : Option (List ℕ)) → edits.IsEdited path.now edit.now outcome [] (stage_at self.old) (stage_at self.new) (sinks (L.taken lines.old) samples steps.old (H.holds shelf.old) (H.faults shelf.old)) (sinks (L.taken lines.new) samples steps.new (H.holds shelf.new) (H.faults shelf.new))) }
        ensures err { OnErr result ((samples : Option (List ℕ)) → Stops (edit_taken (Edits None path.now edit.now)) (stage_at self.old) (sinks (L.taken lines.old) samples steps.old (H.holds shelf.old) (H.faults shelf.old)) (sinks (L.taken lines.new) samples steps.new (H.holds shelf.new) (H.faults shelf.new))) }
        ensures cause { HasCause (L.faults lines.old) (L.faults lines.new) result }
        ensures counted { H.faults shelf.old ≤ H.faults shelf.new }
        ensures stays { self.new.stopped ≡ self.old.stopped }
    {
        let copied = edit.copy(self.alloc);
        let Ok(Edit::Retype { number, text }) = &copied else {
            return self.tell(Err(EditRefusal::NoMemory), lines);
        };
        self.retype_copied(path, *number, text, shelf, lines, steps)
    }

    /// Gives the box of a number in the canvas at a path of the patch's own document this text, or refuses it.
    fn retype_copied<H: Shelf, L: Sink, K: Ledger>(
        &mut self,
        path: &[u32],
        number: u32,
        text: &Atoms,
        shelf: &mut H,
        lines: &mut L,
        steps: &mut Steps<K>,
    ) -> Result<Outcome, SinkFailed>
        ensures ok { IfOk result (λ outcome. (samples : Option (List ℕ)) → edits.IsEdited path.now (edit.Retype number text.now) outcome [] (stage_at self.old) (stage_at self.new) (sinks (L.taken lines.old) samples steps.old (H.holds shelf.old) (H.faults shelf.old)) (sinks (L.taken lines.new) samples steps.new (H.holds shelf.new) (H.faults shelf.new))) }
        ensures err { OnErr result ((samples : Option (List ℕ)) → Stops (edit_taken (Edits None path.now (edit.Retype number text.now))) (stage_at self.old) (sinks (L.taken lines.old) samples steps.old (H.holds shelf.old) (H.faults shelf.old)) (sinks (L.taken lines.new) samples steps.new (H.holds shelf.new) (H.faults shelf.new))) }
        ensures cause { HasCause (L.faults lines.old) (L.faults lines.new) result }
        ensures counted { H.faults shelf.old ≤ H.faults shelf.new }
        ensures stays { self.new.stopped ≡ self.old.stopped }
    {
        let site = Site {
            name: self.file.as_slice(),
            path,
            now: self.time,
        };
        let done = retype_box(
            self.alloc,
            &mut self.patch,
            self.counts,
            site,
            number,
            text,
            &mut self.library,
            shelf,
            &mut self.symbols,
            steps,
        );
        match done {
            Ok(retyped) => {
                self.counts = retyped.counts;
                self.tell_retyped(&retyped, lines)
            }
            Err(why) => self.tell(Err(why), lines),
        }
    }

    /// Puts a box last into the canvas at a path of the patch's own document, or refuses it.
    fn put_own<H: Shelf, L: Sink, K: Ledger>(
        &mut self,
        path: &[u32],
        edit: &CommandEdit,
        shelf: &mut H,
        lines: &mut L,
        steps: &mut Steps<K>,
    ) -> Result<Outcome, SinkFailed>
        requires empty { self.old.loads.items ≡ [] }
        requires puts { puts_box edit.now ≡ true }
        ensures ok { IfOk result (λ outcome. (samples : Option (List ℕ)) → edits.IsEdited path.now edit.now outcome self.new.loads.items (stage_at self.old) (stage_at self.new) (sinks (L.taken lines.old) samples steps.old (H.holds shelf.old) (H.faults shelf.old)) (sinks (L.taken lines.new) samples steps.new (H.holds shelf.new) (H.faults shelf.new))) }
        ensures err { OnErr result ((samples : Option (List ℕ)) → Stops (edit_taken (Edits None path.now edit.now)) (stage_at self.old) (sinks (L.taken lines.old) samples steps.old (H.holds shelf.old) (H.faults shelf.old)) (sinks (L.taken lines.new) samples steps.new (H.holds shelf.new) (H.faults shelf.new))) }
        ensures cause { HasCause (L.faults lines.old) (L.faults lines.new) result }
        ensures counted { H.faults shelf.old ≤ H.faults shelf.new }
        ensures stays { self.new.stopped ≡ self.old.stopped }
    {
        match edit.copy(self.alloc) {
            Ok(edit) => self.put_copied(path, &edit, shelf, lines, steps),
            Err(_) => self.tell(Err(EditRefusal::NoMemory), lines),
        }
    }

    /// Puts a box last into the canvas at a path of the patch's own document, or refuses it, by an edit with a text of its own.
    fn put_copied<H: Shelf, L: Sink, K: Ledger>(
        &mut self,
        path: &[u32],
        edit: &Edit,
        shelf: &mut H,
        lines: &mut L,
        steps: &mut Steps<K>,
    ) -> Result<Outcome, SinkFailed>
        requires empty { self.old.loads.items ≡ [] }
        requires puts { puts_box edit.now ≡ true }
        ensures ok { IfOk result (λ outcome. (wanted : Wanted) → edits.IsOwn wanted path.now edit.now → (samples : Option (List ℕ)) → edits.IsTakenSo wanted outcome self.new.loads.items (stage_at self.old) (stage_at self.new) (sinks (L.taken lines.old) samples steps.old (H.holds shelf.old) (H.faults shelf.old)) (sinks (L.taken lines.new) samples steps.new (H.holds shelf.new) (H.faults shelf.new))) }
        ensures err { OnErr result ((wanted : Wanted) → edits.IsOwn wanted path.now edit.now → (samples : Option (List ℕ)) → Stops (edit_taken wanted) (stage_at self.old) (sinks (L.taken lines.old) samples steps.old (H.holds shelf.old) (H.faults shelf.old)) (sinks (L.taken lines.new) samples steps.new (H.holds shelf.new) (H.faults shelf.new))) }
        ensures cause { HasCause (L.faults lines.old) (L.faults lines.new) result }
        ensures counted { H.faults shelf.old ≤ H.faults shelf.new }
        ensures kept { H.holds shelf.new ≡ H.holds shelf.old }
        ensures stays { self.new.stopped ≡ self.old.stopped }
        ensures queue { self.new.queue ≡ self.old.queue }
    {
        let site = Site {
            name: self.file.as_slice(),
            path,
            now: self.time,
        };
        let done = add_box(
            self.alloc,
            &mut self.patch,
            self.counts,
            site,
            edit,
            &mut self.library,
            shelf,
            &mut self.symbols,
            steps,
        );
        match done {
            Ok(added) => {
                self.counts = added.counts;
                self.tell_put(added, lines)
            }
            Err(why) => self.tell(Err(why), lines),
        }
    }

    /// Tells of a box that an edit put with all that lies in it (`print_put`), and notes the boxes in it that are loaded behind the edit.
    fn tell_put<L: Sink>(&mut self, added: NewBox, lines: &mut L) -> Result<Outcome, SinkFailed>
        requires { added.part.items ≡ keys_within self.old.patch added.key }
        ensures stage { stage_at self.new ≡ stage_at self.old }
        ensures ok { OnOk result (L.taken lines.new ≡ grown (L.taken lines.old) (put_text self.old.symbols self.old.patch added.key added.canvas)) }
        ensures answer { IfOk result (λ outcome. outcome ≡ Outcome.Done) }
        ensures err { OnErr result (TookPart (L.taken lines.old) (L.taken lines.new) (put_text self.old.symbols self.old.patch added.key added.canvas)) }
        ensures cause { HasCause (L.faults lines.old) (L.faults lines.new) result }
        ensures stays { self.new.stopped ≡ self.old.stopped }
        ensures queue { self.new.queue ≡ self.old.queue }
        ensures loads { OnOk result (self.new.loads.items ≡ loads_inside self.old.patch added.key) }
    {
        print_put(
            &self.patch,
            &added,
            &mut self.numbers,
            &self.symbols,
            &mut self.held,
            lines,
        )?;
        self.loads = added.part;
        keep_loads(&self.patch.grove, &mut self.loads);
        Ok(Outcome::Done)
    }

    /// Tells of a box that an edit gave another text: why it could not be made, the wires that went, and a loop of its canvas.
    fn tell_retyped<L: Sink>(
        &mut self,
        retyped: &RetypedBox,
        lines: &mut L,
    ) -> Result<Outcome, SinkFailed>
        ensures stage { stage_at self.new ≡ stage_at self.old }
        ensures ok { OnOk result (L.taken lines.new ≡ grown (L.taken lines.old) (retyped_text self.old.symbols self.old.patch retyped.now.key retyped.now.canvas retyped.now.gone.items)) }
        ensures answer { IfOk result (λ outcome. outcome ≡ Outcome.Done) }
        ensures err { OnErr result (TookPart (L.taken lines.old) (L.taken lines.new) (retyped_text self.old.symbols self.old.patch retyped.now.key retyped.now.canvas retyped.now.gone.items)) }
        ensures cause { HasCause (L.faults lines.old) (L.faults lines.new) result }
        ensures stays { self.new.stopped ≡ self.old.stopped }
    {
        let canvas = retyped.canvas;
        print_unmade(
            &self.patch,
            retyped.key,
            &self.symbols,
            &mut self.held,
            lines,
        )?;
        print_gone(
            &self.patch,
            canvas,
            retyped.gone.as_slice(),
            &self.symbols,
            &mut self.held,
            lines,
        )?;
        print_loop(
            &self.patch,
            canvas,
            &mut self.numbers,
            &self.symbols,
            &mut self.held,
            lines,
        )?;
        Ok(Outcome::Done)
    }

    /// Tells of a box that an edit deleted: where it was a port of the box around, the wires that went in the canvas in which that lies, and a loop
    /// of that; and a loop of its own canvas.
    fn tell_deleted<L: Sink>(
        &mut self,
        deleted: &OldBox,
        lines: &mut L,
    ) -> Result<Outcome, SinkFailed>
        ensures stage { stage_at self.new ≡ stage_at self.old }
        ensures ok { OnOk result (L.taken lines.new ≡ grown (L.taken lines.old) (deleted_text self.old.patch deleted.now.canvas deleted.now.around deleted.now.gone.items)) }
        ensures answer { IfOk result (λ outcome. outcome ≡ Outcome.Done) }
        ensures err { OnErr result (TookPart (L.taken lines.old) (L.taken lines.new) (deleted_text self.old.patch deleted.now.canvas deleted.now.around deleted.now.gone.items)) }
        ensures cause { HasCause (L.faults lines.old) (L.faults lines.new) result }
        ensures stays { self.new.stopped ≡ self.old.stopped }
    {
        let around = deleted.around;
        print_gone_around(
            &self.patch,
            around,
            deleted.gone.as_slice(),
            &self.symbols,
            &mut self.held,
            lines,
        )?;
        print_loop_around(
            &self.patch,
            around,
            &mut self.numbers,
            &self.symbols,
            &mut self.held,
            lines,
        )?;
        print_loop(
            &self.patch,
            deleted.canvas,
            &mut self.numbers,
            &self.symbols,
            &mut self.held,
            lines,
        )?;
        Ok(Outcome::Done)
    }

    /// Tells of a box that an edit moved: where ports of the box around changed places, a loop of the canvas in which that lies; and a loop of its
    /// own canvas.
    fn tell_moved<L: Sink>(&mut self, moved: MovedBox, lines: &mut L) -> Result<Outcome, SinkFailed>
        ensures stage { stage_at self.new ≡ stage_at self.old }
        ensures ok { OnOk result (L.taken lines.new ≡ grown (L.taken lines.old) (moved_text self.old.patch moved.canvas moved.around)) }
        ensures answer { IfOk result (λ outcome. outcome ≡ Outcome.Done) }
        ensures err { OnErr result (TookPart (L.taken lines.old) (L.taken lines.new) (moved_text self.old.patch moved.canvas moved.around)) }
        ensures cause { HasCause (L.faults lines.old) (L.faults lines.new) result }
        ensures stays { self.new.stopped ≡ self.old.stopped }
    {
        print_loop_around(
            &self.patch,
            moved.around,
            &mut self.numbers,
            &self.symbols,
            &mut self.held,
            lines,
        )?;
        print_loop(
            &self.patch,
            moved.canvas,
            &mut self.numbers,
            &self.symbols,
            &mut self.held,
            lines,
        )?;
        Ok(Outcome::Done)
    }

    /// Tells what an edit came to.
    fn tell<L: Sink>(
        &mut self,
        done: Result<u32, EditRefusal>,
        lines: &mut L,
    ) -> Result<Outcome, SinkFailed>
        ensures stage { stage_at self.new ≡ stage_at self.old }
        ensures ok { OnOk result (L.taken lines.new ≡ grown (L.taken lines.old) (edits.edit_text self.old.patch done)) }
        ensures answer { IfOk result (λ outcome. outcome ≡ edits.edit_outcome done) }
        ensures err { OnErr result (TookPart (L.taken lines.old) (L.taken lines.new) (edits.edit_text self.old.patch done)) }
        ensures cause { HasCause (L.faults lines.old) (L.faults lines.new) result }
        ensures stays { self.new.stopped ≡ self.old.stopped }
        ensures library { self.new.library ≡ self.old.library }
        ensures queue { self.new.queue ≡ self.old.queue }
        ensures loads { self.new.loads ≡ self.old.loads }
    {
        match done {
            Ok(canvas) => {
                print_loop(
                    &self.patch,
                    canvas,
                    &mut self.numbers,
                    &self.symbols,
                    &mut self.held,
                    lines,
                )?;
                Ok(Outcome::Done)
            }
            Err(why) => {
                print_refusal(
                    Request::Edit,
                    why_of(why),
                    &self.symbols,
                    &mut self.held,
                    lines,
                )?;
                Ok(Outcome::Refused(why))
            }
        }
    }

    /// Saves the patch's own document under the name of its file, or refuses it.
    pub(crate) fn save_own<H: Shelf, L: Sink>(
        &mut self,
        shelf: &mut H,
        lines: &mut L,
    ) -> Result<Outcome, SinkFailed>
        ensures ok { IfOk result (λ outcome. (samples : Option (List ℕ)) (looks : ℕ) → edits.IsSavedSo outcome (stage_at self.old) (stage_at self.new) (sinks (L.taken lines.old) samples looks (H.holds shelf.old) (H.faults shelf.old)) (sinks (L.taken lines.new) samples looks (H.holds shelf.new) (H.faults shelf.new))) }
        ensures err { OnErr result ((samples : Option (List ℕ)) (looks : ℕ) → Stops (edit_taken (Saves None)) (stage_at self.old) (sinks (L.taken lines.old) samples looks (H.holds shelf.old) (H.faults shelf.old)) (sinks (L.taken lines.new) samples looks (H.holds shelf.new) (H.faults shelf.new))) }
        ensures cause { HasCause (L.faults lines.old) (L.faults lines.new) result }
        ensures counted { H.faults shelf.old ≤ H.faults shelf.new }
        ensures stays { self.new.stopped ≡ self.old.stopped }
        ensures library { self.new.library ≡ self.old.library }
    {
        // These are called for what they say of the names and of the wires, which the proof cites.
        let _names = self.symbols.len();
        pd_reload_law::wires_stand_once(&self.patch.web);
        let name = self.file.as_slice();
        let put = put_document(self.alloc, &self.patch, &self.symbols, name, shelf);
        let Err(error) = put else {
            return Ok(Outcome::Done);
        };
        let refusal = unsaved(error);
        print_refusal(
            Request::Save,
            why_of(refusal),
            &self.symbols,
            &mut self.held,
            lines,
        )?;
        Ok(Outcome::Refused(refusal))
    }
}

/// Makes an edit of a patch that joins or cuts a wire, and keeps count of its wires. Gives the key of the edit's canvas.
fn make<K: Ledger>(
    alloc: Global,
    patch: &mut Patch,
    wires: &mut usize,
    path: &[u32],
    edit: Edit,
    steps: &mut Steps<K>,
) -> Result<u32, EditRefusal>
    requires rewires { CanRewire patch.old }
    requires counted { wires.old ≡ wires_told patch.old.web }
    ensures edits { (e : EditSeen) → wire_edit e ≡ Some edit → edits.EditsTo patch.old patch.new path.now e result steps.old steps.new }
    ensures rewires { CanRewire patch.new }
    ensures counted { wires.new ≡ wires_told patch.new.web }
{
    let made = rewire(alloc, patch, *wires, path, &edit, steps)?;
    *wires = made.wires;
    Ok(made.canvas)
}

/// The reason that a line tells.
fn why_of(refusal: EditRefusal) -> Why
    ensures { result ≡ why_so refusal }
{
    match refusal {
        EditRefusal::NoDocument => Why::NoDocument,
        EditRefusal::NoCanvas => Why::NoCanvas,
        EditRefusal::NoBox { number } => Why::NoBox { number },
        EditRefusal::NoPort {
            number,
            port,
            outlet,
        } => Why::NoPort {
            number,
            port,
            outlet,
        },
        EditRefusal::NoWire => Why::NoWire,
        EditRefusal::SignalIntoControl => Why::SignalIntoControl,
        EditRefusal::TextTooLong => Why::TextTooLong,
        EditRefusal::TooDeep => Why::TooDeep,
        EditRefusal::ShelfFault => Why::ShelfFault,
        EditRefusal::SymbolsFull => Why::SymbolsFull,
        EditRefusal::TooManyBoxes => Why::TooManyBoxes,
        EditRefusal::TooManyWires => Why::TooManyWires,
        EditRefusal::TooMuchSound => Why::TooMuchSound,
        EditRefusal::NoMemory => Why::NoMemory,
    }
}
