//! Commands of the script.

ghost use Rattle.std.specs.Prelude.{◌≡◌, ◌≤◌, ℕ, List, [], Option, OnOk, OnErr, IfOk};
ghost use Rattle.pd_io.specs.Stream.{grown, TookPart};
ghost use Rattle.pd_io.specs.declared.files.FileRow.{FileRow};
ghost use Rattle.pd_say.specs.Gathering.{HasCause};
ghost use Rattle.pd_stage.specs.Choices.{Wanted, Edits, Saves, request_of};
ghost use Rattle.pd_stage.specs.Stages.{saying};
ghost use Rattle.pd_stage.specs.Events.{edit_taken, edit_event};
ghost use Rattle.pd_stage.specs.Leads.{sinks, Comes, Stops, Says, SaysPart};
ghost use Rattle.pd_engine.specs.Stages.{stage_at};
ghost use Rattle.pd_engine.specs.Edits.{IsTakenSo, IsEvent, IsAlwaysRefused};
ghost use Rattle.pd_engine.specs.Commands as commands;

use crate::engine::Engine;
use crate::messages::{message_of, one_atom};
use crate::printing::{print, print_refusal};
use crate::refusals::Outcome;
use crate::showing::show;
use pd_atom::{Atom, Sym};
use pd_edit::EditRefusal;
use pd_io::{Shelf, Sink, SinkFailed};
use pd_kind::Message;
use pd_order::Steps;
use pd_say::{Line, Request, Why};
use pd_script::{Command, CommandEdit, CommandPlace};
use pd_walk::Start;
use std::sync::ledger::Ledger;

impl Engine {
    /// Carries out a command.
    #[tactic(auto, unfolding(crate::specs::Commands::commanded))]
    pub(crate) fn carry_out<H: Shelf, L: Sink, K: Ledger>(
        &mut self,
        cmd: &Command,
        shelf: &mut H,
        lines: &mut L,
        steps: &mut Steps<K>,
    ) -> Result<Outcome, SinkFailed>
        ensures ok { IfOk result (λ outcome. (samples : Option (List ℕ)) → commands.IsCarriedOut cmd.now outcome (stage_at self.old) (stage_at self.new) (sinks (L.taken lines.old) samples steps.old (H.holds shelf.old) (H.faults shelf.old)) (sinks (L.taken lines.new) samples steps.new (H.holds shelf.new) (H.faults shelf.new))) }
        ensures err { OnErr result ((samples : Option (List ℕ)) → Stops (commands.commanded cmd.now) (stage_at self.old) (sinks (L.taken lines.old) samples steps.old (H.holds shelf.old) (H.faults shelf.old)) (sinks (L.taken lines.new) samples steps.new (H.holds shelf.new) (H.faults shelf.new))) }
        ensures cause { HasCause (L.faults lines.old) (L.faults lines.new) result }
        ensures counted { H.faults shelf.old ≤ H.faults shelf.new }
        ensures stays { self.new.stopped ≡ self.old.stopped }
    {
        match cmd {
            Command::Send { name, atoms } => self.send(
                *name,
                atoms.as_slice(),
                shelf,
                lines,
                steps,
            ),
            Command::Show { path } => self.show_at(path.as_slice(), lines),
            Command::Edit { place, edit } => self.edit_at(place, edit, shelf, lines, steps),
            Command::Save { document } => self.save_at(*document, shelf, lines),
            Command::Undo => {
                self.refuse(Request::Undo, Why::NothingToUndo, Outcome::Nothing, lines)
            }
            Command::Redo => {
                self.refuse(Request::Redo, Why::NothingToRedo, Outcome::Nothing, lines)
            }
        }
    }

    /// Makes an edit of a canvas of a document. There are no drafts of abstractions yet.
    fn edit_at<H: Shelf, L: Sink, K: Ledger>(
        &mut self,
        place: &CommandPlace,
        edit: &CommandEdit,
        shelf: &mut H,
        lines: &mut L,
        steps: &mut Steps<K>,
    ) -> Result<Outcome, SinkFailed>
        ensures ok { IfOk result (λ outcome. (samples : Option (List ℕ)) →
            IsEvent (Edits place.now.document place.now.path edit.now) outcome (stage_at self.old) (stage_at self.new) (sinks (L.taken lines.old) samples steps.old (H.holds shelf.old) (H.faults shelf.old)) (sinks (L.taken lines.new) samples steps.new (H.holds shelf.new) (H.faults shelf.new))) }
        ensures err { OnErr result ((samples : Option (List ℕ)) →
            Stops (edit_event (Edits place.now.document place.now.path edit.now)) (stage_at self.old) (sinks (L.taken lines.old) samples steps.old (H.holds shelf.old) (H.faults shelf.old)) (sinks (L.taken lines.new) samples steps.new (H.holds shelf.new) (H.faults shelf.new))) }
        ensures cause { HasCause (L.faults lines.old) (L.faults lines.new) result }
        ensures counted { H.faults shelf.old ≤ H.faults shelf.new }
        ensures stays { self.new.stopped ≡ self.old.stopped }
    {
        match place.document {
            None => self.edit_own(place.path.as_slice(), edit, shelf, lines, steps),
            Some(_) => {
                let outcome = Outcome::Refused(EditRefusal::NoDocument);
                self.refuse(Request::Edit, Why::NoDocument, outcome, lines)
            }
        }
    }

    /// Saves a document. There are no drafts of abstractions yet.
    fn save_at<H: Shelf, L: Sink>(
        &mut self,
        document: Option<Sym>,
        shelf: &mut H,
        lines: &mut L,
    ) -> Result<Outcome, SinkFailed>
        ensures ok { IfOk result (λ outcome. (samples : Option (List ℕ)) (looks : ℕ) →
            IsTakenSo (Saves document) outcome [] (stage_at self.old) (stage_at self.new) (sinks (L.taken lines.old) samples looks (H.holds shelf.old) (H.faults shelf.old)) (sinks (L.taken lines.new) samples looks (H.holds shelf.new) (H.faults shelf.new))) }
        ensures err { OnErr result ((samples : Option (List ℕ)) (looks : ℕ) →
            Stops (edit_taken (Saves document)) (stage_at self.old) (sinks (L.taken lines.old) samples looks (H.holds shelf.old) (H.faults shelf.old)) (sinks (L.taken lines.new) samples looks (H.holds shelf.new) (H.faults shelf.new))) }
        ensures cause { HasCause (L.faults lines.old) (L.faults lines.new) result }
        ensures counted { H.faults shelf.old ≤ H.faults shelf.new }
        ensures stays { self.new.stopped ≡ self.old.stopped }
        ensures library { self.new.library ≡ self.old.library }
    {
        match document {
            None => self.save_own(shelf, lines),
            Some(_) => {
                let outcome = Outcome::Refused(EditRefusal::NoDocument);
                self.refuse(Request::Save, Why::NoDocument, outcome, lines)
            }
        }
    }

    /// Sends the message of atoms to the receivers of a name.
    fn send<H: Shelf, L: Sink, K: Ledger>(
        &mut self,
        name: Sym,
        atoms: &[Atom],
        shelf: &mut H,
        lines: &mut L,
        steps: &mut Steps<K>,
    ) -> Result<Outcome, SinkFailed>
        ensures ok { OnOk result ((samples : Option (List ℕ)) → Comes (commands.sent name atoms.now) (stage_at self.old) (stage_at self.new) (sinks (L.taken lines.old) samples steps.old (H.holds shelf.old) (H.faults shelf.old)) (sinks (L.taken lines.new) samples steps.new (H.holds shelf.new) (H.faults shelf.new))) }
        ensures answer { IfOk result (λ outcome. outcome ≡ Outcome.Done) }
        ensures err { OnErr result ((samples : Option (List ℕ)) → Stops (commands.sent name atoms.now) (stage_at self.old) (sinks (L.taken lines.old) samples steps.old (H.holds shelf.old) (H.faults shelf.old)) (sinks (L.taken lines.new) samples steps.new (H.holds shelf.new) (H.faults shelf.new))) }
        ensures cause { HasCause (L.faults lines.old) (L.faults lines.new) result }
        ensures counted { H.faults shelf.old ≤ H.faults shelf.new }
        ensures kept { H.holds shelf.new ≡ H.holds shelf.old }
        ensures stays { self.new.stopped ≡ self.old.stopped }
    {
        let one = [one_atom(atoms)];
        let formed = message_of(atoms, &one);
        let message = Message {
            selector: formed.selector,
            atoms: formed.atoms,
        };
        self.say_cut(formed.is_cut, lines)?;
        self.run_event(&Start::Name { name, message }, shelf, lines, steps)?;
        Ok(Outcome::Done)
    }

    /// Prints that a message was cut, where it was.
    #[tactic(auto, unfolding(pd_say::specs::Lines::text_of))]
    fn say_cut<L: Sink>(&mut self, is_cut: bool, lines: &mut L) -> Result<(), SinkFailed>
        ensures stage { stage_at self.new ≡ stage_at self.old }
        ensures ok { OnOk result (L.taken lines.new ≡ grown (L.taken lines.old) (commands.cut_line is_cut)) }
        ensures err { OnErr result (TookPart (L.taken lines.old) (L.taken lines.new) (commands.cut_line is_cut)) }
        ensures cause { HasCause (L.faults lines.old) (L.faults lines.new) result }
        ensures stays { self.new.stopped ≡ self.old.stopped }
        ensures library { self.new.library ≡ self.old.library }
    {
        if !is_cut {
            return Ok(());
        }
        print(&Line::MessageCut, &self.symbols, &mut self.held, lines)
    }

    /// Prints the signal order of the canvas at a path.
    fn show_at<L: Sink>(&mut self, path: &[u32], lines: &mut L) -> Result<Outcome, SinkFailed>
        ensures ok { OnOk result ((looks : ℕ) → Says (λ s. saying s (commands.shown s.net path.now)) (stage_at self.old) (stage_at self.new) (L.taken lines.old) (L.taken lines.new) looks looks) }
        ensures answer { IfOk result (λ outcome. outcome ≡ Outcome.Done) }
        ensures err { OnErr result ((looks : ℕ) → SaysPart (λ s. saying s (commands.shown s.net path.now)) (stage_at self.old) (L.taken lines.old) (L.taken lines.new) looks looks) }
        ensures cause { HasCause (L.faults lines.old) (L.faults lines.new) result }
        ensures stays { self.new.stopped ≡ self.old.stopped }
        ensures library { self.new.library ≡ self.old.library }
    {
        show(
            &self.patch,
            path,
            &mut self.numbers,
            &self.symbols,
            &mut self.held,
            lines,
        )?;
        Ok(Outcome::Done)
    }

    /// Prints that what was asked for isn't done: what is refused whatever the patch is.
    fn refuse<L: Sink>(
        &mut self,
        request: Request,
        why: Why,
        outcome: Outcome,
        lines: &mut L,
    ) -> Result<Outcome, SinkFailed>
        requires { outcome ≡ commands.refused_as why }
        ensures ok { IfOk result (λ outcome. (wanted : Wanted) → request ≡ request_of wanted → IsAlwaysRefused wanted why → (samples : Option (List ℕ)) (looks : ℕ) (held : Option (List FileRow)) (faults : ℕ) →
            IsTakenSo wanted outcome [] (stage_at self.old) (stage_at self.new) (sinks (L.taken lines.old) samples looks held faults) (sinks (L.taken lines.new) samples looks held faults)) }
        ensures err { OnErr result ((wanted : Wanted) → request ≡ request_of wanted → IsAlwaysRefused wanted why → (looks : ℕ) → SaysPart (edit_taken wanted) (stage_at self.old) (L.taken lines.old) (L.taken lines.new) looks looks) }
        ensures cause { HasCause (L.faults lines.old) (L.faults lines.new) result }
        ensures stays { self.new.stopped ≡ self.old.stopped }
        ensures library { self.new.library ≡ self.old.library }
    {
        print_refusal(request, why, &self.symbols, &mut self.held, lines)?;
        Ok(outcome)
    }
}
