//! A patch that plays by a script.
ghost use Rattle.std.specs.Prelude.{◌≡◌, ◌≤◌, false, [], length, IfOk, IfErr};
ghost use Rattle.slab.specs.Slab.{get};
ghost use Rattle.pd_canvas.specs.Proper.{IsProper};
ghost use Rattle.pd_grove.specs.Telling.{keys_in};
ghost use Rattle.pd_made.specs.Documents.{made_document};
ghost use Rattle.pd_engine.specs.Opening.{OpensFile};
ghost use Rattle.pd_engine.specs.Stages.{stage_at};
ghost use Rattle.pd_script.specs.Room.{IsWhole};
ghost use Rattle.pd_play.specs.Causes.{HasOpenCauses};
ghost use Rattle.pd_play.specs.Ending.{opened_as};
ghost use Rattle.pd_play.specs.Made.{made_names};
ghost use Rattle.pd_play.specs.Refusing.{IsRefusal, IsMadeRefusal};

use crate::status::Status;
use pd_atom::Symbols;
use pd_canvas::Doc;
use pd_clock::Rate;
use pd_engine::{Engine, OpenRefusal};
use pd_feed::RecordFeed;
use pd_io::{Shelf, Sink};
use pd_made::{Summary, make_doc};
use pd_patch::Patch;
use pd_script::CommandRoom;
use std::alloc::{AllocError, Global};

/// The bytes of a block of samples.
const BLOCK_BYTES: u64 = 256;

/// The engine of a patch, the records of its script, and how far they are.
#[derive(Drop)]
pub(crate) struct Session {
    pub(crate) engine: Engine,
    pub(crate) feed: RecordFeed,
    pub(crate) room: CommandRoom,
    pub(crate) rate: Rate,
    /// How many records were read.
    pub(crate) number: u32,
    /// The script's time, in millionths of a millisecond.
    pub(crate) time: u64,
    ghost in_time: { time ≤ 86400000000000 },
}

impl Session {
    ghost use Rattle.pd_play.specs.Made.{summary_at};
    ghost use Rattle.pd_play.specs.Patches.{OpensMade};
    ghost use Rattle.pd_play.specs.Playing.{Starts};

    /// Opens the patch of a file name.
    pub(crate) fn open<H: Shelf, L: Sink>(
        alloc: Global,
        name: &[u8],
        rate: Rate,
        shelf: &mut H,
        lines: &mut L,
    ) -> Result<Session, Status>
        ensures running { IfOk result (λ s. s.engine.stopped ≡ false) }
        ensures whole { IfOk result (λ s. IsWhole s.room) }
        ensures begins { IfOk result (λ s. Starts s rate) }
        ensures opens { IfOk result (λ s. OpensFile (H.holds shelf.old) name.now rate (stage_at s.engine) (L.taken lines.old) (L.taken lines.new) (H.faults shelf.old) (H.faults shelf.new)) }
        ensures refused { IfErr result (IsRefusal (H.holds shelf.old) name.now rate (L.taken lines.old) (L.taken lines.new) (H.faults shelf.old) (H.faults shelf.new)) }
        ensures kept { H.holds shelf.new ≡ H.holds shelf.old }
        ensures causes { HasOpenCauses (H.faults shelf.old) (H.faults shelf.new) (L.faults lines.old) (L.faults lines.new) result }
    {
        let Ok(feed) = RecordFeed::new(alloc) else {
            return Err(Status::NoMemory);
        };
        let Ok(room) = CommandRoom::new(alloc) else {
            return Err(Status::NoMemory);
        };
        match Engine::open(alloc, name, rate, shelf, lines) {
            Ok(engine) => Ok(Session {
                engine,
                feed,
                room,
                rate,
                number: 0,
                time: 0,
            }),
            Err(refusal) => Err(status_of(refusal)),
        }
    }

    /// Opens the made patch of so many voices under a file name.
    pub(crate) fn open_made<H: Shelf, L: Sink>(
        alloc: Global,
        voices: u32,
        name: &[u8],
        rate: Rate,
        shelf: &mut H,
        lines: &mut L,
    ) -> Result<Session, Status>
        requires { voices ≤ 1000 }
        ensures running { IfOk result (λ s. s.engine.stopped ≡ false) }
        ensures whole { IfOk result (λ s. IsWhole s.room) }
        ensures begins { IfOk result (λ s. Starts s rate) }
        ensures opens { IfOk result (λ s. OpensMade voices (H.holds shelf.old) name.now rate (stage_at s.engine) (L.taken lines.old) (L.taken lines.new) (H.faults shelf.old) (H.faults shelf.new)) }
        ensures refused { IfErr result (IsMadeRefusal voices (H.holds shelf.old) name.now rate (L.taken lines.old) (L.taken lines.new) (H.faults shelf.old) (H.faults shelf.new)) }
        ensures kept { H.holds shelf.new ≡ H.holds shelf.old }
        ensures causes { HasOpenCauses (H.faults shelf.old) (H.faults shelf.new) (L.faults lines.old) (L.faults lines.new) result }
    {
        let Ok(feed) = RecordFeed::new(alloc) else {
            return Err(Status::NoMemory);
        };
        let Ok(room) = CommandRoom::new(alloc) else {
            return Err(Status::NoMemory);
        };
        let Ok((doc, symbols)) = make_patch(alloc, voices) else {
            return Err(Status::NoMemory);
        };
        match Engine::from_doc(alloc, name, rate, doc, symbols, shelf, lines) {
            Ok(engine) => Ok(Session {
                engine,
                feed,
                room,
                rate,
                number: 0,
                time: 0,
            }),
            Err(refusal) => Err(status_of(refusal)),
        }
    }

    /// What the run of a made patch of so many voices has come to.
    pub(crate) fn summary(&self, voices: u32) -> Summary
        ensures { result ≡ summary_at voices (stage_at self.now.engine []) }
    {
        let patch = self.engine.patch();
        let tally = self.engine.tally();
        Summary {
            voices,
            boxes: count_elements(patch),
            wires: patch.web.wire_count() as u64,
            blocks: tally.count / BLOCK_BYTES,
            sum: tally.sum,
        }
    }
}

/// The document of the made patch of so many voices, with a new table that has its words.
fn make_patch(alloc: Global, voices: u32) -> Result<(Doc, Symbols), AllocError>
    requires { voices ≤ 1000 }
    ensures document { IfOk result (λ r. r.0.root ≡ made_document made_names voices) }
    ensures names { IfOk result (λ r. r.1 ≡ made_names) }
    ensures proper { IfOk result (λ r. IsProper r.1 r.0.root) }
{
    let mut symbols = Symbols::new(alloc)?;
    let doc = make_doc(alloc, voices, &mut symbols)?;
    Ok((doc, symbols))
}

/// How many elements the document of a patch has.
fn count_elements(patch: &Patch) -> u64
    ensures { result ≡ length (keys_in (get patch.now.grove.boards patch.now.grove.root)) }
{
    match patch.grove.board(patch.grove.root()) {
        Some(board) => board.nodes.len() as u64,
        None => 0,
    }
}

fn status_of(refusal: OpenRefusal) -> Status
    ensures { result ≡ opened_as refusal }
{
    match refusal {
        OpenRefusal::Absent => Status::PatchAbsent,
        OpenRefusal::Bad { number, cause } => Status::PatchBad { number, cause },
        OpenRefusal::ShelfFault => Status::ShelfFault,
        OpenRefusal::WriteFault => Status::WriteFault,
        OpenRefusal::NoMemory => Status::NoMemory,
    }
}
