//! A patch is opened: fetched, read, grown and loaded.

ghost use Rattle.std.specs.Prelude.{◌≡◌, ◌≢◌, ◌<◌, ◌≤◌, ℕ, false, List, Option, Ok, [], IfOk, IfErr, OnOk, OnErr, length};
ghost use Rattle.pd_io.specs.declared.shelves.TheConstants.{MAX_FILE};
ghost use Rattle.pd_atom.specs.Names.{Extends};
ghost use Rattle.pd_canvas.specs.Proper.{IsProper};
ghost use Rattle.pd_doc.specs.Reading.{document_of};
ghost use Rattle.pd_grove.specs.TextOrder.{keys_in_order};
ghost use Rattle.pd_gather.specs.Gather.{AreProper, AnswersAll, known};
ghost use Rattle.pd_patch.specs.Grown.{IsFresh, IsTree};
ghost use Rattle.pd_patch.specs.Report.{notices_in, loads_among};
ghost use Rattle.pd_say.specs.Gathering.{HasCause};
ghost use Rattle.pd_engine.specs.Causes.{HasOpeningCauses};
ghost use Rattle.pd_stage.specs.Events.{event, Loading};
ghost use Rattle.pd_stage.specs.Leads.{sinks, Comes, Stops};
ghost use Rattle.pd_web.specs.Changes.{wires_told, Meet};
ghost use Rattle.pd_boxes.specs.Put.{CanPut};
ghost use Rattle.pd_adding.specs.Coming.{own_zero};
ghost use Rattle.pd_adding.specs.Counts.{AreWithin};
ghost use Rattle.pd_adding.specs.Counted.{AreCounted};
ghost use Rattle.pd_stage.specs.Choices.{base_of};
ghost use Rattle.pd_engine.specs.Stages.{stage_at};
ghost use Rattle.pd_engine.specs.Opening as opening;
ghost use Rattle.pd_engine.specs.Remarks.{remarks_text};

use crate::engine::Engine;
use crate::refusals::{BadCause, OpenRefusal, ungathered, ungrown, unread};
use crate::remarks::print_remarks;
use crate::room::BoxNumbers;
use crate::times::BLOCK;
use pd_adding::{Counts, count_patch, grown_patches_are_limited};
use pd_atom::Symbols;
use pd_boxes::putting_asks_alike;
use pd_clock::{Rate, Time};
use pd_doc::{Doc, proper_extended, read};
use pd_gather::Library;
use pd_io::{Fetched, Shelf, ShelfError, Sink, SinkFailed};
use pd_made::Tally;
use pd_order::Steps;
use pd_patch::{Patch, Report, what_grows_is_built};
use pd_queue::EditQueue;
use pd_say::Held;
use pd_walk::{Start, Walker};
use std::alloc::{AllocError, Global};
use std::marker::Brand;
use std::sync::ledger::{Blank, Ledger};

/// The `$0` of the patch.
const FIRST_ZERO: u32 = 1001;

/// The name of the file, and the room of events.
#[derive(Drop)]
struct Room {
    file: Vec<u8>,
    walker: Walker,
    queue: EditQueue,
    numbers: BoxNumbers,
}

impl Room {
    fn new(alloc: Global, name: &[u8]) -> Result<Room, AllocError>
        ensures { IfOk result (λ r. r.file.items ≡ name.now) }
    {
        Ok(Room {
            file: Vec::from_slice(alloc, name)?,
            walker: Walker::new(alloc)?,
            queue: EditQueue::new(alloc)?,
            numbers: BoxNumbers::new(alloc)?,
        })
    }
}

impl Engine {
    /// Opens the patch of a file name in a folder: it is fetched and read, its abstractions are fetched, it grows, the lines of growth
    /// are printed, and its load boxes send. The edits that they ask for are taken.
    ///
    /// # Errors
    ///
    /// Why it doesn't open. After each refusal but `WriteFault` nothing was printed.
    pub fn open<H: Shelf, L: Sink>(
        alloc: Global,
        name: &[u8],
        rate: Rate,
        shelf: &mut H,
        lines: &mut L,
    ) -> Result<Engine, OpenRefusal>
        ensures running { IfOk result (λ e. e.stopped ≡ false) }
        ensures opens { IfOk result (λ e. opening.OpensFile (H.holds shelf.old) name.now rate (stage_at e) (L.taken lines.old) (L.taken lines.new) (H.faults shelf.old) (H.faults shelf.new)) }
        ensures refused { IfErr result (opening.IsFileRefused (H.holds shelf.old) name.now rate (L.taken lines.old) (L.taken lines.new) (H.faults shelf.old) (H.faults shelf.new)) }
        ensures quiet { IfErr result (λ e. e ≢ OpenRefusal.WriteFault → L.taken lines.new ≡ L.taken lines.old) }
        ensures kept { H.holds shelf.new ≡ H.holds shelf.old }
        ensures causes { HasOpeningCauses (H.faults shelf.old) (H.faults shelf.new) (L.faults lines.old) (L.faults lines.new) result }
    {
        let room = Room::new(alloc, name)?;
        let mut symbols = Symbols::new(alloc)?;
        let doc = fetch_document(alloc, name, shelf, &mut symbols)?;
        open_document(alloc, name, rate, doc, symbols, room, shelf, lines)
    }

    /// Opens a document as the patch of a file name: as `open`, but that it is there already, with its table of names.
    ///
    /// # Errors
    ///
    /// Why it doesn't open. After each refusal but `WriteFault` nothing was printed.
    pub fn from_doc<H: Shelf, L: Sink>(
        alloc: Global,
        name: &[u8],
        rate: Rate,
        doc: Doc,
        symbols: Symbols,
        shelf: &mut H,
        lines: &mut L,
    ) -> Result<Engine, OpenRefusal>
        requires { IsProper symbols doc.root }
        ensures running { IfOk result (λ e. e.stopped ≡ false) }
        ensures opens { IfOk result (λ e. opening.Opens (H.holds shelf.old) name.now rate doc.root symbols (stage_at e) (L.taken lines.old) (L.taken lines.new) (H.faults shelf.old) (H.faults shelf.new)) }
        ensures refused { IfErr result (opening.IsRefused (H.holds shelf.old) name.now rate doc.root symbols (L.taken lines.old) (L.taken lines.new) (H.faults shelf.old) (H.faults shelf.new)) }
        ensures quiet { IfErr result (λ e. e ≢ OpenRefusal.WriteFault → L.taken lines.new ≡ L.taken lines.old) }
        ensures kept { H.holds shelf.new ≡ H.holds shelf.old }
        ensures causes { HasOpeningCauses (H.faults shelf.old) (H.faults shelf.new) (L.faults lines.old) (L.faults lines.new) result }
    {
        let room = Room::new(alloc, name)?;
        open_document(alloc, name, rate, doc, symbols, room, shelf, lines)
    }
}

/// Fetches and reads the document of a file name.
fn fetch_document<H: Shelf>(
    alloc: Global,
    name: &[u8],
    shelf: &mut H,
    symbols: &mut Symbols,
) -> Result<Doc, OpenRefusal>
    ensures proper { IfOk result (λ doc. IsProper symbols.new doc.root) }
    ensures reads { IfOk result (λ doc. opening.Reads (H.holds shelf.old) name.now symbols.old (Ok (doc.root, symbols.new))) }
    ensures refused { IfErr result (opening.IsUnread (H.holds shelf.old) name.now symbols.old) }
    ensures kept { H.holds shelf.new ≡ H.holds shelf.old }
    ensures causes { HasOpeningCauses (H.faults shelf.old) (H.faults shelf.new) 0 0 result }
{
    let mut text = Vec::new(alloc);
    match shelf.fetch(name, &mut text) {
        Ok(Fetched::Found) => read_document(alloc, text.as_slice(), symbols),
        Ok(Fetched::Absent) => Err(OpenRefusal::Absent),
        Ok(Fetched::TooLong) => Err(OpenRefusal::Bad {
            number: 0,
            cause: BadCause::TooLong,
        }),
        Err(ShelfError::Failed) => Err(OpenRefusal::ShelfFault),
        Err(ShelfError::NoMemory) => Err(OpenRefusal::NoMemory),
    }
}

/// Reads the document of a text.
fn read_document(alloc: Global, text: &[u8], symbols: &mut Symbols) -> Result<Doc, OpenRefusal>
    requires { length text.now ≤ MAX_FILE }
    ensures proper { IfOk result (λ doc. IsProper symbols.new doc.root) }
    ensures reads { IfOk result (λ doc. document_of symbols.old text.now ≡ Ok (doc.root, symbols.new)) }
    ensures refused { IfErr result (opening.IsUnreadText (document_of symbols.old text.now)) }
    ensures causes { HasOpeningCauses 0 0 0 0 result }
{
    match read(alloc, text, symbols) {
        Ok(doc) => Ok(doc),
        Err(refusal) => Err(unread(refusal)),
    }
}

/// Gathers the files that a document asks for.
fn gather_all<H: Shelf>(
    library: &mut Library,
    doc: &Doc,
    name: &[u8],
    shelf: &mut H,
    symbols: &mut Symbols,
) -> Result<(), OpenRefusal>
    requires proper { IsProper symbols.old doc.now.root }
    requires empty { library.old ≡ [] }
    ensures gathers { OnOk result (opening.GathersAll (H.holds shelf.old) name.now doc.now.root symbols.old (known library.new symbols.new)) }
    ensures all { OnOk result (AnswersAll name.now doc.now.root (known library.new symbols.new)) }
    ensures refused { IfErr result (opening.IsUngathered (H.holds shelf.old) name.now doc.now.root symbols.old) }
    ensures kept { H.holds shelf.new ≡ H.holds shelf.old }
    ensures causes { HasOpeningCauses (H.faults shelf.old) (H.faults shelf.new) 0 0 result }
    ensures found { AreProper symbols.new library.new }
    ensures extends { Extends symbols.old symbols.new }
{
    match library.gather(doc, name, shelf, symbols) {
        Ok(()) => Ok(()),
        Err(refusal) => Err(ungathered(refusal)),
    }
}

/// Grows a document with the files that were gathered.
fn grow_all(
    alloc: Global,
    doc: Doc,
    name: &[u8],
    rate: Rate,
    library: &Library,
    symbols: &mut Symbols,
) -> Result<(Patch, Report), OpenRefusal>
    requires proper { IsProper symbols.old doc.root }
    requires found { AreProper symbols.old library.now }
    requires all { AnswersAll name.now doc.root (known library.now symbols.old) }
    ensures tree { IfOk result (λ r. IsTree r.0 symbols.new rate (opening.growth_of name.now doc.root (known library.now symbols.old))) }
    ensures fresh { IfOk result (λ r. IsFresh r.0 symbols.new name.now rate) }
    ensures notices { IfOk result (λ r. r.1.notices.items ≡ notices_in r.0.grove r.0.web r.0.orders.items) }
    ensures loads { IfOk result (λ r. r.1.fresh.items ≡ loads_among r.0.grove (keys_in_order r.0.grove)) }
    ensures extends { Extends symbols.old symbols.new }
    ensures refused { IfErr result (opening.IsUngrown (opening.growth_of name.now doc.root (known library.now symbols.old)) rate) }
    ensures causes { HasOpeningCauses 0 0 0 0 result }
{
    match Patch::grow(alloc, doc, name, rate, library, FIRST_ZERO, symbols) {
        Ok(grown) => Ok(grown),
        Err(refusal) => Err(ungrown(refusal)),
    }
}

/// Grows a document with the files that were gathered, and counts the patch.
fn grow_counted(
    alloc: Global,
    doc: Doc,
    name: &[u8],
    rate: Rate,
    library: &Library,
    symbols: &mut Symbols,
) -> Result<(Patch, Counts, Report), OpenRefusal>
    requires proper { IsProper symbols.old doc.root }
    requires found { AreProper symbols.old library.now }
    requires all { AnswersAll name.now doc.root (known library.now symbols.old) }
    ensures tree { IfOk result (λ r. IsTree r.0 symbols.new rate (opening.growth_of name.now doc.root (known library.now symbols.old))) }
    ensures fresh { IfOk result (λ r. IsFresh r.0 symbols.new name.now rate) }
    ensures counted { IfOk result (λ r. (t : IsTree r.0 symbols.new rate (opening.growth_of name.now doc.root (known library.now symbols.old))) → (a : AreCounted r.1 r.0) × (a.tree ≡ t.tree)) }
    ensures within { IfOk result (λ r. AreWithin r.1) }
    ensures zero { IfOk result (λ r. own_zero r.0 ≤ 1000000000) }
    ensures notices { IfOk result (λ r. r.2.notices.items ≡ notices_in r.0.grove r.0.web r.0.orders.items) }
    ensures loads { IfOk result (λ r. r.2.fresh.items ≡ loads_among r.0.grove (keys_in_order r.0.grove)) }
    ensures extends { Extends symbols.old symbols.new }
    ensures refused { IfErr result (opening.IsUngrown (opening.growth_of name.now doc.root (known library.now symbols.old)) rate) }
    ensures causes { HasOpeningCauses 0 0 0 0 result }
{
    let (patch, report) = grow_all(alloc, doc, name, rate, library, symbols)?;
    grown_patches_are_limited();
    let counts = count_patch(alloc, &patch)?;
    Ok((patch, counts, report))
}

/// Gathers the files that a document asks for, grows it, and loads its boxes.
fn open_document<H: Shelf, L: Sink>(
    alloc: Global,
    name: &[u8],
    rate: Rate,
    doc: Doc,
    symbols: Symbols,
    room: Room,
    shelf: &mut H,
    lines: &mut L,
) -> Result<Engine, OpenRefusal>
    requires proper { IsProper symbols doc.root }
    requires file { room.file.items ≡ name.now }
    ensures running { IfOk result (λ e. e.stopped ≡ false) }
    ensures opens { IfOk result (λ e. opening.Opens (H.holds shelf.old) name.now rate doc.root symbols (stage_at e) (L.taken lines.old) (L.taken lines.new) (H.faults shelf.old) (H.faults shelf.new)) }
    ensures refused { IfErr result (opening.IsRefused (H.holds shelf.old) name.now rate doc.root symbols (L.taken lines.old) (L.taken lines.new) (H.faults shelf.old) (H.faults shelf.new)) }
    ensures quiet { IfErr result (λ e. e ≢ OpenRefusal.WriteFault → L.taken lines.new ≡ L.taken lines.old) }
    ensures kept { H.holds shelf.new ≡ H.holds shelf.old }
    ensures causes { HasOpeningCauses (H.faults shelf.old) (H.faults shelf.new) (L.faults lines.old) (L.faults lines.new) result }
{
    let mut symbols = symbols;
    let mut library = Library::new(alloc)?;
    let _names = symbols.len();
    gather_all(&mut library, &doc, name, shelf, &mut symbols)?;
    let _names = symbols.len();
    proper_extended();
    let (patch, counts, report) = grow_counted(alloc, doc, name, rate, &library, &mut symbols)?;
    let _names = symbols.len();
    what_grows_is_built();
    putting_asks_alike();
    begin(
        alloc, patch, counts, report, library, symbols, room, shelf, lines,
    )
}

/// Prints the lines of growth and loads the boxes.
fn begin<H: Shelf, L: Sink>(
    alloc: Global,
    patch: Patch,
    counts: Counts,
    report: Report,
    library: Library,
    symbols: Symbols,
    room: Room,
    shelf: &mut H,
    lines: &mut L,
) -> Result<Engine, OpenRefusal>
    requires can { CanPut patch }
    requires meet { Meet patch.web }
    requires counted { counts.wires ≡ wires_told patch.web }
    requires within { AreWithin counts }
    requires zero { own_zero patch ≤ 1000000000 }
    requires found { AreProper symbols library }
    ensures running { IfOk result (λ e. e.stopped ≡ false) }
    ensures ok { IfOk result (λ e. (looks : ℕ) (samples : Option (List ℕ)) → Comes (λ s. opening.loaded s (remarks_text symbols patch report.notices.items) report.fresh.items) (opening.first_stage room.file.items patch symbols (base_of library counts)) (stage_at e) (sinks (L.taken lines.old) samples looks (H.holds shelf.old) (H.faults shelf.old)) (sinks (L.taken lines.new) samples looks (H.holds shelf.new) (H.faults shelf.new))) }
    ensures err { OnErr result ((looks : ℕ) (samples : Option (List ℕ)) → Stops (λ s. opening.loaded s (remarks_text symbols patch report.notices.items) report.fresh.items) (opening.first_stage room.file.items patch symbols (base_of library counts)) (sinks (L.taken lines.old) samples looks (H.holds shelf.old) (H.faults shelf.old)) (sinks (L.taken lines.new) samples looks (H.holds shelf.new) (H.faults shelf.new))) }
    ensures fault { IfErr result (λ e. e ≡ OpenRefusal.WriteFault) }
    ensures kept { H.holds shelf.new ≡ H.holds shelf.old }
    ensures causes { HasOpeningCauses (H.faults shelf.old) (H.faults shelf.new) (L.faults lines.old) (L.faults lines.new) result }
{
    let Room {
        file,
        walker,
        queue,
        numbers,
    } = room;
    let tally = Tally::new();
    let mut engine = Engine {
        alloc,
        file,
        patch,
        counts,
        library,
        symbols,
        walker,
        queue,
        loads: Vec::new(alloc),
        held: Held::new(),
        numbers,
        time: Time::of_units(0),
        block_end: Time::of_units(BLOCK),
        fired: 0,
        tally,
        stopped: false,
    };
    match engine.load_whole(&report, shelf, lines) {
        Ok(()) => Ok(engine),
        Err(SinkFailed) => Err(OpenRefusal::WriteFault),
    }
}

impl Engine {
    /// Prints the lines of growth, and loads the load boxes. Nobody reads how many looks at signal wires that takes.
    fn load_whole<H: Shelf, L: Sink>(
        &mut self,
        report: &Report,
        shelf: &mut H,
        lines: &mut L,
    ) -> Result<(), SinkFailed>
        ensures ok { OnOk result ((looks : ℕ) (samples : Option (List ℕ)) → Comes (λ s. opening.loaded s (remarks_text self.old.symbols self.old.patch report.now.notices.items) report.now.fresh.items) (stage_at self.old) (stage_at self.new) (sinks (L.taken lines.old) samples looks (H.holds shelf.old) (H.faults shelf.old)) (sinks (L.taken lines.new) samples looks (H.holds shelf.new) (H.faults shelf.new))) }
        ensures err { OnErr result ((looks : ℕ) (samples : Option (List ℕ)) → Stops (λ s. opening.loaded s (remarks_text self.old.symbols self.old.patch report.now.notices.items) report.now.fresh.items) (stage_at self.old) (sinks (L.taken lines.old) samples looks (H.holds shelf.old) (H.faults shelf.old)) (sinks (L.taken lines.new) samples looks (H.holds shelf.new) (H.faults shelf.new))) }
        ensures cause { HasCause (L.faults lines.old) (L.faults lines.new) result }
        ensures counted { H.faults shelf.old ≤ H.faults shelf.new }
        ensures kept { H.holds shelf.new ≡ H.holds shelf.old }
        ensures stays { self.new.stopped ≡ self.old.stopped }
    {
        print_remarks(
            &self.patch,
            report.notices.as_slice(),
            &mut self.numbers,
            &self.symbols,
            &mut self.held,
            lines,
        )?;
        self.load::<H, L, Brand>(report.fresh.as_slice(), shelf, lines, Blank::new(1))
    }

    /// Loads boxes.
    fn load<H: Shelf, L: Sink, K: Ledger>(
        &mut self,
        boxes: &[u32],
        shelf: &mut H,
        lines: &mut L,
        blank: Blank,
    ) -> Result<(), SinkFailed>
        requires name { blank.name ≡ K.name }
        requires parts { blank.parts ≡ K.parts }
        requires some { 0 < blank.parts }
        ensures ok { OnOk result ((looks : ℕ) (samples : Option (List ℕ)) → Comes (λ s. event s (Loading boxes.now)) (stage_at self.old) (stage_at self.new) (sinks (L.taken lines.old) samples looks (H.holds shelf.old) (H.faults shelf.old)) (sinks (L.taken lines.new) samples looks (H.holds shelf.new) (H.faults shelf.new))) }
        ensures err { OnErr result ((looks : ℕ) (samples : Option (List ℕ)) → Stops (λ s. event s (Loading boxes.now)) (stage_at self.old) (sinks (L.taken lines.old) samples looks (H.holds shelf.old) (H.faults shelf.old)) (sinks (L.taken lines.new) samples looks (H.holds shelf.new) (H.faults shelf.new))) }
        ensures cause { HasCause (L.faults lines.old) (L.faults lines.new) result }
        ensures counted { H.faults shelf.old ≤ H.faults shelf.new }
        ensures kept { H.holds shelf.new ≡ H.holds shelf.old }
        ensures stays { self.new.stopped ≡ self.old.stopped }
    {
        let mut steps = Steps::<K>::new(blank);
        self.run_event(&Start::Loads { boxes }, shelf, lines, &mut steps)
    }
}
