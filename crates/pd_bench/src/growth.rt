//! Patches that grow: how long growth takes, and how long reading, gathering and growth take together.

ghost use Rattle.std.specs.Prelude.{IfOk};
ghost use Rattle.pd_atom.specs.Names.{Extends};
ghost use Rattle.pd_canvas.specs.Proper.{IsProper};
ghost use Rattle.pd_gather.specs.Gather.{AreProper};

use crate::document::document;
use crate::patches::{Filling, Size, full, groups};
use anyhow::{Result, bail, ensure};
use pd_atom::Symbols;
use pd_clock::Rate;
use pd_doc::{Doc, proper_extended};
use pd_gather::Library;
use pd_io::{Files, MemShelf, Shelf};
use pd_measure::{Measures, Nanos, RUNS, Stopwatch};
use pd_patch::{Patch, Report};
use std::alloc::Global;

/// The patch's file name.
const NAME: &[u8] = b"main.pd";

/// The `$0` of the patch.
const FIRST_ZERO: u32 = 1001;

/// A folder without files.
fn empty_shelf(alloc: Global) -> Result<MemShelf> {
    let files = Files::new(alloc);
    ensure!(files.has_distinct_names(), "files of one name");
    Ok(MemShelf::new(alloc, files, Vec::new(alloc)))
}

/// The library of the files that a document asks for.
fn gathered<H: Shelf>(
    alloc: Global,
    doc: &Doc,
    shelf: &mut H,
    symbols: &mut Symbols,
) -> Result<Library>
    requires { IsProper symbols.old doc.now.root }
    ensures found { IfOk result (λ library. AreProper symbols.new library) }
    ensures extends { Extends symbols.old symbols.new }
{
    let mut library = Library::new(alloc)?;
    match library.gather(doc, NAME, shelf, symbols) {
        Ok(()) => Ok(library),
        Err(refusal) => bail!("{refusal}"),
    }
}

/// Grows a document with the files that were gathered.
fn grown(
    alloc: Global,
    doc: Doc,
    library: &Library,
    symbols: &mut Symbols,
) -> Result<(Patch, Report)>
    requires proper { IsProper symbols.old doc.root }
    requires found { AreProper symbols.old library.now }
{
    match Patch::grow(alloc, doc, NAME, Rate::R44100, library, FIRST_ZERO, symbols) {
        Ok(grown) => Ok(grown),
        Err(refusal) => bail!("{refusal}"),
    }
}

/// Whether of each box something is made, and all wires fit.
fn is_whole(grown: (Patch, Report)) -> bool {
    let (patch, report) = grown;
    report.notices.is_empty() && patch.nodes_end() > 0
}

/// The times of growth, and of reading, gathering and growth.
#[derive(Clone, Copy)]
struct Times {
    growth: Nanos,
    whole: Nanos,
}

/// Grows a document that was read and whose files were gathered.
fn measure_growth<R: Measures>(
    rt: &R,
    start: Stopwatch,
    doc: Doc,
    library: &Library,
    symbols: &mut Symbols,
) -> Result<Times>
    requires proper { IsProper symbols.old doc.root }
    requires found { AreProper symbols.old library.now }
{
    let watch = Stopwatch::start(rt)?;
    let grown = grown(rt.alloc(), doc, library, symbols)?;
    let (growth, whole) = (watch.read(rt), start.read(rt));
    ensure!(is_whole(grown), "a box or a wire is refused");
    Ok(Times {
        growth: growth?,
        whole: whole?,
    })
}

/// Gathers for a document that was read and grows it.
fn measure_from<R: Measures, H: Shelf>(
    rt: &R,
    start: Stopwatch,
    doc: Doc,
    shelf: &mut H,
    symbols: &mut Symbols,
) -> Result<Times>
    requires { IsProper symbols.old doc.root }
{
    let _names = symbols.len();
    let library = gathered(rt.alloc(), &doc, shelf, symbols)?;
    let _names = symbols.len();
    proper_extended();
    measure_growth(rt, start, doc, &library, symbols)
}

fn measure<R: Measures>(rt: &R, text: &str) -> Result<Times> {
    let mut shelf = empty_shelf(rt.alloc())?;
    let mut symbols = Symbols::new(rt.alloc())?;
    let start = Stopwatch::start(rt)?;
    let doc = document(rt.alloc(), text.as_bytes(), &mut symbols)?;
    measure_from(rt, start, doc, &mut shelf, &mut symbols)
}

pub(crate) fn run<R: Measures>(rt: &R, boxes: u32, wires: u32) -> Result<()> {
    let size = Size::nearest(boxes, wires);
    let text = groups(rt.alloc(), size)?;
    let mut least = measure(rt, text.as_str())?;
    for _ in 1..RUNS {
        let times = measure(rt, text.as_str())?;
        least = Times {
            growth: least.growth.min(times.growth),
            whole: least.whole.min(times.whole),
        };
    }
    let Size { boxes, wires } = size;
    let growth = least.growth;
    let whole = least.whole;
    println!(rt;
        "growth: {boxes} boxes, {wires} wires: {growth} growth, {whole} with reading and gathering"
    )?;
    Ok(())
}

/// Measures one growth of a patch of long texts, with four wires a box.
pub(crate) fn run_full<R: Measures>(rt: &R, filling: Filling, boxes: u32) -> Result<()> {
    let size = Size::nearest(boxes, boxes.saturating_mul(4));
    let text = full(rt.alloc(), filling, size)?;
    let Times { growth, whole } = measure(rt, text.as_str())?;
    let Size { boxes, wires } = size;
    let filling = filling.word();
    println!(rt;
        "full: {boxes} boxes, {wires} wires, {filling}: {growth} growth, {whole} with reading and gathering"
    )?;
    Ok(())
}
