//! Signal wires cut and added in the links of a canvas and in its order, and boxes taken out of the order and put back.

ghost use Rattle.std.specs.Prelude.{◌≡◌, ◌<◌, ◌≤◌};

use crate::canvas::Canvas;
use crate::nets::Net;
use crate::voices::Shape;
use anyhow::{Result, ensure};
use pd_measure::{MOST, Measures, Nanos, RUNS, Stopwatch, scattered};
use pd_order::Steps;
use std::alloc::{AllocError, Global};
use std::marker::Brand;
use std::sync::ledger::{Blank, Ledger};

/// So many wires are cut and added again in a run.
const EDITS: u32 = 10_000;

/// So often a box is taken out and put back in a run.
const MOVES: u32 = 1_000;

/// Where the output stands among the boxes of its canvas.
#[derive(Clone, Copy)]
enum Output {
    First,
    Last,
}

impl Output {
    fn word(self) -> &'static str {
        match self {
            Output::First => "output first",
            Output::Last => "output last",
        }
    }
}

/// Which wire of a voice is cut and added again.
#[derive(Clone, Copy)]
enum Part {
    /// From `osc~` to `*~`.
    Inner,
    /// From `*~` to the output, of any voice but the last one.
    Outer,
    /// That of the last voice.
    Last,
}

impl Part {
    fn word(self) -> &'static str {
        match self {
            Part::Inner => "inner wires",
            Part::Outer => "outer wires",
            Part::Last => "the last outer wire",
        }
    }

    /// The voice of the i-th edit, of so many voices: they come here and there.
    fn voice(self, i: u32, voices: u32) -> u32 {
        let last = voices.saturating_sub(1);
        match self {
            Part::Inner => i.wrapping_mul(7_919) % voices.max(1),
            Part::Outer => i.wrapping_mul(7_919) % last.max(1),
            Part::Last => last,
        }
    }
}

/// A wire by the keys of its boxes.
#[derive(Clone, Copy)]
struct Pair {
    source: u32,
    sink: u32,
}

/// Canvases of so many voices each: the first or the last signal box is the output, and the others are the voices'.
#[derive(Clone, Copy)]
struct Board {
    canvases: u32,
    voices: u32,
    output: Output,
}

impl Board {
    fn new(shape: Shape, boxes: u32, output: Output) -> Board {
        Board {
            canvases: shape.canvases(boxes),
            voices: shape.voices(boxes),
            output,
        }
    }

    /// A number above the keys of a canvas's boxes.
    fn end(self) -> u32
        ensures { 1 ≤ result }
    {
        self.voices.min(MOST) * 2 + 2
    }

    /// The first box of a voice.
    fn source(self, voice: u32) -> u32 {
        let voices = voice.wrapping_mul(2);
        match self.output {
            Output::First => voices.wrapping_add(2),
            Output::Last => voices.wrapping_add(1),
        }
    }

    fn output_key(self) -> u32 {
        match self.output {
            Output::First => 1,
            Output::Last => self.voices.wrapping_mul(2).wrapping_add(1),
        }
    }

    fn inner(self, voice: u32) -> Pair {
        let source = self.source(voice);
        Pair {
            source,
            sink: source.wrapping_add(1),
        }
    }

    fn outer(self, voice: u32) -> Pair {
        Pair {
            source: self.source(voice).wrapping_add(1),
            sink: self.output_key(),
        }
    }

    /// The wire of the i-th edit.
    fn wire(self, part: Part, i: u32) -> Pair {
        let voice = part.voice(i, self.voices);
        match part {
            Part::Inner => self.inner(voice),
            Part::Outer | Part::Last => self.outer(voice),
        }
    }

    /// The links of one canvas.
    fn net(self, alloc: Global) -> Result<Net, AllocError> {
        let mut net = Net::new(alloc, self.end())?;
        for voice in 0..self.voices {
            let (inner, outer) = (self.inner(voice), self.outer(voice));
            net.join(inner.source, inner.sink)?;
            net.join(outer.source, outer.sink)?;
        }
        Ok(net)
    }

    fn nets(self, alloc: Global) -> Result<Vec<Net>, AllocError> {
        let mut nets = Vec::new(alloc);
        for _ in 0..self.canvases {
            nets.push(self.net(alloc)?)?;
        }
        Ok(nets)
    }

    /// One canvas with its order.
    fn canvas<L: Ledger>(self, alloc: Global, steps: &mut Steps<L>) -> Result<Canvas, AllocError> {
        let mut canvas = Canvas::new(alloc, self.end(), steps)?;
        for voice in 0..self.voices {
            let (inner, outer) = (self.inner(voice), self.outer(voice));
            canvas.add(inner.source, inner.sink, steps)?;
            canvas.add(outer.source, outer.sink, steps)?;
        }
        Ok(canvas)
    }

    fn all<L: Ledger>(
        self,
        alloc: Global,
        steps: &mut Steps<L>,
    ) -> Result<Vec<Canvas>, AllocError> {
        let mut canvases = Vec::new(alloc);
        for _ in 0..self.canvases {
            canvases.push(self.canvas(alloc, steps)?)?;
        }
        Ok(canvases)
    }
}

/// The time of all cuts and adds in links alone.
fn link_time<R: Measures>(rt: &R, board: Board, part: Part) -> Result<Nanos> {
    let mut nets = board.nets(rt.alloc())?;
    let count = nets.len();
    let watch = Stopwatch::start(rt)?;
    for i in 0..EDITS {
        if let Some(net) = nets.as_mut_slice().get_mut(scattered(i as usize, count)) {
            let wire = board.wire(part, i);
            net.cut_and_add(wire.source, wire.sink)?;
        }
    }
    Ok(watch.read(rt)?)
}

/// The i-th canvas that is edited.
fn canvas_of(canvases: &mut [Canvas], i: u32) -> Option<&mut Canvas> {
    let count = canvases.len();
    canvases.get_mut(scattered(i as usize, count))
}

/// Whether all boxes of each canvas are listed, as they are where no wire is missing and none leads in a circle.
fn are_listed(canvases: &[Canvas], end: u32) -> bool {
    for canvas in canvases {
        if canvas.listed().saturating_add(1) != end as usize {
            return false;
        }
    }
    true
}

/// The time of all cuts and adds with the orders.
fn mend_time<R: Measures, L: Ledger>(
    rt: &R,
    board: Board,
    part: Part,
    blank: Blank,
) -> Result<Nanos>
    requires name { blank.name ≡ L.name }
    requires parts { blank.parts ≡ L.parts }
    requires some { 0 < blank.parts }
{
    let mut steps = Steps::<L>::new(blank);
    let mut canvases = board.all(rt.alloc(), &mut steps)?;
    let watch = Stopwatch::start(rt)?;
    for i in 0..EDITS {
        if let Some(canvas) = canvas_of(canvases.as_mut_slice(), i) {
            let wire = board.wire(part, i);
            canvas.cut(wire.source, wire.sink, &mut steps);
            canvas.add(wire.source, wire.sink, &mut steps)?;
        }
    }
    let time = watch.read(rt)?;
    ensure!(
        are_listed(canvases.as_slice(), board.end()),
        "a box is stuck"
    );
    Ok(time)
}

/// Both wires of a voice go from each canvas.
fn free_voice<L: Ledger>(canvases: &mut [Canvas], board: Board, voice: u32, steps: &mut Steps<L>) {
    for canvas in canvases.iter_mut() {
        let (inner, outer) = (board.inner(voice), board.outer(voice));
        canvas.cut(inner.source, inner.sink, steps);
        canvas.cut(outer.source, outer.sink, steps);
    }
}

/// The time of all moves of a voice's first box out of its order and back.
fn move_time<R: Measures, L: Ledger>(
    rt: &R,
    board: Board,
    voice: u32,
    blank: Blank,
) -> Result<Nanos>
    requires name { blank.name ≡ L.name }
    requires parts { blank.parts ≡ L.parts }
    requires some { 0 < blank.parts }
{
    let mut steps = Steps::<L>::new(blank);
    let mut canvases = board.all(rt.alloc(), &mut steps)?;
    free_voice(canvases.as_mut_slice(), board, voice, &mut steps);
    let watch = Stopwatch::start(rt)?;
    for i in 0..MOVES {
        if let Some(canvas) = canvas_of(canvases.as_mut_slice(), i) {
            canvas.move_out_and_in(board.source(voice), &mut steps);
        }
    }
    Ok(watch.read(rt)?)
}

fn mend_once<R: Measures>(rt: &R, board: Board, part: Part) -> Result<Nanos> {
    mend_time::<R, Brand>(rt, board, part, Blank::new(1))
}

fn move_once<R: Measures>(rt: &R, board: Board, voice: u32) -> Result<Nanos> {
    move_time::<R, Brand>(rt, board, voice, Blank::new(1))
}

fn report_wires<R: Measures>(rt: &R, board: Board, part: Part, size: &str) -> Result<()> {
    let mut links = link_time(rt, board, part)?;
    let mut mends = mend_once(rt, board, part)?;
    for _ in 1..RUNS {
        links = links.min(link_time(rt, board, part)?);
        mends = mends.min(mend_once(rt, board, part)?);
    }
    let times = 2 * u64::from(EDITS);
    let link = links.each(times);
    let mend = mends.each(times);
    let (output, part) = (board.output.word(), part.word());
    println!(rt; "{size}, {output}, {part}: {link} ns in the links, {mend} ns with the order")?;
    Ok(())
}

fn report_moves<R: Measures>(
    rt: &R,
    board: Board,
    voice: u32,
    word: &str,
    size: &str,
) -> Result<()> {
    let mut least = move_once(rt, board, voice)?;
    for _ in 1..RUNS {
        least = least.min(move_once(rt, board, voice)?);
    }
    let each = least.each(u64::from(MOVES));
    println!(rt; "{size}, {word} box: {each} ns out of the order and back")?;
    Ok(())
}

fn report_output<R: Measures>(rt: &R, board: Board, size: &str) -> Result<()> {
    report_wires(rt, board, Part::Inner, size)?;
    report_wires(rt, board, Part::Outer, size)?;
    report_wires(rt, board, Part::Last, size)
}

pub(crate) fn run<R: Measures>(rt: &R, shape: Shape, boxes: u32, size: &str) -> Result<()> {
    report_output(rt, Board::new(shape, boxes, Output::First), size)?;
    let board = Board::new(shape, boxes, Output::Last);
    report_output(rt, board, size)?;
    report_moves(rt, board, 0, "first", size)?;
    report_moves(rt, board, board.voices / 2, "middle", size)?;
    report_moves(rt, board, board.voices.saturating_sub(1), "last", size)
}
