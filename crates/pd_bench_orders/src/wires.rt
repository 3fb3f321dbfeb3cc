//! Wires cut in the middle of a fan-out, and added to it: how long one takes, by the number of wires of the outlet.
//!
//! The book has the same number of wires at each size, in more or fewer outlets, so that only the length of the
//! lists differs.

ghost use Rattle.std.specs.Prelude.{◌+◌, ◌<◌, ◌≤◌, OnOk};
ghost use Rattle.pd_bench_orders.specs.Held.{AreLive};

use anyhow::Result;
use pd_measure::{Measures, Nanos, RUNS, Stopwatch};
use pd_wire::{End, WireBook, WireKey};
use std::alloc::{AllocError, Global};

/// How many wires the book has, where an outlet has no more.
const WIRES: u32 = 10_000;

/// Of so many wires one is cut.
const SHARE: u32 = 10;

/// How often a book is made, cut and added to in a run.
const ROUNDS: u32 = 10;

/// A book with some outlets and one inlet, and the wires that are to be cut.
#[derive(Drop)]
struct Board {
    book: WireBook,
    outlets: Vec<End>,
    inlet: End,
    held: Vec<WireKey>,
    ghost live: { AreLive book outlets.items inlet held.items },
}

impl Board {
    fn new(alloc: Global) -> Result<Board, AllocError> {
        let mut book = WireBook::new(alloc)?;
        book.reserve(1, 0)?;
        let inlet = book.make_end();
        Ok(Board {
            book,
            outlets: Vec::new(alloc),
            inlet,
            held: Vec::new(alloc),
        })
    }

    fn add_outlet(&mut self) -> Result<(), AllocError> {
        self.book.reserve(1, 0)?;
        let outlet = self.book.make_end();
        self.outlets.push(outlet)?;
        Ok(())
    }

    /// A wire more at an outlet, which is to be cut.
    fn add_held(&mut self, outlet: usize) -> Result<(), AllocError> {
        if let Some(source) = self.outlets.get(outlet) {
            self.book.reserve(0, 1)?;
            let key = self.book.add(*source, self.inlet, 0);
            self.held.push(key)?;
        }
        Ok(())
    }

    /// Room for more wires.
    fn reserve(&mut self, wires: usize) -> Result<(), AllocError>
        ensures { OnOk result (wires ≤ self.new.book.spare_wires) }
    {
        self.book.reserve(0, wires)
    }

    /// A wire more at an outlet, for which there is room.
    fn add(&mut self, outlet: usize)
        requires { 0 < self.old.book.spare_wires }
        ensures { self.old.book.spare_wires ≤ self.new.book.spare_wires + 1 }
    {
        if let Some(source) = self.outlets.get(outlet) {
            self.book.add(*source, self.inlet, 0);
        }
    }

    /// The last wire that is to be cut goes.
    fn cut(&mut self) {
        if let Some(key) = self.held.pop() {
            self.book.cut(key);
        }
    }
}

/// The outlet of a wire, of which each outlet has so many.
fn outlet_of(wire: u32, count: u32) -> usize {
    (wire / count.max(1)) as usize
}

/// A board with so many wires in all, of which each outlet has `count`.
fn make_board(alloc: Global, total: u32, count: u32) -> Result<Board, AllocError> {
    let mut board = Board::new(alloc)?;
    for _ in 0..total.div_ceil(count.max(1)) {
        board.add_outlet()?;
    }
    for wire in 0..total {
        let outlet = outlet_of(wire, count);
        if wire % SHARE == SHARE / 2 {
            board.add_held(outlet)?;
        } else {
            board.reserve(1)?;
            board.add(outlet);
        }
    }
    Ok(board)
}

/// The times of one cut of each share of wires, and of adding as many.
#[derive(Clone, Copy)]
struct Round {
    cuts: Nanos,
    adds: Nanos,
}

fn cut_and_add<R: Measures>(rt: &R, total: u32, count: u32) -> Result<Round> {
    let mut board = make_board(rt.alloc(), total, count)?;
    let few = total / SHARE;
    board.reserve(total as usize)?;
    let watch = Stopwatch::start(rt)?;
    for _ in 0..few {
        board.cut();
    }
    let cuts = watch.read(rt)?;
    board.reserve(few as usize)?;
    let watch = Stopwatch::start(rt)?;
    for i in 0..few {
        board.add(outlet_of(i.saturating_mul(SHARE), count));
    }
    let adds = watch.read(rt)?;
    Ok(Round { cuts, adds })
}

/// The times of all rounds of a run.
fn measure<R: Measures>(rt: &R, total: u32, count: u32) -> Result<Round> {
    let mut sum = cut_and_add(rt, total, count)?;
    for _ in 1..ROUNDS {
        let round = cut_and_add(rt, total, count)?;
        sum = Round {
            cuts: sum.cuts.plus(round.cuts),
            adds: sum.adds.plus(round.adds),
        };
    }
    Ok(sum)
}

pub(crate) fn run<R: Measures>(rt: &R, count: u32) -> Result<()> {
    let total = count.max(WIRES);
    let mut least = measure(rt, total, count)?;
    for _ in 1..RUNS {
        let round = measure(rt, total, count)?;
        least = Round {
            cuts: least.cuts.min(round.cuts),
            adds: least.adds.min(round.adds),
        };
    }
    let times = u64::from(total / SHARE) * u64::from(ROUNDS);
    let cut = least.cuts.each(times);
    let add = least.adds.each(times);
    println!(rt; "wires: {count} at an outlet, {total} in all: {cut} ns a cut, {add} ns an add")?;
    Ok(())
}
