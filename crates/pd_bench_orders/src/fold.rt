//! The signal order of boxes that are each fed by two others: how long a fold takes.

ghost use Rattle.std.specs.Prelude.{◌≡◌, ◌+◌, ◌<◌, ◌≤◌, length};
ghost use Rattle.pd_order.specs.Wired.{numbers_below};
ghost use Rattle.pd_bench_orders.specs.Rows.{back, forth, rows};

use anyhow::Result;
use pd_measure::{MOST, Measures, Nanos, RUNS, Stopwatch, numbers};
use pd_order::{Order, SignalGraph, Steps};
use std::marker::Brand;
use std::sync::ledger::{Blank, Ledger};

/// How often a fold is made in a run.
const FOLDS: u32 = 10;

/// Rows of eight boxes: box x is fed by the boxes x - 8 and x - 9, and the last box has the least rank.
#[derive(Clone, Copy)]
struct Rows {
    count: u32,
}

impl Rows {
    fn fed_from(self, step: u32, node: u32) -> u32
        ensures { result ≡ length (back step self.count node) }
    {
        if node < step || node >= self.count {
            0
        } else {
            1
        }
    }

    fn feeds(self, step: u32, node: u32) -> u32
        ensures { result ≡ length (forth step self.count node) }
    {
        if node < self.count.saturating_sub(step) {
            1
        } else {
            0
        }
    }
}

impl<L: Ledger> SignalGraph<L> for Rows {
    ghost meaning = { λ g. rows g.count };

    fn rank(&self, node: u32) -> u64 {
        u64::from(self.count.saturating_sub(1).saturating_sub(node))
    }

    fn feeder_count(&self, node: u32, steps: &mut Steps<L>) -> u32 {
        steps.tick();
        self.fed_from(8, node) + self.fed_from(9, node)
    }

    fn feeder(&self, node: u32, i: u32, steps: &mut Steps<L>) -> u32 {
        steps.tick();
        node - (8 + i)
    }

    fn follower_count(&self, node: u32, steps: &mut Steps<L>) -> u32 {
        steps.tick();
        self.feeds(8, node) + self.feeds(9, node)
    }

    fn follower(&self, node: u32, i: u32, steps: &mut Steps<L>) -> u32 {
        steps.tick();
        node + 8 + i
    }
}

/// The order of the boxes, from nothing.
fn fold_once<L: Ledger>(order: &mut Order, graph: Rows, nodes: &[u32], steps: &mut Steps<L>)
    requires nodes { nodes.now ≡ numbers_below graph.count }
    requires few { graph.count < 4294967295 }
    requires room { graph.count ≤ order.old.room }
    ensures { order.new.room ≡ order.old.room }
{
    order.fold(&graph, nodes, steps);
}

/// The time of all folds, and the length of the last chain.
fn measure_in<R: Measures, L: Ledger>(rt: &R, count: u32, blank: Blank) -> Result<(Nanos, usize)>
    requires name { blank.name ≡ L.name }
    requires parts { blank.parts ≡ L.parts }
    requires some { 0 < blank.parts }
{
    let mut steps = Steps::<L>::new(blank);
    let count = count.min(MOST);
    let nodes = numbers(rt.alloc(), count)?;
    let mut order = Order::new(rt.alloc())?;
    order.reserve(count)?;
    let graph = Rows { count };
    let watch = Stopwatch::start(rt)?;
    for fold in 0..FOLDS {
        fold_once(&mut order, graph, nodes.as_slice(), &mut steps);
    }
    Ok((watch.read(rt)?, order.chain().len()))
}

fn measure<R: Measures>(rt: &R, count: u32) -> Result<(Nanos, usize)> {
    measure_in::<R, Brand>(rt, count, Blank::new(1))
}

pub(crate) fn run<R: Measures>(rt: &R, boxes: u32) -> Result<()> {
    let (mut least, listed) = measure(rt, boxes)?;
    for _ in 1..RUNS {
        let (time, _) = measure(rt, boxes)?;
        least = least.min(time);
    }
    let fold = Nanos(least.each(u64::from(FOLDS)));
    let each = fold.each(u64::from(boxes));
    println!(rt;
        "fold: {boxes} boxes: {fold} a fold, {each} ns a box ({listed} boxes in the chain)"
    )?;
    Ok(())
}
