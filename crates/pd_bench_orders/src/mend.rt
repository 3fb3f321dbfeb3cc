//! Voices that feed one box: how long the order takes to mend when a voice's wire is cut or added.

ghost use Rattle.std.specs.Prelude.{◌≡◌, ◌+◌, ◌*◌, ◌<◌, ◌≤◌, length, slice_index, OnOk};
ghost use Rattle.pd_order.specs.Wired.{numbers_below};
ghost use Rattle.pd_bench_orders.specs.Voices.{outs, fed, voice_at, voices, OrdersVoices};

use anyhow::Result;
use pd_measure::{MOST, Measures, Nanos, RUNS, Stopwatch, numbers};
use pd_order::{Order, SignalGraph, Steps};
use std::marker::Brand;
use std::sync::ledger::{Blank, Ledger};

/// How many wires are cut and added again in a run, spread over all voices but the last one.
const MENDS: u32 = 10_000;

/// How often the last voice is: it alone holds box 0 back, so that the chain changes.
const LASTS: u32 = 100;

/// Box 2i - 1 feeds box 2i for each voice i, and box 2i feeds box 0, except for the voice that is cut.
#[derive(Clone, Copy)]
struct Voices {
    count: u32,
    cut: u32,
    ghost few: { count < 1073741824 },
    ghost within: { cut ≤ count },
}

impl Voices {
    /// The voice of the i-th feeder of box 0.
    fn voice_at(self, i: u32) -> u32
        requires { i < 1073741824 }
        ensures { result ≡ voice_at self.cut i }
    {
        if i + 1 < self.cut || self.cut == 0 {
            i + 1
        } else {
            i + 2
        }
    }
}

impl<L: Ledger> SignalGraph<L> for Voices {
    ghost meaning = { λ g. voices g.count g.cut };

    fn rank(&self, node: u32) -> u64 {
        u64::from(node)
    }

    fn feeder_count(&self, node: u32, steps: &mut Steps<L>) -> u32 {
        steps.tick();
        if node == 0 {
            self.cut.saturating_sub(1) + (self.count - self.cut)
        } else if node % 2 == 0 && node <= 2 * self.count {
            1
        } else {
            0
        }
    }

    fn feeder(&self, node: u32, i: u32, steps: &mut Steps<L>) -> u32 {
        steps.tick();
        if node == 0 {
            2 * self.voice_at(i)
        } else {
            node - 1
        }
    }

    fn follower_count(&self, node: u32, steps: &mut Steps<L>) -> u32 {
        steps.tick();
        let voice = node / 2;
        if node % 2 == 1 {
            u32::from(node < 2 * self.count)
        } else if voice == 0 || voice > self.count || voice == self.cut {
            0
        } else {
            1
        }
    }

    fn follower(&self, node: u32, i: u32, steps: &mut Steps<L>) -> u32 {
        steps.tick();
        if node % 2 == 1 { node + 1 } else { 0 }
    }
}

/// The order of all boxes, from nothing.
fn fold_once<L: Ledger>(order: &mut Order, count: u32, nodes: &[u32], steps: &mut Steps<L>)
    requires nodes { nodes.now ≡ numbers_below (2 * count + 1) }
    requires few { count < 1073741824 }
    requires room { 2 * count + 1 ≤ order.old.room }
    ensures room { order.new.room ≡ order.old.room }
    ensures order { OrdersVoices count order.new }
{
    let graph = Voices { count, cut: 0 };
    order.fold(&graph, nodes, steps);
}

/// A voice's wire is cut, and added again.
fn cut_and_add<L: Ledger>(order: &mut Order, count: u32, voice: u32, steps: &mut Steps<L>)
    requires few { count < 1073741824 }
    requires voice { 1 ≤ voice }
    requires within { voice ≤ count }
    requires order { OrdersVoices count order.old }
    ensures { OrdersVoices count order.new }
{
    let graph = Voices { count, cut: voice };
    order.mend_cut(&graph, 2 * voice, 0, steps);
    let graph = Voices { count, cut: 0 };
    order.mend_add(&graph, 2 * voice, 0, steps);
}

/// The times of a fold, of all mends that leave the chain, and of all that change it.
#[derive(Clone, Copy)]
struct Times {
    fold: Nanos,
    mends: Nanos,
    changes: Nanos,
}

/// The voice of the i-th cut: all but the last one come in turn, not in their order. A single voice is the last one too.
fn voice_of(i: u32, count: u32) -> u32
    requires { 1 ≤ count }
    ensures low { 1 ≤ result }
    ensures high { result ≤ count }
{
    i.wrapping_mul(7_919) % (count - 1).max(1) + 1
}

fn measure_in<R: Measures, L: Ledger>(rt: &R, count: u32, blank: Blank) -> Result<Times>
    requires few { count < 1073741824 }
    requires some_voice { 1 ≤ count }
    requires name { blank.name ≡ L.name }
    requires parts { blank.parts ≡ L.parts }
    requires some { 0 < blank.parts }
{
    let mut steps = Steps::<L>::new(blank);
    let boxes = 2 * count + 1;
    let nodes = numbers(rt.alloc(), boxes)?;
    let mut order = Order::new(rt.alloc())?;
    order.reserve(boxes)?;
    let watch = Stopwatch::start(rt)?;
    fold_once(&mut order, count, nodes.as_slice(), &mut steps);
    let fold = watch.read(rt)?;
    let watch = Stopwatch::start(rt)?;
    for i in 0..MENDS {
        cut_and_add(&mut order, count, voice_of(i, count), &mut steps);
    }
    let mends = watch.read(rt)?;
    let watch = Stopwatch::start(rt)?;
    for last in 0..LASTS {
        cut_and_add(&mut order, count, count, &mut steps);
    }
    let changes = watch.read(rt)?;
    Ok(Times {
        fold,
        mends,
        changes,
    })
}

fn measure<R: Measures>(rt: &R, count: u32) -> Result<Times>
    requires few { count < 1073741824 }
    requires some_voice { 1 ≤ count }
{
    measure_in::<R, Brand>(rt, count, Blank::new(1))
}

pub(crate) fn run<R: Measures>(rt: &R, boxes: u32) -> Result<()> {
    let count = (boxes.min(MOST) / 2).max(1);
    let mut least = measure(rt, count)?;
    for _ in 1..RUNS {
        let times = measure(rt, count)?;
        least = Times {
            fold: least.fold.min(times.fold),
            mends: least.mends.min(times.mends),
            changes: least.changes.min(times.changes),
        };
    }
    let mend = least.mends.each(2 * u64::from(MENDS));
    let change = least.changes.each(2 * u64::from(LASTS));
    let fold = least.fold;
    println!(rt;
        "mend: {boxes} boxes: {mend} ns a mend, {change} ns where the chain changes, {fold} a fold anew"
    )?;
    Ok(())
}
