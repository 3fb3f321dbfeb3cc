//! Wires of a running patch, cut and joined again at their places among the feeds of their inlets.

ghost use Rattle.std.specs.Prelude.{IsTrue};
ghost use Rattle.pd_web.specs.Jacks.{KindsSmall};
ghost use Rattle.pd_web.specs.Lines.{IsRoute};

use crate::grown::grove;
use crate::voices::{Shape, patch};
use anyhow::{Result, bail, ensure};
use pd_grove::Grove;
use pd_measure::{Measures, Nanos, RUNS, Stopwatch, numbers, scattered};
use pd_seek::feed_place;
use pd_web::{Line, Web};
use pd_wire::WireKey;
use std::alloc::Global;

/// About so many wires are cut in a run, and as many joined.
const EDITS: usize = 10_000;

/// Which wires are cut, and in which order.
#[derive(Clone, Copy)]
enum Pick {
    /// Half of those from `osc~` to `*~`, here and there. Each is the one feed of its inlet.
    Voices,
    /// All into the output, from the first to the last, and joined in the same order.
    Rising,
    /// Half of those into the output, here and there.
    Scattered,
}

impl Pick {
    fn leads_to_output(self) -> bool {
        match self {
            Pick::Voices => false,
            Pick::Rising | Pick::Scattered => true,
        }
    }

    /// How many of so many wires are cut.
    fn count(self, wires: usize) -> usize {
        match self {
            Pick::Rising => wires,
            Pick::Voices | Pick::Scattered => wires.div_ceil(2),
        }
    }

    /// The number of the i-th wire that is cut, of so many.
    fn number(self, i: usize, wires: usize) -> usize {
        match self {
            Pick::Rising => i,
            Pick::Voices | Pick::Scattered => scattered(i, wires),
        }
    }

    fn word(self) -> &'static str {
        match self {
            Pick::Voices => "to single feeds",
            Pick::Rising => "rising",
            Pick::Scattered => "scattered",
        }
    }
}

/// A wire that is cut and joined again.
#[derive(Clone, Copy)]
struct Held {
    key: WireKey,
    line: Line,
}

/// The first wire from a box, where it leads to an output or where it doesn't. An output has no outlets.
fn held_from(web: &Web, source: u32, to_output: bool) -> Option<Held> {
    let hop = web.fan_first(source, 0)?;
    if (web.outlets_at(hop.node()) == 0) != to_output {
        return None;
    }
    let line = Line {
        source,
        outlet: 0,
        sink: hop.node(),
        inlet: hop.port(),
    };
    Some(Held {
        key: hop.key(),
        line,
    })
}

/// The first wire from a box, where a pick may be among wires of that kind. A box that holds a canvas is no voice's.
fn picked_from(grove: &Grove, web: &Web, source: u32, pick: Pick) -> Option<Held> {
    if grove.canvas_in(source).is_some() {
        return None;
    }
    held_from(web, source, pick.leads_to_output())
}

/// The wires of voices that a pick is among, in the order of the boxes.
fn held_wires(alloc: Global, grove: &Grove, web: &Web, pick: Pick) -> Result<Vec<Held>> {
    let mut held = Vec::new(alloc);
    for source in 0..u32::try_from(grove.nodes_end())? {
        if let Some(wire) = picked_from(grove, web, source, pick) {
            held.push(wire)?;
        }
    }
    Ok(held)
}

/// Whether both ports of a line are there.
#[tactic(auto, using(crate::proofs::PortLemmas::route))]
fn has_ports(web: &Web, line: Line) -> bool
    ensures { IsTrue result → IsRoute web.now.sockets.items line }
{
    line.outlet < web.outlets_at(line.source) && line.inlet < web.inlets_at(line.sink)
}

/// A wire more: its room, its place and itself.
fn join(alloc: Global, web: &mut Web, labels: &[u32], line: Line) -> Result<WireKey> {
    web.reserve(alloc, 0, 2, 1)?;
    if !has_ports(web, line) {
        bail!("a port is missing");
    }
    let next = feed_place(web, labels, line);
    Ok(web.join(line, next))
}

/// A wire less.
fn cut(web: &mut Web, key: WireKey) {
    if web.line_at(key).is_some() {
        web.cut(key);
    }
}

fn cut_all(web: &mut Web, held: &[Held], pick: Pick) {
    let wires = held.len();
    for i in 0..pick.count(wires) {
        if let Some(wire) = held.get(pick.number(i, wires)) {
            cut(web, wire.key);
        }
    }
}

fn join_all(
    alloc: Global,
    web: &mut Web,
    labels: &[u32],
    held: &mut [Held],
    pick: Pick,
) -> Result<()> {
    let wires = held.len();
    for i in 0..pick.count(wires) {
        if let Some(wire) = held.get_mut(pick.number(i, wires)) {
            wire.key = join(alloc, web, labels, wire.line)?;
        }
    }
    Ok(())
}

/// The times of cuts and of joins, and how many there were of each.
#[derive(Clone, Copy)]
struct Times {
    cuts: Nanos,
    joins: Nanos,
    count: u64,
}

/// The wires of a pick are cut and joined again, so often that some thousands are.
fn measure<R: Measures>(rt: &R, grove: &Grove, labels: &[u32], pick: Pick) -> Result<Times>
    requires { KindsSmall grove.now }
{
    let Ok(mut web) = Web::lay(rt.alloc(), grove) else {
        bail!("the wires can't be laid");
    };
    let mut held = held_wires(rt.alloc(), grove, &web, pick)?;
    let picked = pick.count(held.len());
    ensure!(picked > 0, "there are no wires");
    let rounds = EDITS.div_ceil(picked.max(1));
    let mut cuts = Nanos(0);
    let mut joins = Nanos(0);
    for _ in 0..rounds {
        let watch = Stopwatch::start(rt)?;
        cut_all(&mut web, held.as_slice(), pick);
        cuts = cuts.plus(watch.read(rt)?);
        let watch = Stopwatch::start(rt)?;
        join_all(rt.alloc(), &mut web, labels, held.as_mut_slice(), pick)?;
        joins = joins.plus(watch.read(rt)?);
    }
    let count = (picked as u64).saturating_mul(rounds as u64);
    Ok(Times { cuts, joins, count })
}

fn report<R: Measures>(rt: &R, grove: &Grove, labels: &[u32], pick: Pick, size: &str) -> Result<()>
    requires { KindsSmall grove.now }
{
    let mut least = measure(rt, grove, labels, pick)?;
    for _ in 1..RUNS {
        let times = measure(rt, grove, labels, pick)?;
        least.cuts = least.cuts.min(times.cuts);
        least.joins = least.joins.min(times.joins);
    }
    let cut = least.cuts.each(least.count);
    let join = least.joins.each(least.count);
    let word = pick.word();
    println!(rt; "{size}, wires {word}: {cut} ns a cut, {join} ns a join")?;
    Ok(())
}

/// The wires of voices and those into the output of a patch.
pub(crate) fn run<R: Measures>(rt: &R, shape: Shape, boxes: u32, size: &str) -> Result<()> {
    let text = patch(rt.alloc(), shape, boxes)?;
    let grove = grove(rt.alloc(), text.as_str())?;
    let labels = numbers(rt.alloc(), u32::try_from(grove.nodes_end())?)?;
    report(rt, &grove, labels.as_slice(), Pick::Voices, size)?;
    report(rt, &grove, labels.as_slice(), Pick::Rising, size)?;
    report(rt, &grove, labels.as_slice(), Pick::Scattered, size)
}
