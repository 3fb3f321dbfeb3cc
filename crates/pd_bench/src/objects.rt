//! The signal objects: how long a sample takes of each, on values of ordinary size.

ghost use Rattle.std.specs.Prelude.{◌≡◌, IfSome};
ghost use Rattle.pd_object.specs.declared.kinds.Kind.TheVariants as kind;
ghost use Rattle.pd_object.specs.Ports.{IsSmallKind, IsSmallSignal};
ghost use Rattle.pd_bench.specs.Objects.{HasSmallKinds};

use anyhow::Result;
use pd_clock::{Rate, Time};
use pd_kind::{Kind, Signal, SignalFunction, SignalOperation, Slope, Spelling, State, Tone};
use pd_measure::{Measures, Nanos, RUNS, Stopwatch};
use pd_num::{Num, Sig};
use pd_turn::{Manner, few_ports, manner_of, run_own, run_pair, run_table};

/// What comes to the signal inlets of a box.
#[derive(Clone, Copy)]
enum Feed {
    /// A frequency in each sample.
    Hertz(u32),
    /// Values between -1 and 1.
    Waves,
    /// Places in a table of 64 values.
    Places,
}

/// An object, what comes to it, and the kind of the box that it looks at.
#[derive(Drop)]
struct Object {
    name: &'static str,
    kind: Kind,
    feed: Feed,
    other: Kind,
}

/// What two boxes keep: an object, and the box that it looks at.
#[derive(Drop)]
struct Kept {
    own: State,
    other: State,
}

/// A number of thousandths.
fn thousandths(count: i64) -> Num {
    Num::of_micros(count.wrapping_mul(1000)).unwrap_or_default()
}

/// Sixty-four values in steps of so many billionths.
fn block(start: i64, step: i64) -> [Sig; 64] {
    let mut made = [Sig::default(); 64];
    let mut nanos = start;
    for x in made.iter_mut() {
        *x = Sig::of_nanos(nanos).unwrap_or_default();
        nanos = nanos.saturating_add(step);
    }
    made
}

fn inlets(feed: Feed) -> [[Sig; 64]; 2] {
    match feed {
        Feed::Hertz(hertz) => [block(i64::from(hertz) * 1_000_000_000, 0); 2],
        Feed::Waves => [
            block(-500_000_000, 12_345_678),
            block(700_000_000, -7_654_321),
        ],
        Feed::Places => [block(0, 990_000_000); 2],
    }
}

/// Runs an object for a block.
#[tactic(auto, unfolding(pd_kind::specs::States::silent_block))]
fn turn(kind: &Kind, kept: &mut Kept, ins: &[[Sig; 64]; 2], table: &[Num]) -> [[Sig; 64]; 1] {
    let mut outs = [[Sig::default(); 64]];
    let Some(few) = few_ports(kind) else {
        return outs;
    };
    let state = &mut kept.own;
    match manner_of(kind) {
        Manner::Beside => run_pair(kind, few, state, &mut kept.other, ins, &mut outs),
        Manner::Table => run_table(kind, few, state, table, ins, &mut outs),
        _ => run_own(kind, few, state, Time::of_units(0), ins, &mut outs),
    }
    outs
}

/// The time of so many blocks, and the last sample of the outlet.
fn measure<R: Measures>(
    rt: &R,
    object: &Object,
    kept: &mut Kept,
    blocks: u32,
) -> Result<(Nanos, Sig)> {
    let table = [thousandths(500); 64];
    let ins = inlets(object.feed);
    let mut last = Sig::default();
    let watch = Stopwatch::start(rt)?;
    for _ in 0..blocks {
        last = turn(&object.kind, kept, &ins, &table)[0][63];
    }
    Ok((watch.read(rt)?, last))
}

/// Measures an object from what it keeps, and prints the least time of a few runs.
fn measure_from<R: Measures>(rt: &R, object: &Object, kept: &mut Kept, blocks: u32) -> Result<()> {
    let (mut least, mut last) = measure(rt, object, kept, blocks)?;
    for _ in 1..RUNS {
        let (time, sample) = measure(rt, object, kept, blocks)?;
        least = least.min(time);
        last = sample;
    }
    let tenths = Nanos(least.0.saturating_mul(10)).each(u64::from(blocks) * 64);
    let (name, whole, tenth, last) = (object.name, tenths / 10, tenths % 10, last.nanos());
    println!(rt;
        "signal: {name}, {blocks} blocks: {least}, {whole}.{tenth} ns a sample (the last is {last} billionths)"
    )?;
    Ok(())
}

/// Measures an object from what it keeps when it is made.
fn measured<R: Measures>(rt: &R, object: &Object, blocks: u32) -> Result<()>
    requires { HasSmallKinds object.now }
{
    let own = State::fresh(rt.alloc(), &object.kind, Rate::R44100)?;
    let other = State::fresh(rt.alloc(), &object.other, Rate::R44100)?;
    measure_from(rt, object, &mut Kept { own, other }, blocks)
}

/// An object that looks at no other box.
fn alone(name: &'static str, feed: Feed, kind: Kind) -> Object
    requires { IsSmallKind kind }
    ensures { HasSmallKinds result }
{
    Object {
        name,
        kind,
        feed,
        other: Kind::Unmade,
    }
}

/// An object that is fed values between -1 and 1.
fn waved(name: &'static str, signal: Signal) -> Object
    requires { IsSmallSignal signal }
    ensures { HasSmallKinds result }
{
    alone(name, Feed::Waves, Kind::Signal(signal))
}

/// An object that looks at a box of another kind.
fn beside(name: &'static str, signal: Signal, other: Signal) -> Object
    requires own { IsSmallSignal signal }
    requires other { IsSmallSignal other }
    ensures { HasSmallKinds result }
{
    Object {
        name,
        kind: Kind::Signal(signal),
        feed: Feed::Waves,
        other: Kind::Signal(other),
    }
}

/// `phasor~`, `osc~` and `noise~`.
fn voice(number: u32) -> Option<Object>
    ensures { IfSome result HasSmallKinds }
{
    let hertz = Num::default();
    match number {
        0 => Some(alone(
            "osc~ at 440",
            Feed::Hertz(440),
            Kind::Tone(Tone::Osc { hertz }),
        )),
        1 => Some(alone(
            "osc~ at 5000",
            Feed::Hertz(5000),
            Kind::Tone(Tone::Osc { hertz }),
        )),
        2 => Some(alone(
            "phasor~ at 440",
            Feed::Hertz(440),
            Kind::Tone(Tone::Phasor { hertz }),
        )),
        3 => Some(alone("noise~", Feed::Waves, Kind::Tone(Tone::Noise))),
        _ => None,
    }
}

/// An arithmetic object of two signals.
fn operation(name: &'static str, operation: SignalOperation, right: Option<Num>) -> Object
    ensures { HasSmallKinds result }
{
    waved(name, Signal::Operation { operation, right })
}

/// The arithmetic objects of two signals, and `*~ 0.5`.
fn operation_at(number: u32) -> Option<Object>
    ensures { IfSome result HasSmallKinds }
{
    let half = thousandths(500);
    match number {
        0 => Some(operation("+~", SignalOperation::Add, None)),
        1 => Some(operation("-~", SignalOperation::Subtract, None)),
        2 => Some(operation("*~", SignalOperation::Multiply, None)),
        3 => Some(operation("*~ 0.5", SignalOperation::Multiply, Some(half))),
        4 => Some(operation("/~", SignalOperation::Divide, None)),
        5 => Some(operation("max~", SignalOperation::Greatest, None)),
        _ => None,
    }
}

/// `abs~`, `wrap~`, `clip~` and `sig~`.
fn function(number: u32) -> Option<Object>
    ensures { IfSome result HasSmallKinds }
{
    let (low, high) = (thousandths(-100), thousandths(100));
    let (magnitude, wrap) = (SignalFunction::Magnitude, SignalFunction::Wrap);
    match number {
        0 => Some(waved(
            "abs~",
            Signal::Function {
                function: magnitude,
            },
        )),
        1 => Some(waved("wrap~", Signal::Function { function: wrap })),
        2 => Some(waved("clip~", Signal::Clip { low, high })),
        3 => Some(waved("sig~", Signal::Sig { value: high })),
        _ => None,
    }
}

/// `lop~`, `hip~` and `samphold~`.
fn filter(number: u32) -> Option<Object>
    ensures { IfSome result HasSmallKinds }
{
    let hertz = thousandths(1_000_000);
    match number {
        0 => Some(waved("lop~", Signal::Lop { hertz })),
        1 => Some(waved("hip~", Signal::Hip { hertz })),
        2 => Some(waved("samphold~", Signal::Samphold)),
        _ => None,
    }
}

/// A `line~` on a ramp of so many samples.
fn ramp(length: u64) -> Kept {
    let own = State::Line(Slope {
        time: Num::default(),
        start: Sig::default(),
        target: Sig::of_nanos(1_000_000_000).unwrap_or_default(),
        length,
        at: 0,
        rate: Rate::R44100,
    });
    Kept {
        own,
        other: State::Bare,
    }
}

/// A `line~` that stands, and one on a ramp that lasts as long as all runs.
fn lines<R: Measures>(rt: &R, blocks: u32) -> Result<()> {
    measured(rt, &waved("line~ that stands", Signal::Line), blocks)?;
    let object = Object {
        name: "line~ on a ramp",
        kind: Kind::Signal(Signal::Line),
        feed: Feed::Waves,
        other: Kind::Unmade,
    };
    let mut kept = ramp(u64::from(blocks) * 64 * u64::from(RUNS));
    measure_from(rt, &object, &mut kept, blocks)
}

fn send() -> Signal
    ensures { IsSmallSignal result }
{
    Signal::Send {
        spelling: Spelling::Whole,
        name: None,
    }
}

fn receive() -> Signal
    ensures { IsSmallSignal result }
{
    Signal::Receive {
        spelling: Spelling::Whole,
        name: None,
    }
}

/// Buses and sums.
fn bus(number: u32) -> Option<Object>
    ensures { IfSome result HasSmallKinds }
{
    match number {
        0 => Some(waved("send~", send())),
        1 => Some(beside("receive~", receive(), send())),
        2 => Some(beside(
            "throw~",
            Signal::Throw { name: None },
            Signal::Catch { name: None },
        )),
        3 => Some(waved("catch~", Signal::Catch { name: None })),
        _ => None,
    }
}

/// A delay line of a tenth of a second.
fn line() -> Signal
    ensures { IsSmallSignal result }
{
    Signal::Delwrite {
        name: None,
        time: thousandths(100_000),
    }
}

/// A `delread~` halfway in the line.
fn reader() -> Signal
    ensures { IsSmallSignal result }
{
    Signal::Delread {
        name: None,
        time: thousandths(50_000),
    }
}

/// `delwrite~` and `delread~`, `snapshot~`, and `tabread~` over a table of 64 values.
fn memory(number: u32) -> Option<Object>
    ensures { IfSome result HasSmallKinds }
{
    let table = Kind::Signal(Signal::Tabread { name: None });
    match number {
        0 => Some(waved("delwrite~", line())),
        1 => Some(beside("delread~", reader(), line())),
        2 => Some(waved("snapshot~", Signal::Snapshot)),
        3 => Some(alone("tabread~", Feed::Places, table)),
        _ => None,
    }
}

/// The objects of a family, by their numbers from 0 on.
#[derive(Clone, Copy)]
enum Family {
    Voices,
    Operations,
    Functions,
    Filters,
    Buses,
    Memories,
}

impl Family {
    fn object(self, number: u32) -> Option<Object>
        ensures { IfSome result HasSmallKinds }
    {
        match self {
            Family::Voices => voice(number),
            Family::Operations => operation_at(number),
            Family::Functions => function(number),
            Family::Filters => filter(number),
            Family::Buses => bus(number),
            Family::Memories => memory(number),
        }
    }
}

/// Measures each object of a family.
fn each_of<R: Measures>(rt: &R, blocks: u32, family: Family) -> Result<()> {
    for number in 0..6 {
        if let Some(object) = family.object(number) {
            measured(rt, &object, blocks)?;
        }
    }
    Ok(())
}

pub(crate) fn run<R: Measures>(rt: &R, blocks: u32) -> Result<()> {
    each_of(rt, blocks, Family::Voices)?;
    each_of(rt, blocks, Family::Operations)?;
    each_of(rt, blocks, Family::Functions)?;
    each_of(rt, blocks, Family::Filters)?;
    lines(rt, blocks)?;
    each_of(rt, blocks, Family::Buses)?;
    each_of(rt, blocks, Family::Memories)
}
