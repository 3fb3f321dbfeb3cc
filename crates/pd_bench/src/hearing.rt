//! Messages heard by one box: how long one takes, for a few kinds of boxes.

ghost use Rattle.std.specs.Prelude.{◌<◌, length, IfOk};
ghost use Rattle.pd_glue.specs.Rows.{IsSmall};
ghost use Rattle.pd_bench.specs.Boxes.{IsFit};

use anyhow::Result;
use pd_atom::{Atom, Sym, Symbols};
use pd_clock::{Rate, Time};
use pd_kind::{
    Arith, Around, Glue, Items, Kind, Message, Operation, Sends, Slot, Spelling, State, Trigger,
};
use pd_measure::{Measures, Nanos, RUNS, Stopwatch};
use pd_num::Num;
use std::alloc::{AllocError, Global};

/// A number of whole units.
fn whole(units: i64) -> Num {
    Num::of_micros(units.wrapping_mul(1_000_000)).unwrap_or_default()
}

/// `+ 1`
fn adder() -> Kind
    ensures { IsFit result }
{
    Kind::Arith(Arith::Operation {
        operation: Operation::Add,
        right: whole(1),
    })
}

/// `trigger bang float`
fn trigger(alloc: Global) -> Result<Kind, AllocError>
    ensures { IfOk result (λ kind. IsFit kind) }
{
    let outlets = Items::of(alloc, &[Trigger::Bang, Trigger::Float])?;
    Ok(Kind::Glue(Glue::Trigger {
        spelling: Spelling::Whole,
        outlets,
    }))
}

/// `route 1 2 3`
fn route(alloc: Global) -> Result<Kind, AllocError>
    ensures { IfOk result (λ kind. IsFit kind) }
{
    let numbers = [
        Atom::Number(whole(1)),
        Atom::Number(whole(2)),
        Atom::Number(whole(3)),
    ];
    let arguments = Items::of(alloc, &numbers)?;
    Ok(Kind::Glue(Glue::Route { arguments }))
}

/// `pack 0 0`
fn pack(alloc: Global) -> Result<Kind, AllocError>
    ensures { IfOk result (λ kind. IsFit kind) }
{
    let slots = Items::of(alloc, &[Slot::Number(whole(0)), Slot::Number(whole(0))])?;
    Ok(Kind::Glue(Glue::Pack { slots }))
}

/// A message box with the text `$1`.
fn message(alloc: Global) -> Result<Kind, AllocError>
    ensures { IfOk result (λ kind. IsFit kind) }
{
    let text = Items::of(alloc, &[Atom::Dollar(1)])?;
    Ok(Kind::Glue(Glue::Message { text }))
}

/// A number comes to the box's left inlet.
fn hear(kind: &Kind, state: &mut State, symbols: &mut Symbols, number: Num, out: &mut Sends)
    requires small { IsSmall symbols.old kind.now state.old }
    requires named { 1 < length symbols.old }
    ensures small { IsSmall symbols.new kind.now state.new }
    ensures named { 1 < length symbols.new }
{
    let atoms = [Atom::Number(number)];
    let message = Message {
        selector: Sym::float(),
        atoms: &atoms,
    };
    let around = Around {
        now: Time::of_units(0),
        table: None,
    };
    match kind {
        Kind::Arith(_) => pd_arith::hear(kind, state, 0, message, symbols, &around, out),
        _ => pd_glue::hear(kind, state, 0, message, symbols, &around, out),
    }
}

/// The time of so many messages, each a number from 0 to 7.
fn measure<R: Measures>(
    rt: &R,
    kind: &Kind,
    state: &mut State,
    symbols: &mut Symbols,
    out: &mut Sends,
    messages: u32,
) -> Result<Nanos>
    requires small { IsSmall symbols.old kind.now state.old }
    requires named { 1 < length symbols.old }
    ensures small { IsSmall symbols.new kind.now state.new }
    ensures named { 1 < length symbols.new }
{
    let watch = Stopwatch::start(rt)?;
    for i in 0..messages {
        hear(kind, state, symbols, whole(i64::from(i % 8)), out);
    }
    Ok(watch.read(rt)?)
}

/// The least time of a few runs.
fn least<R: Measures>(
    rt: &R,
    kind: &Kind,
    state: &mut State,
    symbols: &mut Symbols,
    messages: u32,
) -> Result<Nanos>
    requires small { IsSmall symbols.old kind.now state.old }
    requires named { 1 < length symbols.old }
{
    let mut out = Sends::new(rt.alloc())?;
    let mut least = measure(rt, kind, state, symbols, &mut out, messages)?;
    for _ in 1..RUNS {
        least = least.min(measure(rt, kind, state, symbols, &mut out, messages)?);
    }
    Ok(least)
}

/// Measures one kind of box.
fn run_kind<R: Measures>(rt: &R, name: &str, kind: &Kind, messages: u32) -> Result<()>
    requires { IsFit kind.now }
{
    let mut state = State::fresh(rt.alloc(), kind, Rate::R44100)?;
    pd_glue::starts_small();
    let mut symbols = Symbols::new(rt.alloc())?;
    let each = least(rt, kind, &mut state, &mut symbols, messages)?.each(u64::from(messages));
    println!(rt; "hear: {name}, {messages} messages: {each} ns a message")?;
    Ok(())
}

/// Measures a kind that was made for it.
fn run_made<R: Measures>(rt: &R, name: &str, kind: Kind, messages: u32) -> Result<()>
    requires { IsFit kind }
{
    run_kind(rt, name, &kind, messages)
}

pub(crate) fn run<R: Measures>(rt: &R, messages: u32) -> Result<()> {
    run_made(rt, "+ 1", adder(), messages)?;
    run_made(rt, "trigger bang float", trigger(rt.alloc())?, messages)?;
    run_made(rt, "route 1 2 3", route(rt.alloc())?, messages)?;
    run_made(rt, "pack 0 0", pack(rt.alloc())?, messages)?;
    run_made(rt, "a message box with $1", message(rt.alloc())?, messages)
}
