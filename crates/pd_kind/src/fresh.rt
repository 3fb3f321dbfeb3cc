//! What a box keeps at first.

ghost use Rattle.std.specs.Prelude.{◌≡◌, ◌≤◌, ◌<◌, ◌+◌, ◌*◌, ◌^◌, map, pos, false, replicate, length, IfOk};
ghost use Rattle.pd_kind.specs.declared.states.State.TheVariants.{Delwrite, Dac};
ghost use Rattle.pd_object.specs.declared.kinds.Kind.TheVariants.{Vline};
ghost use Rattle.pd_object.specs.Ports.{IsSmallKind, IsSmallGlue, IsSmallSignal};
ghost use Rattle.pd_kind.specs.States.{units_of as units_of_number, whole_at_least as whole_of_at_least, table_size as size_of_table, line_length as length_of_line, slot_start, or_one as one_for_zero, or_zero as zero_for_none, keeps_list, keeps_samples, silent_block, arith_start, glue_start, tone_start, signal_start, panel_start, start_of, size_of, glue_size, signal_size};

use crate::states::{RampBook, Ramps, Samples, Slope, State, Text};
use pd_atom::{Atom, Sym};
use pd_clock::{Rate, Time};
use pd_num::Num;
use pd_object::{
    Arith, Bounded, Channel, Glue, Items, Kind, Panel, Signal, Slot, Tone, no_signal, silence,
    zero, zeros,
};
use std::alloc::{AllocError, Global};

/// How many samples a block has.
const BLOCK: usize = 64;

/// Whole units, 0 where the number is negative.
pub fn units_of(number: Num) -> u64
    ensures value { result ≡ units_of_number number }
    ensures small { result ≤ 1000000000 }
{
    let micros = number.micros();
    if micros < 0 {
        0
    } else {
        micros as u64 / 1_000_000
    }
}

/// Whole units, but at least so many.
pub fn whole_at_least(least: u64, number: Num) -> Num
    requires { least ≤ 1 }
    ensures { result ≡ whole_of_at_least least number }
{
    let units = units_of(number).max(least);
    match Num::of_micros(units as i64 * 1_000_000) {
        Some(whole) => whole,
        None => number,
    }
}

/// How many values a table of this size has.
fn table_size(size: Num) -> u64
    ensures value { result ≡ size_of_table size }
    ensures small { result ≤ 1000000000 }
{
    units_of(size).max(1)
}

/// How many samples a time in milliseconds is, 0 where it is negative.
fn line_length(rate: Rate, time: Num) -> u64
    ensures value { result ≡ length_of_line rate time }
    ensures small { result < 2 ^ 40 }
{
    let micros = time.micros();
    if micros < 0 {
        return 0;
    }
    let units = micros as u128 * u128::from(rate.hz());
    (units / 1_000_000_000) as u64
}

/// 0 counts as 1.
fn or_one(number: Num) -> Num
    ensures { result ≡ one_for_zero number }
{
    if number.micros() != 0 {
        return number;
    }
    match Num::of_micros(1_000_000) {
        Some(one) => one,
        None => number,
    }
}

/// A text with all the room that it will ever need.
fn text(alloc: Global, atoms: &[Atom]) -> Result<Text, AllocError>
    requires { length atoms.now ≤ 1024 }
    ensures { IfOk result (λ text. text ≡ atoms.now) }
{
    let mut text = Bounded::new(alloc)?;
    text.extend(atoms);
    Ok(text)
}

/// The first values of slots.
fn slot_starts(alloc: Global, slots: &[Slot]) -> Result<Items<Atom>, AllocError>
    ensures { IfOk result (λ atoms. atoms ≡ map slot_start slots.now) }
{
    let mut atoms = Vec::new(alloc);
    for slot in slots {
        atoms.push(slot_atom(*slot))?;
    }
    Ok(Items::from_vec(atoms))
}

fn slot_atom(slot: Slot) -> Atom
    ensures { result ≡ slot_start slot }
{
    match slot {
        Slot::Number(number) => Atom::Number(number),
        Slot::Symbol => Atom::Symbol(Sym::symbol()),
    }
}

impl State {
    /// What a box of the kind keeps when it is made, with all the room that it will ever need.
    ///
    /// A `timer` counts from time 0 until `start` is called.
    pub fn fresh(alloc: Global, kind: &Kind, rate: Rate) -> Result<State, AllocError>
        requires { IsSmallKind kind.now }
        ensures { IfOk result (λ state. state ≡ start_of kind.now rate) }
    {
        match kind {
            Kind::Arith(arith) => Ok(fresh_arith(arith)),
            Kind::Glue(glue) => fresh_glue(alloc, glue, rate),
            Kind::Tone(tone) => Ok(fresh_tone(tone, rate)),
            Kind::Signal(signal) => fresh_signal(alloc, signal, rate),
            Kind::Panel(panel) => Ok(fresh_panel(panel)),
            Kind::Vline => fresh_vline(alloc, rate),
            Kind::Unmade | Kind::Canvas => Ok(State::Bare),
        }
    }
}

fn fresh_arith(arith: &Arith) -> State
    ensures { result ≡ arith_start arith.now }
{
    let left = zero();
    match arith {
        Arith::Operation { right, .. } => State::Operation {
            left,
            right: *right,
        },
        Arith::Comparison { right, .. } => State::Comparison {
            left,
            right: *right,
        },
        Arith::Division { right, .. } => State::Division {
            left,
            right: *right,
        },
        Arith::Function { .. } => State::Bare,
        Arith::Clip { low, high } => State::Clip {
            low: *low,
            high: *high,
        },
    }
}

/// Of the objects that keep lists, and of the others by `fresh_number`.
fn fresh_glue(alloc: Global, glue: &Glue, rate: Rate) -> Result<State, AllocError>
    requires { IsSmallGlue glue.now }
    ensures { IfOk result (λ state. state ≡ glue_start glue.now rate) }
{
    Ok(match glue {
        Glue::Message { text: atoms } => State::Message {
            text: text(alloc, atoms.as_slice())?,
        },
        Glue::Array { values, .. } => State::Array {
            values: Items::of(alloc, values.as_slice())?,
        },
        Glue::Pack { slots } => State::Pack {
            slots: slot_starts(alloc, slots.as_slice())?,
        },
        Glue::Route { arguments } => State::Route {
            arguments: Items::of(alloc, arguments.as_slice())?,
        },
        Glue::Select { arguments, .. } => State::Select {
            arguments: Items::of(alloc, arguments.as_slice())?,
        },
        Glue::ListAppend { atoms, .. } => State::ListAppend {
            stored: text(alloc, atoms.as_slice())?,
        },
        Glue::ListPrepend { atoms } => State::ListPrepend {
            stored: text(alloc, atoms.as_slice())?,
        },
        Glue::Table { size, .. } => State::Table {
            values: zeros(alloc, table_size(*size) as usize)?,
        },
        Glue::FloatBox { .. }
        | Glue::SymbolBox { .. }
        | Glue::Comment
        | Glue::Bang { .. }
        | Glue::Float { .. }
        | Glue::Int { .. }
        | Glue::Symbol { .. }
        | Glue::Trigger { .. }
        | Glue::Unpack { .. }
        | Glue::Moses { .. }
        | Glue::Spigot { .. }
        | Glue::Swap { .. }
        | Glue::Change { .. }
        | Glue::Until
        | Glue::Loadbang
        | Glue::Print { .. }
        | Glue::Send { .. }
        | Glue::Receive { .. }
        | Glue::Metro { .. }
        | Glue::Delay { .. }
        | Glue::Timer
        | Glue::Random { .. }
        | Glue::ListSplit { .. }
        | Glue::ListTrim
        | Glue::ListLength
        | Glue::Port { .. }
        | Glue::Tabread { .. }
        | Glue::Tabwrite { .. } => fresh_number(glue, rate),
    })
}

/// Of the objects that keep no list; of the others it gives nothing.
fn fresh_number(glue: &Glue, rate: Rate) -> State
    ensures { keeps_list glue.now ≡ false → result ≡ glue_start glue.now rate }
{
    match glue {
        Glue::FloatBox { .. } => State::FloatBox { value: zero() },
        Glue::SymbolBox { .. } => State::SymbolBox {
            value: Sym::symbol(),
        },
        Glue::Float { value, .. } => State::Float { value: *value },
        Glue::Int { value, .. } => State::Int {
            value: value.trunc(),
        },
        Glue::Symbol { value } => State::Symbol { value: *value },
        Glue::Moses { bound } => State::Moses { bound: *bound },
        Glue::Spigot { gate } => State::Spigot { gate: *gate },
        Glue::Swap { right } => State::Swap {
            left: zero(),
            right: *right,
        },
        Glue::Change { value } => State::Change { value: *value },
        Glue::Until => State::Until {
            is_running: false,
            count: Some(0),
        },
        Glue::Send { name, .. } => State::Send { name: *name },
        Glue::Metro { period } => State::Metro { period: *period },
        Glue::Delay { time, .. } => State::Delay { time: *time },
        Glue::Timer => State::Timer {
            reset: Time::of_units(0),
            rate,
        },
        Glue::Random { range } => State::Random {
            seed: 1,
            range: whole_at_least(1, *range),
        },
        Glue::ListSplit { count } => State::ListSplit {
            count: whole_at_least(0, *count),
        },
        Glue::Tabwrite { .. } => State::Tabwrite { index: zero() },
        _ => State::Bare,
    }
}

fn fresh_tone(tone: &Tone, rate: Rate) -> State
    ensures { result ≡ tone_start tone.now rate }
{
    match tone {
        Tone::Phasor { hertz } => State::Phasor {
            held: *hertz,
            phase: 0,
            rate,
        },
        Tone::Osc { hertz } => State::Osc {
            held: *hertz,
            phase: 0,
            rate,
        },
        Tone::Noise => State::Noise { seed: 1 },
    }
}

fn fresh_panel(panel: &Panel) -> State
    ensures { result ≡ panel_start panel.now }
{
    match panel {
        Panel::Bng(_) => State::Bare,
        Panel::Tgl(toggle) => State::Toggle {
            value: toggle.value,
            other: or_one(toggle.other),
            is_saved: toggle.is_whole,
        },
    }
}

/// Of the signal objects that keep lists, and of the others by `fresh_held`.
fn fresh_signal(alloc: Global, signal: &Signal, rate: Rate) -> Result<State, AllocError>
    requires { IsSmallSignal signal.now }
    ensures { IfOk result (λ state. state ≡ signal_start signal.now rate) }
{
    Ok(match signal {
        Signal::Delwrite { time, .. } => fresh_line(alloc, *time, rate)?,
        Signal::Send { .. } => State::SignalSend {
            held: zero(),
            block: block(alloc)?,
        },
        Signal::Catch { .. } => State::Catch { sum: block(alloc)? },
        Signal::Dac { channels } => fresh_dac(alloc, channels.as_slice())?,
        Signal::Sig { .. }
        | Signal::Operation { .. }
        | Signal::Function { .. }
        | Signal::Clip { .. }
        | Signal::Line
        | Signal::Samphold
        | Signal::Lop { .. }
        | Signal::Hip { .. }
        | Signal::Delread { .. }
        | Signal::Receive { .. }
        | Signal::Throw { .. }
        | Signal::Snapshot
        | Signal::Tabread { .. }
        | Signal::Inlet
        | Signal::Outlet => fresh_held(signal, rate),
    })
}

/// A block of 64 values of 0.
#[tactic(auto, unfolding(crate::specs::States::silent_block))]
fn block(alloc: Global) -> Result<Samples, AllocError>
    ensures { IfOk result (λ list. list ≡ silent_block) }
{
    silence(alloc, BLOCK)
}

fn fresh_line(alloc: Global, time: Num, rate: Rate) -> Result<State, AllocError>
    ensures { IfOk result (λ state. state ≡ Delwrite (pos 0) (replicate (length_of_line rate time + 64) (pos 0)) 0 false) }
{
    let count = line_length(rate, time) as usize + 64;
    let values = silence(alloc, count)?;
    Ok(State::Delwrite {
        held: zero(),
        values,
        next: 0,
        ran: false,
    })
}

fn fresh_dac(alloc: Global, channels: &[Channel]) -> Result<State, AllocError>
    ensures { IfOk result (λ state. state ≡ Dac (replicate (length channels.now) (pos 0))) }
{
    let held = zeros(alloc, channels.len())?;
    Ok(State::Dac { held })
}

/// Of the signal objects that keep no list; of the others it gives nothing.
fn fresh_held(signal: &Signal, rate: Rate) -> State
    ensures { keeps_samples signal.now ≡ false → result ≡ signal_start signal.now rate }
{
    let held = zero();
    match signal {
        Signal::Sig { value } => State::Sig { value: *value },
        Signal::Operation { right, .. } => State::SignalOperation {
            left: held,
            right: or_zero(*right),
        },
        Signal::Function { .. } => State::SignalFunction { held },
        Signal::Clip { low, high } => State::SignalClip {
            held,
            low: *low,
            high: *high,
        },
        Signal::Line => State::Line(Slope {
            time: held,
            start: no_signal(),
            target: no_signal(),
            length: 0,
            at: 0,
            rate,
        }),
        Signal::Samphold => State::Samphold {
            held,
            control: held,
            last: no_signal(),
            kept: no_signal(),
        },
        Signal::Lop { hertz } => State::Lop {
            held,
            hertz: *hertz,
            value: no_signal(),
            rate,
        },
        Signal::Hip { hertz } => State::Hip {
            held,
            hertz: *hertz,
            value: no_signal(),
            rate,
        },
        Signal::Delread { time, .. } => State::Delread { time: *time, rate },
        Signal::Throw { .. } => State::Throw { held },
        Signal::Snapshot => State::Snapshot {
            held,
            last: no_signal(),
        },
        Signal::Tabread { .. } => State::SignalTabread { held },
        Signal::Inlet => State::SignalInlet { held },
        Signal::Outlet => State::SignalOutlet { held },
        _ => State::Bare,
    }
}

fn or_zero(number: Option<Num>) -> Num
    ensures { result ≡ zero_for_none number }
{
    match number {
        Some(number) => number,
        None => zero(),
    }
}

fn fresh_vline(alloc: Global, rate: Rate) -> Result<State, AllocError>
    ensures { IfOk result (λ state. state ≡ start_of Vline rate) }
{
    let ramps = Ramps {
        time: zero(),
        delay: zero(),
        end: Time::of_units(0),
        base: None,
        ramps: Bounded::new(alloc)?,
        rate,
    };
    Ok(State::Vline(RampBook::new(alloc, ramps)?))
}

/// How many values the table, the array or the delay line of a kind counts; 0 for other kinds.
pub fn sound_size(kind: &Kind, rate: Rate) -> u64
    ensures { result ≡ size_of kind.now rate }
{
    match kind {
        Kind::Glue(Glue::Array { values, .. }) => values.as_slice().len() as u64,
        Kind::Glue(Glue::Table { size, .. }) => table_size(*size),
        Kind::Signal(Signal::Delwrite { time, .. }) => line_length(rate, *time) + 64,
        _ => 0,
    }
}
