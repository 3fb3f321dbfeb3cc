//! What a box keeps: a variant for each row that keeps something.

ghost use Rattle.std.specs.Prelude.{◌≡◌, ◌<◌, ◌≤◌, length, IfOk, IfSome};

use pd_atom::{Atom, Sym};
use pd_clock::{Rate, Time};
use pd_num::{Num, Sig};
use pd_object::{Bounded, Items, Values};
use std::alloc::{AllocError, Global};
use std::marker::Model;

/// At most 1,024 atoms, with their room.
pub type Text = Bounded<Atom, 1024>;

/// Signal values, as a block of 64 or a delay line.
pub type Samples = Items<Sig>;

/// What a box keeps. The room that it will ever need is taken when it is made.
#[derive(Debug, Drop)]
pub enum State {
    /// The kind keeps nothing.
    Bare,
    Message {
        text: Text,
    },
    FloatBox {
        value: Num,
    },
    SymbolBox {
        value: Sym,
    },
    Array {
        values: Values,
    },
    Float {
        value: Num,
    },
    Int {
        value: Num,
    },
    Symbol {
        value: Sym,
    },
    Pack {
        slots: Items<Atom>,
    },
    Route {
        arguments: Items<Atom>,
    },
    Select {
        arguments: Items<Atom>,
    },
    Moses {
        bound: Num,
    },
    Spigot {
        gate: Num,
    },
    Swap {
        left: Num,
        right: Num,
    },
    Change {
        value: Num,
    },
    /// Without a count it runs without end.
    Until {
        is_running: bool,
        count: Option<u32>,
    },
    Send {
        name: Option<Sym>,
    },
    Metro {
        period: Num,
    },
    Delay {
        time: Num,
    },
    Timer {
        reset: Time,
        rate: Rate,
    },
    Random {
        seed: u32,
        range: Num,
    },
    ListAppend {
        stored: Text,
    },
    ListPrepend {
        stored: Text,
    },
    ListSplit {
        count: Num,
    },
    Operation {
        left: Num,
        right: Num,
    },
    Comparison {
        left: Num,
        right: Num,
    },
    Division {
        left: Num,
        right: Num,
    },
    Clip {
        low: Num,
        high: Num,
    },
    Table {
        values: Values,
    },
    Tabwrite {
        index: Num,
    },
    Toggle {
        value: Num,
        other: Num,
        is_saved: bool,
    },
    /// The phase is below the rate times 10^9.
    Phasor {
        held: Num,
        phase: u64,
        rate: Rate,
    },
    Osc {
        held: Num,
        phase: u64,
        rate: Rate,
    },
    Noise {
        seed: u32,
    },
    Sig {
        value: Num,
    },
    /// The right number is held at a signal inlet or stored at a control inlet.
    SignalOperation {
        left: Num,
        right: Num,
    },
    SignalFunction {
        held: Num,
    },
    SignalClip {
        held: Num,
        low: Num,
        high: Num,
    },
    Line(Slope),
    Samphold {
        held: Num,
        control: Num,
        last: Sig,
        kept: Sig,
    },
    Lop {
        held: Num,
        hertz: Num,
        value: Sig,
        rate: Rate,
    },
    Hip {
        held: Num,
        hertz: Num,
        value: Sig,
        rate: Rate,
    },
    Delwrite {
        held: Num,
        values: Samples,
        next: u32,
        ran: bool,
    },
    Delread {
        time: Num,
        rate: Rate,
    },
    SignalSend {
        held: Num,
        block: Samples,
    },
    Throw {
        held: Num,
    },
    Catch {
        sum: Samples,
    },
    Snapshot {
        held: Num,
        last: Sig,
    },
    SignalTabread {
        held: Num,
    },
    Dac {
        held: Items<Num>,
    },
    SignalInlet {
        held: Num,
    },
    SignalOutlet {
        held: Num,
    },
    Vline(RampBook),
}

/// What a `line~` keeps: its stored time, and a slope of so many samples of which the next is sample `at`.
#[derive(Clone, Copy, Debug, PartialEq, Eq, Drop)]
pub struct Slope {
    pub time: Num,
    pub start: Sig,
    pub target: Sig,
    pub length: u64,
    pub at: u64,
    pub rate: Rate,
}

/// A ramp of `vline~`: from its start to its end it leads to the target.
#[derive(Clone, Copy, Debug, PartialEq, Eq, Drop)]
pub struct Ramp {
    pub start: Time,
    pub end: Time,
    pub target: Sig,
}

/// What a `vline~` keeps: its stored ramp time and delay in milliseconds, the end of the last block that it ran, the last
/// ramp that started before that with the value at its start, and the ramps that start later.
#[derive(Debug, Drop)]
pub struct Ramps {
    pub time: Num,
    pub delay: Num,
    pub end: Time,
    pub base: Option<(Ramp, Sig)>,
    pub ramps: Bounded<Ramp, 256>,
    pub rate: Rate,
}

/// The ramps of a `vline~`, in a block of their own. Contracts see the ramps.
///
/// The stored times are within a day, and no ramp is longer than a day of milliseconds.
#[derive(Debug, Drop)]
pub struct RampBook {
    inside: Box<Ramps>,
}

impl Model for RampBook {
    ghost use Rattle.pd_kind.specs.declared.states.Ramps.{Ramps};
    ghost use Rattle.pd_kind.specs.Books.{IsBook};

    ghost Value = { Ramps };

    ghost view = { λ book. book.inside.value };

    ghost invariant = { λ book. IsBook book.inside.value };
}

impl RampBook {
    ghost use Rattle.pd_kind.specs.Books.{IsBook, IsShort, IsTime, with_times, with_ramp_last, block_ended};

    pub fn new(alloc: Global, ramps: Ramps) -> Result<RampBook, AllocError>
        requires { IsBook ramps }
        ensures { IfOk result (λ book. book ≡ ramps) }
    {
        let inside = Box::new(alloc, ramps)?;
        Ok(RampBook { inside })
    }

    pub fn ramps(&self) -> &Ramps
        ensures ramps { result.now ≡ self.now }
        ensures book { IsBook self.now }
    {
        self.inside.as_ref()
    }

    /// Stores a ramp time and a delay.
    pub fn store(&mut self, time: Num, delay: Num)
        requires time { IsTime time }
        requires delay { IsTime delay }
        ensures { self.new ≡ with_times self.old time delay }
    {
        let ramps = self.inside.as_mut();
        ramps.time = time;
        ramps.delay = delay;
    }

    /// Puts a ramp behind the first `kept` ramps; the others go.
    pub fn add(&mut self, kept: usize, ramp: Ramp)
        requires room { kept < 256 }
        requires short { IsShort ramp }
        ensures { self.new ≡ with_ramp_last self.old kept ramp }
    {
        let ramps = self.inside.as_mut();
        ramps.ramps.truncate(kept);
        ramps.ramps.push(ramp);
    }

    /// Leaves a base and the end of a block, and takes the first `count` ramps away.
    pub fn leave(&mut self, base: Option<(Ramp, Sig)>, count: usize, end: Time)
        requires base { IfSome base (λ b. IsShort b.0) }
        requires count { count ≤ length self.old.ramps }
        ensures { self.new ≡ block_ended self.old base count end }
    {
        let ramps = self.inside.as_mut();
        ramps.base = base;
        ramps.end = end;
        ramps.ramps.drop_front(count);
    }
}
