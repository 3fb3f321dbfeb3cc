//! The ports of a kind.

ghost use Rattle.std.specs.Prelude.{◌≡◌, ◌<◌, ◌≤◌, ◌+◌, ◌^◌, length, nat_lt, not, ◌==◌};
ghost use Rattle.pd_object.specs.Ports.{Ports, IsSmallKind, IsSmallGlue, IsSmallSignal, ports_of, arith_ports, glue_ports, choice_ports, send_inlets_of, tone_ports, signal_ports, operation_ports_of};

use crate::kinds::{Arith, Glue, Kind, Side, Signal, Tone};
use crate::lists::Items;
use pd_atom::Sym;
use pd_num::Num;
use std::marker::Model;

/// How many inlets and outlets a kind has, and which carry signals. Of the inlets the first some carry signals, and
/// the outlets all do or none.
#[derive(Clone, Copy, Debug, PartialEq, Eq)]
pub struct PortList {
    inlets: u32,
    signal_inlets: u32,
    outlets: u32,
    signal_outlets: u32,
}

impl Model for PortList {
    ghost use Rattle.pd_object.specs.Ports.{Ports};

    ghost Value = { Ports };

    ghost view = { λ p. record { inlets = p.inlets; signal_inlets = p.signal_inlets; outlets = p.outlets; signal_outlets = p.signal_outlets } };

    ghost inverse = { λ p. record { inlets = p.inlets; signal_inlets = p.signal_inlets; outlets = p.outlets; signal_outlets = p.signal_outlets } };
}

impl PortList {
    pub fn inlets(&self) -> u32
        ensures { result ≡ self.now.inlets }
    {
        self.inlets
    }

    pub fn outlets(&self) -> u32
        ensures { result ≡ self.now.outlets }
    {
        self.outlets
    }

    /// Whether the i-th inlet, counted from 0, carries a signal.
    pub fn inlet_signal(&self, i: u32) -> bool
        ensures { result ≡ nat_lt i self.now.signal_inlets }
    {
        i < self.signal_inlets
    }

    /// Whether the i-th outlet, counted from 0, carries a signal.
    pub fn outlet_signal(&self, i: u32) -> bool
        ensures { result ≡ nat_lt i self.now.signal_outlets }
    {
        i < self.signal_outlets
    }
}

fn control(inlets: u32, outlets: u32) -> PortList
    ensures { result ≡ record { inlets = inlets; signal_inlets = 0; outlets = outlets; signal_outlets = 0 } }
{
    PortList {
        inlets,
        signal_inlets: 0,
        outlets,
        signal_outlets: 0,
    }
}

fn sounding(inlets: u32, signal_inlets: u32, outlets: u32) -> PortList
    ensures { result ≡ record { inlets = inlets; signal_inlets = signal_inlets; outlets = outlets; signal_outlets = outlets } }
{
    PortList {
        inlets,
        signal_inlets,
        outlets,
        signal_outlets: outlets,
    }
}

fn count<T>(items: &Items<T>) -> u32
    requires { length items.now < 2 ^ 32 }
    ensures { result ≡ length items.now }
{
    items.as_slice().len() as u32
}

/// The ports of a kind. A canvas has those of the boxes in it, which its kind doesn't tell.
pub fn ports(kind: &Kind) -> PortList
    requires { IsSmallKind kind.now }
    ensures { result ≡ ports_of kind.now }
{
    match kind {
        Kind::Arith(arith) => arith_port_list(arith),
        Kind::Glue(glue) => glue_port_list(glue),
        Kind::Tone(tone) => tone_port_list(tone),
        Kind::Signal(signal) => signal_port_list(signal),
        Kind::Panel(_) => control(1, 1),
        Kind::Vline => sounding(3, 0, 1),
        Kind::Unmade => control(32, 32),
        Kind::Canvas => control(0, 0),
    }
}

fn arith_port_list(arith: &Arith) -> PortList
    ensures { result ≡ arith_ports arith.now }
{
    match arith {
        Arith::Operation { .. } | Arith::Comparison { .. } | Arith::Division { .. } => {
            control(2, 1)
        }
        Arith::Function { .. } => control(1, 1),
        Arith::Clip { .. } => control(3, 1),
    }
}

fn glue_port_list(glue: &Glue) -> PortList
    requires { IsSmallGlue glue.now }
    ensures { result ≡ glue_ports glue.now }
{
    match glue {
        Glue::Message { .. } | Glue::FloatBox { .. } | Glue::SymbolBox { .. } => control(1, 1),
        Glue::Comment | Glue::Array { .. } | Glue::Table { .. } => control(0, 0),
        Glue::Bang { .. } | Glue::Change { .. } | Glue::Tabread { .. } => control(1, 1),
        Glue::Float { .. } | Glue::Int { .. } | Glue::Symbol { .. } => control(2, 1),
        Glue::Trigger { outlets, .. } => control(1, count(outlets)),
        Glue::Pack { slots } => control(count(slots), 1),
        Glue::Unpack { slots } => control(1, count(slots)),
        Glue::Route { arguments } | Glue::Select { arguments, .. } => choices(count(arguments)),
        Glue::Moses { .. } | Glue::Swap { .. } => control(2, 2),
        Glue::Spigot { .. } | Glue::Until | Glue::Timer | Glue::Random { .. } => control(2, 1),
        Glue::Metro { .. } | Glue::Delay { .. } => control(2, 1),
        Glue::Loadbang | Glue::Receive { .. } => control(0, 1),
        Glue::Print { .. } => control(1, 0),
        Glue::Send { name, .. } => control(send_inlets(*name), 0),
        Glue::ListAppend { .. } | Glue::ListPrepend { .. } => control(2, 1),
        Glue::ListSplit { .. } => control(2, 3),
        Glue::ListTrim | Glue::ListLength => control(1, 1),
        Glue::Port { side: Side::Inlet } => control(0, 1),
        Glue::Port { side: Side::Outlet } => control(1, 0),
        Glue::Tabwrite { .. } => control(2, 0),
    }
}

/// The ports of `route` and `select` with so many arguments.
fn choices(arguments: u32) -> PortList
    requires { arguments < 1025 }
    ensures { result ≡ choice_ports arguments }
{
    if arguments == 1 {
        control(2, 2)
    } else {
        control(1, arguments + 1)
    }
}

/// A `send` without a name has a second inlet for it.
fn send_inlets(name: Option<Sym>) -> u32
    ensures { result ≡ send_inlets_of name }
{
    match name {
        Some(_) => 1,
        None => 2,
    }
}

fn tone_port_list(tone: &Tone) -> PortList
    ensures { result ≡ tone_ports tone.now }
{
    match tone {
        Tone::Phasor { .. } | Tone::Osc { .. } => sounding(2, 1, 1),
        Tone::Noise => sounding(1, 0, 1),
    }
}

fn signal_port_list(signal: &Signal) -> PortList
    requires { IsSmallSignal signal.now }
    ensures { result ≡ signal_ports signal.now }
{
    match signal {
        Signal::Sig { .. } | Signal::Delread { .. } | Signal::Receive { .. } => sounding(1, 0, 1),
        Signal::Operation { right, .. } => operation_ports(*right),
        Signal::Function { .. } | Signal::Tabread { .. } => sounding(1, 1, 1),
        Signal::Clip { .. } => sounding(3, 1, 1),
        Signal::Line => sounding(2, 0, 1),
        Signal::Samphold => sounding(2, 2, 1),
        Signal::Lop { .. } | Signal::Hip { .. } => sounding(2, 1, 1),
        Signal::Delwrite { .. } | Signal::Send { .. } | Signal::Throw { .. } => sounding(1, 1, 0),
        Signal::Catch { .. } | Signal::Inlet => sounding(0, 0, 1),
        Signal::Snapshot => PortList {
            inlets: 1,
            signal_inlets: 1,
            outlets: 1,
            signal_outlets: 0,
        },
        Signal::Dac { channels } => sounding(count(channels), count(channels), 0),
        Signal::Outlet => sounding(1, 1, 0),
    }
}

/// The ports of `+~` and its like: with an argument inlet 1 is a control port.
fn operation_ports(right: Option<Num>) -> PortList
    ensures { result ≡ operation_ports_of right }
{
    match right {
        Some(_) => sounding(2, 1, 1),
        None => sounding(2, 2, 1),
    }
}
