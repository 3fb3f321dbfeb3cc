//! The wires of a canvas.

ghost use Rattle.pd_canvas.specs.Wiring.{precedes, is_same, with_wire, without_wire, lowered, lowered_wire, raised, raised_wire, spares, without_box};
ghost use Rattle.pd_canvas.specs.Turns.{LeavesRoom};
ghost use Rattle.std.specs.Prelude.{unwrap_or, position, map, filter, ◌≡◌, ◌==◌, ◌<◌, [], ◌∷◌, ◌++◌, length, OnOk, OnErr, IfOk};

use std::alloc::{AllocError, Global};
use std::marker::Model;

/// A wire from an outlet of one box to an inlet of another, by the boxes' numbers in their canvas.
#[derive(Clone, Copy, Debug, PartialEq, Eq)]
pub struct Wire {
    pub source: u32,
    pub outlet: u32,
    pub sink: u32,
    pub inlet: u32,
}

/// A list of wires.
#[derive(Debug, Drop)]
pub struct Wires {
    items: Vec<Wire>,
}

impl Model for Wires {
    ghost use Rattle.std.specs.Prelude.{List};
    ghost use Rattle.pd_canvas.specs.declared.wires.Wire.{Wire};

    ghost Value = { List Wire };

    ghost view = { λ a. a.items.items };
}

impl Wires {
    pub fn new(alloc: Global) -> Wires
        ensures { result ≡ [] }
    {
        Wires {
            items: Vec::new(alloc),
        }
    }

    pub fn from_vec(items: Vec<Wire>) -> Wires
        ensures { result ≡ items.items }
    {
        Wires { items }
    }

    pub fn into_vec(self) -> Vec<Wire>
        ensures { result.items ≡ self }
    {
        self.items
    }

    pub fn as_slice(&self) -> &[Wire]
        ensures { result.now ≡ self.now }
    {
        self.items.as_slice()
    }

    pub fn len(&self) -> usize
        ensures { result ≡ length self.now }
    {
        self.items.len()
    }

    pub fn is_empty(&self) -> bool
        ensures { result ≡ (length self.now == 0) }
    {
        self.items.is_empty()
    }

    pub fn push(&mut self, wire: Wire) -> Result<(), AllocError>
        ensures ok { OnOk result (self.new ≡ self.old ++ wire ∷ []) }
        ensures err { OnErr result (self.new ≡ self.old) }
    {
        self.items.push(wire)?;
        Ok(())
    }

    pub fn copy(&self) -> Result<Wires, AllocError>
        ensures { IfOk result (λ c. c ≡ self.now) }
    {
        let items = Vec::from_slice(*self.items.allocator(), self.items.as_slice())?;
        Ok(Wires { items })
    }

    /// Puts a wire last in its outlet's fan-out.
    pub fn connect(&mut self, wire: Wire) -> Result<(), AllocError>
        ensures ok { OnOk result (self.new ≡ with_wire wire self.old) }
        ensures err { OnErr result (self.new ≡ self.old) }
    {
        let place = place_for(wire, self.items.as_slice());
        self.items.insert(place, wire)?;
        Ok(())
    }

    /// Takes the first wire out that is equal, if there is one.
    pub fn disconnect(&mut self, wire: Wire)
        ensures { self.new ≡ without_wire wire self.old }
    {
        if let Some(place) = place_of(wire, self.items.as_slice()) {
            self.items.remove(place);
        }
    }

    /// Takes the wires of a box out, and gives the later boxes the numbers that they have without it.
    pub fn drop_box(&mut self, number: u32)
        ensures { self.new ≡ without_box number self.old }
    {
        drop_box_from(&mut self.items, number);
    }

    /// Gives the boxes from a number on the numbers that they have once another has come in there.
    pub fn lift_box(&mut self, number: u32)
        requires { LeavesRoom self.old }
        ensures { self.new ≡ map (raised_wire number) self.old }
    {
        raise_all(&mut self.items, number);
    }
}

impl Wire {
    /// Whether the outlet of this wire comes before that of another.
    fn precedes(self, other: Wire) -> bool
        ensures { result ≡ precedes self other }
    {
        self.source < other.source || self.source == other.source && self.outlet < other.outlet
    }

    /// The wire once a box has come in.
    fn raised(self, number: u32) -> Wire
        requires source { self.source < 4294967295 }
        requires sink { self.sink < 4294967295 }
        ensures { result ≡ raised_wire number self }
    {
        Wire {
            source: number_with(number, self.source),
            outlet: self.outlet,
            sink: number_with(number, self.sink),
            inlet: self.inlet,
        }
    }

    /// The wire once a box is gone that is at neither of its ends.
    fn lowered(self, number: u32) -> Wire
        ensures { result ≡ lowered_wire number self }
    {
        Wire {
            source: number_without(number, self.source),
            outlet: self.outlet,
            sink: number_without(number, self.sink),
            inlet: self.inlet,
        }
    }
}

/// The number of a box once another has come in.
fn number_with(new: u32, number: u32) -> u32
    requires { number < 4294967295 }
    ensures { result ≡ raised new number }
{
    if number < new { number } else { number + 1 }
}

/// The number of a box once another is gone.
fn number_without(gone: u32, number: u32) -> u32
    ensures { result ≡ lowered gone number }
{
    if gone < number { number - 1 } else { number }
}

/// The place of the first wire whose outlet comes later.
fn first_later(wire: Wire, wires: &[Wire]) -> Option<usize>
    ensures { result ≡ position (precedes wire) wires.now }
{
    wires.iter().position(|other| wire.precedes(*other))
}

/// The place at which a wire is last in its outlet's fan-out.
fn place_for(wire: Wire, wires: &[Wire]) -> usize
    ensures { result ≡ unwrap_or (position (precedes wire) wires.now) (length wires.now) }
{
    first_later(wire, wires).unwrap_or(wires.len())
}

/// The place of the first wire that is equal.
fn place_of(wire: Wire, wires: &[Wire]) -> Option<usize>
    ensures { result ≡ position (λ v. is_same v wire) wires.now }
{
    wires.iter().position(|other| *other == wire)
}

fn spare(wires: &mut Vec<Wire>, number: u32)
    ensures { wires.new.items ≡ filter (spares number) wires.old.items }
{
    wires.retain(|wire| wire.source != number && wire.sink != number);
}

fn lower_all(wires: &mut [Wire], number: u32)
    ensures { wires.new ≡ map (lowered_wire number) wires.old }
{
    for wire in wires.iter_mut() {
        *wire = wire.lowered(number);
    }
}

fn raise_all(wires: &mut [Wire], number: u32)
    requires { LeavesRoom wires.old }
    ensures { wires.new ≡ map (raised_wire number) wires.old }
{
    for wire in wires.iter_mut() {
        *wire = wire.raised(number);
    }
}

fn drop_box_from(wires: &mut Vec<Wire>, number: u32)
    ensures { wires.new.items ≡ without_box number wires.old.items }
{
    spare(wires, number);
    lower_all(wires, number);
}
