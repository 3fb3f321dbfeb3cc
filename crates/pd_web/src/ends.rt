//! The ends of ports in the book of wires. A port has one from its first wire on.

ghost use Rattle.std.specs.Prelude.{◌≡◌, ◌≢◌, ◌<◌, ◌≤◌, ℕ, Some, slice_get, length, OnOk, IfOk, vec_len};
ghost use Rattle.pd_grove.specs.declared.ports.Side.{Side};
ghost use Rattle.pd_web.specs.declared.sockets.Sockets.{Sockets};
ghost use Rattle.pd_web.specs.declared.sockets.Spot.{Spot};
ghost use Rattle.pd_web.specs.Sockets.{AreTied, Gives, GivesIn, Grows, IsAt, IsThere, Keeps, Writes, end_at as end_told, side_ports};

use crate::sockets::{Sockets, Spot, port_at};
use pd_grove::Side;
use pd_wire::{End, WireBook};
use std::alloc::AllocError;

/// The end of a port, where it has one.
pub fn end_at(sockets: &[Sockets], spot: Spot) -> Option<End>
    ensures { result ≡ end_told sockets.now spot }
{
    let number = port_at(sockets, spot.side, spot.node, spot.port)?.end?;
    Some(End::of_number(number as usize))
}

/// The end of a port, made where it has none yet.
pub fn end_for(
    sockets: &mut [Sockets],
    spots: &mut Vec<Spot>,
    book: &mut WireBook,
    spot: Spot,
) -> Result<End, AllocError>
    requires there { IsThere sockets.old spot }
    requires tied { AreTied sockets.old spots.old.items book.old }
    ensures is { IfOk result (λ end. end_told sockets.new spot ≡ Some end) }
    ensures tied { OnOk result (AreTied sockets.new spots.new.items book.new) }
    ensures keeps { OnOk result (Keeps sockets.old sockets.new) }
    ensures grows { OnOk result (Grows spots.old.items spots.new.items book.old book.new) }
{
    if let Some(end) = end_at(sockets, spot) {
        return Ok(end);
    }
    let end = make_end(spots, book, spot)?;
    let Ok(number) = u32::try_from(end.number()) else {
        return Err(AllocError);
    };
    put_end(sockets, spot, number);
    Ok(end)
}

/// A new end, for a port.
fn make_end(spots: &mut Vec<Spot>, book: &mut WireBook, spot: Spot) -> Result<End, AllocError>
    ensures at { IfOk result (λ end. IsAt spots.new.items book.new end spot) }
    ensures grows { OnOk result (Grows spots.old.items spots.new.items book.old book.new) }
{
    book.reserve(1, 0)?;
    let end = book.make_end();
    put_spot(spots, end.number(), spot)?;
    Ok(end)
}

/// Writes which port an end is.
fn put_spot(spots: &mut Vec<Spot>, number: usize, spot: Spot) -> Result<(), AllocError>
    ensures { OnOk result (Writes spots.old.items spots.new.items number spot) }
{
    while spots.len() <= number {
        spots.push(spot)?;
    }
    spots[number] = spot;
    Ok(())
}

/// Writes which end a port has.
pub fn put_end(sockets: &mut [Sockets], spot: Spot, end: u32)
    requires { IsThere sockets.old spot }
    ensures { Gives sockets.old sockets.new spot end }
{
    let own = &mut sockets[spot.node as usize];
    put_end_in(own, spot.side, spot.port, end);
}

fn put_end_in(own: &mut Sockets, side: Side, port: u32, end: u32)
    requires { port < length (side_ports side own.old) }
    ensures { GivesIn own.old own.new side port end }
{
    let port = port as usize;
    match side {
        Side::Inlets => own.inlets[port].end = Some(end),
        Side::Outlets => own.outlets[port].end = Some(end),
    }
}
