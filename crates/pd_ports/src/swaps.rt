//! One box's ports exchanged for others.

ghost use Rattle.std.specs.Prelude.{◌≡◌, ◌≢◌, ◌<◌, ℕ, None, Some, length, slice_get};
ghost use Rattle.pd_grove.specs.declared.ports.Side.{Side};
ghost use Rattle.pd_web.specs.Sockets.{side_ports};
ghost use Rattle.pd_ports.specs.Boxes.{Puts};
ghost use Rattle.pd_ports.specs.Ends.{end_in};
ghost use Rattle.pd_ports.specs.Moves.{PutsIn, PutsSide};
ghost use Rattle.pd_ports.specs.Refits.{MovesEnds, Refits, jack_in};

use pd_grove::Side;
use pd_web::{Port, Sockets};
use std::mem;

/// Gives a box these ports, and gives back those that it had.
pub(crate) fn swap_sockets(sockets: &mut Vec<Sockets>, key: u32, own: Sockets) -> Sockets
    requires { key < length sockets.old.items }
    ensures puts { Puts sockets.old.items sockets.new.items key own }
    ensures was { slice_get sockets.old.items key ≡ Some result }
{
    mem::replace(&mut sockets[key as usize], own)
}

/// Gives a side of a box these ports.
pub(crate) fn put_side(sockets: &mut Vec<Sockets>, key: u32, side: Side, ports: Vec<Port>)
    requires { key < length sockets.old.items }
    ensures { PutsSide sockets.old.items sockets.new.items key side ports.items }
{
    put_side_in(&mut sockets[key as usize], side, ports);
}

fn put_side_in(own: &mut Sockets, side: Side, ports: Vec<Port>)
    ensures { PutsIn own.old own.new side ports.items }
{
    match side {
        Side::Inlets => own.inlets = ports,
        Side::Outlets => own.outlets = ports,
    }
}

/// Gives a box these ports, which take the ends of those that it had under their numbers, and gives back those, with the ends that are left.
pub(crate) fn swap_keeping(sockets: &mut Vec<Sockets>, key: u32, own: Sockets) -> Sockets
    requires here { key < length sockets.old.items }
    requires loose { (side : Side) (i : ℕ) → end_in (side_ports side own) i ≡ None }
    ensures { Refits sockets.old.items sockets.new.items key own result }
{
    let mut own = own;
    move_ends(&mut own, &mut sockets[key as usize]);
    swap_sockets(sockets, key, own)
}

fn move_ends(own: &mut Sockets, old: &mut Sockets)
    requires loose { (side : Side) (i : ℕ) → end_in (side_ports side own.old) i ≡ None }
    ensures moves { (side : Side) → MovesEnds (side_ports side old.old) (side_ports side own.old) (side_ports side old.new) (side_ports side own.new) }
    ensures made { own.new.is_made ≡ own.old.is_made }
{
    move_side(own.inlets.as_mut_slice(), old.inlets.as_mut_slice());
    move_side(own.outlets.as_mut_slice(), old.outlets.as_mut_slice());
}

fn move_side(own: &mut [Port], old: &mut [Port])
    requires loose { (i : ℕ) → end_in own.old i ≡ None }
    ensures { MovesEnds old.old own.old old.new own.new }
{
    for i in 0..own.len().min(old.len()) {
        move_end(own, old, i);
    }
}

fn move_end(own: &mut [Port], old: &mut [Port], i: usize)
    requires here { i < length own.old }
    requires there { i < length old.old }
    ensures taken { end_in own.new i ≡ end_in old.old i }
    ensures left { end_in old.new i ≡ None }
    ensures others { (j : ℕ) → j ≢ i → slice_get own.new j ≡ slice_get own.old j }
    ensures old_others { (j : ℕ) → j ≢ i → slice_get old.new j ≡ slice_get old.old j }
    ensures jack { jack_in own.new i ≡ jack_in own.old i }
    ensures old_jack { jack_in old.new i ≡ jack_in old.old i }
    ensures len { length own.new ≡ length own.old }
    ensures old_len { length old.new ≡ length old.old }
{
    let end = old[i].end;
    put_end(old, i, None);
    put_end(own, i, end);
}

fn put_end(ports: &mut [Port], i: usize, end: Option<u32>)
    requires { i < length ports.old }
    ensures end { end_in ports.new i ≡ end }
    ensures jack { jack_in ports.new i ≡ jack_in ports.old i }
    ensures others { (j : ℕ) → j ≢ i → slice_get ports.new j ≡ slice_get ports.old j }
    ensures len { length ports.new ≡ length ports.old }
{
    let jack = ports[i].jack;
    ports[i] = Port { end, jack };
}
