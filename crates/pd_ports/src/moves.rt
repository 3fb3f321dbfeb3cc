//! The ports on a side of a box that holds a canvas become others, and the wires of each go with its port box.

ghost use Rattle.std.specs.Prelude.{◌≡◌, ◌+◌, ◌<◌, ◌≤◌, ◌^◌, ℕ, [], Some, length, slice_get, vec_capacity};
ghost use Rattle.pd_web.specs.Sockets.{ports_at};
ghost use Rattle.pd_web.specs.Homes.{inner_in};
ghost use Rattle.pd_web.specs.Hops.{ports_told};
ghost use Rattle.pd_web.specs.Changes.{HasRoom, KeepsRoom, Meet, wires_told};
ghost use Rattle.pd_ports.specs.Moves.{AreOnce, FollowsPorts, Goes, KnowsSide, keys_at};

use crate::ends::drop_left;
use crate::homes::{forget_side, know_side};
use crate::swaps::put_side;
use crate::taking::{take_ports, write_spots};
use pd_grove::Side;
use pd_web::{Jack, Port, Sockets, Web};

/// Gives a side of a box these ports, in an empty list that has room for them. A port that is the same box as one before keeps that one's
/// end, so its wires go with it. No memory is taken.
pub fn set_ports(web: &mut Web, key: u32, side: Side, jacks: &[Jack], room: Vec<Port>)
    requires here { HasRoom web.old (key + 1) 0 0 }
    requires near { (m j : ℕ) → inner_in (slice_get jacks.now m) ≡ Some j → HasRoom web.old (j + 1) 0 0 }
    requires empty { room.items ≡ [] }
    requires fits { length jacks.now ≤ vec_capacity room }
    requires few { length jacks.now < 2 ^ 32 }
    requires once { AreOnce jacks.now }
    requires once_before { AreOnce (ports_told web.old side key) }
    requires meet { Meet web.old }
    requires gone { (i : ℕ) → ((m : ℕ) → Goes (ports_told web.old side key) jacks.now i m → ⊥) → keys_at web.old side key i ≡ [] }
    ensures follows { FollowsPorts web.old web.new key side jacks.now }
    ensures meet { Meet web.new }
    ensures homes { KnowsSide web.old web.new key side jacks.now }
    ensures as_many { wires_told web.new ≡ wires_told web.old }
    ensures room { KeepsRoom web.old web.new }
{
    web.book.laws();
    let sockets = web.sockets.as_slice();
    let old = side_at(sockets, side, key);
    let list = take_ports(old, jacks, room);
    let new = list.as_slice();
    write_spots(&mut web.spots, new, side, key);
    let spots = web.spots.as_slice();
    drop_left(&mut web.book, spots, old, new);
    forget_side(&mut web.homes, old, key);
    know_side(&mut web.homes, new, side, key);
    put_side(&mut web.sockets, key, side, list);
    web.laws();
}

/// The ports on a side of a box.
fn side_at(sockets: &[Sockets], side: Side, key: u32) -> &[Port]
    requires { key < length sockets.now }
    ensures { result.now ≡ ports_at sockets.now side key }
{
    sockets[key as usize].ports(side)
}
