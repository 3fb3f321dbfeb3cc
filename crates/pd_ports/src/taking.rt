//! Ports that take the ends of those that are the same boxes.

ghost use Rattle.std.specs.Prelude.{◌≡◌, ◌≢◌, ◌<◌, ◌≤◌, ◌^◌, ℕ, [], Some, length, slice_get, vec_capacity};
ghost use Rattle.pd_web.specs.Sockets.{jacks_of};
ghost use Rattle.pd_web.specs.Homes.{inner_of};
ghost use Rattle.pd_ports.specs.Ends.{end_in};
ghost use Rattle.pd_ports.specs.Moves.{AreApart, AreOnce, Respots, end_of, is_box, moved_port, moved_ports};

use pd_grove::Side;
use pd_web::{Jack, Port, Spot};

/// Ports with the ends of the old ones that are the same boxes.
pub(crate) fn take_ports(old: &[Port], jacks: &[Jack], room: Vec<Port>) -> Vec<Port>
    requires once { AreOnce (jacks_of old.now) }
    requires empty { room.items ≡ [] }
    requires fits { length jacks.now ≤ vec_capacity room }
    ensures { result.items ≡ moved_ports old.now jacks.now }
{
    let mut list = room;
    for (i, jack) in jacks.iter().enumerate() {
        let port = moved(old, *jack, i + 1);
        list.push_reserved(port);
    }
    list
}

fn moved(old: &[Port], jack: Jack, behind: usize) -> Port
    requires { AreOnce (jacks_of old.now) }
    ensures { result ≡ moved_port old.now jack }
{
    Port {
        end: end_for(old, jack.inner, behind),
        jack,
    }
}

/// The end of the port that is a box. It is sought first around the place before `behind`, where it stands if at most one port came or
/// went.
fn end_for(old: &[Port], inner: Option<u32>, behind: usize) -> Option<u32>
    requires { AreOnce (jacks_of old.now) }
    ensures { result ≡ end_of old.now inner }
{
    if is_box_at(old, behind, inner) {
        return end_at(old, behind);
    }
    if behind > 0 && is_box_at(old, behind - 1, inner) {
        return end_at(old, behind - 1);
    }
    if behind > 1 && is_box_at(old, behind - 2, inner) {
        return end_at(old, behind - 2);
    }
    sought_end(old, inner)
}

fn sought_end(old: &[Port], inner: Option<u32>) -> Option<u32>
    ensures { result ≡ end_of old.now inner }
{
    for port in old {
        if is_same(port.jack.inner, inner) {
            return port.end;
        }
    }
    None
}

/// Whether the port at a place is a box.
fn is_box_at(ports: &[Port], i: usize, inner: Option<u32>) -> bool
    ensures { result ≡ is_box (inner_of ports.now i) inner }
{
    match ports.get(i) {
        Some(port) => is_same(port.jack.inner, inner),
        None => false,
    }
}

pub(crate) fn is_same(one: Option<u32>, other: Option<u32>) -> bool
    ensures { result ≡ is_box one other }
{
    let (Some(one), Some(other)) = (one, other) else {
        return false;
    };
    one == other
}

pub(crate) fn end_at(ports: &[Port], i: usize) -> Option<u32>
    ensures { result ≡ end_in ports.now i }
{
    match ports.get(i) {
        Some(port) => port.end,
        None => None,
    }
}

/// Writes of each end of these ports, which port it is.
pub(crate) fn write_spots(spots: &mut Vec<Spot>, ports: &[Port], side: Side, key: u32)
    requires apart { AreApart spots.old.items ports.now }
    requires few { length ports.now < 2 ^ 32 }
    ensures { Respots spots.old.items spots.new.items ports.now side key }
{
    for (i, port) in ports.iter().enumerate() {
        let spot = Spot {
            node: key,
            side,
            port: i as u32,
        };
        write_spot(spots, port.end, spot);
    }
}

fn write_spot(spots: &mut Vec<Spot>, end: Option<u32>, spot: Spot)
    requires { (e : ℕ) → end ≡ Some e → e < length spots.old.items }
    ensures told { (e : ℕ) → end ≡ Some e → slice_get spots.new.items e ≡ Some spot }
    ensures others { (e : ℕ) → (end ≡ Some e → ⊥) → slice_get spots.new.items e ≡ slice_get spots.old.items e }
    ensures len { length spots.new.items ≡ length spots.old.items }
{
    if let Some(end) = end {
        set_spot(spots, end as usize, spot);
    }
}

fn set_spot(spots: &mut Vec<Spot>, number: usize, spot: Spot)
    requires { number < length spots.old.items }
    ensures told { slice_get spots.new.items number ≡ Some spot }
    ensures others { (e : ℕ) → e ≢ number → slice_get spots.new.items e ≡ slice_get spots.old.items e }
    ensures len { length spots.new.items ≡ length spots.old.items }
{
    spots[number] = spot;
}
