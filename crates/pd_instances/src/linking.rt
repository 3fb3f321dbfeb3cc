//! The wires of canvases that have come, for which the links get room.

ghost use Rattle.std.specs.Prelude.{◌≡◌, ◌≢◌, ◌<◌, ◌≤◌, ◌+◌, ◌*◌, ◌++◌, ◌∷◌, [], ℕ, List, map, drop, length, Some, None, slice_get, IsSome, IsTrue};
ghost use Rattle.std.specs.List.{AllZip, flat_map};
ghost use Rattle.slab.specs.Slab.{get, ContainsKey};
ghost use Rattle.pd_canvas.specs.declared.wires.Wire.{Wire};
ghost use Rattle.pd_links.specs.declared.opening.LinkRoom.{LinkRoom};
ghost use Rattle.pd_links.specs.Linked.{KeepsLinks, ReachesKeys};
ghost use Rattle.pd_grove.specs.Owning.{AreOwn};
ghost use Rattle.pd_grove.specs.Telling.{inner_in};
ghost use Rattle.pd_grove.specs.TextOrder.{keys_of_spots, keys_inside};
ghost use Rattle.pd_owning.specs.Bound.{is_among, AreNew};
ghost use Rattle.pd_web.specs.Canvases.{keys_at};
ghost use Rattle.pd_web.specs.Changes.{HasRoom};
ghost use Rattle.pd_web.specs.Jacks.{made_in};
ghost use Rattle.pd_web.specs.Lines.{wires_in};
ghost use Rattle.pd_web.specs.Sockets.{made_at};
ghost use Rattle.pd_ports.specs.Known.{HoldAlone};
ghost use Rattle.pd_patch.specs.Listing.{IsThere};
ghost use Rattle.pd_patch.specs.Numbers.{AreApart, IsOut};
ghost use Rattle.pd_placing.specs.Placing.{IsLoose};
ghost use Rattle.pd_wiring.specs.Graphs.{AreWired};
ghost use Rattle.pd_instances.specs.Lay.{AreNextRows, IsEmptyRoom, HasSpare, KeepsRow, LaysLines, OpensRows, TakesWires};
ghost use Rattle.pd_instances.specs.Needs.{inside_at, inside_with, wires_all, AreLinkRooms};
ghost use Rattle.pd_instances.specs.Part.{lines_inside, lines_of};

use crate::laying::lay_canvas;
use crate::spots::keys_inside_box;
use pd_grove::{Grove, Spot};
use pd_links::{LinkRoom, Links};
use pd_web::Web;
use std::collections::VecDeque;

/// Gives the boxes of the canvases that boxes hold, which have come, their room in the links. No memory is taken.
pub(crate) fn open_links(
    links: &mut Links,
    grove: &Grove,
    spots: &[Spot],
    rooms: &mut VecDeque<Vec<LinkRoom>>,
)
    requires own { AreOwn (get grove.now.nodes) (get grove.now.boards) }
    requires alone { HoldAlone grove.now }
    requires once { AreNew (keys_of_spots spots.now) [] }
    requires boards { (x c : ℕ) → IsTrue (is_among (keys_of_spots spots.now) x) → inner_in (get grove.now.nodes x) ≡ Some c → ContainsKey grove.now.boards c }
    requires rooms { AllZip AreLinkRooms (flat_map (inside_at grove.now) (keys_of_spots spots.now)) (map (λ v. v.items) rooms.old.items) }
    requires reach { (k : ℕ) → IsSome (get grove.now.nodes k) → ReachesKeys links.old (k + 1) }
    requires bare { (x c k : ℕ) → IsTrue (is_among (keys_of_spots spots.now) x) → inner_in (get grove.now.nodes x) ≡ Some c → IsThere (keys_at grove.now c) k → IsLoose links.old k }
    ensures keeps { KeepsLinks links.old links.new }
    ensures takes { (x c : ℕ) → IsTrue (is_among (keys_of_spots spots.now) x) → inner_in (get grove.now.nodes x) ≡ Some c → TakesWires links.new (keys_at grove.now c) (wires_in (get grove.now.boards c)) }
{
    for spot in spots {
        open_inside(links, grove, spot.node, rooms);
    }
}

/// Gives the boxes of the canvas that a box holds their room in the links, from the first of some rooms.
fn open_inside(links: &mut Links, grove: &Grove, key: u32, rooms: &mut VecDeque<Vec<LinkRoom>>)
    requires own { AreOwn (get grove.now.nodes) (get grove.now.boards) }
    requires board { (c : ℕ) → inner_in (get grove.now.nodes key) ≡ Some c → ContainsKey grove.now.boards c }
    requires room { AreNextRows (inside_at grove.now key) (map (λ v. v.items) rooms.old.items) }
    requires reach { (k : ℕ) → IsSome (get grove.now.nodes k) → ReachesKeys links.old (k + 1) }
    requires bare { (c k : ℕ) → inner_in (get grove.now.nodes key) ≡ Some c → IsThere (keys_at grove.now c) k → IsLoose links.old k }
    ensures keeps { KeepsLinks links.old links.new }
    ensures takes { (c : ℕ) → inner_in (get grove.now.nodes key) ≡ Some c → TakesWires links.new (keys_at grove.now c) (wires_in (get grove.now.boards c)) }
    ensures others { (c k : ℕ) → inner_in (get grove.now.nodes key) ≡ Some c → IsOut (keys_at grove.now c) k → KeepsRow links.old links.new k }
    ensures none { inner_in (get grove.now.nodes key) ≡ None → links.new ≡ links.old }
    ensures rest { rooms.new.items ≡ drop (length (inside_at grove.now key)) rooms.old.items }
{
    let Some(canvas) = grove.canvas_in(key) else {
        return;
    };
    open_next(links, keys_inside_box(grove, Some(canvas)), rooms);
}

/// Gives the boxes of a canvas their room in the links, from the first of some rooms.
fn open_next(links: &mut Links, keys: &[u32], rooms: &mut VecDeque<Vec<LinkRoom>>)
    requires apart { AreApart keys.now }
    requires room { (ws : List Wire) × AreNextRows (inside_with ws (length keys.now) ∷ []) (map (λ v. v.items) rooms.old.items) }
    requires reach { (n k : ℕ) → slice_get keys.now n ≡ Some k → ReachesKeys links.old (k + 1) }
    requires bare { (n k : ℕ) → slice_get keys.now n ≡ Some k → IsLoose links.old k }
    ensures keeps { KeepsLinks links.old links.new }
    ensures takes { (ws : List Wire) → AreNextRows (inside_with ws (length keys.now) ∷ []) (map (λ v. v.items) rooms.old.items) → TakesWires links.new keys.now ws }
    ensures others { (k : ℕ) → IsOut keys.now k → KeepsRow links.old links.new k }
    ensures rest { rooms.new.items ≡ drop 1 rooms.old.items }
{
    let Some(mut rows) = rooms.pop_front() else {
        unreachable!()
    };
    open_rows(links, keys, &mut rows);
}

/// Gives boxes, each of which has no links, their room in the links, from the last one to the first.
fn open_rows(links: &mut Links, keys: &[u32], rooms: &mut Vec<LinkRoom>)
    requires apart { AreApart keys.now }
    requires all { length rooms.old.items ≡ length keys.now }
    requires empty { (n : ℕ) (room : LinkRoom) → slice_get rooms.old.items n ≡ Some room → IsEmptyRoom room }
    requires reach { (n k : ℕ) → slice_get keys.now n ≡ Some k → ReachesKeys links.old (k + 1) }
    requires bare { (n k : ℕ) → slice_get keys.now n ≡ Some k → IsLoose links.old k }
    ensures { OpensRows links.old links.new keys.now rooms.old.items }
{
    let mut i = keys.len();
    while i > 0 {
        i -= 1;
        open_row(links, keys[i], rooms);
    }
}

/// Gives a box without links its room, the last of some rooms.
fn open_row(links: &mut Links, key: u32, rooms: &mut Vec<LinkRoom>)
    requires reach { ReachesKeys links.old (key + 1) }
    requires bare { IsLoose links.old key }
    requires last { (rest : List LinkRoom) × (room : LinkRoom) × (rooms.old.items ≡ rest ++ room ∷ []) × IsEmptyRoom room }
    ensures keeps { KeepsLinks links.old links.new }
    ensures opens { (rest : List LinkRoom) (room : LinkRoom) → rooms.old.items ≡ rest ++ room ∷ [] → HasSpare links.new key room }
    ensures rest { (rest : List LinkRoom) (room : LinkRoom) → rooms.old.items ≡ rest ++ room ∷ [] → rooms.new.items ≡ rest }
    ensures others { (k : ℕ) → k ≢ key → KeepsRow links.old links.new k }
{
    let Some(room) = rooms.pop() else {
        unreachable!()
    };
    links.open(key, room);
}

/// Lays the wires that fit of the canvases that boxes hold, which have come. No memory is taken.
pub(crate) fn lay_part(web: &mut Web, links: &mut Links, grove: &Grove, spots: &[Spot])
    requires alone { HoldAlone grove.now }
    requires once { AreNew (keys_of_spots spots.now) [] }
    requires wired { AreWired grove.now web.old links.old }
    requires made { (k : ℕ) → made_at web.old.sockets.items k ≡ made_in (get grove.now.nodes k) }
    requires room { let insides = flat_map (inside_at grove.now) (keys_of_spots spots.now) in HasRoom web.old 0 (2 * wires_all insides) (wires_all insides) }
    requires takes { (x c : ℕ) → IsTrue (is_among (keys_of_spots spots.now) x) → inner_in (get grove.now.nodes x) ≡ Some c → TakesWires links.old (keys_at grove.now c) (wires_in (get grove.now.boards c)) }
    ensures lays { LaysLines web.old web.new (lines_of grove.now (keys_of_spots spots.now)) }
    ensures wired { AreWired grove.now web.new links.new }
{
    for spot in spots {
        lay_inside(web, links, grove, spot.node);
    }
}

/// Lays the wires of the canvas that a box holds.
fn lay_inside(web: &mut Web, links: &mut Links, grove: &Grove, key: u32)
    requires wired { AreWired grove.now web.old links.old }
    requires made { (k : ℕ) → made_at web.old.sockets.items k ≡ made_in (get grove.now.nodes k) }
    requires room { HasRoom web.old 0 (2 * wires_all (inside_at grove.now key)) (wires_all (inside_at grove.now key)) }
    requires takes { (c : ℕ) → inner_in (get grove.now.nodes key) ≡ Some c → TakesWires links.old (keys_at grove.now c) (wires_in (get grove.now.boards c)) }
    ensures lays { LaysLines web.old web.new (lines_inside grove.now key) }
    ensures wired { AreWired grove.now web.new links.new }
    ensures others { (c k : ℕ) → inner_in (get grove.now.nodes key) ≡ Some c → IsOut (keys_at grove.now c) k → KeepsRow links.old links.new k }
    ensures none { inner_in (get grove.now.nodes key) ≡ None → links.new ≡ links.old }
{
    let Some(canvas) = grove.canvas_in(key) else {
        return;
    };
    lay_canvas(web, links, grove, canvas);
}
