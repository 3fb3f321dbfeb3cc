//! Where wires stand in their fan-outs, noted for the time when they are out.

ghost use Rattle.std.specs.Prelude.{◌≡◌, ◌<◌, ◌+◌, ◌-◌, ◌++◌, ◌∷◌, ℕ, true, false, [], Some, drop, length, reverse, slice_get, vec_len, vec_capacity};
ghost use Rattle.pd_web.specs.Hops.{fan_hops, fan_keys};
ghost use Rattle.pd_web.specs.Changes.{hop_at};
ghost use Rattle.pd_wiring.specs.Changes.{LeadsAlong};
ghost use Rattle.pd_misfits.specs.declared.wires.BoxWire.{BoxWire};
ghost use Rattle.pd_misfits.specs.Shedding.{AreWiresAt, IsWired};
ghost use Rattle.pd_turning.specs.declared.noting.NotedWire.{NotedWire as NotedWireSo};
ghost use Rattle.pd_turning.specs.Notes.{first_left, hops_behind, notes_of, FollowFans, StandOnce, TakesNotes};

use pd_misfits::BoxWire;
use pd_web::{Line, Web};
use pd_wire::WireKey;

/// Along which line a wire leads, and before which wire it stands in its fan-out; `None` where none but such as are taken out with it stand behind it.
#[derive(Clone, Copy, Debug, PartialEq, Eq)]
pub struct NotedWire {
    pub line: Line,
    pub before: Option<WireKey>,
}

/// Notes for each of these wires at a box, which are in the order of their outlets and fan-outs, the first wire behind it in its fan-out that is none of
/// them. The list has room for the notes.
pub fn note_wires(web: &Web, wires: &[BoxWire], room: Vec<NotedWire>) -> Vec<NotedWire>
    requires room { TakesNotes room (length wires.now) }
    requires wires { (box : ℕ) × AreWiresAt web.now box wires.now }
    requires order { FollowFans web.now wires.now }
    ensures notes { result.items ≡ notes_of web.now wires.now }
    ensures wired { IsWired web.now }
    ensures once { StandOnce web.now }
{
    web.laws();
    let mut notes = room;
    let mut i = wires.len();
    while i > 0 {
        i -= 1;
        add_note(web, wires, i, &mut notes);
    }
    notes.as_mut_slice().reverse();
    notes
}

/// The note for the wire at a place, behind those for the wires behind it.
fn add_note(web: &Web, wires: &[BoxWire], place: usize, notes: &mut Vec<NotedWire>)
    requires within { place < length wires.now }
    requires wires { (box : ℕ) × AreWiresAt web.now box wires.now }
    requires order { FollowFans web.now wires.now }
    requires noted { notes.old.items ≡ reverse (drop (place + 1) (notes_of web.now wires.now)) }
    requires room { vec_len notes.old < vec_capacity notes.old }
    ensures noted { notes.new.items ≡ reverse (drop place (notes_of web.now wires.now)) }
    ensures kept { vec_capacity notes.new ≡ vec_capacity notes.old }
{
    let later = last_before(notes.as_slice());
    let before = before_of(web, wires, place, later);
    note(notes, wires[place].line, before);
}

/// What the last note says.
fn last_before(notes: &[NotedWire]) -> Option<WireKey>
    ensures { (x : NotedWireSo) → slice_get notes.now (length notes.now - 1) ≡ Some x → result ≡ x.before }
{
    match notes.last() {
        Some(note) => note.before,
        None => None,
    }
}

fn note(notes: &mut Vec<NotedWire>, line: Line, before: Option<WireKey>)
    requires { vec_len notes.old < vec_capacity notes.old }
    ensures told { notes.new.items ≡ notes.old.items ++ record { line = line; before = before } ∷ [] }
    ensures kept { vec_capacity notes.new ≡ vec_capacity notes.old }
{
    notes.push_reserved(NotedWire { line, before });
}

/// The first wire behind the one at a place that is none of them, where `later` is the first such one behind the next of them.
fn before_of(web: &Web, wires: &[BoxWire], place: usize, later: Option<WireKey>) -> Option<WireKey>
    requires within { place < length wires.now }
    requires wires { (box : ℕ) × AreWiresAt web.now box wires.now }
    requires order { FollowFans web.now wires.now }
    requires later { (n : BoxWire) → slice_get wires.now (place + 1) ≡ Some n → later ≡ first_left wires.now (hops_behind web.now n) }
    ensures { (m : BoxWire) → slice_get wires.now place ≡ Some m → result ≡ first_left wires.now (hops_behind web.now m) }
{
    web.laws();
    let Some(next) = key_behind(web, wires[place]) else {
        return None;
    };
    if is_key_at(wires, place + 1, next) {
        return later;
    }
    Some(next)
}

/// The wire behind this one in its fan-out.
fn key_behind(web: &Web, wire: BoxWire) -> Option<WireKey>
    requires { LeadsAlong web.now wire.key wire.line }
    ensures { (i : ℕ) → slice_get (fan_hops web.now wire.line.source wire.line.outlet) i ≡ Some (hop_at wire.key wire.line.sink wire.line.inlet) →
        result ≡ slice_get (fan_keys web.now wire.line.source wire.line.outlet) (i + 1) }
{
    web.book.laws();
    web.book.fan_next(wire.key)
}

/// Whether the wire at a place has the key.
fn is_key_at(wires: &[BoxWire], place: usize, key: WireKey) -> bool
    ensures yes { result ≡ true → (n : BoxWire) × (slice_get wires.now place ≡ Some n) × (n.key ≡ key) }
    ensures no { result ≡ false → (n : BoxWire) → slice_get wires.now place ≡ Some n → n.key ≡ key → ⊥ }
{
    if place < wires.len() {
        return wires[place].key == key;
    }
    false
}
