//! A box that is made another one, and the wires at it that don't stay as they are.

ghost use Rattle.std.specs.Prelude.{◌≡◌, ◌≤◌, ℕ, length, Some, IfOk, OnOk, OnErr};
ghost use Rattle.slab.specs.Slab.{get, ContainsKey};
ghost use Rattle.pd_object.specs.Ports.{IsSmallKind};
ghost use Rattle.pd_grove.specs.declared.nodes.Node.{Node};
ghost use Rattle.pd_web.specs.Changes.{wires_told, Meet};
ghost use Rattle.pd_boxes.specs.Room.{SameButRoom};
ghost use Rattle.pd_boxes.specs.Put.{CanPut};
ghost use Rattle.pd_refitting.specs.Room.{TakesRefit};
ghost use Rattle.pd_misfits.specs.Misfits.{misfits, turning};
ghost use Rattle.pd_misfits.specs.Shedding.{AreWiresAt, IsWired};
ghost use Rattle.pd_turning.specs.Notes.{notes_of, FollowFans, StandOnce, TakesNotes};
ghost use Rattle.pd_turning.specs.Room.{TakesBack};
ghost use Rattle.pd_adding.specs.Coming.{own_zero};
ghost use Rattle.pd_retyping.specs.Becoming.{CanMake, MakesOther, Remakes};

use pd_atom::Symbols;
use pd_grove::{Grove, Seed};
use pd_kind::Kind;
use pd_misfits::{BoxWire, loosen_wires, misfits_at, turning_at};
use pd_order::Steps;
use pd_patch::Patch;
use pd_refitting::{RefitRoom, refit, reserve_refit};
use pd_turning::{NotedWire, note_wires, put_back, reserve_back};
use pd_web::Web;
use std::alloc::{AllocError, Global};
use std::sync::ledger::Ledger;

/// The wires at a box that don't stay as they are where it is of another kind: those that don't fit then, and those that fit, but become signal wires or
/// cease to be such.
#[derive(Drop)]
pub(crate) struct ChangedWires {
    pub gone: Vec<BoxWire>,
    pub turned: Vec<BoxWire>,
}

/// The wires at a live box that don't stay as they are where it is of a kind, in the order of the wires of its canvas.
///
/// # Errors
///
/// `AllocError` where memory ran out.
pub(crate) fn changed_wires(
    alloc: Global,
    patch: &Patch,
    key: u32,
    kind: &Kind,
) -> Result<ChangedWires, AllocError>
    requires small { IsSmallKind kind.now }
    requires can { CanPut patch.now }
    requires meet { Meet patch.now.web }
    requires here { ContainsKey patch.now.grove.nodes key }
    ensures gone { IfOk result (λ c. (n : Node) → get patch.now.grove.nodes key ≡ Some n → c.gone.items ≡ misfits patch.now n.board key kind.now) }
    ensures gone_wires { IfOk result (λ c. AreWiresAt patch.now.web key c.gone.items) }
    ensures turned { IfOk result (λ c. (n : Node) → get patch.now.grove.nodes key ≡ Some n → c.turned.items ≡ turning patch.now n.board key kind.now) }
    ensures turned_wires { IfOk result (λ c. AreWiresAt patch.now.web key c.turned.items) }
{
    let canvas = canvas_of(&patch.grove, key);
    let gone = misfits_at(alloc, patch, canvas, key, kind)?;
    let turned = turning_at(alloc, patch, canvas, key, kind)?;
    Ok(ChangedWires { gone, turned })
}

/// The key of the canvas in which a live box lies.
fn canvas_of(grove: &Grove, key: u32) -> u32
    requires { ContainsKey grove.now.nodes key }
    ensures { (n : Node) → get grove.now.nodes key ≡ Some n → result ≡ n.board }
{
    match grove.node(key) {
        Some(node) => node.board,
        None => 0,
    }
}

/// Makes the box of a key that of a seed. These wires at it don't stay as they are then: those that don't fit go, and those that turn are taken out and
/// come back. `wires` is how many wires there are, and what is given how many there are then. Looks at signal wires are counted in `steps`.
///
/// # Errors
///
/// `AllocError` where memory ran out, or where the name that the new box owns has as many owners, its canvas as many boxes in its order, or a
/// box as many signal wires as can be counted.
pub(crate) fn make_other<L: Ledger>(
    alloc: Global,
    patch: &mut Patch,
    key: u32,
    seed: Seed,
    changed: &ChangedWires,
    wires: usize,
    symbols: &mut Symbols,
    steps: &mut Steps<L>,
) -> Result<usize, AllocError>
    requires can { (n : Node) × CanMake patch.old key n seed changed.now.gone.items changed.now.turned.items }
    requires counted { wires ≡ wires_told patch.old.web }
    ensures made { OnOk result ((n : Node) → get patch.old.grove.nodes key ≡ Some n →
        MakesOther patch.old patch.new symbols.old key n seed changed.now.gone.items changed.now.turned.items steps.old steps.new) }
    ensures counted { IfOk result (λ left. left ≡ wires_told patch.new.web) }
    ensures short { OnErr result (SameButRoom patch.old patch.new) }
    ensures goes_on { CanPut patch.new }
    ensures meet { Meet patch.new.web }
    ensures fewer { wires_told patch.new.web ≤ wires_told patch.old.web }
    ensures as_many { OnErr result (wires_told patch.new.web ≡ wires_told patch.old.web) }
    ensures zero { own_zero patch.new ≡ own_zero patch.old }
    ensures table { symbols.new ≡ symbols.old }
    ensures no_looks { OnErr result (steps.new ≡ steps.old) }
{
    let gone = changed.gone.as_slice();
    let turned = changed.turned.as_slice();
    let room = reserve_refit(alloc, patch, key, seed, symbols)?;
    let notes = reserve_back(alloc, patch, turned)?;
    Ok(make_reserved(patch, room, gone, turned, notes, wires, symbols, steps))
}

/// Makes the box of a room that of its seed, where room is set aside for the notes and for the wires that turn too. No memory is taken.
fn make_reserved<L: Ledger>(
    patch: &mut Patch,
    room: RefitRoom,
    gone: &[BoxWire],
    turned: &[BoxWire],
    notes: Vec<NotedWire>,
    wires: usize,
    symbols: &mut Symbols,
    steps: &mut Steps<L>,
) -> usize
    requires can { (n : Node) × CanMake patch.old room.key n room.seed gone.now turned.now }
    requires room { TakesRefit patch.old room symbols.old }
    requires back { TakesBack patch.old turned.now }
    requires notes { TakesNotes notes (length turned.now) }
    requires counted { wires ≡ wires_told patch.old.web }
    ensures made { (n : Node) → get patch.old.grove.nodes room.key ≡ Some n →
        Remakes patch.old patch.new symbols.old room.key n room.seed gone.now turned.now steps.old steps.new }
    ensures counted { result ≡ wires_told patch.new.web }
    ensures goes_on { CanPut patch.new }
    ensures meet { Meet patch.new.web }
    ensures fewer { wires_told patch.new.web ≤ wires_told patch.old.web }
    ensures zero { own_zero patch.new ≡ own_zero patch.old }
    ensures table { symbols.new ≡ symbols.old }
{
    patch.web.laws();
    let key = room.key;
    let left = loosen_wires(patch, key, gone, wires, steps);
    let notes = note_turned(&patch.web, turned, notes);
    loosen_wires(patch, key, turned, left, steps);
    refit(patch, room, symbols, steps);
    put_back(patch, key, notes.as_slice(), steps);
    left
}

/// Notes for wires that turn, where those that don't fit are gone.
fn note_turned(web: &Web, turned: &[BoxWire], room: Vec<NotedWire>) -> Vec<NotedWire>
    requires room { TakesNotes room (length turned.now) }
    requires wires { (box : ℕ) × AreWiresAt web.now box turned.now }
    requires order { IsWired web.now → StandOnce web.now → FollowFans web.now turned.now }
    ensures notes { result.items ≡ notes_of web.now turned.now }
    ensures wired { IsWired web.now }
    ensures once { StandOnce web.now }
{
    web.laws();
    note_wires(web, turned, room)
}
