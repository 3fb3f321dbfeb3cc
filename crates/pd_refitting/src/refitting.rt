//! A box becomes another one, layer by layer.

ghost use Rattle.std.specs.Prelude.{◌≡◌, ◌≤◌, ◌+◌, ◌∷◌, ℕ, List, Option, Some, None, slice_get};
ghost use Rattle.slab.specs.Slab.{get, ContainsKey};
ghost use Rattle.pd_bind.specs.Naming.{Owned};
ghost use Rattle.pd_bind.specs.Owning.{owned_at, root_owner};
ghost use Rattle.pd_owning.specs.Bound.{AreOwnersBut, HasRoom, OthersStay};
ghost use Rattle.pd_grove.specs.declared.nodes.Node.{Node};
ghost use Rattle.pd_grove.specs.Forest.{IsForest};
ghost use Rattle.pd_grove.specs.TextOrder.{spots_in_order};
ghost use Rattle.pd_web.specs.Changes.{KeepsRoom};
ghost use Rattle.pd_boxes.specs.Put.{node_of};
ghost use Rattle.pd_refitting.specs.Refits.{Becomes, CanRefit, IsRefitted, refit_looks};
ghost use Rattle.pd_refitting.specs.Room.{TakesRefit};

use crate::ordering::{join_order, keeps_place, leave_order};
use crate::room::RefitRoom;
use pd_atom::Symbols;
use pd_boxes::put_blocks;
use pd_grove::{Grove, Node, Seed, Spot};
use pd_name::Names;
use pd_order::Steps;
use pd_owning::{bind_box, name_at, spot_at};
use pd_patch::Patch;
use pd_ports::refit_box;
use std::sync::ledger::Ledger;

/// Makes the box of a key, for which room was set aside, that of the room's seed, under its key and number, with its wires. No memory is
/// taken. Looks at signal wires are counted in `steps`.
pub fn refit<L: Ledger>(
    patch: &mut Patch,
    room: RefitRoom,
    symbols: &mut Symbols,
    steps: &mut Steps<L>,
)
    requires can { (n : Node) × CanRefit patch.old room.key n room.seed }
    requires room { TakesRefit patch.old room symbols.old }
    ensures refitted { (n : Node) → get patch.old.grove.nodes room.key ≡ Some n → IsRefitted patch.old patch.new symbols.old room.key n room.seed }
    ensures table { symbols.new ≡ symbols.old }
    ensures room { KeepsRoom patch.old.web patch.new.web }
    ensures looks { (n : Node) → get patch.old.grove.nodes room.key ≡ Some n → steps.new ≤ steps.old + refit_looks n.kind room.seed.row.kind }
{
    let RefitRoom {
        key,
        seed,
        ports,
        blocks,
    } = room;
    let canvas = canvas_of(&patch.grove, key);
    let spot = spot_at(&patch.grove, key);
    let stays = keeps_place(&patch.grove, key, &seed.row.kind);
    leave_order(
        &mut patch.orders,
        &patch.grove,
        &patch.links,
        canvas,
        key,
        stays,
    );
    unbind(&mut patch.names, &patch.grove, spot, symbols);
    patch.timers.clear(key);
    become_other(&mut patch.grove, key, seed);
    refit_box(&mut patch.web, &patch.grove, key, ports);
    bind_box(&mut patch.names, &patch.grove, spot, symbols);
    put_blocks(&mut patch.values, key, blocks);
    join_order(
        &mut patch.orders,
        &patch.grove,
        &patch.links,
        canvas,
        key,
        stays,
        steps,
    );
}

/// The key of the canvas in which a live box lies.
pub(crate) fn canvas_of(grove: &Grove, key: u32) -> u32
    requires { ContainsKey grove.now.nodes key }
    ensures { (n : Node) → get grove.now.nodes key ≡ Some n → result ≡ n.board }
{
    match grove.node(key) {
        Some(node) => node.board,
        None => 0,
    }
}

/// Unbinds the box at a place of text order from the name that it owns, if it owns one. There is as much room for owners as there was.
fn unbind(names: &mut Names, grove: &Grove, spot: Spot, symbols: &mut Symbols)
    requires forest { IsForest (get grove.now.nodes) (get grove.now.boards) grove.now.root }
    requires apart { get grove.now.nodes root_owner ≡ None }
    requires here { (i : ℕ) × (slice_get (spots_in_order grove.now) i ≡ Some spot) }
    ensures unbinds { (file away : List ℕ) → AreOwnersBut names.old symbols.old file grove.now away →
        AreOwnersBut names.new symbols.old file grove.now (spot.node ∷ away) }
    ensures others { OthersStay names.old names.new (owned_at symbols.old (get grove.now.nodes) spot) }
    ensures room { (o : Option Owned) (n : ℕ) → HasRoom names.old o n → HasRoom names.new o n }
    ensures table { symbols.new ≡ symbols.old }
{
    if let Some(owned) = name_at(grove, spot, symbols) {
        names.unbind(owned.0, owned.1, spot.node);
    }
}

/// Makes a live box that of a seed, in its canvas.
fn become_other(grove: &mut Grove, key: u32, seed: Seed)
    requires { ContainsKey grove.old.nodes key }
    ensures { (n : Node) → get grove.old.nodes key ≡ Some n → n.inner ≡ None → Becomes grove.old grove.new key (node_of n.board seed) }
{
    match grove.node_mut(key) {
        Some(found) => make_other(found, seed),
        None => {}
    }
}

/// Makes a box that of a seed, in its canvas.
fn make_other(found: &mut Node, seed: Seed)
    ensures { found.old.inner ≡ None → found.new ≡ node_of found.old.board seed }
{
    let row = seed.row;
    found.element = row.element;
    found.text = row.text;
    found.kind = row.kind;
    found.fault = row.fault;
    found.state = Some(seed.state);
}
