//! Boxes that need nothing of another box, and `tabread~`.

ghost use Rattle.std.specs.Prelude.{◌≡◌, ◌↔◌, ◌∷◌, [], ℕ, true, Some, IsSome, slice_index_or};
ghost use Rattle.slab.specs.Slab.{get};
ghost use Rattle.pd_grove.specs.Telling.{kind_in, state_in};
ghost use Rattle.pd_patch.specs.Values.{blocks_told};
ghost use Rattle.pd_patch.specs.Walking.{table_named};
ghost use Rattle.pd_kind.specs.States.{silent_block};
ghost use Rattle.pd_turn.specs.Sizes.{few_of};
ghost use Rattle.pd_turn.specs.Rows.{is_osc as is_oscillator, ran};
ghost use Rattle.pd_block.specs.Nets.{net_of, sound_of, states_of, kind_at};
ghost use Rattle.pd_block.specs.Given.{AreBrought, IsUnfed, is_osc_in, held_blocks, few_brought, given_at, box_given, few_given};
ghost use Rattle.pd_block.specs.Blocks.{own_by, table_by, table_in, table_with, table_told, values_in};

use crate::inlets::take_inlets;
use crate::room::{put_outlet, silence_outlet};
use pd_atom::Sym;
use pd_clock::Time;
use pd_grove::Node;
use pd_kind::{Kind, State};
use pd_num::{Num, Sig};
use pd_patch::Patch;
use pd_turn::{few_ports, is_osc, table_name};

/// A box that needs nothing of another box runs. It stays in its place meanwhile.
pub(crate) fn run_own(
    patch: &mut Patch,
    node: u32,
    start: Time,
    ins: &mut [[Sig; 64]; 2],
    outs: &mut [[Sig; 64]; 1],
)
    ensures net { net_of patch.new ≡ net_of patch.old }
    ensures sound { sound_of patch.new ≡ own_by (net_of patch.old) start (sound_of patch.old) node (kind_at (net_of patch.old) node) (states_of patch.old node) }
{
    if is_unfed(patch, node) {
        silence_outlet(outs);
        run_unfed(patch, node, outs);
        put_outlet(patch, node, outs);
    } else if bring(patch, node, ins) {
        silence_outlet(outs);
        run_lent(patch, node, start, ins, outs);
        put_outlet(patch, node, outs);
    }
}

/// Whether a box is an `osc~` that has what it keeps, and that no wire feeds.
fn is_unfed(patch: &Patch, node: u32) -> bool
    ensures { result ≡ true → IsUnfed patch.now.web node (get patch.now.grove.nodes node) }
{
    match patch.node(node) {
        Some(found) => is_unfed_box(patch, node, found),
        None => false,
    }
}

fn is_unfed_box(patch: &Patch, node: u32, found: &Node) -> bool
    ensures { result ≡ true → IsUnfed patch.now.web node (Some found.now) }
{
    is_osc(&found.kind) && found.state.is_some() && patch.feed_first(node, 0).is_none()
}

/// An `osc~` runs at the frequency that its inlet holds, where it stands.
fn run_unfed(patch: &mut Patch, node: u32, outs: &mut [[Sig; 64]; 1])
    requires osc { is_osc_in (get patch.old.grove.nodes node) ≡ true }
    requires silent { outs.old ≡ silent_block ∷ [] }
    ensures net { net_of patch.new ≡ net_of patch.old }
    ensures values { patch.new.values ≡ patch.old.values }
    ensures ran { (start : ℕ) → record { states = states_of patch.new; block = slice_index_or outs.new 0 silent_block }
        ≡ given_at start (states_of patch.old) node (get patch.old.grove.nodes node) (held_blocks (states_of patch.old node)) }
{
    match patch.node_mut(node) {
        Some(found) => run_unfed_box(found, outs),
        None => {}
    }
}

fn run_unfed_box(found: &mut Node, outs: &mut [[Sig; 64]; 1])
    requires osc { is_oscillator found.old.kind ≡ true }
    requires silent { outs.old ≡ silent_block ∷ [] }
    ensures { (start : ℕ) → record { node = found.new; block = slice_index_or outs.new 0 silent_block } ≡ box_given start found.old (held_blocks found.old.state) }
{
    if let Some(state) = &mut found.state {
        pd_turn::run_unfed(&found.kind, state, outs);
    }
}

/// What comes to the inlets of a box; whether it has what it keeps.
fn bring(patch: &Patch, node: u32, ins: &mut [[Sig; 64]; 2]) -> bool
    ensures there { (result ≡ true) ↔ IsSome (state_in (get patch.now.grove.nodes node)) }
    ensures brought { AreBrought patch.now.web (blocks_told patch.now) node (get patch.now.grove.nodes node) ins.new }
{
    match patch.node(node) {
        Some(found) => bring_box(patch, node, found, ins),
        None => false,
    }
}

fn bring_box(patch: &Patch, node: u32, found: &Node, ins: &mut [[Sig; 64]; 2]) -> bool
    ensures there { (result ≡ true) ↔ IsSome found.now.state }
    ensures brought { AreBrought patch.now.web (blocks_told patch.now) node (Some found.now) ins.new }
{
    match &found.state {
        Some(state) => {
            bring_few(patch, node, &found.kind, state, ins);
            true
        }
        None => false,
    }
}

fn bring_few(patch: &Patch, node: u32, kind: &Kind, state: &State, ins: &mut [[Sig; 64]; 2])
    ensures { few_brought patch.now.web (blocks_told patch.now) node state.now (few_of kind.now) ins.new }
{
    if let Some(few) = few_ports(kind) {
        take_inlets(patch, node, few.inlets, state, ins);
    }
}

/// A box runs with what came to its inlets, where it stands.
fn run_lent(
    patch: &mut Patch,
    node: u32,
    start: Time,
    ins: &[[Sig; 64]; 2],
    outs: &mut [[Sig; 64]; 1],
)
    requires silent { outs.old ≡ silent_block ∷ [] }
    ensures net { net_of patch.new ≡ net_of patch.old }
    ensures values { patch.new.values ≡ patch.old.values }
    ensures ran { record { states = states_of patch.new; block = slice_index_or outs.new 0 silent_block } ≡ given_at start (states_of patch.old) node (get patch.old.grove.nodes node) ins.now }
{
    match patch.node_mut(node) {
        Some(found) => run_box(found, start, ins, outs),
        None => {}
    }
}

fn run_box(found: &mut Node, start: Time, ins: &[[Sig; 64]; 2], outs: &mut [[Sig; 64]; 1])
    requires { outs.old ≡ silent_block ∷ [] }
    ensures { record { node = found.new; block = slice_index_or outs.new 0 silent_block } ≡ box_given start found.old ins.now }
{
    if let Some(state) = &mut found.state {
        run_kind(&found.kind, state, start, ins, outs);
    }
}

fn run_kind(
    kind: &Kind,
    state: &mut State,
    start: Time,
    ins: &[[Sig; 64]; 2],
    outs: &mut [[Sig; 64]; 1],
)
    requires { outs.old ≡ silent_block ∷ [] }
    ensures { ran state.new outs.new ≡ few_given start kind.now state.old (few_of kind.now) ins.now }
{
    if let Some(few) = few_ports(kind) {
        pd_turn::run_own(kind, few, state, start, ins, outs);
    }
}

/// A `tabread~` runs.
#[tactic(auto, using(crate::proofs::NetLemmas::net_left))]
pub(crate) fn run_table(
    patch: &mut Patch,
    node: u32,
    ins: &mut [[Sig; 64]; 2],
    outs: &mut [[Sig; 64]; 1],
)
    ensures net { net_of patch.new ≡ net_of patch.old }
    ensures sound { sound_of patch.new ≡ table_by (net_of patch.old) (sound_of patch.old) node (kind_at (net_of patch.old) node) (states_of patch.old node) }
{
    if !patch.has_state(node) {
        return;
    }
    let mut state = patch.take_state(node);
    read_table(patch, node, &mut state, ins, outs);
    patch.put_state(node, state);
    put_outlet(patch, node, outs);
}

fn read_table(
    patch: &Patch,
    node: u32,
    state: &mut State,
    ins: &mut [[Sig; 64]; 2],
    outs: &mut [[Sig; 64]; 1],
)
    ensures { ran state.new outs.new ≡ table_in patch.now.web (blocks_told patch.now) node (kind_in (get patch.now.grove.nodes node)) state.old (table_told patch.now (kind_in (get patch.now.grove.nodes node))) }
{
    silence_outlet(outs);
    if let Some(found) = patch.node(node) {
        look_up(patch, node, &found.kind, state, ins, outs);
    }
}

fn look_up(
    patch: &Patch,
    node: u32,
    kind: &Kind,
    state: &mut State,
    ins: &mut [[Sig; 64]; 2],
    outs: &mut [[Sig; 64]; 1],
)
    requires { outs.old ≡ silent_block ∷ [] }
    ensures { ran state.new outs.new ≡ table_with patch.now.web (blocks_told patch.now) node kind.now state.old (table_told patch.now (Some kind.now)) (few_of kind.now) }
{
    if let Some(few) = few_ports(kind) {
        take_inlets(patch, node, few.inlets, state, ins);
        let table = table_for(patch, kind);
        pd_turn::run_table(kind, few, state, table, ins, outs);
    }
}

/// The values of the table that a `tabread~` names; none where there is no such table.
fn table_for<'a>(patch: &'a Patch, kind: &Kind) -> &'a [Num]
    ensures { result.now ≡ table_told patch.now (Some kind.now) }
{
    match table_name(kind) {
        Some(name) => named_table(patch, name),
        None => &[],
    }
}

fn named_table(patch: &Patch, name: Sym) -> &[Num]
    ensures { result.now ≡ values_in (table_named patch.now name) }
{
    match patch.table_of(name) {
        Some(values) => values,
        None => &[],
    }
}
