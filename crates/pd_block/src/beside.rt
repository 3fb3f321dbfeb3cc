//! Boxes that look at another box's values: `receive~`, `throw~` and `delread~`.

ghost use Rattle.std.specs.Prelude.{◌≡◌, ◌∷◌, []};
ghost use Rattle.slab.specs.Slab.{get};
ghost use Rattle.pd_grove.specs.Telling.{kind_in};
ghost use Rattle.pd_patch.specs.Values.{blocks_told};
ghost use Rattle.pd_kind.specs.States.{silent_block};
ghost use Rattle.pd_turn.specs.Sizes.{few_of};
ghost use Rattle.pd_turn.specs.Rows.{ran};
ghost use Rattle.pd_block.specs.Nets.{net_of, sound_of, states_of, kind_at};
ghost use Rattle.pd_block.specs.Blocks.{first_owner as owner_named, owner_of, owner_in, pair_in, pair_few, alone_in, alone_few, aside_by, aside_owner, beside_by};

use crate::inlets::take_inlets;
use crate::room::{put_outlet, silence_outlet};
use pd_atom::Sym;
use pd_kind::{Kind, Signal, State};
use pd_name::Class;
use pd_num::Sig;
use pd_patch::Patch;
use pd_turn::{few_ports, run_silent, start_line};

/// A box runs that looks at the values of the first box of its name.
pub(crate) fn run_beside(
    patch: &mut Patch,
    node: u32,
    ins: &mut [[Sig; 64]; 2],
    outs: &mut [[Sig; 64]; 1],
)
    ensures net { net_of patch.new ≡ net_of patch.old }
    ensures sound { sound_of patch.new ≡ beside_by (net_of patch.old) (sound_of patch.old) node (kind_at (net_of patch.old) node) (states_of patch.old node) }
{
    if !patch.has_state(node) {
        return;
    }
    let mut state = patch.take_state(node);
    run_taken(patch, node, &mut state, ins, outs);
    patch.put_state(node, state);
    put_outlet(patch, node, outs);
}

fn run_taken(
    patch: &mut Patch,
    node: u32,
    state: &mut State,
    ins: &mut [[Sig; 64]; 2],
    outs: &mut [[Sig; 64]; 1],
)
    ensures net { net_of patch.new ≡ net_of patch.old }
    ensures aside { record { ran = ran state.new outs.new; sound = sound_of patch.new } ≡ aside_by (net_of patch.old) (sound_of patch.old) node (kind_at (net_of patch.old) node) state.old }
{
    match owner_for(patch, node) {
        Some(owner) => run_owned(patch, node, owner, state, ins, outs),
        None => run_alone(patch, node, state, ins, outs),
    }
}

/// The first box of the name that a box looks for.
fn owner_for(patch: &Patch, node: u32) -> Option<u32>
    ensures { result ≡ owner_in patch.now.names (kind_in (get patch.now.grove.nodes node)) }
{
    first_named(patch, &patch.node(node)?.kind)
}

fn first_named(patch: &Patch, kind: &Kind) -> Option<u32>
    ensures { result ≡ owner_of patch.now.names kind.now }
{
    match kind {
        Kind::Signal(Signal::Receive { name, .. }) => first_owner(patch, Class::Bus, *name),
        Kind::Signal(Signal::Throw { name }) => first_owner(patch, Class::Catch, *name),
        Kind::Signal(Signal::Delread { name, .. }) => first_owner(patch, Class::Delay, *name),
        _ => None,
    }
}

fn first_owner(patch: &Patch, class: Class, name: Option<Sym>) -> Option<u32>
    ensures { result ≡ owner_named patch.now.names class name }
{
    patch.owners(class, name?).first().copied()
}

/// Runs beside a box, where what that keeps is in.
#[tactic(auto, using(crate::proofs::NetLemmas::keeps_net))]
fn run_owned(
    patch: &mut Patch,
    node: u32,
    owner: u32,
    state: &mut State,
    ins: &mut [[Sig; 64]; 2],
    outs: &mut [[Sig; 64]; 1],
)
    ensures net { net_of patch.new ≡ net_of patch.old }
    ensures aside { record { ran = ran state.new outs.new; sound = sound_of patch.new } ≡ aside_owner patch.old.web (sound_of patch.old) node (kind_at (net_of patch.old) node) state.old owner (states_of patch.old owner) }
{
    if !patch.has_state(owner) {
        run_alone(patch, node, state, ins, outs);
        return;
    }
    let mut other = patch.take_state(owner);
    run_pair(patch, node, state, &mut other, ins, outs);
    patch.put_state(owner, other);
}

fn run_pair(
    patch: &Patch,
    node: u32,
    state: &mut State,
    other: &mut State,
    ins: &mut [[Sig; 64]; 2],
    outs: &mut [[Sig; 64]; 1],
)
    ensures { record { ran = ran state.new outs.new; other = other.new } ≡ pair_in patch.now.web (blocks_told patch.now) node (kind_in (get patch.now.grove.nodes node)) state.old other.old }
{
    silence_outlet(outs);
    if let Some(found) = patch.node(node) {
        pair_kind(patch, node, &found.kind, state, other, ins, outs);
    }
}

fn pair_kind(
    patch: &Patch,
    node: u32,
    kind: &Kind,
    state: &mut State,
    other: &mut State,
    ins: &mut [[Sig; 64]; 2],
    outs: &mut [[Sig; 64]; 1],
)
    requires { outs.old ≡ silent_block ∷ [] }
    ensures { record { ran = ran state.new outs.new; other = other.new } ≡ pair_few patch.now.web (blocks_told patch.now) node kind.now state.old other.old (few_of kind.now) }
{
    if let Some(few) = few_ports(kind) {
        take_inlets(patch, node, few.inlets, state, ins);
        pd_turn::run_pair(kind, few, state, other, ins, outs);
    }
}

fn run_alone(
    patch: &Patch,
    node: u32,
    state: &mut State,
    ins: &mut [[Sig; 64]; 2],
    outs: &mut [[Sig; 64]; 1],
)
    ensures { ran state.new outs.new ≡ alone_in patch.now.web (blocks_told patch.now) node (kind_in (get patch.now.grove.nodes node)) state.old }
{
    silence_outlet(outs);
    if let Some(found) = patch.node(node) {
        alone_kind(patch, node, &found.kind, state, ins, outs);
    }
}

fn alone_kind(
    patch: &Patch,
    node: u32,
    kind: &Kind,
    state: &mut State,
    ins: &mut [[Sig; 64]; 2],
    outs: &mut [[Sig; 64]; 1],
)
    requires { outs.old ≡ silent_block ∷ [] }
    ensures { ran state.new outs.new ≡ alone_few patch.now.web (blocks_told patch.now) node kind.now state.old (few_of kind.now) }
{
    if let Some(few) = few_ports(kind) {
        take_inlets(patch, node, few.inlets, state, ins);
        run_silent(kind, few, state, start_line(), ins, outs);
    }
}
