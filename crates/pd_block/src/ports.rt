//! `dac~`, `inlet~` and `outlet~`.

ghost use Rattle.std.specs.Prelude.{◌≡◌, ◌≤◌, drop, length};
ghost use Rattle.slab.specs.Slab.{get};
ghost use Rattle.pd_grove.specs.Telling.{kind_in, state_in};
ghost use Rattle.pd_patch.specs.Values.{blocks_told};
ghost use Rattle.pd_web.specs.Hops.{port_told};
ghost use Rattle.pd_turn.specs.Held.{held_of};
ghost use Rattle.pd_block.specs.Inlets.{inlet_block, steady};
ghost use Rattle.pd_block.specs.Nets.{net_of, sound_of, states_of, kind_at};
ghost use Rattle.pd_block.specs.Blocks.{added, dac_from, dac_of, channels_of as channels_in, dac_with, dac_in, held_by, port_block, inlet_by, outlet_by};

use crate::inlets::{fill_steady, take_inlet};
use pd_kind::{Channel, Kind, Signal, State};
use pd_mix::add;
use pd_num::{Num, Sig};
use pd_patch::Patch;
use pd_turn::held_in;

/// A `dac~` has at most so many inlets.
const MOST_CHANNELS: usize = 1024;

/// The number that the first inlet of a box holds.
fn held_at(patch: &Patch, node: u32) -> Num
    ensures { result ≡ held_by (state_in (get patch.now.grove.nodes node)) }
{
    match patch.state_at(node) {
        Some(state) => held_in(state, 0),
        None => Num::default(),
    }
}

/// A `dac~` adds what comes to each inlet to that one's channel.
pub(crate) fn run_dac(patch: &Patch, node: u32, into: &mut [Sig; 64], out: &mut [[Sig; 64]; 2])
    ensures { out.new ≡ dac_in patch.now.web (blocks_told patch.now) node (kind_in (get patch.now.grove.nodes node)) (state_in (get patch.now.grove.nodes node)) out.old }
{
    match patch.node(node) {
        Some(found) => add_box(patch, node, &found.kind, into, out),
        None => {}
    }
}

fn add_box(patch: &Patch, node: u32, kind: &Kind, into: &mut [Sig; 64], out: &mut [[Sig; 64]; 2])
    ensures { out.new ≡ dac_with patch.now.web (blocks_told patch.now) node kind.now (state_in (get patch.now.grove.nodes node)) out.old }
{
    match patch.state_at(node) {
        Some(state) => add_some(patch, node, state, channels_of(kind), into, out),
        None => {}
    }
}

/// The channels of a `dac~`, one for each inlet; none for other boxes.
fn channels_of(kind: &Kind) -> &[Channel]
    ensures { result.now ≡ channels_in kind.now }
{
    match kind {
        Kind::Signal(Signal::Dac { channels }) => channels.as_slice(),
        _ => &[],
    }
}

fn add_some(
    patch: &Patch,
    node: u32,
    state: &State,
    channels: &[Channel],
    into: &mut [Sig; 64],
    out: &mut [[Sig; 64]; 2],
)
    ensures { out.new ≡ dac_of patch.now.web (blocks_told patch.now) node state.now channels.now out.old }
{
    if channels.len() <= MOST_CHANNELS {
        add_channels(patch, node, state, channels, into, out);
    }
}

#[tactic(auto, using(crate::proofs::InletLemmas::dac_more, crate::proofs::InletLemmas::dac_end))]
fn add_channels(
    patch: &Patch,
    node: u32,
    state: &State,
    channels: &[Channel],
    into: &mut [Sig; 64],
    out: &mut [[Sig; 64]; 2],
)
    requires { length channels.now ≤ 1024 }
    ensures { out.new ≡ dac_from patch.now.web (blocks_told patch.now) node state.now 0 channels.now out.old }
{
    for inlet in 0..channels.len() {
        let channel = channels[inlet];
        add_inlet(patch, node, inlet as u32, state, channel, into, out);
    }
}

fn add_inlet(
    patch: &Patch,
    node: u32,
    inlet: u32,
    state: &State,
    channel: Channel,
    into: &mut [Sig; 64],
    out: &mut [[Sig; 64]; 2],
)
    ensures { out.new ≡ added channel (inlet_block patch.now.web (blocks_told patch.now) node inlet (held_of state.now inlet)) out.old }
{
    take_inlet(patch, node, inlet, held_in(state, inlet), into);
    add_to(channel, into, out);
}

/// Adds a block to a channel.
fn add_to(channel: Channel, block: &[Sig; 64], out: &mut [[Sig; 64]; 2])
    ensures { out.new ≡ added channel block.now out.old }
{
    match channel {
        Channel::Left => add(block, &mut out[0]),
        Channel::Right => add(block, &mut out[1]),
        Channel::Neither => {}
    }
}

/// An `inlet~` gives what comes to its port of the box around.
#[tactic(auto, using(crate::proofs::PortLemmas::inlet_done, crate::proofs::NetLemmas::blocks_net))]
pub(crate) fn run_inlet(patch: &mut Patch, node: u32, into: &mut [Sig; 64])
    ensures net { net_of patch.new ≡ net_of patch.old }
    ensures sound { sound_of patch.new ≡ inlet_by (net_of patch.old) (sound_of patch.old) node }
{
    let held = held_at(patch, node);
    take_port(patch, node, held, into);
    patch.put_values(node, 0, into);
}

fn take_port(patch: &Patch, node: u32, held: Num, into: &mut [Sig; 64])
    ensures { into.new ≡ port_block patch.now.web (blocks_told patch.now) (port_told patch.now.web node) held }
{
    match patch.port_of(node) {
        Some((holder, port)) => take_inlet(patch, holder, port, held, into),
        None => fill_steady(held, into),
    }
}

/// What comes to an `outlet~` is what its port of the box around gives.
#[tactic(auto, using(crate::proofs::PortLemmas::outlet_done, crate::proofs::PortLemmas::outlet_none, crate::proofs::NetLemmas::blocks_net))]
pub(crate) fn run_outlet(patch: &mut Patch, node: u32, into: &mut [Sig; 64])
    ensures net { net_of patch.new ≡ net_of patch.old }
    ensures sound { sound_of patch.new ≡ outlet_by (net_of patch.old) (sound_of patch.old) node }
{
    let held = held_at(patch, node);
    take_inlet(patch, node, 0, held, into);
    if let Some((holder, port)) = patch.port_of(node) {
        patch.put_values(holder, port, into);
    }
}
