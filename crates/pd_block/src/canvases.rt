//! Down the signal orders of canvases.

ghost use Rattle.std.specs.Prelude.{◌≡◌, true, false, slice_get, option_map, IsSome};
ghost use Rattle.slab.specs.Slab.{get};
ghost use Rattle.pd_kind.specs.Tables.{block_begun};
ghost use Rattle.pd_grove.specs.Telling.{kind_in, state_in};
ghost use Rattle.pd_block.specs.Nets.{net_of, sound_of, states_of, inner_at, chain_at, stuck_at};
ghost use Rattle.pd_block.specs.Blocks.{played, manner_by, begun, begun_at, begun_box, ran_plain, silenced, each, next, ran_box, ran_one, ran_canvas, block_of};

use crate::beside::run_beside;
use crate::own::{run_own, run_table};
use crate::ports::{run_dac, run_inlet, run_outlet};
use crate::room::silence_channels;
use pd_clock::Time;
use pd_kind::State;
use pd_num::Sig;
use pd_patch::Patch;
use pd_turn::{Manner, manner_of};

/// So many canvases may lie in one another, the root canvas included.
const MOST_LEVELS: u32 = 257;

/// Runs a block that starts at a time: the boxes of the patch, in the order of the root canvas, give their values, and `out` becomes what
/// the `dac~` boxes add to the left and to the right channel. Stuck boxes give 0 and keep what they keep.
#[tactic(auto, unfolding(crate::specs::Blocks::block_of))]
pub fn run_block(patch: &mut Patch, start: Time, out: &mut [[Sig; 64]; 2])
    ensures net { net_of patch.new ≡ net_of patch.old }
    ensures played { played (sound_of patch.new) out.new ≡ block_of (net_of patch.old) (sound_of patch.old) start }
{
    silence_channels(out);
    begin_block(patch);
    let mut ins = [[Sig::default(); 64]; 2];
    let mut outs = [[Sig::default(); 64]; 1];
    let root = patch.root();
    run_canvas(patch, root, MOST_LEVELS, start, &mut ins, &mut outs, out);
}

/// No delay line has been written in the block that begins.
fn begin_block(patch: &mut Patch)
    ensures net { net_of patch.new ≡ net_of patch.old }
    ensures sound { sound_of patch.new ≡ begun (sound_of patch.old) }
{
    for key in 0..patch.nodes_end() {
        begin_key(patch, key);
    }
}

fn begin_key(patch: &mut Patch, key: usize)
    ensures net { net_of patch.new ≡ net_of patch.old }
    ensures sound { sound_of patch.new ≡ begun_at (sound_of patch.old) key }
{
    if let Ok(node) = u32::try_from(key) {
        begin_box(patch, node);
    }
}

fn begin_box(patch: &mut Patch, node: u32)
    ensures net { net_of patch.new ≡ net_of patch.old }
    ensures sound { sound_of patch.new ≡ begun_box (sound_of patch.old) node }
{
    if has_line(patch, node) {
        let mut state = patch.take_state(node);
        state.begin_block();
        patch.put_state(node, state);
    }
}

/// Whether a box has a delay line, and what it keeps is in.
fn has_line(patch: &Patch, node: u32) -> bool
    ensures there { result ≡ true → IsSome (state_in (get patch.now.grove.nodes node)) }
    ensures none { result ≡ false → option_map block_begun (state_in (get patch.now.grove.nodes node)) ≡ state_in (get patch.now.grove.nodes node) }
{
    match patch.state_at(node) {
        Some(state) => is_line(state),
        None => false,
    }
}

#[tactic(auto, using(crate::proofs::BeginLemmas::unlined))]
fn is_line(state: &State) -> bool
    ensures { result ≡ false → block_begun state.now ≡ state.now }
{
    match state.delay_line() {
        Some(_) => true,
        None => false,
    }
}

/// The boxes of a canvas run in the order of its chain.
#[cycle(canvases)]
#[tactic(auto, using(crate::proofs::WalkLemmas::canvas_none))]
fn run_canvas(
    patch: &mut Patch,
    canvas: u32,
    levels: u32,
    start: Time,
    ins: &mut [[Sig; 64]; 2],
    outs: &mut [[Sig; 64]; 1],
    out: &mut [[Sig; 64]; 2],
)
    ensures net { net_of patch.new ≡ net_of patch.old }
    ensures played { played (sound_of patch.new) out.new ≡ ran_canvas (net_of patch.old) start levels (played (sound_of patch.old) out.old) canvas }
{
    if levels == 0 {
        return;
    }
    silence_stuck(patch, canvas);
    for place in 0..patch.chain_len(canvas) {
        run_place(patch, canvas, place, levels - 1, start, ins, outs, out);
    }
}

#[cycle(canvases)]
fn run_place(
    patch: &mut Patch,
    canvas: u32,
    place: usize,
    levels: u32,
    start: Time,
    ins: &mut [[Sig; 64]; 2],
    outs: &mut [[Sig; 64]; 1],
    out: &mut [[Sig; 64]; 2],
)
    ensures net { net_of patch.new ≡ net_of patch.old }
    ensures played { played (sound_of patch.new) out.new ≡ next (ran_one (net_of patch.old) start (ran_canvas (net_of patch.old) start levels)) (played (sound_of patch.old) out.old) (slice_get (chain_at (net_of patch.old) canvas) place) }
{
    if let Some(node) = patch.chain_at(canvas, place) {
        run_box(patch, node, levels, start, ins, outs, out);
    }
}

/// A box runs: where it holds a canvas, that.
#[cycle(canvases)]
#[tactic(auto, using(crate::proofs::WalkLemmas::box_inside, crate::proofs::WalkLemmas::box_plain, crate::proofs::WalkLemmas::inner_told, crate::proofs::NetLemmas::blocks_net))]
fn run_box(
    patch: &mut Patch,
    node: u32,
    levels: u32,
    start: Time,
    ins: &mut [[Sig; 64]; 2],
    outs: &mut [[Sig; 64]; 1],
    out: &mut [[Sig; 64]; 2],
)
    ensures net { net_of patch.new ≡ net_of patch.old }
    ensures played { played (sound_of patch.new) out.new ≡ ran_box (net_of patch.old) start (ran_canvas (net_of patch.old) start levels) (played (sound_of patch.old) out.old) node (inner_at (net_of patch.old) node) }
{
    match patch.canvas_in(node) {
        Some(inner) => {
            patch.silence_values(node);
            run_canvas(patch, inner, levels, start, ins, outs, out);
        }
        None => run_plain(patch, node, start, ins, outs, out),
    }
}

/// A box runs that holds no canvas.
#[tactic(auto, using(crate::proofs::WalkLemmas::plain_as, crate::proofs::WalkLemmas::manner_told))]
fn run_plain(
    patch: &mut Patch,
    node: u32,
    start: Time,
    ins: &mut [[Sig; 64]; 2],
    outs: &mut [[Sig; 64]; 1],
    out: &mut [[Sig; 64]; 2],
)
    ensures net { net_of patch.new ≡ net_of patch.old }
    ensures played { played (sound_of patch.new) out.new ≡ ran_plain (net_of patch.old) start (played (sound_of patch.old) out.old) node }
{
    match manner_at(patch, node) {
        Manner::Own => run_own(patch, node, start, ins, outs),
        Manner::Beside => run_beside(patch, node, ins, outs),
        Manner::Table => run_table(patch, node, ins, outs),
        Manner::Dac => run_dac(patch, node, &mut ins[0], out),
        Manner::Inlet => run_inlet(patch, node, &mut ins[0]),
        Manner::Outlet => run_outlet(patch, node, &mut ins[0]),
        Manner::Never => {}
    }
}

fn manner_at(patch: &Patch, node: u32) -> Manner
    ensures { result ≡ manner_by (kind_in (get patch.now.grove.nodes node)) }
{
    match patch.node(node) {
        Some(found) => manner_of(&found.kind),
        None => Manner::Never,
    }
}

/// The stuck boxes of a canvas give 0.
#[tactic(auto, using(crate::proofs::WalkLemmas::each_all))]
fn silence_stuck(patch: &mut Patch, canvas: u32)
    ensures net { net_of patch.new ≡ net_of patch.old }
    ensures sound { sound_of patch.new ≡ each silenced (sound_of patch.old) (stuck_at (net_of patch.old) canvas) }
{
    for place in 0..patch.stuck_len(canvas) {
        silence_place(patch, canvas, place);
    }
}

#[tactic(auto, using(crate::proofs::NetLemmas::blocks_net, crate::proofs::NetLemmas::blocks_states))]
fn silence_place(patch: &mut Patch, canvas: u32, place: usize)
    ensures net { net_of patch.new ≡ net_of patch.old }
    ensures sound { sound_of patch.new ≡ next silenced (sound_of patch.old) (slice_get (stuck_at (net_of patch.old) canvas) place) }
{
    if let Some(node) = patch.stuck_at(canvas, place) {
        patch.silence_values(node);
    }
}
