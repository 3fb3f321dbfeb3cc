//! What comes to a signal inlet: the sum of its signal wires, or the number that it holds.

ghost use Rattle.std.specs.Prelude.{◌≡◌, ◌≤◌, List, ℤ, Option, Some, None, take, map, slice_get, is_some, if◌then◌else◌};
ghost use Rattle.pd_patch.specs.Values.{blocks_told};
ghost use Rattle.pd_block.specs.Inlets.{brought, gathered, sum_from, wires_to, steady, inlet_block, inlet_blocks};

use pd_kind::State;
use pd_mix::{add, copy, fill};
use pd_num::{Num, Sig};
use pd_patch::Patch;
use pd_turn::held_in;
use pd_web::Hop;

/// An inlet has at most so many wires.
const MOST_WIRES: u32 = 65_536;

/// The blocks that come to the first inlets of a box that keeps this.
pub(crate) fn take_inlets(
    patch: &Patch,
    node: u32,
    count: usize,
    state: &State,
    ins: &mut [[Sig; 64]; 2],
)
    requires { count ≤ 2 }
    ensures { take count ins.new ≡ inlet_blocks patch.now.web (blocks_told patch.now) node count state.now }
{
    match count {
        0 => {}
        1 => take_first(patch, node, state, ins),
        _ => take_both(patch, node, state, ins),
    }
}

#[tactic(auto, using(crate::proofs::InletLemmas::one_set))]
fn take_first(patch: &Patch, node: u32, state: &State, ins: &mut [[Sig; 64]; 2])
    ensures { take 1 ins.new ≡ inlet_blocks patch.now.web (blocks_told patch.now) node 1 state.now }
{
    take_inlet(patch, node, 0, held_in(state, 0), &mut ins[0]);
}

#[tactic(auto, using(crate::proofs::InletLemmas::two_set))]
fn take_both(patch: &Patch, node: u32, state: &State, ins: &mut [[Sig; 64]; 2])
    ensures { take 2 ins.new ≡ inlet_blocks patch.now.web (blocks_told patch.now) node 2 state.now }
{
    take_inlet(patch, node, 0, held_in(state, 0), &mut ins[0]);
    take_inlet(patch, node, 1, held_in(state, 1), &mut ins[1]);
}

/// The block that comes to an inlet.
pub(crate) fn take_inlet(patch: &Patch, node: u32, inlet: u32, held: Num, into: &mut [Sig; 64])
    ensures { into.new ≡ inlet_block patch.now.web (blocks_told patch.now) node inlet held }
{
    if !sum_wires(patch, node, inlet, into) {
        fill_steady(held, into);
    }
}

#[tactic(auto, unfolding(crate::specs::Inlets::steady))]
pub(crate) fn fill_steady(held: Num, into: &mut [Sig; 64])
    ensures { into.new ≡ steady held }
{
    fill(held, into);
}

/// The sum of the signal wires of an inlet, in their order; whether there is any.
fn sum_wires(patch: &Patch, node: u32, inlet: u32, into: &mut [Sig; 64]) -> bool
    ensures { (if result then Some into.new else None) ≡ sum_from patch.now.web (blocks_told patch.now) None (wires_to patch.now.web node inlet) }
{
    let mut next = patch.feed_first(node, inlet);
    let mut is_fed = false;
    for _ in 0..MOST_WIRES {
        let Some(hop) = next else {
            return is_fed;
        };
        is_fed = take_wire(patch, hop, is_fed, into);
        next = patch.feed_next(hop);
    }
    is_fed
}

/// Takes in what a wire brings, where it carries signals; whether any has done so.
fn take_wire(patch: &Patch, hop: Hop, is_fed: bool, into: &mut [Sig; 64]) -> bool
    ensures { (if result then Some into.new else None) ≡ gathered (if is_fed then Some into.old else None) (brought patch.now.web (blocks_told patch.now) hop) }
{
    if !patch.outlet_signal_at(hop.node(), hop.port()) {
        return is_fed;
    }
    match patch.values_at(hop.node(), hop.port()) {
        Some(block) => gather(is_fed, block, into),
        None => is_fed,
    }
}

fn gather(is_fed: bool, block: &[Sig; 64], into: &mut [Sig; 64]) -> bool
    ensures { (if result then Some into.new else None) ≡ gathered (if is_fed then Some into.old else None) (Some block.now) }
{
    if is_fed {
        add(block, into);
    } else {
        copy(block, into);
    }
    true
}
