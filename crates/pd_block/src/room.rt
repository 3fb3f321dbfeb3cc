//! Blocks of room: silent again, or put into the patch.

ghost use Rattle.std.specs.Prelude.{◌≡◌, ◌∷◌, [], slice_index_or};
ghost use Rattle.pd_kind.specs.States.{silent_block};
ghost use Rattle.pd_patch.specs.Values.{blocks_told, with_block, SilentRest};

use pd_mix::silence;
use pd_num::Sig;
use pd_patch::Patch;

/// The block of one outlet.
#[tactic(auto, using(crate::proofs::InletLemmas::only_set))]
pub(crate) fn silence_outlet(outs: &mut [[Sig; 64]; 1])
    ensures { outs.new ≡ silent_block ∷ [] }
{
    silence(&mut outs[0]);
}

/// The blocks of both channels.
#[tactic(auto, using(crate::proofs::InletLemmas::both_set))]
pub(crate) fn silence_channels(out: &mut [[Sig; 64]; 2])
    ensures { out.new ≡ silent_block ∷ silent_block ∷ [] }
{
    silence(&mut out[0]);
    silence(&mut out[1]);
}

/// The block becomes that of a box's first outlet. Where it has none, nothing changes.
pub(crate) fn put_outlet(patch: &mut Patch, node: u32, outs: &[[Sig; 64]; 1])
    ensures values { blocks_told patch.new ≡ with_block (blocks_told patch.old) node 0 (slice_index_or outs.now 0 silent_block) }
    ensures tree { patch.new.grove ≡ patch.old.grove }
    ensures rest { SilentRest patch.old patch.new }
{
    patch.put_values(node, 0, &outs[0]);
}
