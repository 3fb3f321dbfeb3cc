//! What is counted of a whole patch.

ghost use Rattle.std.specs.Prelude.{◌≡◌, ◌≤◌, ◌-◌, ◌^◌, min, map, length, IfOk};
ghost use Rattle.slab.specs.Slab.{get};
ghost use Rattle.pd_tree.specs.Trees.{Tree, zeros_of};
ghost use Rattle.pd_grove.specs.Standing.{GroveStands};
ghost use Rattle.pd_grove.specs.TextOrder.{cell_under};
ghost use Rattle.pd_web.specs.Changes.{wires_told};
ghost use Rattle.pd_adding.specs.Counted.{AreCounted, IsLimited, next_above as above, sound_seen, sound_among as sound_in};
ghost use Rattle.pd_adding.specs.Counts.{AreWithin};

use crate::counts::{Counts, MOST_BOXES};
use pd_clock::Rate;
use pd_grove::Grove;
use pd_kind::sound_size;
use pd_patch::Patch;
use std::alloc::{AllocError, Global};

/// Counts a patch that has just grown, or any other whose tree is within the limits of patches. It takes time by the number of boxes:
/// who edits the patch keeps the counts from then on.
///
/// # Errors
///
/// `AllocError` where memory ran out.
pub fn count_patch(alloc: Global, patch: &Patch) -> Result<Counts, AllocError>
    ensures counted { (t : Tree) → GroveStands patch.now.grove t.sheet t.boxes → IsLimited patch.now.rate t →
        IfOk result (λ n. (a : AreCounted n patch.now) × (a.tree ≡ t) × (n.next_zero ≡ above (zeros_of t))) }
    ensures within { (t : Tree) → GroveStands patch.now.grove t.sheet t.boxes → IsLimited patch.now.rate t → wires_told patch.now.web ≤ 65536 →
        IfOk result (λ n. AreWithin n) }
{
    let boxes = patch.grove.in_text_order(alloc)?;
    let zeros = patch.grove.zeros(alloc)?;
    Ok(counts_by(patch, &boxes, zeros.as_slice()))
}

/// The counts of a patch with these boxes and these `$0` numbers.
fn counts_by(patch: &Patch, boxes: &[u32], zeros: &[u32]) -> Counts
    ensures boxes { result.boxes ≡ min (length boxes.now) 16384 }
    ensures wires { result.wires ≡ wires_told patch.now.web }
    ensures sound { result.sound ≡ min (sound_in patch.now.rate (map (cell_under (get patch.now.grove.nodes)) boxes.now)) (2 ^ 64 - 1) }
    ensures zeros { result.next_zero ≡ min (above zeros.now) (2 ^ 32 - 1) }
{
    let most = MOST_BOXES as usize;
    Counts {
        boxes: boxes.len().min(most) as u32,
        wires: patch.web.wire_count(),
        sound: sound_among(&patch.grove, patch.rate, boxes),
        next_zero: next_above(zeros),
    }
}

/// How many values of tables, arrays and delay lines boxes keep.
fn sound_among(grove: &Grove, rate: Rate, boxes: &[u32]) -> u64
    ensures { result ≡ min (sound_in rate (map (cell_under (get grove.now.nodes)) boxes.now)) (2 ^ 64 - 1) }
{
    let mut sound: u64 = 0;
    for key in boxes {
        sound = sound.saturating_add(sound_at(grove, rate, *key));
    }
    sound
}

/// How many a box keeps; 0 where none lives under the key.
fn sound_at(grove: &Grove, rate: Rate, key: u32) -> u64
    ensures { result ≡ sound_seen rate (cell_under (get grove.now.nodes) key) }
{
    match grove.node(key) {
        Some(node) => sound_size(&node.kind, rate),
        None => 0,
    }
}

/// The number after the greatest of these; 0 where there are none.
fn next_above(zeros: &[u32]) -> u32
    ensures { result ≡ min (above zeros.now) (2 ^ 32 - 1) }
{
    let mut next: u32 = 0;
    for zero in zeros {
        next = next.max(zero.saturating_add(1));
    }
    next
}
