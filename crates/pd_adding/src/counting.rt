//! What there would be with boxes that grew.

ghost use Rattle.std.specs.Prelude.{◌≡◌, ◌≢◌, ◌<◌, ◌≤◌, ◌+◌, ◌-◌, ◌++◌, ℕ, Ok, Err, None, IfOk, IfErr, IfSome, IsErrOf};
ghost use Rattle.std.specs.List.{AllByRecursion};
ghost use Rattle.pd_object.specs.Ports.{IsSmallKind};
ghost use Rattle.pd_tree.specs.Trees.{Trees, stands_of, stands_in, weight, zeros_in};
ghost use Rattle.pd_fit.specs.Fitting.{wires_inside};
ghost use Rattle.pd_growth.specs.Steps.{zeros_from};
ghost use Rattle.pd_gather.specs.Gather.{Known};
ghost use Rattle.pd_patch.specs.Sounds.{sound_in};
ghost use Rattle.pd_wiring.specs.declared.refusals.EditRefusal.TheVariants.{TooManyWires, NoMemory};
ghost use Rattle.pd_adding.specs.Counts.{AreWithin};
ghost use Rattle.pd_adding.specs.Growing.{totalled};

use crate::counts::{Counts, MOST_BOXES};
use pd_clock::Rate;
use pd_fit::{MOST_WIRES, wires_in};
use pd_growth::Supply;
use pd_kind::sound_size;
use pd_tree::Row;
use pd_wiring::EditRefusal;
use std::alloc::Global;

/// The most values of tables, arrays and delay lines.
const MOST_SOUND: u64 = 16_777_216;

/// No `$0` is left from here on.
const ZEROS_END: u32 = 1_000_000_001;

/// The counts of a patch with boxes that grew from them, after which growth has this left.
///
/// # Errors
///
/// `TooManyWires`, or else `TooMuchSound`; `NoMemory` may come in place of either.
pub fn counts_with(
    alloc: Global,
    rate: Rate,
    counts: Counts,
    rows: &[Row],
    left: Supply,
) -> Result<Counts, EditRefusal>
    requires within { AreWithin counts }
    requires small { AllByRecursion (λ r. IsSmallKind r.kind) rows.now }
    ensures totals { (t : Trees) → stands_in rows.now ≡ stands_of t → zeros_from counts.next_zero ≡ zeros_in t ++ zeros_from left.next_zero →
        16384 - counts.boxes ≡ weight t + left.room →
        IfOk result (λ n. AreWithin n × ((canvas : ℕ) (k : Known) → totalled rate counts canvas k t ≡ Ok (record { canvas = canvas; boxes = t; known = k; counts = n }))) }
    ensures refused { (t : Trees) → stands_in rows.now ≡ stands_of t →
        IfErr result (λ why. why ≢ NoMemory → (canvas : ℕ) (k : Known) → totalled rate counts canvas k t ≡ Err why) }
    ensures shelf { ¬ (IsErrOf result EditRefusal.ShelfFault) }
{
    let wires = wires_with(alloc, counts.wires, rows)?;
    let Some(sound) = sound_with(rate, counts.sound, rows) else {
        return Err(EditRefusal::TooMuchSound);
    };
    Ok(Counts {
        boxes: MOST_BOXES.saturating_sub(left.room),
        wires,
        sound,
        next_zero: left.next_zero.min(ZEROS_END),
    })
}

/// How many wires there would be.
fn wires_with(alloc: Global, wires: usize, rows: &[Row]) -> Result<usize, EditRefusal>
    requires few { wires ≤ 65536 }
    requires small { AllByRecursion (λ r. IsSmallKind r.kind) rows.now }
    ensures total { (t : Trees) → stands_in rows.now ≡ stands_of t → IfOk result (λ total. (total ≡ wires + wires_inside t) × (total ≤ 65536)) }
    ensures many { (t : Trees) → stands_in rows.now ≡ stands_of t → IfErr result (λ why. why ≢ NoMemory → (why ≡ TooManyWires) × (65536 < wires + wires_inside t)) }
    ensures shelf { ¬ (IsErrOf result EditRefusal.ShelfFault) }
{
    let Ok(more) = wires_in(alloc, rows) else {
        return Err(EditRefusal::NoMemory);
    };
    let total = wires + more as usize;
    if total > MOST_WIRES as usize {
        return Err(EditRefusal::TooManyWires);
    }
    Ok(total)
}

/// How many values of tables, arrays and delay lines there would be; `None` where they would be too many.
fn sound_with(rate: Rate, sound: u64, rows: &[Row]) -> Option<u64>
    requires few { sound ≤ 16777216 }
    ensures total { IfSome result (λ total. (total ≡ sound + sound_in rate rows.now) × (total ≤ 16777216)) }
    ensures much { result ≡ None → 16777216 < sound + sound_in rate rows.now }
{
    let mut total = sound;
    for row in rows {
        let size = sound_size(&row.kind, rate);
        if size > MOST_SOUND - total {
            return None;
        }
        total += size;
    }
    Some(total)
}
