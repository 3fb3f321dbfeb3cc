//! What a box asks for beside its sends.

ghost use Rattle.std.specs.Prelude.{◌≡◌, Some};
ghost use Rattle.slab.specs.Slab.{get};
ghost use Rattle.pd_atom.specs.Names.{Names};
ghost use Rattle.pd_queue.specs.Queue.{Waiting};
ghost use Rattle.pd_grove.specs.Telling.{kind_in};
ghost use Rattle.pd_hearing.specs.Worlds.{net_of, kept_of, states_of};
ghost use Rattle.pd_hearing.specs.Hearing.{table_named};
ghost use Rattle.pd_hearing.specs.Deeds.{done, later as later_than, written, with_states, with_clock, with_clocks};

use crate::hearing::table_name;
use pd_atom::Sym;
use pd_clock::{Rate, Time};
use pd_kind::Deed;
use pd_num::Num;
use pd_patch::Patch;

/// Does what a box asks for, but for a print's line and to be resumed.
#[tactic(auto, unfolding(crate::specs::Deeds::done))]
pub fn do_deed(patch: &mut Patch, node: u32, deed: Deed, now: Time)
    ensures kept { (names : Names) (queue : Waiting) → kept_of patch.new names queue ≡ done (net_of patch.old) now node deed (kept_of patch.old names queue) }
    ensures net { net_of patch.new ≡ net_of patch.old }
{
    match deed {
        Deed::SetClock(milliseconds) => set_later(patch, node, milliseconds, now),
        Deed::ClearClock => patch.clear_clock(node),
        Deed::WriteTable { index, value } => write_named(patch, node, index, value),
        Deed::Nothing | Deed::Print | Deed::Again => {}
    }
}

/// Sets the clock of a box to so many milliseconds from now.
fn set_later(patch: &mut Patch, node: u32, milliseconds: Num, now: Time)
    ensures kept { (names : Names) (queue : Waiting) → kept_of patch.new names queue ≡
        with_clocks (kept_of patch.old names queue) (with_clock patch.old.timers.end node (later_than now milliseconds patch.old.rate) patch.old.timers.clocks.clocks) }
    ensures net { net_of patch.new ≡ net_of patch.old }
{
    let time = later(now, milliseconds, patch.rate());
    patch.set_clock(node, time);
}

/// The time so many milliseconds from now. A millionth of a millisecond has as many units as a second has samples.
fn later(now: Time, milliseconds: Num, rate: Rate) -> Time
    ensures { result ≡ later_than now milliseconds rate }
{
    let micros = u128::from(milliseconds.micros().max(0).unsigned_abs());
    let units = micros.saturating_mul(u128::from(rate.hz()));
    Time::of_units(now.units().saturating_add(units))
}

/// Sets a value of the table that a box names.
fn write_named(patch: &mut Patch, node: u32, index: u32, value: Num)
    ensures states { states_of patch.new ≡ written (net_of patch.old) (states_of patch.old) index value (table_named (kind_in ((net_of patch.old).nodes node))) }
    ensures net { net_of patch.new ≡ net_of patch.old }
    ensures clocks { patch.new.timers ≡ patch.old.timers }
{
    match name_at(patch, node) {
        Some(name) => patch.write_table(name, index, value),
        None => {}
    }
}

fn name_at(patch: &Patch, node: u32) -> Option<Sym>
    ensures { result ≡ table_named (kind_in ((net_of patch.now).nodes node)) }
{
    table_name(&patch.node(node)?.kind)
}
