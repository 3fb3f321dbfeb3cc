//! `tabread~` over a block.

ghost use Rattle.std.specs.Prelude.{◌≡◌, ◌≤◌, map};
ghost use Rattle.pd_signal.specs.Tables.{units_of as units_of_value, value_at as value_at_place};

use crate::buses::no_signal;
use pd_num::{Num, Sig};

/// Whole units, 0 where the signal value is negative.
fn units_of(x: Sig) -> usize
    ensures { result ≡ units_of_value x }
{
    let nanos = x.nanos();
    if nanos < 0 {
        0
    } else {
        nanos as usize / 1_000_000_000
    }
}

/// The signal value at a place of a table, which is limited to its places; 0 without a table.
fn value_at(table: &[Num], x: Sig) -> Sig
    ensures { result ≡ value_at_place table.now x }
{
    let last = table.len().saturating_sub(1);
    match table.get(units_of(x).min(last)) {
        Some(value) => Sig::of_num(*value),
        None => no_signal(),
    }
}

/// The signal values of a table at each sample.
pub(crate) fn look_up(table: &[Num], x: &[Sig; 64], out: &mut [Sig; 64])
    ensures { out.new ≡ map (value_at_place table.now) x.now }
{
    for i in 0..64 {
        out[i] = value_at(table, x[i]);
    }
}
