//! Whole units of numbers.

ghost use Rattle.std.specs.Prelude.{◌≡◌, ◌<◌, ◌≤◌, ◌*◌, ◌^◌, pos};
ghost use Rattle.pd_kind.specs.States.{units_of as units_of_number, whole_at_least as whole_of_at_least};

use pd_num::Num;

/// The whole units of a number, 0 where it is negative.
pub(crate) fn units_of(number: Num) -> u32
    ensures value { result ≡ units_of_number number }
    ensures small { result ≤ 1000000000 }
{
    let micros = number.micros();
    if micros < 0 {
        0
    } else {
        (micros / 1_000_000) as u32
    }
}

/// The number of so many whole units.
pub(crate) fn whole(units: u32) -> Num
    requires { units ≤ 1000000000 }
    ensures { result ≡ pos (units * 1000000) }
{
    match Num::of_micros(i64::from(units) * 1_000_000) {
        Some(number) => number,
        None => unreachable!(),
    }
}

/// The whole units of a number, but at least one.
pub(crate) fn whole_at_least_one(number: Num) -> Num
    ensures { result ≡ whole_of_at_least 1 number }
{
    whole(units_of(number).max(1))
}
