//! What the objects with two inlets compute.

ghost use Rattle.std.specs.Prelude.{◌≡◌, ◌<◌, ◌≤◌, ◌*ℤ◌, ◌<ℤ◌, pos, unsigned_abs};
ghost use Rattle.std.specs.Int.{int_min, int_max};
ghost use Rattle.pd_arith.specs.Operations.{operation_of, truth as truth_of, is_true as is_true_of, comparison_of, units_of, divisor_of, division_units, division_of};

use pd_kind::{Comparison, Division, Operation};
use pd_num::Num;

/// One of the operations on two numbers.
#[inline(always)]
pub(crate) fn operate(operation: Operation, left: Num, right: Num) -> Num
    ensures { result ≡ operation_of operation left right }
{
    match operation {
        Operation::Add => left.add(right),
        Operation::Subtract => left.sub(right),
        Operation::Multiply => left.mul(right),
        Operation::Divide => left.div(right),
        Operation::Least => least(left, right),
        Operation::Greatest => greatest(left, right),
    }
}

fn least(left: Num, right: Num) -> Num
    ensures { result ≡ int_min left right }
{
    if right.micros() < left.micros() {
        right
    } else {
        left
    }
}

fn greatest(left: Num, right: Num) -> Num
    ensures { result ≡ int_max left right }
{
    if right.micros() < left.micros() {
        left
    } else {
        right
    }
}

/// 1 for what is true, else 0.
fn truth(is_so: bool) -> Num
    ensures { result ≡ truth_of is_so }
{
    whole(if is_so { 1 } else { 0 })
}

/// The number of so many whole units.
fn whole(units: i64) -> Num
    requires { unsigned_abs units ≤ 1000000000 }
    ensures { result ≡ units *ℤ pos 1000000 }
{
    match Num::of_micros(units * 1_000_000) {
        Some(number) => number,
        None => unreachable!(),
    }
}

/// Whether the number's whole units aren't 0.
fn is_true(number: Num) -> bool
    ensures { result ≡ is_true_of number }
{
    number.trunc().micros() != 0
}

/// One of the comparisons: 1 or 0.
pub(crate) fn compare(comparison: Comparison, left: Num, right: Num) -> Num
    ensures { result ≡ comparison_of comparison left right }
{
    let (a, b) = (left.micros(), right.micros());
    truth(match comparison {
        Comparison::Equal => a == b,
        Comparison::Unequal => a != b,
        Comparison::Above => a > b,
        Comparison::Below => a < b,
        Comparison::NotBelow => a >= b,
        Comparison::NotAbove => a <= b,
        Comparison::Both => is_true(left) && is_true(right),
        Comparison::Either => is_true(left) || is_true(right),
    })
}

/// The whole units of a number, toward zero.
fn units(number: Num) -> i64
    ensures value { result ≡ units_of number }
    ensures small { unsigned_abs result ≤ 1000000000 }
{
    number.micros() / 1_000_000
}

/// The magnitude of the whole units, and 1 for 0.
fn divisor(number: Num) -> i64
    ensures value { result ≡ divisor_of number }
    ensures some { pos 0 <ℤ result }
    ensures small { unsigned_abs result ≤ 1000000000 }
{
    units(number).abs().max(1)
}

/// Remainder, modulo or quotient of the whole units.
pub(crate) fn divide(division: Division, left: Num, right: Num) -> Num
    ensures { result ≡ division_of division left right }
{
    whole(divide_units(division, units(left), divisor(right)))
}

fn divide_units(division: Division, left: i64, right: i64) -> i64
    requires left { unsigned_abs left ≤ 1000000000 }
    requires right { pos 0 <ℤ right }
    requires right_small { unsigned_abs right ≤ 1000000000 }
    ensures value { result ≡ division_units division left right }
    ensures small { unsigned_abs result ≤ 1000000000 }
{
    match division {
        Division::Remainder => left % right,
        Division::Modulo => left.rem_euclid(right),
        Division::Quotient => left.div_euclid(right),
    }
}
