//! The objects with two inlets.

ghost use Rattle.std.specs.Prelude.{◌≡◌};
ghost use Rattle.pd_kind.specs.Said.{said_by};
ghost use Rattle.pd_arith.specs.Rows.{binary_of, row_of, pair_hot, pair_cold, pair_row};

use crate::operations::{compare, divide, operate};
use pd_atom::{Atom, Sym};
use pd_kind::{
    Comparison, Division, Operation, Row, Sends, Sort, first_sort, sort_of, stored, told,
};
use pd_num::Num;

/// What an object with two inlets computes.
#[derive(Clone, Copy, Debug, PartialEq, Eq, Drop)]
pub enum Binary {
    Operation(Operation),
    Comparison(Comparison),
    Division(Division),
}

/// What an object computes of its two numbers.
#[inline(always)]
pub fn compute(binary: Binary, left: Num, right: Num) -> Num
    ensures { result ≡ binary_of binary left right }
{
    match binary {
        Binary::Operation(operation) => operate(operation, left, right),
        Binary::Comparison(comparison) => compare(comparison, left, right),
        Binary::Division(division) => divide(division, left, right),
    }
}

fn row(binary: Binary) -> Row
    ensures { result ≡ row_of binary }
{
    match binary {
        Binary::Operation(_) => Row::Operation,
        Binary::Comparison(_) => Row::Comparison,
        Binary::Division(_) => Row::Division,
    }
}

/// A message at inlet 0.
fn hear_left(
    binary: Binary,
    left: &mut Num,
    right: Num,
    selector: Sym,
    sort: &Sort,
    out: &mut Sends,
)
    ensures { record { left = left.new; right = right; said = said_by out.new } ≡ pair_hot binary left.old right selector sort.now }
{
    match sort {
        Sort::Float(number) => {
            *left = *number;
            out.say_number(0, compute(binary, *number, right));
        }
        Sort::Bang => out.say_number(0, compute(binary, *left, right)),
        _ => out.refuse(row(binary), told(sort, selector)),
    }
}

/// A message at inlet 1.
fn hear_right(
    binary: Binary,
    left: Num,
    right: &mut Num,
    selector: Sym,
    sort: &Sort,
    out: &mut Sends,
)
    ensures { record { left = left; right = right.new; said = said_by out.new } ≡ pair_cold binary left right.old selector sort.now }
{
    match sort {
        Sort::Float(number) => {
            *right = *number;
            out.say_nothing();
        }
        _ => out.refuse(row(binary), selector),
    }
}

/// A message at an inlet.
pub(crate) fn hear_pair(
    binary: Binary,
    left: &mut Num,
    right: &mut Num,
    inlet: u32,
    selector: Sym,
    atoms: &[Atom],
    out: &mut Sends,
)
    ensures { record { left = left.new; right = right.new; said = said_by out.new } ≡ pair_row binary left.old right.old inlet selector atoms.now }
{
    let sort = sort_of(selector, atoms);
    if inlet == 0 {
        let old = *right;
        let now = stored(&sort, atoms, 1, old);
        *right = now;
        let first = first_sort(&sort, atoms);
        hear_left(binary, left, now, selector, &first, out);
    } else {
        let left = *left;
        hear_right(binary, left, right, selector, &sort, out);
    }
}
