//! Signal values.

ghost use Rattle.std.specs.Prelude.{◌≡◌, ◌↔◌, IsSome, IfSome};
ghost use Rattle.pd_num.specs.Scale.{billionths, IsInRange, sum_of, difference_of, product_of, quotient_of, signal_of, number_of};

use crate::counts::{product, quotient, saturate};
use crate::numbers::Num;
use std::marker::Model;

const LIMIT: i64 = 1_000_000_000_000_000_000;

const UNIT: i64 = 1_000_000_000;

/// A signal value: a whole count of billionths, which is what contracts see. Its magnitude is at most 10^18 billionths.
#[derive(Clone, Copy, Debug, Default, PartialEq, Eq, PartialOrd, Ord, Hash)]
pub struct Sig {
    nanos: i64,
}

/// The product in billionths of two counts of billionths, where their own product needs 128 bits.
fn long_product(a: i64, b: i64) -> i64
    requires left { IsInRange billionths a }
    requires right { IsInRange billionths b }
    ensures value { result ≡ product_of billionths a b }
    ensures in_range { IsInRange billionths result }
{
    saturate(quotient(product(a, b), UNIT), LIMIT as u64)
}

impl Model for Sig {
    ghost use Rattle.std.specs.Prelude.{ℤ};
    ghost use Rattle.pd_num.specs.Scale.{billionths, IsInRange};

    ghost Value = { ℤ };

    ghost view = { λ v. v.nanos };

    ghost invariant = { λ v. IsInRange billionths v.nanos };

    ghost inverse = { λ z. record { nanos = z } };
}

impl Sig {
    /// The signal value of a count of billionths.
    pub fn of_nanos(n: i64) -> Option<Sig>
        ensures known { IsSome result ↔ IsInRange billionths n }
        ensures value { IfSome result (λ v. v ≡ n) }
    {
        if n < -LIMIT || n > LIMIT {
            None
        } else {
            Some(Sig { nanos: n })
        }
    }

    /// The count of billionths.
    pub fn nanos(self) -> i64
        ensures value { result ≡ self }
        ensures in_range { IsInRange billionths self }
    {
        self.nanos
    }

    /// The signal value of a number.
    pub fn of_num(n: Num) -> Sig
        ensures { result ≡ signal_of n }
    {
        Sig {
            nanos: n.micros() * 1000,
        }
    }

    /// The number of the signal value, toward zero.
    pub fn to_num(self) -> Num
        ensures { result ≡ number_of self }
    {
        Num::of_count(self.nanos / 1000)
    }

    /// The sum.
    pub fn add(self, other: Sig) -> Sig
        ensures { result ≡ sum_of billionths self other }
    {
        Sig {
            nanos: (self.nanos + other.nanos).clamp(-LIMIT, LIMIT),
        }
    }

    /// The difference.
    pub fn sub(self, other: Sig) -> Sig
        ensures { result ≡ difference_of billionths self other }
    {
        Sig {
            nanos: (self.nanos - other.nanos).clamp(-LIMIT, LIMIT),
        }
    }

    /// The product, toward zero.
    pub fn mul(self, other: Sig) -> Sig
        ensures { result ≡ product_of billionths self other }
    {
        match self.nanos.checked_mul(other.nanos) {
            Some(count) => Sig {
                nanos: count / UNIT,
            },
            None => Sig {
                nanos: long_product(self.nanos, other.nanos),
            },
        }
    }

    /// The quotient, toward zero, and 0 where `other` is 0.
    pub fn div(self, other: Sig) -> Sig
        ensures { result ≡ quotient_of billionths self other }
    {
        if other.nanos == 0 {
            return Sig { nanos: 0 };
        }
        let count = quotient(product(self.nanos, UNIT), other.nanos);
        Sig {
            nanos: saturate(count, LIMIT as u64),
        }
    }
}
