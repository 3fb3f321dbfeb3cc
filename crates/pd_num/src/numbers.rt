//! Numbers.

ghost use Rattle.std.specs.Prelude.{◌≡◌, ◌↔◌, ◌≤◌, IsSome, IfSome, Some};
ghost use Rattle.pd_num.specs.Numeral.{Numeral, IsNumeral, signed, spelling, value_of};
ghost use Rattle.pd_num.specs.Printing.{printed};
ghost use Rattle.pd_num.specs.Reading.{number_at, IsSpelled};
ghost use Rattle.pd_num.specs.Scale.{millionths, IsInRange, sum_of, difference_of, product_of, quotient_of, whole_of};

use crate::counts::{product, quotient, saturate};
use crate::printing::{push_fraction, push_whole};
use crate::reading::parse;
use arrayvec::ArrayVec;
use std::marker::Model;

const LIMIT: i64 = 1_000_000_000_000_000;

const UNIT: i64 = 1_000_000;

/// A number: a whole count of millionths, which is what contracts see. Its magnitude is at most 10^15 millionths.
#[derive(Clone, Copy, Debug, Default, PartialEq, Eq, PartialOrd, Ord, Hash)]
pub struct Num {
    micros: i64,
}

impl Model for Num {
    ghost use Rattle.std.specs.Prelude.{ℤ};
    ghost use Rattle.pd_num.specs.Scale.{millionths, IsInRange};

    ghost Value = { ℤ };

    ghost view = { λ n. n.micros };

    ghost invariant = { λ n. IsInRange millionths n.micros };

    ghost inverse = { λ z. record { micros = z } };
}

impl Num {
    /// The number of a count of millionths.
    pub fn of_micros(m: i64) -> Option<Num>
        ensures known { IsSome result ↔ IsInRange millionths m }
        ensures value { IfSome result (λ n. n ≡ m) }
    {
        if m < -LIMIT || m > LIMIT {
            None
        } else {
            Some(Num { micros: m })
        }
    }

    /// The number of a count of millionths that is in range.
    pub(crate) fn of_count(micros: i64) -> Num
        requires { IsInRange millionths micros }
        ensures { result ≡ micros }
    {
        Num { micros }
    }

    /// The number of a magnitude in millionths and a sign.
    pub(crate) fn of_magnitude(minus: bool, count: u64) -> Num
        requires { count ≤ millionths.limit }
        ensures { result ≡ signed minus count }
    {
        let count = count as i64;
        Num {
            micros: if minus { -count } else { count },
        }
    }

    /// The count of millionths.
    pub fn micros(self) -> i64
        ensures value { result ≡ self }
        ensures in_range { IsInRange millionths self }
    {
        self.micros
    }

    /// The sum.
    pub fn add(self, other: Num) -> Num
        ensures { result ≡ sum_of millionths self other }
    {
        Num {
            micros: (self.micros + other.micros).clamp(-LIMIT, LIMIT),
        }
    }

    /// The difference.
    pub fn sub(self, other: Num) -> Num
        ensures { result ≡ difference_of millionths self other }
    {
        Num {
            micros: (self.micros - other.micros).clamp(-LIMIT, LIMIT),
        }
    }

    /// The product, toward zero.
    pub fn mul(self, other: Num) -> Num
        ensures { result ≡ product_of millionths self other }
    {
        let count = quotient(product(self.micros, other.micros), UNIT);
        Num {
            micros: saturate(count, LIMIT as u64),
        }
    }

    /// The quotient, toward zero, and 0 where `other` is 0.
    pub fn div(self, other: Num) -> Num
        ensures { result ≡ quotient_of millionths self other }
    {
        if other.micros == 0 {
            return Num { micros: 0 };
        }
        let count = quotient(product(self.micros, UNIT), other.micros);
        Num {
            micros: saturate(count, LIMIT as u64),
        }
    }

    /// The whole units, toward zero.
    pub fn trunc(self) -> Num
        ensures { result ≡ whole_of self }
    {
        Num {
            micros: self.micros / UNIT * UNIT,
        }
    }

    /// The number that a token spells, and None where the token is no numeral.
    ///
    /// A numeral is an optional minus, then digits with at most one point among, before or after them, and then
    /// optionally `e` or `E` with an optional sign and digits. Its exact value is rounded once to the nearest
    /// millionth, a half away from zero, and saturates.
    pub fn read(token: &[u8]) -> Option<Num>
        ensures found { IfSome result (IsSpelled token.now) }
        ensures only { (n : Numeral) → IsNumeral n → token.now ≡ spelling n → result ≡ Some (value_of n) }
        ensures exact { result ≡ number_at token.now }
    {
        parse(token)
    }

    /// Leaves the printed form in `out`, whatever `out` holds: a minus where the number is negative, the whole part,
    /// and where it isn't whole a point and the fraction without trailing zeros.
    pub fn print(self, out: &mut ArrayVec<u8, 24>)
        ensures { out.new.items ≡ printed self }
    {
        out.clear();
        if self.micros < 0 {
            out.push(b'-');
        }
        let count = self.micros.unsigned_abs();
        push_whole(count / 1_000_000, out);
        push_fraction(count % 1_000_000, out);
    }
}
