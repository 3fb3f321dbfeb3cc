//! Whole counts, and the steps of their arithmetic in 128 bits.

ghost use Rattle.std.specs.Prelude.{◌≡◌, ◌≤◌, ◌<◌, ◌^◌, ◌*ℤ◌, ◌≤ℤ◌, pos, neg_ℤ, int_div, unsigned_abs};
ghost use Rattle.pd_num.specs.Scale.{saturated};

/// The nearest count to `count` whose magnitude is at most `limit`.
pub(crate) fn saturate(count: i128, limit: u64) -> i64
    requires { limit < 2 ^ 63 }
    ensures value { result ≡ saturated limit count }
    ensures above { neg_ℤ (pos limit) ≤ℤ result }
    ensures below { result ≤ℤ pos limit }
{
    let most = i128::from(limit);
    if count > most {
        limit as i64
    } else if count < -most {
        -(limit as i64)
    } else {
        count as i64
    }
}

/// The product of two counts.
pub(crate) fn product(a: i64, b: i64) -> i128
    requires left { unsigned_abs a ≤ 10 ^ 18 }
    requires right { unsigned_abs b ≤ 10 ^ 18 }
    ensures value { result ≡ a *ℤ b }
    ensures small { unsigned_abs result ≤ 10 ^ 36 }
{
    i128::from(a) * i128::from(b)
}

/// The quotient of two counts, toward zero.
pub(crate) fn quotient(count: i128, by: i64) -> i128
    requires small { unsigned_abs count ≤ 10 ^ 36 }
    requires divisor { 0 < unsigned_abs by }
    ensures { result ≡ int_div count by }
{
    count / i128::from(by)
}
