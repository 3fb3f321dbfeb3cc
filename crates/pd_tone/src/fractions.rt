//! Fractions of a part of the circle, as numbers of 64 bits: so many of 2^64 equal shares.

ghost use Rattle.std.specs.Prelude.{◌≡◌, ◌<◌, ◌≤◌, ◌+◌, ◌*◌, ◌/◌, ◌%◌, ◌^◌};

/// The product over 2^64, cut.
#[inline]
#[tactic(auto, using(crate::proofs::Shares::high_small, crate::proofs::Shares::product_fits))]
pub(crate) fn high_product(a: u64, b: u64) -> u64
    ensures { result ≡ a * b / 2 ^ 64 }
{
    (u128::from(a) * u128::from(b) / (1 << 64)) as u64
}

/// So many shares of a part that fit in the rest, and what is left of each.
#[inline]
#[tactic(auto, using(crate::proofs::Shares::digit_small, crate::proofs::Shares::digit_is, crate::proofs::Shares::digit_fits))]
fn digit(part: u64, rest: u64, shares: u64) -> (u64, u64)
    requires part { 0 < part }
    requires small { part ≤ 46875000000 }
    requires rest { rest < part }
    requires some { 0 < shares }
    requires shares { shares ≤ 268435456 }
    ensures value { part * result.0 + result.1 ≡ rest * shares }
    ensures digit { result.0 < shares }
    ensures rest { result.1 < part }
{
    (rest * shares / part, rest * shares % part)
}

/// The fraction of a part that a rest is, cut: in digits of 28, 28 and 8 bits.
#[inline]
fn cut_fraction(part: u64, rest: u64) -> u64
    requires part { 0 < part }
    requires small { part ≤ 46875000000 }
    requires rest { rest < part }
    ensures below { result * part ≤ rest * 2 ^ 64 }
    ensures above { rest * 2 ^ 64 < result * part + part }
{
    let (high, rest) = digit(part, rest, 1 << 28);
    let (middle, rest) = digit(part, rest, 1 << 28);
    let (low, _) = digit(part, rest, 1 << 8);
    high * (1 << 36) + middle * (1 << 8) + low
}

/// The least fraction of a part that is above a rest.
#[inline]
#[tactic(auto, using(crate::proofs::Shares::fraction_fits, crate::proofs::Shares::fraction_whole, crate::proofs::Shares::fraction_near))]
pub(crate) fn fraction(part: u64, rest: u64) -> u64
    requires part { 0 < part }
    requires small { part ≤ 46875000000 }
    requires rest { rest < part }
    ensures whole { result * part / 2 ^ 64 ≡ rest }
    ensures near { result * part % 2 ^ 64 ≤ part }
{
    cut_fraction(part, rest) + 1
}

/// The part of the circle and the fraction of it, after a step of so many parts and such a fraction.
#[inline]
#[tactic(auto, using(crate::proofs::Shares::carried, crate::proofs::Shares::uncarried))]
pub(crate) fn stepped(index: u64, fraction: u64, parts: u64, share: u64) -> (u64, u64)
    requires index { index < 2048 }
    requires parts { parts < 2048 }
    ensures index { result.0 ≡ (index + parts + (fraction + share) / 2 ^ 64) % 2048 }
    ensures fraction { result.1 ≡ (fraction + share) % 2 ^ 64 }
{
    match fraction.checked_add(share) {
        Some(sum) => ((index + parts) % 2048, sum),
        None => ((index + parts + 1) % 2048, fraction.wrapping_add(share)),
    }
}
