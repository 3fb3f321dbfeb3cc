//! Reading a numeral: its parts from the left, and the count that they are worth.

ghost use Rattle.std.specs.Prelude.{◌≡◌, ℕ, ◌+◌, ◌-◌, ◌*◌, ◌^◌, ◌≤◌, ◌++◌, min, take, length, if◌then◌else◌};
ghost use Rattle.std.specs.Option.{option_map};
ghost use Rattle.std.specs.Str.Parse.{digits_value, digits_value_after};
ghost use Rattle.pd_num.specs.Cut.{exponent_cut};
ghost use Rattle.pd_num.specs.Numeral.{AreDigits, fraction_digits, is_negative, magnitude_of};
ghost use Rattle.pd_num.specs.Reading.{digits_at, after_digits, minus_at, after_minus, fraction_at, after_fraction, sign_at, after_sign, all_digits, exponent_at, number_at};
ghost use Rattle.pd_num.specs.Scale.{millionths};

use crate::numbers::Num;

/// A power of ten that no count of digits makes up for.
const FAR: u128 = 1_000_000_000_000_000_000_000_000_000_000;

/// The greatest count of ten-millionths that is told apart.
const CAP: u64 = 10_000_000_000_000_000;

/// Whether a minus comes first, and what is behind it.
fn minus(bytes: &[u8]) -> (bool, &[u8])
    ensures minus { result.0 ≡ minus_at bytes.now }
    ensures rest { result.1.now ≡ after_minus bytes.now }
{
    match bytes {
        [b'-', rest @ ..] => (true, rest),
        _ => (false, bytes),
    }
}

/// The digits at the front, and what is behind them.
fn digits(bytes: &[u8]) -> (&[u8], &[u8])
    ensures digits { result.0.now ≡ digits_at bytes.now }
    ensures rest { result.1.now ≡ after_digits bytes.now }
{
    for (i, b) in bytes.iter().enumerate() {
        if !b.is_ascii_digit() {
            return bytes.split_at(i);
        }
    }
    bytes.split_at(bytes.len())
}

/// The digits behind a point, where one comes first, and what is behind them.
fn fraction(bytes: &[u8]) -> (&[u8], &[u8])
    ensures digits { result.0.now ≡ fraction_digits (fraction_at bytes.now) }
    ensures rest { result.1.now ≡ after_fraction bytes.now }
{
    match bytes {
        [b'.', rest @ ..] => digits(rest),
        _ => bytes.split_at(0),
    }
}

/// Whether a minus comes first, and what is behind a sign.
fn sign(bytes: &[u8]) -> (bool, &[u8])
    ensures sign { result.0 ≡ is_negative (sign_at bytes.now) }
    ensures rest { result.1.now ≡ after_sign bytes.now }
{
    match bytes {
        [b'-', rest @ ..] => (true, rest),
        [b'+', rest @ ..] => (false, rest),
        _ => (false, bytes),
    }
}

/// Whether the bytes are digits, and one at least.
fn are_digits(bytes: &[u8]) -> bool
    ensures { result ≡ all_digits bytes.now }
{
    let (front, rest) = digits(bytes);
    !front.is_empty() && rest.is_empty()
}

/// The number of the digits, or the bound where it is above it.
fn power(digits: &[u8]) -> u128
    requires { AreDigits digits.now }
    ensures { result ≡ min (digits_value 10 digits.now) FAR }
{
    let mut total: u128 = 0;
    for b in digits {
        total = (total * 10 + u128::from(*b - b'0')).min(FAR);
    }
    total
}

/// The exponent that the bytes are: whether it is negative, and its number, 0 where there is none.
#[tactic(auto, unfolding(crate::specs::Reading::exponent_at))]
fn exponent(bytes: &[u8]) -> Option<(bool, u128)>
    ensures { result ≡ option_map exponent_cut (exponent_at bytes.now) }
{
    match bytes {
        [] => Some((false, 0)),
        [b'e' | b'E', rest @ ..] => {
            let (negative, rest) = sign(rest);
            if are_digits(rest) {
                Some((negative, power(rest)))
            } else {
                None
            }
        }
        _ => None,
    }
}

/// The number of `total` followed by the next digits, of which `left` are wanted, and how many are wanted still.
fn push_digits(total: u64, left: u128, digits: &[u8]) -> (u64, u128)
    requires digits { AreDigits digits.now }
    requires small { total ≤ CAP }
    ensures total { result.0 ≡ min (digits_value_after 10 total (take left digits.now)) CAP }
    ensures left { result.1 ≡ left - length digits.now }
{
    let mut total = total;
    let mut left = left;
    for b in digits {
        if left > 0 {
            total = (total * 10 + u64::from(*b - b'0')).min(CAP);
            left -= 1;
        }
    }
    (total, left)
}

/// The number of `total` followed by zeros.
fn push_zeros(total: u64, zeros: u128) -> u64
    requires { total ≤ CAP }
    ensures { result ≡ min (total * 10 ^ zeros) CAP }
{
    let mut total = total;
    let count: u32 = if zeros < 17 { zeros as u32 } else { 17 };
    for i in 0..count {
        total = (total * 10).min(CAP);
    }
    total
}

/// The millionths of a numeral without its minus.
fn magnitude(whole: &[u8], fraction: &[u8], negative: bool, power: u128) -> u64
    requires whole { AreDigits whole.now }
    requires fraction { AreDigits fraction.now }
    requires power { power ≤ FAR }
    ensures value { (p : ℕ) → power ≡ min p FAR →
        result ≡ magnitude_of (whole.now ++ fraction.now) (length fraction.now) (if negative then 0 else p) (if negative then p else 0) }
    ensures small { result ≤ millionths.limit }
{
    let places = whole.len() as u128 + 7;
    let left = if negative {
        places.saturating_sub(power)
    } else {
        places + power
    };
    let (total, left) = push_digits(0, left, whole);
    let (total, left) = push_digits(total, left, fraction);
    let total = push_zeros(total, left);
    (total + 5) / 10
}

/// The number that the bytes are.
#[tactic(auto, unfolding(crate::specs::Reading::numeral_at, crate::specs::Reading::number_at))]
pub(crate) fn parse(token: &[u8]) -> Option<Num>
    ensures { result ≡ number_at token.now }
{
    let (minus, rest) = minus(token);
    let (whole, rest) = digits(rest);
    let (fraction, rest) = fraction(rest);
    let (negative, power) = exponent(rest)?;
    if whole.len() + fraction.len() == 0 {
        return None;
    }
    let count = magnitude(whole, fraction, negative, power);
    Some(Num::of_magnitude(minus, count))
}
