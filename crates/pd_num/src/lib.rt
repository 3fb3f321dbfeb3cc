//! Numbers and signal values in fixed point.
//!
//! A number (`Num`) is a whole count of millionths of magnitude at most 10^15, a signal value (`Sig`) one of
//! billionths of magnitude at most 10^18. `add`, `sub`, `mul` and `div` of both give the exact sum, difference,
//! product and quotient, rounded toward zero and saturated, and 0 for a zero divisor. `of_micros` and `of_nanos`
//! answer None exactly out of range; `of_num` and `to_num` lead from the one to the other.
//!
//! `Num::read` gives the value of a numeral, an exact fraction that is rounded once, halves away from zero, and
//! None exactly for a token that is no numeral. `Num::print` leaves the printed form, and a printed number reads as
//! itself. Two laws say so of the definitions: `numerals_read` (each numeral is found, and nothing else) and
//! `printed_again`.
//!
//! No call takes memory. Nothing is left free.
//!
//! Definitions: `Scale` (ranges, saturation, the four operations), `Cut` (rounding toward zero), `Numeral` (what a
//! numeral is and is worth), `Reading` (the same from the left), `Printing`.
#![tactic(auto)]

ghost use Rattle.std.specs.Prelude.{◌≡◌, ℕ, ℤ, List, Some, IfSome};
ghost use Rattle.pd_num.specs.Numeral.{Numeral, IsNumeral, spelling, value_of};
ghost use Rattle.pd_num.specs.Printing.{printed};
ghost use Rattle.pd_num.specs.Reading.{number_at, IsSpelled};
ghost use Rattle.pd_num.specs.Scale.{millionths, IsInRange};

mod counts;
mod numbers;
mod printing;
mod reading;
mod signals;

pub use numbers::Num;
pub use signals::Sig;

/// `number_at` finds each numeral's value, and nothing else.
pub fn numerals_read()
    ensures each { (n : Numeral) → IsNumeral n → number_at (spelling n) ≡ Some (value_of n) }
    ensures found { (bs : List ℕ) → IfSome (number_at bs) (IsSpelled bs) }
{}

/// A printed number is a numeral, and its value is the number.
pub fn printed_again()
    ensures spelled { (z : ℤ) → IsInRange millionths z → IsSpelled (printed z) z }
    ensures read { (z : ℤ) → IsInRange millionths z → number_at (printed z) ≡ Some z }
{}
