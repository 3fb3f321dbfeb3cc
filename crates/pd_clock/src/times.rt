//! Sampling rates and times.

ghost use Rattle.std.specs.Prelude.{◌≡◌, ◌≢◌, IfSome, IfNone};
ghost use Rattle.pd_clock.specs.Rates.{samples};

use std::marker::Model;

/// A sampling rate.
#[derive(Clone, Copy, Debug, PartialEq, Eq)]
pub enum Rate {
    R44100,
    R48000,
    R88200,
    R96000,
}

impl Rate {
    /// The rate of a number of samples a second. `None` exactly where it is none of the four.
    pub fn of_hz(hz: u32) -> Option<Rate>
        ensures known { IfSome result (λ rate. samples rate ≡ hz) }
        ensures unknown { IfNone result ((rate : Rate) → samples rate ≢ hz) }
    {
        match hz {
            44_100 => Some(Rate::R44100),
            48_000 => Some(Rate::R48000),
            88_200 => Some(Rate::R88200),
            96_000 => Some(Rate::R96000),
            _ => None,
        }
    }

    /// How many samples there are in a second.
    pub fn hz(self) -> u32
        ensures { result ≡ samples self }
    {
        match self {
            Rate::R44100 => 44_100,
            Rate::R48000 => 48_000,
            Rate::R88200 => 88_200,
            Rate::R96000 => 96_000,
        }
    }
}

/// A time since the start, as a whole number of units, which is what contracts see.
///
/// At a rate of R samples a second, a unit is 1/R of a nanosecond. So one millionth of a millisecond is R units, and
/// a block of 64 samples is 64 * 10^9 units exactly, at every rate.
#[derive(Clone, Copy, Debug, PartialEq, Eq, PartialOrd, Ord, Hash)]
pub struct Time {
    units: u128,
}

impl Model for Time {
    ghost use Rattle.std.specs.Prelude.{ℕ};

    ghost Value = { ℕ };

    ghost view = { λ t. t.units };

    ghost inverse = { λ n. record { units = n } };
}

impl Time {
    /// The time of a number of units.
    pub fn of_units(units: u128) -> Time
        ensures { result ≡ units }
    {
        Time { units }
    }

    /// The number of units.
    pub fn units(self) -> u128
        ensures { result ≡ self }
    {
        self.units
    }
}
