//! The keys of ends and wires.

ghost use Rattle.std.specs.Prelude.{◌≡◌};

use std::marker::Model;

/// An outlet or an inlet. Contracts see it as its number.
///
/// It carries no generation: once the end is dropped, a later end may be named by an equal value.
#[derive(Clone, Copy, Debug, PartialEq, Eq, PartialOrd, Ord, Hash)]
pub struct End {
    pub(crate) key: usize,
}

impl Model for End {
    ghost use Rattle.std.specs.Prelude.{ℕ};

    ghost Value = { ℕ };

    ghost view = { λ e. e.key };

    ghost inverse = { λ n. record { key = n } };
}

impl End {
    /// A number that no other live end of the same book has.
    pub fn number(self) -> usize
        ensures { result ≡ self }
    {
        self.key
    }

    /// The end with this number, whether it is one's or not.
    pub fn of_number(number: usize) -> End
        ensures { result ≡ number }
    {
        End { key: number }
    }
}

/// A wire. Contracts see it as a number, which differs for different live wires of one book.
///
/// It carries no generation: once the wire is cut, a later wire may be named by an equal value.
#[derive(Clone, Copy, Debug, PartialEq, Eq, PartialOrd, Ord, Hash)]
pub struct WireKey {
    pub(crate) key: usize,
}

impl Model for WireKey {
    ghost use Rattle.std.specs.Prelude.{ℕ};

    ghost Value = { ℕ };

    ghost view = { λ k. k.key };

    ghost inverse = { λ n. record { key = n } };
}

impl WireKey {
    /// A number that no other live wire of the same book has.
    pub fn number(self) -> usize
        ensures { result ≡ self }
    {
        self.key
    }

    /// The key with this number, whether it is a wire's or not.
    pub fn of_number(number: usize) -> WireKey
        ensures { result ≡ number }
    {
        WireKey { key: number }
    }
}
