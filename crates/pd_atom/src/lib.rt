//! Names and atoms: a table of the names of symbols, and what tokens read as, how atoms are spelled, and what their
//! dollars stand for.
//!
//! A table is the list of its distinct names, from six that it begins with. `Symbols::intern` finds a name or adds
//! it last, TooLong exactly above 255 bytes, Full exactly at 65,536 names and a new one; a refusal changes nothing,
//! `find` tells the symbol of a name that the table has, and `cut_back` forgets the names from a number on. `read_token`, `write_atom`, `settle` and `expand` are their
//! definitions: what a token reads as, an atom's spelling, what reading that spelling gives, and an atom with its
//! dollars replaced.
//!
//! Laws: the spelling of a settled atom reads as that atom (`spellings_read`), an atom that settles to itself is
//! settled (`settled_laws`), and what is of a table stays so in a longer one (`tables_extended`). Free: want of
//! memory.
//!
//! Definitions: `Names`, `Atoms`, `Tokens`, `Expansion`; `Stored` is of the table inside.
#![tactic(auto)]

ghost use Rattle.std.specs.Prelude.{◌≡◌};

mod expansion;
mod laws;
mod spelling;
mod symbols;
mod table;
mod tokens;

pub use expansion::expand;
pub use laws::{settled_laws, spellings_read, tables_extended};
use pd_num::Num;
pub use spelling::{settle, write_atom};
use std::marker::Model;
pub use symbols::Symbols;
pub use tokens::read_token;

/// The number of a name in a table, which is what contracts see.
#[derive(Clone, Copy, Debug, PartialEq, Eq, PartialOrd, Ord, Hash)]
pub struct Sym {
    number: u32,
}

impl Model for Sym {
    ghost use Rattle.std.specs.Prelude.{ℕ};

    ghost Value = { ℕ };

    ghost view = { λ s. s.number };

    ghost inverse = { λ n. record { number = n } };
}

impl Sym {
    /// The symbol of `bang`.
    pub fn bang() -> Sym
        ensures { result ≡ 0 }
    {
        Sym { number: 0 }
    }

    /// The symbol of `float`.
    pub fn float() -> Sym
        ensures { result ≡ 1 }
    {
        Sym { number: 1 }
    }

    /// The symbol of `symbol`.
    pub fn symbol() -> Sym
        ensures { result ≡ 2 }
    {
        Sym { number: 2 }
    }

    /// The symbol of `list`.
    pub fn list() -> Sym
        ensures { result ≡ 3 }
    {
        Sym { number: 3 }
    }

    /// The symbol of `pd`.
    pub fn pd() -> Sym
        ensures { result ≡ 4 }
    {
        Sym { number: 4 }
    }

    /// The symbol of `subpatch`.
    pub fn subpatch() -> Sym
        ensures { result ≡ 5 }
    {
        Sym { number: 5 }
    }

    /// The place of the name in the table.
    pub fn number(self) -> u32
        ensures { result ≡ self }
    {
        self.number
    }
}

/// A word of a text.
#[derive(Clone, Copy, Debug, PartialEq, Eq)]
pub enum Atom {
    /// A number.
    Number(Num),
    /// A symbol.
    Symbol(Sym),
    /// A dollar and a number of at most four digits, which stands for an argument.
    Dollar(u16),
    /// A symbol in whose name a dollar stands directly before a digit.
    DollarSymbol(Sym),
    /// A comma, which parts the messages of a message box.
    Comma,
    /// A semicolon, after which a message box names a receiver.
    Semi,
}

/// Why a name has no number.
#[derive(Clone, Copy, Debug, PartialEq, Eq)]
pub enum SymbolRefusal {
    /// The name has more than 255 bytes.
    TooLong,
    /// The name is new, and the table has 65,536 names.
    Full,
}

/// An atom whose dollars are replaced.
#[derive(Clone, Copy, Debug, PartialEq, Eq)]
pub struct Expanded {
    /// The atom.
    pub atom: Atom,
    /// The number of the first argument that was missing.
    pub missing: Option<u16>,
}
