//! The lists of a command, which have all the room that a record asks for.

ghost use Rattle.std.specs.Prelude.{◌≡◌, ◌≤◌, vec_capacity};

use pd_atom::Atom;
use std::marker::Model;

/// The most atoms of a record.
pub(crate) const MOST_ATOMS: usize = 65_536;

/// The most numbers of a path.
pub(crate) const MOST_NUMBERS: usize = 255;

/// A list of atoms, with room for 65,536.
#[derive(Debug, Drop)]
pub struct CommandAtoms {
    items: Vec<Atom>,
}

impl Model for CommandAtoms {
    ghost use Rattle.std.specs.Prelude.{List, ◌≤◌, vec_capacity};
    ghost use Rattle.pd_atom.specs.declared.Atom.{Atom};

    ghost Value = { List Atom };

    ghost view = { λ a. a.items.items };

    ghost invariant = { λ a. 65536 ≤ vec_capacity a.items };
}

impl CommandAtoms {
    pub fn from_vec(items: Vec<Atom>) -> CommandAtoms
        requires { MOST_ATOMS ≤ vec_capacity items }
        ensures { result ≡ items.items }
    {
        CommandAtoms { items }
    }

    pub fn into_vec(self) -> Vec<Atom>
        ensures items { result.items ≡ self }
        ensures room { MOST_ATOMS ≤ vec_capacity result }
    {
        self.items
    }

    pub fn as_slice(&self) -> &[Atom]
        ensures { result.now ≡ self.now }
    {
        self.items.as_slice()
    }
}

/// A path of box numbers, with room for 255.
#[derive(Debug, Drop)]
pub struct CommandPath {
    items: Vec<u32>,
}

impl Model for CommandPath {
    ghost use Rattle.std.specs.Prelude.{List, ℕ, ◌≤◌, vec_capacity};

    ghost Value = { List ℕ };

    ghost view = { λ p. p.items.items };

    ghost invariant = { λ p. 255 ≤ vec_capacity p.items };
}

impl CommandPath {
    pub fn from_vec(items: Vec<u32>) -> CommandPath
        requires { MOST_NUMBERS ≤ vec_capacity items }
        ensures { result ≡ items.items }
    {
        CommandPath { items }
    }

    pub fn into_vec(self) -> Vec<u32>
        ensures items { result.items ≡ self }
        ensures room { MOST_NUMBERS ≤ vec_capacity result }
    {
        self.items
    }

    pub fn as_slice(&self) -> &[u32]
        ensures { result.now ≡ self.now }
    {
        self.items.as_slice()
    }
}
