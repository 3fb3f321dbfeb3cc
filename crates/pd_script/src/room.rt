//! The room for the lists of a command.

ghost use Rattle.std.specs.Prelude.{◌≡◌, ◌↔◌, ◌≤◌, IfOk, IsTrue, vec_capacity};
ghost use Rattle.pd_script.specs.Room.{IsWhole, HasRest};

use crate::commands::Command;
use crate::lists::{CommandAtoms, CommandPath, MOST_ATOMS, MOST_NUMBERS};
use pd_atom::Atom;
use std::alloc::{AllocError, Global};
use std::mem;

/// A list for the atoms of a command, and one for the numbers of its path.
#[derive(Debug, Drop)]
pub struct CommandRoom {
    pub(crate) atoms: Vec<Atom>,
    pub(crate) path: Vec<u32>,
}

impl CommandRoom {
    /// Room for 65,536 atoms and for a path of 255 numbers, which is enough for every record.
    pub fn new(alloc: Global) -> Result<CommandRoom, AllocError>
        ensures { IfOk result IsWhole }
    {
        Ok(CommandRoom {
            atoms: Vec::with_capacity(alloc, MOST_ATOMS)?,
            path: Vec::with_capacity(alloc, MOST_NUMBERS)?,
        })
    }

    /// Takes the list of atoms out.
    pub(crate) fn take_atoms(&mut self) -> CommandAtoms
        requires { MOST_ATOMS ≤ vec_capacity self.old.atoms }
        ensures atoms { result ≡ self.old.atoms.items }
        ensures path { self.new.path ≡ self.old.path }
    {
        let alloc = *self.atoms.allocator();
        CommandAtoms::from_vec(mem::replace(&mut self.atoms, Vec::new(alloc)))
    }

    /// Takes the path out.
    pub(crate) fn take_path(&mut self) -> CommandPath
        requires { MOST_NUMBERS ≤ vec_capacity self.old.path }
        ensures path { result ≡ self.old.path.items }
        ensures atoms { self.new.atoms ≡ self.old.atoms }
    {
        let alloc = *self.path.allocator();
        CommandPath::from_vec(mem::replace(&mut self.path, Vec::new(alloc)))
    }

    /// Takes the lists of a command back.
    pub fn give_back(&mut self, cmd: Command)
        requires { HasRest cmd self.old }
        ensures { IsWhole self.new }
    {
        match cmd {
            Command::Send { atoms, .. } => self.atoms = atoms.into_vec(),
            Command::Edit { place, edit } => {
                self.path = place.path.into_vec();
                self.atoms = edit.into_text().into_vec();
            }
            Command::Show { path } => self.path = path.into_vec(),
            Command::Save { .. } | Command::Undo | Command::Redo => {}
        }
    }

    /// Whether both lists are here with all their room.
    pub fn is_whole(&self) -> bool
        ensures { IsTrue result ↔ IsWhole self.now }
    {
        self.atoms.capacity() >= MOST_ATOMS && self.path.capacity() >= MOST_NUMBERS
    }
}
