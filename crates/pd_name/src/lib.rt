//! Names and their owners: for each class and name the list of the boxes and canvases that are found by it, in an
//! order that the caller gives, and a number of spare places.
//!
//! `bind` puts an owner at its index, `unbind` takes one out and keeps the others' order, and `reserve` makes
//! places spare so that later calls of `bind` can't fail; all other lists and places stay. An owner that isn't
//! there changes nothing. After want of memory all is as before. Free: want of memory, and how long a call takes.
//!
//! Definitions: `Rows` (owners, spare places, what stays); `Stored` is of the lists inside.
#![tactic(auto)]

ghost use Rattle.std.specs.Prelude.{◌≡◌, ◌<◌, ◌≤◌, ◌+◌, [], length, insert, IsOkAnd, OnOk, OnErr, IsOk};
ghost use Rattle.pd_name.specs.Rows.{owners_of, spare_of, without, AllStay, OthersStay, OwnersStay};

mod lists;

use indexmap::IndexMap;
use lists::{Key, Lists};
use pd_atom::Sym;
use std::alloc::{AllocError, Global};
use std::marker::Model;

/// What a name is looked up for.
#[derive(Clone, Copy, Debug, PartialEq, Eq, Hash)]
pub enum Class {
    /// What hears messages that are sent to the name.
    Receiver,
    /// An array of samples.
    Table,
    /// A `catch~` box, to which signals are added.
    Catch,
    /// A `send~` box, from which signals are received.
    Bus,
    /// A `delwrite~` box, which holds a delay line.
    Delay,
}

/// The owners of names, which contracts see as a list of owners and a number of spare places for each class and name.
#[derive(Drop)]
pub struct Names {
    lists: Lists,
    alloc: Global,
}

impl Model for Names {
    ghost use Rattle.std.specs.Prelude.{List};
    ghost use Rattle.pd_name.specs.Rows.{Row};
    ghost use Rattle.pd_name.specs.Stored.{rows_of};

    ghost Value = { List Row };

    ghost view = { λ n. rows_of n.lists.entries };
}

impl Names {
    /// Names without owners. They take no memory yet.
    pub fn new(alloc: Global) -> Result<Names, AllocError>
        ensures { IsOkAnd result (λ names. names ≡ []) }
    {
        Ok(Names {
            lists: IndexMap::new(alloc),
            alloc,
        })
    }

    /// Puts an owner at a place of the name's list, before those that stand there and behind it.
    pub fn bind(
        &mut self,
        class: Class,
        name: Sym,
        owner: u32,
        index: u32,
    ) -> Result<(), AllocError>
        requires { index ≤ length (owners_of self.old class name) }
        ensures owners { OnOk result (owners_of self.new class name ≡ insert (owners_of self.old class name) index owner) }
        ensures spare { OnOk result (spare_of self.old class name ≤ spare_of self.new class name + 1) }
        ensures others { OthersStay self.old self.new class name }
        ensures succeeds { 0 < spare_of self.old class name → IsOk result }
        ensures err { OnErr result (AllStay self.old self.new) }
    {
        lists::bind(
            &mut self.lists,
            self.alloc,
            Key { class, name },
            owner,
            index as usize,
        )
    }

    /// Makes room, so that so many more owners can be bound to the name without memory.
    pub fn reserve(&mut self, class: Class, name: Sym, more: u32) -> Result<(), AllocError>
        ensures owners { OwnersStay self.old self.new }
        ensures room { OnOk result (more ≤ spare_of self.new class name) }
        ensures spare { spare_of self.old class name ≤ spare_of self.new class name }
        ensures others { OthersStay self.old self.new class name }
        ensures succeeds { more ≤ spare_of self.old class name → IsOk result }
        ensures err { OnErr result (AllStay self.old self.new) }
    {
        lists::reserve(
            &mut self.lists,
            self.alloc,
            Key { class, name },
            more as usize,
        )
    }

    /// Takes an owner out of the name's list, at its first place there. An owner that isn't there changes nothing.
    pub fn unbind(&mut self, class: Class, name: Sym, owner: u32)
        ensures owners { owners_of self.new class name ≡ without owner (owners_of self.old class name) }
        ensures places { length (owners_of self.new class name) + spare_of self.new class name ≡ length (owners_of self.old class name) + spare_of self.old class name }
        ensures others { OthersStay self.old self.new class name }
    {
        lists::unbind(&mut self.lists, Key { class, name }, owner);
    }

    /// The owners of the name, in the order in which their places put them.
    pub fn owners(&self, class: Class, name: Sym) -> &[u32]
        ensures { result.now ≡ owners_of self.now class name }
    {
        lists::owners(&self.lists, Key { class, name })
    }
}
