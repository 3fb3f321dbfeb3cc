//! Sends that are yet to be delivered, with their messages.

ghost use Rattle.std.specs.Prelude.{◌≡◌, ◌+◌, ◌<◌, ◌≤◌, ◌^◌, ◌++◌, ◌∷◌, [], length, take, slice_range, vec_len, vec_capacity, IfSome, IfNone, IfOk};

use pd_atom::{Atom, Sym};
use pd_web::Hop;
use std::alloc::{AllocError, Global};
use std::marker::Model;

/// A box that says as much as a hearing may say leaves 1,024 sends and itself, at each of 1,000 depths.
const MOST_SENDS: usize = 1_025_000;

/// Each of 1,000 hearings leaves at most 2,048 atoms.
const MOST_ATOMS: usize = 2_050_048;

/// How far the delivery of a send is.
#[derive(Clone, Copy, Drop)]
pub enum Cursor {
    /// Along the wires of an outlet: the next one.
    Wires {
        next: Option<Hop>,
    },
    /// Along the owners of a name: the place of the next one. Where nobody hears, a loud send says so.
    Owners {
        name: Sym,
        next: usize,
        is_loud: bool,
    },
    /// The box is resumed.
    Again {
        node: u32,
    },
}

/// A send that has yet to be delivered, in whole or in part: the depth of its deliveries, its message, and how many atoms are left
/// when it is done.
#[derive(Clone, Copy, Drop)]
pub struct Pending {
    pub depth: u32,
    pub cursor: Cursor,
    pub selector: Sym,
    pub first: u32,
    pub after: u32,
    pub floor: u32,
}

/// A send but for how far it is. Its atoms are those of the stack from the place `first` on, up to the place `after`; the first
/// `floor` atoms are left when it is done.
#[derive(Clone, Copy, Drop)]
pub struct Frame {
    pub depth: u32,
    pub selector: Sym,
    pub first: u32,
    pub after: u32,
    pub floor: u32,
}

/// The sends that are yet to be delivered, the next one last, and the atoms of their messages. It has all its room from the start.
#[derive(Drop)]
pub struct Stack {
    pendings: Vec<Pending>,
    atoms: Vec<Atom>,
}

impl Model for Stack {
    ghost use Rattle.std.specs.Prelude.{◌≤◌, vec_capacity, reverse};
    ghost use Rattle.pd_stack.specs.Pile.{Pile};

    ghost Value = { Pile };

    ghost view = { λ s. record { pendings = reverse s.pendings.items; atoms = s.atoms.items } };

    ghost invariant = { λ s. (1025000 ≤ vec_capacity s.pendings) × (2050048 ≤ vec_capacity s.atoms) };
}

impl Stack {
    /// An empty one, with all its room.
    ///
    /// # Errors
    ///
    /// `AllocError` where memory ran out.
    pub fn new(alloc: Global) -> Result<Stack, AllocError>
        ensures { IfOk result (λ s. s ≡ record { pendings = []; atoms = [] }) }
    {
        Ok(Stack {
            pendings: Vec::with_capacity(alloc, MOST_SENDS)?,
            atoms: Vec::with_capacity(alloc, MOST_ATOMS)?,
        })
    }

    /// Nothing is left to deliver.
    pub fn clear(&mut self)
        ensures { self.new ≡ record { pendings = []; atoms = [] } }
    {
        self.pendings.clear();
        self.atoms.clear();
    }

    /// How many atoms there are.
    pub fn atom_count(&self) -> u32
        requires { length self.now.atoms < 2 ^ 32 }
        ensures { result ≡ length self.now.atoms }
    {
        self.atoms.len() as u32
    }

    /// Puts a send on top.
    #[tactic(auto, using(crate::proofs::StackLemmas::reverse_push))]
    pub fn push(&mut self, cursor: Cursor, frame: &Frame)
        requires { length self.old.pendings < 1025000 }
        ensures { self.new ≡ record {
          pendings = record { depth = frame.now.depth; cursor = cursor; selector = frame.now.selector; first = frame.now.first; after = frame.now.after; floor = frame.now.floor } ∷ self.old.pendings;
          atoms = self.old.atoms;
        } }
    {
        self.pendings.push_reserved(Pending {
            depth: frame.depth,
            cursor,
            selector: frame.selector,
            first: frame.first,
            after: frame.after,
            floor: frame.floor,
        });
    }

    /// Takes the send on top.
    #[tactic(auto, using(crate::proofs::StackLemmas::reverse_pop, crate::proofs::StackLemmas::reverse_none))]
    pub(crate) fn pop(&mut self) -> Option<Pending>
        ensures some { IfSome result (λ p. self.old.pendings ≡ p ∷ self.new.pendings) }
        ensures none { IfNone result (self.old.pendings ≡ []) }
        ensures end { IfNone result (self.new.pendings ≡ []) }
        ensures atoms { self.new.atoms ≡ self.old.atoms }
    {
        self.pendings.pop()
    }

    /// Puts atoms behind the others.
    pub fn push_atoms(&mut self, atoms: &[Atom])
        requires { length self.old.atoms + length atoms.now ≤ 2050048 }
        ensures { self.new ≡ record { pendings = self.old.pendings; atoms = self.old.atoms ++ atoms.now } }
    {
        append(&mut self.atoms, atoms);
    }

    /// Leaves the first so many atoms.
    pub(crate) fn cut_atoms(&mut self, count: u32)
        ensures { self.new ≡ record { pendings = self.old.pendings; atoms = take count self.old.atoms } }
    {
        self.atoms.truncate(count as usize);
    }

    /// The atoms of a message.
    pub fn atoms(&self, first: u32, after: u32) -> &[Atom]
        requires order { first ≤ after }
        requires within { after ≤ length self.now.atoms }
        ensures { result.now ≡ slice_range self.now.atoms first after }
    {
        &self.atoms[first as usize..after as usize]
    }
}

/// Puts atoms last in a list with room for them.
fn append(list: &mut Vec<Atom>, atoms: &[Atom])
    requires { vec_len list.old + length atoms.now ≤ vec_capacity list.old }
    ensures items { list.new.items ≡ list.old.items ++ atoms.now }
    ensures capacity { vec_capacity list.new ≡ vec_capacity list.old }
{
    for atom in atoms {
        list.push_reserved(*atom);
    }
}
