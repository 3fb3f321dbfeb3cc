//! Sends in their normal form.

ghost use Rattle.std.specs.Prelude.{◌≡◌, ◌+◌, ◌<◌, ◌≤◌, ◌++◌, ◌∷◌, [], length, max, drop, slice_range};
ghost use Rattle.pd_kind.specs.Said.{said_by};
ghost use Rattle.pd_kind.specs.Forming.{float_in as float_of_atoms, symbol_of as symbol_of_atoms, list_selector as selector_of_list, list_send, normal_send, message_send};

use crate::messages::Target;
use crate::sends::Sends;
use pd_atom::{Atom, Sym};
use pd_num::Num;
use pd_object::zero;

/// The first atom where it is a number, else 0.
pub fn float_in(atoms: &[Atom]) -> Num
    ensures { result ≡ float_of_atoms atoms.now }
{
    match atoms.first() {
        Some(Atom::Number(number)) => *number,
        _ => zero(),
    }
}

/// The first atom where it is a symbol, else `symbol`.
pub fn symbol_in(atoms: &[Atom]) -> Sym
    ensures { result ≡ symbol_of_atoms atoms.now }
{
    match atoms.first() {
        Some(Atom::Symbol(symbol)) => *symbol,
        _ => Sym::symbol(),
    }
}

/// What a `list` of these atoms has as its selector.
fn list_selector(atoms: &[Atom]) -> Sym
    ensures { result ≡ selector_of_list atoms.now }
{
    match atoms {
        [] => Sym::bang(),
        [Atom::Number(_)] => Sym::float(),
        [Atom::Symbol(_)] => Sym::symbol(),
        _ => Sym::list(),
    }
}

impl Sends {
    /// A `list` goes last: without atoms it is `bang`, with one number `float`, with one symbol `symbol`.
    pub fn send_list(&mut self, target: Target, atoms: &[Atom])
        requires row { length self.old.rows < 1024 }
        requires atoms { length self.old.atoms + length atoms.now ≤ 2048 }
        ensures sends { (said_by self.new).sends ≡ (said_by self.old).sends ++ list_send target atoms.now ∷ [] }
        ensures rows { length self.new.rows ≡ length self.old.rows + 1 }
        ensures atoms { length self.new.atoms ≤ length self.old.atoms + length atoms.now }
        ensures deed { self.new.deed ≡ self.old.deed }
        ensures notices { self.new.notices ≡ self.old.notices }
    {
        self.send(target, list_selector(atoms), atoms);
    }

    /// A `list` of the atoms of the places from `first` up to `after`, which stand there already, goes last.
    pub fn send_filled(&mut self, target: Target, first: u32, after: u32)
        requires row { length self.old.rows < 1024 }
        requires order { first ≤ after }
        requires within { after ≤ length self.old.atoms }
        ensures sends { (said_by self.new).sends ≡ (said_by self.old).sends ++ list_send target (slice_range self.old.atoms first after) ∷ [] }
        ensures rows { length self.new.rows ≡ length self.old.rows + 1 }
        ensures atoms { self.new.atoms ≡ self.old.atoms }
        ensures deed { self.new.deed ≡ self.old.deed }
        ensures notices { self.new.notices ≡ self.old.notices }
    {
        let selector = list_selector(&self.atoms.as_slice()[first as usize..after as usize]);
        self.send_again(target, selector, first, after);
    }

    /// A message of a selector and atoms goes last, in its normal form.
    pub fn send_normal(&mut self, target: Target, selector: Sym, atoms: &[Atom])
        requires row { length self.old.rows < 1024 }
        requires atoms { length self.old.atoms + length atoms.now < 2048 }
        ensures sends { (said_by self.new).sends ≡ (said_by self.old).sends ++ normal_send target selector atoms.now ∷ [] }
        ensures rows { length self.new.rows ≡ length self.old.rows + 1 }
        ensures atoms { length self.new.atoms ≤ length self.old.atoms + length atoms.now + 1 }
        ensures deed { self.new.deed ≡ self.old.deed }
        ensures notices { self.new.notices ≡ self.old.notices }
    {
        match selector.number() {
            0 => self.send(target, Sym::bang(), &[]),
            1 => self.send(target, Sym::float(), &[Atom::Number(float_in(atoms))]),
            2 => self.send(target, Sym::symbol(), &[Atom::Symbol(symbol_in(atoms))]),
            3 => self.send_list(target, atoms),
            _ => self.send(target, selector, atoms),
        }
    }

    /// The message that atoms make goes last: none make a `bang`, those that begin with a symbol have it as their selector, all
    /// others are a `list`.
    pub fn send_message(&mut self, target: Target, atoms: &[Atom])
        requires row { length self.old.rows < 1024 }
        requires atoms { length self.old.atoms + length atoms.now < 2048 }
        ensures sends { (said_by self.new).sends ≡ (said_by self.old).sends ++ message_send target atoms.now ∷ [] }
        ensures rows { length self.new.rows ≡ length self.old.rows + 1 }
        ensures atoms { length self.new.atoms ≤ length self.old.atoms + max 1 (length atoms.now) }
        ensures deed { self.new.deed ≡ self.old.deed }
        ensures notices { self.new.notices ≡ self.old.notices }
    {
        match atoms {
            [Atom::Symbol(selector), rest @ ..] => self.send_normal(target, *selector, rest),
            _ => self.send_list(target, atoms),
        }
    }

    /// A `list` of the atoms from `first` on goes last.
    fn send_list_from(&mut self, target: Target, first: u32)
        requires row { length self.old.rows < 1024 }
        requires first { first ≤ length self.old.atoms }
        requires atoms { length self.old.atoms ≤ 2048 }
        ensures sends { (said_by self.new).sends ≡ (said_by self.old).sends ++ list_send target (drop first self.old.atoms) ∷ [] }
        ensures rows { length self.new.rows ≡ length self.old.rows + 1 }
        ensures atoms { self.new.atoms ≡ self.old.atoms }
        ensures deed { self.new.deed ≡ self.old.deed }
        ensures notices { self.new.notices ≡ self.old.notices }
    {
        let atoms = self.atoms.as_slice();
        let after = atoms.len() as u32;
        let selector = list_selector(&atoms[first as usize..]);
        self.send_again(target, selector, first, after);
    }

    /// A message of the atoms from `first` on goes last, in its normal form.
    fn send_normal_from(&mut self, target: Target, selector: Sym, first: u32)
        requires row { length self.old.rows < 1024 }
        requires first { first ≤ length self.old.atoms }
        requires atoms { length self.old.atoms < 2048 }
        ensures sends { (said_by self.new).sends ≡ (said_by self.old).sends ++ normal_send target selector (drop first self.old.atoms) ∷ [] }
        ensures rows { length self.new.rows ≡ length self.old.rows + 1 }
        ensures atoms { length self.new.atoms ≤ length self.old.atoms + 1 }
        ensures deed { self.new.deed ≡ self.old.deed }
        ensures notices { self.new.notices ≡ self.old.notices }
    {
        let atoms = self.atoms.as_slice();
        let after = atoms.len() as u32;
        let number = float_in(&atoms[first as usize..]);
        let symbol = symbol_in(&atoms[first as usize..]);
        match selector.number() {
            0 => self.send(target, Sym::bang(), &[]),
            1 => self.send(target, Sym::float(), &[Atom::Number(number)]),
            2 => self.send(target, Sym::symbol(), &[Atom::Symbol(symbol)]),
            3 => self.send_list_from(target, first),
            _ => self.send_again(target, selector, first, after),
        }
    }

    /// The message that the atoms from `first` on make goes last.
    pub fn send_message_from(&mut self, target: Target, first: u32)
        requires row { length self.old.rows < 1024 }
        requires first { first ≤ length self.old.atoms }
        requires atoms { length self.old.atoms < 2048 }
        ensures sends { (said_by self.new).sends ≡ (said_by self.old).sends ++ message_send target (drop first self.old.atoms) ∷ [] }
        ensures rows { length self.new.rows ≡ length self.old.rows + 1 }
        ensures atoms { length self.new.atoms ≤ length self.old.atoms + 1 }
        ensures deed { self.new.deed ≡ self.old.deed }
        ensures notices { self.new.notices ≡ self.old.notices }
    {
        match self.atoms.as_slice().get(first as usize) {
            Some(Atom::Symbol(selector)) => {
                let selector = *selector;
                self.send_normal_from(target, selector, first + 1);
            }
            _ => self.send_list_from(target, first),
        }
    }
}
