//! What a hearing gives: sends, a deed and notices.

ghost use Rattle.std.specs.Prelude.{◌≡◌, ◌+◌, ◌<◌, ◌≤◌, ◌++◌, ◌∷◌, [], true, length, map, IfOk};
ghost use Rattle.pd_kind.specs.Rows.{are_within, send_of};
ghost use Rattle.pd_kind.specs.Forming.{cut_atoms};

use crate::messages::{Deed, Notice, Target};
use pd_atom::{Atom, Sym};
use pd_num::Num;
use pd_object::{Bounded, Row};
use std::alloc::{AllocError, Global};

/// A send: its target, the selector of its message, and the places of the message's first atom and of the one behind its last.
#[derive(Clone, Copy, Debug, PartialEq, Eq, Drop)]
pub struct SendRow {
    pub target: Target,
    pub selector: Sym,
    pub first: u32,
    pub after: u32,
}

/// At most 1,024 sends, with their room.
pub type SendRows = Bounded<SendRow, 1024>;

/// At most 2,048 atoms, with their room.
pub type Atoms = Bounded<Atom, 2048>;

/// At most 2,048 notices, with their room.
pub type Notices = Bounded<Notice, 2048>;

/// What a hearing gives: sends in order, with the atoms of their messages in one list, a deed, and lines to print before
/// the sends.
#[derive(Debug, Drop)]
pub struct Sends {
    pub rows: SendRows,
    pub atoms: Atoms,
    pub deed: Deed,
    pub notices: Notices,
    ghost within: { are_within (length atoms) rows ≡ true },
}

impl Sends {
    ghost use Rattle.pd_kind.specs.Said.{said_by, silent, sends_only, bang_to, number_to, symbol_to, deaf};
    ghost use Rattle.pd_kind.specs.declared.messages.Deed.TheVariants.{Nothing};

    /// Nothing, with all the room.
    pub fn new(alloc: Global) -> Result<Sends, AllocError>
        ensures { IfOk result (λ s. said_by s ≡ silent) }
    {
        Ok(Sends {
            rows: Bounded::new(alloc)?,
            atoms: Bounded::new(alloc)?,
            deed: Deed::Nothing,
            notices: Bounded::new(alloc)?,
        })
    }

    /// Nothing is said any more.
    pub fn clear(&mut self)
        ensures rows { self.new.rows ≡ [] }
        ensures atoms { self.new.atoms ≡ [] }
        ensures deed { self.new.deed ≡ Nothing }
        ensures notices { self.new.notices ≡ [] }
    {
        self.rows.clear();
        self.atoms.clear();
        self.deed = Deed::Nothing;
        self.notices.clear();
    }

    /// A send goes last.
    pub fn send(&mut self, target: Target, selector: Sym, atoms: &[Atom])
        requires row { length self.old.rows < 1024 }
        requires atoms { length self.old.atoms + length atoms.now ≤ 2048 }
        ensures sends { (said_by self.new).sends ≡ (said_by self.old).sends ++ record { target = target; selector = selector; atoms = atoms.now } ∷ [] }
        ensures rows { length self.new.rows ≡ length self.old.rows + 1 }
        ensures atoms { length self.new.atoms ≡ length self.old.atoms + length atoms.now }
        ensures last { self.new.atoms ≡ self.old.atoms ++ atoms.now }
        ensures deed { self.new.deed ≡ self.old.deed }
        ensures notices { self.new.notices ≡ self.old.notices }
    {
        let first = self.atoms.len() as u32;
        self.atoms.extend(atoms);
        let after = self.atoms.len() as u32;
        self.rows.push(SendRow {
            target,
            selector,
            first,
            after,
        });
    }

    /// A send goes last, with the atoms of the places from `first` up to `after`, which stand there already.
    pub fn send_again(&mut self, target: Target, selector: Sym, first: u32, after: u32)
        requires row { length self.old.rows < 1024 }
        requires order { first ≤ after }
        requires within { after ≤ length self.old.atoms }
        ensures sends { (said_by self.new).sends ≡ (said_by self.old).sends ++ send_of self.old.atoms (record { target = target; selector = selector; first = first; after = after }) ∷ [] }
        ensures rows { length self.new.rows ≡ length self.old.rows + 1 }
        ensures atoms { self.new.atoms ≡ self.old.atoms }
        ensures deed { self.new.deed ≡ self.old.deed }
        ensures notices { self.new.notices ≡ self.old.notices }
    {
        self.rows.push(SendRow {
            target,
            selector,
            first,
            after,
        });
    }

    /// Atoms go last, as many as fit among 1,024, for sends that are made of them later.
    pub fn fill(&mut self, atoms: &[Atom])
        requires { length self.old.atoms ≤ 1024 }
        ensures atoms { self.new.atoms ≡ cut_atoms (self.old.atoms ++ atoms.now) }
        ensures small { length self.new.atoms ≤ 1024 }
        ensures rows { self.new.rows ≡ self.old.rows }
        ensures sends { (said_by self.new).sends ≡ (said_by self.old).sends }
        ensures deed { self.new.deed ≡ self.old.deed }
        ensures notices { self.new.notices ≡ self.old.notices }
    {
        self.atoms.extend_up_to(1024, atoms);
    }

    /// An atom goes last, behind those of the sends.
    pub fn push_atom(&mut self, atom: Atom)
        requires { length self.old.atoms < 2048 }
        ensures sends { (said_by self.new).sends ≡ (said_by self.old).sends }
        ensures rows { self.new.rows ≡ self.old.rows }
        ensures atoms { self.new.atoms ≡ self.old.atoms ++ atom ∷ [] }
        ensures deed { self.new.deed ≡ self.old.deed }
        ensures notices { self.new.notices ≡ self.old.notices }
    {
        self.atoms.push(atom);
    }

    /// A notice goes last.
    pub fn note(&mut self, notice: Notice)
        requires { length self.old.notices < 2048 }
        ensures rows { self.new.rows ≡ self.old.rows }
        ensures atoms { self.new.atoms ≡ self.old.atoms }
        ensures deed { self.new.deed ≡ self.old.deed }
        ensures notices { self.new.notices ≡ self.old.notices ++ notice ∷ [] }
    {
        self.notices.push(notice);
    }

    /// Says nothing.
    pub fn say_nothing(&mut self)
        ensures { said_by self.new ≡ silent }
    {
        self.clear();
    }

    /// Says a bang to an outlet, and nothing else.
    pub fn say_bang(&mut self, outlet: u32)
        ensures { said_by self.new ≡ sends_only (bang_to outlet ∷ []) }
    {
        self.clear();
        self.send(Target::Outlet(outlet), Sym::bang(), &[]);
    }

    /// Says a number to an outlet, and nothing else.
    pub fn say_number(&mut self, outlet: u32, number: Num)
        ensures { said_by self.new ≡ sends_only (number_to outlet number ∷ []) }
    {
        self.clear();
        self.send(
            Target::Outlet(outlet),
            Sym::float(),
            &[Atom::Number(number)],
        );
    }

    /// Says a symbol to an outlet, and nothing else.
    pub fn say_symbol(&mut self, outlet: u32, symbol: Sym)
        ensures { said_by self.new ≡ sends_only (symbol_to outlet symbol ∷ []) }
    {
        self.clear();
        self.send(
            Target::Outlet(outlet),
            Sym::symbol(),
            &[Atom::Symbol(symbol)],
        );
    }

    /// Says that the row's objects have no method for the selector, and nothing else.
    pub fn refuse(&mut self, row: Row, selector: Sym)
        ensures { said_by self.new ≡ deaf row selector }
    {
        self.clear();
        self.note(Notice::NoMethod { row, selector });
    }
}
