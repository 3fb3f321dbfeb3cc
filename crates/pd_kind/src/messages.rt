//! Messages, and what a hearing gives.

ghost use Rattle.std.specs.Prelude.{◌≡◌, slice_get};
ghost use Rattle.pd_kind.specs.Messages.{sort_of as sort_of_message};
ghost use Rattle.pd_kind.specs.Hearing.{first_sort as first_sort_of, told as told_as, stored as stored_at, sort_of_atom};

use pd_atom::{Atom, Sym};
use pd_clock::Time;
use pd_naming::number_at;
use pd_num::Num;
use pd_object::Row;

/// A selector and the atoms behind it, numbers and symbols alone.
///
/// In the normal form a `bang` has no atoms, a `float` one number, a `symbol` one symbol, and a `list` at least two atoms.
#[derive(Clone, Copy)]
pub struct Message<'a> {
    pub selector: Sym,
    pub atoms: &'a [Atom],
}

/// What a message is, with its one atom where it has one.
#[derive(Clone, Copy, Debug, PartialEq, Eq, Drop)]
pub enum Sort {
    Bang,
    Float(Num),
    Symbol(Sym),
    List,
    Other,
}

/// What a message in its normal form is.
pub fn sort_of(selector: Sym, atoms: &[Atom]) -> Sort
    ensures { result ≡ sort_of_message selector atoms.now }
{
    match (selector, atoms) {
        (selector, _) if selector == Sym::bang() => Sort::Bang,
        (selector, [Atom::Number(number), ..]) if selector == Sym::float() => Sort::Float(*number),
        (selector, [Atom::Symbol(symbol), ..]) if selector == Sym::symbol() => {
            Sort::Symbol(*symbol)
        }
        (selector, _) if selector == Sym::list() => Sort::List,
        _ => Sort::Other,
    }
}

/// Where a send goes: to an outlet, or to a name, with a line where nobody hears it if it is loud.
#[derive(Clone, Copy, Debug, PartialEq, Eq, Drop)]
pub enum Target {
    Outlet(u32),
    Name { name: Sym, loud: bool },
}

/// What a box asks for beside its sends. A clock's time is in milliseconds from now.
#[derive(Clone, Copy, Debug, PartialEq, Eq, Drop)]
pub enum Deed {
    Nothing,
    SetClock(Num),
    ClearClock,
    WriteTable { index: u32, value: Num },
    /// The line of a `print`.
    Print,
    /// To be resumed when its sends are done.
    Again,
}

/// What a box may look at: the present time, and the values of the table that its kind names.
#[derive(Clone, Copy)]
pub struct Around<'a> {
    pub now: Time,
    pub table: Option<&'a [Num]>,
}

/// A line that a hearing gives.
#[derive(Clone, Copy, Debug, PartialEq, Eq, Drop)]
pub enum Notice {
    /// The row's objects have no method for the selector.
    NoMethod { row: Row, selector: Sym },
    /// A message box lacks the argument of this number.
    NoArgument { number: u16 },
    /// A message box names a receiver that is no symbol.
    NoReceiver { name: Atom },
    /// A message was cut at 1,024 atoms.
    MessageCut,
    /// The text of a message box would exceed 1,024 atoms.
    TextFull,
    /// The table of names is full.
    TableFull,
    /// A `vline~` has 256 ramps that it has yet to begin.
    TooManyRamps,
}

/// What a list is heard as at inlet 0 of a box that doesn't speak of lists, once its other atoms are stored: its first atom. Another
/// message is heard as it is.
pub fn first_sort(sort: &Sort, atoms: &[Atom]) -> Sort
    ensures { result ≡ first_sort_of sort.now atoms.now }
{
    match sort {
        Sort::List => sort_of_first(atoms),
        Sort::Bang => Sort::Bang,
        Sort::Float(number) => Sort::Float(*number),
        Sort::Symbol(symbol) => Sort::Symbol(*symbol),
        Sort::Other => Sort::Other,
    }
}

fn sort_of_first(atoms: &[Atom]) -> Sort
    ensures { result ≡ sort_of_atom (slice_get atoms.now 0) }
{
    match atoms.first() {
        Some(Atom::Number(number)) => Sort::Float(*number),
        Some(Atom::Symbol(symbol)) => Sort::Symbol(*symbol),
        _ => Sort::Other,
    }
}

/// The selector that a line tells: a list that is spread is told as its first atom.
pub fn told(sort: &Sort, selector: Sym) -> Sym
    ensures { result ≡ told_as sort.now selector }
{
    match sort {
        Sort::Float(_) => Sym::float(),
        Sort::Symbol(_) => Sym::symbol(),
        _ => selector,
    }
}

/// The number that a list stores at its i-th inlet, where it has one there; else the number that was stored.
pub fn stored(sort: &Sort, atoms: &[Atom], i: usize, number: Num) -> Num
    ensures { result ≡ stored_at sort.now atoms.now i number }
{
    match sort {
        Sort::List => number_at(atoms, i, number),
        _ => number,
    }
}
