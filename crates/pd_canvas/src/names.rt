//! The symbols and numbers that a new subpatch is made with.

ghost use Rattle.std.specs.Prelude.{◌≡◌, ◌*◌, pos};
ghost use Rattle.pd_atom.specs.declared.Atom.TheVariants.{Symbol};
ghost use Rattle.pd_canvas.specs.Edits.{pd, subpatch, is_pd};

use pd_atom::{Atom, Sym};
use pd_num::Num;

/// The symbol `pd`.
pub(crate) fn pd_symbol() -> Atom
    ensures { result ≡ Symbol pd }
{
    Atom::Symbol(Sym::pd())
}

/// The symbol `subpatch`.
pub(crate) fn subpatch_symbol() -> Atom
    ensures { result ≡ Symbol subpatch }
{
    Atom::Symbol(Sym::subpatch())
}

/// Whether an atom is the symbol `pd`.
pub(crate) fn is_pd_symbol(atom: Atom) -> bool
    ensures { result ≡ is_pd atom }
{
    match atom {
        Atom::Symbol(sym) => sym == Sym::pd(),
        _ => false,
    }
}

/// A whole number.
pub(crate) fn whole(n: u16) -> Num
    ensures { result ≡ pos (n * 1000000) }
{
    match Num::of_micros(i64::from(n) * 1_000_000) {
        Some(num) => num,
        None => unreachable!(),
    }
}
