//! Messages as they are, and as lists.

ghost use Rattle.std.specs.Prelude.{◌≡◌, ◌+◌, ◌<◌, ◌≤◌, length, slice_get, Some};
ghost use Rattle.pd_kind.specs.Said.{said_by};
ghost use Rattle.pd_kind.specs.Forming.{atoms_with_selector};
ghost use Rattle.pd_list.specs.Outlets.{is_plain as is_plain_so, passed};

use pd_atom::{Atom, Sym};
use pd_kind::{Sends, Target};

/// Whether a selector is `bang`, `float`, `symbol` or `list`.
pub(crate) fn is_plain(selector: Sym) -> bool
    ensures { result ≡ is_plain_so selector }
{
    selector.number() < 4
}

/// Says the message as it is to an outlet, and nothing else.
pub(crate) fn pass(outlet: u32, selector: Sym, atoms: &[Atom], out: &mut Sends)
    requires { length atoms.now ≤ 1024 }
    ensures { said_by out.new ≡ passed outlet selector atoms.now }
{
    out.clear();
    out.send(Target::Outlet(outlet), selector, atoms);
}

/// The number of a message's atoms, with a selector that is not plain before them.
pub(crate) fn list_length(selector: Sym, atoms: &[Atom]) -> usize
    requires { length atoms.now ≤ 1024 }
    ensures { result ≡ length (atoms_with_selector selector atoms.now) }
{
    match selector.number() {
        0 | 1 | 2 | 3 => atoms.len(),
        _ => atoms.len() + 1,
    }
}

/// One of a message's atoms, where a selector that is not plain is the first.
pub(crate) fn list_atom(selector: Sym, atoms: &[Atom], i: usize) -> Atom
    requires { i < length (atoms_with_selector selector atoms.now) }
    ensures { slice_get (atoms_with_selector selector atoms.now) i ≡ Some result }
{
    match selector.number() {
        0 | 1 | 2 | 3 => atoms[i],
        _ if i == 0 => Atom::Symbol(selector),
        _ => atoms[i - 1],
    }
}
