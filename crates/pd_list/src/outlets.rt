//! What the outlets of a `trigger` send.

ghost use Rattle.std.specs.Prelude.{◌≡◌, ◌+◌, ◌<◌, ◌≤◌, ◌++◌, length, take};
ghost use Rattle.pd_kind.specs.Said.{said_by};
ghost use Rattle.pd_list.specs.Outlets.{symbol_for as symbol_of_message, outlet_sends, trigger_row};

use crate::messages::is_plain;
use pd_atom::{Atom, Sym};
use pd_kind::{Sends, Target, Trigger, float_in};

/// The first atom where it is a symbol, `float` for a number, `symbol` where there is no atom.
fn symbol_for(atoms: &[Atom]) -> Sym
    ensures { result ≡ symbol_of_message atoms.now }
{
    match atoms.first() {
        Some(Atom::Symbol(symbol)) => *symbol,
        Some(Atom::Number(_)) => Sym::float(),
        _ => Sym::symbol(),
    }
}

/// What one outlet sends of a message, whose atoms stand first in `out`.
fn send_outlet(trigger: Trigger, outlet: u32, selector: Sym, atoms: &[Atom], out: &mut Sends)
    requires held { take (length atoms.now) out.old.atoms ≡ atoms.now }
    requires short { length atoms.now ≤ 1024 }
    requires row { length out.old.rows < 1024 }
    requires room { length out.old.atoms < 2048 }
    ensures sends { (said_by out.new).sends ≡ (said_by out.old).sends ++ outlet_sends trigger outlet selector atoms.now }
    ensures held { take (length atoms.now) out.new.atoms ≡ atoms.now }
    ensures rows { length out.new.rows ≤ length out.old.rows + 1 }
    ensures room { length out.new.atoms ≤ length out.old.atoms + 1 }
    ensures deed { out.new.deed ≡ out.old.deed }
    ensures notices { out.new.notices ≡ out.old.notices }
{
    let target = Target::Outlet(outlet);
    let count = atoms.len() as u32;
    match trigger {
        Trigger::Bang => out.send(target, Sym::bang(), &[]),
        Trigger::Constant(number) => out.send(target, Sym::float(), &[Atom::Number(number)]),
        Trigger::Anything => out.send_again(target, selector, 0, count),
        _ if !is_plain(selector) => {}
        Trigger::Float => out.send(target, Sym::float(), &[Atom::Number(float_in(atoms))]),
        Trigger::Symbol => out.send(target, Sym::symbol(), &[Atom::Symbol(symbol_for(atoms))]),
        Trigger::List => out.send_again(target, selector, 0, count),
    }
}

/// `trigger`
pub(crate) fn hear_trigger(outlets: &[Trigger], selector: Sym, atoms: &[Atom], out: &mut Sends)
    requires outlets { length outlets.now ≤ 1024 }
    requires short { length atoms.now ≤ 1024 }
    ensures { said_by out.new ≡ trigger_row outlets.now selector atoms.now }
{
    out.clear();
    out.fill(atoms);
    let mut i = outlets.len();
    while i > 0 {
        i -= 1;
        send_outlet(outlets[i], i as u32, selector, atoms, out);
    }
}
