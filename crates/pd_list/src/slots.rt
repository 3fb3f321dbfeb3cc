//! `pack` and `unpack`.

ghost use Rattle.std.specs.Prelude.{◌≡◌, ◌+◌, ◌<◌, ◌≤◌, ◌++◌, length};
ghost use Rattle.pd_kind.specs.Said.{said_by};
ghost use Rattle.pd_kind.specs.declared.states.State.TheVariants.{Pack};
ghost use Rattle.pd_list.specs.Outlets.{leaves};
ghost use Rattle.pd_list.specs.Slots.{fits as fits_so, fits_at as fits_at_so, stored_at, filled, packed, pack_refuses, pack_first, pack_hot, pack_other, pack_cold, pack_row, slot_sends, unpack_row};

use crate::messages::{list_atom, list_length};
use pd_atom::{Atom, Sym};
use pd_kind::{Items, Row, Sends, Slot, Sort, Target, sort_of};

/// Whether an atom fits a slot: a number one for a number, a symbol one for a symbol.
fn fits(slot: Slot, atom: &Atom) -> bool
    ensures { result ≡ fits_so slot atom.now }
{
    match (slot, atom) {
        (Slot::Number(_), Atom::Number(_)) => true,
        (Slot::Symbol, Atom::Symbol(_)) => true,
        _ => false,
    }
}

fn fits_at(slots: &[Slot], i: usize, atom: &Atom) -> bool
    ensures { result ≡ fits_at_so slots.now i atom.now }
{
    match slots.get(i) {
        Some(slot) => fits(*slot, atom),
        None => false,
    }
}

/// Stores an atom in a slot where it fits.
fn store(slots: &[Slot], i: usize, atom: &Atom, kept: &mut Items<Atom>)
    ensures stored { kept.new ≡ stored_at slots.now i atom.now kept.old }
    ensures length { length kept.new ≡ length kept.old }
{
    if fits_at(slots, i, atom) && i < kept.as_slice().len() {
        kept.set(i, *atom);
    }
}

/// Stores atoms in the slots from the first on, each where it fits.
fn fill(slots: &[Slot], atoms: &[Atom], kept: &mut Items<Atom>)
    ensures stored { kept.new ≡ filled slots.now 0 atoms.now kept.old }
    ensures length { length kept.new ≡ length kept.old }
{
    for (i, atom) in atoms.iter().enumerate() {
        store(slots, i, atom, kept);
    }
}

/// Says all slots.
fn say_packed(kept: &[Atom], out: &mut Sends)
    requires { length kept.now ≤ 1024 }
    ensures { leaves (Pack kept.now) (said_by out.new) ≡ packed kept.now }
{
    out.clear();
    out.send_list(Target::Outlet(0), kept);
}

/// A float or a symbol at inlet 0.
fn pack_left(slots: &[Slot], kept: &mut Items<Atom>, selector: Sym, atom: &Atom, out: &mut Sends)
    requires { length kept.old ≤ 1024 }
    ensures heard { leaves (Pack kept.new) (said_by out.new) ≡ pack_first slots.now kept.old selector atom.now }
    ensures length { length kept.new ≡ length kept.old }
{
    if fits_at(slots, 0, atom) {
        store(slots, 0, atom, kept);
        say_packed(kept.as_slice(), out);
    } else {
        out.refuse(Row::Pack, selector);
    }
}

/// A message at inlet 0.
fn hear_packing(
    slots: &[Slot],
    kept: &mut Items<Atom>,
    selector: Sym,
    atoms: &[Atom],
    sort: &Sort,
    out: &mut Sends,
)
    requires { length kept.old ≤ 1024 }
    ensures heard { leaves (Pack kept.new) (said_by out.new) ≡ pack_hot slots.now kept.old selector atoms.now sort.now }
    ensures length { length kept.new ≡ length kept.old }
{
    match sort {
        Sort::Bang => say_packed(kept.as_slice(), out),
        Sort::Float(number) => pack_left(slots, kept, selector, &Atom::Number(*number), out),
        Sort::Symbol(symbol) => pack_left(slots, kept, selector, &Atom::Symbol(*symbol), out),
        Sort::List => {
            fill(slots, atoms, kept);
            say_packed(kept.as_slice(), out);
        }
        Sort::Other => out.refuse(Row::Pack, selector),
    }
}

/// A float or a symbol at another inlet.
fn pack_right(
    slots: &[Slot],
    kept: &mut Items<Atom>,
    inlet: u32,
    selector: Sym,
    atom: &Atom,
    out: &mut Sends,
)
    ensures heard { leaves (Pack kept.new) (said_by out.new) ≡ pack_other slots.now kept.old inlet selector atom.now }
    ensures length { length kept.new ≡ length kept.old }
{
    if fits_at(slots, inlet as usize, atom) {
        store(slots, inlet as usize, atom, kept);
        out.say_nothing();
    } else {
        out.refuse(Row::Pack, selector);
    }
}

/// A message at another inlet.
fn hear_storing(
    slots: &[Slot],
    kept: &mut Items<Atom>,
    inlet: u32,
    selector: Sym,
    sort: &Sort,
    out: &mut Sends,
)
    ensures heard { leaves (Pack kept.new) (said_by out.new) ≡ pack_cold slots.now kept.old inlet selector sort.now }
    ensures length { length kept.new ≡ length kept.old }
{
    match sort {
        Sort::Float(number) => {
            pack_right(slots, kept, inlet, selector, &Atom::Number(*number), out);
        }
        Sort::Symbol(symbol) => {
            pack_right(slots, kept, inlet, selector, &Atom::Symbol(*symbol), out);
        }
        _ => out.refuse(Row::Pack, selector),
    }
}

/// `pack`
pub(crate) fn hear_pack(
    slots: &[Slot],
    kept: &mut Items<Atom>,
    inlet: u32,
    selector: Sym,
    atoms: &[Atom],
    out: &mut Sends,
)
    requires { length kept.old ≤ 1024 }
    ensures heard { leaves (Pack kept.new) (said_by out.new) ≡ pack_row slots.now kept.old inlet selector atoms.now }
    ensures length { length kept.new ≡ length kept.old }
{
    let sort = sort_of(selector, atoms);
    if inlet == 0 {
        hear_packing(slots, kept, selector, atoms, &sort, out);
    } else {
        hear_storing(slots, kept, inlet, selector, &sort, out);
    }
}

/// What an atom sends to the outlet of a slot: nothing where it doesn't fit.
fn send_slot(outlet: u32, slot: Slot, atom: Atom, out: &mut Sends)
    requires row { length out.old.rows < 1024 }
    requires room { length out.old.atoms < 2048 }
    ensures sends { (said_by out.new).sends ≡ (said_by out.old).sends ++ slot_sends outlet slot atom }
    ensures rows { length out.new.rows ≤ length out.old.rows + 1 }
    ensures room { length out.new.atoms ≤ length out.old.atoms + 1 }
    ensures deed { out.new.deed ≡ out.old.deed }
    ensures notices { out.new.notices ≡ out.old.notices }
{
    let target = Target::Outlet(outlet);
    match (slot, atom) {
        (Slot::Number(_), Atom::Number(_)) => out.send(target, Sym::float(), &[atom]),
        (Slot::Symbol, Atom::Symbol(_)) => out.send(target, Sym::symbol(), &[atom]),
        _ => {}
    }
}

/// `unpack`
pub(crate) fn hear_unpack(slots: &[Slot], selector: Sym, atoms: &[Atom], out: &mut Sends)
    requires slots { length slots.now ≤ 1024 }
    requires short { length atoms.now ≤ 1024 }
    ensures { said_by out.new ≡ unpack_row slots.now selector atoms.now }
{
    out.clear();
    let mut i = slots.len().min(list_length(selector, atoms));
    while i > 0 {
        i -= 1;
        send_slot(i as u32, slots[i], list_atom(selector, atoms, i), out);
    }
}
