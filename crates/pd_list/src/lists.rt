//! The objects that work with lists.

ghost use Rattle.std.specs.Prelude.{◌≡◌, ◌≤◌, ◌++◌, ◌∷◌, [], ◌*◌, length, List, pos};
ghost use Rattle.pd_atom.specs.declared.Atom.{Atom};
ghost use Rattle.pd_kind.specs.Said.{said_by};
ghost use Rattle.pd_kind.specs.Forming.{cut_atoms, cut_notices, atoms_with_selector};
ghost use Rattle.pd_kind.specs.declared.messages.Deed.TheVariants.{Nothing};
ghost use Rattle.pd_kind.specs.declared.states.State.TheVariants.{ListSplit};
ghost use Rattle.pd_list.specs.Outlets.{leaves};
ghost use Rattle.pd_list.specs.Lists.{Stored, list_said, list_stored, append_row, prepend_row, split_sends, split_said, split_cold, split_row, trim_row, length_row};

use crate::messages::{is_plain, list_length};
use pd_atom::{Atom, Sym};
use pd_kind::{Notice, Row, Sends, Sort, Target, Text, sort_of, units_of, whole_at_least};
use pd_num::Num;

/// Puts a message's atoms last, as many as fit among 1,024, with a selector that is not plain before them.
fn gather(selector: Sym, atoms: &[Atom], out: &mut Sends)
    requires { length out.old.atoms ≤ 1024 }
    ensures atoms { out.new.atoms ≡ cut_atoms (out.old.atoms ++ atoms_with_selector selector atoms.now) }
    ensures small { length out.new.atoms ≤ 1024 }
    ensures rows { out.new.rows ≡ out.old.rows }
    ensures sends { (said_by out.new).sends ≡ (said_by out.old).sends }
    ensures deed { out.new.deed ≡ out.old.deed }
    ensures notices { out.new.notices ≡ out.old.notices }
{
    match selector.number() {
        0 | 1 | 2 | 3 => out.fill(atoms),
        _ => {
            out.fill(&[Atom::Symbol(selector)]);
            out.fill(atoms);
        }
    }
}

/// Tells that a list of so many atoms was cut, where it was.
fn note_cut(count: usize, out: &mut Sends)
    requires { out.old.notices ≡ [] }
    ensures atoms { out.new.atoms ≡ out.old.atoms }
    ensures rows { out.new.rows ≡ out.old.rows }
    ensures sends { (said_by out.new).sends ≡ (said_by out.old).sends }
    ensures deed { out.new.deed ≡ out.old.deed }
    ensures notices { (list : List Atom) → count ≡ length list → out.new.notices ≡ cut_notices list }
{
    if count > 1024 {
        out.note(Notice::MessageCut);
    }
}

/// Says the list that stands in `out` to outlet 0, where it was so many atoms before it was cut.
fn say_gathered(count: usize, out: &mut Sends)
    requires rows { out.old.rows ≡ [] }
    requires deed { out.old.deed ≡ Nothing }
    requires notices { out.old.notices ≡ [] }
    requires small { length out.old.atoms ≤ 1024 }
    ensures { (list : List Atom) → count ≡ length list → out.old.atoms ≡ cut_atoms list → said_by out.new ≡ list_said list }
{
    note_cut(count, out);
    let length = out.atoms.len() as u32;
    out.send_filled(Target::Outlet(0), 0, length);
}

/// Says the list of a message and the stored atoms.
fn say_appended(stored: &[Atom], selector: Sym, atoms: &[Atom], out: &mut Sends)
    requires stored { length stored.now ≤ 1024 }
    requires short { length atoms.now ≤ 1024 }
    ensures { said_by out.new ≡ list_said (atoms_with_selector selector atoms.now ++ stored.now) }
{
    out.clear();
    gather(selector, atoms, out);
    out.fill(stored);
    say_gathered(list_length(selector, atoms) + stored.len(), out);
}

/// Says the list of the stored atoms and a message.
fn say_prepended(stored: &[Atom], selector: Sym, atoms: &[Atom], out: &mut Sends)
    requires stored { length stored.now ≤ 1024 }
    requires short { length atoms.now ≤ 1024 }
    ensures { said_by out.new ≡ list_said (stored.now ++ atoms_with_selector selector atoms.now) }
{
    out.clear();
    out.fill(stored);
    gather(selector, atoms, out);
    say_gathered(stored.len() + list_length(selector, atoms), out);
}

/// Stores a message's atoms, with a selector that is not plain before them.
fn store(stored: &mut Text, selector: Sym, atoms: &[Atom], out: &mut Sends)
    requires { length atoms.now ≤ 1024 }
    ensures heard { record { atoms = stored.new; said = said_by out.new } ≡ list_stored (atoms_with_selector selector atoms.now) }
    ensures small { length stored.new ≤ 1024 }
{
    stored.clear();
    if !is_plain(selector) {
        stored.push(Atom::Symbol(selector));
    }
    stored.extend_up_to(1024, atoms);
    out.clear();
    note_cut(list_length(selector, atoms), out);
}

/// `list append`
pub(crate) fn hear_append(
    stored: &mut Text,
    inlet: u32,
    selector: Sym,
    atoms: &[Atom],
    out: &mut Sends,
)
    requires stored { length stored.old ≤ 1024 }
    requires short { length atoms.now ≤ 1024 }
    ensures heard { record { atoms = stored.new; said = said_by out.new } ≡ append_row stored.old inlet (atoms_with_selector selector atoms.now) }
    ensures small { length stored.new ≤ 1024 }
{
    if inlet == 0 {
        say_appended(stored.as_slice(), selector, atoms, out);
    } else {
        store(stored, selector, atoms, out);
    }
}

/// `list prepend`
pub(crate) fn hear_prepend(
    stored: &mut Text,
    inlet: u32,
    selector: Sym,
    atoms: &[Atom],
    out: &mut Sends,
)
    requires stored { length stored.old ≤ 1024 }
    requires short { length atoms.now ≤ 1024 }
    ensures heard { record { atoms = stored.new; said = said_by out.new } ≡ prepend_row stored.old inlet (atoms_with_selector selector atoms.now) }
    ensures small { length stored.new ≤ 1024 }
{
    if inlet == 0 {
        say_prepended(stored.as_slice(), selector, atoms, out);
    } else {
        store(stored, selector, atoms, out);
    }
}

/// Sends the list that stands in `out` in two parts, the second one first, or whole to outlet 2 where it is too short.
fn send_parts(count: u64, out: &mut Sends)
    requires rows { out.old.rows ≡ [] }
    requires atoms { length out.old.atoms ≤ 1024 }
    ensures sends { (said_by out.new).sends ≡ split_sends count out.old.atoms }
    ensures deed { out.new.deed ≡ out.old.deed }
    ensures notices { out.new.notices ≡ out.old.notices }
{
    let length = out.atoms.len() as u32;
    if count > u64::from(length) {
        out.send_filled(Target::Outlet(2), 0, length);
    } else {
        let count = count as u32;
        out.send_filled(Target::Outlet(1), count, length);
        out.send_filled(Target::Outlet(0), 0, count);
    }
}

/// A message at inlet 0 of a `list split`.
fn say_split(count: Num, selector: Sym, atoms: &[Atom], out: &mut Sends)
    requires { length atoms.now ≤ 1024 }
    ensures { said_by out.new ≡ split_said count (atoms_with_selector selector atoms.now) }
{
    out.clear();
    gather(selector, atoms, out);
    note_cut(list_length(selector, atoms), out);
    send_parts(units_of(count), out);
}

/// A message at inlet 1 of a `list split`.
fn store_count(count: &mut Num, selector: Sym, sort: &Sort, out: &mut Sends)
    ensures { leaves (ListSplit count.new) (said_by out.new) ≡ split_cold count.old selector sort.now }
{
    match sort {
        Sort::Float(number) => {
            *count = whole_at_least(0, *number);
            out.say_nothing();
        }
        _ => out.refuse(Row::ListSplit, selector),
    }
}

/// `list split`
pub(crate) fn hear_split(
    count: &mut Num,
    inlet: u32,
    selector: Sym,
    atoms: &[Atom],
    out: &mut Sends,
)
    requires { length atoms.now ≤ 1024 }
    ensures { leaves (ListSplit count.new) (said_by out.new) ≡ split_row count.old inlet selector atoms.now }
{
    if inlet == 0 {
        let count = *count;
        say_split(count, selector, atoms, out);
    } else {
        let sort = sort_of(selector, atoms);
        store_count(count, selector, &sort, out);
    }
}

/// `list trim`
pub(crate) fn hear_trim(selector: Sym, atoms: &[Atom], out: &mut Sends)
    requires { length atoms.now ≤ 1024 }
    ensures { said_by out.new ≡ trim_row (atoms_with_selector selector atoms.now) }
{
    out.clear();
    match selector.number() {
        0 | 1 | 2 | 3 => out.send_message(Target::Outlet(0), atoms),
        _ => out.send(Target::Outlet(0), selector, atoms),
    }
}

/// `list length`
pub(crate) fn hear_length(selector: Sym, atoms: &[Atom], out: &mut Sends)
    requires { length atoms.now ≤ 1024 }
    ensures { said_by out.new ≡ length_row (atoms_with_selector selector atoms.now) }
{
    out.say_number(0, whole(list_length(selector, atoms)));
}

/// The number of so many whole units.
fn whole(units: usize) -> Num
    requires { units ≤ 1000000000 }
    ensures { result ≡ pos (units * 1000000) }
{
    match Num::of_micros(units as i64 * 1_000_000) {
        Some(number) => number,
        None => unreachable!(),
    }
}
