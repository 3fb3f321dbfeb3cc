//! `tabread` and `tabwrite`.

ghost use Rattle.std.specs.Prelude.{◌≡◌, ◌<◌, ◌≤◌, ◌-◌, ◌^◌, length, pos, Some, IfSome};
ghost use Rattle.std.specs.Option.{option_copied};
ghost use Rattle.pd_kind.specs.Said.{said_by};
ghost use Rattle.pd_kind.specs.declared.states.State.TheVariants.{Tabwrite};
ghost use Rattle.pd_plain.specs.Values.{leaves};
ghost use Rattle.pd_plain.specs.Timed.{place_in as place_of_number, value_at as value_of_table, tabread_hot, tabread_row, written, tabwrite_hot, tabwrite_cold, tabwrite_row};

use crate::numbers::units_of;
use pd_atom::{Atom, Sym};
use pd_kind::{Deed, Row, Sends, Sort, first_sort, sort_of, stored, told};
use pd_num::Num;

/// The place of a table at a number's whole units, limited to its places.
fn place_in(values: &[Num], number: Num) -> u32
    requires { length values.now < 2 ^ 32 }
    ensures { result ≡ place_of_number values.now number }
{
    let last = (values.len() as u32).saturating_sub(1);
    units_of(number).min(last)
}

/// The value at a number's place, 0 without a table.
fn value_at(table: Option<&[Num]>, number: Num) -> Num
    ensures { result ≡ value_of_table (option_copied table.entry) number }
{
    match table {
        Some(values) => value_in(values, number),
        None => zero(),
    }
}

fn value_in(values: &[Num], number: Num) -> Num
    ensures { result ≡ value_of_table (Some values.now) number }
{
    let last = values.len().saturating_sub(1);
    let place = (units_of(number) as usize).min(last);
    match values.get(place) {
        Some(value) => *value,
        None => zero(),
    }
}

/// None.
fn zero() -> Num
    ensures { result ≡ pos 0 }
{
    match Num::of_micros(0) {
        Some(zero) => zero,
        None => unreachable!(),
    }
}

/// `tabread`
pub(crate) fn hear_tabread(table: Option<&[Num]>, selector: Sym, atoms: &[Atom], out: &mut Sends)
    ensures { said_by out.new ≡ tabread_row (option_copied table.entry) selector atoms.now }
{
    let sort = first_sort(&sort_of(selector, atoms), atoms);
    match &sort {
        Sort::Float(number) => out.say_number(0, value_at(table, *number)),
        _ => out.refuse(Row::Tabread, told(&sort, selector)),
    }
}

/// Asks to write a number at a place, where there is a table.
fn write_at(table: Option<&[Num]>, index: Num, value: Num, out: &mut Sends)
    requires { IfSome (option_copied table) (λ values. length values < 2 ^ 32) }
    ensures { said_by out.new ≡ written (option_copied table.entry) index value }
{
    out.clear();
    if let Some(values) = table {
        out.deed = Deed::WriteTable {
            index: place_in(values, index),
            value,
        };
    }
}

fn tabwrite_left(table: Option<&[Num]>, index: Num, selector: Sym, sort: &Sort, out: &mut Sends)
    requires { IfSome (option_copied table) (λ values. length values < 2 ^ 32) }
    ensures { leaves (Tabwrite index) (said_by out.new) ≡ tabwrite_hot (option_copied table.entry) index selector sort.now }
{
    match sort {
        Sort::Float(number) => write_at(table, index, *number, out),
        _ => out.refuse(Row::Tabwrite, told(sort, selector)),
    }
}

fn tabwrite_right(index: &mut Num, selector: Sym, sort: &Sort, out: &mut Sends)
    ensures { leaves (Tabwrite index.new) (said_by out.new) ≡ tabwrite_cold index.old selector sort.now }
{
    match sort {
        Sort::Float(number) => {
            *index = number.trunc();
            out.say_nothing();
        }
        _ => out.refuse(Row::Tabwrite, selector),
    }
}

/// `tabwrite`
pub(crate) fn hear_tabwrite(
    table: Option<&[Num]>,
    index: &mut Num,
    inlet: u32,
    selector: Sym,
    atoms: &[Atom],
    out: &mut Sends,
)
    requires { IfSome (option_copied table) (λ values. length values < 2 ^ 32) }
    ensures { leaves (Tabwrite index.new) (said_by out.new) ≡ tabwrite_row (option_copied table.entry) index.old inlet selector atoms.now }
{
    let sort = sort_of(selector, atoms);
    if inlet == 0 {
        let kept = stored(&sort, atoms, 1, *index).trunc();
        *index = kept;
        tabwrite_left(table, kept, selector, &first_sort(&sort, atoms), out);
    } else {
        tabwrite_right(index, selector, &sort, out);
    }
}
