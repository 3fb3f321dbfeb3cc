//! What a plain control object does with a message, when its clock fires, and when it is resumed.

ghost use Rattle.std.specs.Prelude.{◌≡◌, ◌<◌, ◌≤◌, ◌^◌, length, [], IfSome};
ghost use Rattle.std.specs.List.{All};
ghost use Rattle.std.specs.Option.{option_copied};
ghost use Rattle.pd_atom.specs.Atoms.{IsOf};
ghost use Rattle.pd_kind.specs.Fit.{IsLike};
ghost use Rattle.pd_kind.specs.Said.{said_by};
ghost use Rattle.pd_kind.specs.declared.messages.Deed.TheVariants.{Print};
ghost use Rattle.pd_plain.specs.Timed.{says_with};
ghost use Rattle.pd_plain.specs.Rows.{HasText, value_row, gate_row, timed_row, table_row, plain_row, fired, resumed};

use crate::boxes::{hear_float_box, hear_symbol_box};
use crate::clocked::{hear_random, hear_timer};
use crate::tables::{hear_tabread, hear_tabwrite};
use crate::timed::{hear_delay, hear_metro, hear_until, resume_until, start_metro};
use crate::values::{
    hear_change, hear_float, hear_int, hear_moses, hear_send, hear_spigot, hear_swap, hear_symbol,
    pass,
};
use pd_atom::{Atom, Sym, Symbols};
use pd_clock::Time;
use pd_kind::{Deed, Glue, Sends, State};
use pd_num::Num;

/// What a plain control object that keeps `state` does with a message at an inlet, at a time and beside the table that its kind
/// names. Other objects hear nothing.
#[tactic(auto, unfolding(crate::specs::Rows::plain_row))]
pub fn hear_plain(
    glue: &Glue,
    state: &mut State,
    inlet: u32,
    selector: Sym,
    atoms: &[Atom],
    symbols: &Symbols,
    now: Time,
    table: Option<&[Num]>,
    out: &mut Sends,
)
    requires selector { selector < length symbols.now }
    requires atoms { length atoms.now ≤ 1024 }
    requires text { HasText symbols.now glue.now }
    requires table { IfSome (option_copied table) (λ values. length values < 2 ^ 32) }
    ensures heard { record { state = state.new; said = said_by out.new } ≡ plain_row symbols.now glue.now state.old inlet selector atoms.now now (option_copied table.entry) }
    ensures kept { IsLike state.old state.new }
{
    match glue {
        Glue::Bang { .. } => out.say_bang(0),
        Glue::Print { .. } => print(out),
        Glue::Receive { .. } | Glue::Port { .. } => pass(0, selector, atoms, out),
        Glue::Float { .. }
        | Glue::Int { .. }
        | Glue::Symbol { .. }
        | Glue::Moses { .. }
        | Glue::Swap { .. } => hear_value(glue, state, inlet, selector, atoms, out),
        Glue::Spigot { .. }
        | Glue::Change { .. }
        | Glue::Send { .. }
        | Glue::FloatBox { .. }
        | Glue::SymbolBox { .. } => hear_gate(glue, state, inlet, selector, atoms, symbols, out),
        Glue::Until | Glue::Metro { .. } | Glue::Delay { .. } | Glue::Timer | Glue::Random { .. } =>
            hear_timed(glue, state, inlet, selector, atoms, symbols, now, out),
        Glue::Tabread { .. } => hear_tabread(table, selector, atoms, out),
        Glue::Tabwrite { .. } => hear_table(table, state, inlet, selector, atoms, out),
        _ => out.say_nothing(),
    }
}

/// The objects that keep a value.
#[tactic(auto, unfolding(crate::specs::Rows::value_row))]
fn hear_value(
    glue: &Glue,
    state: &mut State,
    inlet: u32,
    selector: Sym,
    atoms: &[Atom],
    out: &mut Sends,
)
    ensures heard { record { state = state.new; said = said_by out.new } ≡ value_row glue.now state.old inlet selector atoms.now }
    ensures kept { IsLike state.old state.new }
{
    match (glue, state) {
        (Glue::Float { .. }, State::Float { value }) => {
            hear_float(value, inlet, selector, atoms, out);
        }
        (Glue::Int { .. }, State::Int { value }) => hear_int(value, inlet, selector, atoms, out),
        (Glue::Symbol { .. }, State::Symbol { value }) => {
            hear_symbol(value, inlet, selector, atoms, out);
        }
        (Glue::Moses { .. }, State::Moses { bound }) => {
            hear_moses(bound, inlet, selector, atoms, out);
        }
        (Glue::Swap { .. }, State::Swap { left, right }) => {
            hear_swap(left, right, inlet, selector, atoms, out);
        }
        _ => out.say_nothing(),
    }
}

/// `spigot`, `change`, `send`, number and symbol boxes.
#[tactic(auto, unfolding(crate::specs::Rows::gate_row))]
fn hear_gate(
    glue: &Glue,
    state: &mut State,
    inlet: u32,
    selector: Sym,
    atoms: &[Atom],
    symbols: &Symbols,
    out: &mut Sends,
)
    requires selector { selector < length symbols.now }
    requires atoms { length atoms.now ≤ 1024 }
    requires text { HasText symbols.now glue.now }
    ensures heard { record { state = state.new; said = said_by out.new } ≡ gate_row symbols.now glue.now state.old inlet selector atoms.now }
    ensures kept { IsLike state.old state.new }
{
    match (glue, state) {
        (Glue::Spigot { .. }, State::Spigot { gate }) => {
            hear_spigot(gate, inlet, selector, atoms, out);
        }
        (Glue::Change { .. }, State::Change { value }) => {
            hear_change(symbols, value, selector, atoms, out);
        }
        (Glue::Send { .. }, State::Send { name }) => hear_send(name, inlet, selector, atoms, out),
        (Glue::FloatBox { text }, State::FloatBox { value }) => {
            hear_float_box(symbols, text.as_slice(), value, selector, atoms, out);
        }
        (Glue::SymbolBox { text }, State::SymbolBox { value }) => {
            hear_symbol_box(symbols, text.as_slice(), value, selector, atoms, out);
        }
        _ => out.say_nothing(),
    }
}

/// The objects of time and of chance, and `until`.
#[tactic(auto, unfolding(crate::specs::Rows::timed_row))]
fn hear_timed(
    glue: &Glue,
    state: &mut State,
    inlet: u32,
    selector: Sym,
    atoms: &[Atom],
    symbols: &Symbols,
    now: Time,
    out: &mut Sends,
)
    requires { selector < length symbols.now }
    ensures heard { record { state = state.new; said = said_by out.new } ≡ timed_row symbols.now glue.now state.old inlet selector atoms.now now }
    ensures kept { IsLike state.old state.new }
{
    match (glue, state) {
        (Glue::Until, State::Until { is_running, count }) => {
            hear_until(is_running, count, inlet, selector, atoms, out);
        }
        (Glue::Metro { .. }, State::Metro { period }) => {
            hear_metro(symbols, period, inlet, selector, atoms, out);
        }
        (Glue::Delay { .. }, State::Delay { time }) => {
            hear_delay(symbols, time, inlet, selector, atoms, out);
        }
        (Glue::Timer, State::Timer { reset, rate }) => {
            hear_timer(reset, *rate, now, inlet, selector, atoms, out);
        }
        (Glue::Random { .. }, State::Random { seed, range }) => {
            hear_random(seed, range, inlet, selector, atoms, out);
        }
        _ => out.say_nothing(),
    }
}

/// `tabwrite`
#[tactic(auto, unfolding(crate::specs::Rows::table_row))]
fn hear_table(
    table: Option<&[Num]>,
    state: &mut State,
    inlet: u32,
    selector: Sym,
    atoms: &[Atom],
    out: &mut Sends,
)
    requires { IfSome (option_copied table) (λ values. length values < 2 ^ 32) }
    ensures heard { record { state = state.new; said = said_by out.new } ≡ table_row (option_copied table.entry) state.old inlet selector atoms.now }
    ensures kept { IsLike state.old state.new }
{
    match state {
        State::Tabwrite { index } => hear_tabwrite(table, index, inlet, selector, atoms, out),
        _ => out.say_nothing(),
    }
}

/// Asks for the line of a `print`.
fn print(out: &mut Sends)
    ensures { said_by out.new ≡ says_with Print [] }
{
    out.clear();
    out.deed = Deed::Print;
}

/// What a `metro` or a `delay` says when its clock fires; its state stays. Other objects say nothing.
#[tactic(auto, unfolding(crate::specs::Rows::fired))]
pub fn fire_plain(glue: &Glue, state: &State, out: &mut Sends)
    ensures { said_by out.new ≡ fired glue.now state.now }
{
    match (glue, state) {
        (Glue::Metro { .. }, State::Metro { period }) => start_metro(*period, out),
        (Glue::Delay { .. }, _) => out.say_bang(0),
        _ => out.say_nothing(),
    }
}

/// What an `until` does when it is resumed. Other objects say nothing.
#[tactic(auto, unfolding(crate::specs::Rows::resumed))]
pub fn resume_plain(glue: &Glue, state: &mut State, out: &mut Sends)
    ensures heard { record { state = state.new; said = said_by out.new } ≡ resumed glue.now state.old }
    ensures kept { IsLike state.old state.new }
{
    match (glue, state) {
        (Glue::Until, State::Until { is_running, count }) => resume_until(*is_running, count, out),
        _ => out.say_nothing(),
    }
}
