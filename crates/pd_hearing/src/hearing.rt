//! What a box does with a message.

ghost use Rattle.std.specs.Prelude.{◌≡◌, ◌<◌, ◌≤◌, ◌^◌, true, false, length, Some, None, IfSome};
ghost use Rattle.std.specs.List.{All};
ghost use Rattle.std.specs.Option.{option_copied};
ghost use Rattle.slab.specs.Slab.{get};
ghost use Rattle.pd_atom.specs.Atoms.{IsOf};
ghost use Rattle.pd_vline.specs.Rows.{IsOpen};
ghost use Rattle.pd_atom.specs.Names.{Names, Extends};
ghost use Rattle.pd_kind.specs.Said.{said_by};
ghost use Rattle.pd_grove.specs.Telling.{kind_in, state_in};
ghost use Rattle.pd_patch.specs.Walking.{RestStays};
ghost use Rattle.pd_hearing.specs.Worlds.{net_of, states_of};
ghost use Rattle.pd_hearing.specs.Guards as guard;
ghost use Rattle.pd_hearing.specs.Hearing.{heard_at as reply_at, box_heard, box_resumed, heard_in, heard_kind, heard_by, heard_line, heard_other, resumed_at, fired_at, fired_with, loaded_at, loaded_with, loaded_kind, panel_loaded, table_by, table_named, table_name as name_of_table};

use crate::known::{are_known, is_name};
use crate::small::is_small;
use pd_atom::{Atom, Sym, Symbols};
use pd_clock::Time;
use pd_grove::Node;
use pd_kind::{Around, Glue, Kind, Message, Sends, State};
use pd_num::Num;
use pd_patch::Patch;

/// The most atoms of a message.
const MOST: usize = 1024;

/// A box hears a message at an inlet: its state changes, and in `out` is what it says. A box whose state is out hears nothing.
pub fn hear_at(
    patch: &mut Patch,
    node: u32,
    inlet: u32,
    selector: Sym,
    atoms: &[Atom],
    now: Time,
    symbols: &mut Symbols,
    out: &mut Sends,
)
    ensures reply { record { states = states_of patch.new; names = symbols.new; said = said_by out.new } ≡ reply_at (net_of patch.old) now (states_of patch.old) symbols.old node inlet selector atoms.now }
    ensures extends { Extends symbols.old symbols.new }
    ensures net { net_of patch.new ≡ net_of patch.old }
    ensures clocks { patch.new.timers ≡ patch.old.timers }
{
    if looks_at_table(patch, node) {
        hear_beside(patch, node, inlet, selector, atoms, now, symbols, out);
    } else {
        hear_alone(patch, node, inlet, selector, atoms, now, symbols, out);
    }
}

/// Whether a box looks at a table.
fn looks_at_table(patch: &Patch, node: u32) -> bool
    ensures { result ≡ false → table_named (kind_in (get patch.now.grove.nodes node)) ≡ None }
{
    match patch.node(node) {
        Some(found) => table_name(&found.kind).is_some(),
        None => false,
    }
}

/// A box that looks at no table hears a message. It stays in its place meanwhile.
fn hear_alone(
    patch: &mut Patch,
    node: u32,
    inlet: u32,
    selector: Sym,
    atoms: &[Atom],
    now: Time,
    symbols: &mut Symbols,
    out: &mut Sends,
)
    requires { table_named (kind_in (get patch.old.grove.nodes node)) ≡ None }
    ensures reply { record { states = states_of patch.new; names = symbols.new; said = said_by out.new } ≡ reply_at (net_of patch.old) now (states_of patch.old) symbols.old node inlet selector atoms.now }
    ensures extends { Extends symbols.old symbols.new }
    ensures net { net_of patch.new ≡ net_of patch.old }
    ensures clocks { patch.new.timers ≡ patch.old.timers }
{
    match patch.node_mut(node) {
        Some(found) => hear_box(found, inlet, selector, atoms, now, symbols, out),
        None => out.say_nothing(),
    }
}

/// A box hears a message beside no table.
fn hear_box(
    found: &mut Node,
    inlet: u32,
    selector: Sym,
    atoms: &[Atom],
    now: Time,
    symbols: &mut Symbols,
    out: &mut Sends,
)
    ensures heard { record { node = found.new; names = symbols.new; said = said_by out.new } ≡ box_heard symbols.old found.old inlet selector atoms.now now }
    ensures extends { Extends symbols.old symbols.new }
{
    let around = Around { now, table: None };
    match &mut found.state {
        Some(state) => hear_kind(
            &found.kind,
            state,
            inlet,
            selector,
            atoms,
            &around,
            symbols,
            out,
        ),
        None => out.say_nothing(),
    }
}

/// A box hears a message beside the table that it looks at. Its state is out meanwhile.
fn hear_beside(
    patch: &mut Patch,
    node: u32,
    inlet: u32,
    selector: Sym,
    atoms: &[Atom],
    now: Time,
    symbols: &mut Symbols,
    out: &mut Sends,
)
    ensures reply { record { states = states_of patch.new; names = symbols.new; said = said_by out.new } ≡ reply_at (net_of patch.old) now (states_of patch.old) symbols.old node inlet selector atoms.now }
    ensures extends { Extends symbols.old symbols.new }
    ensures net { net_of patch.new ≡ net_of patch.old }
    ensures clocks { patch.new.timers ≡ patch.old.timers }
{
    if !patch.has_state(node) {
        out.say_nothing();
        return;
    }
    let mut state = patch.take_state(node);
    hear_with(
        patch, node, &mut state, inlet, selector, atoms, now, symbols, out,
    );
    patch.put_state(node, state);
}

fn hear_with(
    patch: &Patch,
    node: u32,
    state: &mut State,
    inlet: u32,
    selector: Sym,
    atoms: &[Atom],
    now: Time,
    symbols: &mut Symbols,
    out: &mut Sends,
)
    ensures heard { record { state = state.new; names = symbols.new; said = said_by out.new } ≡ heard_in symbols.old (kind_in (get patch.now.grove.nodes node)) state.old inlet selector atoms.now now (table_by patch.now (table_named (kind_in (get patch.now.grove.nodes node)))) }
    ensures extends { Extends symbols.old symbols.new }
{
    let Some(found) = patch.node(node) else {
        out.say_nothing();
        return;
    };
    let around = Around {
        now,
        table: table_for(patch, &found.kind),
    };
    hear_kind(
        &found.kind,
        state,
        inlet,
        selector,
        atoms,
        &around,
        symbols,
        out,
    );
}

/// The values of the table that a kind names.
fn table_for<'a>(patch: &'a Patch, kind: &Kind) -> Option<&'a [Num]>
    ensures { option_copied result ≡ table_by patch.now (name_of_table kind.now) }
{
    patch.table_of(table_name(kind)?)
}

/// The name of the table that a `tabread` or a `tabwrite` looks at.
pub(crate) fn table_name(kind: &Kind) -> Option<Sym>
    ensures { result ≡ name_of_table kind.now }
{
    match kind {
        Kind::Glue(Glue::Tabread { name }) | Kind::Glue(Glue::Tabwrite { name }) => *name,
        _ => None,
    }
}

/// Whether a message can be heard: it has at most 1,024 atoms, and what it names is of the table.
fn is_message(symbols: &Symbols, selector: Sym, atoms: &[Atom]) -> bool
    ensures name { result ≡ true → selector < length symbols.now }
    ensures atoms { result ≡ true → All (IsOf symbols.now) atoms.now }
    ensures few { result ≡ true → length atoms.now ≤ 1024 }
    ensures value { result ≡ guard.is_message symbols.now selector atoms.now }
{
    is_name(symbols, selector) && atoms.len() <= MOST && are_known(symbols, atoms)
}

/// Whether a table has fewer than 2^32 values.
fn is_table(table: Option<&[Num]>) -> bool
    ensures small { result ≡ true → IfSome (option_copied table.entry) (λ values. length values < 2 ^ 32) }
    ensures value { result ≡ guard.is_table (option_copied table.entry) }
{
    match table {
        Some(values) => values.len() < 4_294_967_296,
        None => true,
    }
}

fn hear_kind(
    kind: &Kind,
    state: &mut State,
    inlet: u32,
    selector: Sym,
    atoms: &[Atom],
    around: &Around,
    symbols: &mut Symbols,
    out: &mut Sends,
)
    ensures heard { record { state = state.new; names = symbols.new; said = said_by out.new } ≡ heard_kind symbols.old kind.now state.old inlet selector atoms.now around.entry.now.now (option_copied around.entry.now.table) }
    ensures extends { Extends symbols.old symbols.new }
{
    if !is_message(symbols, selector, atoms) {
        out.say_nothing();
        return;
    }
    match kind {
        Kind::Arith(_) => {
            let message = Message { selector, atoms };
            pd_arith::hear(kind, state, inlet, message, symbols, around, out);
        }
        Kind::Panel(_) => {
            let message = Message { selector, atoms };
            pd_panel::hear(kind, state, inlet, message, symbols, around, out);
        }
        Kind::Vline => hear_vline(kind, state, inlet, selector, atoms, symbols, around, out),
        _ => hear_other(kind, state, inlet, selector, atoms, symbols, around, out),
    }
}

/// Whether a `vline~` has run no block beyond now.
fn is_open(state: &State, now: Time) -> bool
    ensures is_open { result ≡ true → IsOpen now state.now }
    ensures value { result ≡ guard.is_open now state.now }
{
    match state {
        State::Vline(book) => book.ramps().end.units() <= now.units(),
        _ => true,
    }
}

fn hear_vline(
    kind: &Kind,
    state: &mut State,
    inlet: u32,
    selector: Sym,
    atoms: &[Atom],
    symbols: &mut Symbols,
    around: &Around,
    out: &mut Sends,
)
    requires { selector < length symbols.old }
    ensures heard { record { state = state.new; names = symbols.new; said = said_by out.new } ≡ heard_line symbols.old kind.now state.old inlet selector atoms.now around.entry.now.now }
    ensures extends { Extends symbols.old symbols.new }
{
    let now = around.now;
    if now.units() > 1 << 101 || !is_open(state, now) {
        out.say_nothing();
        return;
    }
    let message = Message { selector, atoms };
    pd_vline::hear(kind, state, inlet, message, symbols, around, out);
}

fn hear_other(
    kind: &Kind,
    state: &mut State,
    inlet: u32,
    selector: Sym,
    atoms: &[Atom],
    symbols: &mut Symbols,
    around: &Around,
    out: &mut Sends,
)
    requires name { selector < length symbols.old }
    requires atoms { All (IsOf symbols.old) atoms.now }
    requires few { length atoms.now ≤ 1024 }
    ensures heard { record { state = state.new; names = symbols.new; said = said_by out.new } ≡ heard_other symbols.old kind.now state.old inlet selector atoms.now around.entry.now.now (option_copied around.entry.now.table) }
    ensures extends { Extends symbols.old symbols.new }
{
    if !is_table(around.table) || !is_small(kind, state, symbols) {
        out.say_nothing();
        return;
    }
    let message = Message { selector, atoms };
    pd_glue::hear(kind, state, inlet, message, symbols, around, out);
}

/// The clock of a box fires: in `out` is what it says.
pub fn fire_at(patch: &mut Patch, node: u32, out: &mut Sends)
    ensures said { said_by out.new ≡ fired_at (net_of patch.old) (states_of patch.old) node }
    ensures states { states_of patch.new ≡ states_of patch.old }
    ensures net { net_of patch.new ≡ net_of patch.old }
    ensures clocks { patch.new.timers ≡ patch.old.timers }
{
    if !patch.has_state(node) {
        out.say_nothing();
        return;
    }
    let mut state = patch.take_state(node);
    fire_with(patch, node, &mut state, out);
    patch.put_state(node, state);
}

fn fire_with(patch: &Patch, node: u32, state: &mut State, out: &mut Sends)
    ensures said { said_by out.new ≡ fired_with (Some state.old) (kind_in (get patch.now.grove.nodes node)) }
    ensures state { state.new ≡ state.old }
{
    match patch.node(node) {
        Some(found) => pd_glue::fire(&found.kind, state, out),
        None => out.say_nothing(),
    }
}

/// A box is resumed: in `out` is what it says.
pub fn resume_at(patch: &mut Patch, node: u32, out: &mut Sends)
    ensures reply { (names : Names) → record { states = states_of patch.new; names = names; said = said_by out.new } ≡ resumed_at (net_of patch.old) (states_of patch.old) names node }
    ensures net { net_of patch.new ≡ net_of patch.old }
    ensures clocks { patch.new.timers ≡ patch.old.timers }
{
    match patch.node_mut(node) {
        Some(found) => resume_box(found, out),
        None => out.say_nothing(),
    }
}

fn resume_box(found: &mut Node, out: &mut Sends)
    ensures { (names : Names) → record { node = found.new; names = names; said = said_by out.new } ≡ box_resumed names found.old }
{
    match &mut found.state {
        Some(state) => pd_glue::resume(&found.kind, state, out),
        None => out.say_nothing(),
    }
}

/// A box is loaded: in `out` is what it says.
pub fn load_at(patch: &Patch, node: u32, out: &mut Sends)
    ensures { said_by out.new ≡ loaded_at (net_of patch.now) (states_of patch.now) node }
{
    match patch.node(node) {
        Some(found) => load_kind(&found.kind, patch.state_at(node), out),
        None => out.say_nothing(),
    }
}

fn load_kind(kind: &Kind, state: Option<&State>, out: &mut Sends)
    ensures { said_by out.new ≡ loaded_kind kind.now (option_copied state.entry) }
{
    match kind {
        Kind::Glue(Glue::Loadbang) => out.say_bang(0),
        Kind::Panel(_) => load_panel(kind, state, out),
        _ => out.say_nothing(),
    }
}

fn load_panel(kind: &Kind, state: Option<&State>, out: &mut Sends)
    ensures { said_by out.new ≡ panel_loaded kind.now (option_copied state.entry) }
{
    match state {
        Some(state) => pd_panel::load(kind, state, out),
        None => out.say_nothing(),
    }
}
