//! What a box of a kind does with a message, when its clock fires, and when it is resumed.

ghost use Rattle.std.specs.Prelude.{◌≡◌, ◌<◌, ◌≤◌, ◌^◌, length, IfSome};
ghost use Rattle.std.specs.List.{All};
ghost use Rattle.std.specs.Option.{option_copied};
ghost use Rattle.pd_atom.specs.Names.{Extends};
ghost use Rattle.pd_atom.specs.Atoms.{IsOf};
ghost use Rattle.pd_kind.specs.Fit.{IsLike};
ghost use Rattle.pd_kind.specs.Said.{said_by};
ghost use Rattle.pd_glue.specs.Rows.{IsSmall, IsSmallBox, glue_heard, heard, fired as said_by_clock, resumed as left_by_resume};

use crate::sounding::{signal_row, tone_row};
use pd_atom::{Atom, Sym, Symbols};
use pd_clock::Time;
use pd_held::hear_held;
use pd_kind::{Around, Glue, Kind, Message, Sends, State};
use pd_list::hear_list;
use pd_message::hear_message;
use pd_num::Num;
use pd_plain::{fire_plain, hear_plain, resume_plain};

/// A control object.
fn hear_glue(
    glue: &Glue,
    state: &mut State,
    inlet: u32,
    selector: Sym,
    atoms: &[Atom],
    symbols: &mut Symbols,
    now: Time,
    table: Option<&[Num]>,
    out: &mut Sends,
)
    requires selector { selector < length symbols.old }
    requires atoms { All (IsOf symbols.old) atoms.now }
    requires few { length atoms.now ≤ 1024 }
    requires small { IsSmallBox symbols.old glue.now state.old }
    requires table { IfSome (option_copied table) (λ values. length values < 2 ^ 32) }
    ensures heard { record { state = state.new; names = symbols.new; said = said_by out.new } ≡ glue_heard symbols.old glue.now state.old inlet selector atoms.now now (option_copied table.entry) }
    ensures extends { Extends symbols.old symbols.new }
    ensures small { IsSmallBox symbols.new glue.now state.new }
    ensures kept { IsLike state.old state.new }
{
    match glue {
        Glue::Message { .. } => hear_message(state, selector, atoms, symbols, out),
        Glue::Trigger { .. }
        | Glue::Pack { .. }
        | Glue::Unpack { .. }
        | Glue::Route { .. }
        | Glue::Select { .. }
        | Glue::ListAppend { .. }
        | Glue::ListPrepend { .. }
        | Glue::ListSplit { .. }
        | Glue::ListTrim
        | Glue::ListLength => hear_list(glue, state, inlet, selector, atoms, out),
        _ => hear_plain(
            glue, state, inlet, selector, atoms, symbols, now, table, out,
        ),
    }
}

/// What a box of a kind that keeps `state` does with a message at an inlet: the state and the names after it, and in `out` what is said.
/// `around.table` is the table that the kind names, where there is one.
///
/// The kinds are the control objects but the arithmetic ones, `bng` and `tgl`, and what the signal objects but `vline~` hear. Others
/// hear nothing. It takes no memory.
#[tactic(auto, unfolding(crate::specs::Rows::heard))]
pub fn hear(
    kind: &Kind,
    state: &mut State,
    inlet: u32,
    message: Message,
    symbols: &mut Symbols,
    around: &Around,
    out: &mut Sends,
)
    requires selector { message.selector < length symbols.old }
    requires atoms { All (IsOf symbols.old) message.atoms.now }
    requires few { length message.atoms.now ≤ 1024 }
    requires small { IsSmall symbols.old kind.now state.old }
    requires table { IfSome (option_copied around.now.table) (λ values. length values < 2 ^ 32) }
    ensures heard { record { state = state.new; names = symbols.new; said = said_by out.new } ≡ heard symbols.old kind.now state.old inlet message.entry.selector message.entry.atoms.now around.entry.now.now (option_copied around.entry.now.table) }
    ensures extends { Extends symbols.old symbols.new }
    ensures small { IsSmall symbols.new kind.now state.new }
    ensures kept { IsLike state.old state.new }
{
    let selector = message.selector;
    let atoms = message.atoms;
    match kind {
        Kind::Glue(glue) => {
            let now = around.now;
            let table = around.table;
            hear_glue(
                glue, state, inlet, selector, atoms, symbols, now, table, out,
            );
        }
        Kind::Tone(tone) => {
            hear_held(tone_row(tone), state, inlet, selector, atoms, symbols, out);
        }
        Kind::Signal(signal) => {
            hear_held(
                signal_row(signal),
                state,
                inlet,
                selector,
                atoms,
                symbols,
                out,
            );
        }
        _ => out.say_nothing(),
    }
}

/// What a `metro` or a `delay` says when its clock fires: in `out`. Its state stays. Other boxes say nothing.
#[tactic(auto, unfolding(crate::specs::Rows::fired))]
pub fn fire(kind: &Kind, state: &mut State, out: &mut Sends)
    ensures said { said_by out.new ≡ said_by_clock kind.now state.old }
    ensures state { state.new ≡ state.old }
{
    match kind {
        Kind::Glue(glue) => fire_plain(glue, state, out),
        _ => out.say_nothing(),
    }
}

/// What an `until` does when it is resumed: the state after it, and in `out` what is said. Other boxes say nothing.
#[tactic(auto, unfolding(crate::specs::Rows::resumed))]
pub fn resume(kind: &Kind, state: &mut State, out: &mut Sends)
    ensures said { record { state = state.new; said = said_by out.new } ≡ left_by_resume kind.now state.old }
    ensures kept { IsLike state.old state.new }
{
    match kind {
        Kind::Glue(glue) => resume_plain(glue, state, out),
        _ => out.say_nothing(),
    }
}
