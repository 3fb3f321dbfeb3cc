//! Whether a box is as its row wants it. That is so of every box that grew; it is looked at here, since no clause says it yet.

ghost use Rattle.std.specs.Prelude.{◌≡◌, ◌≤◌, true, length};
ghost use Rattle.std.specs.List.{All};
ghost use Rattle.pd_atom.specs.Atoms.{IsOf};
ghost use Rattle.pd_object.specs.Ports.{IsSmallGlue};
ghost use Rattle.pd_list.specs.Rows.{IsSmallState};
ghost use Rattle.pd_plain.specs.Rows.{HasText};
ghost use Rattle.pd_message.specs.Rows.{KeepsText as KeepsMessage};
ghost use Rattle.pd_hearing.specs.Guards as guard;
ghost use Rattle.pd_glue.specs.Rows.{IsSmall, IsSmallBox, KeepsList, KeepsText};

use crate::known::are_known;
use pd_atom::Symbols;
use pd_kind::{Glue, Kind, State};

/// The most atoms of a list.
const MOST: usize = 1024;

/// Whether the lists of a box have at most 1,024 atoms, and its atoms are of the table.
#[tactic(auto, unfolding(crate::specs::Guards::is_small))]
pub(crate) fn is_small(kind: &Kind, state: &State, symbols: &Symbols) -> bool
    ensures small { result ≡ true → IsSmall symbols.now kind.now state.now }
    ensures value { result ≡ guard.is_small symbols.now kind.now state.now }
{
    match kind {
        Kind::Glue(glue) => is_small_box(glue, state, symbols),
        _ => true,
    }
}

fn is_small_box(glue: &Glue, state: &State, symbols: &Symbols) -> bool
    ensures small { result ≡ true → IsSmallBox symbols.now glue.now state.now }
    ensures value { result ≡ guard.is_small_box symbols.now glue.now state.now }
{
    is_small_glue(glue)
        && has_text(glue, symbols)
        && keeps_list(glue, state)
        && keeps_text(glue, state, symbols)
}

fn is_small_glue(glue: &Glue) -> bool
    ensures small { result ≡ true → IsSmallGlue glue.now }
    ensures value { result ≡ guard.is_small_glue glue.now }
{
    match glue {
        Glue::Message { text } | Glue::FloatBox { text } | Glue::SymbolBox { text } => {
            text.as_slice().len() <= MOST
        }
        Glue::Array { text, .. } => text.as_slice().len() <= MOST,
        Glue::Trigger { outlets, .. } => outlets.as_slice().len() <= MOST,
        Glue::Pack { slots } | Glue::Unpack { slots } => slots.as_slice().len() <= MOST,
        Glue::Route { arguments } => arguments.as_slice().len() <= MOST,
        Glue::Select { arguments, .. } => arguments.as_slice().len() <= MOST,
        Glue::Print { words } => words.as_slice().len() <= MOST,
        Glue::ListAppend { atoms, .. } => atoms.as_slice().len() <= MOST,
        Glue::ListPrepend { atoms } => atoms.as_slice().len() <= MOST,
        _ => true,
    }
}

fn has_text(glue: &Glue, symbols: &Symbols) -> bool
    ensures small { result ≡ true → HasText symbols.now glue.now }
    ensures value { result ≡ guard.has_text symbols.now glue.now }
{
    match glue {
        Glue::FloatBox { text } | Glue::SymbolBox { text } => are_known(symbols, text.as_slice()),
        _ => true,
    }
}

fn keeps_list(glue: &Glue, state: &State) -> bool
    ensures small { result ≡ true → KeepsList glue.now state.now }
    ensures value { result ≡ guard.keeps_list glue.now state.now }
{
    match glue {
        Glue::Trigger { .. }
        | Glue::Pack { .. }
        | Glue::Unpack { .. }
        | Glue::Route { .. }
        | Glue::Select { .. }
        | Glue::ListAppend { .. }
        | Glue::ListPrepend { .. }
        | Glue::ListSplit { .. }
        | Glue::ListTrim
        | Glue::ListLength => is_small_state(state),
        _ => true,
    }
}

fn is_small_state(state: &State) -> bool
    ensures small { result ≡ true → IsSmallState state.now }
    ensures value { result ≡ guard.is_small_state state.now }
{
    match state {
        State::Pack { slots } => slots.as_slice().len() <= MOST,
        State::Route { arguments } | State::Select { arguments } => {
            arguments.as_slice().len() <= MOST
        }
        State::ListAppend { stored } | State::ListPrepend { stored } => {
            stored.as_slice().len() <= MOST
        }
        _ => true,
    }
}

fn keeps_text(glue: &Glue, state: &State, symbols: &Symbols) -> bool
    ensures small { result ≡ true → KeepsText symbols.now glue.now state.now }
    ensures value { result ≡ guard.keeps_text symbols.now glue.now state.now }
{
    match glue {
        Glue::Message { .. } => keeps_message(state, symbols),
        _ => true,
    }
}

fn keeps_message(state: &State, symbols: &Symbols) -> bool
    ensures small { result ≡ true → KeepsMessage symbols.now state.now }
    ensures value { result ≡ guard.keeps_message symbols.now state.now }
{
    match state {
        State::Message { text } => {
            text.as_slice().len() <= MOST && are_known(symbols, text.as_slice())
        }
        _ => true,
    }
}
