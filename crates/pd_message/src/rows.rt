//! What a message box does with a message.

ghost use Rattle.std.specs.Prelude.{◌≡◌, ◌<◌, ◌≤◌, length};
ghost use Rattle.std.specs.List.{All};
ghost use Rattle.pd_atom.specs.Atoms.{IsOf};
ghost use Rattle.pd_atom.specs.Names.{Extends};
ghost use Rattle.pd_kind.specs.Messages.{sort_of as sort_of_message};
ghost use Rattle.pd_kind.specs.Fit.{IsLike};
ghost use Rattle.pd_kind.specs.Said.{said_by};
ghost use Rattle.pd_kind.specs.declared.states.State.TheVariants as state;
ghost use Rattle.pd_message.specs.Rows.{message_row, heard_as, IsText, KeepsText};

use crate::edits::edit;
use crate::segments::run_text;
use pd_atom::{Atom, Sym, Symbols};
use pd_kind::{Sends, Sort, State, Text, sort_of};

/// A message at a box of this text.
fn hear_text(text: &mut Text, selector: Sym, atoms: &[Atom], symbols: &mut Symbols, out: &mut Sends)
    requires selector { selector < length symbols.old }
    requires atoms { All (IsOf symbols.old) atoms.now }
    requires few { length atoms.now ≤ 1024 }
    requires text { IsText symbols.old text.old }
    ensures heard { record { state = state.Message text.new; names = symbols.new; said = said_by out.new } ≡ heard_as symbols.old text.old selector atoms.now (sort_of_message selector atoms.now) }
    ensures extends { Extends symbols.old symbols.new }
    ensures text { IsText symbols.new text.new }
{
    match sort_of(selector, atoms) {
        Sort::Other => edit(text, selector, atoms, symbols, out),
        _ => {
            out.clear();
            run_text(text.as_slice(), atoms, symbols, out);
        }
    }
}

/// What a message box that keeps `state` does with a message: the state and the names after it, and in `out` what is said.
///
/// The text is cut at its semicolons and commas into pieces, and the dollars of each piece stand for the atoms of the message.
/// The pieces before the first semicolon go to outlet 0; behind one, the first atom names the receiver. `set`, `add`, `add2`,
/// `addcomma` and `addsemi` edit the text. It takes no memory.
#[tactic(auto, unfolding(crate::specs::Rows::message_row))]
pub fn hear_message(
    state: &mut State,
    selector: Sym,
    atoms: &[Atom],
    symbols: &mut Symbols,
    out: &mut Sends,
)
    requires selector { selector < length symbols.old }
    requires atoms { All (IsOf symbols.old) atoms.now }
    requires few { length atoms.now ≤ 1024 }
    requires text { KeepsText symbols.old state.old }
    ensures heard { record { state = state.new; names = symbols.new; said = said_by out.new } ≡ message_row symbols.old state.old selector atoms.now }
    ensures extends { Extends symbols.old symbols.new }
    ensures text { KeepsText symbols.new state.new }
    ensures kept { IsLike state.old state.new }
{
    match state {
        State::Message { text } => hear_text(text, selector, atoms, symbols, out),
        _ => out.say_nothing(),
    }
}
