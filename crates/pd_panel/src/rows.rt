//! What a `bng` or `tgl` does.

ghost use Rattle.std.specs.Prelude.{◌≡◌, ◌<◌, length};
ghost use Rattle.pd_kind.specs.Fit.{IsLike};
ghost use Rattle.pd_kind.specs.Said.{said_by};
ghost use Rattle.pd_panel.specs.Rows.{panel_row, heard, panel_loaded, loaded};
ghost use Rattle.pd_panel.specs.Fold.{ToggleFolds};

use crate::toggles::{hear_toggle, is_zero, show_bang, show_number};
use pd_atom::{Atom, Sym, Symbols};
use pd_kind::{Around, Kind, Message, Panel, Sends, State};

fn hear_panel(
    symbols: &Symbols,
    panel: &Panel,
    state: &mut State,
    selector: Sym,
    atoms: &[Atom],
    out: &mut Sends,
)
    requires { selector < length symbols.now }
    ensures heard { record { state = state.new; said = said_by out.new } ≡ panel_row symbols.now panel.now state.old selector atoms.now }
    ensures kept { IsLike state.old state.new }
{
    match (panel, state) {
        (Panel::Bng(button), _) => show_bang(button.send, out),
        (
            Panel::Tgl(toggle),
            State::Toggle {
                value,
                other,
                is_saved,
            },
        ) => {
            let saved = *is_saved;
            hear_toggle(
                symbols,
                toggle.send,
                value,
                other,
                saved,
                selector,
                atoms,
                out,
            );
        }
        _ => out.say_nothing(),
    }
}

/// What a `bng` or `tgl` that keeps `state` does with a message at its inlet: the state after it, and in `out` what is said.
/// It changes no name, and looks at nothing around.
#[tactic(auto, unfolding(crate::specs::Rows::heard))]
pub fn hear(
    kind: &Kind,
    state: &mut State,
    inlet: u32,
    message: Message,
    symbols: &mut Symbols,
    around: &Around,
    out: &mut Sends,
)
    requires { message.selector < length symbols.old }
    ensures heard { record { state = state.new; said = said_by out.new } ≡ heard symbols.old kind.now state.old message.entry.selector message.entry.atoms.now }
    ensures kept { IsLike state.old state.new }
    ensures names { symbols.new ≡ symbols.old }
{
    let selector = message.selector;
    let atoms = message.atoms;
    let _inlet = inlet;
    let _around = around;
    match kind {
        Kind::Panel(panel) => hear_panel(symbols, panel, state, selector, atoms, out),
        _ => out.say_nothing(),
    }
}

fn load_panel(panel: &Panel, state: &State, out: &mut Sends)
    ensures { said_by out.new ≡ panel_loaded panel.now state.now }
{
    match (panel, state) {
        (Panel::Bng(button), _) if !is_zero(button.init) => show_bang(button.send, out),
        (Panel::Tgl(toggle), State::Toggle { value, .. }) if !is_zero(toggle.init) => {
            show_number(toggle.send, *value, out);
        }
        _ => out.say_nothing(),
    }
}

/// What a `bng` or `tgl` says when its document is loaded.
#[tactic(auto, unfolding(crate::specs::Rows::loaded))]
pub fn load(kind: &Kind, state: &State, out: &mut Sends)
    ensures { said_by out.new ≡ loaded kind.now state.now }
{
    match kind {
        Kind::Panel(panel) => load_panel(panel, state, out),
        _ => out.say_nothing(),
    }
}

/// What a toggle keeps after messages that it hears one by one is a fold of one step over them.
pub fn toggle_folds()
    ensures { ToggleFolds }
{}
