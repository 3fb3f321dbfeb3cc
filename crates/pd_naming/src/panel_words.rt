//! `bng` and `tgl`.

ghost use Rattle.std.specs.Prelude.{◌≡◌};
ghost use Rattle.std.specs.List.{All};
ghost use Rattle.pd_atom.specs.Atoms.{IsOf};
ghost use Rattle.pd_naming.specs.Naming.{panel_name as panel_name_at, button_of, toggle_of, panel_named};

use crate::arguments::{is_word, name_at, number_at};
use pd_atom::{Atom, Sym, Symbols};
use pd_object::{Button, Panel, Toggle, zero};

/// The symbol at a place, where one is there and isn't `empty`.
fn panel_name(arguments: &[Atom], i: usize, symbols: &Symbols) -> Option<Sym>
    requires { All (IsOf symbols.now) arguments.now }
    ensures { result ≡ panel_name_at symbols.now arguments.now i }
{
    match arguments.get(i) {
        Some(Atom::Symbol(name)) if !is_word(symbols.name(*name), b"empty") => Some(*name),
        _ => None,
    }
}

fn button(arguments: &[Atom], symbols: &Symbols) -> Panel
    requires { All (IsOf symbols.now) arguments.now }
    ensures { result ≡ button_of symbols.now arguments.now }
{
    let zero = zero();
    Panel::Bng(Button {
        size: number_at(arguments, 0, zero),
        hold: number_at(arguments, 1, zero),
        interrupt: number_at(arguments, 2, zero),
        init: number_at(arguments, 3, zero),
        send: panel_name(arguments, 4, symbols),
        receive: panel_name(arguments, 5, symbols),
        label: panel_name(arguments, 6, symbols),
        x_offset: number_at(arguments, 7, zero),
        y_offset: number_at(arguments, 8, zero),
        font: number_at(arguments, 9, zero),
        font_size: number_at(arguments, 10, zero),
        background: number_at(arguments, 11, zero),
        foreground: number_at(arguments, 12, zero),
        label_colour: number_at(arguments, 13, zero),
    })
}

fn toggle(arguments: &[Atom], is_whole: bool, symbols: &Symbols) -> Panel
    requires { All (IsOf symbols.now) arguments.now }
    ensures { result ≡ toggle_of symbols.now arguments.now is_whole }
{
    let zero = zero();
    Panel::Tgl(Toggle {
        size: number_at(arguments, 0, zero),
        init: number_at(arguments, 1, zero),
        send: panel_name(arguments, 2, symbols),
        receive: panel_name(arguments, 3, symbols),
        label: panel_name(arguments, 4, symbols),
        x_offset: number_at(arguments, 5, zero),
        y_offset: number_at(arguments, 6, zero),
        font: number_at(arguments, 7, zero),
        font_size: number_at(arguments, 8, zero),
        background: number_at(arguments, 9, zero),
        foreground: number_at(arguments, 10, zero),
        label_colour: number_at(arguments, 11, zero),
        value: number_at(arguments, 12, zero),
        other: number_at(arguments, 13, zero),
        is_whole,
    })
}

/// `bng` and `tgl`, which tells whether its text is whole.
pub(crate) fn panel_word(
    word: &[u8],
    arguments: &[Atom],
    is_whole: bool,
    symbols: &Symbols,
) -> Option<Panel>
    requires { All (IsOf symbols.now) arguments.now }
    ensures { result ≡ panel_named symbols.now word.now arguments.now is_whole }
{
    if is_word(word, b"bng") {
        Some(button(arguments, symbols))
    } else if is_word(word, b"tgl") {
        Some(toggle(arguments, is_whole, symbols))
    } else {
        None
    }
}
