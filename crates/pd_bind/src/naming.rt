//! Which name a box owns.

ghost use Rattle.std.specs.Prelude.{◌≡◌, ◌&&◌, Bool, None, if◌then◌else◌};
ghost use Rattle.pd_canvas.specs.Views.{shape_of};
ghost use Rattle.pd_name.specs.declared.Class.TheVariants.{Receiver};
ghost use Rattle.pd_tree.specs.Trees.{Cell, stand_of};
ghost use Rattle.pd_grove.specs.TextOrder.{is_sub};
ghost use Rattle.pd_naming.specs.Naming.{name_at as name_at_place};
ghost use Rattle.pd_grove.specs.Standing.{node_seen};
ghost use Rattle.pd_bind.specs.Naming.{owned, unless_dash as unless_dash_of, receive_name as receive_name_of, glue_owned, signal_owned, panel_owned, first_symbol as first_symbol_of, symbol_after_pd as symbol_after_pd_of, subpatch_symbol as subpatch_symbol_of, owned_by_kind, owned_by};

use crate::receivers::{named_canvas_receiver, spelling};
use pd_atom::{Atom, Sym, Symbols};
use pd_canvas::Form;
use pd_grove::Node;
use pd_kind::{Glue, Kind, Panel, Signal, argument_name_at};
use pd_name::Class;
use pd_tree::Row;

/// The place of the receive name among the arguments of a number or symbol box.
const RECEIVE_NAME: usize = 5;

/// The name that a box owns, by its kind alone; that of a subpatch by its text too, where it is in the patch's own document. A
/// name that the table lacks isn't owned. The table stays as it is.
pub fn name_of(node: &Node, is_top: bool, symbols: &mut Symbols) -> Option<(Class, Sym)>
    ensures value { result ≡ owned_by symbols.old is_top (node_seen node.now).cell }
    ensures table { symbols.new ≡ symbols.old }
{
    let hears = is_own_canvas(&node.element.form, is_top);
    name_by(&node.kind, node.text.as_slice(), hears, symbols)
}

/// The name that a grown box will own, which has no key yet.
pub fn name_of_row(row: &Row, is_top: bool, symbols: &mut Symbols) -> Option<(Class, Sym)>
    ensures value { result ≡ owned_by symbols.old is_top (stand_of row.now).cell }
    ensures table { symbols.new ≡ symbols.old }
{
    let hears = is_own_canvas(&row.element.form, is_top);
    name_by(&row.kind, row.text.as_slice(), hears, symbols)
}

/// The name that a box of a kind owns; that of a canvas by its text, where it is one that hears.
fn name_by(kind: &Kind, text: &[Atom], hears: bool, symbols: &mut Symbols) -> Option<(Class, Sym)>
    ensures value { (top : Bool) (c : Cell) → hears ≡ (top && is_sub c.head.form) → text.now ≡ c.text →
        result ≡ owned_by_kind symbols.old top c kind.now }
    ensures table { symbols.new ≡ symbols.old }
{
    match kind {
        Kind::Glue(glue) => glue_name(glue, symbols),
        Kind::Signal(signal) => signal_name(signal),
        Kind::Panel(panel) => panel_name(panel),
        Kind::Canvas => canvas_name(text, hears, symbols),
        _ => None,
    }
}

/// Whether a canvas hears: one of a subpatch of the patch's own document does.
fn is_own_canvas(form: &Form, is_top: bool) -> bool
    ensures { result ≡ (is_top && is_sub (shape_of form.now)) }
{
    is_top && matches!(form, Form::Sub(_))
}

/// A name in a class.
pub(crate) fn in_class(class: Class, name: Option<Sym>) -> Option<(Class, Sym)>
    ensures { result ≡ owned class name }
{
    match name {
        Some(name) => Some((class, name)),
        None => None,
    }
}

fn glue_name(glue: &Glue, symbols: &Symbols) -> Option<(Class, Sym)>
    ensures { result ≡ glue_owned symbols.now glue.now }
{
    match glue {
        Glue::Receive { name, .. } => in_class(Class::Receiver, *name),
        Glue::FloatBox { text } => in_class(
            Class::Receiver,
            receive_name(text.as_slice(), symbols),
        ),
        Glue::SymbolBox { text } => in_class(
            Class::Receiver,
            receive_name(text.as_slice(), symbols),
        ),
        Glue::Table { name, .. } => in_class(Class::Table, *name),
        Glue::Array { text, .. } => in_class(Class::Table, name_at(text.as_slice(), 0)),
        _ => None,
    }
}

fn signal_name(signal: &Signal) -> Option<(Class, Sym)>
    ensures { result ≡ signal_owned signal.now }
{
    match signal {
        Signal::Catch { name } => in_class(Class::Catch, *name),
        Signal::Send { name, .. } => in_class(Class::Bus, *name),
        Signal::Delwrite { name, .. } => in_class(Class::Delay, *name),
        _ => None,
    }
}

fn panel_name(panel: &Panel) -> Option<(Class, Sym)>
    ensures { result ≡ panel_owned panel.now }
{
    match panel {
        Panel::Bng(button) => in_class(Class::Receiver, button.receive),
        Panel::Tgl(toggle) => in_class(Class::Receiver, toggle.receive),
    }
}

/// The symbol at a place of a text, where one is there.
fn name_at(text: &[Atom], place: usize) -> Option<Sym>
    ensures { result ≡ name_at_place text.now place }
{
    match text.get(place) {
        Some(Atom::Symbol(name)) => Some(*name),
        _ => None,
    }
}

/// The receive name of a number or symbol box.
fn receive_name(text: &[Atom], symbols: &Symbols) -> Option<Sym>
    ensures { result ≡ receive_name_of symbols.now text.now }
{
    unless_dash(argument_name_at(text, RECEIVE_NAME), symbols)
}

/// `-` is no name.
fn unless_dash(name: Option<Sym>, symbols: &Symbols) -> Option<Sym>
    ensures { result ≡ unless_dash_of symbols.now name }
{
    match name {
        Some(name) => {
            if spelling(name, symbols) == b"-".as_slice() {
                None
            } else {
                Some(name)
            }
        }
        None => None,
    }
}

/// The symbol that comes first.
fn first_symbol(atoms: &[Atom]) -> Option<Sym>
    ensures { result ≡ first_symbol_of atoms.now }
{
    match atoms {
        [Atom::Symbol(name), ..] => Some(*name),
        _ => None,
    }
}

/// The symbol behind `pd` in the text of a subpatch.
fn symbol_after_pd(text: &[Atom], symbols: &Symbols) -> Option<Sym>
    ensures { result ≡ symbol_after_pd_of symbols.now text.now }
{
    match text {
        [Atom::Symbol(word), rest @ ..] => {
            if spelling(*word, symbols) == b"pd".as_slice() {
                first_symbol(rest)
            } else {
                None
            }
        }
        _ => None,
    }
}

/// The symbol at which a subpatch of this text hears.
fn subpatch_symbol(text: &[Atom], symbols: &mut Symbols) -> Option<Sym>
    ensures value { result ≡ subpatch_symbol_of symbols.old text.now }
    ensures table { symbols.new ≡ symbols.old }
{
    match symbol_after_pd(text, symbols) {
        Some(name) => named_canvas_receiver(name, symbols),
        None => None,
    }
}

fn canvas_name(text: &[Atom], hears: bool, symbols: &mut Symbols) -> Option<(Class, Sym)>
    ensures value { result ≡ (if hears then owned Receiver (subpatch_symbol_of symbols.old text.now) else None) }
    ensures table { symbols.new ≡ symbols.old }
{
    if hears {
        in_class(Class::Receiver, subpatch_symbol(text, symbols))
    } else {
        None
    }
}
