//! A box that hears messages, one after another.

ghost use Rattle.std.specs.Prelude.{◌≡◌, ◌<◌, ◌≤◌, true, length};
ghost use Rattle.std.specs.List.{All};
ghost use Rattle.pd_atom.specs.Atoms.{IsOf};
ghost use Rattle.pd_atom.specs.Names.{Names};
ghost use Rattle.pd_object.specs.Ports.{IsSmallKind};
ghost use Rattle.pd_glue.specs.Rows.{HasTexts, IsSmall};

use crate::case::first_word;
use crate::naming::{are_of_table, atoms_of};
use crate::said::push_said;
use anyhow::{Result, bail, ensure};
use pd_atom::{Atom, Sym, Symbols};
use pd_clock::{Rate, Time};
use pd_kind::{Around, Glue, Kind, Message, Sends, State};
use std::alloc::Global;

/// What comes to a box.
#[derive(Drop)]
pub(crate) enum Event {
    /// A message: the inlet, and the selector with the atoms behind it.
    Message { inlet: u32, words: Vec<Atom> },
    /// The box's clock fires.
    Fire,
    /// The box's document is loaded.
    Load,
}

/// `fire`, `load`, or `INLET SELECTOR ATOMS`.
fn event_of(alloc: Global, text: &str, symbols: &mut Symbols) -> Result<Event> {
    match text {
        "fire" => Ok(Event::Fire),
        "load" => Ok(Event::Load),
        _ => {
            let (inlet, words) = first_word(text);
            let Ok(inlet) = inlet.parse() else {
                bail!("no inlet: {text}");
            };
            Ok(Event::Message {
                inlet,
                words: atoms_of(alloc, words, symbols)?,
            })
        }
    }
}

/// The events of texts with bars between them.
pub(crate) fn events_of(alloc: Global, texts: &str, symbols: &mut Symbols) -> Result<Vec<Event>> {
    let mut events = Vec::new(alloc);
    for text in texts.split(" | ") {
        events.push(event_of(alloc, text, symbols)?)?;
    }
    Ok(events)
}

/// Whether a kind is heard here: a `vline~` is not, nor is what no object's text names.
fn is_heard(kind: &Kind) -> bool
    ensures { result ≡ true → (names : Names) → HasTexts names kind.now }
{
    match kind {
        Kind::Glue(Glue::Message { .. } | Glue::FloatBox { .. } | Glue::SymbolBox { .. }) => false,
        Kind::Vline => false,
        _ => true,
    }
}

/// A message comes to an inlet, at time 0 and beside no table.
fn hear(
    kind: &Kind,
    state: &mut State,
    inlet: u32,
    selector: Sym,
    atoms: &[Atom],
    symbols: &mut Symbols,
    out: &mut Sends,
)
    requires selector { selector < length symbols.old }
    requires atoms { All (IsOf symbols.old) atoms.now }
    requires few { length atoms.now ≤ 1024 }
    requires small { IsSmall symbols.old kind.now state.old }
    ensures small { IsSmall symbols.new kind.now state.new }
{
    let message = Message { selector, atoms };
    let around = Around {
        now: Time::of_units(0),
        table: None,
    };
    match kind {
        Kind::Arith(_) => pd_arith::hear(kind, state, inlet, message, symbols, &around, out),
        Kind::Panel(_) => pd_panel::hear(kind, state, inlet, message, symbols, &around, out),
        _ => pd_glue::hear(kind, state, inlet, message, symbols, &around, out),
    }
}

fn hear_words(
    kind: &Kind,
    state: &mut State,
    inlet: u32,
    words: &[Atom],
    symbols: &mut Symbols,
    out: &mut Sends,
) -> Result<()>
    requires small { IsSmall symbols.old kind.now state.old }
    ensures small { IsSmall symbols.new kind.now state.new }
{
    let [Atom::Symbol(selector), atoms @ ..] = words else {
        bail!("a message without a selector");
    };
    ensure!(atoms.len() <= 1024, "a message of {} atoms", atoms.len());
    if selector.number() >= symbols.len() || !are_of_table(atoms, symbols) {
        bail!("a message with names of another table");
    }
    hear(kind, state, inlet, *selector, atoms, symbols, out);
    Ok(())
}

fn take(
    kind: &Kind,
    state: &mut State,
    event: &Event,
    symbols: &mut Symbols,
    out: &mut Sends,
) -> Result<()>
    requires small { IsSmall symbols.old kind.now state.old }
    ensures small { IsSmall symbols.new kind.now state.new }
{
    match event {
        Event::Message { inlet, words } => {
            hear_words(kind, state, *inlet, words.as_slice(), symbols, out)
        }
        Event::Fire => {
            pd_glue::fire(kind, state, out);
            Ok(())
        }
        Event::Load => {
            pd_panel::load(kind, state, out);
            Ok(())
        }
    }
}

fn take_all(
    alloc: Global,
    kind: &Kind,
    state: &mut State,
    events: &[Event],
    symbols: &mut Symbols,
    said: &mut Vec<u8>,
) -> Result<()>
    requires small { IsSmall symbols.old kind.now state.old }
{
    let mut out = Sends::new(alloc)?;
    for event in events {
        take(kind, state, event, symbols, &mut out)?;
        push_said(&out, symbols, said)?;
    }
    Ok(())
}

/// What a new box says of each event, with a bar behind each.
fn said_by_new(
    alloc: Global,
    kind: &Kind,
    events: &[Event],
    symbols: &mut Symbols,
) -> Result<Vec<u8>>
    requires small { IsSmallKind kind.now }
    requires texts { (names : Names) → HasTexts names kind.now }
{
    let mut state = State::fresh(alloc, kind, Rate::R44100)?;
    pd_glue::starts_small();
    let mut said = Vec::new(alloc);
    take_all(alloc, kind, &mut state, events, symbols, &mut said)?;
    Ok(said)
}

/// What a new box of a kind says of each event, with a bar behind each.
pub(crate) fn said(
    alloc: Global,
    kind: &Kind,
    events: &[Event],
    symbols: &mut Symbols,
) -> Result<String>
    requires { IsSmallKind kind.now }
{
    if !is_heard(kind) {
        bail!("a box that isn't heard here");
    }
    match String::from_utf8(said_by_new(alloc, kind, events, symbols)?) {
        Ok(said) => Ok(said),
        Err(_) => bail!("a name that is no text"),
    }
}
