//! What an object's text names: one of the tables' rows with its arguments, or an abstraction.

ghost use Rattle.std.specs.Prelude.{◌≡◌, ◌≤◌, ◌<◌, bytes_eq, length, map, IfOk, IfSome};
ghost use Rattle.std.specs.List.{All};
ghost use Rattle.pd_atom.specs.Names.{name_of};
ghost use Rattle.pd_atom.specs.Atoms.{IsOf};
ghost use Rattle.pd_object.specs.Ports.{IsSmallNamed, IsSmallKind, IsSmallGlue, IsSmallSignal};
ghost use Rattle.pd_naming.specs.Naming.{arguments_of, arith_named, glue_named, signal_named, simple_kind as simple_kind_of, control_kind as control_kind_of, sounding_kind as sounding_kind_of, listed_kind as listed_kind_of, word_kind as kind_of_word, list_of, list_of_word as list_object, list_named, object_named, named_by, begins_foreign as begins_foreign_word, is_foreign_word as is_foreign};

use crate::arguments::{arguments, is_whole_text, is_word, number_at};
use crate::control_words::{
    addressed_word, comparison_word, division_word, operation_word, plain_word, timed_word,
};
use crate::list_words::{channels_of, listed_word};
use crate::panel_words::panel_word;
use crate::signal_words::{mixed_word, shaped_word, shared_word, tone_word};
use pd_atom::{Atom, Sym, Symbols};
use pd_object::{Arith, Glue, Items, Kind, Named, Signal, Spelling, zero};
use std::alloc::{AllocError, Global};

/// What an expanded text names.
///
/// Commas and semicolons are left out of the arguments. A number that is absent or no number takes its default; a name
/// that is absent or no symbol is no name. No list of the kind has more items than such a text.
pub fn kind_of(alloc: Global, text: &[Atom], symbols: &Symbols) -> Result<Named, AllocError>
    requires atoms { All (IsOf symbols.now) text.now }
    requires few { length text.now ≤ 1024 }
    ensures value { IfOk result (λ named. named ≡ named_by symbols.now text.now) }
    ensures small { IfOk result IsSmallNamed }
{
    match text {
        [Atom::Symbol(name), rest @ ..] => object(alloc, *name, rest, symbols),
        _ => Ok(Named::Nothing),
    }
}

/// What a text names that begins with a symbol.
fn object(alloc: Global, name: Sym, atoms: &[Atom], symbols: &Symbols) -> Result<Named, AllocError>
    requires name { name < length symbols.now }
    requires atoms { All (IsOf symbols.now) atoms.now }
    requires few { length atoms.now ≤ 1024 }
    ensures value { IfOk result (λ named. named ≡ object_named symbols.now name atoms.now) }
    ensures small { IfOk result IsSmallNamed }
{
    let word = symbols.name(name);
    if is_word(word, b"list") {
        return list(alloc, name, atoms, symbols);
    }
    match word_kind(alloc, word, atoms, symbols)? {
        Some(kind) => Ok(Named::Kind(kind)),
        None => Ok(Named::Abstraction(name)),
    }
}

/// The kind of a word that isn't `list` and of the atoms behind it.
fn word_kind(
    alloc: Global,
    word: &[u8],
    atoms: &[Atom],
    symbols: &Symbols,
) -> Result<Option<Kind>, AllocError>
    requires atoms { All (IsOf symbols.now) atoms.now }
    requires few { length atoms.now ≤ 1024 }
    ensures value { IfOk result (λ kind. kind ≡ kind_of_word symbols.now word.now atoms.now) }
    ensures small { IfOk result (λ kind. IfSome kind IsSmallKind) }
{
    let arguments = arguments(alloc, atoms)?;
    match simple_kind(word, arguments.as_slice()) {
        Some(kind) => Ok(Some(kind)),
        None => listed_kind(alloc, word, arguments, is_whole_text(atoms), symbols),
    }
}

/// The kind of a word whose arguments need no list.
#[tactic(auto, unfolding(crate::specs::Naming::simple_kind))]
fn simple_kind(word: &[u8], arguments: &[Atom]) -> Option<Kind>
    ensures value { result ≡ simple_kind_of word.now arguments.now }
    ensures small { IfSome result IsSmallKind }
{
    match arith(word, arguments) {
        Some(arith) => Some(Kind::Arith(arith)),
        None => control_kind(word, arguments),
    }
}

fn arith(word: &[u8], arguments: &[Atom]) -> Option<Arith>
    ensures { result ≡ arith_named word.now arguments.now }
{
    match operation_word(word, arguments) {
        Some(arith) => Some(arith),
        None => match comparison_word(word, arguments) {
            Some(arith) => Some(arith),
            None => division_word(word, arguments),
        },
    }
}

fn control_kind(word: &[u8], arguments: &[Atom]) -> Option<Kind>
    ensures value { result ≡ control_kind_of word.now arguments.now }
    ensures small { IfSome result IsSmallKind }
{
    match glue(word, arguments) {
        Some(glue) => Some(Kind::Glue(glue)),
        None => sounding_kind(word, arguments),
    }
}

fn glue(word: &[u8], arguments: &[Atom]) -> Option<Glue>
    ensures value { result ≡ glue_named word.now arguments.now }
    ensures small { IfSome result IsSmallGlue }
{
    match plain_word(word, arguments) {
        Some(glue) => Some(glue),
        None => match timed_word(word, arguments) {
            Some(glue) => Some(glue),
            None => addressed_word(word, arguments),
        },
    }
}

fn sounding_kind(word: &[u8], arguments: &[Atom]) -> Option<Kind>
    ensures value { result ≡ sounding_kind_of word.now arguments.now }
    ensures small { IfSome result IsSmallKind }
{
    match tone_word(word, arguments) {
        Some(tone) => Some(Kind::Tone(tone)),
        None => match signal(word, arguments) {
            Some(signal) => Some(Kind::Signal(signal)),
            None => None,
        },
    }
}

fn signal(word: &[u8], arguments: &[Atom]) -> Option<Signal>
    ensures value { result ≡ signal_named word.now arguments.now }
    ensures small { IfSome result IsSmallSignal }
{
    match mixed_word(word, arguments) {
        Some(signal) => Some(signal),
        None => match shaped_word(word, arguments) {
            Some(signal) => Some(signal),
            None => shared_word(word, arguments),
        },
    }
}

/// The kind of a word whose arguments may be kept as a list.
#[tactic(auto, unfolding(crate::specs::Naming::listed_kind))]
fn listed_kind(
    alloc: Global,
    word: &[u8],
    arguments: Vec<Atom>,
    is_whole: bool,
    symbols: &Symbols,
) -> Result<Option<Kind>, AllocError>
    requires atoms { All (IsOf symbols.now) arguments.items }
    requires few { length arguments.items ≤ 1024 }
    ensures value { IfOk result (λ kind. kind ≡ listed_kind_of symbols.now word.now arguments.items is_whole) }
    ensures small { IfOk result (λ kind. IfSome kind IsSmallKind) }
{
    if let Some(panel) = panel_word(word, arguments.as_slice(), is_whole, symbols) {
        return Ok(Some(Kind::Panel(panel)));
    }
    if is_word(word, b"vline~") {
        return Ok(Some(Kind::Vline));
    }
    if is_word(word, b"dac~") {
        let channels = channels_of(alloc, arguments.as_slice())?;
        return Ok(Some(Kind::Signal(Signal::Dac { channels })));
    }
    match listed_word(alloc, word, arguments, symbols)? {
        Some(glue) => Ok(Some(Kind::Glue(glue))),
        None => Ok(None),
    }
}

/// What a text names that begins with `list`.
fn list(alloc: Global, name: Sym, atoms: &[Atom], symbols: &Symbols) -> Result<Named, AllocError>
    requires atoms { All (IsOf symbols.now) atoms.now }
    requires few { length atoms.now ≤ 1024 }
    ensures value { IfOk result (λ named. named ≡ list_named symbols.now name atoms.now) }
    ensures small { IfOk result IsSmallNamed }
{
    if begins_foreign(atoms, symbols) {
        return Ok(Named::Abstraction(name));
    }
    let arguments = arguments(alloc, atoms)?;
    let glue = list_glue(alloc, arguments.as_slice(), symbols)?;
    Ok(Named::Kind(Kind::Glue(glue)))
}

/// Whether the second word is one that makes no object of the tables.
fn begins_foreign(atoms: &[Atom], symbols: &Symbols) -> bool
    requires { All (IsOf symbols.now) atoms.now }
    ensures { result ≡ begins_foreign_word symbols.now atoms.now }
{
    match atoms {
        [Atom::Symbol(second), ..] => is_foreign_word(symbols.name(*second)),
        _ => false,
    }
}

fn is_foreign_word(word: &[u8]) -> bool
    ensures { result ≡ is_foreign word.now }
{
    is_word(word, b"store") || (is_word(word, b"fromsymbol") || is_word(word, b"tosymbol"))
}

/// The object of the list's second word and of the atoms behind it.
fn list_glue(alloc: Global, arguments: &[Atom], symbols: &Symbols) -> Result<Glue, AllocError>
    requires atoms { All (IsOf symbols.now) arguments.now }
    requires few { length arguments.now ≤ 1024 }
    ensures value { IfOk result (λ glue. glue ≡ list_of symbols.now arguments.now) }
    ensures small { IfOk result IsSmallGlue }
{
    match arguments {
        [Atom::Symbol(second), rest @ ..] => {
            list_of_word(alloc, symbols.name(*second), rest, arguments)
        }
        _ => Ok(Glue::ListAppend {
            spelling: Spelling::Short,
            atoms: Items::of(alloc, arguments)?,
        }),
    }
}

fn list_of_word(alloc: Global, word: &[u8], rest: &[Atom], all: &[Atom]) -> Result<Glue, AllocError>
    requires rest { length rest.now ≤ 1024 }
    requires all { length all.now ≤ 1024 }
    ensures value { IfOk result (λ glue. glue ≡ list_object word.now rest.now all.now) }
    ensures small { IfOk result IsSmallGlue }
{
    if is_word(word, b"append") {
        Ok(Glue::ListAppend {
            spelling: Spelling::Whole,
            atoms: Items::of(alloc, rest)?,
        })
    } else if is_word(word, b"prepend") {
        Ok(Glue::ListPrepend {
            atoms: Items::of(alloc, rest)?,
        })
    } else if is_word(word, b"split") {
        Ok(Glue::ListSplit {
            count: number_at(rest, 0, zero()),
        })
    } else if is_word(word, b"trim") {
        Ok(Glue::ListTrim)
    } else if is_word(word, b"length") {
        Ok(Glue::ListLength)
    } else {
        Ok(Glue::ListAppend {
            spelling: Spelling::Short,
            atoms: Items::of(alloc, all)?,
        })
    }
}
