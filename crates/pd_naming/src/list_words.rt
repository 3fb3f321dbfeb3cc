//! The words of objects that keep their arguments as a list.

ghost use Rattle.std.specs.Prelude.{◌≡◌, ◌≤◌, length, map, IfOk, IfSome};
ghost use Rattle.std.specs.List.{All};
ghost use Rattle.pd_atom.specs.Atoms.{IsOf};
ghost use Rattle.pd_object.specs.Ports.{IsSmallGlue};
ghost use Rattle.pd_naming.specs.Naming.{trigger_of as trigger_of_atom, trigger_letter, slot_of as slot_of_atom, channel_of as channel_of_atom, triggers_of as triggers_of_atoms, slots_of as slots_of_atoms, choices_of as choices_of_atoms, channels_of as channels_of_atoms, listed_named};

use crate::arguments::{first_letter, is_word};
use pd_atom::{Atom, Symbols};
use pd_object::{Channel, Glue, Items, Slot, Spelling, Trigger, zero};
use std::alloc::{AllocError, Global};

/// What an outlet of a `trigger` sends.
fn trigger_of(atom: Atom, symbols: &Symbols) -> Trigger
    requires { IsOf symbols.now atom }
    ensures { result ≡ trigger_of_atom symbols.now atom }
{
    match atom {
        Atom::Number(number) => Trigger::Constant(number),
        Atom::Symbol(word) => trigger_of_letter(first_letter(symbols.name(word))),
        _ => Trigger::Float,
    }
}

fn trigger_of_letter(letter: u8) -> Trigger
    ensures { result ≡ trigger_letter letter }
{
    match letter {
        b'b' => Trigger::Bang,
        b's' => Trigger::Symbol,
        b'l' => Trigger::List,
        b'a' => Trigger::Anything,
        _ => Trigger::Float,
    }
}

/// A slot of `pack` or `unpack`.
fn slot_of(atom: Atom, symbols: &Symbols) -> Slot
    requires { IsOf symbols.now atom }
    ensures { result ≡ slot_of_atom symbols.now atom }
{
    match atom {
        Atom::Number(number) => Slot::Number(number),
        Atom::Symbol(word) if first_letter(symbols.name(word)) == b's' => Slot::Symbol,
        _ => Slot::Number(zero()),
    }
}

/// The channel of an argument of `dac~`: 1 is the left one and 2 the right one.
fn channel_of(atom: Atom) -> Channel
    ensures { result ≡ channel_of_atom atom }
{
    match atom {
        Atom::Number(number) => match number.micros() {
            1_000_000 => Channel::Left,
            2_000_000 => Channel::Right,
            _ => Channel::Neither,
        },
        _ => Channel::Neither,
    }
}

/// The outlets of a `trigger`: `b b` without arguments.
fn triggers_of(
    alloc: Global,
    arguments: &[Atom],
    symbols: &Symbols,
) -> Result<Items<Trigger>, AllocError>
    requires atoms { All (IsOf symbols.now) arguments.now }
    requires few { length arguments.now ≤ 1024 }
    ensures value { IfOk result (λ list. list ≡ triggers_of_atoms symbols.now arguments.now) }
    ensures small { IfOk result (λ list. length list ≤ 1024) }
{
    if arguments.is_empty() {
        return Items::of(alloc, &[Trigger::Bang, Trigger::Bang]);
    }
    all_triggers(alloc, arguments, symbols)
}

fn all_triggers(
    alloc: Global,
    arguments: &[Atom],
    symbols: &Symbols,
) -> Result<Items<Trigger>, AllocError>
    requires { All (IsOf symbols.now) arguments.now }
    ensures { IfOk result (λ list. list ≡ map (trigger_of_atom symbols.now) arguments.now) }
{
    let mut list = Vec::new(alloc);
    for atom in arguments {
        list.push(trigger_of(*atom, symbols))?;
    }
    Ok(Items::from_vec(list))
}

/// The slots of `pack` and `unpack`: `0 0` without arguments.
fn slots_of(alloc: Global, arguments: &[Atom], symbols: &Symbols) -> Result<Items<Slot>, AllocError>
    requires atoms { All (IsOf symbols.now) arguments.now }
    requires few { length arguments.now ≤ 1024 }
    ensures value { IfOk result (λ list. list ≡ slots_of_atoms symbols.now arguments.now) }
    ensures small { IfOk result (λ list. length list ≤ 1024) }
{
    if arguments.is_empty() {
        return Items::of(alloc, &[Slot::Number(zero()), Slot::Number(zero())]);
    }
    all_slots(alloc, arguments, symbols)
}

fn all_slots(
    alloc: Global,
    arguments: &[Atom],
    symbols: &Symbols,
) -> Result<Items<Slot>, AllocError>
    requires { All (IsOf symbols.now) arguments.now }
    ensures { IfOk result (λ list. list ≡ map (slot_of_atom symbols.now) arguments.now) }
{
    let mut list = Vec::new(alloc);
    for atom in arguments {
        list.push(slot_of(*atom, symbols))?;
    }
    Ok(Items::from_vec(list))
}

/// The channels of `dac~`: `1 2` without arguments.
pub(crate) fn channels_of(alloc: Global, arguments: &[Atom]) -> Result<Items<Channel>, AllocError>
    requires few { length arguments.now ≤ 1024 }
    ensures value { IfOk result (λ list. list ≡ channels_of_atoms arguments.now) }
    ensures small { IfOk result (λ list. length list ≤ 1024) }
{
    if arguments.is_empty() {
        return Items::of(alloc, &[Channel::Left, Channel::Right]);
    }
    all_channels(alloc, arguments)
}

fn all_channels(alloc: Global, arguments: &[Atom]) -> Result<Items<Channel>, AllocError>
    ensures { IfOk result (λ list. list ≡ map channel_of_atom arguments.now) }
{
    let mut list = Vec::new(alloc);
    for atom in arguments {
        list.push(channel_of(*atom))?;
    }
    Ok(Items::from_vec(list))
}

/// The arguments of `route` and `select`: `0` without any.
fn choices_of(alloc: Global, arguments: Vec<Atom>) -> Result<Items<Atom>, AllocError>
    requires few { length arguments.items ≤ 1024 }
    ensures value { IfOk result (λ list. list ≡ choices_of_atoms arguments.items) }
    ensures small { IfOk result (λ list. length list ≤ 1024) }
{
    if arguments.is_empty() {
        return Items::of(alloc, &[Atom::Number(zero())]);
    }
    Ok(Items::from_vec(arguments))
}

/// The control objects that keep their arguments as a list, but for `list`.
pub(crate) fn listed_word(
    alloc: Global,
    word: &[u8],
    arguments: Vec<Atom>,
    symbols: &Symbols,
) -> Result<Option<Glue>, AllocError>
    requires atoms { All (IsOf symbols.now) arguments.items }
    requires few { length arguments.items ≤ 1024 }
    ensures value { IfOk result (λ glue. glue ≡ listed_named symbols.now word.now arguments.items) }
    ensures small { IfOk result (λ glue. IfSome glue IsSmallGlue) }
{
    Ok(Some(if is_word(word, b"trigger") {
        Glue::Trigger {
            spelling: Spelling::Whole,
            outlets: triggers_of(alloc, arguments.as_slice(), symbols)?,
        }
    } else if is_word(word, b"t") {
        Glue::Trigger {
            spelling: Spelling::Short,
            outlets: triggers_of(alloc, arguments.as_slice(), symbols)?,
        }
    } else if is_word(word, b"pack") {
        Glue::Pack {
            slots: slots_of(alloc, arguments.as_slice(), symbols)?,
        }
    } else if is_word(word, b"unpack") {
        Glue::Unpack {
            slots: slots_of(alloc, arguments.as_slice(), symbols)?,
        }
    } else if is_word(word, b"route") {
        Glue::Route {
            arguments: choices_of(alloc, arguments)?,
        }
    } else if is_word(word, b"select") {
        Glue::Select {
            spelling: Spelling::Whole,
            arguments: choices_of(alloc, arguments)?,
        }
    } else if is_word(word, b"sel") {
        Glue::Select {
            spelling: Spelling::Short,
            arguments: choices_of(alloc, arguments)?,
        }
    } else if is_word(word, b"print") {
        Glue::Print {
            words: Items::from_vec(arguments),
        }
    } else {
        return Ok(None);
    }))
}
