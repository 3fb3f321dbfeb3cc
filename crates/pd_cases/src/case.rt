//! A case, and its answer.

ghost use Rattle.pd_object.specs.Ports.{IsSmallNamed};

use crate::harms::Harm;
use crate::hearing::Event;
use crate::{documents, edits, harms, hearing, naming, orders, playing, refusals, shown, trees};
use anyhow::{Result, bail};
use pd_atom::Symbols;
use pd_clock::Rate;
use pd_kind::Named;
use std::alloc::Global;

/// What a line asks.
#[derive(Clone, Copy)]
enum Case<'a> {
    /// What a text names.
    Name { text: &'a str },
    /// How many values a text's box counts at a rate.
    Size { rate: Rate, text: &'a str },
    /// What a text's box says of events, which stand behind bars.
    Hear { texts: &'a str },
    /// What a run of words, files and a script leaves.
    Play { parts: &'a str },
    /// The tree of a patch among files.
    Tree { parts: &'a str },
    /// The texts of the refusals of growth.
    Refusals,
    /// The text of the document of a text.
    Document { parts: &'a str },
    /// What is read of a text harmed at each place.
    Harms { harm: Harm, text: &'a str },
    /// What a record of the script says.
    Command { record: &'a str },
    /// The document of a text after edits.
    Edit { parts: &'a str },
    /// The order of a graph after changes.
    Order { parts: &'a str },
}

/// The first word of a line, and the rest behind the blank after it.
pub(crate) fn first_word(line: &str) -> (&str, &str) {
    line.split_once(' ').unwrap_or((line, ""))
}

/// The case of a line. `None` where its first word is no case, or no rate stands where one has to.
fn case_of(line: &str) -> Option<Case<'_>> {
    let (word, rest) = first_word(line);
    match word {
        "name" => Some(Case::Name { text: rest }),
        "size" => {
            let (rate, text) = first_word(rest);
            let rate = Rate::of_hz(rate.parse().ok()?)?;
            Some(Case::Size { rate, text })
        }
        "hear" => Some(Case::Hear { texts: rest }),
        "play" => Some(Case::Play { parts: rest }),
        "tree" => Some(Case::Tree { parts: rest }),
        "refusals" => Some(Case::Refusals),
        "document" => Some(Case::Document { parts: rest }),
        "cuts" => Some(Case::Harms {
            harm: Harm::Cut,
            text: rest,
        }),
        "semicolons" => Some(Case::Harms {
            harm: Harm::Semicolon,
            text: rest,
        }),
        "command" => Some(Case::Command { record: rest }),
        "edit" => Some(Case::Edit { parts: rest }),
        "order" => Some(Case::Order { parts: rest }),
        _ => None,
    }
}

/// What a box says. The first text is the box's, and each other one is of an event.
fn said(alloc: Global, texts: &str, symbols: &mut Symbols) -> Result<String> {
    let (text, texts) = texts.split_once(" | ").unwrap_or((texts, ""));
    let events = hearing::events_of(alloc, texts, symbols)?;
    let named = naming::named_of(alloc, text, symbols)?;
    said_of(alloc, &named, events.as_slice(), symbols)
}

/// What the box of a name says of events.
fn said_of(alloc: Global, named: &Named, events: &[Event], symbols: &mut Symbols) -> Result<String>
    requires { IsSmallNamed named.now }
{
    match named {
        Named::Kind(kind) => hearing::said(alloc, kind, events, symbols),
        Named::Abstraction(_) | Named::Nothing => bail!("no box"),
    }
}

/// What a text names.
fn named(alloc: Global, text: &str, symbols: &mut Symbols) -> Result<String> {
    shown::named(alloc, &naming::named_of(alloc, text, symbols)?)
}

/// How many values the box of a text counts.
fn sized(alloc: Global, rate: Rate, text: &str, symbols: &mut Symbols) -> Result<String> {
    shown::size(alloc, &naming::named_of(alloc, text, symbols)?, rate)
}

/// The answer to a case, with a table of names for it.
fn answered(alloc: Global, case: Case<'_>, symbols: &mut Symbols) -> Result<String> {
    match case {
        Case::Name { text } => named(alloc, text, symbols),
        Case::Size { rate, text } => sized(alloc, rate, text, symbols),
        Case::Hear { texts } => said(alloc, texts, symbols),
        Case::Play { parts } => playing::played(alloc, parts),
        Case::Tree { parts } => trees::tree(alloc, parts),
        Case::Refusals => refusals::texts(alloc),
        Case::Document { parts } => documents::document(alloc, parts, symbols),
        Case::Harms { harm, text } => harms::harms(alloc, text, harm, symbols),
        Case::Command { record } => edits::command(alloc, record, symbols),
        Case::Edit { parts } => edits::edits(alloc, parts, symbols),
        Case::Order { parts } => orders::orders(alloc, parts),
    }
}

/// What is printed behind a case's line and an arrow; it begins with a blank.
pub(crate) fn answer(alloc: Global, line: &str) -> Result<String> {
    let Some(case) = case_of(line) else {
        bail!("no case: {line}");
    };
    let mut symbols = Symbols::new(alloc)?;
    answered(alloc, case, &mut symbols)
}
