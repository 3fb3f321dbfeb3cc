//! How what a text names is shown.

ghost use Rattle.pd_object.specs.Ports.{IsSmallNamed};

use anyhow::Result;
use pd_clock::Rate;
use pd_kind::{Named, PortList, ports, sound_size};
use std::alloc::{AllocError, Global};

/// The names of what holds one value and says nothing of it.
const WRAPPERS: [&str; 7] = ["", "Kind", "Num", "Sym", "Some", "Items", "Panel"];

/// Whether a word of a printed value says something: the names of fields and wrappers don't.
fn tells(word: &str) -> bool {
    !word.ends_with(':') && !WRAPPERS.contains(&word)
}

/// Whether a character stands between the words of a printed value.
fn is_between(character: char) -> bool {
    matches!(character, ' ' | '{' | '}' | '(' | ')' | '[' | ']' | ',')
}

/// The words of a printed value that say something, each behind a blank.
pub(crate) fn push_words(printed: &str, shown: &mut String) -> Result<(), AllocError> {
    for word in printed.split(is_between) {
        if tells(word) {
            shown.push(' ')?;
            shown.push_str(word)?;
        }
    }
    Ok(())
}

fn port(signal: bool) -> char {
    if signal { '~' } else { 'c' }
}

fn push_ports(ports: PortList, shown: &mut String) -> Result<(), AllocError> {
    shown.push(' ')?;
    for i in 0..ports.inlets() {
        shown.push(port(ports.inlet_signal(i)))?;
    }
    shown.push('/')?;
    for i in 0..ports.outlets() {
        shown.push(port(ports.outlet_signal(i)))?;
    }
    Ok(())
}

/// The words of what a text names, and the ports of a kind: the inlets before the bar, the outlets behind it, `~` for one
/// that carries a signal and `c` for another.
///
/// A number stands in millionths, a symbol as its number in the table of the text. That begins with the six names that
/// every table has, so the first name that is none of them is 6.
pub(crate) fn named(alloc: Global, named: &Named) -> Result<String>
    requires { IsSmallNamed named.now }
{
    let printed = format!(in alloc; "{named:?}")?;
    let mut shown = String::new(alloc);
    push_words(printed.as_str(), &mut shown)?;
    if let Named::Kind(kind) = named {
        push_ports(ports(kind), &mut shown)?;
    }
    Ok(shown)
}

/// How many values the table or delay line of a kind counts; 0 for what counts none.
pub(crate) fn size(alloc: Global, named: &Named, rate: Rate) -> Result<String> {
    let values = match named {
        Named::Kind(kind) => sound_size(kind, rate),
        _ => 0,
    };
    Ok(format!(in alloc; " {values}")?)
}
