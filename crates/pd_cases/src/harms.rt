//! Texts of documents that are cut off, or have a semicolon in place of a byte.

ghost use Rattle.std.specs.Prelude.{◌<◌};
ghost use Rattle.pd_doc.specs.Atoms.{PageOf};

use crate::documents::record_of;
use anyhow::{Result, bail, ensure};
use pd_atom::Symbols;
use pd_doc::{Doc, DocRefusal, read, write};
use std::alloc::Global;
use std::fmt::Write;

/// What is done to a text at a place.
#[derive(Clone, Copy)]
pub(crate) enum Harm {
    /// It ends there.
    Cut,
    /// A semicolon stands there in place of its byte.
    Semicolon,
}

/// What a text is read as and written again.
#[derive(Drop)]
enum Rewritten {
    Refused(DocRefusal),
    Text(Vec<u8>),
}

/// The same in short: of a text that is written how many bytes it has, and their sum.
#[derive(Clone, Copy, PartialEq, Eq)]
enum Outcome {
    Refused(DocRefusal),
    Text { bytes: usize, sum: u32 },
}

/// A text whose line breaks are told by `¶`.
fn broken(alloc: Global, text: &str) -> Result<Vec<u8>> {
    let mut bytes = Vec::new(alloc);
    for (number, line) in text.split('¶').enumerate() {
        if number > 0 {
            bytes.push(b'\n')?;
        }
        bytes.extend_from_slice(line.as_bytes())?;
    }
    Ok(bytes)
}

/// A text after what is done to it at a place.
fn harmed(alloc: Global, text: &[u8], harm: Harm, at: usize) -> Result<Vec<u8>> {
    let mut bytes = Vec::from_slice(alloc, text)?;
    match harm {
        Harm::Cut => bytes.truncate(at),
        Harm::Semicolon => {
            if let Some(byte) = bytes.get_mut(at) {
                *byte = b';';
            }
        }
    }
    Ok(bytes)
}

/// The text that is written for a document.
fn written(alloc: Global, doc: &Doc, symbols: &Symbols) -> Result<Rewritten>
    requires { PageOf symbols.now doc.now.root }
{
    let mut text = Vec::new(alloc);
    write(doc, symbols, &mut text)?;
    Ok(Rewritten::Text(text))
}

fn rewrite(alloc: Global, text: &[u8], symbols: &mut Symbols) -> Result<Rewritten> {
    ensure!(text.len() <= 4_294_967_295, "too long a text");
    match read(alloc, text, symbols) {
        Ok(doc) => written(alloc, &doc, symbols),
        Err(refusal) => Ok(Rewritten::Refused(refusal)),
    }
}

/// Each byte counts by its place.
fn sum_of(bytes: &[u8]) -> u32
    ensures { result < 65521 }
{
    let mut sum: u32 = 0;
    for byte in bytes {
        sum = (sum * 31 + u32::from(*byte)) % 65_521;
    }
    sum
}

/// What a text is read as. What is written has to be read and written as itself.
fn read_again(alloc: Global, text: &[u8], symbols: &mut Symbols) -> Result<Outcome> {
    let first = match rewrite(alloc, text, symbols)? {
        Rewritten::Refused(refusal) => return Ok(Outcome::Refused(refusal)),
        Rewritten::Text(first) => first,
    };
    match rewrite(alloc, first.as_slice(), symbols)? {
        Rewritten::Text(second) if second == first => Ok(Outcome::Text {
            bytes: first.len(),
            sum: sum_of(first.as_slice()),
        }),
        Rewritten::Text(_) | Rewritten::Refused(_) => bail!("what is written is read otherwise"),
    }
}

/// A place, and what is read of the text harmed there.
fn push_outcome(at: usize, outcome: Outcome, said: &mut String) -> Result<()> {
    match outcome {
        Outcome::Refused(refusal) => {
            write!(said, " | {at} record {}: {refusal}", record_of(refusal))?
        }
        Outcome::Text { bytes, sum } => write!(said, " | {at} {bytes} bytes, {sum}")?,
    }
    Ok(())
}

/// What is read of a text harmed at each place, and of it as it is at last: where it isn't the same as at the place before.
pub(crate) fn harms(
    alloc: Global,
    text: &str,
    harm: Harm,
    symbols: &mut Symbols,
) -> Result<String> {
    let text = broken(alloc, text)?;
    let mut said = String::new(alloc);
    let mut last = None;
    for at in 0..=text.len() {
        let bytes = harmed(alloc, text.as_slice(), harm, at)?;
        let now = read_again(alloc, bytes.as_slice(), symbols)?;
        if last != Some(now) {
            push_outcome(at, now, &mut said)?;
        }
        last = Some(now);
    }
    Ok(said)
}
