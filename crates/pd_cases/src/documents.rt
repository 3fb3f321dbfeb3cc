//! A text that is read as a document, and written.

ghost use Rattle.pd_doc.specs.Atoms.{PageOf};

use crate::stage::stage_of;
use anyhow::{Result, bail, ensure};
use pd_atom::Symbols;
use pd_doc::{Doc, DocRefusal, read, write};
use std::alloc::Global;

/// The number of the record that is refused, 0 for want of memory.
pub(crate) fn record_of(refusal: DocRefusal) -> u32 {
    match refusal {
        DocRefusal::BadRecord { number }
        | DocRefusal::DataStructure { number }
        | DocRefusal::TooDeep { number }
        | DocRefusal::TooLong { number }
        | DocRefusal::TooManyBoxes { number }
        | DocRefusal::TooManyWires { number }
        | DocRefusal::SymbolsFull { number } => number,
        DocRefusal::NoMemory => 0,
    }
}

/// The text that is written for a document, its lines with blanks between them.
fn written(alloc: Global, doc: &Doc, symbols: &Symbols) -> Result<String>
    requires { PageOf symbols.now doc.now.root }
{
    let mut bytes = Vec::new(alloc);
    write(doc, symbols, &mut bytes)?;
    let Ok(text) = String::from_utf8(bytes) else {
        bail!("a name that is no text");
    };
    let mut said = String::new(alloc);
    for line in text.as_str().lines() {
        said.push_str(" ")?;
        said.push_str(line)?;
    }
    Ok(said)
}

/// What is written for the document of a text, or the record that is refused.
fn rewritten(alloc: Global, text: &[u8], symbols: &mut Symbols) -> Result<String> {
    ensure!(text.len() <= 4_294_967_295, "too long a text");
    match read(alloc, text, symbols) {
        Ok(doc) => written(alloc, &doc, symbols),
        Err(refusal) => Ok(format!(in alloc; " record {}: {refusal}", record_of(refusal))?),
    }
}

/// What is written for the document of the text of a case's parts.
pub(crate) fn document(alloc: Global, parts: &str, symbols: &mut Symbols) -> Result<String> {
    let stage = stage_of(alloc, format!(in alloc; "document {parts}")?.as_str())?;
    rewritten(alloc, stage.last_text().unwrap_or(b""), symbols)
}
