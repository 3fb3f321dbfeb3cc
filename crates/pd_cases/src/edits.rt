//! Records of the script, and edits that they make.

use crate::shown::push_words;
use anyhow::{Result, bail, ensure};
use pd_atom::Symbols;
use pd_canvas::{Doc, Edit, apply_plain, can_apply, copy};
use pd_doc::read;
use pd_lex::{Step, next_record};
use pd_num::Num;
use pd_script::{Command, CommandRoom, Script, read_command};
use std::alloc::Global;

/// What a record says, which stands without its semicolon.
fn script_of(alloc: Global, record: &str, symbols: &mut Symbols) -> Result<Option<(Num, Script)>> {
    let text = format!(in alloc; "{record};")?;
    let bytes = text.as_bytes();
    let mut room = CommandRoom::new(alloc)?;
    match next_record(bytes, 0) {
        Step::Rec { after, .. } if after == bytes.len() && after <= 65_536 => {
            Ok(read_command(&bytes[..after - 1], symbols, &mut room))
        }
        _ => bail!("no record: {record}"),
    }
}

/// The words of what a record says. A number stands in millionths, and a symbol as its number in the table.
pub(crate) fn command(alloc: Global, record: &str, symbols: &mut Symbols) -> Result<String> {
    let printed = format!(in alloc; "{:?}", script_of(alloc, record, symbols)?)?;
    let mut said = String::new(alloc);
    push_words(printed.as_str(), &mut said)?;
    Ok(said)
}

/// The words of a document.
fn words(alloc: Global, doc: &Doc) -> Result<String> {
    let mut said = String::new(alloc);
    push_words(format!(in alloc; "{doc:?}")?.as_str(), &mut said)?;
    Ok(said)
}

/// Makes an edit where it can be made, and gives the words of the document.
fn made(alloc: Global, doc: &mut Doc, path: &[u32], edit: &Edit) -> Result<String> {
    if !can_apply(doc, path, edit) {
        return Ok(String::from_str(alloc, " can't")?);
    }
    apply_plain(doc, path, edit)?;
    words(alloc, doc)
}

/// Makes the edit of a record.
fn edited(alloc: Global, doc: &mut Doc, record: &str, symbols: &mut Symbols) -> Result<String> {
    let Some((_, Script::Run(Command::Edit { place, edit }))) = script_of(alloc, record, symbols)?
    else {
        bail!("no edit: {record}");
    };
    let edit = edit.copy(alloc)?;
    made(alloc, doc, place.path.as_slice(), &edit)
}

/// A copy of a text's document.
fn copied(alloc: Global, text: &str, symbols: &mut Symbols) -> Result<Doc> {
    ensure!(text.len() <= 4_294_967_295, "too long a text");
    let Ok(doc) = read(alloc, text.as_bytes(), symbols) else {
        bail!("no document: {text}");
    };
    Ok(copy(&doc)?)
}

/// Puts the words of a document after each edit.
fn push_edits(
    alloc: Global,
    doc: &mut Doc,
    records: &str,
    symbols: &mut Symbols,
    said: &mut String,
) -> Result<()> {
    for record in records.split(" | ") {
        said.push_str(" |")?;
        said.push_str(edited(alloc, doc, record, symbols)?.as_str())?;
    }
    Ok(())
}

/// The words of a copy of a text's document after each edit.
pub(crate) fn edits(alloc: Global, parts: &str, symbols: &mut Symbols) -> Result<String> {
    let (text, records) = parts.split_once(" | ").unwrap_or((parts, ""));
    let mut said = String::new(alloc);
    let mut doc = copied(alloc, text, symbols)?;
    push_edits(alloc, &mut doc, records, symbols, &mut said)?;
    Ok(said)
}
