//! Reading a document.

ghost use Rattle.std.specs.Prelude.{◌≡◌, ◌<◌, ◌≤◌, ◌-◌, map, length, slice_range, false, IsTrue, IfOk, OnErr};
ghost use Rattle.std.specs.List.{list_all};
ghost use Rattle.pd_lex.specs.Text.{is_space};
ghost use Rattle.pd_lex.specs.Reading.{is_body, pieces, records, rest_of};
ghost use Rattle.pd_atom.specs.Names.{Extends};
ghost use Rattle.pd_canvas.specs.Proper.{IsProper};
ghost use Rattle.pd_doc.specs.Pieces.{piece};
ghost use Rattle.pd_doc.specs.Atoms.{PageOf};
ghost use Rattle.pd_doc.specs.Results.{Answers};
ghost use Rattle.pd_doc.specs.States.{start};
ghost use Rattle.pd_doc.specs.Records.{record_of};
ghost use Rattle.pd_doc.specs.Reading.{any_record, run, root_at, document_of};
ghost use Rattle.pd_doc.specs.Views.{state_of};

use crate::elements::{array, closing, element};
use crate::fields::behind;
use crate::kinds::{Kind, kind_of};
use crate::levels::Reader;
use crate::lexemes::{Lexeme, has_long, split_record};
use crate::records::{connect, coords, kept, opening};
use crate::refusal::DocRefusal;
use crate::rows::row;
use pd_atom::Symbols;
use pd_canvas::Doc;
use pd_lex::{Step, next_record};
use std::alloc::Global;

/// A record that isn't empty.
fn record(
    alloc: Global,
    reader: &mut Reader,
    lexemes: &[Lexeme<'_>],
    number: u32,
    symbols: &mut Symbols,
) -> Result<(), DocRefusal>
    ensures exact { Answers (λ _. (state_of reader.new, symbols.new)) result (record_of (state_of reader.old) symbols.old number (map piece lexemes.now)) }
    ensures extends { Extends symbols.old symbols.new }
{
    if has_long(lexemes) {
        return Err(DocRefusal::TooLong { number });
    }
    match kind_of(lexemes) {
        Kind::Canvas => opening(alloc, reader, behind(lexemes, 2), number, symbols),
        Kind::Structure => Err(DocRefusal::DataStructure { number }),
        Kind::Restore => closing(alloc, reader, behind(lexemes, 2), number, symbols),
        Kind::Plain(word) => element(alloc, word, reader, behind(lexemes, 2), number, symbols),
        Kind::Array => array(alloc, reader, behind(lexemes, 2), number, symbols),
        Kind::Connect => connect(reader, behind(lexemes, 2), number, symbols),
        Kind::Coords => coords(alloc, reader, behind(lexemes, 2), number, symbols),
        Kind::Kept => kept(alloc, reader, behind(lexemes, 1), number, symbols),
        Kind::Row => row(alloc, reader, behind(lexemes, 1), number, symbols),
        Kind::Other => Err(DocRefusal::BadRecord { number }),
    }
}

/// The record from `at` up to its semicolon. An empty one does nothing.
fn one_record<'a>(
    alloc: Global,
    reader: &mut Reader,
    bytes: &'a [u8],
    at: usize,
    semicolon: usize,
    lexemes: &mut Vec<Lexeme<'a>>,
    number: u32,
    symbols: &mut Symbols,
) -> Result<(), DocRefusal>
    requires order { at ≤ semicolon }
    requires within { semicolon ≤ length bytes.now }
    requires body { IsTrue (is_body (slice_range bytes.now at semicolon)) }
    ensures exact { Answers (λ _. (state_of reader.new, symbols.new)) result (any_record (state_of reader.old, symbols.old) number (pieces (slice_range bytes.now at semicolon))) }
    ensures extends { Extends symbols.old symbols.new }
{
    split_record(bytes, at, semicolon, lexemes)?;
    if lexemes.is_empty() {
        return Ok(());
    }
    record(alloc, reader, lexemes.as_slice(), number, symbols)
}

/// What reading the records gives: the canvases, how many records there are, and whether nothing but white space is left.
#[derive(Drop)]
struct Records {
    reader: Reader,
    count: u32,
    is_blank: bool,
}

/// Reads the records of a text.
fn read_records(alloc: Global, bytes: &[u8], symbols: &mut Symbols) -> Result<Records, DocRefusal>
    requires { length bytes.now ≤ 4294967295 }
    ensures exact { Answers (λ r. (state_of r.reader, symbols.new)) result (run (start, symbols.old) 0 (records bytes.now)) }
    ensures count { IfOk result (λ r. r.count ≡ length (records bytes.now)) }
    ensures blank { IfOk result (λ r. r.is_blank ≡ list_all is_space (rest_of bytes.now)) }
    ensures fits { IfOk result (λ r. r.is_blank ≡ false → r.count < 4294967295) }
    ensures extends { Extends symbols.old symbols.new }
{
    let mut reader = Reader::new(alloc);
    let mut lexemes = Vec::new(alloc);
    let mut at = 0;
    let mut count = 0;
    while let Step::Rec { after, .. } = next_record(bytes, at) {
        count += 1;
        one_record(
            alloc,
            &mut reader,
            bytes,
            at,
            after - 1,
            &mut lexemes,
            count,
            symbols,
        )?;
        at = after;
    }
    let is_blank = is_blank(&bytes[at..]);
    Ok(Records {
        reader,
        count,
        is_blank,
    })
}

/// Whether the bytes are white space alone.
fn is_blank(bytes: &[u8]) -> bool
    ensures { result ≡ list_all is_space bytes.now }
{
    for b in bytes {
        if !matches!(*b, b' ' | b'\t' | b'\n' | b'\r') {
            return false;
        }
    }
    true
}

/// The document of the records, where the text ends behind them and no canvas but the root is open.
fn root(records: Records) -> Result<Doc, DocRefusal>
    requires { records.is_blank ≡ false → records.count < 4294967295 }
    ensures { Answers (λ d. d.root) result (root_at records.count records.is_blank (state_of records.reader).levels) }
{
    let Records {
        reader,
        count,
        is_blank,
    } = records;
    if !is_blank {
        return Err(DocRefusal::BadRecord { number: count + 1 });
    }
    let mut canvases = reader.canvases;
    let Some(canvas) = canvases.pop() else {
        return Err(DocRefusal::BadRecord { number: 1 });
    };
    if !canvases.is_empty() {
        return Err(DocRefusal::BadRecord {
            number: canvas.number,
        });
    }
    Ok(Doc {
        root: canvas.close()?,
    })
}

/// The document of a text. After a refusal the table may have more names.
#[tactic(auto, unfolding(crate::specs::Reading::document_of), using(crate::proofs::ResultLemmas::result_steps))]
fn read_document(alloc: Global, bytes: &[u8], symbols: &mut Symbols) -> Result<Doc, DocRefusal>
    requires { length bytes.now ≤ 4294967295 }
    ensures exact { Answers (λ d. (d.root, symbols.new)) result (document_of symbols.old bytes.now) }
    ensures extends { Extends symbols.old symbols.new }
{
    let records = read_records(alloc, bytes, symbols)?;
    root(records)
}

/// The document of a text in the patch file format.
///
/// Records are numbered from 1, the empty ones too. The first record that a rule refuses gives the refusal, with its
/// number; within a record the causes are tried in the order too long, data structure, bad record, too deep, too many
/// boxes, too many wires, too many symbols. Where no record is refused, a rest behind the last one that isn't white
/// space alone is a bad record with the next number; else a subpatch that is still open is a bad record with the
/// number of the innermost open `#N canvas`; else a text without a record that isn't empty is bad record 1.
///
/// The names that the document brings go last into the table. After a refusal the table is as before.
pub fn read(alloc: Global, bytes: &[u8], symbols: &mut Symbols) -> Result<Doc, DocRefusal>
    requires { length bytes.now ≤ 4294967295 }
    ensures exact { Answers (λ d. (d.root, symbols.new)) result (document_of symbols.old bytes.now) }
    ensures proper { IfOk result (λ d. IsProper symbols.new d.root) }
    ensures of_table { IfOk result (λ d. PageOf symbols.new d.root) }
    ensures extends { Extends symbols.old symbols.new }
    ensures refused { OnErr result (symbols.new ≡ symbols.old) }
{
    let len = symbols.len();
    let document = read_document(alloc, bytes, symbols);
    if document.is_err() {
        symbols.cut_back(len);
    }
    document
}
