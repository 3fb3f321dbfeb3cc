//! Texts that are read and written: how long each takes, for four kinds of text.

ghost use Rattle.std.specs.Prelude.{IfOk};
ghost use Rattle.pd_canvas.specs.Proper.{IsProper};
ghost use Rattle.pd_doc.specs.Atoms.{PageOf};

use anyhow::{Result, bail, ensure};
use pd_atom::Symbols;
use pd_doc::Doc;
use pd_measure::{Measures, Nanos, RUNS, Stopwatch};
use std::alloc::{AllocError, Global};
use std::fmt::Write;

/// How many atoms a message or a row has.
const ATOMS: u32 = 1_000;

/// A message has no more bytes.
const MESSAGE: usize = 9_000;

/// A row has about so many bytes.
const ROW: u32 = 7_000;

/// How many names the words of messages are among: few, and nearly as many as a table holds.
const FEW_NAMES: u32 = 1_000;

const MANY_NAMES: u32 = 60_000;

/// How many objects and how many wires a document may have.
const OBJECTS: u32 = 16_384;

const WIRES: u32 = 65_536;

/// The greatest number of bytes of a text that is read.
const MOST: usize = 1 << 30;

const CANVAS: &str = "#N canvas 0 50 450 300 12;\n";

/// A message of numbers and words in turn, the words among so many.
fn push_message(text: &mut String, number: u32, names: u32) -> Result<(), AllocError> {
    text.push_str("#X msg 10 40")?;
    for atom in 0..ATOMS / 2 {
        let word = number.wrapping_mul(ATOMS / 2).wrapping_add(atom) % names.max(1);
        write!(text, " {atom}.5 name-{word}")?;
    }
    text.push_str(";\n")
}

/// Messages, in about so many bytes and no more.
fn messages(alloc: Global, bytes: u32, names: u32) -> Result<String, AllocError> {
    let mut text = String::from_str(alloc, CANVAS)?;
    for number in 0..OBJECTS {
        if text.len().saturating_add(MESSAGE) > bytes as usize {
            break;
        }
        push_message(&mut text, number, names)?;
    }
    Ok(text)
}

/// A row of numbers that stand from a place on.
fn push_row(text: &mut String, place: u32) -> Result<(), AllocError> {
    write!(text, "#A {place}")?;
    for value in 0..ATOMS {
        write!(text, " 0.{value}1")?;
    }
    text.push_str(";\n")
}

/// An array and its rows, in about so many bytes.
fn rows(alloc: Global, bytes: u32) -> Result<String, AllocError> {
    let mut text = String::from_str(alloc, CANVAS)?;
    let rows = (bytes / ROW).clamp(1, OBJECTS);
    let values = u64::from(rows) * u64::from(ATOMS);
    writeln!(text, "#X array wave {values} float 3;")?;
    for row in 0..rows {
        push_row(&mut text, row.wrapping_mul(ATOMS))?;
    }
    Ok(text)
}

/// As many objects and wires as a document may have, whatever its bytes.
fn boxes(alloc: Global) -> Result<String, AllocError> {
    let mut text = String::from_str(alloc, CANVAS)?;
    for number in 0..OBJECTS {
        let kind = number % 100;
        writeln!(text, "#X obj {number} 40 kind-{kind} {number};")?;
    }
    for wire in 0..WIRES {
        let source = wire / 4;
        let outlet = wire / 2 % 2;
        let sink = source.wrapping_mul(31).wrapping_add(wire) % OBJECTS;
        writeln!(text, "#X connect {source} {outlet} {sink} 0;")?;
    }
    Ok(text)
}

/// The times of reading a text and of writing what was read.
#[derive(Clone, Copy)]
struct Times {
    read: Nanos,
    write: Nanos,
}

/// The document of a text.
pub(crate) fn document(alloc: Global, text: &[u8], symbols: &mut Symbols) -> Result<Doc>
    ensures proper { IfOk result (λ doc. IsProper symbols.new doc.root) }
    ensures of_table { IfOk result (λ doc. PageOf symbols.new doc.root) }
{
    ensure!(text.len() <= MOST, "a text of {} bytes", text.len());
    match pd_doc::read(alloc, text, symbols) {
        Ok(doc) => Ok(doc),
        Err(refusal) => bail!("{refusal}"),
    }
}

/// The time of writing a document, which gives its text again.
fn writing<R: Measures>(rt: &R, doc: &Doc, symbols: &Symbols, text: &[u8]) -> Result<Nanos>
    requires { PageOf symbols.now doc.now.root }
{
    let mut out = Vec::new(rt.alloc());
    let watch = Stopwatch::start(rt)?;
    pd_doc::write(doc, symbols, &mut out)?;
    let time = watch.read(rt)?;
    ensure!(out.as_slice() == text, "another text is written");
    Ok(time)
}

/// Reads a text and writes it again.
fn measure<R: Measures>(rt: &R, text: &str) -> Result<Times> {
    let mut symbols = Symbols::new(rt.alloc())?;
    let watch = Stopwatch::start(rt)?;
    let doc = document(rt.alloc(), text.as_bytes(), &mut symbols)?;
    let read = watch.read(rt)?;
    let write = writing(rt, &doc, &symbols, text.as_bytes())?;
    Ok(Times { read, write })
}

/// A time, and how many bytes that is in a second.
fn push_speed(line: &mut String, what: &str, time: Nanos, bytes: usize) -> Result<(), AllocError> {
    let tenths = time.each(bytes as u64 / 10);
    let speed = (bytes as u64).saturating_mul(1000) / time.0.max(1);
    write!(
        line,
        "{what} {time}, {speed} MB/s, {}.{} ns a byte",
        tenths / 10,
        tenths % 10
    )
}

fn report<R: Measures>(rt: &R, kind: &str, text: &str) -> Result<()> {
    let mut least = measure(rt, text)?;
    for _ in 1..RUNS {
        let times = measure(rt, text)?;
        least = Times {
            read: least.read.min(times.read),
            write: least.write.min(times.write),
        };
    }
    let bytes = text.len();
    let mut line = format!(in rt.alloc(); "document: {kind}, {bytes} bytes: ")?;
    push_speed(&mut line, "read", least.read, bytes)?;
    line.push_str(", ")?;
    push_speed(&mut line, "written", least.write, bytes)?;
    println!(rt; "{line}")?;
    Ok(())
}

pub(crate) fn run<R: Measures>(rt: &R, bytes: u32) -> Result<()> {
    let alloc = rt.alloc();
    let few = messages(alloc, bytes, FEW_NAMES)?;
    report(rt, "messages", few.as_str())?;
    let many = messages(alloc, bytes, MANY_NAMES)?;
    report(rt, "many names", many.as_str())?;
    report(rt, "rows", rows(alloc, bytes)?.as_str())?;
    report(rt, "boxes", boxes(alloc)?.as_str())
}
