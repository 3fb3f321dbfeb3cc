//! A patch that grows, as its tree.

use crate::naming::is_of_table;
use crate::stage::{Stage, stage_of};
use anyhow::{Result, bail};
use pd_atom::{Atom, Symbols, write_atom};
use pd_clock::Rate;
use pd_engine::Engine;
use pd_io::{MemShelf, MemSink};
use pd_patch::Patch;
use pd_web::Hop;
use std::alloc::Global;
use std::fmt::Write;

/// The name of the patch, the first file of a case.
const NAME: &[u8] = b"main.pd";

/// The room of the lines that the opening prints, which aren't told.
const ROOM: usize = 1_048_576;

/// A patch has at most so many boxes and canvases, and an outlet at most so many wires.
const MOST: u32 = 65_537;

/// A tree of more boxes is told by its number of boxes alone.
const MOST_SHOWN: u32 = 64;

/// What grew, or why it didn't.
fn grown(alloc: Global, stage: Stage) -> Result<String> {
    let files = stage.files()?;
    if !files.has_distinct_names() {
        bail!("two files of one name");
    }
    let fails = Vec::from_slice(alloc, stage.failing.shelf.as_slice())?;
    let mut shelf = MemShelf::new(alloc, files, fails);
    let mut lines = MemSink::new(alloc, ROOM, Vec::new(alloc))?;
    match Engine::open(alloc, NAME, Rate::R44100, &mut shelf, &mut lines) {
        Ok(engine) => shown(alloc, engine.patch(), engine.symbols()),
        Err(refusal) => Ok(format!(in alloc; " {refusal:?}")?),
    }
}

/// The `$0` numbers of a tree in text order.
fn push_zeros(alloc: Global, patch: &Patch, said: &mut String) -> Result<()> {
    said.push_str(" | zeros")?;
    let zeros = patch.zeros(alloc)?;
    for zero in zeros.as_slice() {
        write!(said, " {zero}")?;
    }
    Ok(())
}

/// Canvases by their keys, each as `push_canvas` tells it.
fn push_canvases(
    alloc: Global,
    patch: &Patch,
    canvases: &[u32],
    symbols: &Symbols,
    said: &mut String,
) -> Result<()> {
    for canvas in canvases {
        push_canvas(alloc, patch, *canvas, symbols, said)?;
    }
    Ok(())
}

/// The canvases of a tree in text order, and its `$0` numbers.
fn shown(alloc: Global, patch: &Patch, symbols: &Symbols) -> Result<String> {
    let canvases = canvases_of(alloc, patch)?;
    let boxes = box_count(patch, canvases.as_slice());
    let mut said = String::new(alloc);
    if boxes > MOST_SHOWN {
        write!(said, " {boxes} boxes, {} canvases", canvases.len())?;
        return Ok(said);
    }
    push_canvases(alloc, patch, canvases.as_slice(), symbols, &mut said)?;
    push_zeros(alloc, patch, &mut said)?;
    Ok(said)
}

/// The keys of the canvases: each before those in its boxes, which come in the order of the boxes.
fn canvases_of(alloc: Global, patch: &Patch) -> Result<Vec<u32>> {
    let mut found = Vec::new(alloc);
    let mut left = Vec::new(alloc);
    left.push(patch.root())?;
    for _ in 0..MOST {
        if let Some(canvas) = left.pop() {
            found.push(canvas)?;
            push_inner(alloc, patch, canvas, &mut left)?;
        }
    }
    Ok(found)
}

/// Puts the canvases in the boxes of a canvas on a stack, the first on top.
fn push_inner(alloc: Global, patch: &Patch, canvas: u32, left: &mut Vec<u32>) -> Result<()> {
    let keys = boxes_of(alloc, patch, canvas)?;
    for key in keys.iter().rev() {
        if let Some(inner) = patch.canvas_in(*key) {
            left.push(inner)?;
        }
    }
    Ok(())
}

/// The keys of the boxes of a canvas, by number.
fn boxes_of(alloc: Global, patch: &Patch, canvas: u32) -> Result<Vec<u32>> {
    let mut keys = Vec::new(alloc);
    for number in 0..MOST {
        match patch.box_key(canvas, number) {
            Some(key) => keys.push(key)?,
            None => return Ok(keys),
        }
    }
    Ok(keys)
}

fn box_count(patch: &Patch, canvases: &[u32]) -> u32 {
    let mut count: u32 = 0;
    for canvas in canvases {
        count = count.saturating_add(size_of(patch, *canvas));
    }
    count
}

fn size_of(patch: &Patch, canvas: u32) -> u32 {
    for number in 0..MOST {
        if patch.box_key(canvas, number).is_none() {
            return number;
        }
    }
    MOST
}

/// A canvas: its path, its boxes with their ports, its wires and its signal order.
fn push_canvas(
    alloc: Global,
    patch: &Patch,
    canvas: u32,
    symbols: &Symbols,
    said: &mut String,
) -> Result<()> {
    said.push_str(" | ")?;
    push_path(patch, canvas, said)?;
    let keys = boxes_of(alloc, patch, canvas)?;
    for key in keys.iter() {
        push_box(alloc, patch, *key, symbols, said)?;
    }
    said.push_str(" ; wires")?;
    for key in keys.iter() {
        push_box_wires(patch, *key, said)?;
    }
    push_order(patch, canvas, said)
}

fn push_path(patch: &Patch, canvas: u32, said: &mut String) -> Result<()> {
    let path = patch.path_of(canvas);
    said.push_str("/")?;
    for number in path.as_slice() {
        write!(said, "{number}/")?;
    }
    Ok(())
}

/// A box: its text, and its inlets and outlets, `s` for signals and `c` else.
fn push_box(
    alloc: Global,
    patch: &Patch,
    key: u32,
    symbols: &Symbols,
    said: &mut String,
) -> Result<()> {
    let Some(node) = patch.node(key) else {
        bail!("no box under a key");
    };
    let text = text_of(alloc, node.text.as_slice(), symbols)?;
    write!(said, " ({text} ")?;
    for inlet in 0..patch.inlets_at(key) {
        said.push_str(letter(patch.inlet_signal_at(key, inlet)))?;
    }
    said.push_str(":")?;
    for outlet in 0..patch.outlets_at(key) {
        said.push_str(letter(patch.outlet_signal_at(key, outlet)))?;
    }
    said.push_str(")")?;
    Ok(())
}

fn letter(is_signal: bool) -> &'static str {
    if is_signal { "s" } else { "c" }
}

/// Atoms with blanks between them; a question mark for one of another table.
fn text_of(alloc: Global, atoms: &[Atom], symbols: &Symbols) -> Result<String> {
    let mut bytes = Vec::new(alloc);
    for atom in atoms {
        push_atom(atom, symbols, &mut bytes)?;
    }
    match String::from_utf8(bytes) {
        Ok(text) => Ok(text),
        Err(_) => bail!("a name that is no text"),
    }
}

fn push_atom(atom: &Atom, symbols: &Symbols, bytes: &mut Vec<u8>) -> Result<()> {
    if !bytes.is_empty() {
        bytes.push(b' ')?;
    }
    if is_of_table(atom, symbols) {
        write_atom(symbols, *atom, bytes)?;
    } else {
        bytes.push(b'?')?;
    }
    Ok(())
}

fn push_box_wires(patch: &Patch, key: u32, said: &mut String) -> Result<()> {
    for outlet in 0..patch.outlets_at(key) {
        push_wires(patch, key, outlet, patch.fan_first(key, outlet), said)?;
    }
    Ok(())
}

/// The wires of an outlet from one on, by the numbers of their boxes.
fn push_wires(
    patch: &Patch,
    key: u32,
    outlet: u32,
    first: Option<Hop>,
    said: &mut String,
) -> Result<()> {
    let source = patch.number_at(key);
    let mut next = first;
    for _ in 0..MOST {
        let Some(hop) = next else {
            return Ok(());
        };
        let sink = patch.number_at(hop.node());
        write!(said, " {source} {outlet} {sink} {},", hop.port())?;
        next = patch.fan_next(hop);
    }
    Ok(())
}

fn push_order(patch: &Patch, canvas: u32, said: &mut String) -> Result<()> {
    let Some(order) = patch.order_at(canvas) else {
        bail!("no order under a key");
    };
    said.push_str(" ; chain")?;
    push_numbers(patch, order.chain(), said)?;
    said.push_str(" ; stuck")?;
    push_numbers(patch, order.stuck(), said)
}

fn push_numbers(patch: &Patch, keys: &[u32], said: &mut String) -> Result<()> {
    for key in keys {
        write!(said, " {}", patch.number_at(*key))?;
    }
    Ok(())
}

/// The tree of a patch among files.
pub(crate) fn tree(alloc: Global, parts: &str) -> Result<String> {
    grown(alloc, stage_of(alloc, parts)?)
}
