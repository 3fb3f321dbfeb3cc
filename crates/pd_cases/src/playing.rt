//! A patch that plays.

use crate::runs::push_runs;
use crate::stage::{Failing, Stage, stage_of};
use anyhow::{Result, bail};
use pd_io::{MemShelf, MemSink, MemSource};
use pd_play::play;
use std::alloc::Global;

/// The room of the lines and of the samples.
const ROOM: usize = 1_048_576;

fn words_of(alloc: Global, text: &str) -> Result<Vec<String>> {
    let mut words = Vec::new(alloc);
    for word in text.split(" ").filter(|word| !word.is_empty()) {
        words.push(String::from_str(alloc, word)?)?;
    }
    Ok(words)
}

/// The exit code of a run, the lines that it printed and its samples, left and right; of a run of equal ones one with their number.
fn run(alloc: Global, words: &[String], stage: Stage) -> Result<String> {
    let files = stage.files()?;
    let piece = stage.piece;
    if piece == 0 || !files.has_distinct_names() {
        bail!("no bytes at a time, or two files of one name");
    }
    let Stage {
        script,
        failing,
        ..
    } = stage;
    let Failing {
        shelf,
        script: torn,
        lines,
        pcm,
    } = failing;
    let mut shelf = MemShelf::new(alloc, files, shelf);
    let mut script = MemSource::new(script, piece, torn);
    let mut lines = MemSink::new(alloc, ROOM, lines)?;
    let mut pcm = MemSink::new(alloc, ROOM, pcm)?;
    let status = play(alloc, words, &mut shelf, &mut script, &mut lines, &mut pcm);
    told(alloc, status.code(), lines.taken(), pcm.taken())
}

/// An exit code, lines and samples.
fn told(alloc: Global, code: u8, lines: &[u8], samples: &[u8]) -> Result<String> {
    let mut said = format!(in alloc; " {code}")?;
    push_lines(alloc, lines, &mut said)?;
    said.push_str(" |")?;
    push_samples(alloc, samples, &mut said)?;
    Ok(said)
}

fn push_lines(alloc: Global, lines: &[u8], said: &mut String) -> Result<()> {
    let Ok(text) = String::from_utf8(Vec::from_slice(alloc, lines)?) else {
        bail!("a line that is no text");
    };
    let mut items = Vec::new(alloc);
    for line in text.as_str().lines() {
        items.push(String::from_str(alloc, line)?)?;
    }
    push_runs(alloc, items.as_slice(), " / ", said)
}

fn push_samples(alloc: Global, samples: &[u8], said: &mut String) -> Result<()> {
    let mut items = Vec::new(alloc);
    for frame in samples.chunks(4) {
        items.push(frame_text(alloc, frame)?)?;
    }
    push_runs(alloc, items.as_slice(), " ", said)
}

/// A sample of each channel, 16 bits little-endian.
fn frame_text(alloc: Global, frame: &[u8]) -> Result<String> {
    match frame {
        [a, b, c, d] => {
            let left = i16::from_le_bytes([*a, *b]);
            let right = i16::from_le_bytes([*c, *d]);
            Ok(format!(in alloc; "{left},{right}")?)
        }
        _ => bail!("half a sample"),
    }
}

/// What a run of words, files and a script leaves.
pub(crate) fn played(alloc: Global, parts: &str) -> Result<String> {
    let (words, parts) = parts.split_once(" | ").unwrap_or((parts, ""));
    let words = words_of(alloc, words)?;
    let stage = stage_of(alloc, parts)?;
    run(alloc, words.as_slice(), stage)
}
