//! The benchmarks by name.

use crate::patches::Filling;
use crate::{clocks, document, growth, hearing, objects};
use anyhow::Result;
use pd_measure::Measures;

pub(crate) const USAGE: &str =
    "usage: pd_bench document BYTES | clocks OWNERS FIRINGS | hear MESSAGES | signal BLOCKS | growth BOXES [WIRES] | full messages BOXES | full packs BOXES";

/// How many wires a box has in a patch that grows, where the words don't tell.
const WIRES_EACH: u32 = 2;

/// A benchmark and its sizes.
#[derive(Clone, Copy)]
pub(crate) enum Benchmark {
    Document { bytes: u32 },
    Clocks { owners: u32, firings: u32 },
    Hear { messages: u32 },
    Signal { blocks: u32 },
    Growth { boxes: u32, wires: u32 },
    Full { filling: Filling, boxes: u32 },
}

/// A size that isn't 0.
fn size(word: &str) -> Option<u32> {
    word.parse().ok().filter(|size| *size > 0)
}

impl Benchmark {
    pub(crate) fn of_words(words: &[String]) -> Option<Benchmark> {
        match words {
            [name, owners, firings] if name.as_str() == "clocks" => Some(Benchmark::Clocks {
                owners: size(owners.as_str())?,
                firings: size(firings.as_str())?,
            }),
            [name, bytes] if name.as_str() == "document" => Some(Benchmark::Document {
                bytes: size(bytes.as_str())?,
            }),
            [name, blocks] if name.as_str() == "signal" => Some(Benchmark::Signal {
                blocks: size(blocks.as_str())?,
            }),
            [name, messages] if name.as_str() == "hear" => Some(Benchmark::Hear {
                messages: size(messages.as_str())?,
            }),
            [name, boxes] if name.as_str() == "growth" => {
                let boxes = size(boxes.as_str())?;
                let wires = boxes.saturating_mul(WIRES_EACH);
                Some(Benchmark::Growth { boxes, wires })
            }
            [name, boxes, wires] if name.as_str() == "growth" => Some(Benchmark::Growth {
                boxes: size(boxes.as_str())?,
                wires: size(wires.as_str())?,
            }),
            [name, filling, boxes] if name.as_str() == "full" => Some(Benchmark::Full {
                filling: Filling::of_word(filling.as_str())?,
                boxes: size(boxes.as_str())?,
            }),
            _ => None,
        }
    }

    pub(crate) fn run<R: Measures>(self, rt: &R) -> Result<()> {
        match self {
            Benchmark::Clocks { owners, firings } => clocks::run(rt, owners, firings),
            Benchmark::Document { bytes } => document::run(rt, bytes),
            Benchmark::Hear { messages } => hearing::run(rt, messages),
            Benchmark::Signal { blocks } => objects::run(rt, blocks),
            Benchmark::Growth { boxes, wires } => growth::run(rt, boxes, wires),
            Benchmark::Full { filling, boxes } => growth::run_full(rt, filling, boxes),
        }
    }
}
