//! The benchmarks by name.

use crate::{fold, mend, wires};
use anyhow::Result;
use pd_measure::Measures;

pub(crate) const USAGE: &str = "usage: pd_bench_orders wires COUNT | fold BOXES | mend BOXES";

/// A benchmark and its size.
#[derive(Clone, Copy)]
pub(crate) enum Benchmark {
    Wires { count: u32 },
    Fold { boxes: u32 },
    Mend { boxes: u32 },
}

/// A size that isn't 0.
fn size(word: &str) -> Option<u32> {
    word.parse().ok().filter(|size| *size > 0)
}

impl Benchmark {
    pub(crate) fn of_words(words: &[String]) -> Option<Benchmark> {
        match words {
            [name, count] if name.as_str() == "wires" => Some(Benchmark::Wires {
                count: size(count.as_str())?,
            }),
            [name, boxes] if name.as_str() == "fold" => Some(Benchmark::Fold {
                boxes: size(boxes.as_str())?,
            }),
            [name, boxes] if name.as_str() == "mend" => Some(Benchmark::Mend {
                boxes: size(boxes.as_str())?,
            }),
            _ => None,
        }
    }

    pub(crate) fn run<R: Measures>(self, rt: &R) -> Result<()> {
        match self {
            Benchmark::Wires { count } => wires::run(rt, count),
            Benchmark::Fold { boxes } => fold::run(rt, boxes),
            Benchmark::Mend { boxes } => mend::run(rt, boxes),
        }
    }
}
