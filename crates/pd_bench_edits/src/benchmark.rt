//! The benchmarks by name.

use crate::edit;
use crate::voices::Shape;
use anyhow::Result;
use pd_measure::Measures;

pub(crate) const USAGE: &str = "usage: pd_bench_edits edit flat BOXES | edit subpatches BOXES";

/// A benchmark and its sizes.
#[derive(Clone, Copy)]
pub(crate) enum Benchmark {
    Edit { shape: Shape, boxes: u32 },
}

/// A size that isn't 0.
fn size(word: &str) -> Option<u32> {
    word.parse().ok().filter(|size| *size > 0)
}

impl Benchmark {
    pub(crate) fn of_words(words: &[String]) -> Option<Benchmark> {
        match words {
            [name, shape, boxes] if name.as_str() == "edit" => Some(Benchmark::Edit {
                shape: Shape::of_word(shape.as_str())?,
                boxes: size(boxes.as_str())?,
            }),
            _ => None,
        }
    }

    pub(crate) fn run<R: Measures>(self, rt: &R) -> Result<()> {
        match self {
            Benchmark::Edit { shape, boxes } => edit::run(rt, shape, boxes),
        }
    }
}
