//! What the programs that measure share: processor time and how it is printed, the keys of made boxes, and the words
//! after the program's name.
//!
//! `Nanos` are added up and shared out exactly, and `numbers` are those below a number. No contract can say what a
//! clock gives, nor with which words a program is called.
#![tactic(auto)]

mod arguments;
mod keys;
mod timing;

pub use arguments::{NO_BENCHMARK, words};
pub use keys::{MOST, numbers, scattered};
pub use timing::{Measures, Nanos, RUNS, Stopwatch};
