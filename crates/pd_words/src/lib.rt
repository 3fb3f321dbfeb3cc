//! The words of the command line: a patch, a rate of samples, and a number of boxes to make.
//!
//! `read_words` gives what the words ask for, and nothing exactly where they are no command. Which words are one is
//! said twice, and the two agree: `IsCommand` builds them from pieces (a patch, an option with its value in the
//! next word or joined by `=`), one behind the other in any order; `words_of` takes them apart from the first word
//! on. So no words ask for two things. The one free answer is that memory is wanted.
//!
//! Words that begin with a minus and name no option are refused first, and `clap` parses the rest: its contract,
//! which gives what it finds and where it fails as a function of the words, is tied to `words_of`.
//!
//! Definitions: `Command` (from pieces), `Grammar` (from the first word on), `Shown` (what `clap` sees).
#![tactic(auto)]

mod numbers;
mod reading;

pub use reading::{Words, read_words};
