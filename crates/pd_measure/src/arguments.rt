//! The words with which a program that measures is called.

use std::env::Env;
use std::{env, io};

/// The exit code where the words name no benchmark.
pub const NO_BENCHMARK: u8 = 2;

/// The words after the program's name.
pub fn words(rt: &(impl Env + AllocGlobal)) -> io::Result<Vec<String>> {
    let mut words = Vec::new(rt.alloc());
    for word in env::args(rt)?.skip(1) {
        words.push(word)?;
    }
    Ok(words)
}
