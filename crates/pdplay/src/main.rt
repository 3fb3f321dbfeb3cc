//! `pdplay PATCH`: plays a patch of the working folder.
//!
//! Printed lines go to standard output, samples to the file `out.pcm`, and the exit code is that of the run's
//! status. It is a thin `main` over the adapters of `pd_io` and the call `play` of `pd_faithful`, with a buffer
//! before `out.pcm`, which is written before the script is read on: safe, and nothing more is said of it. The exit
//! codes 9, 10 and 11 of what comes before `play` are neither proved nor tested.
//!
//! A standard stream that is closed stays closed: `out.pcm` never takes its place, so a run that has a line to
//! print and no standard output ends with 7 (tried by hand). The one run that is stored beside it is a test.
#![tactic(auto)]

mod samples;

use crate::samples::{HandsOn, Samples};
use pd_faithful::{Status, play};
use pd_io::{FolderShelf, StdSink, StdSource};
use std::env::Env;
use std::io::ErrorKind;
use std::process::ExitCode;
use std::{env, fs, io};

/// The exit code where there is no memory for the words.
const NO_MEMORY: u8 = 9;

/// The exit code where the words can't be had for another cause.
const NO_WORDS: u8 = 10;

/// The exit code where `out.pcm` can't be made.
const NO_SAMPLES: u8 = 11;

/// The words after the program's name.
fn words(rt: &(impl Env + AllocGlobal)) -> io::Result<Vec<String>> {
    let mut words = Vec::new(rt.alloc());
    for word in env::args(rt)?.skip(1) {
        words.push(word)?;
    }
    Ok(words)
}

/// A file that can be read and not written. It takes the place of a standard stream that is closed, so that no other file does.
const EMPTY_FILE: &str = "/dev/null";

fn main(rt: HostRuntime) -> ExitCode {
    let _input = fs::open(&rt, EMPTY_FILE);
    let _output = fs::open(&rt, EMPTY_FILE);
    let _errors = fs::open(&rt, EMPTY_FILE);
    let words = match words(&rt) {
        Ok(words) => words,
        Err(error) if error.kind() == ErrorKind::OutOfMemory => return ExitCode::from(NO_MEMORY),
        Err(_) => return ExitCode::from(NO_WORDS),
    };
    let Ok(file) = fs::create(&rt, "out.pcm") else {
        return ExitCode::from(NO_SAMPLES);
    };
    let Ok(samples) = Samples::new(rt.alloc(), file) else {
        return ExitCode::from(NO_MEMORY);
    };
    let status = play(
        rt.alloc(),
        &words,
        &mut FolderShelf::new(&rt),
        &mut StdSource::new(HandsOn::new(rt.stdin(), &samples)),
        &mut StdSink::new(rt.stdout()),
        &mut StdSink::new(&samples),
    );
    let status = match samples.hand_on() {
        Ok(()) => status,
        Err(_) => Status::WriteFault,
    };
    ExitCode::from(status.code())
}
