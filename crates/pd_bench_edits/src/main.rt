//! `pd_bench_edits edit SHAPE BOXES`: measures the calls that an edit makes, each kind by itself, and prints a line for
//! each figure.
//!
//! Times are of the processor. Each is the least of a few runs, since other work can only lengthen one. Without
//! words nothing is measured and nothing printed.
//!
//! It is measured, not proved beyond safety: graphs and orders are proved lawful, wires live and rooms set aside, as
//! the layers ask. `bench/run.sh` runs it and prints a table; `docs/BENCHMARKS.md` has targets and figures.
#![tactic(auto)]

mod benchmark;
mod canvas;
mod edit;
mod grown;
mod lines;
mod nets;
mod orders;
mod voices;

use anyhow::Result;
use benchmark::Benchmark;
use pd_measure::{Measures, NO_BENCHMARK, words};
use std::env::Env;
use std::process::ExitCode;

fn run<R: Measures + Env>(rt: &R) -> Result<ExitCode> {
    let words = words(rt)?;
    if words.is_empty() {
        return Ok(ExitCode::SUCCESS);
    }
    let Some(benchmark) = Benchmark::of_words(&words) else {
        println!(rt; "{}", benchmark::USAGE)?;
        return Ok(ExitCode::from(NO_BENCHMARK));
    };
    benchmark.run(rt)?;
    Ok(ExitCode::SUCCESS)
}

fn main(rt: HostRuntime) -> ExitCode {
    match run(&rt) {
        Ok(code) => code,
        Err(error) => {
            let _ = eprintln!(rt; "pd_bench_edits: {error}");
            ExitCode::FAILURE
        }
    }
}
