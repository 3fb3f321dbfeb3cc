//! `pd_bench_orders NAME SIZE`: measures the wires of a book and the signal orders of boxes at the sizes given, and
//! prints a line for each figure.
//!
//! Times are of the processor. Each is the least of a few runs, since other work can only lengthen one. Without
//! words nothing is measured and nothing printed.
//!
//! It is measured, not proved beyond safety: its two graphs of formulas are proved lawful, since `pd_order` asks for
//! that, and the wires that are cut live. `bench/run.sh` runs it and prints a table; `docs/BENCHMARKS.md` has targets
//! and figures.
#![tactic(auto)]

mod benchmark;
mod fold;
mod mend;
mod wires;

use anyhow::Result;
use benchmark::Benchmark;
use pd_measure::{Measures, NO_BENCHMARK, words};
use std::env::Env;
use std::process::ExitCode;

fn run<R: Measures + Env>(rt: &R) -> Result<ExitCode> {
    let words = words(rt)?;
    if words.is_empty() {
        return Ok(ExitCode::SUCCESS);
    }
    let Some(benchmark) = Benchmark::of_words(&words) else {
        println!(rt; "{}", benchmark::USAGE)?;
        return Ok(ExitCode::from(NO_BENCHMARK));
    };
    benchmark.run(rt)?;
    Ok(ExitCode::SUCCESS)
}

fn main(rt: HostRuntime) -> ExitCode {
    match run(&rt) {
        Ok(code) => code,
        Err(error) => {
            let _ = eprintln!(rt; "pd_bench_orders: {error}");
            ExitCode::FAILURE
        }
    }
}
