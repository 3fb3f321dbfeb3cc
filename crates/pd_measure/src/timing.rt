//! Processor time and how it is printed.

ghost use Rattle.std.specs.Prelude.{◌≡◌, ◌+◌, ◌<◌, ◌≤◌, ◌/◌};

use std::time::{CpuClock, Duration};
use std::{fmt, io};

/// How often each figure is measured.
pub const RUNS: u32 = 5;

/// What a benchmark uses of the runtime.
pub trait Measures: AllocGlobal + CpuClock + Print {}

impl<R: AllocGlobal + CpuClock + Print> Measures for R {}

/// Nanoseconds of processor time, printed in milliseconds.
#[derive(Clone, Copy, PartialEq, Eq, PartialOrd, Ord)]
pub struct Nanos(pub u64);

impl Nanos {
    /// The share of one of so many, cut toward zero.
    pub fn each(self, count: u64) -> u64
        ensures { 0 < count → result ≡ self.0 / count }
    {
        self.0 / count.max(1)
    }

    /// The sum, or the greatest time that there is.
    pub fn plus(self, other: Nanos) -> Nanos
        ensures { self.0 + other.0 ≤ 18446744073709551615 → result.0 ≡ self.0 + other.0 }
    {
        Nanos(self.0.saturating_add(other.0))
    }
}

impl fmt::Display for Nanos {
    fn fmt<W: fmt::Write>(&self, f: &mut fmt::Formatter<W>) -> fmt::Result {
        let whole = self.0 / 1_000_000;
        let micros = self.0 / 1000 % 1000;
        write!(f, "{whole}.{micros:03} ms")
    }
}

/// Counts the processor time of this thread from when it is made.
#[derive(Clone, Copy)]
pub struct Stopwatch {
    start: Duration,
}

impl Stopwatch {
    pub fn start(rt: &impl CpuClock) -> io::Result<Stopwatch> {
        Ok(Stopwatch {
            start: rt.thread_cpu_time()?,
        })
    }

    pub fn read(self, rt: &impl CpuClock) -> io::Result<Nanos> {
        let spent = rt.thread_cpu_time()?.saturating_sub(self.start);
        Ok(Nanos(u64::try_from(spent.as_nanos()).unwrap_or(u64::MAX)))
    }
}
