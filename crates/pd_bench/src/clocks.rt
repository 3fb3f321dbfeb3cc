//! Clocks that fire and are set again: how long a firing takes.

ghost use Rattle.std.specs.Prelude.{◌+◌, ◌<◌, length};

use anyhow::Result;
use pd_clock::{Clocks, Time};
use pd_measure::{Measures, Nanos, RUNS, Stopwatch};
use std::alloc::{AllocError, Global};

/// A block of 64 samples.
const BLOCK: u128 = 64_000_000_000;

/// No owner has the period of another.
fn period(owner: u32) -> u128 {
    BLOCK + u128::from(owner) * 7_919_000
}

/// Clocks with room for one more, and how often each owner is still to be set.
#[derive(Drop)]
struct Ring {
    clocks: Clocks,
    left: Vec<u32>,
    ghost few: { length clocks.clocks < clocks.room },
}

/// Whether the owner is to be set once more, which is then counted.
fn count_down(left: &mut [u32], owner: u32) -> bool {
    match left.get_mut(owner as usize) {
        Some(left) if *left > 0 => {
            *left -= 1;
            true
        }
        _ => false,
    }
}

/// Sets an owner's clock to one period after a time.
fn set_again(clocks: &mut Clocks, owner: u32, time: Time)
    requires { length clocks.old.clocks + 1 < clocks.old.room }
    ensures { length clocks.new.clocks < clocks.new.room }
{
    let next = time.units().saturating_add(period(owner));
    clocks.set(owner, Time::of_units(next));
}

impl Ring {
    fn new(alloc: Global) -> Result<Ring, AllocError> {
        let mut clocks = Clocks::new(alloc)?;
        clocks.laws();
        clocks.reserve_one()?;
        Ok(Ring {
            clocks,
            left: Vec::new(alloc),
        })
    }

    /// Sets the clock of a new owner, to fire so often.
    fn add(&mut self, owner: u32, firings: u32) -> Result<(), AllocError> {
        self.clocks.reserve_one()?;
        self.left.push(firings.saturating_sub(1))?;
        self.clocks.set(owner, Time::of_units(period(owner)));
        Ok(())
    }

    /// The next clock fires, and is set again one period later where its owner is to fire again. It gives the time.
    fn fire(&mut self) -> u128 {
        match self.clocks.next_before(Time::of_units(u128::MAX)) {
            Some((time, owner)) => {
                if count_down(self.left.as_mut_slice(), owner) {
                    set_again(&mut self.clocks, owner, time);
                }
                time.units()
            }
            None => 0,
        }
    }
}

/// The time that all firings take, and the time of the last one.
fn measure<R: Measures>(rt: &R, owners: u32, firings: u32) -> Result<(Nanos, u128)> {
    let mut ring = Ring::new(rt.alloc())?;
    for owner in 0..owners {
        ring.add(owner, firings)?;
    }
    let watch = Stopwatch::start(rt)?;
    let mut last = 0;
    for _ in 0..u64::from(owners) * u64::from(firings) {
        last = ring.fire();
    }
    Ok((watch.read(rt)?, last))
}

pub(crate) fn run<R: Measures>(rt: &R, owners: u32, firings: u32) -> Result<()> {
    let (mut least, last) = measure(rt, owners, firings)?;
    for _ in 1..RUNS {
        least = least.min(measure(rt, owners, firings)?.0);
    }
    let each = least.each(u64::from(owners) * u64::from(firings));
    let last = last / BLOCK;
    println!(rt;
        "clocks: {owners} owners, {firings} firings each: {least}, {each} ns a firing (the last in block {last})"
    )?;
    Ok(())
}
