//! Clocks with their room.

ghost use Rattle.std.specs.Prelude.{◌≡◌, ◌+◌, ◌<◌, ◌≤◌, ◌++◌, ◌∷◌, [], ℕ, max, List, IfOk, OnOk, OnErr, IfNone, IfSome};
ghost use Rattle.std.specs.List.{AllByRecursion};
ghost use Rattle.pd_clock.specs.Queue.{without, IsTaken};
ghost use Rattle.pd_timers.specs.Room.{HasRoom};

use pd_clock::{Clocks, Time};
use std::alloc::{AllocError, Global};

/// The clocks of boxes whose keys are below a number. Setting one takes no memory.
#[derive(Drop)]
pub struct Timers {
    clocks: Clocks,
    end: u32,
    ghost room: { HasRoom clocks end },
}

impl Timers {
    /// No clock is set, and each owner below `end` has room for one.
    ///
    /// # Errors
    ///
    /// `AllocError` where memory ran out.
    pub fn new(alloc: Global, end: u32) -> Result<Timers, AllocError>
        ensures clocks { IfOk result (λ t. t.clocks.clocks ≡ []) }
        ensures end { IfOk result (λ t. t.end ≡ end) }
    {
        let mut clocks = Clocks::new(alloc)?;
        make_room(&mut clocks, end)?;
        Ok(Timers { clocks, end })
    }

    /// Makes room for each owner below `end`. No clock changes.
    ///
    /// # Errors
    ///
    /// `AllocError` where memory ran out. Then the same owners have room as before.
    pub fn reach(&mut self, end: u32) -> Result<(), AllocError>
        ensures clocks { self.new.clocks.clocks ≡ self.old.clocks.clocks }
        ensures ok { OnOk result (self.new.end ≡ max self.old.end end) }
        ensures err { OnErr result (self.new.end ≡ self.old.end) }
    {
        if end > self.end {
            make_room(&mut self.clocks, end - self.end)?;
            self.end = end;
        }
        Ok(())
    }

    /// Sets an owner's clock in place of the one that it has; it comes last among those of its time. An owner that isn't below
    /// the number has no clock.
    pub fn set(&mut self, owner: u32, time: Time)
        ensures set { owner < self.old.end → self.new.clocks.clocks ≡ without owner self.old.clocks.clocks ++ record { time = time; owner = owner } ∷ [] }
        ensures other { self.old.end ≤ owner → self.new.clocks ≡ self.old.clocks }
        ensures end { self.new.end ≡ self.old.end }
    {
        if owner < self.end {
            self.clocks.laws();
            self.clocks.set(owner, time);
        }
    }

    /// Takes away the owner's clock, where it has one.
    pub fn clear(&mut self, owner: u32)
        ensures clocks { self.new.clocks.clocks ≡ without owner self.old.clocks.clocks }
        ensures end { self.new.end ≡ self.old.end }
    {
        self.clocks.unset(owner);
    }

    /// Takes off and gives the first that was set among the clocks of the least time, where that time is below the limit.
    pub fn next_before(&mut self, limit: Time) -> Option<(Time, u32)>
        ensures none { IfNone result ((self.new.clocks ≡ self.old.clocks) × AllByRecursion (λ c. limit ≤ c.time) self.old.clocks.clocks) }
        ensures some { IfSome result (λ r. (r.0 < limit) × IsTaken self.old.clocks.clocks self.new.clocks.clocks (record { time = r.0; owner = r.1 })) }
        ensures end { self.new.end ≡ self.old.end }
    {
        self.clocks.next_before(limit)
    }
}

/// Makes room for so many owners more.
fn make_room(clocks: &mut Clocks, count: u32) -> Result<(), AllocError>
    ensures clocks { clocks.new.clocks ≡ clocks.old.clocks }
    ensures room { OnOk result (clocks.old.room + count ≤ clocks.new.room) }
    ensures kept { clocks.old.room ≤ clocks.new.room }
{
    for _ in 0..count {
        clocks.reserve_one()?;
    }
    Ok(())
}
