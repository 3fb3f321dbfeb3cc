//! The clocks that are set.

ghost use Rattle.std.specs.Prelude.{◌≡◌, ◌+◌, ◌<◌, ◌≤◌, ◌++◌, ◌∷◌, [], IfSome, IfNone, IfOk, OnOk, OnErr, ◌⊎◌, length};
ghost use Rattle.std.specs.List.{AllByRecursion};
ghost use Rattle.pd_clock.specs.Queue.{IsTaken, without, clocks_of, AreApart};

use crate::compaction::{make_room, make_space, note};
use crate::slots::{Slot, add, kill_owner, take_before};
use crate::times::Time;
use indexmap::IndexMap;
use std::alloc::{AllocError, Global};
use std::cmp::Reverse;
use std::collections::BinaryHeap;
use std::marker::Model;

/// More owners than this are refused for want of memory.
const MOST: usize = 1 << 40;

/// The clocks that are set, at most one for each owner, and room for a number of owners. Contracts see the list of
/// the clocks' times and owners, in the order in which they were set, and the room.
///
/// `set`, `unset`, `drop_box` and `next_before` take about the logarithm of the number of clocks, on average over
/// many calls.
#[derive(Drop)]
pub struct Clocks {
    /// In the order in which they were set. A clock that fired or was unset leaves a dead slot.
    slots: Vec<Slot>,
    /// The times and the places of the live slots, the soonest first, and of some dead ones.
    heap: BinaryHeap<Reverse<(u128, usize)>>,
    /// The place of each owner's last slot.
    places: IndexMap<u32, usize>,
    room: usize,
}

impl Model for Clocks {
    ghost use Rattle.pd_clock.specs.Queue.{ClockList};

    ghost Value = { ClockList };

    ghost use Rattle.pd_clock.specs.Slots.{live_clocks};
    ghost use Rattle.pd_clock.specs.Kept.{IsKept};

    ghost view = { λ c. record { clocks = live_clocks c.slots.items; room = c.room } };

    ghost invariant = { IsKept };
}

impl Clocks {
    /// No clocks, and no room.
    pub fn new(alloc: Global) -> Result<Clocks, AllocError>
        ensures { IfOk result (λ c. c ≡ record { clocks = []; room = 0 }) }
    {
        Ok(Clocks {
            slots: Vec::new(alloc),
            heap: BinaryHeap::new(alloc),
            places: IndexMap::new(alloc),
            room: 0,
        })
    }

    /// What is true of all clocks that are set: an owner has at most one, and there are at most as many as there is
    /// room for. It does nothing.
    pub fn laws(&self)
        ensures apart { AreApart self.now.clocks }
        ensures few { length self.now.clocks ≤ self.now.room }
    {
        let _ = &self.slots;
    }

    /// Makes room for one more owner. After an error all is as before.
    pub fn reserve_one(&mut self) -> Result<(), AllocError>
        ensures clocks { self.new.clocks ≡ self.old.clocks }
        ensures ok { OnOk result (self.old.room < self.new.room) }
        ensures err { OnErr result (self.new ≡ self.old) }
    {
        let room = self.room;
        if room >= MOST {
            return Err(AllocError);
        }
        make_space(&mut self.slots, &mut self.heap, &mut self.places, room + 1)?;
        self.room = room + 1;
        Ok(())
    }

    /// Sets the owner's clock, in place of the one that it has. It comes last among the clocks of its time.
    pub fn set(&mut self, owner: u32, time: Time)
        requires { (0 < clocks_of owner self.old.clocks) ⊎ (length self.old.clocks < self.old.room) }
        ensures clocks { self.new.clocks ≡ without owner self.old.clocks ++ record { time = time; owner = owner } ∷ [] }
        ensures room { self.new.room ≡ self.old.room }
    {
        kill_owner(&mut self.slots, &self.places, owner);
        make_room(&mut self.slots, &mut self.heap, &mut self.places);
        note(&mut self.places, owner, self.slots.len());
        add(&mut self.slots, &mut self.heap, time.units(), owner);
    }

    /// Takes away the owner's clock, where it has one.
    pub fn unset(&mut self, owner: u32)
        ensures clocks { self.new.clocks ≡ without owner self.old.clocks }
        ensures room { self.new.room ≡ self.old.room }
    {
        kill_owner(&mut self.slots, &self.places, owner);
    }

    /// Takes away the owner's clock, where it has one, and the room of one owner.
    pub fn drop_box(&mut self, owner: u32)
        requires { length (without owner self.old.clocks) < self.old.room }
        ensures clocks { self.new.clocks ≡ without owner self.old.clocks }
        ensures room { self.new.room + 1 ≡ self.old.room }
    {
        kill_owner(&mut self.slots, &self.places, owner);
        self.room -= 1;
    }

    /// Takes off and gives the first that was set among the clocks of the least time, where that time is below the
    /// limit. `None` exactly where no clock is below the limit.
    pub fn next_before(&mut self, limit: Time) -> Option<(Time, u32)>
        ensures none { IfNone result ((self.new ≡ self.old) × AllByRecursion (λ c. limit ≤ c.time) self.old.clocks) }
        ensures some { IfSome result (λ r. (r.0 < limit) × IsTaken self.old.clocks self.new.clocks (record { time = r.0; owner = r.1 })) }
        ensures room { self.new.room ≡ self.old.room }
    {
        take_before(&mut self.slots, &mut self.heap, limit.units())
    }
}
