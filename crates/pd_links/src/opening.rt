// A box that has come gets room for its signal wires.
ghost use Rattle.std.specs.Prelude.{◌≡◌, ◌≢◌, ◌+◌, ◌-◌, ℕ, [], vec_len, vec_capacity, OnOk};
ghost use Rattle.pd_links.specs.Linked.{feeders_of, followers_of, spare_into, spare_from, SameLinks, ReachesKeys, KeepsLinks};

use crate::links::Links;
use crate::rows::{lengthen_to, put_row};
use std::alloc::AllocError;

/// Room for the signal wires of one box: for those that come to it, and for those that lead from it.
#[derive(Debug, Drop)]
pub struct LinkRoom {
    pub into: Vec<u32>,
    pub from: Vec<u32>,
}

impl Links {
    /// Makes the lists reach up to an end, so that a box of a key below it can get room.
    ///
    /// # Errors
    ///
    /// `AllocError` where memory ran out.
    pub fn reach(&mut self, end: u32) -> Result<(), AllocError>
        ensures same { SameLinks self.old self.new }
        ensures reach { OnOk result (ReachesKeys self.new end) }
    {
        lengthen_to(self.alloc, &mut self.from, end)?;
        lengthen_to(self.alloc, &mut self.into, end)
    }

    /// Gives a box without signal wires the room that was set aside for it. No memory is taken.
    pub fn open(&mut self, key: u32, room: LinkRoom)
        requires there { ReachesKeys self.old (key + 1) }
        requires unfed { feeders_of self.old key ≡ [] }
        requires unfollowed { followers_of self.old key ≡ [] }
        requires none_into { room.into.items ≡ [] }
        requires none_from { room.from.items ≡ [] }
        ensures keeps { KeepsLinks self.old self.new }
        ensures into { spare_into self.new key ≡ vec_capacity room.into - vec_len room.into }
        ensures from { spare_from self.new key ≡ vec_capacity room.from - vec_len room.from }
        ensures others_into { (x : ℕ) → x ≢ key → spare_into self.new x ≡ spare_into self.old x }
        ensures others_from { (x : ℕ) → x ≢ key → spare_from self.new x ≡ spare_from self.old x }
    {
        put_row(&mut self.from, key, room.from);
        put_row(&mut self.into, key, room.into);
    }
}
