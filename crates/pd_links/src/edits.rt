// Signal wires that come and go.
ghost use Rattle.std.specs.Prelude.{◌≡◌, ◌≢◌, ℕ, true, ◌+◌, ◌<◌, ◌≤◌, ◌^◌, [], length, slice_index, IfOk, OnOk};
ghost use Rattle.pd_order.specs.Graph.{tally};
ghost use Rattle.pd_links.specs.Linked.{feeders_of, followers_of, spare_into, spare_from, KeepsLinkRoom, UsesLinkRoom, SameLinks, TakesFrom, TakesInto, TakesOne, HasOneMore};

use crate::links::Links;
use crate::rows::{count_at, key_at, make_room, put, take};
use std::alloc::{AllocError, Global};

/// A box has fewer wires than this on each side.
const MOST_WIRES: u32 = 4_294_967_294;

/// The wires of a box on one side and those for which there is room are fewer together.
const LIMIT: u32 = 4_294_967_295;

impl Links {
    /// No wires. It takes no memory yet.
    pub fn new(alloc: Global) -> Result<Links, AllocError>
        ensures feeders { IfOk result (λ made. (x : ℕ) → feeders_of made x ≡ []) }
        ensures followers { IfOk result (λ made. (x : ℕ) → followers_of made x ≡ []) }
    {
        Ok(Links {
            alloc,
            into: Vec::new(alloc),
            from: Vec::new(alloc),
        })
    }

    /// Makes room for so many more wires from the source, and for as many to the sink.
    pub fn reserve(&mut self, source: u32, sink: u32, wires: u32) -> Result<(), AllocError>
        ensures same { SameLinks self.old self.new }
        ensures from { OnOk result (wires ≤ spare_from self.new source) }
        ensures into { OnOk result (wires ≤ spare_into self.new sink) }
    {
        make_room(self.alloc, &mut self.from, source, wires)?;
        make_room(self.alloc, &mut self.into, sink, wires)
    }

    /// Makes room for one wire more.
    ///
    /// # Errors
    ///
    /// `AllocError` where memory ran out, or where one of the two boxes has as many wires as can be counted.
    pub fn reserve_one(&mut self, source: u32, sink: u32) -> Result<(), AllocError>
        ensures same { SameLinks self.old self.new }
        ensures room { OnOk result (TakesOne self.new source sink) }
    {
        self.reserve(source, sink, 1)?;
        if self.has_number(source, sink) {
            return Ok(());
        }
        Err(AllocError)
    }

    /// Makes room for `from` wires more from the source, and for `into` more to the sink.
    ///
    /// # Errors
    ///
    /// `AllocError` where memory ran out, or where one of the two boxes would have more wires than can be counted.
    pub fn reserve_ends(
        &mut self,
        source: u32,
        from: u32,
        sink: u32,
        into: u32,
    ) -> Result<(), AllocError>
        ensures same { SameLinks self.old self.new }
        ensures from { OnOk result (TakesFrom self.new source from) }
        ensures into { OnOk result (TakesInto self.new sink into) }
    {
        if self.follower_count(source) >= LIMIT - from || self.feeder_count(sink) >= LIMIT - into {
            return Err(AllocError);
        }
        make_room(self.alloc, &mut self.from, source, from)?;
        make_room(self.alloc, &mut self.into, sink, into)
    }

    // Whether one wire more can be counted at both its boxes.
    fn has_number(&self, source: u32, sink: u32) -> bool
        ensures from { result ≡ true → length (followers_of self.now source) + 2 < 2 ^ 32 }
        ensures into { result ≡ true → length (feeders_of self.now sink) + 2 < 2 ^ 32 }
    {
        self.follower_count(source) < MOST_WIRES && self.feeder_count(sink) < MOST_WIRES
    }

    /// A wire more. At each of its two boxes it is listed last.
    pub fn add(&mut self, source: u32, sink: u32)
        requires room_from { 0 < spare_from self.old source }
        requires room_into { 0 < spare_into self.old sink }
        requires few_from { length (followers_of self.old source) + 2 < 2 ^ 32 }
        requires few_into { length (feeders_of self.old sink) + 2 < 2 ^ 32 }
        ensures wires { HasOneMore self.old self.new source sink }
        ensures spare_from { spare_from self.new source + 1 ≡ spare_from self.old source }
        ensures spare_into { spare_into self.new sink + 1 ≡ spare_into self.old sink }
        ensures others_from { (x : ℕ) → x ≢ source → spare_from self.new x ≡ spare_from self.old x }
        ensures others_into { (x : ℕ) → x ≢ sink → spare_into self.new x ≡ spare_into self.old x }
        ensures room { UsesLinkRoom self.old self.new source sink }
    {
        put(self.from.as_mut_slice(), source, sink);
        put(self.into.as_mut_slice(), sink, source);
    }

    /// A wire less, in steps that only the wires at its two boxes raise.
    pub fn cut(&mut self, source: u32, sink: u32)
        requires from { 0 < tally sink (followers_of self.old source) }
        requires into { 0 < tally source (feeders_of self.old sink) }
        ensures wires { HasOneMore self.new self.old source sink }
        ensures room { KeepsLinkRoom self.old self.new }
    {
        take(self.from.as_mut_slice(), source, sink);
        take(self.into.as_mut_slice(), sink, source);
    }

    /// How many wires come to the box.
    pub fn feeder_count(&self, node: u32) -> u32
        ensures { result ≡ length (feeders_of self.now node) }
    {
        count_at(self.into.as_slice(), node)
    }

    /// Where the i-th of them comes from, counted from 0.
    pub fn feeder(&self, node: u32, i: u32) -> u32
        requires { i < length (feeders_of self.now node) }
        ensures { result ≡ slice_index (feeders_of self.now node) i }
    {
        key_at(self.into.as_slice(), node, i)
    }

    /// How many wires leave the box.
    pub fn follower_count(&self, node: u32) -> u32
        ensures { result ≡ length (followers_of self.now node) }
    {
        count_at(self.from.as_slice(), node)
    }

    /// Where the i-th of them leads, counted from 0.
    pub fn follower(&self, node: u32, i: u32) -> u32
        requires { i < length (followers_of self.now node) }
        ensures { result ≡ slice_index (followers_of self.now node) i }
    {
        key_at(self.from.as_slice(), node, i)
    }
}
