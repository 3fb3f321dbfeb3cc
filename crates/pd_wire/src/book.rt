//! The book of wires and its edits.

ghost use Rattle.std.specs.Prelude.{[], ◌≡◌, ◌+◌, ◌<◌, ◌≤◌, ℕ, length, slice_index_or, unwrap_or, OnOk, OnErr, IfOk, IsOk};

use crate::keys::{End, WireKey};
use crate::links::{Link, Node, Side, at_place, insert_node, link_of, remove_node};
use slab::Slab;
use std::alloc::{AllocError, Global};
use std::marker::Model;

/// Wires between ends. An end serves as an outlet by its fan-out and as an inlet by its feeds.
///
/// A key stays what it is until its wire is cut or its end dropped, and may then be given out
/// again. A call other than `reserve` takes no memory: it uses the room that `reserve` has set
/// aside.
#[derive(Drop)]
pub struct WireBook {
    pub(crate) nodes: Slab<Node>,
    spare_ends: usize,
    spare_wires: usize,
}

impl Model for WireBook {
    ghost use Rattle.pd_wire.specs.Book.{Book, book_code};
    ghost use Rattle.pd_wire.specs.Stored.{book_of, IsSoundBook};

    ghost Value = { Book };

    ghost coded = { book_code };

    ghost view = { λ a. book_of a.nodes a.spare_ends a.spare_wires };

    ghost invariant = { λ a. IsSoundBook a.nodes a.spare_ends a.spare_wires };
}

/// The key of this wire, or that of the end, which stands for the place behind the last.
fn key_or(wire: Option<WireKey>, end: End) -> usize
    ensures { result ≡ unwrap_or wire end }
{
    match wire {
        Some(wire) => wire.key,
        None => end.key,
    }
}

impl WireBook {
    ghost use Rattle.pd_wire.specs.Book.{empty_book, with_room, IsEnd, IsWire, fan_of, feeds_of, Adds, Cuts, MakesEnd, DropsEnd, IsLinked, StandsAt, without};

    /// A book with no ends. It takes no memory, so it is never refused.
    pub fn new(alloc: Global) -> Result<WireBook, AllocError>
        ensures made { IsOk result }
        ensures empty { IfOk result (λ book. book ≡ empty_book) }
    {
        Ok(WireBook {
            nodes: Slab::new(alloc),
            spare_ends: 0,
            spare_wires: 0,
        })
    }

    /// Sets room aside for at least so many more ends and wires. Nothing changes where it is refused.
    pub fn reserve(&mut self, ends: usize, wires: usize) -> Result<(), AllocError>
        ensures ok { OnOk result (self.new ≡ with_room self.old ends wires) }
        ensures err { OnErr result (self.new ≡ self.old) }
        ensures had_room { ends ≤ self.old.spare_ends → wires ≤ self.old.spare_wires → IsOk result }
    {
        // Neither what the slab holds nor what is set aside is more than its capacity, so the counts fit.
        let _most = self.nodes.capacity();
        let ends = self.spare_ends.max(ends);
        let wires = self.spare_wires.max(wires);
        let Some(more) = ends.checked_add(wires) else {
            return Err(AllocError);
        };
        self.nodes.reserve(more)?;
        self.spare_ends = ends;
        self.spare_wires = wires;
        Ok(())
    }

    /// A new end, with no wire.
    pub fn make_end(&mut self) -> End
        requires { 0 < self.old.spare_ends }
        ensures { MakesEnd self.old self.new result }
    {
        let key = self.nodes.vacant_key();
        let lone = Link {
            owner: key,
            before: key,
            after: key,
            count: 0,
        };
        let key = self.nodes.insert_reserved(Node {
            is_end: true,
            fan: lone,
            feed: lone,
        });
        self.spare_ends -= 1;
        End { key }
    }

    /// Drops an end without wires.
    pub fn drop_end(&mut self, end: End)
        requires end { IsEnd self.old end }
        requires no_fan { fan_of self.old end ≡ [] }
        requires no_feeds { feeds_of self.old end ≡ [] }
        ensures { DropsEnd self.old self.new end }
    {
        // Neither what the slab holds nor what is set aside is more than its capacity, so the counts fit.
        let _most = self.nodes.capacity();
        self.nodes.remove(end.key);
        self.spare_ends += 1;
    }

    /// A new wire, before what stands at a place of its source's fan-out and at one of its sink's feeds. The end's own
    /// key stands at the place behind the last.
    fn link(&mut self, source: usize, next_fan: usize, sink: usize, next_feed: usize) -> usize
        requires room { 0 < self.old.spare_wires }
        requires source { IsEnd self.old source }
        requires sink { IsEnd self.old sink }
        requires fan { (p : ℕ) × (p ≤ length (fan_of self.old source)) × (next_fan ≡ slice_index_or (fan_of self.old source) p source) }
        requires feed { (q : ℕ) × (q ≤ length (feeds_of self.old sink)) × (next_feed ≡ slice_index_or (feeds_of self.old sink) q sink) }
        ensures { (p q : ℕ) → p ≤ length (fan_of self.old source) → next_fan ≡ slice_index_or (fan_of self.old source) p source →
            q ≤ length (feeds_of self.old sink) → next_feed ≡ slice_index_or (feeds_of self.old sink) q sink →
            Adds self.old self.new result source p sink q }
    {
        // Neither what the slab holds nor what is set aside is more than its capacity, so the counts fit.
        let _most = self.nodes.capacity();
        let key = insert_node(&mut self.nodes, source, next_fan, sink, next_feed);
        self.spare_wires -= 1;
        key
    }

    /// A new wire, at a place of its source's fan-out and at one of its sink's feeds.
    fn insert(&mut self, source: usize, fan_place: usize, sink: usize, feed_place: usize) -> usize
        requires room { 0 < self.old.spare_wires }
        requires source { IsEnd self.old source }
        requires fan_place { fan_place ≤ length (fan_of self.old source) }
        requires sink { IsEnd self.old sink }
        requires feed_place { feed_place ≤ length (feeds_of self.old sink) }
        ensures { Adds self.old self.new result source fan_place sink feed_place }
    {
        let next_fan = at_place(&self.nodes, Side::Fan, source, fan_place);
        let next_feed = at_place(&self.nodes, Side::Feed, sink, feed_place);
        self.link(source, next_fan, sink, next_feed)
    }

    /// How many wires leave an outlet.
    fn fan_len(&self, end: usize) -> usize
        requires { IsEnd self.now end }
        ensures { result ≡ length (fan_of self.now end) }
    {
        link_of(&self.nodes, Side::Fan, end).count
    }

    /// How many wires come to an inlet.
    fn feed_len(&self, end: usize) -> usize
        requires { IsEnd self.now end }
        ensures { result ≡ length (feeds_of self.now end) }
    {
        link_of(&self.nodes, Side::Feed, end).count
    }

    /// A new wire, last in the fan-out of its source and last among the feeds of its sink. It walks no list.
    pub fn add_last(&mut self, source: End, sink: End) -> WireKey
        requires room { 0 < self.old.spare_wires }
        requires source { IsEnd self.old source }
        requires sink { IsEnd self.old sink }
        ensures { Adds self.old self.new result source (length (fan_of self.old source)) sink (length (feeds_of self.old sink)) }
    {
        let fan_place = self.fan_len(source.key);
        let feed_place = self.feed_len(sink.key);
        let key = self.insert(source.key, fan_place, sink.key, feed_place);
        WireKey { key }
    }

    /// A new wire, last in the fan-out of its source and at a place among the feeds of its sink.
    ///
    /// Only the feeds before that place are walked, and none where it is the place behind the last.
    pub fn add(&mut self, source: End, sink: End, feed_place: u32) -> WireKey
        requires room { 0 < self.old.spare_wires }
        requires source { IsEnd self.old source }
        requires sink { IsEnd self.old sink }
        requires feed_place { feed_place ≤ length (feeds_of self.old sink) }
        ensures { Adds self.old self.new result source (length (fan_of self.old source)) sink feed_place }
    {
        let last = self.fan_len(source.key);
        let key = self.insert(source.key, last, sink.key, feed_place as usize);
        WireKey { key }
    }

    /// A new wire, last in the fan-out of its source, and among the feeds of its sink before the wire `next`, or last
    /// without one. It walks no list.
    pub fn add_before(&mut self, source: End, sink: End, next: Option<WireKey>) -> WireKey
        requires room { 0 < self.old.spare_wires }
        requires source { IsEnd self.old source }
        requires sink { IsEnd self.old sink }
        requires next { (place : ℕ) × StandsAt (feeds_of self.old sink) place next }
        ensures { (place : ℕ) → StandsAt (feeds_of self.old sink) place next →
            Adds self.old self.new result source (length (fan_of self.old source)) sink place }
    {
        let key = self.link(source.key, source.key, sink.key, key_or(next, sink));
        WireKey { key }
    }

    /// A new wire, in the fan-out of its source before the wire `fan_next`, and among the feeds of its sink before the
    /// wire `feed_next`, or last where there is none. It walks no list.
    pub fn insert_before(
        &mut self,
        source: End,
        fan_next: Option<WireKey>,
        sink: End,
        feed_next: Option<WireKey>,
    ) -> WireKey
        requires room { 0 < self.old.spare_wires }
        requires source { IsEnd self.old source }
        requires fan_next { (place : ℕ) × StandsAt (fan_of self.old source) place fan_next }
        requires sink { IsEnd self.old sink }
        requires feed_next { (place : ℕ) × StandsAt (feeds_of self.old sink) place feed_next }
        ensures { (fan_place feed_place : ℕ) → StandsAt (fan_of self.old source) fan_place fan_next →
            StandsAt (feeds_of self.old sink) feed_place feed_next →
            Adds self.old self.new result source fan_place sink feed_place }
    {
        let next_fan = key_or(fan_next, source);
        let next_feed = key_or(feed_next, sink);
        let key = self.link(source.key, next_fan, sink.key, next_feed);
        WireKey { key }
    }

    /// A new wire, at a place of its source's fan-out and at a place among the feeds of its sink.
    pub fn insert_at(&mut self, source: End, fan_place: u32, sink: End, feed_place: u32) -> WireKey
        requires room { 0 < self.old.spare_wires }
        requires source { IsEnd self.old source }
        requires fan_place { fan_place ≤ length (fan_of self.old source) }
        requires sink { IsEnd self.old sink }
        requires feed_place { feed_place ≤ length (feeds_of self.old sink) }
        ensures { Adds self.old self.new result source fan_place sink feed_place }
    {
        let key = self.insert(
            source.key,
            fan_place as usize,
            sink.key,
            feed_place as usize,
        );
        WireKey { key }
    }

    /// Cuts a wire, in a number of steps that no list's length raises.
    pub fn cut(&mut self, key: WireKey)
        requires { IsWire self.old key }
        ensures cuts { (source fan_place sink feed_place : ℕ) ×
            Cuts self.old self.new key source fan_place sink feed_place }

        // The same with no places: the key is left out of each list.
        ensures fans { (e : ℕ) → fan_of self.new e ≡ without key (fan_of self.old e) }
        ensures feeds { (e : ℕ) → feeds_of self.new e ≡ without key (feeds_of self.old e) }
    {
        // Neither what the slab holds nor what is set aside is more than its capacity, so the counts fit.
        let _most = self.nodes.capacity();
        remove_node(&mut self.nodes, key.key);
        self.spare_wires += 1;
    }

    /// What is true of each book. It does nothing.
    pub fn laws(&self)
        ensures { IsLinked self.now }
    {
        let _ = &self.nodes;
    }
}
