//! The bytes at hand.
ghost use Rattle.std.specs.Prelude.{◌≡◌, ◌+◌, ◌<◌, ◌≤◌, ◌↔◌, [], length, take, drop, slice_range, IfOk, IfSome, OnErr};
ghost use Rattle.pd_io.specs.Faults.{Rose};
ghost use Rattle.pd_io.specs.Stream.{with_front};
ghost use Rattle.pd_feed.specs.Bytes.{Gains};

use pd_io::{Source, SourceFailed};
use std::alloc::{AllocError, Global};
use std::marker::Model;

/// A record of the most bytes, and one more.
pub const ROOM: usize = 65_537;

/// Bytes that a source gave and that aren't taken yet. Clauses see it as the list of them.
#[derive(Drop)]
pub struct Buffer {
    store: Vec<u8>,
    start: usize,
    end: usize,
}

impl Model for Buffer {
    ghost use Rattle.std.specs.Prelude.{◌≡◌, ◌≤◌, List, ℕ, length, slice_range, vec_len};

    ghost Value = { List ℕ };

    ghost view = { λ b. slice_range b.store.items b.start b.end };

    ghost invariant = { λ b. (vec_len b.store ≡ 65537) × (b.start ≤ b.end) × (b.end ≤ 65537) };
}

/// Brings the bytes from `start` to `end` to the front where there is no room behind them, and gives the two places after that.
fn make_room(store: &mut [u8], start: usize, end: usize) -> (usize, usize)
    requires order { start ≤ end }
    requires within { end ≤ length store.old }
    requires short { end < length store.old + start }
    ensures order { result.0 ≤ result.1 }
    ensures room { result.1 < length store.new }
    ensures same { slice_range store.new result.0 result.1 ≡ slice_range store.old start end }
{
    if start == end {
        return (0, 0);
    }
    if end < store.len() {
        return (start, end);
    }
    store.rotate_left(start);
    (0, end - start)
}

/// Reads once, to the place `end` and behind it.
fn read_behind<S: Source>(
    source: &mut S,
    store: &mut [u8],
    end: usize,
) -> Result<usize, SourceFailed>
    requires { end < length store.old }
    ensures front { take end store.new ≡ take end store.old }
    ensures fits { IfOk result (λ n. end + n ≤ length store.new) }
    ensures came { IfOk result (λ n. S.left source.old ≡ with_front (slice_range store.new end (end + n)) (S.left source.new)) }
    ensures at_end { IfOk result (λ n. IfSome (S.left source.old) (λ left. (n ≡ 0) ↔ (left ≡ []))) }
    ensures failed { OnErr result (S.left source.new ≡ S.left source.old) }
    ensures cause { OnErr result (Rose (S.faults source.old) (S.faults source.new)) }
    ensures counted { S.faults source.old ≤ S.faults source.new }
{
    source.read(&mut store[end..])
}

impl Buffer {
    /// No bytes, and room for 65,537.
    pub fn new(alloc: Global) -> Result<Buffer, AllocError>
        ensures { IfOk result (λ buffer. buffer ≡ []) }
    {
        Ok(Buffer {
            store: vec![in alloc; 0; ROOM]?,
            start: 0,
            end: 0,
        })
    }

    pub fn len(&self) -> usize
        ensures { result ≡ length self.now }
    {
        self.end - self.start
    }

    pub fn bytes(&self) -> &[u8]
        ensures value { result.now ≡ self.now }
        ensures short { length self.now ≤ 65537 }
    {
        &self.store[self.start..self.end]
    }

    /// Takes bytes away from the front.
    pub fn skip(&mut self, count: usize)
        requires { count ≤ length self.old }
        ensures { self.new ≡ drop count self.old }
    {
        self.start += count;
    }

    /// Reads once, to the end of the bytes, and gives the number of bytes read.
    pub fn fill<S: Source>(&mut self, source: &mut S) -> Result<usize, SourceFailed>
        requires { length self.old < 65537 }
        ensures gains { IfOk result (λ n. Gains n self.old (S.left source.old) self.new (S.left source.new)) }
        ensures at_end { IfOk result (λ n. IfSome (S.left source.old) (λ left. (n ≡ 0) ↔ (left ≡ []))) }
        ensures same { OnErr result (self.new ≡ self.old) }
        ensures failed { OnErr result (S.left source.new ≡ S.left source.old) }
        ensures cause { OnErr result (Rose (S.faults source.old) (S.faults source.new)) }
        ensures counted { S.faults source.old ≤ S.faults source.new }
        ensures short { length self.new ≤ 65537 }
    {
        let (start, end) = make_room(&mut self.store, self.start, self.end);
        self.start = start;
        self.end = end;
        let count = read_behind(source, &mut self.store, end)?;
        self.end += count;
        Ok(count)
    }
}
