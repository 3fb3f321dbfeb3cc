//! Records from a source.
ghost use Rattle.std.specs.Prelude.{◌≡◌, ◌+◌, ◌<◌, ◌≤◌, ◌↔◌, [], length, take, drop, Some, None, Option, IfOk, IfNone, IfSome, OnErr, IsTrue, IsFalse};
ghost use Rattle.std.specs.List.{prefix_len};
ghost use Rattle.pd_io.specs.Faults.{Rose};
ghost use Rattle.pd_lex.specs.Text.{is_space};
ghost use Rattle.pd_lex.specs.Reading.{is_body, semicolon};
ghost use Rattle.pd_feed.specs.Bytes.{Gains};
ghost use Rattle.pd_feed.specs.Script.{fed_of, is_shown, is_long, is_beyond, is_white};
ghost use Rattle.pd_feed.specs.Feed.{Feed, Takes, Stays, Leaves, Feeds, FeedsAll, ReadsScript, Waits, WaitsAll, Shows, Unshown};

use crate::buffer::Buffer;
use crate::scan::{Scan, find_semicolon, spaces};
use pd_io::{Source, SourceFailed};
use std::alloc::{AllocError, Global};
use std::marker::Model;

/// The most bytes from the end of a record through the semicolon of the next one.
const MOST_IN_RECORD: usize = 65_536;

/// The most bytes of a script.
const MOST_IN_SCRIPT: usize = 1_073_741_824;

/// What a call of `RecordFeed::next` found.
#[derive(Debug, Clone, Copy, PartialEq, Eq)]
pub enum Fed {
    /// One more whole record, which `last` then gives.
    Record,
    /// The end of the script: at most white space is left.
    End,
    /// A record or a rest that is too long.
    TooLong,
    /// The end of the script, where a rest that no semicolon ends is left.
    Unfinished,
}

/// Reads a script record by record.
///
/// Clauses see it as the count of bytes that have passed, the count of white space that wasn't kept after them, the bytes
/// at hand and the record last given.
#[derive(Drop)]
pub struct RecordFeed {
    buffer: Buffer,
    searched: usize,
    escaped: bool,
    blank: usize,
    passed: usize,
    last: Vec<u8>,
}

impl Model for RecordFeed {
    ghost use Rattle.pd_feed.specs.Feed.{Feed};

    ghost Value = { Feed };

    ghost use Rattle.pd_feed.specs.Kept.{feed_of, IsKept};

    ghost view = { feed_of };

    ghost invariant = { IsKept };
}

impl RecordFeed {
    /// Nothing read, and room for 65,537 bytes and for a record. No other call takes memory.
    pub fn new(alloc: Global) -> Result<RecordFeed, AllocError>
        ensures { IfOk result (λ feed. feed ≡ record { passed = 0; blank = 0; bytes = []; last = [] }) }
    {
        Ok(RecordFeed {
            buffer: Buffer::new(alloc)?,
            searched: 0,
            escaped: false,
            blank: 0,
            passed: 0,
            last: Vec::with_capacity(alloc, MOST_IN_RECORD)?,
        })
    }

    /// The record last given, without the white space before it and without its semicolon; nothing before the first.
    pub fn last(&self) -> &[u8]
        ensures value { result.now ≡ self.now.last }
        ensures body { IsTrue (is_body result.now) }
        ensures short { length result.now ≤ 65535 }
    {
        self.last.as_slice()
    }

    /// Counts the white space before the next record or rest, and drops it.
    fn skip_white(&mut self)
        ensures stays { Stays self.old self.old.bytes self.new self.new.bytes }
        ensures begun { prefix_len is_space self.new.bytes ≡ 0 }
    {
        if self.searched == 0 {
            let white = spaces(self.buffer.bytes());
            self.buffer.skip(white);
            self.blank += white;
        }
    }

    /// The place of the semicolon that ends the next record.
    fn find(&mut self) -> Option<usize>
        requires { prefix_len is_space self.old.bytes ≡ 0 }
        ensures place { result ≡ semicolon self.new.bytes }
        ensures same { self.new ≡ self.old }
    {
        match find_semicolon(&self.buffer.bytes()[self.searched..], self.escaped) {
            Scan::Found(place) => Some(self.searched + place),
            Scan::Ended { escaped } => {
                self.searched = self.buffer.len();
                self.escaped = escaped;
                None
            }
        }
    }

    /// Takes the record whose semicolon stands at the place.
    fn take(&mut self, place: usize)
        requires begun { prefix_len is_space self.old.bytes ≡ 0 }
        requires ends { semicolon self.old.bytes ≡ Some place }
        requires short { self.old.blank + place + 1 ≤ 65536 }
        ensures { Takes self.old self.old.bytes self.new self.new.bytes }
    {
        self.last.clear();
        self.last
            .extend_from_slice(&self.buffer.bytes()[..place])
            .unwrap();
        self.buffer.skip(place + 1);
        self.passed += self.blank + place + 1;
        self.blank = 0;
        self.searched = 0;
        self.escaped = false;
    }
}

impl RecordFeed {
    /// The answer for the record whose semicolon stands at the place; it is taken where it isn't too long.
    fn give(&mut self, place: usize) -> Fed
        requires begun { prefix_len is_space self.old.bytes ≡ 0 }
        requires ends { semicolon self.old.bytes ≡ Some place }
        ensures fed { result ≡ fed_of self.old.passed self.old.blank self.old.bytes }
        ensures leaves { Leaves result self.old self.old.bytes self.new self.new.bytes }
    {
        let count = self.blank + place + 1;
        if count > MOST_IN_RECORD || self.passed + count > MOST_IN_SCRIPT {
            return Fed::TooLong;
        }
        self.take(place);
        Fed::Record
    }

    /// Whether a rest is too long, whatever follows it.
    fn is_rest_too_long(&self) -> bool
        requires begun { prefix_len is_space self.now.bytes ≡ 0 }
        requires none { semicolon self.now.bytes ≡ None }
        ensures { result ≡ is_shown (fed_of self.now.passed self.now.blank self.now.bytes) }
    {
        let len = self.buffer.len();
        let count = self.blank + len;
        self.passed + count > MOST_IN_SCRIPT || (len > 0 && count > MOST_IN_RECORD)
    }

    /// The answer for a rest that isn't too long.
    fn rest(&self) -> Fed
        requires begun { prefix_len is_space self.now.bytes ≡ 0 }
        requires unshown { IsFalse (is_shown (fed_of self.now.passed self.now.blank self.now.bytes)) }
        ensures { result ≡ fed_of self.now.passed self.now.blank self.now.bytes }
    {
        if self.buffer.len() == 0 {
            Fed::End
        } else {
            Fed::Unfinished
        }
    }

    /// Reads once.
    fn fill<S: Source>(&mut self, source: &mut S) -> Result<usize, SourceFailed>
        requires begun { prefix_len is_space self.old.bytes ≡ 0 }
        requires unshown { IsFalse (is_shown (fed_of self.old.passed self.old.blank self.old.bytes)) }
        ensures gains { IfOk result (λ n. Gains n self.old.bytes (S.left source.old) self.new.bytes (S.left source.new)) }
        ensures at_end { IfOk result (λ n. IfSome (S.left source.old) (λ left. (n ≡ 0) ↔ (left ≡ []))) }
        ensures passed { self.new.passed ≡ self.old.passed }
        ensures blank { self.new.blank ≡ self.old.blank }
        ensures last { self.new.last ≡ self.old.last }
        ensures same { OnErr result (self.new.bytes ≡ self.old.bytes) }
        ensures failed { OnErr result (S.left source.new ≡ S.left source.old) }
        ensures cause { OnErr result (Rose (S.faults source.old) (S.faults source.new)) }
        ensures counted { S.faults source.old ≤ S.faults source.new }
    {
        self.buffer.fill(source)
    }

    /// The answer that the bytes at hand show. A record is taken.
    fn shown(&mut self) -> Option<Fed>
        ensures fed { IfSome result (λ fed. Shows fed self.old self.new) }
        ensures unshown { IfNone result (Unshown self.old self.new) }
    {
        self.skip_white();
        match self.find() {
            Some(place) => Some(self.give(place)),
            None => self.is_rest_too_long().then_some(Fed::TooLong),
        }
    }

    /// Takes the next record of the script, with the white space before it and its semicolon, out of the bytes at hand. It
    /// reads only as long as they don't show the answer. With another answer all that was ahead stays ahead: a further call
    /// gives that answer again, unless the source has got more bytes.
    ///
    /// `fed` says it of the bytes that the source gave, `all` of all that it still has, and `script` of the list of records;
    /// so the answers depend on the bytes alone, and not on the pieces in which they come.
    ///
    /// # Errors
    ///
    /// `SourceFailed` where a read failed. The bytes at hand stay, and no whole record is among them; a later call goes on.
    pub fn next<S: Source>(&mut self, source: &mut S) -> Result<Fed, SourceFailed>
        ensures fed { IfOk result (λ fed. Feeds fed self.old (S.left source.old) self.new (S.left source.new)) }
        ensures all { IfOk result (λ fed. FeedsAll fed self.old (S.left source.old) self.new (S.left source.new)) }
        ensures script { IfOk result (λ fed. ReadsScript fed self.old (S.left source.old) self.new (S.left source.new)) }
        ensures waits { OnErr result (Waits self.old (S.left source.old) self.new (S.left source.new)) }
        ensures waits_all { OnErr result (WaitsAll self.old (S.left source.old) self.new (S.left source.new)) }
        ensures at_hand { IsTrue (is_shown (fed_of self.old.passed self.old.blank self.old.bytes)) → source.new ≡ source.old }
        ensures cause { OnErr result (Rose (S.faults source.old) (S.faults source.new)) }
        ensures counted { S.faults source.old ≤ S.faults source.new }
    {
        'reading: loop {
            if let Some(fed) = self.shown() {
                return Ok(fed);
            }
            if self.fill(source)? == 0 {
                return Ok(self.rest());
            }
        }
    }
}
