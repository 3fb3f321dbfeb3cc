//! A script at hand as a source.

ghost use Rattle.std.specs.Prelude.{◌≡◌, ◌<◌, ◌≤◌, ◌↔◌, [], length, min, take, drop, Some, IfOk, OnErr};
ghost use Rattle.pd_io.specs.Faults.{Rose};
ghost use Rattle.pd_io.specs.Stream.{with_front};

use pd_io::{Source, SourceFailed};
use std::marker::Model;

/// Bytes at hand, read from their front. Clauses see it as those that are still to come. No read fails.
#[derive(Drop)]
pub struct ScriptSource {
    bytes: Vec<u8>,
    given: usize,
}

impl Model for ScriptSource {
    ghost use Rattle.std.specs.Prelude.{List, ℕ, drop, ◌≤◌, length};

    ghost Value = { List ℕ };

    ghost view = { λ s. drop s.given s.bytes.items };

    ghost invariant = { λ s. s.given ≤ length s.bytes.items };
}

/// Copies as many bytes as fit to the front of `buf`.
fn hand_out(left: &[u8], buf: &mut [u8]) -> usize
    ensures count { result ≡ min (length buf.new) (length left.now) }
    ensures front { take result buf.new ≡ take result left.now }
{
    let count = buf.len().min(left.len());
    buf[..count].copy_from_slice(&left[..count]);
    count
}

impl ScriptSource {
    /// All of these bytes are still to come.
    pub fn new(bytes: Vec<u8>) -> ScriptSource
        ensures { result ≡ bytes.items }
    {
        ScriptSource { bytes, given: 0 }
    }
}

impl Source for ScriptSource {
    ghost left = { λ s. Some s };

    ghost faults = { λ _. 0 };

    fn read(&mut self, buf: &mut [u8]) -> Result<usize, SourceFailed>
        ensures count { IfOk result (λ n. n ≡ min (length buf.new) (length self.old)) }
        ensures front { IfOk result (λ n. take n buf.new ≡ take n self.old) }
        ensures rest { IfOk result (λ n. self.new ≡ drop n self.old) }
        ensures end { IfOk result (λ n. 0 < length buf.new → (n ≡ 0) ↔ (self.old ≡ [])) }
        ensures failed { OnErr result (self.new ≡ self.old) }
        ensures cause { OnErr result (Rose 0 0) }
    {
        let count = hand_out(&self.bytes[self.given..], buf);
        self.given += count;
        Ok(count)
    }
}
