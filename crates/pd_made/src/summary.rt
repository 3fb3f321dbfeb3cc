//! The last line of a run of a made patch.

ghost use Rattle.std.specs.Prelude.{◌≡◌, ◌++◌, ◌+◌, ◌≤◌, length, decimal};
ghost use Rattle.arrayvec.specs.ArrayVec.{array_vec_len};
ghost use Rattle.pd_made.specs.Summaries.{summary_text};

use arrayvec::ArrayVec;
use itoa::Buffer;

/// What the run of a made patch came to.
#[derive(Clone, Copy, Debug, PartialEq, Eq)]
pub struct Summary {
    /// How many voices were asked for.
    pub voices: u32,
    /// How many elements the document has at the end.
    pub boxes: u64,
    /// How many wires it has at the end.
    pub wires: u64,
    /// How many blocks ran.
    pub blocks: u64,
    /// The sum of the magnitudes of all samples.
    pub sum: u64,
}

impl Summary {
    /// The line that tells of it, with its line feed.
    pub fn line(&self) -> ArrayVec<u8, 160>
        ensures { result.items ≡ summary_text self.now }
    {
        let mut line = ArrayVec::new();
        put_count(b"made ", u64::from(self.voices), &mut line);
        put_count(b": ", self.boxes, &mut line);
        put_count(b" boxes, ", self.wires, &mut line);
        put_count(b" wires, ", self.blocks, &mut line);
        put_count(b" blocks, sum ", self.sum, &mut line);
        append(b"\n", &mut line);
        line
    }
}

/// Puts bytes and a number at the end.
fn put_count(before: &[u8], number: u64, line: &mut ArrayVec<u8, 160>)
    requires { array_vec_len line.old + length before.now ≤ 140 }
    ensures text { line.new.items ≡ line.old.items ++ (before.now ++ decimal number) }
    ensures short { array_vec_len line.new ≤ array_vec_len line.old + length before.now + 20 }
{
    append(before, line);
    let mut buffer = Buffer::new();
    append(buffer.format(number).as_bytes(), line);
}

/// Puts bytes at the end.
fn append(bytes: &[u8], line: &mut ArrayVec<u8, 160>)
    requires { array_vec_len line.old + length bytes.now ≤ 160 }
    ensures text { line.new.items ≡ line.old.items ++ bytes.now }
    ensures long { array_vec_len line.new ≡ array_vec_len line.old + length bytes.now }
{
    let _ = line.try_extend_from_slice(bytes);
}
