//! The records of a script, read one by one from a source.
//!
//! A script is records: white space, and then bytes through the first semicolon that no backslash takes along (a
//! backslash takes the byte after it). What follows the last whole record is the rest. White space is space, tab,
//! line feed and carriage return.
//!
//! A record is too long where more than 65,536 bytes stand from the end of the one before through its semicolon. A
//! rest is too long where it has more than 65,536 bytes and isn't white space alone. Either is too long, too, where
//! it goes beyond byte 1,073,741,824 of the script. It counts as too long as soon as the bytes read so far show it.
//!
//! `next` takes the next record out of the bytes at hand, and reads only as long as they don't show the answer.
//! Where the source tells what it has left, the answer is that of all bytes ahead: a whole record, which `last`
//! then gives; the end, with at most white space left; a record or a rest that is too long; an unfinished rest.
//! What is ahead after the call is what follows the record, or the same as before; so the records and the end
//! depend on the bytes alone, and not on the pieces in which they come. After a failed read all that was ahead is
//! still ahead, and no whole record is at hand. White space before a record is counted and not kept.
//!
//! Laws (`script_laws`): white space that was counted is like white space that is there; an answer that the bytes
//! at hand show stays, whatever follows; a script is its first record and the script after it. Only `new` is given
//! an allocator. By no clause: that no byte is looked at twice, and how often the buffer is moved.
//!
//! Definitions: `Script` (a script's records and end, by its bytes), `Feed` (what a feed has, and what becomes of
//! the bytes ahead); `Bytes`, `Kept` and `Scan` are of the buffer inside.
#![tactic(auto)]

mod buffer;
mod feed;
mod laws;
mod scan;

pub use feed::{Fed, RecordFeed};
pub use laws::script_laws;
