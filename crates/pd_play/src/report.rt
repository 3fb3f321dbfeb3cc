//! The lines that tell how a run ended.
ghost use Rattle.std.specs.Prelude.{◌≡◌, ◌≤◌, ◌++◌, [], OnOk, OnErr, decimal};
ghost use Rattle.pd_io.specs.Stream.{grown, TookPart};
ghost use Rattle.pd_say.specs.Gathering.{Says, Fails, HasCause};
ghost use Rattle.pd_play.specs.Ending.{bad_text, cause_text, status_line};
ghost use Rattle.pd_play.specs.Telling.{told, done_with, Answers};

use crate::status::Status;
use itoa::Buffer;
use pd_engine::BadCause;
use pd_io::{Sink, SinkFailed};
use pd_made::Summary;
use pd_say::{Held, flush, put};

/// The words of a cause.
#[tactic(auto, unfolding(crate::specs::Ending::cause_text))]
fn cause_words(cause: BadCause) -> &'static [u8]
    ensures { result.now ≡ cause_text cause }
{
    match cause {
        BadCause::BadRecord => b"bad record",
        BadCause::DataStructure => b"data structure",
        BadCause::TooDeep => b"too deep",
        BadCause::TooLong => b"too long",
        BadCause::TooManyBoxes => b"too many boxes",
        BadCause::TooManyWires => b"too many wires",
        BadCause::TooMuchSound => b"too much sound",
        BadCause::SymbolsFull => b"too many symbols",
    }
}

/// Says two pieces.
fn put_pair<L: Sink>(
    first: &[u8],
    second: &[u8],
    held: &mut Held,
    sink: &mut L,
) -> Result<(), SinkFailed>
    ensures ok { OnOk result (Says (L.taken sink.old) held.old.items (L.taken sink.new) held.new.items (first.now ++ second.now)) }
    ensures err { OnErr result (Fails (L.taken sink.old) held.old.items (L.taken sink.new) (first.now ++ second.now)) }
    ensures cause { HasCause (L.faults sink.old) (L.faults sink.new) result }
{
    put(first, held, sink)?;
    put(second, held, sink)
}

/// Says three pieces.
fn put_three<L: Sink>(
    first: &[u8],
    second: &[u8],
    third: &[u8],
    held: &mut Held,
    sink: &mut L,
) -> Result<(), SinkFailed>
    ensures ok { OnOk result (Says (L.taken sink.old) held.old.items (L.taken sink.new) held.new.items (first.now ++ (second.now ++ third.now))) }
    ensures err { OnErr result (Fails (L.taken sink.old) held.old.items (L.taken sink.new) (first.now ++ (second.now ++ third.now))) }
    ensures cause { HasCause (L.faults sink.old) (L.faults sink.new) result }
{
    put(first, held, sink)?;
    put_pair(second, third, held, sink)
}

/// Says a number between two pieces.
fn put_counted<L: Sink>(
    before: &[u8],
    number: u32,
    after: &[u8],
    held: &mut Held,
    sink: &mut L,
) -> Result<(), SinkFailed>
    ensures ok { OnOk result (Says (L.taken sink.old) held.old.items (L.taken sink.new) held.new.items (before.now ++ (decimal number ++ after.now))) }
    ensures err { OnErr result (Fails (L.taken sink.old) held.old.items (L.taken sink.new) (before.now ++ (decimal number ++ after.now))) }
    ensures cause { HasCause (L.faults sink.old) (L.faults sink.new) result }
{
    put_three(
        before,
        Buffer::new().format(number).as_bytes(),
        after,
        held,
        sink,
    )
}

/// Says the line of a refused patch.
fn put_patch_bad<L: Sink>(
    name: &[u8],
    number: u32,
    cause: BadCause,
    held: &mut Held,
    sink: &mut L,
) -> Result<(), SinkFailed>
    ensures ok { OnOk result (Says (L.taken sink.old) held.old.items (L.taken sink.new) held.new.items (bad_text name.now number cause)) }
    ensures err { OnErr result (Fails (L.taken sink.old) held.old.items (L.taken sink.new) (bad_text name.now number cause)) }
    ensures cause { HasCause (L.faults sink.old) (L.faults sink.new) result }
{
    put_pair(b"error: ", name, held, sink)?;
    put_counted(b": record ", number, b": ", held, sink)?;
    put_pair(cause_words(cause), b"\n", held, sink)
}

/// Says the line of a status, where it has one.
#[tactic(auto, unfolding(crate::specs::Ending::status_line))]
fn put_status<L: Sink>(
    name: &[u8],
    status: Status,
    held: &mut Held,
    sink: &mut L,
) -> Result<(), SinkFailed>
    ensures ok { OnOk result (Says (L.taken sink.old) held.old.items (L.taken sink.new) held.new.items (status_line name.now status)) }
    ensures err { OnErr result (Fails (L.taken sink.old) held.old.items (L.taken sink.new) (status_line name.now status)) }
    ensures cause { HasCause (L.faults sink.old) (L.faults sink.new) result }
{
    match status {
        Status::Done => Ok(()),
        Status::Usage => put(b"usage: pdplay [--rate R] [--make N] PATCH\n", held, sink),
        Status::PatchAbsent => put_three(b"error: ", name, b": no such file\n", held, sink),
        Status::PatchBad { number, cause } => put_patch_bad(name, number, cause, held, sink),
        Status::ScriptBad { number } => put_counted(
            b"error: script record ",
            number,
            b"\n",
            held,
            sink,
        ),
        Status::ReadFault => put(b"error: script read failed\n", held, sink),
        Status::WriteFault => Ok(()),
        Status::ShelfFault => put(b"error: shelf failed\n", held, sink),
        Status::NoMemory => put(b"error: out of memory\n", held, sink),
    }
}

/// Prints the line of a status, where it has one.
fn print_status<L: Sink>(
    name: &[u8],
    status: Status,
    held: &mut Held,
    sink: &mut L,
) -> Result<(), SinkFailed>
    requires { held.old.items ≡ [] }
    ensures ok { OnOk result (L.taken sink.new ≡ grown (L.taken sink.old) (status_line name.now status)) }
    ensures err { OnErr result (TookPart (L.taken sink.old) (L.taken sink.new) (status_line name.now status)) }
    ensures cause { HasCause (L.faults sink.old) (L.faults sink.new) result }
{
    put_status(name, status, held, sink)?;
    flush(held, sink)
}

/// Prints a line.
fn print_line<L: Sink>(line: &[u8], held: &mut Held, sink: &mut L) -> Result<(), SinkFailed>
    requires { held.old.items ≡ [] }
    ensures ok { OnOk result (L.taken sink.new ≡ grown (L.taken sink.old) line.now) }
    ensures err { OnErr result (TookPart (L.taken sink.old) (L.taken sink.new) line.now) }
    ensures cause { HasCause (L.faults sink.old) (L.faults sink.new) result }
{
    put(line, held, sink)?;
    flush(held, sink)
}

/// Prints what a run of a made patch came to that is done, or gives a fault where the line isn't taken.
pub fn tell_summary<L: Sink>(summary: &Summary, held: &mut Held, sink: &mut L) -> Status
    requires { held.old.items ≡ [] }
    ensures answer { Answers (done_with summary.now) result (L.taken sink.old) (L.taken sink.new) (L.faults sink.old) (L.faults sink.new) }
    ensures counted { L.faults sink.old ≤ L.faults sink.new }
{
    match print_line(summary.line().as_slice(), held, sink) {
        Ok(()) => Status::Done,
        Err(SinkFailed) => Status::WriteFault,
    }
}

/// Prints the line of a status and gives it, or a fault where the line isn't taken.
pub fn tell<L: Sink>(name: &[u8], status: Status, held: &mut Held, sink: &mut L) -> Status
    requires { held.old.items ≡ [] }
    ensures answer { Answers (told name.now status) result (L.taken sink.old) (L.taken sink.new) (L.faults sink.old) (L.faults sink.new) }
    ensures counted { L.faults sink.old ≤ L.faults sink.new }
{
    match print_status(name, status, held, sink) {
        Ok(()) => status,
        Err(SinkFailed) => Status::WriteFault,
    }
}
