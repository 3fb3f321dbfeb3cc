//! What is refused, and why.

ghost use Rattle.std.specs.Prelude.{◌≡◌, ◌++◌, codes, decimal, OnOk, OnErr};
ghost use Rattle.pd_say.specs.Gathering.{Says, Fails, HasCause};
ghost use Rattle.pd_say.specs.Refusals.{request_text, side_text, why_text};

use crate::atoms::put_pair;
use crate::gathering::{Held, put};
use itoa::Buffer;
use pd_io::{Sink, SinkFailed};

/// What was asked for.
#[derive(Clone, Copy, Debug, PartialEq, Eq)]
pub enum Request {
    Edit,
    Save,
    Undo,
    Redo,
}

/// Why it is refused.
#[derive(Clone, Copy, Debug, PartialEq, Eq)]
pub enum Why {
    NothingToUndo,
    NothingToRedo,
    NoDocument,
    NoCanvas,
    NoBox {
        number: u32,
    },
    /// The box has no such outlet, or no such inlet where `outlet` is false.
    NoPort {
        number: u32,
        port: u32,
        outlet: bool,
    },
    NoWire,
    SignalIntoControl,
    TextTooLong,
    TooDeep,
    ShelfFault,
    SymbolsFull,
    TooManyBoxes,
    TooManyWires,
    TooMuchSound,
    NoMemory,
}

impl Request {
    /// The word of a request.
    pub(crate) fn word(self) -> &'static [u8]
        ensures { result.now ≡ request_text self }
    {
        match self {
            Request::Edit => b"edit",
            Request::Save => b"save",
            Request::Undo => b"undo",
            Request::Redo => b"redo",
        }
    }
}

/// The side of a box that lacks a port.
fn side_word(outlet: bool) -> &'static [u8]
    ensures { result.now ≡ side_text outlet }
{
    if outlet { b"no outlet " } else { b"no inlet " }
}

/// Says a word and a number.
fn put_numbered<L: Sink>(
    word: &[u8],
    number: u32,
    held: &mut Held,
    sink: &mut L,
) -> Result<(), SinkFailed>
    ensures ok { OnOk result (Says (L.taken sink.old) held.old.items (L.taken sink.new) held.new.items (word.now ++ decimal number)) }
    ensures err { OnErr result (Fails (L.taken sink.old) held.old.items (L.taken sink.new) (word.now ++ decimal number)) }
    ensures cause { HasCause (L.faults sink.old) (L.faults sink.new) result }
{
    put_pair(word, Buffer::new().format(number).as_bytes(), held, sink)
}

/// Says that a box has no such port.
fn put_no_port<L: Sink>(
    number: u32,
    port: u32,
    outlet: bool,
    held: &mut Held,
    sink: &mut L,
) -> Result<(), SinkFailed>
    ensures ok { OnOk result (Says (L.taken sink.old) held.old.items (L.taken sink.new) held.new.items ((side_text outlet ++ decimal port) ++ (codes " at box " ++ decimal number))) }
    ensures err { OnErr result (Fails (L.taken sink.old) held.old.items (L.taken sink.new) ((side_text outlet ++ decimal port) ++ (codes " at box " ++ decimal number))) }
    ensures cause { HasCause (L.faults sink.old) (L.faults sink.new) result }
{
    put_numbered(side_word(outlet), port, held, sink)?;
    put_numbered(b" at box ", number, held, sink)
}

/// Says why.
pub(crate) fn put_why<L: Sink>(why: Why, held: &mut Held, sink: &mut L) -> Result<(), SinkFailed>
    ensures ok { OnOk result (Says (L.taken sink.old) held.old.items (L.taken sink.new) held.new.items (why_text why)) }
    ensures err { OnErr result (Fails (L.taken sink.old) held.old.items (L.taken sink.new) (why_text why)) }
    ensures cause { HasCause (L.faults sink.old) (L.faults sink.new) result }
{
    match why {
        Why::NothingToUndo => put(b"nothing to undo", held, sink),
        Why::NothingToRedo => put(b"nothing to redo", held, sink),
        Why::NoDocument => put(b"no document", held, sink),
        Why::NoCanvas => put(b"no canvas", held, sink),
        Why::NoBox { number } => put_numbered(b"no box ", number, held, sink),
        Why::NoPort {
            number,
            port,
            outlet,
        } => put_no_port(number, port, outlet, held, sink),
        Why::NoWire => put(b"no wire", held, sink),
        Why::SignalIntoControl => put(b"signal into control", held, sink),
        Why::TextTooLong => put(b"text too long", held, sink),
        Why::TooDeep => put(b"too deep", held, sink),
        Why::ShelfFault => put(b"shelf fault", held, sink),
        Why::SymbolsFull => put(b"too many symbols", held, sink),
        Why::TooManyBoxes => put(b"too many boxes", held, sink),
        Why::TooManyWires => put(b"too many wires", held, sink),
        Why::TooMuchSound => put(b"too much sound", held, sink),
        Why::NoMemory => put(b"out of memory", held, sink),
    }
}
