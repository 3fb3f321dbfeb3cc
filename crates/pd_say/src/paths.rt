//! Numbers of boxes, and where a canvas is.
ghost use Rattle.std.specs.Prelude.{◌≡◌, ◌++◌, ◌∷◌, [], OnOk, OnErr, decimal};
ghost use Rattle.pd_say.specs.Gathering.{Says, Fails, HasCause};
ghost use Rattle.pd_say.specs.Paths.{after_mark, marked, path_text, document_text, place_text, DocumentOf};

use crate::atoms::put_pair;
use crate::gathering::{Held, put};
use itoa::Buffer;
use pd_atom::{Sym, Symbols};
use pd_io::{Sink, SinkFailed};

/// Where a canvas is: the name of its draft, none in the running patch, and the path of box numbers from the root canvas.
#[derive(Clone, Copy, Debug, PartialEq, Eq)]
pub struct CanvasPath<'a> {
    pub document: Option<Sym>,
    pub path: &'a [u32],
}

/// Says a number and a mark before it.
fn put_marked_number<L: Sink>(
    mark: u8,
    number: u32,
    held: &mut Held,
    sink: &mut L,
) -> Result<(), SinkFailed>
    ensures ok { OnOk result (Says (L.taken sink.old) held.old.items (L.taken sink.new) held.new.items (after_mark mark number)) }
    ensures err { OnErr result (Fails (L.taken sink.old) held.old.items (L.taken sink.new) (after_mark mark number)) }
    ensures cause { HasCause (L.faults sink.old) (L.faults sink.new) result }
{
    put_pair(&[mark], Buffer::new().format(number).as_bytes(), held, sink)
}

/// Says numbers, a mark before each.
pub(crate) fn put_marked<L: Sink>(
    mark: u8,
    numbers: &[u32],
    held: &mut Held,
    sink: &mut L,
) -> Result<(), SinkFailed>
    ensures ok { OnOk result (Says (L.taken sink.old) held.old.items (L.taken sink.new) held.new.items (marked mark numbers.now)) }
    ensures err { OnErr result (Fails (L.taken sink.old) held.old.items (L.taken sink.new) (marked mark numbers.now)) }
    ensures cause { HasCause (L.faults sink.old) (L.faults sink.new) result }
{
    for number in numbers {
        put_marked_number(mark, *number, held, sink)?;
    }
    Ok(())
}

/// Says a path.
fn put_path<L: Sink>(path: &[u32], held: &mut Held, sink: &mut L) -> Result<(), SinkFailed>
    ensures ok { OnOk result (Says (L.taken sink.old) held.old.items (L.taken sink.new) held.new.items (path_text path.now)) }
    ensures err { OnErr result (Fails (L.taken sink.old) held.old.items (L.taken sink.new) (path_text path.now)) }
    ensures cause { HasCause (L.faults sink.old) (L.faults sink.new) result }
{
    match path {
        [] => put(b"/", held, sink),
        _ => put_marked(b'/', path, held, sink),
    }
}

/// Says the name of a draft.
fn put_document<L: Sink>(
    document: Option<Sym>,
    symbols: &Symbols,
    held: &mut Held,
    sink: &mut L,
) -> Result<(), SinkFailed>
    requires { DocumentOf symbols.now document }
    ensures ok { OnOk result (Says (L.taken sink.old) held.old.items (L.taken sink.new) held.new.items (document_text symbols.now document)) }
    ensures err { OnErr result (Fails (L.taken sink.old) held.old.items (L.taken sink.new) (document_text symbols.now document)) }
    ensures cause { HasCause (L.faults sink.old) (L.faults sink.new) result }
{
    match document {
        None => Ok(()),
        Some(name) => put_pair(symbols.name(name), b" ", held, sink),
    }
}

/// Says where a canvas is.
pub(crate) fn put_canvas<L: Sink>(
    document: Option<Sym>,
    path: &[u32],
    symbols: &Symbols,
    held: &mut Held,
    sink: &mut L,
) -> Result<(), SinkFailed>
    requires { DocumentOf symbols.now document }
    ensures ok { OnOk result (Says (L.taken sink.old) held.old.items (L.taken sink.new) held.new.items (place_text symbols.now document path.now)) }
    ensures err { OnErr result (Fails (L.taken sink.old) held.old.items (L.taken sink.new) (place_text symbols.now document path.now)) }
    ensures cause { HasCause (L.faults sink.old) (L.faults sink.new) result }
{
    put_document(document, symbols, held, sink)?;
    put_path(path, held, sink)
}
