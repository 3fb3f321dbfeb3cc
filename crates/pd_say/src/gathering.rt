//! Lines, gathered from short pieces without taking memory and handed on in large ones.
ghost use Rattle.std.specs.Prelude.{◌≡◌, [], OnOk, OnErr};
ghost use Rattle.pd_io.specs.Stream.{grown, TookPart};
ghost use Rattle.pd_say.specs.Gathering.{Says, Fails, HasCause};

use arrayvec::ArrayVec;
use pd_io::{Sink, SinkFailed, write_whole};

/// How many bytes are held back at the most.
const ROOM: usize = 4096;

/// The bytes of a line that the sink hasn't yet taken.
pub type Held = ArrayVec<u8, ROOM>;

/// Hands on all that is held.
pub fn flush<L: Sink>(held: &mut Held, sink: &mut L) -> Result<(), SinkFailed>
    ensures ok { OnOk result (L.taken sink.new ≡ grown (L.taken sink.old) held.old.items) }
    ensures empty { OnOk result (held.new.items ≡ []) }
    ensures err { OnErr result (TookPart (L.taken sink.old) (L.taken sink.new) held.old.items) }
    ensures cause { HasCause (L.faults sink.old) (L.faults sink.new) result }
{
    write_whole(sink, held)?;
    held.clear();
    Ok(())
}

/// Says a piece.
pub fn put<L: Sink>(piece: &[u8], held: &mut Held, sink: &mut L) -> Result<(), SinkFailed>
    ensures ok { OnOk result (Says (L.taken sink.old) held.old.items (L.taken sink.new) held.new.items piece.now) }
    ensures err { OnErr result (Fails (L.taken sink.old) held.old.items (L.taken sink.new) piece.now) }
    ensures cause { HasCause (L.faults sink.old) (L.faults sink.new) result }
{
    if piece.len() > held.remaining_capacity() {
        flush(held, sink)?;
        return write_whole(sink, piece);
    }
    held.try_extend_from_slice(piece).unwrap();
    Ok(())
}
