//! One line after another.

ghost use Rattle.std.specs.Prelude.{◌≡◌, ◌≤◌, OnOk, OnErr};
ghost use Rattle.pd_io.specs.Stream.{grown, TookPart};
ghost use Rattle.pd_say.specs.Gathering.{HasCause};
ghost use Rattle.pd_say.specs.Lines.{text_of, refusal_text, LineOf};

use pd_atom::Symbols;
use pd_io::{Sink, SinkFailed};
use pd_say::{Held, Line, Request, Why, flush, say};

/// Prints a line.
pub(crate) fn print<L: Sink>(
    line: &Line<'_>,
    symbols: &Symbols,
    held: &mut Held,
    lines: &mut L,
) -> Result<(), SinkFailed>
    requires { LineOf symbols.now line.now }
    ensures ok { OnOk result (L.taken lines.new ≡ grown (L.taken lines.old) (text_of symbols.now line.now)) }
    ensures err { OnErr result (TookPart (L.taken lines.old) (L.taken lines.new) (text_of symbols.now line.now)) }
    ensures cause { HasCause (L.faults lines.old) (L.faults lines.new) result }
{
    held.clear();
    say(line, symbols, held, lines)?;
    flush(held, lines)
}

/// Prints that what was asked for isn't done.
#[tactic(auto, unfolding(pd_say::specs::Lines::text_of))]
pub(crate) fn print_refusal<L: Sink>(
    request: Request,
    why: Why,
    symbols: &Symbols,
    held: &mut Held,
    lines: &mut L,
) -> Result<(), SinkFailed>
    ensures ok { OnOk result (L.taken lines.new ≡ grown (L.taken lines.old) (refusal_text request why)) }
    ensures err { OnErr result (TookPart (L.taken lines.old) (L.taken lines.new) (refusal_text request why)) }
    ensures cause { HasCause (L.faults lines.old) (L.faults lines.new) result }
{
    print(&Line::Refused { request, why }, symbols, held, lines)
}
