//! Lines of the walk. What they name is of the table; that is looked at here, since no clause says it yet.

ghost use Rattle.std.specs.Prelude.{◌≡◌, ◌<◌, true, length, Some, OnOk, OnErr};
ghost use Rattle.pd_say.specs.Gathering.{Says, Fails, HasCause};
ghost use Rattle.pd_say.specs.Lines.{LineOf, notice_line};
ghost use Rattle.pd_hearing.specs.Guards.{is_known as is_known_line};
ghost use Rattle.pd_walk.specs.Acts.{notice_text, notices_text, words_printed, overflow_text, cut_line, full_text, canvas_text};

use pd_atom::{Atom, Sym, Symbols};
use pd_hearing::{are_known, is_known, is_name};
use pd_io::{Sink, SinkFailed};
use pd_kind::{Message, Notice};
use pd_say::{Held, Line, say, say_notice};

/// Whether what a notice names is of the table.
fn is_known_notice(symbols: &Symbols, notice: &Notice) -> bool
    ensures line { result ≡ true → LineOf symbols.now (notice_line notice.now) }
    ensures value { result ≡ is_known_line symbols.now notice.now }
{
    match notice {
        Notice::NoMethod { selector, .. } => is_name(symbols, *selector),
        Notice::NoReceiver { name } => is_known(symbols, name),
        _ => true,
    }
}

/// Says what a hearing noticed.
fn print_notice<L: Sink>(
    notice: &Notice,
    symbols: &Symbols,
    held: &mut Held,
    lines: &mut L,
) -> Result<(), SinkFailed>
    ensures ok { OnOk result (Says (L.taken lines.old) held.old.items (L.taken lines.new) held.new.items (notice_text symbols.now notice.now)) }
    ensures err { OnErr result (Fails (L.taken lines.old) held.old.items (L.taken lines.new) (notice_text symbols.now notice.now)) }
    ensures cause { HasCause (L.faults lines.old) (L.faults lines.new) result }
{
    if !is_known_notice(symbols, notice) {
        return Ok(());
    }
    say_notice(*notice, symbols, held, lines)
}

/// Says all that a hearing noticed, in order.
pub(crate) fn print_notices<L: Sink>(
    notices: &[Notice],
    symbols: &Symbols,
    held: &mut Held,
    lines: &mut L,
) -> Result<(), SinkFailed>
    ensures ok { OnOk result (Says (L.taken lines.old) held.old.items (L.taken lines.new) held.new.items (notices_text symbols.now notices.now)) }
    ensures err { OnErr result (Fails (L.taken lines.old) held.old.items (L.taken lines.new) (notices_text symbols.now notices.now)) }
    ensures cause { HasCause (L.faults lines.old) (L.faults lines.new) result }
{
    for notice in notices {
        print_notice(notice, symbols, held, lines)?;
    }
    Ok(())
}

/// Says the line of a print with these words.
#[tactic(auto, unfolding(pd_say::specs::Lines::text_of))]
pub(crate) fn print_message<L: Sink>(
    words: &[Atom],
    selector: Sym,
    atoms: &[Atom],
    symbols: &Symbols,
    held: &mut Held,
    lines: &mut L,
) -> Result<(), SinkFailed>
    ensures ok { OnOk result (Says (L.taken lines.old) held.old.items (L.taken lines.new) held.new.items (words_printed symbols.now selector atoms.now (Some words.now))) }
    ensures err { OnErr result (Fails (L.taken lines.old) held.old.items (L.taken lines.new) (words_printed symbols.now selector atoms.now (Some words.now))) }
    ensures cause { HasCause (L.faults lines.old) (L.faults lines.new) result }
{
    if !is_name(symbols, selector) || !are_known(symbols, atoms) || !are_known(symbols, words) {
        return Ok(());
    }
    let line = Line::Print {
        words,
        message: Message { selector, atoms },
    };
    say(&line, symbols, held, lines)
}

/// Says that a delivery would go too deep.
#[tactic(auto, unfolding(pd_say::specs::Lines::text_of))]
pub(crate) fn print_overflow<L: Sink>(
    symbols: &Symbols,
    held: &mut Held,
    lines: &mut L,
) -> Result<(), SinkFailed>
    ensures ok { OnOk result (Says (L.taken lines.old) held.old.items (L.taken lines.new) held.new.items (overflow_text true)) }
    ensures err { OnErr result (Fails (L.taken lines.old) held.old.items (L.taken lines.new) (overflow_text true)) }
    ensures cause { HasCause (L.faults lines.old) (L.faults lines.new) result }
{
    say(&Line::StackOverflow, symbols, held, lines)
}

/// Says that the event is cut.
#[tactic(auto, unfolding(pd_say::specs::Lines::text_of))]
pub(crate) fn print_cut<L: Sink>(
    symbols: &Symbols,
    held: &mut Held,
    lines: &mut L,
) -> Result<(), SinkFailed>
    ensures ok { OnOk result (Says (L.taken lines.old) held.old.items (L.taken lines.new) held.new.items (cut_line)) }
    ensures err { OnErr result (Fails (L.taken lines.old) held.old.items (L.taken lines.new) (cut_line)) }
    ensures cause { HasCause (L.faults lines.old) (L.faults lines.new) result }
{
    say(&Line::EventCut, symbols, held, lines)
}

/// Says that no more edits can be asked for in the event.
#[tactic(auto, unfolding(pd_say::specs::Lines::text_of))]
pub(crate) fn print_full<L: Sink>(
    symbols: &Symbols,
    held: &mut Held,
    lines: &mut L,
) -> Result<(), SinkFailed>
    ensures ok { OnOk result (Says (L.taken lines.old) held.old.items (L.taken lines.new) held.new.items (full_text)) }
    ensures err { OnErr result (Fails (L.taken lines.old) held.old.items (L.taken lines.new) (full_text)) }
    ensures cause { HasCause (L.faults lines.old) (L.faults lines.new) result }
{
    say(&Line::QueueFull, symbols, held, lines)
}

/// Says that a canvas has no method for a selector, or that its arguments are bad.
#[tactic(auto, unfolding(pd_say::specs::Lines::text_of))]
pub(crate) fn print_canvas<L: Sink>(
    selector: Sym,
    is_verb: bool,
    symbols: &Symbols,
    held: &mut Held,
    lines: &mut L,
) -> Result<(), SinkFailed>
    ensures ok { OnOk result (Says (L.taken lines.old) held.old.items (L.taken lines.new) held.new.items (canvas_text symbols.now selector is_verb)) }
    ensures err { OnErr result (Fails (L.taken lines.old) held.old.items (L.taken lines.new) (canvas_text symbols.now selector is_verb)) }
    ensures cause { HasCause (L.faults lines.old) (L.faults lines.new) result }
{
    if !is_name(symbols, selector) {
        return Ok(());
    }
    if is_verb {
        return say(&Line::BadArguments { selector }, symbols, held, lines);
    }
    say(&Line::NoCanvasMethod { selector }, symbols, held, lines)
}
