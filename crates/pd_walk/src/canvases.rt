//! What a canvas does with a message that comes to its name.

ghost use Rattle.std.specs.Prelude.{◌≡◌, ◌≤◌, ◌&&◌, true, length, Some, OnOk, OnErr};
ghost use Rattle.pd_say.specs.Gathering.{Says, Fails, HasCause};
ghost use Rattle.pd_hearing.specs.Worlds.{net_of};
ghost use Rattle.pd_walk.specs.Acts.{verb_in as verb_named_in, queue_with, asked_text, answer_text, is_near};
ghost use Rattle.pd_hearing.specs.Guards.{is_few};

use crate::printing::{print_canvas, print_full};
use pd_atom::{Atom, Sym, Symbols};
use pd_hearing::is_name;
use pd_io::{Sink, SinkFailed};
use pd_patch::Patch;
use pd_queue::{Asked, EditQueue, Verb, verb_of};
use pd_say::Held;

/// The most atoms of a message.
const MOST_ATOMS: usize = 1024;

/// The most numbers of a path.
const MOST_NUMBERS: usize = 255;

/// A canvas hears a message: a verb with its arguments asks for an edit.
pub(crate) fn ask_canvas<L: Sink>(
    patch: &Patch,
    canvas: u32,
    selector: Sym,
    atoms: &[Atom],
    queue: &mut EditQueue,
    symbols: &Symbols,
    held: &mut Held,
    lines: &mut L,
) -> Result<(), SinkFailed>
    ensures queue { queue.new ≡ queue_with (net_of patch.now) canvas atoms.now queue.old (verb_named_in symbols.now selector) }
    ensures ok { OnOk result (Says (L.taken lines.old) held.old.items (L.taken lines.new) held.new.items (asked_text (net_of patch.now) canvas selector atoms.now symbols.now queue.old (verb_named_in symbols.now selector))) }
    ensures err { OnErr result (Fails (L.taken lines.old) held.old.items (L.taken lines.new) (asked_text (net_of patch.now) canvas selector atoms.now symbols.now queue.old (verb_named_in symbols.now selector))) }
    ensures cause { HasCause (L.faults lines.old) (L.faults lines.new) result }
{
    match verb_in(selector, symbols) {
        Some(verb) => ask_edit(
            patch, canvas, verb, selector, atoms, queue, symbols, held, lines,
        ),
        None => print_canvas(selector, false, symbols, held, lines),
    }
}

fn verb_in(selector: Sym, symbols: &Symbols) -> Option<Verb>
    ensures { result ≡ verb_named_in symbols.now selector }
{
    if is_name(symbols, selector) {
        verb_of(selector, symbols)
    } else {
        None
    }
}

fn ask_edit<L: Sink>(
    patch: &Patch,
    canvas: u32,
    verb: Verb,
    selector: Sym,
    atoms: &[Atom],
    queue: &mut EditQueue,
    symbols: &Symbols,
    held: &mut Held,
    lines: &mut L,
) -> Result<(), SinkFailed>
    ensures queue { queue.new ≡ queue_with (net_of patch.now) canvas atoms.now queue.old (Some verb) }
    ensures ok { OnOk result (Says (L.taken lines.old) held.old.items (L.taken lines.new) held.new.items (asked_text (net_of patch.now) canvas selector atoms.now symbols.now queue.old (Some verb))) }
    ensures err { OnErr result (Fails (L.taken lines.old) held.old.items (L.taken lines.new) (asked_text (net_of patch.now) canvas selector atoms.now symbols.now queue.old (Some verb))) }
    ensures cause { HasCause (L.faults lines.old) (L.faults lines.new) result }
{
    let path = patch.path_of(canvas);
    let path = path.as_slice();
    if !is_in_reach(atoms, path) {
        return Ok(());
    }
    let answer = queue.ask(verb, atoms, path);
    print_answer(answer, selector, symbols, held, lines)
}

/// Says what is answered.
fn print_answer<L: Sink>(
    answer: Asked,
    selector: Sym,
    symbols: &Symbols,
    held: &mut Held,
    lines: &mut L,
) -> Result<(), SinkFailed>
    ensures ok { OnOk result (Says (L.taken lines.old) held.old.items (L.taken lines.new) held.new.items (answer_text symbols.now selector answer)) }
    ensures err { OnErr result (Fails (L.taken lines.old) held.old.items (L.taken lines.new) (answer_text symbols.now selector answer)) }
    ensures cause { HasCause (L.faults lines.old) (L.faults lines.new) result }
{
    match answer {
        Asked::Queued => Ok(()),
        Asked::BadArguments => print_canvas(selector, true, symbols, held, lines),
        Asked::Full => print_full(symbols, held, lines),
    }
}

/// Whether an edit with these atoms can wait for the canvas at a path.
fn is_in_reach(atoms: &[Atom], path: &[u32]) -> bool
    ensures value { result ≡ (is_few atoms.now && is_near path.now) }
    ensures few { result ≡ true → length atoms.now ≤ 1024 }
    ensures near { result ≡ true → length path.now ≤ 255 }
{
    atoms.len() <= MOST_ATOMS && path.len() <= MOST_NUMBERS
}
