//! What a task does.

ghost use Rattle.std.specs.Prelude.{◌≡◌, ◌≤◌, ◌+◌, ◌*◌, ◌++◌, ◌||◌, [], ℕ, Bool, true, false, List, length, map, Some, OnOk, OnErr, if◌then◌else◌};
ghost use Rattle.pd_say.specs.Gathering.{Says, Fails, HasCause};
ghost use Rattle.pd_atom.specs.Names.{Extends};
ghost use Rattle.pd_atom.specs.Atoms.{IsOf};
ghost use Rattle.pd_queue.specs.Queue.{Waiting};
ghost use Rattle.std.specs.List.{flat_map};
ghost use Rattle.std.specs.Prelude.{slice_range, ◌<◌};
ghost use Rattle.pd_kind.specs.Rows.{are_within, send_of};
ghost use Rattle.pd_kind.specs.Said.{said_by};
ghost use Rattle.pd_grove.specs.Telling.{kind_in};
ghost use Rattle.std.specs.Option.{option_copied};
ghost use Rattle.pd_hearing.specs.Worlds.{net_of, kept_of, states_of};
ghost use Rattle.pd_hearing.specs.Hearing.{heard_at as reply_at, resumed_at as reply_again};
ghost use Rattle.pd_stack.specs.Tasks.{Task as Doing, leads_out as leads_nowhere, sent, again_after};
ghost use Rattle.pd_walk.specs.Acts.{kept_after, said_at, caused, asked_for, is_too_deep, overflow_text, printed, is_print as is_print_of, print_words as words_of, is_again as is_again_of, has_some, kept_by, said_by_box};
ghost use Rattle.pd_walk.specs.Outcome.{StatesStay};
ghost use Rattle.pd_stack.specs.Piles.{IsPiled, LeftOn};
ghost use Rattle.pd_stack.specs.Turns.{told, IsDue};

use crate::canvases::ask_canvas;
use crate::printing::{print_message, print_notices, print_overflow};
use pd_atom::{Atom, Sym, Symbols};
use pd_clock::Time;
use pd_hearing::{do_deed, hear_at, resume_at};
use pd_io::{Sink, SinkFailed};
use pd_kind::{Deed, Glue, Kind, SendRow, Sends};
use pd_patch::Patch;
use pd_queue::EditQueue;
use pd_say::Held;
use pd_stack::{Place, Stack, Task, leads_out, push_all};

/// A delivery at this depth sends nothing.
pub(crate) const DEEPEST: u32 = 1000;

/// Does one task.
#[tactic(auto, unfolding(crate::specs::Acts::kept_after, crate::specs::Acts::said_at, crate::specs::Acts::caused))]
pub(crate) fn perform<L: Sink>(
    patch: &mut Patch,
    stack: &mut Stack,
    sends: &mut Sends,
    symbols: &mut Symbols,
    now: Time,
    queue: &mut EditQueue,
    held: &mut Held,
    lines: &mut L,
    task: &Task,
) -> Result<(), SinkFailed>
    requires piled { IsPiled stack.old }
    requires due { IsDue stack.old task.now }
    ensures kept { OnOk result (kept_of patch.new symbols.new queue.new ≡ kept_after (net_of patch.old) now (kept_of patch.old symbols.old queue.old) (told stack.old.atoms task.now)) }
    ensures net { net_of patch.new ≡ net_of patch.old }
    ensures states { StatesStay (states_of patch.old) (states_of patch.new) }
    ensures extends { Extends symbols.old symbols.new }
    ensures ok { OnOk result (Says (L.taken lines.old) held.old.items (L.taken lines.new) held.new.items (said_at (net_of patch.old) now (kept_of patch.old symbols.old queue.old) (told stack.old.atoms task.now))) }
    ensures err { OnErr result (Fails (L.taken lines.old) held.old.items (L.taken lines.new) (said_at (net_of patch.old) now (kept_of patch.old symbols.old queue.old) (told stack.old.atoms task.now))) }
    ensures left { (tasks : List Doing) → LeftOn (net_of patch.old) stack.old tasks → OnOk result (
        LeftOn (net_of patch.old) stack.new (caused (net_of patch.old) now (kept_of patch.old symbols.old queue.old) (told stack.old.atoms task.now) ++ tasks)) }
    ensures piled { OnOk result (IsPiled stack.new) }
    ensures cause { HasCause (L.faults lines.old) (L.faults lines.new) result }
{
    match task.place {
        Place::Inlet { node, inlet } => deliver_at(
            patch, stack, sends, symbols, now, held, lines, node, inlet, task,
        ),
        Place::Canvas { canvas } => {
            let atoms = stack.atoms(task.first, task.after);
            ask_canvas(
                patch,
                canvas,
                task.selector,
                atoms,
                queue,
                symbols,
                held,
                lines,
            )
        }
        Place::Again { node } => resume(
            patch, stack, sends, symbols, now, held, lines, node, task.depth,
        ),
    }
}

/// A message comes to a box: the box changes, its notices and its line are said, what it asks for is done, and its sends go on the
/// stack.
fn deliver_at<L: Sink>(
    patch: &mut Patch,
    stack: &mut Stack,
    sends: &mut Sends,
    symbols: &mut Symbols,
    now: Time,
    held: &mut Held,
    lines: &mut L,
    node: u32,
    inlet: u32,
    task: &Task,
) -> Result<(), SinkFailed>
    requires piled { IsPiled stack.old }
    requires due { IsDue stack.old task.now }
    ensures kept { (queue : Waiting) → OnOk result (kept_of patch.new symbols.new queue ≡ kept_by (net_of patch.old) now node (kept_of patch.old symbols.old queue)
        (reply_at (net_of patch.old) now (states_of patch.old) symbols.old node inlet task.now.selector (slice_range stack.old.atoms task.now.first task.now.after))) }
    ensures net { net_of patch.new ≡ net_of patch.old }
    ensures states { StatesStay (states_of patch.old) (states_of patch.new) }
    ensures extends { Extends symbols.old symbols.new }
    ensures ok { OnOk result (Says (L.taken lines.old) held.old.items (L.taken lines.new) held.new.items
        (said_by_box (net_of patch.old) task.now.depth node task.now.selector (slice_range stack.old.atoms task.now.first task.now.after)
        (reply_at (net_of patch.old) now (states_of patch.old) symbols.old node inlet task.now.selector (slice_range stack.old.atoms task.now.first task.now.after)))) }
    ensures err { OnErr result (Fails (L.taken lines.old) held.old.items (L.taken lines.new)
        (said_by_box (net_of patch.old) task.now.depth node task.now.selector (slice_range stack.old.atoms task.now.first task.now.after)
        (reply_at (net_of patch.old) now (states_of patch.old) symbols.old node inlet task.now.selector (slice_range stack.old.atoms task.now.first task.now.after)))) }
    ensures left { (tasks : List Doing) → LeftOn (net_of patch.old) stack.old tasks → OnOk result (
        LeftOn (net_of patch.old) stack.new (asked_for (net_of patch.old) task.now.depth node
        (reply_at (net_of patch.old) now (states_of patch.old) symbols.old node inlet task.now.selector (slice_range stack.old.atoms task.now.first task.now.after)).said ++ tasks)) }
    ensures piled { OnOk result (IsPiled stack.new) }
    ensures cause { HasCause (L.faults lines.old) (L.faults lines.new) result }
{
    let atoms = stack.atoms(task.first, task.after);
    hear_at(
        patch,
        node,
        inlet,
        task.selector,
        atoms,
        now,
        symbols,
        sends,
    );
    print_notices(sends.notices.as_slice(), symbols, held, lines)?;
    print_at(
        patch,
        node,
        sends.deed,
        task.selector,
        atoms,
        symbols,
        held,
        lines,
    )?;
    do_deed(patch, node, sends.deed, now);
    push_sends(patch, node, task.depth, stack, sends, symbols, held, lines)
}

/// A box is resumed, and its sends go on the stack.
fn resume<L: Sink>(
    patch: &mut Patch,
    stack: &mut Stack,
    sends: &mut Sends,
    symbols: &Symbols,
    now: Time,
    held: &mut Held,
    lines: &mut L,
    node: u32,
    depth: u32,
) -> Result<(), SinkFailed>
    requires piled { IsPiled stack.old }
    requires depth { depth ≤ 1000 }
    requires room { length stack.old.pendings ≤ 1025 * depth }
    requires atoms { length stack.old.atoms ≤ 2048 * depth }
    ensures kept { (queue : Waiting) → OnOk result (kept_of patch.new symbols.now queue ≡ kept_by (net_of patch.old) now node (kept_of patch.old symbols.now queue)
        (reply_again (net_of patch.old) (states_of patch.old) symbols.now node)) }
    ensures net { net_of patch.new ≡ net_of patch.old }
    ensures states { StatesStay (states_of patch.old) (states_of patch.new) }
    ensures ok { OnOk result (Says (L.taken lines.old) held.old.items (L.taken lines.new) held.new.items
        (overflow_text (is_too_deep (net_of patch.old) depth node (reply_again (net_of patch.old) (states_of patch.old) symbols.now node).said))) }
    ensures err { OnErr result (Fails (L.taken lines.old) held.old.items (L.taken lines.new)
        (overflow_text (is_too_deep (net_of patch.old) depth node (reply_again (net_of patch.old) (states_of patch.old) symbols.now node).said))) }
    ensures left { (tasks : List Doing) → LeftOn (net_of patch.old) stack.old tasks → OnOk result (
        LeftOn (net_of patch.old) stack.new (asked_for (net_of patch.old) depth node (reply_again (net_of patch.old) (states_of patch.old) symbols.now node).said ++ tasks)) }
    ensures piled { OnOk result (IsPiled stack.new) }
    ensures cause { HasCause (L.faults lines.old) (L.faults lines.new) result }
{
    resume_at(patch, node, sends);
    do_deed(patch, node, sends.deed, now);
    push_sends(patch, node, depth, stack, sends, symbols, held, lines)
}

/// Says the line of a print, where the box is one.
fn print_at<L: Sink>(
    patch: &Patch,
    node: u32,
    deed: Deed,
    selector: Sym,
    atoms: &[Atom],
    symbols: &Symbols,
    held: &mut Held,
    lines: &mut L,
) -> Result<(), SinkFailed>
    ensures ok { OnOk result (Says (L.taken lines.old) held.old.items (L.taken lines.new) held.new.items (printed (net_of patch.now) symbols.now node deed selector atoms.now)) }
    ensures err { OnErr result (Fails (L.taken lines.old) held.old.items (L.taken lines.new) (printed (net_of patch.now) symbols.now node deed selector atoms.now)) }
    ensures cause { HasCause (L.faults lines.old) (L.faults lines.new) result }
{
    if !is_print(deed) {
        return Ok(());
    }
    match print_words(patch, node) {
        Some(words) => print_message(words, selector, atoms, symbols, held, lines),
        None => Ok(()),
    }
}

fn is_print(deed: Deed) -> bool
    ensures { result ≡ is_print_of deed }
{
    matches!(deed, Deed::Print)
}

/// The arguments of a `print`.
fn print_words(patch: &Patch, node: u32) -> Option<&[Atom]>
    ensures { option_copied result ≡ words_of (kind_in ((net_of patch.now).nodes node)) }
{
    match &patch.node(node)?.kind {
        Kind::Glue(Glue::Print { words }) => Some(words.as_slice()),
        _ => None,
    }
}

fn is_again(deed: Deed) -> bool
    ensures { result ≡ is_again_of deed }
{
    matches!(deed, Deed::Again)
}

/// The sends of a box that lead somewhere.
fn rows_of<'a>(patch: &Patch, node: u32, sends: &'a Sends) -> &'a [SendRow]
    ensures rows { result.now ≡ (if leads_nowhere (net_of patch.now) node then [] else sends.now.rows) }
    ensures within { are_within (length sends.now.atoms) result.now ≡ true }
    ensures few { length result.now ≤ 1024 }
{
    sends.rows.is_few();
    if leads_out(patch, node) {
        return &[];
    }
    sends.rows.as_slice()
}

/// Whether a box asks for something.
#[tactic(auto, using(crate::proofs::ActLemmas::some_length))]
fn asks(rows: &[SendRow], is_again: bool) -> bool
    ensures { result ≡ (is_again || has_some rows.now) }
{
    is_again || !rows.is_empty()
}

/// The atoms of the sends of a box.
fn atoms_of(sends: &Sends) -> &[Atom]
    ensures atoms { result.now ≡ sends.now.atoms }
    ensures few { length result.now ≤ 2048 }
{
    sends.atoms.is_few();
    sends.atoms.as_slice()
}

/// Puts the sends of a box on the stack, the first on top, and below them that it is resumed, where it asks for that. At the
/// greatest depth it says so and puts nothing.
pub(crate) fn push_sends<L: Sink>(
    patch: &Patch,
    node: u32,
    depth: u32,
    stack: &mut Stack,
    sends: &Sends,
    symbols: &Symbols,
    held: &mut Held,
    lines: &mut L,
) -> Result<(), SinkFailed>
    requires piled { IsPiled stack.old }
    requires depth { depth ≤ 1000 }
    requires room { length stack.old.pendings ≤ 1025 * depth }
    requires atoms { length stack.old.atoms ≤ 2048 * depth }
    ensures ok { OnOk result (Says (L.taken lines.old) held.old.items (L.taken lines.new) held.new.items (overflow_text (is_too_deep (net_of patch.now) depth node (said_by sends.now)))) }
    ensures err { OnErr result (Fails (L.taken lines.old) held.old.items (L.taken lines.new) (overflow_text (is_too_deep (net_of patch.now) depth node (said_by sends.now)))) }
    ensures left { (tasks : List Doing) → LeftOn (net_of patch.now) stack.old tasks → OnOk result (
        LeftOn (net_of patch.now) stack.new (asked_for (net_of patch.now) depth node (said_by sends.now) ++ tasks)) }
    ensures piled { OnOk result (IsPiled stack.new) }
    ensures cause { HasCause (L.faults lines.old) (L.faults lines.new) result }
{
    let is_again = is_again(sends.deed);
    let rows = rows_of(patch, node, sends);
    if !asks(rows, is_again) {
        return Ok(());
    }
    if depth >= DEEPEST {
        return print_overflow(symbols, held, lines);
    }
    let atoms = atoms_of(sends);
    push_all(patch, node, depth, stack, rows, atoms, is_again);
    Ok(())
}
