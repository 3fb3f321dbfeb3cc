//! The walk of an event's deliveries.

ghost use Rattle.std.specs.Prelude.{◌≡◌, ℕ, List, [], Option, false, OnOk, OnErr, IfOk};
ghost use Rattle.pd_atom.specs.Names.{Extends};
ghost use Rattle.pd_io.specs.Stream.{TookPart};
ghost use Rattle.pd_say.specs.Gathering.{Says, Fails, IsSaid, HasCause};
ghost use Rattle.pd_kind.specs.Said.{said_by};
ghost use Rattle.pd_turns.specs.Turns.{World};
ghost use Rattle.pd_hearing.specs.Worlds.{Kept, net_of, kept_of, states_of};
ghost use Rattle.pd_hearing.specs.Hearing.{fired_at, loaded_at};
ghost use Rattle.pd_hearing.specs.Deeds.{done};
ghost use Rattle.pd_stack.specs.Tasks.{Task as Doing};
ghost use Rattle.pd_walk.specs.Acts.{asked_for};
ghost use Rattle.pd_stack.specs.Piles.{IsPiled, LeftOn};
ghost use Rattle.pd_walk.specs.Ways.{IsUnderWay, IsDone};
ghost use Rattle.pd_walk.specs.Outcome.{world, outcome, told_by, all_loaded, named_tasks, ran, IsLeft, StatesStay};

use crate::acting::{perform, push_sends};
use crate::printing::print_cut;
use crate::relay::relay_task;
use crate::routes::no_routes;
use pd_atom::{Atom, Sym, Symbols};
use pd_clock::Time;
use pd_hearing::{do_deed, fire_at, load_at};
use pd_io::{Sink, SinkFailed};
use pd_kind::{Message, Sends};
use pd_patch::Patch;
use pd_queue::EditQueue;
use pd_say::{Held, flush};
use pd_stack::{Cursor, Frame, Stack, next_task};
use std::alloc::{AllocError, Global};

/// The most atoms of a message.
const MOST: usize = 1024;

/// How many deliveries an event has left, and whether it was cut.
#[derive(Clone, Copy, Debug, PartialEq, Eq)]
pub struct Budget {
    pub left: u32,
    pub cut: bool,
}

impl Budget {
    /// That of an event that begins.
    pub fn new() -> Budget
        ensures { result ≡ record { left = 1000000; cut = false } }
    {
        Budget {
            left: 1_000_000,
            cut: false,
        }
    }
}

/// What begins deliveries.
#[derive(Clone, Copy)]
pub enum Start<'a> {
    /// A message to the receivers of a name.
    Name { name: Sym, message: Message<'a> },
    /// The clock of a box fires.
    Clock { owner: u32 },
    /// Boxes are loaded, one after the other.
    Loads { boxes: &'a [u32] },
}

/// The stacks of deliveries, with all the room that they ever need.
#[derive(Drop)]
pub struct Walker {
    stack: Stack,
    sends: Sends,
    held: Held,
}

impl Walker {
    /// Reserves the room of the stacks, some 80 MB, which isn't touched before it is used.
    ///
    /// # Errors
    ///
    /// `AllocError` where memory ran out.
    pub fn new(alloc: Global) -> Result<Walker, AllocError> {
        Ok(Walker {
            stack: Stack::new(alloc)?,
            sends: Sends::new(alloc)?,
            held: Held::new(),
        })
    }

    /// Delivers what an event begins, depth first: each delivery and all that it causes is done before the next. Deliveries that
    /// the event itself makes have depth 1. It takes no memory.
    ///
    /// # Errors
    ///
    /// `SinkFailed` where the lines weren't taken. Every box then has its state.
    pub fn deliver<L: Sink>(
        &mut self,
        patch: &mut Patch,
        symbols: &mut Symbols,
        start: &Start<'_>,
        now: Time,
        budget: &mut Budget,
        queue: &mut EditQueue,
        lines: &mut L,
    ) -> Result<(), SinkFailed>
        ensures ok { OnOk result (IsLeft (kept_of patch.new symbols.new queue.new) budget.new (L.taken lines.old) (L.taken lines.new)
            (outcome (net_of patch.old) now (world (kept_of patch.old symbols.old queue.old) budget.old []) start.now)) }
        ensures err { OnErr result (TookPart (L.taken lines.old) (L.taken lines.new)
            (outcome (net_of patch.old) now (world (kept_of patch.old symbols.old queue.old) budget.old []) start.now).said) }
        ensures net { net_of patch.new ≡ net_of patch.old }
        ensures states { StatesStay (states_of patch.old) (states_of patch.new) }
        ensures extends { Extends symbols.old symbols.new }
        ensures cause { HasCause (L.faults lines.old) (L.faults lines.new) result }
    {
        self.held.clear();
        let stack = &mut self.stack;
        let sends = &mut self.sends;
        let held = &mut self.held;
        begin(
            patch, start, stack, sends, symbols, now, budget, queue, held, lines,
        )?;
        flush(held, lines)
    }
}

/// Delivers what an event begins.
#[tactic(auto, unfolding(crate::specs::Outcome::outcome))]
fn begin<L: Sink>(
    patch: &mut Patch,
    start: &Start<'_>,
    stack: &mut Stack,
    sends: &mut Sends,
    symbols: &mut Symbols,
    now: Time,
    budget: &mut Budget,
    queue: &mut EditQueue,
    held: &mut Held,
    lines: &mut L,
) -> Result<(), SinkFailed>
    ensures ok { (before : Option (List ℕ)) (said : List ℕ) → IsSaid before (L.taken lines.old) held.old.items said → OnOk result (
        IsDone (kept_of patch.new symbols.new queue.new) budget.new before (L.taken lines.new) held.new.items (outcome (net_of patch.old) now (world (kept_of patch.old symbols.old queue.old) budget.old said) start.now)) }
    ensures err { (before : Option (List ℕ)) (said : List ℕ) → IsSaid before (L.taken lines.old) held.old.items said → OnErr result (
        TookPart before (L.taken lines.new) (outcome (net_of patch.old) now (world (kept_of patch.old symbols.old queue.old) budget.old said) start.now).said) }
    ensures net { net_of patch.new ≡ net_of patch.old }
    ensures states { StatesStay (states_of patch.old) (states_of patch.new) }
    ensures extends { Extends symbols.old symbols.new }
    ensures cause { HasCause (L.faults lines.old) (L.faults lines.new) result }
{
    match start {
        Start::Name { name, message } => walk_name(
            patch, *name, message, stack, sends, symbols, now, budget, queue, held, lines,
        ),
        Start::Clock { owner } => walk_clock(
            patch, *owner, stack, sends, symbols, now, budget, queue, held, lines,
        ),
        Start::Loads { boxes } => walk_loads(
            patch, boxes, stack, sends, symbols, now, budget, queue, held, lines,
        ),
    }
}

/// Delivers a message to the receivers of a name.
fn walk_name<L: Sink>(
    patch: &mut Patch,
    name: Sym,
    message: &Message<'_>,
    stack: &mut Stack,
    sends: &mut Sends,
    symbols: &mut Symbols,
    now: Time,
    budget: &mut Budget,
    queue: &mut EditQueue,
    held: &mut Held,
    lines: &mut L,
) -> Result<(), SinkFailed>
    ensures ok { (before : Option (List ℕ)) (said : List ℕ) → IsSaid before (L.taken lines.old) held.old.items said → OnOk result (
        IsDone (kept_of patch.new symbols.new queue.new) budget.new before (L.taken lines.new) held.new.items (ran (net_of patch.old) now (world (kept_of patch.old symbols.old queue.old) budget.old said) (named_tasks (net_of patch.old) name message.now.selector message.now.atoms.now))) }
    ensures err { (before : Option (List ℕ)) (said : List ℕ) → IsSaid before (L.taken lines.old) held.old.items said → OnErr result (
        TookPart before (L.taken lines.new) (ran (net_of patch.old) now (world (kept_of patch.old symbols.old queue.old) budget.old said) (named_tasks (net_of patch.old) name message.now.selector message.now.atoms.now)).said) }
    ensures net { net_of patch.new ≡ net_of patch.old }
    ensures states { StatesStay (states_of patch.old) (states_of patch.new) }
    ensures extends { Extends symbols.old symbols.new }
    ensures cause { HasCause (L.faults lines.old) (L.faults lines.new) result }
{
    stack.clear();
    push_name(patch, stack, name, message.selector, message.atoms);
    walk(
        patch, stack, sends, symbols, now, budget, queue, held, lines,
    )
}

/// Puts the message of an event on the stack, for the receivers of a name.
fn push_name(patch: &Patch, stack: &mut Stack, name: Sym, selector: Sym, atoms: &[Atom])
    requires pendings { stack.old.pendings ≡ [] }
    requires atoms { stack.old.atoms ≡ [] }
    ensures piled { IsPiled stack.new }
    ensures left { LeftOn (net_of patch.now) stack.new (named_tasks (net_of patch.now) name selector atoms.now) }
{
    if atoms.len() > MOST {
        return;
    }
    stack.push_atoms(atoms);
    let after = stack.atom_count();
    let cursor = Cursor::Owners {
        name,
        next: 0,
        is_loud: true,
    };
    let frame = Frame {
        depth: 1,
        selector,
        first: 0,
        after,
        floor: 0,
    };
    stack.push(cursor, &frame);
}

/// The clock of a box fires.
fn walk_clock<L: Sink>(
    patch: &mut Patch,
    owner: u32,
    stack: &mut Stack,
    sends: &mut Sends,
    symbols: &mut Symbols,
    now: Time,
    budget: &mut Budget,
    queue: &mut EditQueue,
    held: &mut Held,
    lines: &mut L,
) -> Result<(), SinkFailed>
    ensures ok { (before : Option (List ℕ)) (said : List ℕ) → IsSaid before (L.taken lines.old) held.old.items said → OnOk result (
        IsDone (kept_of patch.new symbols.new queue.new) budget.new before (L.taken lines.new) held.new.items (told_by (net_of patch.old) now owner (fired_at (net_of patch.old) (states_of patch.old) owner) (world (kept_of patch.old symbols.old queue.old) budget.old said))) }
    ensures err { (before : Option (List ℕ)) (said : List ℕ) → IsSaid before (L.taken lines.old) held.old.items said → OnErr result (
        TookPart before (L.taken lines.new) (told_by (net_of patch.old) now owner (fired_at (net_of patch.old) (states_of patch.old) owner) (world (kept_of patch.old symbols.old queue.old) budget.old said)).said) }
    ensures net { net_of patch.new ≡ net_of patch.old }
    ensures states { StatesStay (states_of patch.old) (states_of patch.new) }
    ensures extends { Extends symbols.old symbols.new }
    ensures cause { HasCause (L.faults lines.old) (L.faults lines.new) result }
{
    fire_at(patch, owner, sends);
    walk_box(
        patch, owner, stack, sends, symbols, now, budget, queue, held, lines,
    )
}

/// Loads boxes, one after the other.
fn walk_loads<L: Sink>(
    patch: &mut Patch,
    boxes: &[u32],
    stack: &mut Stack,
    sends: &mut Sends,
    symbols: &mut Symbols,
    now: Time,
    budget: &mut Budget,
    queue: &mut EditQueue,
    held: &mut Held,
    lines: &mut L,
) -> Result<(), SinkFailed>
    ensures ok { (before : Option (List ℕ)) (said : List ℕ) → IsSaid before (L.taken lines.old) held.old.items said → OnOk result (
        IsDone (kept_of patch.new symbols.new queue.new) budget.new before (L.taken lines.new) held.new.items (all_loaded (net_of patch.old) now (world (kept_of patch.old symbols.old queue.old) budget.old said) boxes.now)) }
    ensures err { (before : Option (List ℕ)) (said : List ℕ) → IsSaid before (L.taken lines.old) held.old.items said → OnErr result (
        TookPart before (L.taken lines.new) (all_loaded (net_of patch.old) now (world (kept_of patch.old symbols.old queue.old) budget.old said) boxes.now).said) }
    ensures net { net_of patch.new ≡ net_of patch.old }
    ensures states { StatesStay (states_of patch.old) (states_of patch.new) }
    ensures extends { Extends symbols.old symbols.new }
    ensures cause { HasCause (L.faults lines.old) (L.faults lines.new) result }
{
    for node in boxes {
        load_at(patch, *node, sends);
        walk_box(
            patch, *node, stack, sends, symbols, now, budget, queue, held, lines,
        )?;
    }
    Ok(())
}

/// Does what a box asks for that an event begins with, and delivers its sends.
fn walk_box<L: Sink>(
    patch: &mut Patch,
    node: u32,
    stack: &mut Stack,
    sends: &mut Sends,
    symbols: &mut Symbols,
    now: Time,
    budget: &mut Budget,
    queue: &mut EditQueue,
    held: &mut Held,
    lines: &mut L,
) -> Result<(), SinkFailed>
    ensures ok { (before : Option (List ℕ)) (said : List ℕ) → IsSaid before (L.taken lines.old) held.old.items said → OnOk result (
        IsDone (kept_of patch.new symbols.new queue.new) budget.new before (L.taken lines.new) held.new.items (told_by (net_of patch.old) now node (said_by sends.old) (world (kept_of patch.old symbols.old queue.old) budget.old said))) }
    ensures err { (before : Option (List ℕ)) (said : List ℕ) → IsSaid before (L.taken lines.old) held.old.items said → OnErr result (
        TookPart before (L.taken lines.new) (told_by (net_of patch.old) now node (said_by sends.old) (world (kept_of patch.old symbols.old queue.old) budget.old said)).said) }
    ensures net { net_of patch.new ≡ net_of patch.old }
    ensures states { StatesStay (states_of patch.old) (states_of patch.new) }
    ensures extends { Extends symbols.old symbols.new }
    ensures cause { HasCause (L.faults lines.old) (L.faults lines.new) result }
{
    stack.clear();
    do_deed(patch, node, sends.deed, now);
    push_sends(patch, node, 0, stack, sends, symbols, held, lines)?;
    walk(
        patch, stack, sends, symbols, now, budget, queue, held, lines,
    )
}

/// Delivers all that is on the stack and what it causes.
fn walk<L: Sink>(
    patch: &mut Patch,
    stack: &mut Stack,
    sends: &mut Sends,
    symbols: &mut Symbols,
    now: Time,
    budget: &mut Budget,
    queue: &mut EditQueue,
    held: &mut Held,
    lines: &mut L,
) -> Result<(), SinkFailed>
    requires piled { IsPiled stack.old }
    ensures ok { (before : Option (List ℕ)) (final : World Kept) → IsUnderWay (net_of patch.old) now (kept_of patch.old symbols.old queue.old) budget.old stack.old [] before (L.taken lines.old) held.old.items final →
        OnOk result (IsDone (kept_of patch.new symbols.new queue.new) budget.new before (L.taken lines.new) held.new.items final) }
    ensures err { (before : Option (List ℕ)) (final : World Kept) → IsUnderWay (net_of patch.old) now (kept_of patch.old symbols.old queue.old) budget.old stack.old [] before (L.taken lines.old) held.old.items final →
        OnErr result (TookPart before (L.taken lines.new) final.said) }
    ensures net { net_of patch.new ≡ net_of patch.old }
    ensures states { StatesStay (states_of patch.old) (states_of patch.new) }
    ensures extends { Extends symbols.old symbols.new }
    ensures cause { HasCause (L.faults lines.old) (L.faults lines.new) result }
{
    if budget.cut {
        return Ok(());
    }
    let mut routes = no_routes();
    while let Some(task) = next_task(patch, stack, symbols, held, lines)? {
        if budget.left == 0 {
            budget.cut = true;
            return print_cut(symbols, held, lines);
        }
        if !relay_task(patch, &mut routes, stack, symbols, &task, budget) {
            budget.left -= 1;
            perform(patch, stack, sends, symbols, now, queue, held, lines, &task)?;
        }
    }
    Ok(())
}
