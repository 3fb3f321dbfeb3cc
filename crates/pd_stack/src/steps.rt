//! What is delivered next.

ghost use Rattle.std.specs.Prelude.{◌≡◌, ◌≤◌, ◌<◌, ◌+◌, ◌*◌, ◌∷◌, ◌++◌, [], ℕ, List, length, slice_get, drop, Some, None, OnOk, OnErr, IfOk, IfSome, IfNone};
ghost use Rattle.std.specs.Option.{option_to_list};
ghost use Rattle.pd_atom.specs.declared.Atom.{Atom};
ghost use Rattle.pd_say.specs.Gathering.{Says, Fails, HasCause};
ghost use Rattle.pd_hearing.specs.Worlds.{net_of, Net};
ghost use Rattle.pd_stack.specs.Tasks.{Task as Doing, delivery, end_of, arrival, owner_told, nobody_text, unless_heard};
ghost use Rattle.pd_stack.specs.Piles.{IsAlong, CursorTasks, GoesAlong, message_of, Fits, Lies, AllLie, IsPiled, LeftOn, owner_tasks, AreLeft};
ghost use Rattle.pd_stack.specs.Turns.{doing, told, due_in, due_at, again_at, told_list, StartsWith, TurnTasks, TurnFits, AfterTurn, IsDue, turn_text, Yields, BreaksOff};

use crate::stack::{Cursor, Frame, Pending, Stack};
use pd_atom::{Atom, Sym, Symbols};
use pd_bind::Owner;
use pd_hearing::is_name;
use pd_io::{Sink, SinkFailed};
use pd_name::Class;
use pd_patch::Patch;
use pd_say::{Held, Line, say};
use pd_web::Hop;

/// Where a message comes to.
#[derive(Clone, Copy, Drop)]
pub enum Place {
    /// An inlet of a box.
    Inlet { node: u32, inlet: u32 },
    /// A canvas, by its name.
    Canvas { canvas: u32 },
    /// No message comes, but the box is resumed.
    Again { node: u32 },
}

/// What is done next: a message of the stack comes somewhere, at a depth. It costs one of the event's deliveries. Its atoms are those
/// of the stack from the place `first` on, up to the place `after`.
#[derive(Clone, Copy, Drop)]
pub struct Task {
    pub place: Place,
    pub depth: u32,
    pub selector: Sym,
    pub first: u32,
    pub after: u32,
}

/// What a send gives next.
#[derive(Clone, Copy, Drop)]
pub(crate) enum Turn {
    /// Its message comes to a place, and after that the send is so far.
    Due { place: Place, rest: Cursor },
    /// A box is resumed, with which this is done.
    Resumed { node: u32 },
    /// Nobody hears at this name.
    Unheard { name: Sym },
    /// The send is done.
    Over,
}

/// Takes the next task off the stack. Sends that are done go; a loud one that nobody hears says so.
///
/// # Errors
///
/// `SinkFailed` where a line wasn't taken. What is on the stack then isn't told: clear it before it is used again.
pub fn next_task<L: Sink>(
    patch: &Patch,
    stack: &mut Stack,
    symbols: &Symbols,
    held: &mut Held,
    lines: &mut L,
) -> Result<Option<Task>, SinkFailed>
    requires { IsPiled stack.old }
    ensures ok { (tasks : List Doing) → LeftOn (net_of patch.now) stack.old tasks → IfOk result (λ next.
        Yields (net_of patch.now) symbols.now (L.taken lines.old) held.old.items (L.taken lines.new) held.new.items stack.new (told_list stack.new next) tasks) }
    ensures err { (tasks : List Doing) → LeftOn (net_of patch.now) stack.old tasks → OnErr result (BreaksOff symbols.now (L.taken lines.old) held.old.items (L.taken lines.new) tasks) }
    ensures piled { OnOk result (IsPiled stack.new) }
    ensures due { IfOk result (λ next. IfSome next (IsDue stack.new)) }
    ensures none { IfOk result (λ next. IfNone next (stack.new.pendings ≡ [])) }
    ensures cause { HasCause (L.faults lines.old) (L.faults lines.new) result }
{
    while let Some(top) = stack.pop() {
        let turn = turn_of(patch, top.cursor);
        match settle(stack, &turn, &top) {
            Some(task) => return Ok(Some(task)),
            None => {}
        }
        end_send(&turn, symbols, held, lines)?;
    }
    Ok(None)
}

/// Leaves on the stack what is left of the send that was on top, and gives its task.
fn settle(stack: &mut Stack, turn: &Turn, top: &Pending) -> Option<Task>
    requires below { AllLie top.now.floor stack.old.pendings }
    requires lies { Lies (length stack.old.atoms) (length stack.old.pendings) top.now }
    requires fits { TurnFits (length stack.old.atoms) (length stack.old.pendings) top.now.depth top.now.floor turn.now }
    ensures piled { IsPiled stack.new }
    ensures task { result ≡ due_in top.now turn.now }
    ensures due { IfSome result (IsDue stack.new) }
    ensures left { (net : Net) (here later : List Doing) → TurnTasks net top.now.depth top.now.selector (message_of stack.old.atoms top.now) turn.now here → AreLeft net stack.old.atoms stack.old.pendings later →
        AfterTurn net stack.new top.now turn.now (here ++ later) }
    ensures fewer { IfNone result (stack.new.pendings ≡ stack.old.pendings) }
{
    match turn {
        Turn::Due { place, rest } => Some(keep(stack, *place, *rest, top)),
        Turn::Resumed { node } => Some(drop_again(stack, *node, top)),
        _ => {
            drop_rest(stack, top);
            None
        }
    }
}

/// The message of a send comes to a place, and the rest of the send stays on top.
fn keep(stack: &mut Stack, place: Place, rest: Cursor, top: &Pending) -> Task
    requires below { AllLie top.now.floor stack.old.pendings }
    requires lies { Lies (length stack.old.atoms) (length stack.old.pendings) top.now }
    requires fits { Fits (length stack.old.atoms) (length stack.old.pendings) top.now.depth rest top.now.floor }
    requires count { length stack.old.atoms ≤ 2048 * top.now.depth }
    requires room { length stack.old.pendings + 1 ≤ 1025 * top.now.depth }
    requires depth { top.now.depth ≤ 1000 }
    ensures piled { IsPiled stack.new }
    ensures task { result ≡ due_at place top.now }
    ensures due { IsDue stack.new result }
    ensures left { (net : Net) (here later : List Doing) → StartsWith (CursorTasks net top.now.depth top.now.selector (message_of stack.old.atoms top.now) rest)
        (doing place top.now.depth top.now.selector (message_of stack.old.atoms top.now)) here → AreLeft net stack.old.atoms stack.old.pendings later →
        StartsWith (LeftOn net stack.new) (told stack.new.atoms (due_at place top.now)) (here ++ later) }
{
    let frame = Frame {
        depth: top.depth,
        selector: top.selector,
        first: top.first,
        after: top.after,
        floor: top.floor,
    };
    stack.push(rest, &frame);
    Task {
        place,
        depth: top.depth,
        selector: top.selector,
        first: top.first,
        after: top.after,
    }
}

/// A box is resumed.
fn drop_again(stack: &mut Stack, node: u32, top: &Pending) -> Task
    requires below { AllLie top.now.floor stack.old.pendings }
    requires lies { Lies (length stack.old.atoms) (length stack.old.pendings) top.now }
    requires count { top.now.floor ≤ 2048 * top.now.depth }
    requires room { length stack.old.pendings ≤ 1025 * top.now.depth }
    requires depth { top.now.depth < 1000 }
    ensures piled { IsPiled stack.new }
    ensures task { result ≡ again_at node top.now }
    ensures due { IsDue stack.new result }
    ensures left { (net : Net) (later : List Doing) → AreLeft net stack.old.atoms stack.old.pendings later → LeftOn net stack.new later }
{
    drop_rest(stack, top);
    Task {
        place: Place::Again { node },
        depth: top.depth,
        selector: top.selector,
        first: 0,
        after: 0,
    }
}

/// A send is done: its atoms go.
fn drop_rest(stack: &mut Stack, top: &Pending)
    requires below { AllLie top.now.floor stack.old.pendings }
    requires lies { Lies (length stack.old.atoms) (length stack.old.pendings) top.now }
    ensures piled { IsPiled stack.new }
    ensures pendings { stack.new.pendings ≡ stack.old.pendings }
    ensures count { length stack.new.atoms ≡ top.now.floor }
    ensures left { (net : Net) (later : List Doing) → AreLeft net stack.old.atoms stack.old.pendings later → LeftOn net stack.new later }
{
    stack.cut_atoms(top.floor);
}

/// Says that nobody hears, where that is so.
fn end_send<L: Sink>(
    turn: &Turn,
    symbols: &Symbols,
    held: &mut Held,
    lines: &mut L,
) -> Result<(), SinkFailed>
    ensures ok { OnOk result (Says (L.taken lines.old) held.old.items (L.taken lines.new) held.new.items (turn_text symbols.now turn.now)) }
    ensures err { OnErr result (Fails (L.taken lines.old) held.old.items (L.taken lines.new) (turn_text symbols.now turn.now)) }
    ensures cause { HasCause (L.faults lines.old) (L.faults lines.new) result }
{
    match turn {
        Turn::Unheard { name } => print_nobody(*name, symbols, held, lines),
        _ => Ok(()),
    }
}

/// Says that nobody hears at a name.
fn print_nobody<L: Sink>(
    name: Sym,
    symbols: &Symbols,
    held: &mut Held,
    lines: &mut L,
) -> Result<(), SinkFailed>
    ensures ok { OnOk result (Says (L.taken lines.old) held.old.items (L.taken lines.new) held.new.items (nobody_text symbols.now name)) }
    ensures err { OnErr result (Fails (L.taken lines.old) held.old.items (L.taken lines.new) (nobody_text symbols.now name)) }
    ensures cause { HasCause (L.faults lines.old) (L.faults lines.new) result }
{
    if !is_name(symbols, name) {
        return Ok(());
    }
    let line = Line::NoObject {
        name: Atom::Symbol(name),
    };
    say(&line, symbols, held, lines)
}

/// What a send gives next.
fn turn_of(patch: &Patch, cursor: Cursor) -> Turn
    ensures tasks { (depth selector : ℕ) (atoms : List Atom) (tasks : List Doing) → CursorTasks (net_of patch.now) depth selector atoms cursor tasks →
        TurnTasks (net_of patch.now) depth selector atoms result tasks }
    ensures fits { (count below depth floor : ℕ) → Fits count below depth cursor floor → TurnFits count below depth floor result }
{
    match cursor {
        Cursor::Wires { next } => wire_turn(patch, next),
        Cursor::Owners {
            name,
            next,
            is_loud,
        } => owner_turn(patch, name, next, is_loud),
        Cursor::Again { node } => Turn::Resumed { node },
    }
}

fn wire_turn(patch: &Patch, next: Option<Hop>) -> Turn
    ensures tasks { (depth selector : ℕ) (atoms : List Atom) (tasks : List Doing) → GoesAlong (net_of patch.now) depth selector atoms next tasks →
        TurnTasks (net_of patch.now) depth selector atoms result tasks }
    ensures fits { (count below depth floor : ℕ) → (count ≤ 2048 * depth) × (below + 1 ≤ 1025 * depth) × (depth ≤ 1000) → TurnFits count below depth floor result }
{
    match next {
        Some(hop) => {
            let place = fed_by(patch, hop);
            let next = patch.fan_next(hop);
            Turn::Due {
                place,
                rest: Cursor::Wires { next },
            }
        }
        None => Turn::Over,
    }
}

/// Where a wire leads.
fn fed_by(patch: &Patch, hop: Hop) -> Place
    ensures { (depth selector : ℕ) (atoms : List Atom) → doing result depth selector atoms ≡ delivery depth selector atoms (end_of patch.now.web hop) }
{
    let (node, inlet) = end_at(patch, hop);
    Place::Inlet { node, inlet }
}

/// The box and the inlet to which a wire leads. One into a box that holds a canvas leads to the box of that port.
#[inline(always)]
pub fn end_at(patch: &Patch, hop: Hop) -> (u32, u32)
    ensures { result ≡ end_of patch.now.web hop }
{
    match patch.port_box(hop.node(), hop.port(), false) {
        Some(node) => (node, 0),
        None => (hop.node(), hop.port()),
    }
}

fn owner_turn(patch: &Patch, name: Sym, next: usize, is_loud: bool) -> Turn
    ensures tasks { (depth selector : ℕ) (atoms : List Atom) → TurnTasks (net_of patch.now) depth selector atoms result (owner_tasks (net_of patch.now) depth selector atoms name next is_loud) }
    ensures fits { (count below depth floor : ℕ) → (count ≤ 2048 * depth) × (below + 1 ≤ 1025 * depth) × (depth ≤ 1000) → TurnFits count below depth floor result }
{
    match patch.owners(Class::Receiver, name).get(next) {
        Some(owner) => {
            let place = heard_by(patch, *owner);
            Turn::Due {
                place,
                rest: Cursor::Owners {
                    name,
                    next: next + 1,
                    is_loud: false,
                },
            }
        }
        None => unheard(name, is_loud),
    }
}

/// Where a message to an owner of a name comes to.
fn heard_by(patch: &Patch, owner: u32) -> Place
    ensures { (depth selector : ℕ) (atoms : List Atom) → doing result depth selector atoms ≡ arrival depth selector atoms (owner_told (net_of patch.now) owner) }
{
    match patch.owner_at(owner) {
        Owner::Node(node) => Place::Inlet { node, inlet: 0 },
        Owner::Canvas(canvas) => Place::Canvas { canvas },
    }
}

fn unheard(name: Sym, is_loud: bool) -> Turn
    ensures tasks { (net : Net) (depth selector : ℕ) (atoms : List Atom) → TurnTasks net depth selector atoms result (unless_heard is_loud name []) }
    ensures fits { (count below depth floor : ℕ) → TurnFits count below depth floor result }
{
    if is_loud {
        Turn::Unheard { name }
    } else {
        Turn::Over
    }
}
