//! Brief messages that go from box to box, past the stack.

ghost use Rattle.std.specs.Prelude.{◌≡◌, ◌≤◌, ◌<◌, ◌+◌, ◌*◌, ◌++◌, ◌∷◌, [], ℕ, List, true, false, length, slice_get, slice_range, Some, IfSome, IfNone};
ghost use Rattle.pd_atom.specs.Names.{Names};
ghost use Rattle.pd_queue.specs.Queue.{Waiting};
ghost use Rattle.pd_web.specs.Hops.{fan_hops};
ghost use Rattle.pd_hearing.specs.Briefs.{selector_of, atoms_of};
ghost use Rattle.pd_hearing.specs.Worlds.{Net, net_of, kept_of, states_of};
ghost use Rattle.pd_stack.specs.declared.steps.Place.TheVariants.{Inlet};
ghost use Rattle.pd_stack.specs.Tasks.{Task as Doing, Resume};
ghost use Rattle.pd_stack.specs.Piles.{GoesAlong, IsPiled, LeftOn};
ghost use Rattle.pd_stack.specs.Turns.{told, IsDue};
ghost use Rattle.pd_walk.specs.Outcome.{StatesStay};
ghost use Rattle.pd_walk.specs.Relays.{AreRoutes, IsAtHand, saying_at, saying_tasks, resumption, Stepped, Relayed, GoesFrom};

use crate::acting::DEEPEST;
use crate::routes::{Routes, has_route, is_at_hand, route_of};
use crate::walker::Budget;
use pd_atom::{Atom, Sym, Symbols};
use pd_hearing::{Asked, Brief, Reaction, goes_on_at, hear_brief};
use pd_patch::Patch;
use pd_stack::{Cursor, Frame, Place, Stack, Task};
use pd_web::Hop;

/// A box says a brief message to its first outlet, to be delivered at this depth.
#[derive(Clone, Copy, Drop)]
pub(crate) struct Saying {
    pub(crate) node: u32,
    pub(crate) depth: u32,
    pub(crate) message: Brief,
}

/// What is left of the send of a brief message: the wires from this one on.
#[derive(Clone, Copy, Drop)]
pub(crate) struct Rest {
    pub(crate) hop: Hop,
    pub(crate) depth: u32,
    pub(crate) message: Brief,
}

/// The brief message that a box says goes to the one box to which it leads, by a route that is at hand, where that box is asked; in the
/// place of both come that box and what it says.
#[inline(always)]
fn step_along(
    patch: &mut Patch,
    routes: &Routes,
    asked: Asked,
    node: &mut u32,
    message: &mut Brief,
) -> Reaction
    requires route { IsAtHand patch.old.web routes.now node.old }
    ensures stepped { (depth : ℕ) → Stepped (net_of patch.old) (states_of patch.old) (states_of patch.new) (saying_at depth node.old message.old) (saying_at (depth + 1) node.new message.new) result }
    ensures net { net_of patch.new ≡ net_of patch.old }
    ensures clocks { patch.new.timers ≡ patch.old.timers }
{
    let route = route_of(routes, *node);
    match hear_brief(patch, asked, route.to, route.inlet, message) {
        Reaction::Unheard => Reaction::Unheard,
        Reaction::Silent => Reaction::Silent,
        Reaction::Says => {
            *node = route.to;
            Reaction::Says
        }
    }
}

/// The same by any route to any box, out of the way of those to which most messages go.
#[inline(never)]
fn step_anew(
    patch: &mut Patch,
    routes: &mut Routes,
    node: &mut u32,
    message: &mut Brief,
) -> Reaction
    requires routes { AreRoutes patch.old.web routes.old }
    ensures stepped { (depth : ℕ) → Stepped (net_of patch.old) (states_of patch.old) (states_of patch.new) (saying_at depth node.old message.old) (saying_at (depth + 1) node.new message.new) result }
    ensures routes { AreRoutes patch.new.web routes.new }
    ensures net { net_of patch.new ≡ net_of patch.old }
    ensures clocks { patch.new.timers ≡ patch.old.timers }
{
    if has_route(patch, routes, *node) {
        step_along(patch, routes, Asked::All, node, message)
    } else {
        Reaction::Unheard
    }
}

/// The same on copies, so that the box and the message that a loop holds need no place in memory.
#[inline(always)]
fn step_apart(
    patch: &mut Patch,
    routes: &mut Routes,
    node: &mut u32,
    message: &mut Brief,
) -> Reaction
    requires routes { AreRoutes patch.old.web routes.old }
    ensures stepped { (depth : ℕ) → Stepped (net_of patch.old) (states_of patch.old) (states_of patch.new) (saying_at depth node.old message.old) (saying_at (depth + 1) node.new message.new) result }
    ensures routes { AreRoutes patch.new.web routes.new }
    ensures net { net_of patch.new ≡ net_of patch.old }
    ensures clocks { patch.new.timers ≡ patch.old.timers }
{
    let mut to = *node;
    let mut said = *message;
    let reaction = step_anew(patch, routes, &mut to, &mut said);
    *node = to;
    *message = said;
    reaction
}

/// The brief message that a box says goes to a box to which most messages go, by a route that is at hand.
#[inline(always)]
fn step_at_hand(patch: &mut Patch, routes: &Routes, node: &mut u32, message: &mut Brief) -> Reaction
    requires routes { AreRoutes patch.old.web routes.now }
    ensures stepped { (depth : ℕ) → Stepped (net_of patch.old) (states_of patch.old) (states_of patch.new) (saying_at depth node.old message.old) (saying_at (depth + 1) node.new message.new) result }
    ensures net { net_of patch.new ≡ net_of patch.old }
    ensures clocks { patch.new.timers ≡ patch.old.timers }
{
    if is_at_hand(routes, *node) {
        step_along(patch, routes, Asked::Common, node, message)
    } else {
        Reaction::Unheard
    }
}

/// The brief message that a box says goes to the one box to which it leads, and in the place of both come that box and what it says.
#[inline(always)]
fn step(patch: &mut Patch, routes: &mut Routes, node: &mut u32, message: &mut Brief) -> Reaction
    requires routes { AreRoutes patch.old.web routes.old }
    ensures stepped { (depth : ℕ) → Stepped (net_of patch.old) (states_of patch.old) (states_of patch.new) (saying_at depth node.old message.old) (saying_at (depth + 1) node.new message.new) result }
    ensures routes { AreRoutes patch.new.web routes.new }
    ensures net { net_of patch.new ≡ net_of patch.old }
    ensures clocks { patch.new.timers ≡ patch.old.timers }
{
    match step_at_hand(patch, routes, node, message) {
        Reaction::Unheard => step_apart(patch, routes, node, message),
        Reaction::Silent => Reaction::Silent,
        Reaction::Says => Reaction::Says,
    }
}

/// Delivers what a box says and what that causes, as long as that is one brief message along one wire. Gives what is left of the last
/// send. As many deliveries as there may be are set aside first, and those that aren't made are given back, so that one count is kept.
#[inline(always)]
fn relay(
    patch: &mut Patch,
    routes: &mut Routes,
    saying: &Saying,
    budget: &mut Budget,
) -> Option<Rest>
    requires depth { saying.now.depth ≤ 1000 }
    requires uncut { budget.old.cut ≡ false }
    requires routes { AreRoutes patch.old.web routes.old }
    ensures relayed { (now : ℕ) (names : Names) (queue : Waiting) (after : List Doing) → 2 ≤ length names → Relayed (net_of patch.old) now (kept_of patch.old names queue) budget.old
        (saying_tasks (net_of patch.old) saying.now ++ after) (kept_of patch.new names queue) budget.new result after }
    ensures routes { AreRoutes patch.new.web routes.new }
    ensures net { net_of patch.new ≡ net_of patch.old }
    ensures clocks { patch.new.timers ≡ patch.old.timers }
    ensures uncut { budget.new.cut ≡ false }
    ensures less { budget.new.left ≤ budget.old.left }
    ensures depth { IfSome result (λ r. (saying.now.depth ≤ r.depth) × (r.depth ≤ 1000)) }
    ensures states { StatesStay (states_of patch.old) (states_of patch.new) }
{
    let most = budget.left.min(DEEPEST - saying.depth);
    let end = saying.depth + most;
    budget.left -= most;
    let mut here = *saying;
    let mut turns = most;
    while turns > 0 {
        match step(patch, routes, &mut here.node, &mut here.message) {
            Reaction::Unheard => {
                budget.left += turns;
                return rest_of(patch, &here, end - turns);
            }
            Reaction::Silent => {
                budget.left += turns - 1;
                return None;
            }
            Reaction::Says => turns -= 1,
        }
    }
    rest_of(patch, &here, end)
}

/// All that a box says, to be delivered at a depth.
#[inline(always)]
fn rest_of(patch: &Patch, here: &Saying, depth: u32) -> Option<Rest>
    ensures none { IfNone result (fan_hops patch.now.web here.now.node 0 ≡ []) }
    ensures some { IfSome result (λ r. Some r.hop ≡ slice_get (fan_hops patch.now.web here.now.node 0) 0) }
    ensures depth { IfSome result (λ r. r.depth ≡ depth) }
    ensures message { IfSome result (λ r. r.message ≡ here.now.message) }
{
    match patch.fan_first(here.node, 0) {
        Some(hop) => Some(Rest {
            hop,
            depth,
            message: here.message,
        }),
        None => None,
    }
}

/// The brief message of a selector and atoms, where it is one.
fn brief_of(selector: Sym, atoms: &[Atom]) -> Option<Brief>
    ensures selector { IfSome result (λ m. selector ≡ selector_of m) }
    ensures atoms { IfSome result (λ m. atoms.now ≡ atoms_of m) }
{
    match atoms {
        [] if selector == Sym::bang() => Some(Brief::Bang),
        [Atom::Number(number)] if selector == Sym::float() => Some(Brief::Float(*number)),
        _ => None,
    }
}

/// Delivers what a box says, and puts on the stack what is left of the last send.
#[inline(never)]
fn go_on(
    patch: &mut Patch,
    routes: &mut Routes,
    stack: &mut Stack,
    saying: &Saying,
    budget: &mut Budget,
)
    requires piled { IsPiled stack.old }
    requires depth { (0 < saying.now.depth) × (saying.now.depth ≤ 1000) }
    requires room { length stack.old.pendings + 1 ≤ 1025 * saying.now.depth }
    requires atoms { length stack.old.atoms + 1 ≤ 2048 * saying.now.depth }
    requires uncut { budget.old.cut ≡ false }
    requires routes { AreRoutes patch.old.web routes.old }
    ensures goes { (now : ℕ) (names : Names) (queue : Waiting) (tasks : List Doing) → 2 ≤ length names → LeftOn (net_of patch.old) stack.old tasks →
        GoesFrom (net_of patch.old) now (kept_of patch.old names queue) budget.old (saying_tasks (net_of patch.old) saying.now) (kept_of patch.new names queue) budget.new stack.new tasks }
    ensures piled { IsPiled stack.new }
    ensures routes { AreRoutes patch.new.web routes.new }
    ensures net { net_of patch.new ≡ net_of patch.old }
    ensures clocks { patch.new.timers ≡ patch.old.timers }
    ensures uncut { budget.new.cut ≡ false }
    ensures less { budget.new.left ≤ budget.old.left }
    ensures states { StatesStay (states_of patch.old) (states_of patch.new) }
{
    match relay(patch, routes, saying, budget) {
        Some(rest) => push_rest(stack, &rest),
        None => {}
    }
}

/// Puts on the stack what is left of a send.
fn push_rest(stack: &mut Stack, rest: &Rest)
    requires piled { IsPiled stack.old }
    requires depth { (0 < rest.now.depth) × (rest.now.depth ≤ 1000) }
    requires room { length stack.old.pendings + 1 ≤ 1025 * rest.now.depth }
    requires atoms { length stack.old.atoms + 1 ≤ 2048 * rest.now.depth }
    ensures piled { IsPiled stack.new }
    ensures left { (net : Net) (here tasks : List Doing) → GoesAlong net rest.now.depth (selector_of rest.now.message) (atoms_of rest.now.message) (Some rest.now.hop) here →
        LeftOn net stack.old tasks → LeftOn net stack.new (here ++ tasks) }
{
    let floor = stack.atom_count();
    push_brief(stack, rest.message);
    let after = stack.atom_count();
    let frame = Frame {
        depth: rest.depth,
        selector: selector(rest.message),
        first: floor,
        after,
        floor,
    };
    stack.push(
        Cursor::Wires {
            next: Some(rest.hop),
        },
        &frame,
    );
}

/// Puts the atoms of a brief message on the stack.
fn push_brief(stack: &mut Stack, message: Brief)
    requires { length stack.old.atoms + 1 ≤ 2050048 }
    ensures { stack.new ≡ record { pendings = stack.old.pendings; atoms = stack.old.atoms ++ atoms_of message } }
{
    match message {
        Brief::Bang => {}
        Brief::Float(number) => stack.push_atoms(&[Atom::Number(number)]),
    }
}

fn selector(message: Brief) -> Sym
    ensures { result ≡ selector_of message }
{
    match message {
        Brief::Bang => Sym::bang(),
        Brief::Float(_) => Sym::float(),
    }
}

/// Puts on the stack that a box is resumed.
fn push_resumption(stack: &mut Stack, node: u32, depth: u32)
    requires piled { IsPiled stack.old }
    requires depth { depth < 1000 }
    requires room { length stack.old.pendings ≤ 1025 * depth }
    requires atoms { length stack.old.atoms ≤ 2048 * depth }
    ensures piled { IsPiled stack.new }
    ensures pendings { length stack.new.pendings ≡ length stack.old.pendings + 1 }
    ensures atoms { stack.new.atoms ≡ stack.old.atoms }
    ensures left { (net : Net) (tasks : List Doing) → LeftOn net stack.old tasks → LeftOn net stack.new (Resume depth node ∷ tasks) }
{
    let floor = stack.atom_count();
    let frame = Frame {
        depth,
        selector: Sym::bang(),
        first: floor,
        after: floor,
        floor,
    };
    stack.push(Cursor::Again { node }, &frame);
}

/// Resumes a box as long as it goes on and each bang that it says, with all that it causes, is done by relaying. Whether it did so at all;
/// then the box is to be resumed again, behind what is left of the last send. If not, nothing changed.
#[inline(never)]
fn repeat(
    patch: &mut Patch,
    routes: &mut Routes,
    stack: &mut Stack,
    node: u32,
    depth: u32,
    budget: &mut Budget,
) -> bool
    requires piled { IsPiled stack.old }
    requires depth { depth < 1000 }
    requires room { length stack.old.pendings ≤ 1025 * depth }
    requires atoms { length stack.old.atoms ≤ 2048 * depth }
    requires uncut { budget.old.cut ≡ false }
    requires routes { AreRoutes patch.old.web routes.old }
    ensures goes { (now : ℕ) (names : Names) (queue : Waiting) (tasks : List Doing) → result ≡ true → 2 ≤ length names → LeftOn (net_of patch.old) stack.old tasks →
        GoesFrom (net_of patch.old) now (kept_of patch.old names queue) budget.old (resumption depth node) (kept_of patch.new names queue) budget.new stack.new tasks }
    ensures kept { result ≡ false → states_of patch.new ≡ states_of patch.old }
    ensures stack { result ≡ false → stack.new ≡ stack.old }
    ensures budget { result ≡ false → budget.new ≡ budget.old }
    ensures less { result ≡ true → budget.new.left < budget.old.left }
    ensures piled { IsPiled stack.new }
    ensures routes { AreRoutes patch.new.web routes.new }
    ensures net { net_of patch.new ≡ net_of patch.old }
    ensures clocks { patch.new.timers ≡ patch.old.timers }
    ensures uncut { budget.new.cut ≡ false }
    ensures states { StatesStay (states_of patch.old) (states_of patch.new) }
{
    let saying = Saying {
        node,
        depth: depth + 1,
        message: Brief::Bang,
    };
    let mut has_gone = false;
    let mut goes_on = true;
    while goes_on && budget.left > 0 {
        goes_on = goes_on_at(patch, node);
        if goes_on {
            budget.left -= 1;
            has_gone = true;
            if let Some(rest) = relay(patch, routes, &saying, budget) {
                push_resumption(stack, node, depth);
                push_rest(stack, &rest);
                return true;
            }
        }
    }
    if has_gone {
        push_resumption(stack, node, depth);
    }
    has_gone
}

/// A box hears the message of a task, where that is brief and the box answers it with at most a brief one; what that one causes is done as
/// far as it is one brief message along one wire. Whether the message was heard so; if not, nothing changed.
fn hear_task(
    patch: &mut Patch,
    routes: &mut Routes,
    stack: &mut Stack,
    task: &Task,
    node: u32,
    inlet: u32,
    budget: &mut Budget,
) -> bool
    requires piled { IsPiled stack.old }
    requires due { IsDue stack.old task.now }
    requires place { task.now.place ≡ Inlet node inlet }
    requires depth { task.now.depth < 1000 }
    requires uncut { budget.old.cut ≡ false }
    requires more { 0 < budget.old.left }
    requires routes { AreRoutes patch.old.web routes.old }
    ensures goes { (now : ℕ) (names : Names) (queue : Waiting) (tasks : List Doing) → result ≡ true → 2 ≤ length names → LeftOn (net_of patch.old) stack.old tasks →
        GoesFrom (net_of patch.old) now (kept_of patch.old names queue) budget.old (told stack.old.atoms task.now ∷ []) (kept_of patch.new names queue) budget.new stack.new tasks }
    ensures kept { result ≡ false → states_of patch.new ≡ states_of patch.old }
    ensures stack { result ≡ false → stack.new ≡ stack.old }
    ensures budget { result ≡ false → budget.new ≡ budget.old }
    ensures less { result ≡ true → budget.new.left < budget.old.left }
    ensures piled { IsPiled stack.new }
    ensures routes { AreRoutes patch.new.web routes.new }
    ensures net { net_of patch.new ≡ net_of patch.old }
    ensures clocks { patch.new.timers ≡ patch.old.timers }
    ensures uncut { budget.new.cut ≡ false }
    ensures states { StatesStay (states_of patch.old) (states_of patch.new) }
{
    let Some(found) = brief_of(task.selector, stack.atoms(task.first, task.after)) else {
        return false;
    };
    let mut message = found;
    match hear_brief(patch, Asked::All, node, inlet, &mut message) {
        Reaction::Unheard => false,
        Reaction::Silent => {
            budget.left -= 1;
            true
        }
        Reaction::Says => {
            budget.left -= 1;
            let saying = Saying {
                node,
                depth: task.depth + 1,
                message,
            };
            go_on(patch, routes, stack, &saying, budget);
            true
        }
    }
}

/// Does a task that is a brief message to a box that answers it with at most a brief one, or that an `until` goes on, and what that causes
/// as long as it is one brief message along one wire. Whether the task was one of these; if not, nothing changed.
pub(crate) fn relay_task(
    patch: &mut Patch,
    routes: &mut Routes,
    stack: &mut Stack,
    symbols: &Symbols,
    task: &Task,
    budget: &mut Budget,
) -> bool
    requires piled { IsPiled stack.old }
    requires due { IsDue stack.old task.now }
    requires uncut { budget.old.cut ≡ false }
    requires more { 0 < budget.old.left }
    requires routes { AreRoutes patch.old.web routes.old }
    ensures goes { (now : ℕ) (queue : Waiting) (tasks : List Doing) → result ≡ true → LeftOn (net_of patch.old) stack.old tasks →
        GoesFrom (net_of patch.old) now (kept_of patch.old symbols.now queue) budget.old (told stack.old.atoms task.now ∷ []) (kept_of patch.new symbols.now queue) budget.new stack.new tasks }
    ensures kept { result ≡ false → states_of patch.new ≡ states_of patch.old }
    ensures stack { result ≡ false → stack.new ≡ stack.old }
    ensures budget { result ≡ false → budget.new ≡ budget.old }
    ensures less { result ≡ true → budget.new.left < budget.old.left }
    ensures piled { IsPiled stack.new }
    ensures routes { AreRoutes patch.new.web routes.new }
    ensures net { net_of patch.new ≡ net_of patch.old }
    ensures clocks { patch.new.timers ≡ patch.old.timers }
    ensures uncut { budget.new.cut ≡ false }
    ensures states { StatesStay (states_of patch.old) (states_of patch.new) }
{
    if task.depth >= DEEPEST || symbols.len() < 2 {
        return false;
    }
    match task.place {
        Place::Inlet { node, inlet } => hear_task(patch, routes, stack, task, node, inlet, budget),
        Place::Again { node } => repeat(patch, routes, stack, node, task.depth, budget),
        Place::Canvas { .. } => false,
    }
}
