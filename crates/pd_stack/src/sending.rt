//! The sends of a box on the stack.

ghost use Rattle.std.specs.Prelude.{◌≡◌, ◌≤◌, ◌<◌, ◌+◌, ◌*◌, ◌++◌, [], ℕ, Bool, true, List, length, map, slice_get, Some};
ghost use Rattle.std.specs.List.{flat_map};
ghost use Rattle.pd_atom.specs.declared.Atom.{Atom};
ghost use Rattle.pd_kind.specs.Rows.{are_within, send_of};
ghost use Rattle.pd_hearing.specs.Worlds.{net_of, Net};
ghost use Rattle.pd_grove.specs.Telling.{kind_in};
ghost use Rattle.pd_stack.specs.Tasks.{Task as Doing, sent, sent_to, wires_from, leads_out as leads_nowhere, again_after, fan_at};
ghost use Rattle.pd_hearing.specs.Outlets.{is_outlet as is_outlet_of};
ghost use Rattle.pd_stack.specs.Piles.{CursorTasks, IsAlong, Fits, AllLie, IsPiled, LeftOn, AreLeft, send_at, row_from};

use crate::stack::{Cursor, Frame, Stack};
use pd_atom::{Atom, Sym};
use pd_kind::{Glue, Kind, SendRow, Side, Target};
use pd_patch::Patch;
use pd_web::Hop;

/// Puts sends of a box on the stack, the first on top, and below them that it is resumed, where it asks for that.
pub fn push_all(
    patch: &Patch,
    node: u32,
    depth: u32,
    stack: &mut Stack,
    rows: &[SendRow],
    atoms: &[Atom],
    is_again: bool,
)
    requires piled { IsPiled stack.old }
    requires depth { depth < 1000 }
    requires room { length stack.old.pendings ≤ 1025 * depth }
    requires atoms_room { length stack.old.atoms ≤ 2048 * depth }
    requires rows { length rows.now ≤ 1024 }
    requires atoms { length atoms.now ≤ 2048 }
    requires within { are_within (length atoms.now) rows.now ≡ true }
    ensures piled { IsPiled stack.new }
    ensures left { (tasks : List Doing) → LeftOn (net_of patch.now) stack.old tasks → LeftOn (net_of patch.now) stack.new
        (flat_map (sent (net_of patch.now) (depth + 1) node) (map (send_of atoms.now) rows.now) ++ (again_after depth node is_again ++ tasks)) }
{
    let base = stack.atom_count();
    stack.push_atoms(atoms);
    let full = stack.atom_count();
    let floor = push_again(stack, node, depth, is_again, base, full);
    let floor = push_rows(patch, node, depth, stack, rows, base, full, floor);
    stack.cut_atoms(floor);
}

/// Puts on the stack that a box is resumed, where it asks for that, and gives how many atoms are left when what lies above it is done.
fn push_again(stack: &mut Stack, node: u32, depth: u32, is_again: bool, base: u32, full: u32) -> u32
    requires depth { depth < 1000 }
    requires room { length stack.old.pendings ≤ 1025 * depth }
    requires few { base ≤ 2048 * depth }
    requires order { base ≤ full }
    requires lie { AllLie base stack.old.pendings }
    ensures lie { AllLie result stack.new.pendings }
    ensures floor { (base ≤ result) × (result ≤ full) }
    ensures room { length stack.new.pendings ≤ 1025 * depth + 1 }
    ensures atoms { stack.new.atoms ≡ stack.old.atoms }
    ensures left { (net : Net) (tasks : List Doing) → AreLeft net stack.old.atoms stack.old.pendings tasks → AreLeft net stack.new.atoms stack.new.pendings (again_after depth node is_again ++ tasks) }
{
    if !is_again {
        return base;
    }
    let frame = Frame {
        depth,
        selector: Sym::bang(),
        first: base,
        after: base,
        floor: base,
    };
    stack.push(Cursor::Again { node }, &frame);
    full
}

/// Puts sends on the stack, the last one first, and gives how many atoms are left when what lies above them is done.
fn push_rows(
    patch: &Patch,
    node: u32,
    depth: u32,
    stack: &mut Stack,
    rows: &[SendRow],
    base: u32,
    full: u32,
    floor: u32,
) -> u32
    requires depth { depth < 1000 }
    requires few { length rows.now ≤ 1024 }
    requires room { length stack.old.pendings ≤ 1025 * depth + 1 }
    requires full { full ≤ 2048 * (depth + 1) }
    requires count { length stack.old.atoms ≡ full }
    requires floor { floor ≤ full }
    requires within { are_within full (map (row_from base) rows.now) ≡ true }
    requires lie { AllLie floor stack.old.pendings }
    ensures lie { AllLie result stack.new.pendings }
    ensures floor { result ≤ full }
    ensures atoms { stack.new.atoms ≡ stack.old.atoms }
    ensures left { (tasks : List Doing) → AreLeft (net_of patch.now) stack.old.atoms stack.old.pendings tasks → AreLeft (net_of patch.now) stack.new.atoms stack.new.pendings
        (flat_map (sent (net_of patch.now) (depth + 1) node) (map (send_at base stack.old.atoms) rows.now) ++ tasks) }
{
    let count = rows.len();
    let mut floor = floor;
    for i in 0..count {
        let row = rows[count - 1 - i];
        push_row(patch, node, depth, stack, row, base, full, floor);
        floor = full;
    }
    floor
}

/// Puts a send on the stack.
fn push_row(
    patch: &Patch,
    node: u32,
    depth: u32,
    stack: &mut Stack,
    row: SendRow,
    base: u32,
    full: u32,
    floor: u32,
)
    requires depth { depth < 1000 }
    requires room { length stack.old.pendings < 1025 * (depth + 1) }
    requires full { full ≤ 2048 * (depth + 1) }
    requires floor { floor ≤ full }
    requires order { row.first ≤ row.after }
    requires within { base + row.after ≤ full }
    requires lie { AllLie floor stack.old.pendings }
    ensures lie { AllLie full stack.new.pendings }
    ensures room { length stack.new.pendings ≡ length stack.old.pendings + 1 }
    ensures atoms { stack.new.atoms ≡ stack.old.atoms }
    ensures left { (tasks : List Doing) → AreLeft (net_of patch.now) stack.old.atoms stack.old.pendings tasks → AreLeft (net_of patch.now) stack.new.atoms stack.new.pendings
        (sent (net_of patch.now) (depth + 1) node (send_at base stack.old.atoms row) ++ tasks) }
{
    let cursor = cursor_of(patch, node, row.target);
    let frame = Frame {
        depth: depth + 1,
        selector: row.selector,
        first: base + row.first,
        after: base + row.after,
        floor,
    };
    stack.push(cursor, &frame);
}

/// Where a send begins.
fn cursor_of(patch: &Patch, node: u32, target: Target) -> Cursor
    ensures tasks { (depth selector : ℕ) (atoms : List Atom) → CursorTasks (net_of patch.now) depth selector atoms result (sent_to (net_of patch.now) depth node selector atoms target) }
    ensures fits { (count below depth floor : ℕ) → (count ≤ 2048 * depth) × (below + 1 ≤ 1025 * depth) × (depth ≤ 1000) → Fits count below depth result floor }
{
    match target {
        Target::Outlet(outlet) => Cursor::Wires {
            next: first_wire(patch, node, outlet),
        },
        Target::Name { name, loud } => Cursor::Owners {
            name,
            next: 0,
            is_loud: loud,
        },
    }
}

/// The first wire of an outlet. That of a box that is an outlet of its canvas is the first of the box that holds the canvas.
#[tactic(auto, unfolding(crate::specs::Tasks::wires_from), using(crate::proofs::SendLemmas::along_fan))]
fn first_wire(patch: &Patch, node: u32, outlet: u32) -> Option<Hop>
    ensures { IsAlong (net_of patch.now) result (wires_from (net_of patch.now) node outlet) }
{
    if is_outlet(patch, node) {
        let place = patch.port_of(node);
        return first_around(patch, place);
    }
    patch.fan_first(node, outlet)
}

/// The first wire of an outlet of the box around a canvas.
#[tactic(auto, using(crate::proofs::SendLemmas::along_fan, crate::proofs::SendLemmas::along_none))]
fn first_around(patch: &Patch, place: Option<(u32, u32)>) -> Option<Hop>
    ensures { IsAlong (net_of patch.now) result (fan_at patch.now.web place) }
{
    match place {
        Some((holder, port)) => patch.fan_first(holder, port),
        None => None,
    }
}

/// Whether sends lead nowhere: those of an outlet of the root canvas.
#[tactic(auto, unfolding(crate::specs::Tasks::leads_out))]
pub fn leads_out(patch: &Patch, node: u32) -> bool
    ensures { result ≡ leads_nowhere (net_of patch.now) node }
{
    is_outlet(patch, node) && patch.port_of(node).is_none()
}

/// Whether a box is an outlet of its canvas.
fn is_outlet(patch: &Patch, node: u32) -> bool
    ensures { result ≡ is_outlet_of (kind_in ((net_of patch.now).nodes node)) }
{
    match patch.node(node) {
        Some(found) => is_outlet_kind(&found.kind),
        None => false,
    }
}

fn is_outlet_kind(kind: &Kind) -> bool
    ensures { result ≡ is_outlet_of (Some kind.now) }
{
    matches!(
        kind,
        Kind::Glue(Glue::Port {
            side: Side::Outlet,
        },)
    )
}
