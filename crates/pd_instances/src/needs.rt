//! What grown boxes need, told before they have keys.

ghost use Rattle.std.specs.Prelude.{if◌then◌else◌, ◌≡◌, ◌+◌, ◌∷◌, ◌≤◌, Some, None, cond, nat_lt, length, map, drop, take, replicate, [], OnOk, IfOk};
ghost use Rattle.pd_object.specs.Ports.{IsSmallKind};
ghost use Rattle.pd_tree.specs.Ports.{inlet_signal, outlet_signal};
ghost use Rattle.pd_tree.specs.Trees.{stand_of, stands_in};
ghost use Rattle.pd_grove.specs.States.{AreSmall};
ghost use Rattle.pd_instances.specs.Needs.{port_of as port_of_kind, plus as plus_so, sum_of, leaf_need, holder_need as holder_need_so, stacked, stacked_on, need_on, needs_of as needs_of_stands};

use pd_kind::{Glue, Kind, PortList, Side, Signal, ports};
use pd_tree::Row;
use std::alloc::{AllocError, Global};
use std::collections::VecDeque;

/// How many inlets and outlets boxes are of the canvas around, and whether one of the outlets carries signals.
#[derive(Clone, Copy, Debug, PartialEq, Eq)]
pub struct PortCount {
    pub inlets: u32,
    pub outlets: u32,
    pub is_signal: bool,
}

/// How many ports and blocks a box has.
#[derive(Clone, Copy, Debug, PartialEq, Eq)]
pub struct Need {
    pub inlets: u32,
    pub outlets: u32,
    pub blocks: u32,
}

/// What each of these boxes needs, which stand in text order.
///
/// # Errors
///
/// `AllocError` where memory ran out.
pub(crate) fn needs_of(alloc: Global, rows: &[Row]) -> Result<VecDeque<Need>, AllocError>
    requires { AreSmall rows.now }
    ensures { IfOk result (λ needs. needs.items ≡ needs_of_stands (stands_in rows.now)) }
{
    let mut stack = VecDeque::with_capacity(alloc, rows.len())?;
    let mut needs = VecDeque::with_capacity(alloc, rows.len())?;
    let mut i = rows.len();
    while i > 0 {
        i -= 1;
        let need = stack_row(&rows[i], &mut stack)?;
        needs.push_front(need)?;
    }
    Ok(needs)
}

/// What a box needs, where the boxes that follow it are stacked; it is stacked before those that don't lie in it.
fn stack_row(row: &Row, stack: &mut VecDeque<PortCount>) -> Result<Need, AllocError>
    requires { IsSmallKind row.now.kind }
    ensures stack { OnOk result (stack.new.items ≡ stacked_on (stand_of row.now).cell row.now.sheet row.now.boxes stack.old.items) }
    ensures need { IfOk result (λ need. need ≡ need_on (stand_of row.now).cell row.now.sheet row.now.boxes stack.old.items) }
{
    let need = match &row.sheet {
        Some(_) => holder_need(take_ports(stack, row.boxes)?),
        None => need_of_kind(&row.kind),
    };
    stack.push_front(port_of(&row.kind))?;
    Ok(need)
}

/// Takes the first so many off, and gives what they are together.
fn take_ports(stack: &mut VecDeque<PortCount>, boxes: u32) -> Result<PortCount, AllocError>
    ensures sum { IfOk result (λ sum. sum ≡ sum_of (take boxes stack.old.items)) }
    ensures rest { OnOk result (stack.new.items ≡ drop boxes stack.old.items) }
{
    let mut sum = PortCount {
        inlets: 0,
        outlets: 0,
        is_signal: false,
    };
    for _ in 0..boxes {
        sum = add_first(sum, stack)?;
    }
    Ok(sum)
}

/// Takes the first one off, where there is one, and adds it.
fn add_first(sum: PortCount, stack: &mut VecDeque<PortCount>) -> Result<PortCount, AllocError>
    ensures sum { IfOk result (λ more. more ≡ plus_so sum (sum_of (take 1 stack.old.items))) }
    ensures rest { OnOk result (stack.new.items ≡ drop 1 stack.old.items) }
{
    match stack.pop_front() {
        Some(first) => plus(sum, first),
        None => Ok(sum),
    }
}

fn plus(sum: PortCount, more: PortCount) -> Result<PortCount, AllocError>
    ensures { IfOk result (λ all. all ≡ plus_so sum more) }
{
    Ok(PortCount {
        inlets: add(sum.inlets, more.inlets)?,
        outlets: add(sum.outlets, more.outlets)?,
        is_signal: sum.is_signal || more.is_signal,
    })
}

fn add(n: u32, m: u32) -> Result<u32, AllocError>
    ensures { IfOk result (λ sum. sum ≡ n + m) }
{
    match n.checked_add(m) {
        Some(sum) => Ok(sum),
        None => Err(AllocError),
    }
}

/// What a box needs that holds a canvas with these ports.
fn holder_need(ports: PortCount) -> Need
    ensures { result ≡ holder_need_so ports }
{
    let blocks = if ports.is_signal { ports.outlets } else { 0 };
    Need {
        inlets: ports.inlets,
        outlets: ports.outlets,
        blocks,
    }
}

/// What a box of a kind needs that holds no canvas.
fn need_of_kind(kind: &Kind) -> Need
    requires { IsSmallKind kind.now }
    ensures { result ≡ leaf_need kind.now }
{
    let list = ports(kind);
    Need {
        inlets: list.inlets(),
        outlets: list.outlets(),
        blocks: block_count_of(&list),
    }
}

/// How many blocks a box with these ports has: one for each outlet, where the first carries signals.
fn block_count_of(list: &PortList) -> u32
    ensures { result ≡ (if nat_lt 0 list.now.signal_outlets then list.now.outlets else 0) }
{
    if list.outlet_signal(0) {
        list.outlets()
    } else {
        0
    }
}

/// The port that a box of a kind is of the canvas around.
fn port_of(kind: &Kind) -> PortCount
    ensures { result ≡ port_of_kind kind.now }
{
    let (inlets, outlets, is_signal) = match kind {
        Kind::Glue(Glue::Port { side: Side::Inlet }) | Kind::Signal(Signal::Inlet) => (1, 0, false),
        Kind::Glue(Glue::Port { side: Side::Outlet }) => (0, 1, false),
        Kind::Signal(Signal::Outlet) => (0, 1, true),
        _ => (0, 0, false),
    };
    PortCount {
        inlets,
        outlets,
        is_signal,
    }
}
