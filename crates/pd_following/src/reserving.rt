//! Room for a port box that comes, and for the port of the box around, set aside in every layer.

ghost use Rattle.std.specs.Prelude.{◌≡◌, ◌+◌, ℕ, ◌∷◌, length, Some, IsSome, IfOk};
ghost use Rattle.std.specs.List.{list_any};
ghost use Rattle.slab.specs.Slab.{get, ContainsKey};
ghost use Rattle.pd_object.specs.Ports.{IsSmallKind};
ghost use Rattle.pd_grove.specs.declared.ports.Side.{Side};
ghost use Rattle.pd_grove.specs.declared.ports.Side.TheVariants.{Outlets};
ghost use Rattle.pd_grove.specs.Forest.{holder_in};
ghost use Rattle.pd_grove.specs.Ports.{port_signal};
ghost use Rattle.pd_web.specs.Hops.{ports_told};
ghost use Rattle.pd_web.specs.Jacks.{plain_jack};
ghost use Rattle.pd_patch.specs.Telling.{order_in};
ghost use Rattle.pd_patch.specs.Values.{block_count};
ghost use Rattle.pd_boxes.specs.Room.{SameButRoom};
ghost use Rattle.pd_following.specs.Ports.{IsPortAt, carries};
ghost use Rattle.pd_following.specs.Room.{IsFor, TakesPort};

use crate::room::PortBoxRoom;
use pd_atom::Symbols;
use pd_boxes::{Place, reserve_box, silent_blocks};
use pd_grove::{Grove, Seed, Side};
use pd_kind::{Glue, Kind, Side as PortSide, Signal};
use pd_patch::Patch;
use pd_ports::reserve_ports;
use pd_web::Web;
use std::alloc::{AllocError, Global};

/// No number of 32 bits is greater.
const LAST_NUMBER: u32 = 4_294_967_295;

/// Sets room aside for a port box of a seed that comes into a live canvas in a box, and for the port that it is. All that the patch tells
/// stays, whatever the answer.
///
/// # Errors
///
/// `AllocError` where memory ran out, or where the patch has as many boxes, or the box around as many ports, as can be counted.
pub fn reserve_port(
    alloc: Global,
    patch: &mut Patch,
    place: Place,
    seed: Seed,
    symbols: &mut Symbols,
) -> Result<PortBoxRoom, AllocError>
    requires here { ContainsKey patch.old.grove.boards place.canvas }
    requires ordered { IsSome (order_in patch.old.orders.items place.canvas) }
    requires small { IsSmallKind seed.row.kind }
    requires port { (holder : ℕ) × (side : Side) × IsPortAt patch.old.grove place seed.row.kind holder side }
    ensures same { SameButRoom patch.old patch.new }
    ensures table { symbols.new ≡ symbols.old }
    ensures comes { IfOk result (λ room. IsFor patch.new room place seed) }
    ensures room { IfOk result (λ room. TakesPort patch.new room symbols.old) }
{
    let holder = holder_of(&patch.grove, place.canvas);
    let side = side_of(&seed.row.kind);
    let inlets = one_more(patch.web.inlets_at(holder))?;
    let outlets = one_more(patch.web.outlets_at(holder))?;
    let count = blocks_then(&patch.web, holder, &seed.row.kind, outlets);
    let around = reserve_ports(&mut patch.web, alloc, 0, inlets, outlets)?;
    let blocks = silent_blocks(alloc, count)?;
    let own = reserve_box(alloc, patch, place, seed, symbols)?;
    Ok(PortBoxRoom {
        own,
        holder,
        side,
        around,
        blocks,
    })
}

/// The box that holds a canvas.
fn holder_of(grove: &Grove, canvas: u32) -> u32
    requires { IsSome (holder_in (get grove.now.boards canvas)) }
    ensures { holder_in (get grove.now.boards canvas) ≡ Some result }
{
    let Some(board) = grove.board(canvas) else {
        return 0;
    };
    match board.holder {
        Some(holder) => holder,
        None => 0,
    }
}

/// On which side a port box is a port.
fn side_of(kind: &Kind) -> Side
    ensures { (side : Side) → IsSome (port_signal side kind.now) → result ≡ side }
{
    match kind {
        Kind::Glue(
            Glue::Port {
                side: PortSide::Outlet,
            },
        ) => Side::Outlets,
        Kind::Signal(Signal::Outlet) => Side::Outlets,
        _ => Side::Inlets,
    }
}

fn one_more(count: u32) -> Result<u32, AllocError>
    ensures { IfOk result (λ more. more ≡ count + 1) }
{
    if count < LAST_NUMBER {
        return Ok(count + 1);
    }
    Err(AllocError)
}

/// How many blocks a box has where a box of a kind is an outlet of it besides, and it has so many then.
fn blocks_then(web: &Web, holder: u32, kind: &Kind, outlets: u32) -> u32
    requires { outlets ≡ length (ports_told web.now Outlets holder) + 1 }
    ensures { result ≡ block_count (plain_jack (carries Outlets kind.now) ∷ ports_told web.now Outlets holder) }
{
    if is_signal_outlet(kind) || has_signal_outlet(web, holder) {
        outlets
    } else {
        0
    }
}

fn is_signal_outlet(kind: &Kind) -> bool
    ensures { result ≡ carries Outlets kind.now }
{
    matches!(kind, Kind::Signal(Signal::Outlet))
}

fn has_signal_outlet(web: &Web, node: u32) -> bool
    ensures { result ≡ list_any (λ j. j.is_signal) (ports_told web.now Outlets node) }
{
    for outlet in 0..web.outlets_at(node) {
        if web.outlet_signal_at(node, outlet) {
            return true;
        }
    }
    false
}
