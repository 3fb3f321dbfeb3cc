//! A port box of a canvas in a box that an edit moves, and with it the port of that box.

ghost use Rattle.std.specs.Prelude.{◌≡◌, ◌==◌, ℕ, List, true, cond, None, Ok, IfOk, IfErr};
ghost use Rattle.slab.specs.Slab.{get};
ghost use Rattle.pd_num.specs.Scale.{millionths, IsInRange};
ghost use Rattle.pd_grove.specs.Owning.{board_in};
ghost use Rattle.pd_wiring.specs.declared.refusals.EditRefusal.TheVariants.{NoMemory};
ghost use Rattle.pd_wiring.specs.Changes.{SameButRoom};
ghost use Rattle.pd_sliding.specs.Sliding.{CanSlide};
ghost use Rattle.pd_shifting.specs.Moves.{is_port_around, moving as moving_so, MovesBox};

use crate::asking::Moving;
use crate::shifting::MovedBox;
use pd_grove::Grove;
use pd_num::Num;
use pd_patch::Patch;
use pd_sliding::{reserve_route, route_room_changes_nothing, slide_port};
use pd_web::Spot;
use pd_wiring::EditRefusal;
use std::alloc::Global;

/// Moves a port box, with the port of the box around that it is.
pub(crate) fn slide(
    alloc: Global,
    patch: &mut Patch,
    moving: Moving,
    port: Spot,
    x: Num,
    y: Num,
) -> Result<MovedBox, EditRefusal>
    requires can { CanSlide patch.old moving.key port.node port.side port.port }
    requires port { is_port_around patch.old.grove moving.canvas moving.key ≡ true }
    requires x_told { IsInRange millionths x }
    requires y_told { IsInRange millionths y }
    ensures moved { IfOk result (λ b. (path : List ℕ) (number : ℕ) → moving_so patch.old path number ≡ Ok (moving.canvas, moving.key) →
        MovesBox patch.old patch.new path number x y b) }
    ensures short { IfErr result (λ why. (why ≡ NoMemory) × SameButRoom patch.old patch.new) }
{
    route_room_changes_nothing();
    let around = canvas_of(&patch.grove, port.node);
    let Ok(route) = reserve_route(alloc, patch, moving.key, port) else {
        return Err(EditRefusal::NoMemory);
    };
    let number = slide_port(patch, route, x, y);
    Ok(MovedBox {
        canvas: moving.canvas,
        key: moving.key,
        around: changed(port.port, number, around),
    })
}

/// A canvas, where the number of a port in it changed.
fn changed(from: u32, to: u32, canvas: Option<u32>) -> Option<u32>
    ensures { result ≡ cond (from == to) None canvas }
{
    if from == to { None } else { canvas }
}

/// The canvas in which a box lies.
fn canvas_of(grove: &Grove, key: u32) -> Option<u32>
    ensures { result ≡ board_in (get grove.now.nodes key) }
{
    match grove.node(key) {
        Some(node) => Some(node.board),
        None => None,
    }
}
