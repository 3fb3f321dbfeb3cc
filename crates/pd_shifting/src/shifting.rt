//! A box that an edit moves in the running patch.

ghost use Rattle.std.specs.Prelude.{◌≡◌, ℕ, List, false, Ok, IfOk, IfErr};
ghost use Rattle.slab.specs.Slab.{ContainsKey};
ghost use Rattle.pd_num.specs.Scale.{millionths, IsInRange};
ghost use Rattle.pd_web.specs.Changes.{wires_told, Meet};
ghost use Rattle.pd_boxes.specs.Put.{CanPut};
ghost use Rattle.pd_adding.specs.Coming.{own_zero};
ghost use Rattle.pd_shifting.specs.Moves.{is_port_around, moving as moving_so, IsNotMoved, MovesBox};

use crate::asking::{Moving, box_to_move, port_to_slide};
use crate::sliding::slide;
use pd_num::Num;
use pd_patch::Patch;
use pd_wiring::EditRefusal;
use std::alloc::Global;

/// A box that an edit moved: the key of its canvas, its own, and the canvas around, where ports of the box in it changed places.
#[derive(Clone, Copy, Debug, PartialEq, Eq)]
pub struct MovedBox {
    pub canvas: u32,
    pub key: u32,
    pub around: Option<u32>,
}

/// Moves the box of a number in the canvas at a path of the patch's own document to another place in its window, and tells its keys. Where
/// it is a port of the box around, the ports of that follow, and room is set aside for it before.
///
/// # Errors
///
/// The first reason against it: `NoCanvas`, `NoBox`, also for an array. Then, for a port of the box around, `NoMemory`.
pub fn move_box(
    alloc: Global,
    patch: &mut Patch,
    path: &[u32],
    number: u32,
    x: Num,
    y: Num,
) -> Result<MovedBox, EditRefusal>
    requires can { CanPut patch.old }
    requires meet { Meet patch.old.web }
    ensures moved { IfOk result (λ b. MovesBox patch.old patch.new path.now number x y b) }
    ensures refused { IfErr result (λ why. IsNotMoved patch.old patch.new path.now number why) }
    ensures goes_on { CanPut patch.new }
    ensures meet { Meet patch.new.web }
    ensures zero { own_zero patch.new ≡ own_zero patch.old }
    ensures as_many { wires_told patch.new.web ≡ wires_told patch.old.web }
{
    // They are called for what they say of the place, which the proof cites.
    let _x = x.micros();
    let _y = y.micros();
    let moving = box_to_move(patch, path, number)?;
    match port_to_slide(patch, moving) {
        Some(port) => slide(alloc, patch, moving, port, x, y),
        None => Ok(shift(patch, moving, x, y)),
    }
}

/// Moves a box that is no port of a box around.
fn shift(patch: &mut Patch, moving: Moving, x: Num, y: Num) -> MovedBox
    requires there { ContainsKey patch.old.grove.nodes moving.key }
    requires plain { is_port_around patch.old.grove moving.canvas moving.key ≡ false }
    requires x_told { IsInRange millionths x }
    requires y_told { IsInRange millionths y }
    ensures { (path : List ℕ) (number : ℕ) → moving_so patch.old path number ≡ Ok (moving.canvas, moving.key) → MovesBox patch.old patch.new path number x y result }
{
    patch.grove.move_box(moving.key, x, y);
    MovedBox {
        canvas: moving.canvas,
        key: moving.key,
        around: None,
    }
}
