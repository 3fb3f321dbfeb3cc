//! What the owners of names are.

ghost use Rattle.std.specs.Prelude.{◌≡◌};
ghost use Rattle.pd_bind.specs.Owning.{owner_in};

use pd_grove::Grove;

/// The owner that stands for the root canvas.
pub(crate) const ROOT: u32 = u32::MAX;

/// An owner of a name: a box by its key, or a canvas by its key.
#[derive(Clone, Copy, Debug, PartialEq, Eq)]
pub enum Owner {
    Node(u32),
    Canvas(u32),
}

/// What an owner is. The greatest number stands for the root canvas, the key of a box that holds a canvas for that canvas, and
/// every other key for its box.
pub fn owner_at(grove: &Grove, owner: u32) -> Owner
    ensures { result ≡ owner_in grove.now owner }
{
    if owner == ROOT {
        return Owner::Canvas(grove.root());
    }
    match grove.canvas_in(owner) {
        Some(canvas) => Owner::Canvas(canvas),
        None => Owner::Node(owner),
    }
}
