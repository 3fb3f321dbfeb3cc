//! The wires of the book by the ends that they join.

ghost use Rattle.std.specs.Prelude.{◌≡◌, ◌∷◌, ◌++◌, ◌+◌, [], List, OnOk};
ghost use Rattle.pd_wire.specs.Book.{IsEnd, live_wires};
ghost use Rattle.pd_web.specs.Wiring.{Holds, SameEnds};
ghost use Rattle.pd_web.specs.declared.joints.Joint.{Joint};

use pd_wire::{End, WireBook};
use std::alloc::AllocError;

/// The ends that a wire joins.
#[derive(Clone, Copy, Debug)]
pub struct Joint {
    pub source: End,
    pub sink: End,
}

/// A wire more, last in both its lists.
pub(crate) fn join(book: &mut WireBook, joint: &Joint) -> Result<(), AllocError>
    requires source { IsEnd book.old joint.now.source }
    requires sink { IsEnd book.old joint.now.sink }
    ensures holds { (js : List Joint) → Holds book.old js → OnOk result (Holds book.new (js ++ joint.now ∷ [])) }
    ensures ends { OnOk result (SameEnds book.old book.new) }
    ensures more { OnOk result (live_wires book.new ≡ live_wires book.old + 1) }
{
    book.reserve(0, 1)?;
    book.laws();
    book.add_last(joint.source, joint.sink);
    Ok(())
}
