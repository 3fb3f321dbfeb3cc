//! Laws over a running patch from which a port box goes.

ghost use Rattle.std.specs.Prelude.{ℕ, List};
ghost use Rattle.pd_grove.specs.declared.ports.Side.{Side};
ghost use Rattle.pd_web.specs.declared.jacks.Jack.{Jack};
ghost use Rattle.pd_web.specs.declared.web.Web.{Web};
ghost use Rattle.pd_moving.specs.Orders.{AreAllInOrder, HasOwnLabel};
ghost use Rattle.pd_patch.specs.declared.patch.Patch.{Patch};
ghost use Rattle.pd_wiring.specs.Changes.{SameButRoom};
ghost use Rattle.pd_boxes.specs.declared.room.Place.{Place};
ghost use Rattle.pd_following.specs.Raising.{Raises};
ghost use Rattle.pd_leaving.specs.Leaving.{CanTakePort};

/// Where room was set aside, port boxes can go as they could.
pub fn loss_room_changes_nothing()
    ensures { (p q : Patch) (place : Place) (key holder : ℕ) (side : Side) (port : ℕ) → SameButRoom p q → CanTakePort p place key holder side port →
        CanTakePort q place key holder side port }
{}

/// Where a box has a port fewer, feeds that were in order are, if of the boxes from which feeds come no other one has the label of the box.
pub fn feeds_in_order_stay_so()
    ensures { (w w' : Web) (key : ℕ) (side : Side) (at : ℕ) (jack : Jack) (labels : List ℕ) → Raises w w' key side at jack → HasOwnLabel labels w' key →
        AreAllInOrder labels w' → AreAllInOrder labels w }
{}
