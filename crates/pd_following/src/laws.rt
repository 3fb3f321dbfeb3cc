//! Laws over a running patch into which a port box came.

ghost use Rattle.std.specs.Prelude.{ℕ, List};
ghost use Rattle.pd_atom.specs.Names.{Names};
ghost use Rattle.pd_clock.specs.declared.times.Rate.{Rate};
ghost use Rattle.pd_grove.specs.declared.seeds.Seed.{Seed};
ghost use Rattle.pd_grove.specs.declared.ports.Side.{Side};
ghost use Rattle.pd_web.specs.declared.jacks.Jack.{Jack};
ghost use Rattle.pd_web.specs.declared.web.Web.{Web};
ghost use Rattle.pd_moving.specs.Orders.{AreAllInOrder, HasOwnLabel};
ghost use Rattle.pd_patch.specs.declared.patch.Patch.{Patch};
ghost use Rattle.pd_patch.specs.Built.{IsBuilt};
ghost use Rattle.pd_boxes.specs.declared.room.Place.{Place};
ghost use Rattle.pd_boxes.specs.Put.{CanPut};
ghost use Rattle.pd_boxes.specs.Room.{SameButRoom};
ghost use Rattle.pd_following.specs.Ports.{CanPutPort, IsPortPut};
ghost use Rattle.pd_following.specs.Raising.{Raises};

use pd_ports::port_boxes_are_known;

/// A patch into which a port box came is ready for more boxes, and a patch that runs goes on to be one.
pub fn patches_run_on_with_ports()
    ensures can { (p q : Patch) (table : Names) (place : Place) (s : Seed) (key holder : ℕ) (side : Side) → CanPutPort p place s holder side →
        IsPortPut p q table place s key holder side → CanPut q }
    ensures built { (p q : Patch) (table : Names) (place : Place) (s : Seed) (key holder : ℕ) (side : Side) → CanPutPort p place s holder side →
        IsPortPut p q table place s key holder side → (file : List ℕ) (rate : Rate) → IsBuilt p table file rate → IsBuilt q table file rate }
{
    port_boxes_are_known();
}

/// Where room was set aside, port boxes can come as they could.
pub fn port_room_changes_nothing()
    ensures { (p q : Patch) (place : Place) (s : Seed) (holder : ℕ) (side : Side) → SameButRoom p q → CanPutPort p place s holder side → CanPutPort q place s holder side }
{}

/// Where a box has a port more, feeds that were in order are, if of the boxes from which feeds come no other one has the label of the box.
pub fn feeds_stay_in_order()
    ensures { (w w' : Web) (key : ℕ) (side : Side) (at : ℕ) (jack : Jack) (labels : List ℕ) → Raises w w' key side at jack → HasOwnLabel labels w key →
        AreAllInOrder labels w → AreAllInOrder labels w' }
{}
