//! A law over a running patch in which a port box moves.

ghost use Rattle.std.specs.Prelude.{ℕ};
ghost use Rattle.pd_grove.specs.declared.ports.Side.{Side};
ghost use Rattle.pd_patch.specs.declared.patch.Patch.{Patch};
ghost use Rattle.pd_wiring.specs.Changes.{SameButRoom};
ghost use Rattle.pd_sliding.specs.Sliding.{CanSlide};

/// Where room was set aside, port boxes can move as they could.
pub fn route_room_changes_nothing()
    ensures { (p q : Patch) (key holder : ℕ) (side : Side) (from : ℕ) → SameButRoom p q → CanSlide p key holder side from → CanSlide q key holder side from }
{}
