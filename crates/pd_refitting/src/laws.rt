//! Laws over a running patch of which a box became another one.

ghost use Rattle.std.specs.Prelude.{ℕ, List};
ghost use Rattle.slab.specs.Slab.{get};
ghost use Rattle.pd_atom.specs.Names.{Names};
ghost use Rattle.pd_clock.specs.declared.times.Rate.{Rate};
ghost use Rattle.pd_grove.specs.declared.nodes.Node.{Node};
ghost use Rattle.pd_grove.specs.declared.seeds.Seed.{Seed};
ghost use Rattle.pd_grove.specs.Grafts.{AreAlike, HasBoxChanged};
ghost use Rattle.pd_web.specs.Changes.{Meet};
ghost use Rattle.pd_patch.specs.declared.patch.Patch.{Patch};
ghost use Rattle.pd_patch.specs.Built.{IsBuilt};
ghost use Rattle.pd_boxes.specs.Put.{node_of, CanPut};
ghost use Rattle.pd_boxes.specs.Room.{SameButRoom};
ghost use Rattle.pd_refitting.specs.Refits.{CanRefit, IsRefitted};

/// A patch of which a box became another one is ready for more boxes, and a patch that runs goes on to be one. Its wires are those that
/// there were, and meet.
pub fn patches_run_on_refitted()
    ensures can { (p q : Patch) (table : Names) (key : ℕ) (n : Node) (s : Seed) → CanRefit p key n s → IsRefitted p q table key n s → CanPut q }
    ensures meet { (p q : Patch) (table : Names) (key : ℕ) (n : Node) (s : Seed) → IsRefitted p q table key n s → Meet p.web → Meet q.web }
    ensures built { (p q : Patch) (table : Names) (key : ℕ) (n : Node) (s : Seed) → CanRefit p key n s → IsRefitted p q table key n s →
        (file : List ℕ) (rate : Rate) → IsBuilt p table file rate → IsBuilt q table file rate }
{}

/// Boxes and canvases lie in one another as they did, and one box is another one.
pub fn refits_change_boxes()
    ensures alike { (p q : Patch) (table : Names) (key : ℕ) (n : Node) (s : Seed) → CanRefit p key n s → IsRefitted p q table key n s →
        AreAlike (get p.grove.nodes) (get q.grove.nodes) (get p.grove.boards) (get q.grove.boards) }
    ensures changed { (p q : Patch) (table : Names) (key : ℕ) (n : Node) (s : Seed) → CanRefit p key n s → IsRefitted p q table key n s →
        HasBoxChanged (get p.grove.nodes) (get q.grove.nodes) (get p.grove.boards) (get q.grove.boards) n.board key n (node_of n.board s) }
{}

/// Where room was set aside, boxes can become others as they could.
pub fn refit_room_changes_nothing()
    ensures { (p q : Patch) (key : ℕ) (n : Node) (s : Seed) → SameButRoom p q → CanRefit p key n s → CanRefit q key n s }
{}
