//! Laws over a running patch into which a box with an empty canvas inside came.

ghost use Rattle.std.specs.Prelude.{◌≡◌, ◌+◌, ◌<◌, ℕ, List, [], ◌∷◌, Some, None, length};
ghost use Rattle.slab.specs.Slab.{get};
ghost use Rattle.pd_atom.specs.Names.{Names};
ghost use Rattle.pd_clock.specs.declared.times.Rate.{Rate};
ghost use Rattle.pd_kind.specs.States.{start_of};
ghost use Rattle.pd_kind.specs.Tables.{started};
ghost use Rattle.pd_tree.specs.Trees.{Done, Holder, stand_of};
ghost use Rattle.pd_grove.specs.declared.nodes.Node.{Node};
ghost use Rattle.pd_grove.specs.declared.seeds.Seed.{Seed};
ghost use Rattle.pd_grove.specs.Grafts.{HasPartMore};
ghost use Rattle.pd_grove.specs.OwnPaths.{sub_reached};
ghost use Rattle.pd_grove.specs.Standing.{Stands, depth_of};
ghost use Rattle.pd_grove.specs.States.{IsFresh};
ghost use Rattle.pd_patch.specs.declared.patch.Patch.{Patch};
ghost use Rattle.pd_patch.specs.Built.{IsBuilt};
ghost use Rattle.pd_boxes.specs.declared.room.Place.{Place};
ghost use Rattle.pd_boxes.specs.Put.{CanPut, keys_before, keys_behind};
ghost use Rattle.pd_subpatches.specs.Shell.{IsShallow, IsShell, IsShellPut};

/// A patch into which a box with an empty canvas inside came is ready for more boxes, and a patch that runs goes on to be one.
pub fn shells_run_on()
    ensures can { (p q : Patch) (table : Names) (place : Place) (s : Seed) (key : ℕ) → CanPut p → IsShell s → IsShellPut p q table place s key → CanPut q }
    ensures built { (p q : Patch) (table : Names) (place : Place) (s : Seed) (key : ℕ) → CanPut p → IsShell s → IsShellPut p q table place s key →
        (file : List ℕ) (rate : Rate) → IsBuilt p table file rate → IsBuilt q table file rate }
{}

/// A box that came with an empty canvas inside is a part of the tree that came: one box, which holds a canvas of its seed's sheet without
/// boxes. It keeps what its kind keeps at first where its seed does.
pub fn shells_are_parts()
    ensures part { (p q : Patch) (table : Names) (place : Place) (s : Seed) (key : ℕ) → CanPut p → IsShellPut p q table place s key →
        HasPartMore (get p.grove.nodes) (get q.grove.nodes) (get p.grove.boards) (get q.grove.boards) place.canvas key (keys_before p place) (keys_behind p place) }
    ensures stands { (p q : Patch) (table : Names) (place : Place) (s : Seed) (key : ℕ) → (i : IsShellPut p q table place s key) →
        Stands (get q.grove.nodes) (get q.grove.boards) place.canvas (depth_of (get p.grove.boards place.canvas)) (key ∷ [])
        (Holder (stand_of s.row).cell i.comes.board.sheet Done Done) }
    ensures fresh { (p q : Patch) (table : Names) (place : Place) (s : Seed) (key : ℕ) (rate : Rate) (now : ℕ) → IsShellPut p q table place s key → IsFresh rate now s →
        (k : ℕ) (n : Node) → get p.grove.nodes k ≡ None → get q.grove.nodes k ≡ Some n → n.state ≡ Some (started (start_of n.kind rate) now) }
{}

/// The canvas to which a path leads through subpatches lies as deep as the path is long, and so a canvas may lie in it where the path is short
/// enough.
pub fn paths_are_depths()
    ensures { (p : Patch) (path : List ℕ) (place : Place) → CanPut p → sub_reached p.grove (Some p.grove.root) path ≡ Some place.canvas →
        length path + 1 < 257 → IsShallow p place }
{}
