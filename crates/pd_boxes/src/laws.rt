//! Laws over a running patch into which a box came, and over its table of names.

ghost use Rattle.std.specs.Prelude.{◌≡◌, ℕ, List};
ghost use Rattle.slab.specs.Slab.{get};
ghost use Rattle.pd_atom.specs.Names.{Names};
ghost use Rattle.pd_clock.specs.declared.times.Rate.{Rate};
ghost use Rattle.pd_name.specs.declared.Class.{Class};
ghost use Rattle.pd_grove.specs.declared.seeds.Seed.{Seed};
ghost use Rattle.pd_grove.specs.Forest.{IsForest};
ghost use Rattle.pd_bind.specs.Owning.{owners_in};
ghost use Rattle.pd_web.specs.Jacks.{KindsSmall};
ghost use Rattle.pd_patch.specs.declared.patch.Patch.{Patch};
ghost use Rattle.pd_patch.specs.Built.{IsBuilt};
ghost use Rattle.pd_wiring.specs.Changes.{CanRewire, AreAlike};
ghost use Rattle.pd_boxes.specs.declared.room.Place.{Place};
ghost use Rattle.pd_boxes.specs.Put.{CanPut, IsPut, IsLeaf, IsNoPort};
ghost use Rattle.pd_boxes.specs.Room.{SameButRoom};

/// A patch into which a box came that is no port of a box around is ready for more boxes, and a patch that runs goes on to be
/// one. So it does where its table of names goes on, if each name still has its owners.
pub fn patches_run_on()
    ensures can { (p q : Patch) (table : Names) (place : Place) (s : Seed) (key : ℕ) → CanPut p → IsLeaf s → IsPut p q table place s key → IsNoPort p place s.row.kind → CanPut q }
    ensures built { (p q : Patch) (table : Names) (place : Place) (s : Seed) (key : ℕ) → CanPut p → IsPut p q table place s key → IsNoPort p place s.row.kind →
        (file : List ℕ) (rate : Rate) → IsBuilt p table file rate → IsBuilt q table file rate }
    ensures names { (p : Patch) (table more : Names) (file : List ℕ) (rate : Rate) → IsBuilt p table file rate →
        ((class : Class) (name : ℕ) → owners_in more file p.grove class name ≡ owners_in table file p.grove class name) → IsBuilt p more file rate }
{}

/// Where room was set aside, boxes can come as they could, and a patch that runs goes on to be one.
pub fn room_changes_nothing()
    ensures can { (p q : Patch) → SameButRoom p q → CanPut p → CanPut q }
    ensures built { (p q : Patch) → SameButRoom p q → (names : Names) (file : List ℕ) (rate : Rate) → IsBuilt p names file rate → IsBuilt q names file rate }
{}

/// What a box that comes asks of a patch doesn't hang on what the boxes keep, nor on names, clocks or blocks; where wires came or went it
/// asks what an edit of wires does besides. A patch that runs has it if its boxes are one tree, of small kinds.
pub fn putting_asks_alike()
    ensures alike { (p q : Patch) → AreAlike p q → q.grove.root ≡ p.grove.root → CanPut p → CanPut q }
    ensures rewired { (p q : Patch) → q.grove ≡ p.grove → CanRewire q → CanPut p → CanPut q }
    ensures own { (p : Patch) → IsForest (get p.grove.nodes) (get p.grove.boards) p.grove.root → KindsSmall p.grove →
        (names : Names) (file : List ℕ) (rate : Rate) → IsBuilt p names file rate → CanPut p }
{}
