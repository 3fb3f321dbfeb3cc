//! Laws over the tree of a running patch as it stands.

ghost use Rattle.std.specs.Prelude.{◌≡◌, ◌≤◌, ℕ, List};
ghost use Rattle.pd_atom.specs.Names.{Names};
ghost use Rattle.pd_clock.specs.declared.times.Rate.{Rate};
ghost use Rattle.pd_canvas.specs.declared.edits.Edit.{Edit};
ghost use Rattle.pd_tree.specs.Trees.{Tree};
ghost use Rattle.pd_fit.specs.Fitting.{wires_fitting};
ghost use Rattle.pd_growth.specs.Steps.{Stock, Step, gives};
ghost use Rattle.pd_grove.specs.TextOrder.{deep};
ghost use Rattle.pd_patch.specs.declared.patch.Patch.{Patch};
ghost use Rattle.pd_patch.specs.declared.refusal.GrowRefusal.{GrowRefusal};
ghost use Rattle.pd_patch.specs.declared.refusal.GrowRefusal.TheVariants.{NoMemory};
ghost use Rattle.pd_patch.specs.Grown.{HasCause, IsTree, IsFresh};
ghost use Rattle.pd_patch.specs.Sounds.{sound_of};
ghost use Rattle.pd_wiring.specs.Changes.{AreAlike, CanRewire, SameButRoom};
ghost use Rattle.pd_wiring.specs.Plans.{IsRewired};
ghost use Rattle.pd_reload_law.specs.Reloading.{RunsAs};
ghost use Rattle.pd_reload_law.specs.Saving.{AreMade};
ghost use Rattle.pd_reload_law.specs.Wires.{StandOnce};
ghost use Rattle.pd_alike_law.specs.Alike.{now_of};
ghost use Rattle.pd_inside_law.specs.Inside.{IsWiredInside};
ghost use Rattle.pd_proper_law.specs.Saves.{AllSaveWell};
ghost use Rattle.pd_limits_law.specs.Limits.{HasFewWires};

/// A patch that has just grown has few wires, and so it has after each edit of wires, with more room, and whatever the
/// boxes keep.
pub fn few_wires_hold_on()
    ensures first { (p : Patch) (names : Names) (file : List ℕ) (rate : Rate) (s : Step Tree) → IsTree p names rate s →
        IsFresh p names file rate → HasFewWires p }
    ensures edited { (p q : Patch) (path : List ℕ) (e : Edit) (canvas : ℕ) → IsRewired p q path e canvas → HasFewWires p → HasFewWires q }
    ensures room { (p q : Patch) → SameButRoom p q → HasFewWires p → HasFewWires q }
    ensures alike { (p q : Patch) → AreAlike p q → q.grove.root ≡ p.grove.root → HasFewWires p → HasFewWires q }
{}

/// The tree of a running patch as it stands has few wires that fit. Its canvases lie as deep as in the tree that grew, and
/// its boxes keep as many values.
pub fn saved_patches_keep_the_limits()
    ensures wires { (p : Patch) (t : Tree) → RunsAs p.grove t → CanRewire p → StandOnce p.web → IsWiredInside p.grove p.web t → HasFewWires p →
        wires_fitting (now_of p t).sheet (now_of p t).boxes ≤ 65536 }
    ensures depth { (p : Patch) (t : Tree) → deep (now_of p t).boxes ≡ deep t.boxes }
    ensures sound { (p : Patch) (t : Tree) (names : Names) (rate : Rate) → RunsAs p.grove t → AreMade t.boxes → AllSaveWell names p.grove →
        sound_of rate (now_of p t).boxes ≡ sound_of rate t.boxes }
{}

/// Where the tree of a running patch as it stands grows, a patch is refused for want of memory alone.
pub fn saved_patches_are_refused_for_memory_alone()
    ensures { (p : Patch) (t : Tree) (names : Names) (rate : Rate) (s : Step Tree) (rest : Stock) (why : GrowRefusal) → RunsAs p.grove t →
        AreMade t.boxes → sound_of rate t.boxes ≤ 16777216 → CanRewire p → StandOnce p.web → IsWiredInside p.grove p.web t → HasFewWires p →
        AllSaveWell names p.grove → s ≡ gives (now_of p t) rest → HasCause why s rate → why ≡ NoMemory }
{}
