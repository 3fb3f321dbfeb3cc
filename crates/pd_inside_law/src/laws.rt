//! Laws over a running patch and the patch that opens from what it saves.

ghost use Rattle.std.specs.Prelude.{◌≡◌, ◌≤◌, ℕ, List, Some, is_some};
ghost use Rattle.pd_atom.specs.Names.{Names};
ghost use Rattle.pd_clock.specs.declared.times.Rate.{Rate};
ghost use Rattle.pd_canvas.specs.declared.edits.Edit.{Edit};
ghost use Rattle.pd_canvas.specs.Pages.{Page};
ghost use Rattle.pd_canvas.specs.Proper.{IsProper};
ghost use Rattle.pd_library.specs.Files.{answer_in};
ghost use Rattle.pd_library.specs.declared.answers.Answer.{Answer};
ghost use Rattle.pd_growth.specs.Growth.{grown};
ghost use Rattle.pd_growth.specs.Steps.{beginning};
ghost use Rattle.pd_tree.specs.Trees.{Tree};
ghost use Rattle.pd_grove.specs.Standing.{GroveStands};
ghost use Rattle.pd_grove.specs.Telling.{reached};
ghost use Rattle.pd_grove.specs.TextOrder.{deep};
ghost use Rattle.pd_patch.specs.declared.patch.Patch.{Patch};
ghost use Rattle.pd_patch.specs.Grown.{IsTree, IsFresh};
ghost use Rattle.pd_wiring.specs.Changes.{AreAlike, CanRewire, SameButRoom};
ghost use Rattle.pd_wiring.specs.Plans.{IsRewired};
ghost use Rattle.pd_reload_law.specs.Wires.{StandOnce};
ghost use Rattle.pd_alike_law.specs.Alike.{HasOpened};
ghost use Rattle.pd_inside_law.specs.Inside.{HoldsWires, IsSameCanvas};

/// The wires of a patch that has just grown from a proper document are as they are as long as it runs: so an edit of wires
/// leaves them, room that was set aside, and whatever changes only what the boxes keep, names, clocks and blocks.
pub fn wires_hold_on()
    ensures first { (files : List (ℕ × Answer)) (name : List ℕ) (d : Page) (before names : Names) (n : ℕ) (rate : Rate) (p : Patch) →
        IsProper before d → (grew : IsTree p names rate (grown (answer_in files) name d (beginning before n))) → IsFresh p names name rate →
        HoldsWires p grew.tree }
    ensures edited { (p q : Patch) (t : Tree) (path : List ℕ) (e : Edit) (canvas : ℕ) → GroveStands p.grove t.sheet t.boxes →
        deep t.boxes ≤ 256 → CanRewire p → IsRewired p q path e canvas → HoldsWires p t → HoldsWires q t }
    ensures room { (p q : Patch) (t : Tree) → SameButRoom p q → HoldsWires p t → HoldsWires q t }
    ensures alike { (p q : Patch) (t : Tree) → AreAlike p q → q.grove.root ≡ p.grove.root → HoldsWires p t → HoldsWires q t }
{}

/// A path leads to a canvas in both patches or in neither.
pub fn opened_patches_have_the_canvases()
    ensures { (p q : Patch) (t : Tree) (path : List ℕ) → HasOpened p t q →
        is_some (reached q.grove (Some q.grove.root) path) ≡ is_some (reached p.grove (Some p.grove.root) path) }
{}

/// In each canvas to which a path leads, in abstractions too, the patches have the same ports, wires and signal order.
pub fn opened_patches_are_alike_everywhere()
    ensures { (p q : Patch) (t : Tree) (path : List ℕ) (c d : ℕ) → HasOpened p t q → StandOnce p.web → HoldsWires p t →
        reached p.grove (Some p.grove.root) path ≡ Some c → reached q.grove (Some q.grove.root) path ≡ Some d → IsSameCanvas p c q d }
{}
