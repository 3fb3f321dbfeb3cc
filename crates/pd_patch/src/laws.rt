//! Laws over what a patch tells, and over how deep canvases lie in one another.

ghost use Rattle.std.specs.Prelude.{◌≡◌, ◌≤◌, ◌+◌, ℕ, List, Option, length, Some};
ghost use Rattle.slab.specs.Slab.{get};
ghost use Rattle.pd_atom.specs.Names.{Names};
ghost use Rattle.pd_canvas.specs.Pages.{Page};
ghost use Rattle.pd_clock.specs.declared.times.Rate.{Rate};
ghost use Rattle.pd_canvas.specs.Proper.{levels};
ghost use Rattle.pd_library.specs.declared.answers.Answer.{Answer};
ghost use Rattle.pd_tree.specs.declared.rows.Sheet.{Sheet};
ghost use Rattle.pd_tree.specs.Trees.{Tree, Trees};
ghost use Rattle.pd_growth.specs.Steps.{Stock, gives};
ghost use Rattle.pd_growth.specs.Growth.{grown};
ghost use Rattle.pd_grove.specs.declared.grove.Grove.{Grove};
ghost use Rattle.pd_grove.specs.Standing.{GroveStands};
ghost use Rattle.pd_grove.specs.Telling.{reached};
ghost use Rattle.pd_grove.specs.TextOrder.{deep};
ghost use Rattle.pd_web.specs.Canvases.{IsOwn};
ghost use Rattle.pd_patch.specs.declared.patch.Patch.{Patch};
ghost use Rattle.pd_patch.specs.Built.{IsBuilt, IsAtStart};
ghost use Rattle.pd_patch.specs.Grown.{IsFresh};
ghost use Rattle.pd_patch.specs.Numbers.{AreNumbered};
ghost use Rattle.pd_patch.specs.Paths.{path_told};

/// Where each box stands once in its canvas and in no other and its number is under its key, the path that is told of a canvas is the
/// one that leads to it from the root.
pub fn paths_lead_back()
    ensures { (g : Grove) (numbers : List ℕ) (s : Sheet) (t : Trees) → GroveStands g s t → ((d : ℕ) → IsOwn g d) → AreNumbered g numbers →
        (path : List ℕ) (c : ℕ) → reached g (Some g.root) path ≡ Some c → length path ≤ 256 → path_told (get g.nodes) g.boards numbers c ≡ path }
{}

/// A path that leads to a canvas has no more numbers than canvases lie in one another inside the root. So where no more than 256 do, the
/// path that is told of such a canvas is the whole one.
pub fn paths_are_short()
    ensures short { (g : Grove) (s : Sheet) (t : Trees) → GroveStands g s t → (path : List ℕ) (c : ℕ) →
        reached g (Some g.root) path ≡ Some c → length path ≤ deep t }
    ensures whole { (g : Grove) (numbers : List ℕ) (s : Sheet) (t : Trees) → GroveStands g s t → ((d : ℕ) → IsOwn g d) → AreNumbered g numbers →
        deep t ≤ 256 → (path : List ℕ) (c : ℕ) → reached g (Some g.root) path ≡ Some c → path_told (get g.nodes) g.boards numbers c ≡ path }
{}

/// Where with the root no more than 256 canvases lie in one another in a document, no more do in what grows from it, whatever files there
/// are. From any other document one more may.
pub fn growth_is_shallow()
    ensures documents { (lib : ℕ → Option Answer) (name : List ℕ) (p : Page) (w v : Stock) (t : Tree) → levels p.boxes + 1 ≤ 256 →
        grown lib name p w ≡ gives t v → deep t.boxes + 1 ≤ 256 }
    ensures all { (lib : ℕ → Option Answer) (name : List ℕ) (p : Page) (w v : Stock) (t : Tree) →
        grown lib name p w ≡ gives t v → deep t.boxes ≤ 256 }
{}

/// A patch that has just grown is built as one that runs is, and stands as at the start.
pub fn what_grows_is_built()
    ensures built { (p : Patch) (names : Names) (file : List ℕ) (rate : Rate) → IsFresh p names file rate → IsBuilt p names file rate }
    ensures start { (p : Patch) (names : Names) (file : List ℕ) (rate : Rate) → IsFresh p names file rate → IsAtStart p rate }
{}
