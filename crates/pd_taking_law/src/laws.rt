//! Laws over a patch with a box less.

ghost use Rattle.std.specs.Prelude.{◌≡◌, ◌≢◌, ℕ, List, filter, slice_get, Option, Some};
ghost use Rattle.pd_atom.specs.Names.{Names};
ghost use Rattle.pd_canvas.specs.Pages.{Page};
ghost use Rattle.pd_canvas.specs.Edits.{edited};
ghost use Rattle.pd_canvas.specs.Paths.{edit_at};
ghost use Rattle.pd_canvas.specs.declared.edits.Edit.TheVariants as edit;
ghost use Rattle.pd_library.specs.declared.answers.Answer.{Answer};
ghost use Rattle.pd_tree.specs.Trees.{Tree};
ghost use Rattle.pd_grove.specs.declared.grove.Grove.{Grove};
ghost use Rattle.pd_grove.specs.Standing.{GroveStands};
ghost use Rattle.pd_web.specs.declared.web.Hop.{Hop};
ghost use Rattle.pd_web.specs.declared.web.Web.{Web};
ghost use Rattle.pd_web.specs.Hops.{fan_hops};
ghost use Rattle.pd_present.specs.Presents.{present_page};
ghost use Rattle.pd_regrowth_law.specs.Canvases.{own_along};
ghost use Rattle.pd_reload_law.specs.Reloading.{RunsAs};
ghost use Rattle.pd_reload_law.specs.Saving.{tree_now};
ghost use Rattle.pd_putting_law.specs.Again.{StandsAgain};
ghost use Rattle.pd_taking_law.specs.Takes.{taken_at, deleted_at};
ghost use Rattle.pd_taking_law.specs.Taking.{TakesBoxAt, CutsBox, leads_past, cut_off};

/// Where a box goes from a canvas of the document, with all that lies in it and its wires, the document of the patch is the one after the
/// edit that deletes it, and nothing else changes. Where the wires at the box had gone before, the other boxes lose none, and the document is
/// the one after that edit also of the document with these wires.
pub fn documents_follow_deletes()
    ensures deleted { (g h : Grove) (w w' : Web) (numbers numbers' path : List ℕ) (canvas key number : ℕ) →
        TakesBoxAt g h path canvas key number → CutsBox g h w w' numbers numbers' key →
        present_page h w' numbers' ≡ edit_at path (edited (edit.Delete number)) (present_page g w numbers) }
    ensures gone { (w : Web) (key k outlet : ℕ) → ((i : ℕ) (x : Hop) → slice_get (fan_hops w k outlet) i ≡ Some x → x.node ≢ key) →
        filter (leads_past key) (fan_hops w k outlet) ≡ fan_hops w k outlet }
    ensures cut { (path : List ℕ) (number : ℕ) (d : Page) →
        edit_at path (edited (edit.Delete number)) (edit_at path (cut_off number) d) ≡ edit_at path (edited (edit.Delete number)) d }
{}

/// The tree that stands then is the former one less the box of that number in that canvas; the tree as it stands is also less its wires.
pub fn trees_follow_deletes()
    ensures stands { (g h : Grove) (path : List ℕ) (canvas key number : ℕ) (t : Tree) → TakesBoxAt g h path canvas key number →
        GroveStands g t.sheet t.boxes → GroveStands h (taken_at path number t).sheet (taken_at path number t).boxes }
    ensures runs { (g h : Grove) (path : List ℕ) (canvas key number : ℕ) (t : Tree) → TakesBoxAt g h path canvas key number → RunsAs g t →
        RunsAs h (taken_at path number t) }
    ensures now { (g h : Grove) (w w' : Web) (numbers numbers' path : List ℕ) (canvas key number : ℕ) (t : Tree) →
        TakesBoxAt g h path canvas key number → CutsBox g h w w' numbers numbers' key → GroveStands g t.sheet t.boxes →
        tree_now h w' numbers' (taken_at path number t) ≡ deleted_at path number (tree_now g w numbers t) }
{}

/// A tree that stands and grows again from its own document does so with a box less in a canvas of it, so that of a patch from which a box
/// went does.
pub fn trees_less_grow_again()
    ensures less { (lib : ℕ → Option Answer) (file : List ℕ) (names : Names) (path : List ℕ) (number : ℕ) (t u : Tree) →
        StandsAgain lib file names t → own_along path t ≡ Some u → StandsAgain lib file names (taken_at path number t) }
    ensures deleted { (lib : ℕ → Option Answer) (file : List ℕ) (names : Names) (g h : Grove) (path : List ℕ) (canvas key number : ℕ) (t : Tree) →
        StandsAgain lib file names t → RunsAs g t → TakesBoxAt g h path canvas key number → StandsAgain lib file names (taken_at path number t) }
{}
