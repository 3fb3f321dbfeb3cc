//! Laws over a running patch of which an edit moved a box, and its tree.

ghost use Rattle.std.specs.Prelude.{◌≡◌, ℕ, ℤ, List, Option};
ghost use Rattle.pd_atom.specs.Names.{Names};
ghost use Rattle.pd_canvas.specs.Proper.{IsProper};
ghost use Rattle.pd_clock.specs.declared.times.Rate.{Rate};
ghost use Rattle.pd_library.specs.declared.answers.Answer.{Answer};
ghost use Rattle.pd_tree.specs.Trees.{Tree, document_in};
ghost use Rattle.pd_web.specs.Changes.{wires_told, Meet};
ghost use Rattle.pd_patch.specs.declared.patch.Patch.{Patch};
ghost use Rattle.pd_patch.specs.Built.{IsBuilt};
ghost use Rattle.pd_hearing.specs.Worlds.{states_of};
ghost use Rattle.pd_boxes.specs.Put.{CanPut};
ghost use Rattle.pd_adding.specs.Coming.{own_zero};
ghost use Rattle.pd_reload_law.specs.Reloading.{RunsAs};
ghost use Rattle.pd_saved_law.specs.Fitting.{WiresFit};
ghost use Rattle.pd_inside_law.specs.Inside.{HoldsWires};
ghost use Rattle.pd_contents_law.specs.Contents.{HaveContents, counts_of};
ghost use Rattle.pd_proper_law.specs.Saves.{kinds_of, IsWritten};
ghost use Rattle.pd_putting_law.specs.Again.{StandsAgain};
ghost use Rattle.pd_shifting.specs.declared.shifting.MovedBox.{MovedBox};
ghost use Rattle.pd_shifting.specs.Moves.{MovesBox};
ghost use Rattle.pd_shifted_law.specs.Shifts.{shifted_at};

/// The wires are those that there were: they meet and fit. The patch's own document has its `$0`.
pub fn wires_follow_moves()
    ensures wires { (old new : Patch) (path : List ℕ) (number : ℕ) (x y : ℤ) (b : MovedBox) → MovesBox old new path number x y b →
        wires_told new.web ≡ wires_told old.web }
    ensures meet { (old new : Patch) (path : List ℕ) (number : ℕ) (x y : ℤ) (b : MovedBox) → MovesBox old new path number x y b →
        Meet old.web → Meet new.web }
    ensures fit { (old new : Patch) (path : List ℕ) (number : ℕ) (x y : ℤ) (b : MovedBox) → MovesBox old new path number x y b →
        WiresFit old → WiresFit new }
    ensures zero { (old new : Patch) (path : List ℕ) (number : ℕ) (x y : ℤ) (b : MovedBox) → MovesBox old new path number x y b →
        own_zero new ≡ own_zero old }
{}

/// The tree with the box at its place grows again from its own document, in the same files and names, and its wires hold.
pub fn moved_trees_grow_again()
    ensures again { (old new : Patch) (path : List ℕ) (number : ℕ) (x y : ℤ) (b : MovedBox) (t : Tree) → MovesBox old new path number x y b → CanPut old →
        RunsAs old.grove t → (lib : ℕ → Option Answer) (file : List ℕ) (names : Names) → StandsAgain lib file names t →
        StandsAgain lib file names (shifted_at path number x y t) }
    ensures holds { (old new : Patch) (path : List ℕ) (number : ℕ) (x y : ℤ) (b : MovedBox) (t : Tree) → MovesBox old new path number x y b → CanPut old →
        RunsAs old.grove t → HoldsWires old t → HoldsWires new (shifted_at path number x y t) }
{}

/// The document of the tree with the box at its place is proper where that of the tree was, in each table of names; and what a save writes of boxes
/// stays so.
pub fn moved_documents_can_be_saved()
    ensures proper { (old new : Patch) (path : List ℕ) (number : ℕ) (x y : ℤ) (b : MovedBox) (t : Tree) (later : Names) → MovesBox old new path number x y b →
        CanPut old → RunsAs old.grove t → IsProper later (document_in t) → IsProper later (document_in (shifted_at path number x y t)) }
    ensures contents { (old new : Patch) (path : List ℕ) (number : ℕ) (x y : ℤ) (b : MovedBox) (names : Names) → MovesBox old new path number x y b → CanPut old →
        HaveContents (IsWritten old.grove) (counts_of (kinds_of old)) names (states_of old) →
        HaveContents (IsWritten new.grove) (counts_of (kinds_of new)) names (states_of new) }
{}

/// A patch that runs goes on to be one.
pub fn patches_run_on_moved()
    ensures { (old new : Patch) (path : List ℕ) (number : ℕ) (x y : ℤ) (b : MovedBox) → MovesBox old new path number x y b → CanPut old →
        (names : Names) (file : List ℕ) (rate : Rate) → IsBuilt old names file rate → IsBuilt new names file rate }
{}
