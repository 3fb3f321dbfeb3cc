//! Laws over a running patch of which an edit moved a box, and the tree that stands in it.

ghost use Rattle.std.specs.Prelude.{◌≡◌, ℕ, ℤ, List};
ghost use Rattle.pd_atom.specs.Names.{Names};
ghost use Rattle.pd_canvas.specs.Edits.{edited};
ghost use Rattle.pd_canvas.specs.Paths.{edit_at};
ghost use Rattle.pd_canvas.specs.declared.edits.Edit.TheVariants as edit;
ghost use Rattle.pd_clock.specs.declared.times.Rate.{Rate};
ghost use Rattle.pd_tree.specs.Trees.{Tree, weight, zeros_of};
ghost use Rattle.pd_patch.specs.declared.patch.Patch.{Patch};
ghost use Rattle.pd_patch.specs.Document.{present_document};
ghost use Rattle.pd_patch.specs.Sounds.{sound_of};
ghost use Rattle.pd_boxes.specs.Put.{CanPut, HasOwners};
ghost use Rattle.pd_reload_law.specs.Reloading.{RunsAs};
ghost use Rattle.pd_shifting.specs.declared.shifting.MovedBox.{MovedBox};
ghost use Rattle.pd_shifting.specs.Moves.{MovesBox};
ghost use Rattle.pd_shifted_law.specs.Shifts.{shifted_at};
ghost use Rattle.pd_shifted_law.specs.Ports.{with_ports_moved};

/// Where an edit moved a box, the document of the patch is the one after the edit. Where the box is a port of the box around, which is that of the
/// last number of the path, the wires at that box lead then to the ports where they are.
pub fn documents_follow_moves()
    ensures { (old new : Patch) (path : List ℕ) (number : ℕ) (x y : ℤ) (b : MovedBox) → (moves : MovesBox old new path number x y b) → CanPut old →
        present_document new ≡ with_ports_moved old new b.canvas b.key x y moves.shifts path
        (edit_at path (edited (edit.Move number x y)) (present_document old)) }
{}

/// The tree that stood stands with the box at its place. It has as many boxes, as many values of tables, arrays and delay lines, and the same
/// `$0` numbers.
pub fn trees_follow_moves()
    ensures runs { (old new : Patch) (path : List ℕ) (number : ℕ) (x y : ℤ) (b : MovedBox) (t : Tree) → MovesBox old new path number x y b → CanPut old →
        RunsAs old.grove t → RunsAs new.grove (shifted_at path number x y t) }
    ensures boxes { (path : List ℕ) (number : ℕ) (x y : ℤ) (t : Tree) → weight (shifted_at path number x y t).boxes ≡ weight t.boxes }
    ensures sound { (rate : Rate) (path : List ℕ) (number : ℕ) (x y : ℤ) (t : Tree) → sound_of rate (shifted_at path number x y t).boxes ≡ sound_of rate t.boxes }
    ensures zeros { (path : List ℕ) (number : ℕ) (x y : ℤ) (t : Tree) → zeros_of (shifted_at path number x y t) ≡ zeros_of t }
{}

/// Each name has its owners.
pub fn names_follow_moves()
    ensures { (old new : Patch) (path : List ℕ) (number : ℕ) (x y : ℤ) (b : MovedBox) (table : Names) (file : List ℕ) → MovesBox old new path number x y b →
        HasOwners old table file → HasOwners new table file }
{}
