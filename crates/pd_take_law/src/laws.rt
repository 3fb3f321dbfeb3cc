//! Laws over a running patch of which an edit deleted a box, and its tree.

ghost use Rattle.std.specs.Prelude.{◌≡◌, ◌≤◌, ◌∷◌, ◌++◌, ℕ, Bool, true, List, [], Option};
ghost use Rattle.std.specs.List.{AllByRecursion};
ghost use Rattle.pd_atom.specs.Names.{Names};
ghost use Rattle.pd_canvas.specs.Edits.{edited};
ghost use Rattle.pd_canvas.specs.Paths.{edit_at};
ghost use Rattle.pd_canvas.specs.Proper.{IsProper, levels};
ghost use Rattle.pd_canvas.specs.declared.edits.Edit.TheVariants as edit;
ghost use Rattle.pd_library.specs.declared.answers.Answer.{Answer};
ghost use Rattle.pd_tree.specs.Trees.{Tree, weight, zeros_of, document_boxes, document_in};
ghost use Rattle.pd_web.specs.Changes.{wires_told, Meet};
ghost use Rattle.pd_patch.specs.declared.patch.Patch.{Patch};
ghost use Rattle.pd_patch.specs.Document.{present_document};
ghost use Rattle.pd_patch.specs.Sounds.{sound_of};
ghost use Rattle.pd_hearing.specs.Worlds.{states_of};
ghost use Rattle.pd_boxes.specs.Put.{CanPut, HasOwners};
ghost use Rattle.pd_reload_law.specs.Reloading.{RunsAs};
ghost use Rattle.pd_saved_law.specs.Fitting.{WiresFit};
ghost use Rattle.pd_inside_law.specs.Inside.{HoldsWires};
ghost use Rattle.pd_contents_law.specs.Contents.{HaveContents, counts_of};
ghost use Rattle.pd_proper_law.specs.Saves.{kinds_of, IsWritten};
ghost use Rattle.pd_putting_law.specs.Again.{StandsAgain};
ghost use Rattle.pd_taking_law.specs.Takes.{taken_at};
ghost use Rattle.pd_taking_law.specs.Taking.{TakesBoxAt, CutsBox};
ghost use Rattle.pd_adding.specs.declared.counts.Counts.{Counts};
ghost use Rattle.pd_adding.specs.Counts.{AreWithin};
ghost use Rattle.pd_deleting.specs.declared.deleting.OldBox.{OldBox};
ghost use Rattle.pd_deleting.specs.Deletes.{ClearsBox, DeletesBox, TakesPort};
ghost use Rattle.pd_leaving_law.specs.Lowered.{less_port, port_cut};

/// Where an edit deleted a box, the box of that number went from the canvas to which the path leads. Where it is no port of a box around, of the wires
/// of the other boxes those to it are gone, and under the key of each box stands its number.
pub fn deletes_take_boxes()
    ensures tree { (old new : Patch) (n : Counts) (table : Names) (path : List ℕ) (number steps steps' : ℕ) (b : OldBox) →
        DeletesBox old new n table path number steps steps' b → CanPut old → TakesBoxAt old.grove new.grove path b.canvas b.key number }
    ensures wires { (old new : Patch) (n : Counts) (table : Names) (path : List ℕ) (number steps steps' : ℕ) (b : OldBox) →
        ClearsBox old new n table path number steps steps' b → CanPut old → Meet old.web →
        CutsBox old.grove new.grove old.web new.web old.numbers.items new.numbers.items b.key }
{}

/// The document of the patch is then the one after the edit that deletes the box. Where it is a port of the box around, which is that of the last
/// number of the path, the wires at that port are gone before, and those at the ports behind it lead then to the ports before.
pub fn documents_follow_edits()
    ensures deleted { (old new : Patch) (n : Counts) (table : Names) (path : List ℕ) (number steps steps' : ℕ) (b : OldBox) →
        ClearsBox old new n table path number steps steps' b → CanPut old → Meet old.web →
        present_document new ≡ edit_at path (edited (edit.Delete number)) (present_document old) }
    ensures port { (old new : Patch) (n : Counts) (table : Names) (path : List ℕ) (around number steps steps' : ℕ) (b : OldBox) (t : Tree) →
        (taken : TakesPort old new n table (path ++ around ∷ []) number steps steps' b) → RunsAs old.grove t → HoldsWires old t →
        present_document new ≡ edit_at path (less_port taken.side around taken.port) (edit_at (path ++ around ∷ []) (edited (edit.Delete number))
        (edit_at path (port_cut taken.side around taken.port) (present_document old))) }
    ensures inside { (old new : Patch) (n : Counts) (table : Names) (path : List ℕ) (number steps steps' : ℕ) (b : OldBox) →
        TakesPort old new n table path number steps steps' b → CanPut old → (way : List ℕ) × (around : ℕ) × (path ≡ way ++ around ∷ []) }
{}

/// Where an edit deleted a box, the tree that stood stands with the box less. It grows again from its own document, in the same files and names
/// and its `$0` numbers are some of those. Its wires hold and fit, and there are no more than before; each name has its owners.
pub fn boxes_go_from_trees()
    ensures runs { (old new : Patch) (n : Counts) (table : Names) (path : List ℕ) (number steps steps' : ℕ) (b : OldBox) (t : Tree) →
        DeletesBox old new n table path number steps steps' b → CanPut old → RunsAs old.grove t → RunsAs new.grove (taken_at path number t) }
    ensures again { (old new : Patch) (n : Counts) (table : Names) (path : List ℕ) (number steps steps' : ℕ) (b : OldBox) (t : Tree) →
        DeletesBox old new n table path number steps steps' b → CanPut old → RunsAs old.grove t →
        (lib : ℕ → Option Answer) (file : List ℕ) (names : Names) → StandsAgain lib file names t → StandsAgain lib file names (taken_at path number t) }
    ensures zeros { (old new : Patch) (n : Counts) (table : Names) (path : List ℕ) (number steps steps' : ℕ) (b : OldBox) (t : Tree) →
        DeletesBox old new n table path number steps steps' b → CanPut old → RunsAs old.grove t → (test : ℕ → Bool) →
        AllByRecursion (λ z. test z ≡ true) (zeros_of t) → AllByRecursion (λ z. test z ≡ true) (zeros_of (taken_at path number t)) }
    ensures holds { (old new : Patch) (n : Counts) (table : Names) (path : List ℕ) (number steps steps' : ℕ) (b : OldBox) (t : Tree) →
        DeletesBox old new n table path number steps steps' b → CanPut old → RunsAs old.grove t → HoldsWires old t →
        HoldsWires new (taken_at path number t) }
    ensures fit { (old new : Patch) (n : Counts) (table : Names) (path : List ℕ) (number steps steps' : ℕ) (b : OldBox) →
        DeletesBox old new n table path number steps steps' b → CanPut old → Meet old.web → WiresFit old → WiresFit new }
    ensures wires { (old new : Patch) (n : Counts) (table : Names) (path : List ℕ) (number steps steps' : ℕ) (b : OldBox) →
        DeletesBox old new n table path number steps steps' b → wires_told new.web ≤ wires_told old.web }
    ensures owners { (old new : Patch) (n : Counts) (table : Names) (path : List ℕ) (number steps steps' : ℕ) (b : OldBox) →
        DeletesBox old new n table path number steps steps' b → (file : List ℕ) → HasOwners old table file → HasOwners new table file }
{}

/// The counts without the box are those of the tree with the box less, and within the limits where those before were. The tree is no deeper.
pub fn counts_follow_deletes()
    ensures boxes { (old new : Patch) (n : Counts) (table : Names) (path : List ℕ) (number steps steps' : ℕ) (b : OldBox) (t : Tree) →
        DeletesBox old new n table path number steps steps' b → CanPut old → RunsAs old.grove t → n.boxes ≡ weight t.boxes →
        b.counts.boxes ≡ weight (taken_at path number t).boxes }
    ensures wires { (old new : Patch) (n : Counts) (table : Names) (path : List ℕ) (number steps steps' : ℕ) (b : OldBox) →
        DeletesBox old new n table path number steps steps' b → b.counts.wires ≡ wires_told new.web }
    ensures sound { (old new : Patch) (n : Counts) (table : Names) (path : List ℕ) (number steps steps' : ℕ) (b : OldBox) (t : Tree) →
        DeletesBox old new n table path number steps steps' b → CanPut old → RunsAs old.grove t → n.sound ≡ sound_of old.rate t.boxes →
        b.counts.sound ≡ sound_of old.rate (taken_at path number t).boxes }
    ensures next_zero { (old new : Patch) (n : Counts) (table : Names) (path : List ℕ) (number steps steps' : ℕ) (b : OldBox) →
        DeletesBox old new n table path number steps steps' b → b.counts.next_zero ≡ n.next_zero }
    ensures within { (old new : Patch) (n : Counts) (table : Names) (path : List ℕ) (number steps steps' : ℕ) (b : OldBox) →
        DeletesBox old new n table path number steps steps' b → n.wires ≡ wires_told old.web → AreWithin n → AreWithin b.counts }
    ensures deep { (old new : Patch) (n : Counts) (table : Names) (path : List ℕ) (number steps steps' : ℕ) (b : OldBox) (t : Tree) →
        DeletesBox old new n table path number steps steps' b → CanPut old → RunsAs old.grove t →
        levels (document_boxes (taken_at path number t).boxes) ≤ levels (document_boxes t.boxes) }
{}

/// The document of the tree with the box less is proper where that of the tree was, in each table of names; and what a save writes of boxes stays
/// so without the box.
pub fn shorter_documents_can_be_saved()
    ensures proper { (old new : Patch) (n : Counts) (table : Names) (path : List ℕ) (number steps steps' : ℕ) (b : OldBox) (t : Tree) (later : Names) →
        DeletesBox old new n table path number steps steps' b → CanPut old → RunsAs old.grove t → IsProper later (document_in t) →
        IsProper later (document_in (taken_at path number t)) }
    ensures contents { (old new : Patch) (n : Counts) (table : Names) (path : List ℕ) (number steps steps' : ℕ) (b : OldBox) (names : Names) →
        DeletesBox old new n table path number steps steps' b → CanPut old →
        HaveContents (IsWritten old.grove) (counts_of (kinds_of old)) names (states_of old) →
        HaveContents (IsWritten new.grove) (counts_of (kinds_of new)) names (states_of new) }
{}
