//! Laws over a running patch of which an edit made a box another one or gave a subpatch another text, and its tree.

ghost use Rattle.std.specs.Prelude.{◌≡◌, ◌≤◌, ◌+◌, ℕ, List, filter, length};
ghost use Rattle.pd_atom.specs.declared.Atom.{Atom};
ghost use Rattle.pd_atom.specs.Names.{Names, Extends, IsTable};
ghost use Rattle.pd_canvas.specs.Edits.{edited, retyped};
ghost use Rattle.pd_canvas.specs.Paths.{change_box, edit_at};
ghost use Rattle.pd_canvas.specs.Proper.{IsProper};
ghost use Rattle.pd_canvas.specs.declared.edits.Edit.TheVariants as edit;
ghost use Rattle.pd_kind.specs.States.{start_of};
ghost use Rattle.pd_kind.specs.Tables.{started};
ghost use Rattle.pd_library.specs.Files.{answer_in};
ghost use Rattle.pd_tree.specs.Trees.{Tree, weight, zeros_of, document_in};
ghost use Rattle.pd_web.specs.Changes.{wires_told};
ghost use Rattle.pd_web.specs.Hops.{fan_hops, places_of};
ghost use Rattle.pd_patch.specs.declared.patch.Patch.{Patch};
ghost use Rattle.pd_patch.specs.Document.{present_document};
ghost use Rattle.pd_patch.specs.Sounds.{sound_of};
ghost use Rattle.pd_gather.specs.Gather.{Known};
ghost use Rattle.pd_hearing.specs.Worlds.{states_of};
ghost use Rattle.pd_boxes.specs.Put.{CanPut, HasOwners};
ghost use Rattle.pd_reload_law.specs.Reloading.{RunsAs};
ghost use Rattle.pd_saved_law.specs.Fitting.{WiresFit};
ghost use Rattle.pd_inside_law.specs.Inside.{HoldsWires};
ghost use Rattle.pd_contents_law.specs.Contents.{HaveContents, counts_of};
ghost use Rattle.pd_proper_law.specs.Saves.{kinds_of, IsWritten};
ghost use Rattle.pd_putting_law.specs.Again.{StandsAgain};
ghost use Rattle.pd_putting_law.specs.Putting.{KeepsText, entry_kept};
ghost use Rattle.pd_misfits.specs.Shedding.{is_left, numbered};
ghost use Rattle.pd_adding.specs.declared.counts.Counts.{Counts};
ghost use Rattle.pd_retyping.specs.declared.retyping.RetypedBox.{RetypedBox};
ghost use Rattle.pd_retyping.specs.Asking.{settled_text};
ghost use Rattle.pd_retyping.specs.Retypes.{RetypesBox, cell_become};
ghost use Rattle.pd_retyping_law.specs.Retypes.{retyped_at};
ghost use Rattle.pd_retype_law.specs.Losing.{less_wires};

/// Where an edit made a box another one, the document of the patch has the element with the new text in its place, with what the new box keeps of it, and
/// in its canvas less the wires that didn't fit: but for these it is the document after the edit, unless the box is a toggle with other values in its text
/// than it keeps at first. A subpatch with another text has the page that it had.
pub fn documents_follow_retypes()
    ensures kept { (old new : Patch) (n : Counts) (name path : List ℕ) (number : ℕ) (text : List Atom) (now : ℕ) (k after : Known) (steps steps' : ℕ) (b : RetypedBox) (t : Tree) →
        (r : RetypesBox old new n name path number text now k after steps steps' b) → CanPut old → RunsAs old.grove t → StandsAgain (answer_in k.files) name k.names t → HoldsWires old t →
        present_document new ≡ edit_at path (less_wires (numbered b.gone.items))
        (edit_at path (change_box number (λ e. entry_kept (Some (started (start_of (cell_become r.became).kind old.rate) now)) (retyped (settled_text k.names text) e))) (present_document old)) }
    ensures edited { (old new : Patch) (n : Counts) (name path : List ℕ) (number : ℕ) (text : List Atom) (now : ℕ) (k after : Known) (steps steps' : ℕ) (b : RetypedBox) (t : Tree) →
        (r : RetypesBox old new n name path number text now k after steps steps' b) → CanPut old → RunsAs old.grove t → StandsAgain (answer_in k.files) name k.names t → HoldsWires old t →
        KeepsText (cell_become r.became) →
        present_document new ≡ edit_at path (less_wires (numbered b.gone.items)) (edit_at path (edited (edit.Retype number (settled_text k.names text))) (present_document old)) }
{}

/// The table of names goes on, and the tree that stood stands with the new box in the place of the old one. It grows again from its own document, with the
/// same `$0` numbers; its wires hold and fit, and there are as many fewer as went; each name has its owners.
pub fn boxes_become_others_in_trees()
    ensures names { (old new : Patch) (n : Counts) (name path : List ℕ) (number : ℕ) (text : List Atom) (now : ℕ) (k after : Known) (steps steps' : ℕ) (b : RetypedBox) →
        RetypesBox old new n name path number text now k after steps steps' b → Extends k.names after.names }
    ensures runs { (old new : Patch) (n : Counts) (name path : List ℕ) (number : ℕ) (text : List Atom) (now : ℕ) (k after : Known) (steps steps' : ℕ) (b : RetypedBox) (t : Tree) →
        (r : RetypesBox old new n name path number text now k after steps steps' b) → CanPut old → RunsAs old.grove t → StandsAgain (answer_in k.files) name k.names t →
        RunsAs new.grove (retyped_at path number (cell_become r.became) t) }
    ensures again { (old new : Patch) (n : Counts) (name path : List ℕ) (number : ℕ) (text : List Atom) (now : ℕ) (k after : Known) (steps steps' : ℕ) (b : RetypedBox) (t : Tree) →
        (r : RetypesBox old new n name path number text now k after steps steps' b) → CanPut old → RunsAs old.grove t → StandsAgain (answer_in k.files) name k.names t →
        StandsAgain (answer_in after.files) name after.names (retyped_at path number (cell_become r.became) t) }
    ensures zeros { (old new : Patch) (n : Counts) (name path : List ℕ) (number : ℕ) (text : List Atom) (now : ℕ) (k after : Known) (steps steps' : ℕ) (b : RetypedBox) (t : Tree) →
        (r : RetypesBox old new n name path number text now k after steps steps' b) → CanPut old → RunsAs old.grove t → zeros_of (retyped_at path number (cell_become r.became) t) ≡ zeros_of t }
    ensures holds { (old new : Patch) (n : Counts) (name path : List ℕ) (number : ℕ) (text : List Atom) (now : ℕ) (k after : Known) (steps steps' : ℕ) (b : RetypedBox) (t : Tree) →
        (r : RetypesBox old new n name path number text now k after steps steps' b) → CanPut old → RunsAs old.grove t → HoldsWires old t → HoldsWires new (retyped_at path number (cell_become r.became) t) }
    ensures fit { (old new : Patch) (n : Counts) (name path : List ℕ) (number : ℕ) (text : List Atom) (now : ℕ) (k after : Known) (steps steps' : ℕ) (b : RetypedBox) →
        RetypesBox old new n name path number text now k after steps steps' b → CanPut old → WiresFit old → WiresFit new }
    ensures wires { (old new : Patch) (n : Counts) (name path : List ℕ) (number : ℕ) (text : List Atom) (now : ℕ) (k after : Known) (steps steps' : ℕ) (b : RetypedBox) →
        RetypesBox old new n name path number text now k after steps steps' b → wires_told new.web + length b.gone.items ≡ wires_told old.web }
    ensures owners { (old new : Patch) (n : Counts) (name path : List ℕ) (number : ℕ) (text : List Atom) (now : ℕ) (k after : Known) (steps steps' : ℕ) (b : RetypedBox) (t : Tree) →
        RetypesBox old new n name path number text now k after steps steps' b → CanPut old → RunsAs old.grove t → StandsAgain (answer_in k.files) name k.names t →
        HasOwners old k.names name → HasOwners new after.names name }
{}

/// Each outlet has the wires that it had less those that didn't fit, in their order: to the same inlets, whether they stayed or turned and came back.
pub fn outlets_keep_their_wires()
    ensures { (old new : Patch) (n : Counts) (name path : List ℕ) (number : ℕ) (text : List Atom) (now : ℕ) (k after : Known) (steps steps' : ℕ) (b : RetypedBox) (node outlet : ℕ) →
        RetypesBox old new n name path number text now k after steps steps' b →
        places_of (fan_hops new.web node outlet) ≡ places_of (filter (is_left b.gone.items) (fan_hops old.web node outlet)) }
{}

/// The counts with the new box are those of the tree with it.
pub fn counts_follow_retypes()
    ensures boxes { (old new : Patch) (n : Counts) (name path : List ℕ) (number : ℕ) (text : List Atom) (now : ℕ) (k after : Known) (steps steps' : ℕ) (b : RetypedBox) (t : Tree) →
        (r : RetypesBox old new n name path number text now k after steps steps' b) → CanPut old → RunsAs old.grove t → n.boxes ≡ weight t.boxes → b.counts.boxes ≡ weight (retyped_at path number (cell_become r.became) t).boxes }
    ensures wires { (old new : Patch) (n : Counts) (name path : List ℕ) (number : ℕ) (text : List Atom) (now : ℕ) (k after : Known) (steps steps' : ℕ) (b : RetypedBox) →
        RetypesBox old new n name path number text now k after steps steps' b → b.counts.wires ≡ wires_told new.web }
    ensures sound { (old new : Patch) (n : Counts) (name path : List ℕ) (number : ℕ) (text : List Atom) (now : ℕ) (k after : Known) (steps steps' : ℕ) (b : RetypedBox) (t : Tree) →
        (r : RetypesBox old new n name path number text now k after steps steps' b) → CanPut old → RunsAs old.grove t → n.sound ≡ sound_of old.rate t.boxes → b.counts.sound ≡ sound_of old.rate (retyped_at path number (cell_become r.became) t).boxes }
    ensures next_zero { (old new : Patch) (n : Counts) (name path : List ℕ) (number : ℕ) (text : List Atom) (now : ℕ) (k after : Known) (steps steps' : ℕ) (b : RetypedBox) →
        RetypesBox old new n name path number text now k after steps steps' b → b.counts.next_zero ≡ n.next_zero }
{}

/// The document of the tree with the new box is proper where that of the tree was, in each table that goes on; and what a save writes of boxes stays so.
pub fn retyped_boxes_can_be_saved()
    ensures proper { (old new : Patch) (n : Counts) (name path : List ℕ) (number : ℕ) (text : List Atom) (now : ℕ) (k after : Known) (steps steps' : ℕ) (b : RetypedBox) (t : Tree) (later : Names) →
        (r : RetypesBox old new n name path number text now k after steps steps' b) → CanPut old → RunsAs old.grove t → StandsAgain (answer_in k.files) name k.names t →
        Extends after.names later → IsTable later → weight t.boxes ≤ 16384 →
        IsProper later (document_in t) → IsProper later (document_in (retyped_at path number (cell_become r.became) t)) }
    ensures contents { (old new : Patch) (n : Counts) (name path : List ℕ) (number : ℕ) (text : List Atom) (now : ℕ) (k after : Known) (steps steps' : ℕ) (b : RetypedBox) (t : Tree) →
        RetypesBox old new n name path number text now k after steps steps' b → CanPut old → RunsAs old.grove t → StandsAgain (answer_in k.files) name k.names t →
        HaveContents (IsWritten old.grove) (counts_of (kinds_of old)) k.names (states_of old) →
        HaveContents (IsWritten new.grove) (counts_of (kinds_of new)) after.names (states_of new) }
{}
