//! Laws over a patch in which a subpatch got another text.

ghost use Rattle.std.specs.Prelude.{◌≡◌, ◌≤◌, ◌+◌, ℕ, true, List, length, Option};
ghost use Rattle.pd_atom.specs.declared.Atom.{Atom};
ghost use Rattle.pd_clock.specs.declared.times.Rate.{Rate};
ghost use Rattle.pd_canvas.specs.Edits.{begins_with_pd, edited, retyped};
ghost use Rattle.pd_canvas.specs.Pages.{Sub, Entry};
ghost use Rattle.pd_canvas.specs.Paths.{edit_at};
ghost use Rattle.pd_canvas.specs.Proper.{levels, levels_of};
ghost use Rattle.pd_canvas.specs.Views.{entry_of};
ghost use Rattle.pd_canvas.specs.declared.edits.Edit.TheVariants as edit;
ghost use Rattle.pd_library.specs.declared.answers.Answer.{Answer};
ghost use Rattle.pd_tree.specs.declared.rows.Sheet.{Sheet};
ghost use Rattle.pd_tree.specs.Trees.{Done, Holder, Tree, zeros_of};
ghost use Rattle.pd_growth.specs.Growth.{around_root, box_grown, without_ending};
ghost use Rattle.pd_growth.specs.Steps.{Stock, gives};
ghost use Rattle.pd_grove.specs.declared.grove.Grove.{Grove};
ghost use Rattle.pd_grove.specs.declared.nodes.Node.{Node};
ghost use Rattle.pd_grove.specs.Standing.{GroveStands};
ghost use Rattle.pd_web.specs.declared.web.Web.{Web};
ghost use Rattle.pd_present.specs.Presents.{present_page};
ghost use Rattle.pd_patch.specs.Sounds.{sound_of};
ghost use Rattle.pd_regrowth_law.specs.Regrowth.{inner_of};
ghost use Rattle.pd_regrowth_law.specs.Suits.{IsEntryOf};
ghost use Rattle.pd_reload_law.specs.Reloading.{RunsAs};
ghost use Rattle.pd_reload_law.specs.Saving.{tree_now};
ghost use Rattle.pd_putting_law.specs.Again.{StandsAgain};
ghost use Rattle.pd_putting_law.specs.Putting.{IsBare};
ghost use Rattle.pd_retyping_law.specs.Retypes.{retyped_at};
ghost use Rattle.pd_retyping_law.specs.Retyping.{RenamesBoxAt, cell_in};

/// Where a subpatch gets another text that begins with `pd`, the document of the patch is the one after the edit that gives it this text.
pub fn documents_follow_renames()
    ensures { (g h : Grove) (w : Web) (numbers path : List ℕ) (canvas key number : ℕ) (n n' : Node) (text : List Atom) →
        RenamesBoxAt g h path canvas key number n n' → begins_with_pd text ≡ true → (entry_of n'.element).head ≡ (retyped text (entry_of n.element)).head →
        present_page h w numbers ≡ edit_at path (edited (edit.Retype number text)) (present_page g w numbers) }
{}

/// The tree that stands then is the former one with the other text there, also the tree as it stands. It has the same `$0` numbers and keeps as many
/// values of tables, arrays and delay lines.
pub fn trees_follow_renames()
    ensures stands { (g h : Grove) (path : List ℕ) (canvas key number : ℕ) (n n' : Node) (t : Tree) → RenamesBoxAt g h path canvas key number n n' →
        GroveStands g t.sheet t.boxes → GroveStands h (retyped_at path number (cell_in n') t).sheet (retyped_at path number (cell_in n') t).boxes }
    ensures runs { (g h : Grove) (path : List ℕ) (canvas key number : ℕ) (n n' : Node) (t : Tree) → RenamesBoxAt g h path canvas key number n n' →
        RunsAs g t → RunsAs h (retyped_at path number (cell_in n') t) }
    ensures now { (g h : Grove) (w : Web) (numbers path : List ℕ) (canvas key number : ℕ) (n n' : Node) (t : Tree) →
        RenamesBoxAt g h path canvas key number n n' → GroveStands g t.sheet t.boxes →
        tree_now h w numbers (retyped_at path number (cell_in n') t) ≡ retyped_at path number (cell_in n') (tree_now g w numbers t) }
    ensures zeros { (g h : Grove) (path : List ℕ) (canvas key number : ℕ) (n n' : Node) (t : Tree) → RenamesBoxAt g h path canvas key number n n' →
        GroveStands g t.sheet t.boxes → zeros_of (retyped_at path number (cell_in n') t) ≡ zeros_of t }
    ensures sound { (rate : Rate) (g h : Grove) (path : List ℕ) (canvas key number : ℕ) (n n' : Node) (t : Tree) → RenamesBoxAt g h path canvas key number n n' →
        GroveStands g t.sheet t.boxes → sound_of rate (retyped_at path number (cell_in n') t).boxes ≡ sound_of rate t.boxes }
{}

/// A tree that stands and grows again from its own document does so with another text of a subpatch, where a subpatch without boxes grew by itself in
/// that canvas from an element with this text: what a subpatch holds grows as it did.
pub fn renamed_trees_grow_again()
    ensures { (lib : ℕ → Option Answer) (file : List ℕ) (left : ℕ) (g h : Grove) (path : List ℕ) (canvas key number : ℕ) (n n' : Node) (t : Tree)
        (e : Entry) (sheet : Sheet) (w v : Stock) → StandsAgain lib file w.names t → RunsAs g t → RenamesBoxAt g h path canvas key number n n' →
        length path + left ≡ 255 → IsEntryOf w.names e → IsBare e → e.head.form ≡ Sub → levels_of e.head.form (levels e.page.boxes) ≤ left →
        box_grown lib (without_ending file) left (inner_of lib (without_ending file) left) (around_root t.sheet.zero) e w ≡
        gives (Holder (cell_in n') sheet Done Done) v → StandsAgain lib file v.names (retyped_at path number (cell_in n') t) }
{}
