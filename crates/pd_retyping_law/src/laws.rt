//! Laws over a patch in which a box became another one.

ghost use Rattle.std.specs.Prelude.{◌≡◌, ◌≤◌, ◌+◌, ◌&&◌, ℕ, false, List, [], ◌∷◌, length, Option, Some};
ghost use Rattle.slab.specs.Slab.{get};
ghost use Rattle.pd_atom.specs.declared.Atom.{Atom};
ghost use Rattle.pd_clock.specs.declared.times.Rate.{Rate};
ghost use Rattle.pd_kind.specs.States.{size_of};
ghost use Rattle.pd_canvas.specs.Pages.{Entry, boxed, empty_page};
ghost use Rattle.pd_canvas.specs.Edits.{CanRetype, begins_with_pd, edited, retyped};
ghost use Rattle.pd_canvas.specs.Paths.{change_box, edit_at};
ghost use Rattle.pd_canvas.specs.Proper.{HoldsNone, levels, levels_of};
ghost use Rattle.pd_canvas.specs.Views.{entry_of};
ghost use Rattle.pd_canvas.specs.declared.edits.Edit.TheVariants as edit;
ghost use Rattle.pd_library.specs.declared.answers.Answer.{Answer};
ghost use Rattle.pd_tree.specs.Trees.{Cell, Done, Leaf, Tree, document_boxes, weight, zeros_of};
ghost use Rattle.pd_growth.specs.Growth.{around_root, box_grown, without_ending};
ghost use Rattle.pd_growth.specs.Steps.{Stock, gives};
ghost use Rattle.pd_grove.specs.declared.grove.Grove.{Grove};
ghost use Rattle.pd_grove.specs.declared.nodes.Node.{Node};
ghost use Rattle.pd_grove.specs.Standing.{GroveStands};
ghost use Rattle.pd_grove.specs.TextOrder.{is_sub};
ghost use Rattle.pd_web.specs.declared.web.Web.{Web};
ghost use Rattle.pd_present.specs.Presents.{present_page};
ghost use Rattle.pd_patch.specs.Sounds.{sound_of};
ghost use Rattle.pd_regrowth_law.specs.Canvases.{own_along};
ghost use Rattle.pd_regrowth_law.specs.Regrowth.{inner_of};
ghost use Rattle.pd_regrowth_law.specs.Suits.{HoldNone, IsEntryOf};
ghost use Rattle.pd_reload_law.specs.Reloading.{RunsAs};
ghost use Rattle.pd_reload_law.specs.Saving.{IsMade, cell_now, tree_now};
ghost use Rattle.pd_putting_law.specs.Again.{StandsAgain};
ghost use Rattle.pd_putting_law.specs.Putting.{IsBare, IsSavedAs, KeepsText, entry_kept};
ghost use Rattle.pd_retyping_law.specs.Edits.{GivesText};
ghost use Rattle.pd_retyping_law.specs.Retypes.{BareAt, SuitsAt, retyped_at};
ghost use Rattle.pd_retyping_law.specs.Retyping.{KeepsFirst, RetypesBoxAt, cell_in};

/// Where a box becomes another one, the document of the patch has the element of the new box in its place, and nothing else changes. Where that
/// is the element that the old box had with another text, the document is the one after the edit that gives it this text; and so it is where
/// the old box grew from that element, whatever it keeps of it.
pub fn documents_follow_retypes()
    ensures replaced { (g h : Grove) (w : Web) (numbers path : List ℕ) (canvas key number : ℕ) (n n' : Node) (e : Entry) →
        RetypesBoxAt g h path canvas key number n n' → IsSavedAs (get h.boards) (get h.nodes key) e →
        present_page h w numbers ≡ edit_at path (change_box number (λ _. e)) (present_page g w numbers) }
    ensures edited { (g h : Grove) (w : Web) (numbers path : List ℕ) (canvas key number : ℕ) (n n' : Node) (text : List Atom) (e : Entry) →
        RetypesBoxAt g h path canvas key number n n' → IsSavedAs (get g.boards) (get g.nodes key) e →
        IsSavedAs (get h.boards) (get h.nodes key) (retyped text e) →
        present_page h w numbers ≡ edit_at path (edited (edit.Retype number text)) (present_page g w numbers) }
    ensures element { (g h : Grove) (w : Web) (numbers path : List ℕ) (canvas key number : ℕ) (n n' : Node) (text : List Atom) →
        RetypesBoxAt g h path canvas key number n n' → CanRetype (entry_of n.element) →
        IsSavedAs (get h.boards) (get h.nodes key) (retyped text (entry_of n.element)) →
        present_page h w numbers ≡ edit_at path (edited (edit.Retype number text)) (present_page g w numbers) }
{}

/// The new box is saved as its element, with what it keeps of it. What it keeps at first leaves that element as it is, but for a toggle with
/// other values in its text.
pub fn retyped_boxes_are_saved()
    ensures saved { (g h : Grove) (path : List ℕ) (canvas key number : ℕ) (n n' : Node) → RetypesBoxAt g h path canvas key number n n' →
        is_sub (cell_in n').head.form ≡ false →
        IsSavedAs (get h.boards) (get h.nodes key) (entry_kept n'.state (record { head = (cell_in n').head; page = empty_page })) }
    ensures written { (g h : Grove) (path : List ℕ) (canvas key number : ℕ) (n n' : Node) (rate : Rate) (now : ℕ) (e : Entry) →
        RetypesBoxAt g h path canvas key number n n' → KeepsFirst rate now n' → is_sub (cell_in n').head.form ≡ false →
        IsMade (cell_in n').head.form (cell_in n') → KeepsText (cell_in n') → document_boxes (Leaf (cell_in n') Done) ≡ boxed (e ∷ []) →
        IsSavedAs (get h.boards) (get h.nodes key) e }
{}

/// The tree that stands then is the former one with the new box there, also the tree as it stands: with what the new box keeps, and so with the
/// box as it grew where that is what it keeps at first.
pub fn trees_follow_retypes()
    ensures stands { (g h : Grove) (path : List ℕ) (canvas key number : ℕ) (n n' : Node) (t : Tree) → RetypesBoxAt g h path canvas key number n n' →
        GroveStands g t.sheet t.boxes → GroveStands h (retyped_at path number (cell_in n') t).sheet (retyped_at path number (cell_in n') t).boxes }
    ensures runs { (g h : Grove) (path : List ℕ) (canvas key number : ℕ) (n n' : Node) (t : Tree) (rate : Rate) (now : ℕ) →
        RetypesBoxAt g h path canvas key number n n' → RunsAs g t → KeepsFirst rate now n' → RunsAs h (retyped_at path number (cell_in n') t) }
    ensures now { (g h : Grove) (w : Web) (numbers path : List ℕ) (canvas key number : ℕ) (n n' : Node) (t : Tree) →
        RetypesBoxAt g h path canvas key number n n' → GroveStands g t.sheet t.boxes →
        tree_now h w numbers (retyped_at path number (cell_in n') t) ≡
        retyped_at path number (cell_now n'.state (cell_in n')) (tree_now g w numbers t) }
    ensures fresh { (g h : Grove) (w : Web) (numbers path : List ℕ) (canvas key number : ℕ) (n n' : Node) (t : Tree) (rate : Rate) (now : ℕ) →
        RetypesBoxAt g h path canvas key number n n' → GroveStands g t.sheet t.boxes → KeepsFirst rate now n' →
        is_sub (cell_in n').head.form ≡ false → IsMade (cell_in n').head.form (cell_in n') → KeepsText (cell_in n') →
        tree_now h w numbers (retyped_at path number (cell_in n') t) ≡ retyped_at path number (cell_in n') (tree_now g w numbers t) }
{}

/// The tree has as many boxes, and the same `$0` numbers where only a subpatch with another text keeps the canvas that it holds. Of values of tables, arrays and delay lines it has those of the new box and lacks those
/// of the old one.
pub fn retyped_trees_count()
    ensures boxes { (path : List ℕ) (number : ℕ) (c : Cell) (t : Tree) → weight (retyped_at path number c t).boxes ≡ weight t.boxes }
    ensures zeros { (path : List ℕ) (number : ℕ) (c : Cell) (t u : Tree) → own_along path t ≡ Some u → SuitsAt number c u.boxes →
        zeros_of (retyped_at path number c t) ≡ zeros_of t }
    ensures sound { (rate : Rate) (g h : Grove) (path : List ℕ) (canvas key number : ℕ) (n n' : Node) (t : Tree) →
        RetypesBoxAt g h path canvas key number n n' → GroveStands g t.sheet t.boxes →
        sound_of rate (retyped_at path number (cell_in n') t).boxes + size_of n.kind rate ≡ sound_of rate t.boxes + size_of n'.kind rate }
{}

/// A tree that stands and grows again from its own document does so with another box in the place of one without a canvas, that grew there by itself;
/// so that of a patch in which a box became another one does. What grew is made.
pub fn retyped_trees_grow_again()
    ensures one { (lib : ℕ → Option Answer) (file : List ℕ) (left : ℕ) (path : List ℕ) (number : ℕ) (t u : Tree) (e : Entry) (w v : Stock) (c : Cell) →
        StandsAgain lib file w.names t → own_along path t ≡ Some u → BareAt number u.boxes → length path + left ≡ 255 → IsEntryOf w.names e →
        levels_of e.head.form (levels e.page.boxes) ≤ left → HoldsNone e.head.form e.page → HoldNone e.page.boxes →
        box_grown lib (without_ending file) left (inner_of lib (without_ending file) left) (around_root t.sheet.zero) e w ≡ gives (Leaf c Done) v →
        StandsAgain lib file v.names (retyped_at path number c t) }
    ensures made { (lib : ℕ → Option Answer) (file : List ℕ) (left : ℕ) (path : List ℕ) (t u : Tree) (e : Entry) (w v : Stock) (c : Cell) →
        StandsAgain lib file w.names t → own_along path t ≡ Some u → length path + left ≡ 255 → IsEntryOf w.names e →
        levels_of e.head.form (levels e.page.boxes) ≤ left → HoldsNone e.head.form e.page → HoldNone e.page.boxes →
        box_grown lib (without_ending file) left (inner_of lib (without_ending file) left) (around_root t.sheet.zero) e w ≡ gives (Leaf c Done) v →
        IsMade c.head.form c }
    ensures retyped { (lib : ℕ → Option Answer) (file : List ℕ) (left : ℕ) (g h : Grove) (path : List ℕ) (canvas key number : ℕ) (n n' : Node) (t : Tree)
        (e : Entry) (w v : Stock) → StandsAgain lib file w.names t → RunsAs g t → RetypesBoxAt g h path canvas key number n n' →
        length path + left ≡ 255 → IsEntryOf w.names e → levels_of e.head.form (levels e.page.boxes) ≤ left → HoldsNone e.head.form e.page →
        HoldNone e.page.boxes →
        box_grown lib (without_ending file) left (inner_of lib (without_ending file) left) (around_root t.sheet.zero) e w ≡
        gives (Leaf (cell_in n') Done) v → StandsAgain lib file v.names (retyped_at path number (cell_in n') t) }
{}

/// Where an edit gives a box of a running patch another text, and it becomes a box without a canvas that grew from its element with that text, the
/// patch runs as the former tree with the new box there, which grows again from its own document, and the document has that element there with
/// what the new box keeps of it: it is the edited one, but for a toggle with other values in its text than it keeps at first.
pub fn edits_retype_boxes()
    ensures bare { (text : List Atom) (e : Entry) → CanRetype e → (is_sub e.head.form && begins_with_pd text) ≡ false → IsBare (retyped text e) }
    ensures kept { (g h : Grove) (w : Web) (numbers path : List ℕ) (canvas key number : ℕ) (lib : ℕ → Option Answer) (file : List ℕ) (t : Tree)
        (text : List Atom) (n n' : Node) (from after : Stock) → RunsAs g t → StandsAgain lib file from.names t →
        GivesText g h path canvas key number lib file t text n n' from after →
        present_page h w numbers ≡ edit_at path (change_box number (λ e. entry_kept n'.state (retyped text e))) (present_page g w numbers) }
    ensures document { (g h : Grove) (w : Web) (numbers path : List ℕ) (canvas key number : ℕ) (lib : ℕ → Option Answer) (file : List ℕ) (t : Tree)
        (text : List Atom) (n n' : Node) (from after : Stock) → RunsAs g t → StandsAgain lib file from.names t →
        GivesText g h path canvas key number lib file t text n n' from after → KeepsText (cell_in n') →
        present_page h w numbers ≡ edit_at path (edited (edit.Retype number text)) (present_page g w numbers) }
    ensures runs { (g h : Grove) (path : List ℕ) (canvas key number : ℕ) (lib : ℕ → Option Answer) (file : List ℕ) (t : Tree)
        (text : List Atom) (n n' : Node) (from after : Stock) → RunsAs g t → StandsAgain lib file from.names t →
        GivesText g h path canvas key number lib file t text n n' from after → RunsAs h (retyped_at path number (cell_in n') t) }
    ensures again { (g h : Grove) (path : List ℕ) (canvas key number : ℕ) (lib : ℕ → Option Answer) (file : List ℕ) (t : Tree)
        (text : List Atom) (n n' : Node) (from after : Stock) → RunsAs g t → StandsAgain lib file from.names t →
        GivesText g h path canvas key number lib file t text n n' from after → StandsAgain lib file after.names (retyped_at path number (cell_in n') t) }
    ensures now { (g h : Grove) (w : Web) (numbers path : List ℕ) (canvas key number : ℕ) (lib : ℕ → Option Answer) (file : List ℕ) (t : Tree)
        (text : List Atom) (n n' : Node) (from after : Stock) → RunsAs g t → StandsAgain lib file from.names t →
        GivesText g h path canvas key number lib file t text n n' from after → KeepsText (cell_in n') →
        tree_now h w numbers (retyped_at path number (cell_in n') t) ≡ retyped_at path number (cell_in n') (tree_now g w numbers t) }
{}
