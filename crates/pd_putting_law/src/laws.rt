//! Laws over a patch with a box more.

ghost use Rattle.std.specs.Prelude.{◌≡◌, ◌≤◌, ◌+◌, ◌++◌, ℕ, List, [], ◌∷◌, length, Option, Some};
ghost use Rattle.slab.specs.Slab.{get};
ghost use Rattle.pd_atom.specs.Names.{Names, Extends};
ghost use Rattle.pd_clock.specs.declared.times.Rate.{Rate};
ghost use Rattle.pd_canvas.specs.Pages.{Boxes, Entry, Page, boxed, listed};
ghost use Rattle.pd_canvas.specs.Edits.{appended, edited};
ghost use Rattle.pd_canvas.specs.Paths.{edit_at};
ghost use Rattle.pd_canvas.specs.Proper.{HoldsNone, levels, levels_of};
ghost use Rattle.pd_canvas.specs.Turns.{put_in};
ghost use Rattle.pd_canvas.specs.declared.edits.Edit.{Edit};
ghost use Rattle.pd_library.specs.declared.answers.Answer.{Answer};
ghost use Rattle.pd_tree.specs.Trees.{Tree, Trees, document_boxes, weight, zeros_of};
ghost use Rattle.pd_growth.specs.Making.{Around};
ghost use Rattle.pd_growth.specs.Growth.{around_root, box_grown, boxes_grown, grown, without_ending};
ghost use Rattle.pd_growth.specs.Steps.{Stock, gives};
ghost use Rattle.pd_grove.specs.declared.grove.Grove.{Grove};
ghost use Rattle.pd_grove.specs.Forest.{IsForest};
ghost use Rattle.pd_grove.specs.OwnPaths.{sub_reached};
ghost use Rattle.pd_grove.specs.Places.{CanvasStands};
ghost use Rattle.pd_grove.specs.Standing.{GroveStands, Stands, depth_of};
ghost use Rattle.pd_grove.specs.Telling.{state_in};
ghost use Rattle.pd_web.specs.declared.web.Web.{Web};
ghost use Rattle.pd_web.specs.Canvases.{keys_at};
ghost use Rattle.pd_present.specs.Presents.{present_page};
ghost use Rattle.pd_regrowth_law.specs.Canvases.{CanvasRegrows, PatchRegrows, own_along, own_site};
ghost use Rattle.pd_regrowth_law.specs.Regrowth.{inner_of, stock};
ghost use Rattle.pd_regrowth_law.specs.Suits.{AnswersAlike, HoldNone, IsEntryOf, IsLibraryOf, TextsOf};
ghost use Rattle.pd_reload_law.specs.Reloading.{HasGrown, RunsAs};
ghost use Rattle.pd_reload_law.specs.Saving.{AreMade, boxes_now, tree_now};
ghost use Rattle.pd_putting_law.specs.Again.{StandsAgain};
ghost use Rattle.pd_putting_law.specs.Edits.{PutsBox, TakesElement};
ghost use Rattle.pd_putting_law.specs.Puts.{change_at, come_before, put_at, put_before};
ghost use Rattle.pd_putting_law.specs.Putting.{HasBoxAt, HasBoxLast, KeepsWires, ComeFresh, IsBare, IsSavedAs, IsNewBox, KeepsTexts, element_put, entry_kept};

/// Where a box comes into a canvas of the document, the document of the patch has its element more, at the number of the box in that canvas; higher
/// numbers, also of wires, are up by one, and nothing else changes. A box that comes last comes at the number of boxes that there were: its element
/// is the last one, and the wires stay, as by the edit that puts that element.
pub fn documents_follow_boxes()
    ensures put { (g h : Grove) (w w' : Web) (numbers numbers' path : List ℕ) (canvas key number : ℕ) (e : Entry) →
        HasBoxAt g h path canvas key number → KeepsWires g h w w' numbers numbers' key → IsSavedAs (get h.boards) (get h.nodes key) e →
        present_page h w' numbers' ≡ edit_at path (put_in number e) (present_page g w numbers) }
    ensures last { (g h : Grove) (path : List ℕ) (canvas key : ℕ) → HasBoxLast g h path canvas key →
        HasBoxAt g h path canvas key (length (keys_at g canvas)) }
    ensures appended { (g h : Grove) (w w' : Web) (numbers numbers' path : List ℕ) (canvas key : ℕ) (e : Entry) →
        HasBoxLast g h path canvas key → KeepsWires g h w w' numbers numbers' key → IsSavedAs (get h.boards) (get h.nodes key) e →
        present_page h w' numbers' ≡ edit_at path (appended e) (present_page g w numbers) }
    ensures edited { (g h : Grove) (w w' : Web) (numbers numbers' path : List ℕ) (canvas key : ℕ) (e : Entry) (x : Edit) →
        HasBoxLast g h path canvas key → KeepsWires g h w w' numbers numbers' key → IsSavedAs (get h.boards) (get h.nodes key) e →
        element_put x ≡ Some e → present_page h w' numbers' ≡ edit_at path (edited x) (present_page g w numbers) }
{}

/// The tree that stands then is the former one with the new box in that canvas, before the one that had its number, or last; so is the tree as it
/// stands, in which wires of higher numbers are at the next ones. The canvas is there, as deep as its path is long.
pub fn trees_follow_boxes()
    ensures stands_before { (g h : Grove) (path : List ℕ) (canvas key number : ℕ) (t : Tree) (new : Trees) → HasBoxAt g h path canvas key number →
        GroveStands g t.sheet t.boxes → Stands (get h.nodes) (get h.boards) canvas (depth_of (get g.boards canvas)) (key ∷ []) new →
        GroveStands h (put_before path number new t).sheet (put_before path number new t).boxes }
    ensures runs_before { (g h : Grove) (path : List ℕ) (canvas key number : ℕ) (t : Tree) (new : Trees) (rate : Rate) (now : ℕ) →
        HasBoxAt g h path canvas key number → RunsAs g t →
        Stands (get h.nodes) (get h.boards) canvas (depth_of (get g.boards canvas)) (key ∷ []) new →
        ComeFresh rate now (get g.nodes) (get h.nodes) → RunsAs h (put_before path number new t) }
    ensures now_before { (g h : Grove) (w w' : Web) (numbers numbers' path : List ℕ) (canvas key number : ℕ) (t : Tree) (new : Trees) →
        HasBoxAt g h path canvas key number → KeepsWires g h w w' numbers numbers' key → GroveStands g t.sheet t.boxes →
        Stands (get h.nodes) (get h.boards) canvas (depth_of (get g.boards canvas)) (key ∷ []) new →
        tree_now h w' numbers' (put_before path number new t) ≡
        come_before path number (boxes_now w' numbers' (get h.nodes) (get h.boards) (key ∷ []) new) (tree_now g w numbers t) }
    ensures last { (g : Grove) (path : List ℕ) (canvas : ℕ) (t : Tree) (new : Trees) → IsForest (get g.nodes) (get g.boards) g.root →
        sub_reached g (Some g.root) path ≡ Some canvas → GroveStands g t.sheet t.boxes →
        put_before path (length (keys_at g canvas)) new t ≡ put_at path new t }
    ensures stands { (g h : Grove) (path : List ℕ) (canvas key : ℕ) (t : Tree) (new : Trees) → HasBoxLast g h path canvas key →
        GroveStands g t.sheet t.boxes → Stands (get h.nodes) (get h.boards) canvas (depth_of (get g.boards canvas)) (key ∷ []) new →
        GroveStands h (put_at path new t).sheet (put_at path new t).boxes }
    ensures runs { (g h : Grove) (path : List ℕ) (canvas key : ℕ) (t : Tree) (new : Trees) (rate : Rate) (now : ℕ) →
        HasBoxLast g h path canvas key → RunsAs g t →
        Stands (get h.nodes) (get h.boards) canvas (depth_of (get g.boards canvas)) (key ∷ []) new →
        ComeFresh rate now (get g.nodes) (get h.nodes) → RunsAs h (put_at path new t) }
    ensures now { (g h : Grove) (w w' : Web) (numbers numbers' path : List ℕ) (canvas key : ℕ) (t : Tree) (new : Trees) →
        HasBoxLast g h path canvas key → KeepsWires g h w w' numbers numbers' key → GroveStands g t.sheet t.boxes →
        tree_now h w' numbers' (put_at path new t) ≡
        put_at path (boxes_now w' numbers' (get h.nodes) (get h.boards) (key ∷ []) new) (tree_now g w numbers t) }
    ensures along { (g : Grove) (path : List ℕ) (canvas : ℕ) (t : Tree) → IsForest (get g.nodes) (get g.boards) g.root →
        GroveStands g t.sheet t.boxes → sub_reached g (Some g.root) path ≡ Some canvas →
        (u : Tree) × (own_along path t ≡ Some u) × CanvasStands g canvas u × (depth_of (get g.boards canvas) ≡ length path) }
{}

/// A new box is saved as the element from which it grew, with what it keeps of it. What it keeps at first leaves that element as it is, but for a
/// toggle with other values in its text, and so it stands as it grew.
pub fn new_boxes_are_saved()
    ensures saved { (g : Grove) (canvas d key : ℕ) (new : Trees) (e : Entry) → Stands (get g.nodes) (get g.boards) canvas d (key ∷ []) new →
        IsNewBox new → document_boxes new ≡ boxed (e ∷ []) →
        IsSavedAs (get g.boards) (get g.nodes key) (entry_kept (state_in (get g.nodes key)) e) }
    ensures written { (g h : Grove) (path : List ℕ) (canvas key number d : ℕ) (new : Trees) (rate : Rate) (now : ℕ) (e : Entry) →
        HasBoxAt g h path canvas key number → ComeFresh rate now (get g.nodes) (get h.nodes) →
        Stands (get h.nodes) (get h.boards) canvas d (key ∷ []) new → AreMade new → IsNewBox new → KeepsTexts new →
        document_boxes new ≡ boxed (e ∷ []) → IsSavedAs (get h.boards) (get h.nodes key) e }
    ensures stands { (g h : Grove) (path : List ℕ) (canvas key number d : ℕ) (web : Web) (numbers : List ℕ) (new : Trees) (rate : Rate) (now : ℕ) →
        HasBoxAt g h path canvas key number → ComeFresh rate now (get g.nodes) (get h.nodes) →
        Stands (get h.nodes) (get h.boards) canvas d (key ∷ []) new → AreMade new → IsNewBox new → KeepsTexts new →
        boxes_now web numbers (get h.nodes) (get h.boards) (key ∷ []) new ≡ new }
{}

/// A tree that stands and grows again from its own document goes on doing so: where the table goes on and the files answer more, where a canvas
/// of it becomes another that grows again in its place, and where boxes come into a canvas, at any place, that grew there by themselves. So from the
/// document of a patch as it stands its tree as it stands grows again, whatever it grew from, whatever wires there are and whatever its boxes
/// keep of what is theirs.
pub fn standing_trees_grow_again()
    ensures grown { (lib : ℕ → Option Answer) (file : List ℕ) (page : Page) (before after : Stock) (t : Tree) →
        HasGrown lib file page before t after → StandsAgain lib file after.names t }
    ensures made { (lib : ℕ → Option Answer) (file : List ℕ) (names : Names) (t : Tree) → StandsAgain lib file names t → AreMade t.boxes }
    ensures learned { (lib lib2 : ℕ → Option Answer) (file : List ℕ) (names names2 : Names) (t : Tree) → StandsAgain lib file names t →
        AnswersAlike lib lib2 → Extends names names2 → IsLibraryOf names2 lib2 → StandsAgain lib2 file names2 t }
    ensures now { (lib : ℕ → Option Answer) (file : List ℕ) (names : Names) (t : Tree) (g : Grove) (web : Web) (numbers : List ℕ) →
        StandsAgain lib file names t → RunsAs g t → PatchRegrows lib file names (tree_now g web numbers t) }
    ensures own { (lib lib2 : ℕ → Option Answer) (file : List ℕ) (names names2 : Names) (t : Tree) (g : Grove) (web : Web)
        (numbers more : List ℕ) (room : ℕ) → StandsAgain lib file names t → AnswersAlike lib lib2 → RunsAs g t → Extends names names2 →
        grown lib2 file (present_page g web numbers) (stock names2 (zeros_of t ++ more) (weight t.boxes + room)) ≡
        gives (tree_now g web numbers t) (stock names2 more room) }
    ensures canvas { (lib : ℕ → Option Answer) (file : List ℕ) (names : Names) (left : ℕ) (path : List ℕ) (t u : Tree) →
        StandsAgain lib file names t → own_along path t ≡ Some u → length path + left ≡ 255 →
        CanvasRegrows (own_site lib file names t.sheet.zero) left u }
    ensures changed { (lib : ℕ → Option Answer) (file : List ℕ) (names : Names) (left : ℕ) (path : List ℕ) (t u : Tree) (f : Tree → Tree) →
        StandsAgain lib file names t → own_along path t ≡ Some u → length path + left ≡ 255 → TextsOf names (document_boxes (f u).boxes) →
        levels (document_boxes (f u).boxes) ≤ left → CanvasRegrows (own_site lib file names t.sheet.zero) left (f u) →
        StandsAgain lib file names (change_at path f t) }
    ensures boxes_before { (lib : ℕ → Option Answer) (file : List ℕ) (left : ℕ) (path : List ℕ) (number : ℕ) (t u : Tree) (b : Boxes) (w v : Stock)
        (new : Trees) → StandsAgain lib file w.names t → own_along path t ≡ Some u → length path + left ≡ 255 → TextsOf w.names b → levels b ≤ left →
        HoldNone b → boxes_grown lib (without_ending file) left (inner_of lib (without_ending file) left) (around_root t.sheet.zero) (listed b) w ≡
        gives new v → StandsAgain lib file v.names (put_before path number new t) }
    ensures one_before { (lib : ℕ → Option Answer) (file : List ℕ) (left : ℕ) (path : List ℕ) (number : ℕ) (t u : Tree) (e : Entry) (w v : Stock)
        (new : Trees) → StandsAgain lib file w.names t → own_along path t ≡ Some u → length path + left ≡ 255 → IsEntryOf w.names e →
        levels_of e.head.form (levels e.page.boxes) ≤ left → HoldsNone e.head.form e.page → HoldNone e.page.boxes →
        box_grown lib (without_ending file) left (inner_of lib (without_ending file) left) (around_root t.sheet.zero) e w ≡ gives new v →
        StandsAgain lib file v.names (put_before path number new t) }
    ensures boxes { (lib : ℕ → Option Answer) (file : List ℕ) (left : ℕ) (path : List ℕ) (t u : Tree) (b : Boxes) (w v : Stock) (new : Trees) →
        StandsAgain lib file w.names t → own_along path t ≡ Some u → length path + left ≡ 255 → TextsOf w.names b → levels b ≤ left →
        HoldNone b → boxes_grown lib (without_ending file) left (inner_of lib (without_ending file) left) (around_root t.sheet.zero) (listed b) w ≡
        gives new v → StandsAgain lib file v.names (put_at path new t) }
    ensures one { (lib : ℕ → Option Answer) (file : List ℕ) (left : ℕ) (path : List ℕ) (t u : Tree) (e : Entry) (w v : Stock) (new : Trees) →
        StandsAgain lib file w.names t → own_along path t ≡ Some u → length path + left ≡ 255 → IsEntryOf w.names e →
        levels_of e.head.form (levels e.page.boxes) ≤ left → HoldsNone e.head.form e.page → HoldNone e.page.boxes →
        box_grown lib (without_ending file) left (inner_of lib (without_ending file) left) (around_root t.sheet.zero) e w ≡ gives new v →
        StandsAgain lib file v.names (put_at path new t) }
    ensures element { (lib : ℕ → Option Answer) (file : List ℕ) (left own : ℕ) (e : Entry) (w v : Stock) (new : Trees) →
        levels_of e.head.form (levels e.page.boxes) ≤ left → HoldsNone e.head.form e.page → HoldNone e.page.boxes →
        box_grown lib (without_ending file) left (inner_of lib (without_ending file) left) (around_root own) e w ≡ gives new v →
        document_boxes new ≡ boxed (e ∷ []) }
    ensures new_before { (lib : ℕ → Option Answer) (file : List ℕ) (names : Names) (path : List ℕ) (number : ℕ) (t u : Tree) (new : Trees) →
        own_along path t ≡ Some u → StandsAgain lib file names (put_before path number new t) → AreMade new }
    ensures new { (lib : ℕ → Option Answer) (file : List ℕ) (names : Names) (path : List ℕ) (t u : Tree) (new : Trees) →
        own_along path t ≡ Some u → StandsAgain lib file names (put_at path new t) → AreMade new }
{}

/// Where an element without boxes comes into a running patch, at any number of a canvas, the patch runs as the former tree with the box there, which
/// grows again from its own document, and the document has the element there, with what the box keeps of it.
pub fn elements_come()
    ensures kept { (g h : Grove) (w w' : Web) (numbers numbers' path : List ℕ) (canvas key number : ℕ) (lib : ℕ → Option Answer) (file : List ℕ)
        (t : Tree) (e : Entry) (from after : Stock) (new : Trees) → RunsAs g t → StandsAgain lib file from.names t →
        TakesElement g h w w' numbers numbers' path canvas key number lib file t e from after new →
        present_page h w' numbers' ≡ edit_at path (put_in number (entry_kept (state_in (get h.nodes key)) e)) (present_page g w numbers) }
    ensures document { (g h : Grove) (w w' : Web) (numbers numbers' path : List ℕ) (canvas key number : ℕ) (lib : ℕ → Option Answer)
        (file : List ℕ) (t : Tree) (e : Entry) (from after : Stock) (new : Trees) → RunsAs g t → StandsAgain lib file from.names t →
        TakesElement g h w w' numbers numbers' path canvas key number lib file t e from after new → KeepsTexts new →
        present_page h w' numbers' ≡ edit_at path (put_in number e) (present_page g w numbers) }
    ensures runs { (g h : Grove) (w w' : Web) (numbers numbers' path : List ℕ) (canvas key number : ℕ) (lib : ℕ → Option Answer) (file : List ℕ)
        (t : Tree) (e : Entry) (from after : Stock) (new : Trees) → RunsAs g t → StandsAgain lib file from.names t →
        TakesElement g h w w' numbers numbers' path canvas key number lib file t e from after new → RunsAs h (put_before path number new t) }
    ensures again { (g h : Grove) (w w' : Web) (numbers numbers' path : List ℕ) (canvas key number : ℕ) (lib : ℕ → Option Answer) (file : List ℕ)
        (t : Tree) (e : Entry) (from after : Stock) (new : Trees) → RunsAs g t → StandsAgain lib file from.names t →
        TakesElement g h w w' numbers numbers' path canvas key number lib file t e from after new →
        StandsAgain lib file after.names (put_before path number new t) }
    ensures now { (g h : Grove) (w w' : Web) (numbers numbers' path : List ℕ) (canvas key number : ℕ) (lib : ℕ → Option Answer) (file : List ℕ)
        (t : Tree) (e : Entry) (from after : Stock) (new : Trees) → RunsAs g t → StandsAgain lib file from.names t →
        TakesElement g h w w' numbers numbers' path canvas key number lib file t e from after new → KeepsTexts new →
        tree_now h w' numbers' (put_before path number new t) ≡ come_before path number new (tree_now g w numbers t) }
{}

/// What grows from the element that an edit puts is a new box. So where an edit puts a box into a running patch, the patch runs as the former
/// tree with the box there, which grows again from its own document, and the document has the element there with what the box keeps of it:
/// it is the edited one, but for a toggle with other values in its text than it keeps at first.
pub fn edits_put_boxes()
    ensures bare { (x : Edit) (e : Entry) → element_put x ≡ Some e → IsBare e }
    ensures new { (lib : ℕ → Option Answer) (root : List ℕ) (left : ℕ) (a : Around) (e : Entry) (w v : Stock) (new : Trees) → IsBare e →
        box_grown lib root left (inner_of lib root left) a e w ≡ gives new v → IsNewBox new }
    ensures kept { (g h : Grove) (w w' : Web) (numbers numbers' path : List ℕ) (canvas key : ℕ) (lib : ℕ → Option Answer) (file : List ℕ)
        (t : Tree) (x : Edit) (from after : Stock) (new : Trees) → RunsAs g t → StandsAgain lib file from.names t →
        (puts : PutsBox g h w w' numbers numbers' path canvas key lib file t x from after new) →
        present_page h w' numbers' ≡
        edit_at path (appended (entry_kept (state_in (get h.nodes key)) puts.element)) (present_page g w numbers) }
    ensures document { (g h : Grove) (w w' : Web) (numbers numbers' path : List ℕ) (canvas key : ℕ) (lib : ℕ → Option Answer) (file : List ℕ)
        (t : Tree) (x : Edit) (from after : Stock) (new : Trees) → RunsAs g t → StandsAgain lib file from.names t →
        PutsBox g h w w' numbers numbers' path canvas key lib file t x from after new → KeepsTexts new →
        present_page h w' numbers' ≡ edit_at path (edited x) (present_page g w numbers) }
    ensures runs { (g h : Grove) (w w' : Web) (numbers numbers' path : List ℕ) (canvas key : ℕ) (lib : ℕ → Option Answer) (file : List ℕ)
        (t : Tree) (x : Edit) (from after : Stock) (new : Trees) → RunsAs g t → StandsAgain lib file from.names t →
        PutsBox g h w w' numbers numbers' path canvas key lib file t x from after new → RunsAs h (put_at path new t) }
    ensures again { (g h : Grove) (w w' : Web) (numbers numbers' path : List ℕ) (canvas key : ℕ) (lib : ℕ → Option Answer) (file : List ℕ)
        (t : Tree) (x : Edit) (from after : Stock) (new : Trees) → RunsAs g t → StandsAgain lib file from.names t →
        PutsBox g h w w' numbers numbers' path canvas key lib file t x from after new → StandsAgain lib file after.names (put_at path new t) }
    ensures now { (g h : Grove) (w w' : Web) (numbers numbers' path : List ℕ) (canvas key : ℕ) (lib : ℕ → Option Answer) (file : List ℕ)
        (t : Tree) (x : Edit) (from after : Stock) (new : Trees) → RunsAs g t → StandsAgain lib file from.names t →
        PutsBox g h w w' numbers numbers' path canvas key lib file t x from after new → KeepsTexts new →
        tree_now h w' numbers' (put_at path new t) ≡ put_at path new (tree_now g w numbers t) }
{}
