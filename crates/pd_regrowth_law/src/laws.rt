//! Laws over the growth of documents.
ghost use Rattle.std.specs.Prelude.{◌≡◌, ◌≤◌, ◌||◌, false, ℕ, List, Option, [], ◌++◌, length, Some, None, ℤ, true, take};
ghost use Rattle.std.specs.List.{list_any};
ghost use Rattle.pd_atom.specs.Names.{Names, Extends};
ghost use Rattle.pd_object.specs.declared.kinds.Kind.TheVariants as kind;
ghost use Rattle.pd_object.specs.declared.kinds.Glue.TheVariants as glue;
ghost use Rattle.pd_object.specs.declared.kinds.Panel.TheVariants as panel;
ghost use Rattle.pd_object.specs.declared.kinds.Toggle.{Toggle};
ghost use Rattle.pd_canvas.specs.Pages.{Boxes, Page, Entry, Msg, Array, Obj, Head, elements_of, listed};
ghost use Rattle.pd_canvas.specs.Proper.{levels, IsSound};
ghost use Rattle.pd_canvas.specs.declared.tree.Doc.{Doc};
ghost use Rattle.pd_library.specs.declared.answers.Answer.{Answer};
ghost use Rattle.pd_tree.specs.declared.rows.Sheet.{Sheet};
ghost use Rattle.pd_library.specs.declared.answers.Answer.TheVariants.{Found};
ghost use Rattle.pd_library.specs.Files.{answer_in, with_answer};
ghost use Rattle.pd_tree.specs.Trees.{Tree, Trees, Stand, document_boxes, document_in, join, stands_of, weight, zeros_in, zeros_of, Cell, Done, Leaf, Holder};
ghost use Rattle.pd_tree.specs.Ports.{trimmed_tree};
ghost use Rattle.pd_growth.specs.Making.{Around};
ghost use Rattle.pd_growth.specs.Steps.{Stock, beginning, gives};
ghost use Rattle.pd_growth.specs.Growth.{box_grown, boxes_grown, page_grown, without_ending, around_root, grown, Inner, cell_of};
ghost use Rattle.pd_regrowth_law.specs.Regrowth.{Takes, GivesAgain, inner_of, grown_in_parts, stock};
ghost use Rattle.pd_regrowth_law.specs.Asking.{cell_asks, asks_for, AskAsNamed, AnswersAlikeBut};
ghost use Rattle.pd_regrowth_law.specs.Filling.{LeafFollows, IsRefilled, last_two, turned};
ghost use Rattle.pd_regrowth_law.specs.Renewal.{joined, AreRenewed, AreRebuilt, GrowsAnew};
ghost use Rattle.pd_regrowth_law.specs.Rewiring.{AreAlike, IsTreeAlike, own_trimmed_tree};
ghost use Rattle.pd_regrowth_law.specs.Canvases.{Site, IsSite, BoxRegrows, ListRegrows, PageRegrows, AreRegrown, PartsRegrow, Regrows, EachRegrows, with_table, PatchRegrows, CanvasRegrows, canvas_with, Nest, nested, AreSubpatches, left_outside, own_site, with_head, IsMoved, own_along, LiesWithin};
ghost use Rattle.pd_regrowth_law.specs.Suits.{HoldNone, TreesOf, TextsOf, IsEntryOf, AreEntriesOf, IsLibraryOf, IsAroundOf, AnswersAlike};

/// Growth takes the `$0` numbers of what it gives, in text order, and as much room as that has boxes, and may bring names.
pub fn growth_takes()
    ensures one { (lib : ℕ → Option Answer) (root : List ℕ) (left : ℕ) (a : Around) (e : Entry) (w v : Stock) (t : Trees) →
        box_grown lib root left (inner_of lib root left) a e w ≡ gives t v → Takes w (zeros_in t) (weight t) v }
    ensures several { (lib : ℕ → Option Answer) (root : List ℕ) (left : ℕ) (a : Around) (es : List Entry) (w v : Stock) (t : Trees) →
        boxes_grown lib root left (inner_of lib root left) a es w ≡ gives t v → Takes w (zeros_in t) (weight t) v }
    ensures page { (lib : ℕ → Option Answer) (root : List ℕ) (left : ℕ) (a : Around) (p : Page) (w v : Stock) (t : Trees) →
        page_grown lib root left a p w ≡ gives t v → Takes w (zeros_in t) (weight t) v }
    ensures patch { (lib : ℕ → Option Answer) (name : List ℕ) (p : Page) (w v : Stock) (t : Tree) →
        grown lib name p w ≡ gives t v → Takes w (zeros_of t) (weight t.boxes) v }
{}

/// A patch has at most 16,384 boxes, those inside others too: growth begins with so much room.
pub fn patches_are_small()
    ensures { (lib : ℕ → Option Answer) (name : List ℕ) (p : Page) (names : Names) (n : ℕ) (v : Stock) (t : Tree) →
        grown lib name p (beginning names n) ≡ gives t v → weight t.boxes ≤ 16384 }
{}

/// What grew grows again, for each library that answers so too, in each table of names that goes on, with the same `$0`
/// numbers: it depends on nothing but the boxes, what is around them, the library's answers and these numbers.
pub fn growth_is_local()
    ensures one { (lib lib2 : ℕ → Option Answer) (root : List ℕ) (left : ℕ) (a : Around) (e : Entry) (w v : Stock) (t : Trees) →
        AnswersAlike lib lib2 → IsLibraryOf w.names lib → IsAroundOf w.names a → IsEntryOf w.names e →
        box_grown lib root left (inner_of lib root left) a e w ≡ gives t v →
        GivesAgain (box_grown lib2 root left (inner_of lib2 root left) a e) t v.names (zeros_in t) (weight t) }
    ensures several { (lib lib2 : ℕ → Option Answer) (root : List ℕ) (left : ℕ) (a : Around) (es : List Entry) (w v : Stock)
        (t : Trees) → AnswersAlike lib lib2 → IsLibraryOf w.names lib → IsAroundOf w.names a → AreEntriesOf w.names es →
        boxes_grown lib root left (inner_of lib root left) a es w ≡ gives t v →
        GivesAgain (boxes_grown lib2 root left (inner_of lib2 root left) a es) t v.names (zeros_in t) (weight t) }
    ensures page { (lib lib2 : ℕ → Option Answer) (root : List ℕ) (left : ℕ) (a : Around) (p : Page) (w v : Stock) (t : Trees) →
        AnswersAlike lib lib2 → IsLibraryOf w.names lib → IsAroundOf w.names a → TextsOf w.names p.boxes →
        page_grown lib root left a p w ≡ gives t v →
        GivesAgain (page_grown lib2 root left a p) t v.names (zeros_in t) (weight t) }
    ensures patch { (lib lib2 : ℕ → Option Answer) (name : List ℕ) (p : Page) (w v : Stock) (t : Tree) →
        AnswersAlike lib lib2 → IsLibraryOf w.names lib → TextsOf w.names p.boxes →
        grown lib name p w ≡ gives t v → GivesAgain (grown lib2 name p) t v.names (zeros_of t) (weight t.boxes) }
{}

/// Growing boxes one after another is growing a first part of them and then the rest, from the stock that it left: the same
/// boxes, or the same end.
pub fn growth_splits()
    ensures { (lib : ℕ → Option Answer) (root : List ℕ) (left : ℕ) (inner : Inner) (a : Around) (es fs : List Entry) (w : Stock) →
        boxes_grown lib root left inner a (es ++ fs) w ≡ grown_in_parts lib root left inner a es fs w }
{}

/// The boxes of a document grow again exactly if each does by itself: numbers and room add up, and the names are one table.
pub fn boxes_regrow()
    ensures whole { (s : Site) (left : ℕ) (es : List Entry) (t : Trees) → AreRegrown s left es t → ListRegrows s left es t }
    ensures each { (s : Site) (left : ℕ) (es : List Entry) (t : Trees) → IsSite s → AreEntriesOf s.names es →
        ListRegrows s left es t → AreRegrown s left es t }
    ensures page { (s : Site) (left : ℕ) (p : Page) (t : Trees) → AreRegrown s left (elements_of p) t → PageRegrows s left p t }
    ensures each_of_page { (s : Site) (left : ℕ) (p : Page) (t : Trees) → IsSite s → TextsOf s.names p.boxes →
        PageRegrows s left p t → AreRegrown s left (elements_of p) t }
    ensures parts { (s : Site) (left : ℕ) (es fs : List Entry) (t u : Trees) →
        ListRegrows s left es t → ListRegrows s left fs u → ListRegrows s left (es ++ fs) (join t u) }
    ensures each_part { (s : Site) (left : ℕ) (es fs : List Entry) (t : Trees) → IsSite s → AreEntriesOf s.names es →
        AreEntriesOf s.names fs → ListRegrows s left (es ++ fs) t → PartsRegrow s left es fs t }
{}

/// Boxes of a canvas grow again from their own document exactly if each of them does, and so with other boxes among them.
pub fn canvases_regrow()
    ensures whole { (s : Site) (left : ℕ) (t : Trees) → EachRegrows s left t → Regrows s left t }
    ensures each { (s : Site) (left : ℕ) (t : Trees) → IsSite s → TextsOf s.names (document_boxes t) → Regrows s left t →
        EachRegrows s left t }
    ensures parts { (s : Site) (left : ℕ) (t u : Trees) → Regrows s left t → Regrows s left u → Regrows s left (join t u) }
    ensures each_part { (s : Site) (left : ℕ) (t u : Trees) → IsSite s → TextsOf s.names (document_boxes (join t u)) →
        Regrows s left (join t u) → Regrows s left t × Regrows s left u }
    ensures replaced { (s : Site) (left : ℕ) (before old new behind : Trees) → IsSite s →
        TextsOf s.names (document_boxes (join before (join old behind))) → Regrows s left (join before (join old behind)) →
        Regrows s left new → Regrows s left (join before (join new behind)) }
{}

/// An edit of one canvas of a patch's own document. That canvas grows again if the patch does, and the patch with another
/// canvas in its place grows again if that one does: what lies around is as it was.
pub fn edits_regrow()
    ensures canvas { (lib : ℕ → Option Answer) (file : List ℕ) (names : Names) (left : ℕ) (nest : Nest) (t : Tree) →
        IsLibraryOf names lib → AreSubpatches nest → TextsOf names (document_boxes (nested nest t).boxes) →
        left_outside nest left ≡ 255 → PatchRegrows lib file names (nested nest t) →
        CanvasRegrows (own_site lib file names (nested nest t).sheet.zero) left t }
    ensures patch { (lib : ℕ → Option Answer) (file : List ℕ) (names : Names) (left : ℕ) (nest : Nest) (old new : Tree) →
        IsLibraryOf names lib → AreSubpatches nest → TextsOf names (document_boxes (nested nest old).boxes) →
        left_outside nest left ≡ 255 → PatchRegrows lib file names (nested nest old) →
        CanvasRegrows (own_site lib file names (nested nest old).sheet.zero) left new →
        PatchRegrows lib file names (nested nest new) }
    ensures wires { (lib : ℕ → Option Answer) (file : List ℕ) (names : Names) (left : ℕ) (nest : Nest) (sheet sheet2 : Sheet)
        (boxes : Trees) → IsLibraryOf names lib → AreSubpatches nest →
        TextsOf names (document_boxes (nested nest (canvas_with sheet boxes)).boxes) → left_outside nest left ≡ 255 →
        PatchRegrows lib file names (nested nest (canvas_with sheet boxes)) → sheet2.zero ≡ sheet.zero →
        sheet2.arguments ≡ sheet.arguments → PatchRegrows lib file names (nested nest (canvas_with sheet2 boxes)) }
    ensures texts { (names : Names) (nest : Nest) (old new : Tree) → AreSubpatches nest →
        TextsOf names (document_boxes (nested nest old).boxes) → TextsOf names (document_boxes new.boxes) →
        TextsOf names (document_boxes (nested nest new).boxes) }
    ensures boxes { (s : Site) (left : ℕ) (sheet sheet2 : Sheet) (before old new behind : Trees) → IsSite s →
        TextsOf s.names (document_boxes (join before (join old behind))) →
        CanvasRegrows s left (canvas_with sheet (join before (join old behind))) → sheet2.zero ≡ sheet.zero →
        sheet2.arguments ≡ sheet.arguments → Regrows s left new →
        CanvasRegrows s left (canvas_with sheet2 (join before (join new behind))) }
    ensures grown { (lib : ℕ → Option Answer) (file : List ℕ) (left : ℕ) (nest : Nest) (sheet sheet2 : Sheet)
        (before old behind : Trees) (b : Boxes) (w v : Stock) (new : Trees) → IsLibraryOf w.names lib → AreSubpatches nest →
        left_outside nest left ≡ 255 →
        TextsOf w.names (document_boxes (nested nest (canvas_with sheet (join before (join old behind)))).boxes) →
        PatchRegrows lib file w.names (nested nest (canvas_with sheet (join before (join old behind)))) →
        sheet2.zero ≡ sheet.zero → sheet2.arguments ≡ sheet.arguments → TextsOf w.names b → levels b ≤ left → HoldNone b →
        boxes_grown lib (without_ending file) left (inner_of lib (without_ending file) left)
        (around_root (nested nest (canvas_with sheet (join before (join old behind)))).sheet.zero) (listed b) w ≡ gives new v →
        PatchRegrows lib file v.names (nested nest (canvas_with sheet2 (join before (join new behind)))) }
    ensures less { (lib : ℕ → Option Answer) (file : List ℕ) (names : Names) (left : ℕ) (nest : Nest) (sheet sheet2 : Sheet)
        (before old behind : Trees) → IsLibraryOf names lib → AreSubpatches nest → left_outside nest left ≡ 255 →
        TextsOf names (document_boxes (nested nest (canvas_with sheet (join before (join old behind)))).boxes) →
        PatchRegrows lib file names (nested nest (canvas_with sheet (join before (join old behind)))) →
        sheet2.zero ≡ sheet.zero → sheet2.arguments ≡ sheet.arguments →
        PatchRegrows lib file names (nested nest (canvas_with sheet2 (join before behind))) }
{}

/// Growth never looks at where a box stands: with another place it grows again, to the same but for that.
pub fn places_are_unseen()
    ensures leaf { (s : Site) (left : ℕ) (c : Cell) (k : Head) → IsMoved c.head k → Regrows s left (Leaf c Done) →
        Regrows s left (Leaf (with_head k c) Done) }
    ensures holder { (s : Site) (left : ℕ) (c : Cell) (k : Head) (sheet : Sheet) (inner : Trees) → IsMoved c.head k →
        Regrows s left (Holder c sheet inner Done) → Regrows s left (Holder (with_head k c) sheet inner Done) }
{}

/// A canvas of the document to which a path leads lies within the whole, as deep as the path is long.
pub fn paths_lead_within()
    ensures { (path : List ℕ) (t u : Tree) → own_along path t ≡ Some u → LiesWithin (length path) t u }
{}

/// A patch that grew grows again from its own document, with the wires that fit or with others.
pub fn grown_patches_regrow()
    ensures rewired { (lib lib2 : ℕ → Option Answer) (file : List ℕ) (p : Page) (w v : Stock) (t u : Tree) →
        AnswersAlike lib lib2 → IsLibraryOf w.names lib → TextsOf w.names p.boxes → grown lib file p w ≡ gives t v →
        IsTreeAlike t u → PatchRegrows lib2 file v.names u }
    ensures own { (lib lib2 : ℕ → Option Answer) (file : List ℕ) (p : Page) (w v : Stock) (t : Tree) → AnswersAlike lib lib2 →
        IsLibraryOf w.names lib → TextsOf w.names p.boxes → grown lib file p w ≡ gives t v →
        PatchRegrows lib2 file v.names (own_trimmed_tree t) }
{}

/// With other contents in the canvases of the document a tree grows again, where each box without a canvas does: a message box
/// with any text, an array with other values, and a toggle whose text is whole with other ones.
pub fn contents_regrow()
    ensures whole { (s : Site) (left : ℕ) (t u : Trees) → IsSite s → TextsOf s.names (document_boxes t) →
        levels (document_boxes t) ≤ left → Regrows s left t → IsRefilled s t u → Regrows s left u }
    ensures patch { (lib : ℕ → Option Answer) (file : List ℕ) (names : Names) (t u : Tree) → IsLibraryOf names lib →
        TextsOf names (document_boxes t.boxes) → levels (document_boxes t.boxes) ≤ 255 → PatchRegrows lib file names t →
        u.sheet.zero ≡ t.sheet.zero → u.sheet.arguments ≡ t.sheet.arguments →
        IsRefilled (own_site lib file names t.sheet.zero) t.boxes u.boxes → PatchRegrows lib file names u }
    ensures message { (s : Site) (c : Cell) (h : Head) → h.form ≡ Msg →
        LeafFollows s c (cell_of h h.text (kind.Glue (glue.Message h.text)) None) }
    ensures array { (s : Site) (c : Cell) (h : Head) (old new : List ℤ) → c.head.form ≡ Array old → h.form ≡ Array new →
        h.text ≡ c.head.text → LeafFollows s c (cell_of h c.text (kind.Glue (glue.Array c.text new)) None) }
    ensures toggle { (s : Site) (c : Cell) (h : Head) (t : Toggle) (value other : ℤ) → c.head.form ≡ Obj → h.form ≡ Obj →
        c.kind ≡ kind.Panel (panel.Tgl t) → t.is_whole ≡ true → h.text ≡ take 13 c.head.text ++ last_two value other →
        LeafFollows s c (cell_of h (take 13 c.text ++ last_two value other) (kind.Panel (panel.Tgl (turned value other t))) None) }
{}

/// What grows again does so in each table that goes on; and what grows once from just its own numbers and room, and brings
/// no name, grows again.
pub fn regrowth_lasts()
    ensures table { (s : Site) (names : Names) (left : ℕ) (t : Trees) → Extends s.names names → Regrows s left t →
        Regrows (with_table names s) left t }
    ensures patch { (lib : ℕ → Option Answer) (file : List ℕ) (names names2 : Names) (t : Tree) → Extends names names2 →
        PatchRegrows lib file names t → PatchRegrows lib file names2 t }
    ensures once { (lib : ℕ → Option Answer) (file : List ℕ) (names : Names) (t : Tree) → IsLibraryOf names lib →
        TextsOf names (document_boxes t.boxes) →
        grown lib file (document_in t) (stock names (zeros_of t) (weight t.boxes)) ≡ gives t (stock names [] 0) →
        PatchRegrows lib file names t }
{}

/// A tree has in it the document from which it grew.
pub fn document_stays()
    ensures page { (lib : ℕ → Option Answer) (root : List ℕ) (left : ℕ) (a : Around) (p : Page) (w v : Stock) (t : Trees) →
        levels p.boxes ≤ left → HoldNone p.boxes → page_grown lib root left a p w ≡ gives t v → document_boxes t ≡ p.boxes }
    ensures patch { (lib : ℕ → Option Answer) (name : List ℕ) (p : Page) (w v : Stock) (t : Tree) →
        levels p.boxes ≤ 255 → HoldNone p.boxes → grown lib name p w ≡ gives t v → document_in t ≡ p }
{}

/// Growth never looks at wires: from a document with other wires the same tree grows with those wires.
pub fn wires_are_unseen()
    ensures page { (lib : ℕ → Option Answer) (root : List ℕ) (left : ℕ) (a : Around) (p q : Page) (w v : Stock) (t u : Trees) →
        page_grown lib root left a p w ≡ gives t v → AreAlike t u → q.boxes ≡ document_boxes u →
        page_grown lib root left a q w ≡ gives u v }
    ensures patch { (lib : ℕ → Option Answer) (name : List ℕ) (p : Page) (w v : Stock) (t u : Tree) →
        grown lib name p w ≡ gives t v → IsTreeAlike t u → grown lib name (document_in u) w ≡ gives u v }
    ensures texts { (lib : ℕ → Option Answer) (name : List ℕ) (p : Page) (w v : Stock) (t u : Tree) (names : Names) →
        grown lib name p w ≡ gives t v → IsTreeAlike t u → TextsOf names p.boxes → TextsOf names (document_in u).boxes }
    ensures numbers { (t u : Tree) → IsTreeAlike t u → zeros_of u ≡ zeros_of t }
    ensures weight { (t u : Tree) → IsTreeAlike t u → weight u.boxes ≡ weight t.boxes }
{}

/// A patch's own document, in which the wires that don't fit are left out, grows to a patch with the same boxes, numbers
/// and wires that fit, whatever wires were there. So does one with other wires.
pub fn patches_grow_again()
    ensures rewired { (lib lib2 : ℕ → Option Answer) (name : List ℕ) (p : Page) (w v : Stock) (t u : Tree) →
        AnswersAlike lib lib2 → IsLibraryOf w.names lib → TextsOf w.names p.boxes → IsTreeAlike t u →
        grown lib name p w ≡ gives t v → GivesAgain (grown lib2 name (document_in u)) u v.names (zeros_of t) (weight t.boxes) }
    ensures own { (lib lib2 : ℕ → Option Answer) (name : List ℕ) (p : Page) (w v : Stock) (t : Tree) →
        AnswersAlike lib lib2 → IsLibraryOf w.names lib → TextsOf w.names p.boxes → grown lib name p w ≡ gives t v →
        GivesAgain (grown lib2 name (document_in (trimmed_tree t))) (own_trimmed_tree t) v.names (zeros_of t) (weight t.boxes) }
    ensures trimmed { (t : Tree) → trimmed_tree (own_trimmed_tree t) ≡ trimmed_tree t }
{}

/// Leaving out the wires that don't fit once is enough, and leaves the `$0` numbers and the count of boxes.
pub fn trimming_laws()
    ensures twice { (t : Tree) → trimmed_tree (trimmed_tree t) ≡ trimmed_tree t }
    ensures numbers { (t : Tree) → zeros_of (trimmed_tree t) ≡ zeros_of t }
    ensures weight { (t : Tree) → weight (trimmed_tree t).boxes ≡ weight t.boxes }
{}

/// The boxes of a sound document are of its table, and those that are no subpatches hold nothing.
pub fn sound_documents_suit()
    ensures texts { (names : Names) (p : Page) → IsSound names p → TextsOf names p.boxes }
    ensures none { (names : Names) (p : Page) → IsSound names p → HoldNone p.boxes }
{}

/// What is of a table is of each one that goes on where it ends.
pub fn longer_tables_suit()
    ensures texts { (old new : Names) (b : Boxes) → Extends old new → TextsOf old b → TextsOf new b }
    ensures entries { (old new : Names) (es : List Entry) → Extends old new → AreEntriesOf old es → AreEntriesOf new es }
    ensures library { (old new : Names) (lib : ℕ → Option Answer) → Extends old new → IsLibraryOf old lib → IsLibraryOf new lib }
    ensures around { (old new : Names) (a : Around) → Extends old new → IsAroundOf old a → IsAroundOf new a }
    ensures trees { (old new : Names) (t : Trees) → Extends old new → TreesOf old t → TreesOf new t }
{}

/// The texts that grow, and the arguments that canvases have, are of the table after growth.
pub fn grown_texts_are_known()
    ensures one { (lib : ℕ → Option Answer) (root : List ℕ) (left : ℕ) (a : Around) (e : Entry) (w v : Stock) (t : Trees) →
        IsLibraryOf w.names lib → IsAroundOf w.names a → IsEntryOf w.names e →
        box_grown lib root left (inner_of lib root left) a e w ≡ gives t v → TreesOf v.names t }
    ensures several { (lib : ℕ → Option Answer) (root : List ℕ) (left : ℕ) (a : Around) (es : List Entry) (w v : Stock)
        (t : Trees) → IsLibraryOf w.names lib → IsAroundOf w.names a → AreEntriesOf w.names es →
        boxes_grown lib root left (inner_of lib root left) a es w ≡ gives t v → TreesOf v.names t }
    ensures page { (lib : ℕ → Option Answer) (root : List ℕ) (left : ℕ) (a : Around) (p : Page) (w v : Stock) (t : Trees) →
        IsLibraryOf w.names lib → IsAroundOf w.names a → TextsOf w.names p.boxes →
        page_grown lib root left a p w ≡ gives t v → TreesOf v.names t }
    ensures patch { (lib : ℕ → Option Answer) (name : List ℕ) (p : Page) (w v : Stock) (t : Tree) →
        IsLibraryOf w.names lib → TextsOf w.names p.boxes → grown lib name p w ≡ gives t v → TreesOf v.names t.boxes }
{}

/// What grew grows so from the same stock where the library learns more.
pub fn library_grows()
    ensures one { (lib lib2 : ℕ → Option Answer) (root : List ℕ) (left : ℕ) (a : Around) (e : Entry) (w v : Stock) (t : Trees) →
        AnswersAlike lib lib2 → box_grown lib root left (inner_of lib root left) a e w ≡ gives t v →
        box_grown lib2 root left (inner_of lib2 root left) a e w ≡ gives t v }
    ensures several { (lib lib2 : ℕ → Option Answer) (root : List ℕ) (left : ℕ) (a : Around) (es : List Entry) (w v : Stock)
        (t : Trees) →
        AnswersAlike lib lib2 → boxes_grown lib root left (inner_of lib root left) a es w ≡ gives t v →
        boxes_grown lib2 root left (inner_of lib2 root left) a es w ≡ gives t v }
    ensures page { (lib lib2 : ℕ → Option Answer) (root : List ℕ) (left : ℕ) (a : Around) (p : Page) (w v : Stock) (t : Trees) →
        AnswersAlike lib lib2 → page_grown lib root left a p w ≡ gives t v → page_grown lib2 root left a p w ≡ gives t v }
    ensures patch { (lib lib2 : ℕ → Option Answer) (file : List ℕ) (p : Page) (w v : Stock) (t : Tree) →
        AnswersAlike lib lib2 → grown lib file p w ≡ gives t v → grown lib2 file p w ≡ gives t v }
{}

/// What grew grows so from the same stock where the library answers otherwise for one name, and no box of what grew asks
/// for that name.
pub fn library_changes()
    ensures one { (lib lib2 : ℕ → Option Answer) (name : ℕ) (root : List ℕ) (left : ℕ) (a : Around) (e : Entry) (w v : Stock)
        (t : Trees) →
        AnswersAlikeBut name lib lib2 → asks_for name t ≡ false →
        box_grown lib root left (inner_of lib root left) a e w ≡ gives t v →
        box_grown lib2 root left (inner_of lib2 root left) a e w ≡ gives t v }
    ensures several { (lib lib2 : ℕ → Option Answer) (name : ℕ) (root : List ℕ) (left : ℕ) (a : Around) (es : List Entry)
        (w v : Stock) (t : Trees) →
        AnswersAlikeBut name lib lib2 → asks_for name t ≡ false →
        boxes_grown lib root left (inner_of lib root left) a es w ≡ gives t v →
        boxes_grown lib2 root left (inner_of lib2 root left) a es w ≡ gives t v }
    ensures page { (lib lib2 : ℕ → Option Answer) (name : ℕ) (root : List ℕ) (left : ℕ) (a : Around) (p : Page) (w v : Stock)
        (t : Trees) →
        AnswersAlikeBut name lib lib2 → asks_for name t ≡ false → page_grown lib root left a p w ≡ gives t v →
        page_grown lib2 root left a p w ≡ gives t v }
    ensures patch { (lib lib2 : ℕ → Option Answer) (name : ℕ) (file : List ℕ) (p : Page) (w v : Stock) (t : Tree) →
        AnswersAlikeBut name lib lib2 → asks_for name t.boxes ≡ false → grown lib file p w ≡ gives t v →
        grown lib2 file p w ≡ gives t v }
{}

/// What grows again goes on to where the library learns more.
pub fn regrowth_outlives_learning()
    ensures one { (lib lib2 : ℕ → Option Answer) (root : List ℕ) (left : ℕ) (a : Around) (e : Entry) (t : Trees) (names : Names)
        (numbers : List ℕ) (boxes : ℕ) →
        AnswersAlike lib lib2 → GivesAgain (box_grown lib root left (inner_of lib root left) a e) t names numbers boxes →
        GivesAgain (box_grown lib2 root left (inner_of lib2 root left) a e) t names numbers boxes }
    ensures several { (lib lib2 : ℕ → Option Answer) (root : List ℕ) (left : ℕ) (a : Around) (es : List Entry) (t : Trees)
        (names : Names) (numbers : List ℕ) (boxes : ℕ) →
        AnswersAlike lib lib2 → GivesAgain (boxes_grown lib root left (inner_of lib root left) a es) t names numbers boxes →
        GivesAgain (boxes_grown lib2 root left (inner_of lib2 root left) a es) t names numbers boxes }
    ensures page { (lib lib2 : ℕ → Option Answer) (root : List ℕ) (left : ℕ) (a : Around) (p : Page) (t : Trees) (names : Names)
        (numbers : List ℕ) (boxes : ℕ) →
        AnswersAlike lib lib2 → GivesAgain (page_grown lib root left a p) t names numbers boxes →
        GivesAgain (page_grown lib2 root left a p) t names numbers boxes }
    ensures patch { (lib lib2 : ℕ → Option Answer) (file : List ℕ) (p : Page) (t : Tree) (names : Names) (numbers : List ℕ)
        (boxes : ℕ) →
        AnswersAlike lib lib2 → GivesAgain (grown lib file p) t names numbers boxes →
        GivesAgain (grown lib2 file p) t names numbers boxes }
{}

/// What grows again goes on to where the library answers otherwise for one name, and none of its boxes asks for that name.
pub fn regrowth_outlives_changes()
    ensures one { (lib lib2 : ℕ → Option Answer) (name : ℕ) (root : List ℕ) (left : ℕ) (a : Around) (e : Entry) (t : Trees)
        (names : Names) (numbers : List ℕ) (boxes : ℕ) →
        AnswersAlikeBut name lib lib2 → asks_for name t ≡ false →
        GivesAgain (box_grown lib root left (inner_of lib root left) a e) t names numbers boxes →
        GivesAgain (box_grown lib2 root left (inner_of lib2 root left) a e) t names numbers boxes }
    ensures several { (lib lib2 : ℕ → Option Answer) (name : ℕ) (root : List ℕ) (left : ℕ) (a : Around) (es : List Entry)
        (t : Trees) (names : Names) (numbers : List ℕ) (boxes : ℕ) →
        AnswersAlikeBut name lib lib2 → asks_for name t ≡ false →
        GivesAgain (boxes_grown lib root left (inner_of lib root left) a es) t names numbers boxes →
        GivesAgain (boxes_grown lib2 root left (inner_of lib2 root left) a es) t names numbers boxes }
    ensures page { (lib lib2 : ℕ → Option Answer) (name : ℕ) (root : List ℕ) (left : ℕ) (a : Around) (p : Page) (t : Trees)
        (names : Names) (numbers : List ℕ) (boxes : ℕ) →
        AnswersAlikeBut name lib lib2 → asks_for name t ≡ false →
        GivesAgain (page_grown lib root left a p) t names numbers boxes →
        GivesAgain (page_grown lib2 root left a p) t names numbers boxes }
    ensures patch { (lib lib2 : ℕ → Option Answer) (name : ℕ) (file : List ℕ) (p : Page) (t : Tree) (names : Names)
        (numbers : List ℕ) (boxes : ℕ) →
        AnswersAlikeBut name lib lib2 → asks_for name t.boxes ≡ false → GivesAgain (grown lib file p) t names numbers boxes →
        GivesAgain (grown lib2 file p) t names numbers boxes }
    ensures renewed { (lib lib2 : ℕ → Option Answer) (name : ℕ) (root : List ℕ) (left : ℕ) (a : Around) (es : List Entry)
        (ts : List Trees) (names : Names) →
        AnswersAlikeBut name lib lib2 →
        AreRenewed (box_grown lib root left (inner_of lib root left) a)
        (box_grown lib2 root left (inner_of lib2 root left) a) name names es ts →
        GivesAgain (boxes_grown lib2 root left (inner_of lib2 root left) a es) (joined ts) names (zeros_in (joined ts))
        (weight (joined ts)) }
{}

/// A document of which each outermost box that asks for a name, or holds one that does, was grown anew, and all else stayed,
/// regrows under the library that answers otherwise for that name.
pub fn rebuilt_documents_regrow()
    ensures page { (lib lib2 : ℕ → Option Answer) (name : ℕ) (root : List ℕ) (left : ℕ) (a : Around) (p : Page) (w v : Stock)
        (t u : Trees)
        (names : Names) → AnswersAlikeBut name lib lib2 → Extends v.names names → IsLibraryOf w.names lib → IsAroundOf w.names a →
        TextsOf w.names p.boxes → page_grown lib root left a p w ≡ gives t v →
        AreRebuilt (GrowsAnew lib2 root a names) name left t u →
        GivesAgain (page_grown lib2 root left a p) u names (zeros_in u) (weight u) }
    ensures patch { (lib lib2 : ℕ → Option Answer) (name : ℕ) (file : List ℕ) (p : Page) (w v : Stock) (t u : Tree)
        (names : Names) →
        AnswersAlikeBut name lib lib2 → Extends v.names names → IsLibraryOf w.names lib → TextsOf w.names p.boxes →
        grown lib file p w ≡ gives t v → u.sheet ≡ t.sheet →
        AreRebuilt (GrowsAnew lib2 (without_ending file) (around_root t.sheet.zero) names) name 255 t.boxes u.boxes →
        GivesAgain (grown lib2 file p) u names (zeros_of u) (weight u.boxes) }
    ensures unasked { (lib : ℕ → Option Answer) (root : List ℕ) (a : Around) (names : Names) (name left : ℕ) (t : Trees) →
        asks_for name t ≡ false → AreRebuilt (GrowsAnew lib root a names) name left t t }
{}

/// In what grew each box asks for the file of the abstraction that its text names, made or not, and no other box asks for one.
pub fn boxes_ask_as_named()
    ensures one { (lib : ℕ → Option Answer) (root : List ℕ) (left : ℕ) (a : Around) (e : Entry) (w v : Stock) (t : Trees) →
        IsLibraryOf w.names lib → IsAroundOf w.names a → IsEntryOf w.names e →
        box_grown lib root left (inner_of lib root left) a e w ≡ gives t v → AskAsNamed v.names t }
    ensures several { (lib : ℕ → Option Answer) (root : List ℕ) (left : ℕ) (a : Around) (es : List Entry) (w v : Stock)
        (t : Trees) → IsLibraryOf w.names lib → IsAroundOf w.names a → AreEntriesOf w.names es →
        boxes_grown lib root left (inner_of lib root left) a es w ≡ gives t v → AskAsNamed v.names t }
    ensures page { (lib : ℕ → Option Answer) (root : List ℕ) (left : ℕ) (a : Around) (p : Page) (w v : Stock) (t : Trees) →
        IsLibraryOf w.names lib → IsAroundOf w.names a → TextsOf w.names p.boxes →
        page_grown lib root left a p w ≡ gives t v → AskAsNamed v.names t }
    ensures patch { (lib : ℕ → Option Answer) (file : List ℕ) (p : Page) (w v : Stock) (t : Tree) →
        IsLibraryOf w.names lib → TextsOf w.names p.boxes → grown lib file p w ≡ gives t v → AskAsNamed v.names t.boxes }
{}

/// Whether boxes ask for a name is told by one walk over them in text order, and of two lists of boxes by each of them.
pub fn asking_laws()
    ensures walk { (name : ℕ) (t : Trees) → asks_for name t ≡ list_any (λ (s : Stand). cell_asks name s.cell) (stands_of t) }
    ensures join { (name : ℕ) (t r : Trees) → asks_for name (join t r) ≡ (asks_for name t || asks_for name r) }
{}

/// Where a document is published under a name, the files answer as before for all others, and what grows from it is of the table.
pub fn published_documents_answer()
    ensures others { (name : ℕ) (answer : Answer) (files : List (ℕ × Answer)) →
        AnswersAlikeBut name (answer_in files) (answer_in (with_answer name answer files)) }
    ensures library { (names : Names) (name : ℕ) (d : Doc) (files : List (ℕ × Answer)) → TextsOf names d.root.boxes →
        IsLibraryOf names (answer_in files) → IsLibraryOf names (answer_in (with_answer name (Found d) files)) }
{}
