//! Laws of edits that put boxes, and of boxes that hold no canvas.

ghost use Rattle.std.specs.Prelude.{◌≡◌, ◌≢◌, ◌≤◌, ◌+◌, ◌-◌, true, ℕ, List, [], ◌∷◌, length, Option, None, Some, Result, Ok, Err};
ghost use Rattle.std.specs.declared.vec.Vec.{Vec};
ghost use Rattle.std.specs.declared.alloc.Global.{Global};
ghost use Rattle.pd_io.specs.declared.files.FileRow.{FileRow};
ghost use Rattle.pd_atom.specs.declared.Atom.{Atom};
ghost use Rattle.pd_atom.specs.Names.{Names, given};
ghost use Rattle.pd_object.specs.declared.kinds.Kind.{Kind};
ghost use Rattle.pd_object.specs.declared.kinds.Named.TheVariants as named;
ghost use Rattle.pd_naming.specs.Naming.{named_by};
ghost use Rattle.pd_clock.specs.declared.times.Rate.{Rate};
ghost use Rattle.pd_canvas.specs.declared.edits.Edit.{Edit};
ghost use Rattle.pd_canvas.specs.Pages.{Obj, Page, Entry};
ghost use Rattle.pd_canvas.specs.Edits.{edited, appended};
ghost use Rattle.pd_library.specs.declared.answers.Answer.{Answer};
ghost use Rattle.pd_tree.specs.declared.rows.Row.{Row};
ghost use Rattle.pd_tree.specs.Trees.{Cell, Trees, Leaf, Done, width, weight, zeros_in, stand_of, stands_of, stands_in};
ghost use Rattle.pd_growth.specs.Making.{Around};
ghost use Rattle.pd_growth.specs.Steps.{Stock, beginning, gives, text_expanded};
ghost use Rattle.pd_growth.specs.Growth.{Inner, box_grown, grown};
ghost use Rattle.pd_growth.specs.Growing.{inside_grown};
ghost use Rattle.pd_gather.specs.Gather.{Known, known};
ghost use Rattle.pd_web.specs.Changes.{wires_told};
ghost use Rattle.pd_patch.specs.declared.patch.Patch.{Patch};
ghost use Rattle.pd_patch.specs.Grown.{IsTree};
ghost use Rattle.pd_regrowth_law.specs.Regrowth.{Takes};
ghost use Rattle.pd_wiring.specs.declared.refusals.EditRefusal.{EditRefusal};
ghost use Rattle.pd_wiring.specs.declared.refusals.EditRefusal.TheVariants.{ShelfFault, NoMemory};
ghost use Rattle.pd_wiring.specs.Changes.{AreAlike};
ghost use Rattle.pd_adding.specs.declared.counts.Counts.{Counts};
ghost use Rattle.pd_adding.specs.Adding.{ComesTo};
ghost use Rattle.pd_adding.specs.Boxes.{box_put};
ghost use Rattle.pd_adding.specs.Coming.{coming, own_zero};
ghost use Rattle.pd_adding.specs.Counted.{AreCounted, IsLimited, with_wires};
ghost use Rattle.pd_adding.specs.Counts.{stock_by};
ghost use Rattle.pd_adding.specs.Growing.{Added, growth_of, totalled, GrowsTo, EndsFor};
ghost use Rattle.pd_adding.specs.Single.{IsSingle, is_plain};

/// The box that an edit puts is what a document gets by it, as the last of its canvas, and nothing else changes in it.
pub fn edits_put_boxes()
    ensures { (e : Edit) (p : Page) (b : Entry) → box_put e ≡ Some b → edited e p ≡ appended b p }
{}

/// An edit comes to what is told of it first: why no box may come, why growth is refused, or else what there would be with what grew,
/// which took of the counts a `$0` for each abstraction and room for each box.
pub fn steps_come_to_it()
    ensures coming { (holds : Option (List FileRow)) (p : Patch) (n : Counts) (name path : List ℕ) (e : Edit) (k : Known) (why : EditRefusal) →
        coming k.names p path e ≡ Err why → ComesTo holds p n name path e k (Err why) }
    ensures growing { (holds : Option (List FileRow)) (p : Patch) (n : Counts) (name path : List ℕ) (e : Edit) (k : Known) (canvas : ℕ) (b : Entry) (why : EditRefusal) →
        coming k.names p path e ≡ Ok (canvas, b) → EndsFor holds (growth_of (own_zero p) n name (255 - length path) b) k why →
        why ≢ NoMemory → why ≢ ShelfFault → ComesTo holds p n name path e k (Err why) }
    ensures counting { (holds : Option (List FileRow)) (p : Patch) (n : Counts) (name path : List ℕ) (e : Edit) (k : Known) (canvas : ℕ) (b : Entry)
        (files : List (ℕ × Answer)) (rows : Vec Row Global) (w : Stock) (r : Result Added EditRefusal) → coming k.names p path e ≡ Ok (canvas, b) →
        (g : GrowsTo holds (growth_of (own_zero p) n name (255 - length path) b) k files rows w) →
        totalled p.rate n canvas (known files w.names) g.gives.boxes ≡ r → ComesTo holds p n name path e k r }
    ensures takes { (holds : Option (List FileRow)) (own : ℕ) (n : Counts) (name : List ℕ) (left : ℕ) (b : Entry) (k : Known)
        (files : List (ℕ × Answer)) (rows : Vec Row Global) (w : Stock) → (g : GrowsTo holds (growth_of own n name left b) k files rows w) →
        Takes (stock_by g.names n) (zeros_in g.gives.boxes) (weight g.gives.boxes) w }
{}

/// One box with what it holds, whose first row has no canvas, is that row; such a box takes no `$0` and room for one box. Each box but an
/// object or a subpatch grows so, and each object whose text names a kind.
pub fn single_boxes()
    ensures rows { (row : Row) (more : List Row) (t : Trees) → width t ≡ 1 → stands_in (row ∷ more) ≡ stands_of t → row.sheet ≡ None →
        (more ≡ []) × (t ≡ Leaf (stand_of row).cell Done) }
    ensures takes { (lib : ℕ → Option Answer) (root : List ℕ) (left : ℕ) (a : Around) (e : Entry) (w v : Stock) (c : Cell) →
        box_grown lib root left (inside_grown lib root left) a e w ≡ gives (Leaf c Done) v → (v.zeros ≡ w.zeros) × (w.room ≡ v.room + 1) }
    ensures forms { (lib : ℕ → Option Answer) (root : List ℕ) (left : ℕ) (inner : Inner) (a : Around) (e : Entry) (w v : Stock) (t : Trees) →
        is_plain e.head.form ≡ true → box_grown lib root left inner a e w ≡ gives t v → IsSingle t }
    ensures kinds { (lib : ℕ → Option Answer) (root : List ℕ) (left : ℕ) (inner : Inner) (a : Around) (e : Entry) (w v : Stock) (t : Trees)
        (text : List Atom) (names : Names) (k : Kind) → e.head.form ≡ Obj → text_expanded a.zero a.arguments e.head.text w.names ≡ given text names →
        named_by names text ≡ named.Kind k → box_grown lib root left inner a e w ≡ gives t v → IsSingle t }
{}

/// Counts stay those of a patch: with its wires told anew where the tree is the same, and as they are where the boxes differ only in what
/// they keep.
pub fn counts_stay()
    ensures wires { (n : Counts) (p q : Patch) → AreCounted n p → q.grove ≡ p.grove → q.rate ≡ p.rate → AreCounted (with_wires (wires_told q.web) n) q }
    ensures alike { (n : Counts) (p q : Patch) → AreCounted n p → AreAlike p q → q.grove.root ≡ p.grove.root → q.rate ≡ p.rate → AreCounted n q }
{}

/// A patch that has just grown is within the limits, so that `count_patch` counts it, whichever `$0` growth began with; and its own `$0` is
/// none above the greatest.
pub fn grown_patches_are_limited()
    ensures tree { (p : Patch) (names table : Names) (rate : Rate) (lib : ℕ → Option Answer) (file : List ℕ) (page : Page) (first : ℕ) →
        (grew : IsTree p names rate (grown lib file page (beginning table first))) → IsLimited rate grew.tree }
    ensures zero { (p : Patch) (names table : Names) (rate : Rate) (lib : ℕ → Option Answer) (file : List ℕ) (page : Page) (first : ℕ) →
        IsTree p names rate (grown lib file page (beginning table first)) → own_zero p ≤ 1000000000 }
{}
