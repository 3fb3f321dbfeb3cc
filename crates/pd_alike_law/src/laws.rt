//! Laws over a running patch and the patch that opens from what it saves.

ghost use Rattle.std.specs.Prelude.{◌≡◌, ℕ, List, Option, Some, Ok};
ghost use Rattle.pd_atom.specs.Names.{Names, Extends, IsTable};
ghost use Rattle.pd_clock.specs.declared.times.Rate.{Rate};
ghost use Rattle.pd_canvas.specs.declared.edits.Edit.{Edit};
ghost use Rattle.pd_canvas.specs.Pages.{Page};
ghost use Rattle.pd_canvas.specs.Proper.{IsProper};
ghost use Rattle.pd_doc.specs.Reading.{document_of};
ghost use Rattle.pd_doc.specs.Writing.{text_of};
ghost use Rattle.pd_gather.specs.Gather.{AreProper};
ghost use Rattle.pd_library.specs.Files.{answer_in};
ghost use Rattle.pd_library.specs.declared.answers.Answer.{Answer};
ghost use Rattle.pd_growth.specs.Growth.{grown};
ghost use Rattle.pd_growth.specs.Steps.{Stock, beginning, gives};
ghost use Rattle.pd_regrowth_law.specs.Suits.{IsLibraryOf, TextsOf, AnswersAlike};
ghost use Rattle.pd_name.specs.declared.Class.{Class};
ghost use Rattle.pd_tree.specs.Trees.{Tree};
ghost use Rattle.pd_grove.specs.OwnPaths.{sub_reached};
ghost use Rattle.pd_grove.specs.Telling.{reached};
ghost use Rattle.pd_web.specs.Changes.{Meet};
ghost use Rattle.pd_patch.specs.declared.patch.Patch.{Patch};
ghost use Rattle.pd_patch.specs.Built.{IsBuilt};
ghost use Rattle.pd_patch.specs.Document.{present_document};
ghost use Rattle.pd_patch.specs.Grown.{IsTree, IsFresh};
ghost use Rattle.pd_wiring.specs.Plans.{IsRewired};
ghost use Rattle.pd_reload_law.specs.Reloading.{RunsAs};
ghost use Rattle.pd_reload_law.specs.Wires.{StandOnce};
ghost use Rattle.pd_saved_law.specs.Fitting.{WiresFit};
ghost use Rattle.pd_alike_law.specs.Alike.{HasOpened, HaveSameOrder, OwnAlike, HaveSameOwners};
ghost use Rattle.pd_alike_law.specs.Feeds.{FedOnce, FeedsInOrder, HaveSameFeeds};

/// In each canvas of the document the boxes of the same numbers run in the same order.
pub fn opened_patches_run_in_order()
    ensures { (p q : Patch) (t : Tree) (path : List ℕ) (c d : ℕ) → HasOpened p t q → sub_reached p.grove (Some p.grove.root) path ≡ Some c →
        reached q.grove (Some q.grove.root) path ≡ Some d → HaveSameOrder p c q d }
{}

/// Each name has in each class the same owners, by their places in text order.
pub fn opened_patches_own_alike()
    ensures { (p q : Patch) (t : Tree) (names more : Names) (file : List ℕ) (rate rate2 : Rate) (class : Class) (name : ℕ) → HasOpened p t q →
        IsBuilt p names file rate → IsBuilt q more file rate2 → OwnAlike names more file t.boxes → HaveSameOwners p q class name }
{}

/// What grows from a document of the table owns the same names in each table that goes on.
pub fn what_grows_owns_alike()
    ensures { (lib : ℕ → Option Answer) (file : List ℕ) (page : Page) (before after : Stock) (t : Tree) (more : Names) →
        IsLibraryOf before.names lib → TextsOf before.names page.boxes → grown lib file page before ≡ gives t after →
        Extends after.names more → OwnAlike after.names more file t.boxes }
{}

/// In each canvas of the document the same wires come to each inlet, in the same order.
pub fn opened_patches_are_fed_alike()
    ensures { (p q : Patch) (t : Tree) (path : List ℕ) (c d : ℕ) → HasOpened p t q → StandOnce p.web → FedOnce p.web → Meet p.web →
        FeedsInOrder p c → sub_reached p.grove (Some p.grove.root) path ≡ Some c → reached q.grove (Some q.grove.root) path ≡ Some d → HaveSameFeeds p c q d }
{}

/// In a patch that has just grown each wire stands at both of its ports. Where it grew from a proper document, the feeds of each canvas of the
/// document are in order.
pub fn feeds_begin_in_order()
    ensures meet { (p : Patch) (names : Names) (file : List ℕ) (rate : Rate) → IsFresh p names file rate → Meet p.web }
    ensures order { (files : List (ℕ × Answer)) (name : List ℕ) (d : Page) (before names : Names) (n : ℕ) (rate : Rate) (p : Patch) (path : List ℕ)
        (c : ℕ) → IsProper before d → IsTree p names rate (grown (answer_in files) name d (beginning before n)) → IsFresh p names name rate →
        sub_reached p.grove (Some p.grove.root) path ≡ Some c → FeedsInOrder p c }
{}

/// The patch that grows from the text that a running patch saves, under the same file name, in the same table and with the same `$0` numbers: it
/// has grown to the tree of that patch as it stands, and each name has the same owners.
pub fn saved_patches_open_alike()
    ensures opened { (files files2 : List (ℕ × Answer)) (name : List ℕ) (d page : Page) (before names names2 names3 names4 : Names) (n : ℕ) (rate : Rate)
        (first p q : Patch) → IsProper before d → AreProper before files →
        (grew : IsTree first names rate (grown (answer_in files) name d (beginning before n))) →
        AnswersAlike (answer_in files) (answer_in files2) → RunsAs p.grove grew.tree → Extends names names2 →
        IsTable names2 → IsProper names2 (present_document p) → document_of names2 (text_of names2 (present_document p)) ≡ Ok (page, names3) →
        IsTree q names4 rate (grown (answer_in files2) name page (beginning names3 n)) →
        IsBuilt p names name rate → WiresFit p → IsFresh q names4 name rate → HasOpened p grew.tree q }
    ensures owners { (files files2 : List (ℕ × Answer)) (name : List ℕ) (d page : Page) (before names names2 names3 names4 : Names) (n : ℕ) (rate : Rate)
        (first p q : Patch) (class : Class) (symbol : ℕ) → IsProper before d → AreProper before files →
        (grew : IsTree first names rate (grown (answer_in files) name d (beginning before n))) →
        AnswersAlike (answer_in files) (answer_in files2) → RunsAs p.grove grew.tree → Extends names names2 →
        IsTable names2 → IsProper names2 (present_document p) → document_of names2 (text_of names2 (present_document p)) ≡ Ok (page, names3) →
        IsTree q names4 rate (grown (answer_in files2) name page (beginning names3 n)) →
        IsBuilt p names name rate → WiresFit p → IsFresh q names4 name rate → HaveSameOwners p q class symbol }
{
    pd_saved_law::saved_patches_open_again();
}

/// An edit of wires leaves each wire once in its fan-out and once among its feeds, and the feeds of each canvas in their order.
pub fn edits_keep_feeds()
    ensures fans { (p q : Patch) (path : List ℕ) (e : Edit) (canvas : ℕ) → IsRewired p q path e canvas → StandOnce p.web → StandOnce q.web }
    ensures feeds { (p q : Patch) (path : List ℕ) (e : Edit) (canvas : ℕ) → IsRewired p q path e canvas → FedOnce p.web → FedOnce q.web }
    ensures meet { (p q : Patch) (path : List ℕ) (e : Edit) (canvas : ℕ) → IsRewired p q path e canvas → Meet p.web → Meet q.web }
    ensures order { (p q : Patch) (path : List ℕ) (e : Edit) (canvas c : ℕ) → IsRewired p q path e canvas → FeedsInOrder p c → FeedsInOrder q c }
{}
