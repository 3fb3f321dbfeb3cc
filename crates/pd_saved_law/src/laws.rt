//! Laws over the documents that running patches save.

ghost use Rattle.std.specs.Prelude.{◌≡◌, ◌≤◌, ◌+◌, ℕ, List, Some, Ok};
ghost use Rattle.pd_atom.specs.Names.{Names, Extends, IsTable};
ghost use Rattle.pd_clock.specs.declared.times.Rate.{Rate};
ghost use Rattle.pd_canvas.specs.Edits.{edited};
ghost use Rattle.pd_canvas.specs.Pages.{Page};
ghost use Rattle.pd_canvas.specs.Paths.{edit_at};
ghost use Rattle.pd_canvas.specs.Proper.{Brings, IsProper, IsWithinLimits};
ghost use Rattle.pd_canvas.specs.declared.edits.Edit.{Edit};
ghost use Rattle.pd_doc.specs.Reading.{document_of};
ghost use Rattle.pd_doc.specs.Writing.{text_of};
ghost use Rattle.pd_library.specs.Files.{answer_in};
ghost use Rattle.pd_library.specs.declared.answers.Answer.{Answer};
ghost use Rattle.pd_tree.specs.Trees.{Tree};
ghost use Rattle.pd_growth.specs.Growth.{grown};
ghost use Rattle.pd_growth.specs.Steps.{beginning, gives, Step};
ghost use Rattle.pd_grove.specs.Standing.{GroveStands};
ghost use Rattle.pd_grove.specs.OwnPaths.{sub_reached};
ghost use Rattle.pd_grove.specs.Telling.{reached};
ghost use Rattle.pd_grove.specs.TextOrder.{deep};
ghost use Rattle.pd_web.specs.Canvases.{keys_at};
ghost use Rattle.pd_gather.specs.Gather.{AreProper};
ghost use Rattle.pd_patch.specs.Document.{present_document};
ghost use Rattle.pd_patch.specs.Grown.{IsTree, IsFresh};
ghost use Rattle.pd_patch.specs.Numbers.{AreUnder};
ghost use Rattle.pd_patch.specs.Wired.{IsWired};
ghost use Rattle.pd_patch.specs.declared.patch.Patch.{Patch};
ghost use Rattle.pd_regrowth_law.specs.Regrowth.{stock};
ghost use Rattle.pd_regrowth_law.specs.Suits.{AnswersAlike};
ghost use Rattle.pd_reload_law.specs.Reloading.{RunsAs};
ghost use Rattle.pd_reload_law.specs.Saving.{tree_now, AreMade};
ghost use Rattle.pd_reload_law.specs.Wires.{StandOnce};
ghost use Rattle.pd_saved_law.specs.Fitting.{WiresFit, HaveSameWires};
ghost use Rattle.pd_wiring.specs.Changes.{CanRewire, SameButRoom};
ghost use Rattle.pd_wiring.specs.Plans.{IsRewired};

/// An edit of wires that is made changes the document of the patch as the same edit of a document does, in the canvas at its path and nowhere
/// else.
pub fn edits_edit_the_document()
    ensures { (p q : Patch) (t : Tree) (path : List ℕ) (e : Edit) (canvas : ℕ) → StandOnce p.web → CanRewire p →
        GroveStands p.grove t.sheet t.boxes → deep t.boxes ≤ 256 → IsRewired p q path e canvas →
        present_document q ≡ edit_at path (edited e) (present_document p) }
{}

/// A patch that has grown from a proper document saves a document from which, with the same `$0` numbers, its tree as it stands grows again:
/// whatever wires there are, and whatever its boxes keep by now of what is theirs. Where that document is proper, its text reads as it in the
/// same table of names. So each patch that grows from the text stands as that tree and has its wires, and the table has no name more.
pub fn saved_patches_open_again()
    ensures grown { (files files2 : List (ℕ × Answer)) (name : List ℕ) (d : Page) (before names names2 : Names) (n : ℕ) (rate : Rate) (first p : Patch) →
        IsProper before d → AreProper before files → (grew : IsTree first names rate (grown (answer_in files) name d (beginning before n))) →
        AnswersAlike (answer_in files) (answer_in files2) → RunsAs p.grove grew.tree → Extends names names2 →
        grown (answer_in files2) name (present_document p) (beginning names2 n) ≡
        gives (tree_now p.grove p.web p.numbers.items grew.tree) (stock names2 grew.given.after.zeros grew.given.after.room) }
    ensures opened { (files files2 : List (ℕ × Answer)) (name : List ℕ) (d page : Page) (before names names2 names3 names4 : Names) (n : ℕ) (rate : Rate)
        (first p q : Patch) → IsProper before d → AreProper before files →
        (grew : IsTree first names rate (grown (answer_in files) name d (beginning before n))) →
        AnswersAlike (answer_in files) (answer_in files2) → RunsAs p.grove grew.tree → Extends names names2 →
        IsTable names2 → IsProper names2 (present_document p) → document_of names2 (text_of names2 (present_document p)) ≡ Ok (page, names3) →
        IsTree q names4 rate (grown (answer_in files2) name page (beginning names3 n)) →
        let now = tree_now p.grove p.web p.numbers.items grew.tree in
        GroveStands q.grove now.sheet now.boxes × IsWired q.grove q.web now × (names4 ≡ names2) }
{
    pd_doc::written_read();
}

/// In a patch that has just grown all wires fit, and so they do after each edit of wires that is made, and where room was set aside.
pub fn wires_go_on_fitting()
    ensures fresh { (p : Patch) (names : Names) (file : List ℕ) (rate : Rate) → IsFresh p names file rate → WiresFit p }
    ensures edited { (p q : Patch) (path : List ℕ) (e : Edit) (canvas : ℕ) → CanRewire p → WiresFit p →
        IsRewired p q path e canvas → WiresFit q }
    ensures room { (p q : Patch) → SameButRoom p q → WiresFit p → WiresFit q }
{}

/// A patch that has grown to the tree of another one as it stands has in each canvas of the document the same ports and the same wires, at each
/// outlet in the same order.
pub fn opened_patches_have_the_wires()
    ensures { (p q : Patch) (t : Tree) (path : List ℕ) (c d : ℕ) → CanRewire p → WiresFit p →
        ((x : ℕ) → AreUnder q.numbers.items (keys_at q.grove x)) → GroveStands p.grove t.sheet t.boxes → AreMade t.boxes →
        IsWired q.grove q.web (tree_now p.grove p.web p.numbers.items t) → sub_reached p.grove (Some p.grove.root) path ≡ Some c →
        reached q.grove (Some q.grove.root) path ≡ Some d → HaveSameWires p c q d }
{}

/// A document that is proper stays so under an edit of wires that brings a wire whose numbers are small, as long as it keeps the limits.
pub fn saved_documents_stay_proper()
    ensures { (names : Names) (p q : Patch) (t : Tree) (path : List ℕ) (e : Edit) (canvas : ℕ) → StandOnce p.web → CanRewire p →
        GroveStands p.grove t.sheet t.boxes → deep t.boxes ≤ 256 → IsRewired p q path e canvas → IsProper names (present_document p) →
        Brings names e → IsWithinLimits (present_document q) → IsProper names (present_document q) }
{
    pd_canvas::edits_keep_proper();
}

/// In a patch that has just grown its tree stands, and what its boxes keep is theirs; an edit of wires leaves both.
pub fn patches_run_on()
    ensures first { (p : Patch) (names : Names) (file : List ℕ) (rate : Rate) (s : Step Tree) → (grew : IsTree p names rate s) →
        IsFresh p names file rate → RunsAs p.grove grew.tree }
    ensures edited { (p q : Patch) (t : Tree) (path : List ℕ) (e : Edit) (canvas : ℕ) → RunsAs p.grove t →
        IsRewired p q path e canvas → RunsAs q.grove t }
{}
