//! Laws of the documents of running patches.
ghost use Rattle.std.specs.Prelude.{◌≤◌, ℕ};
ghost use Rattle.slab.specs.Slab.{get};
ghost use Rattle.pd_atom.specs.Names.{Names, IsTable};
ghost use Rattle.pd_canvas.specs.Proper.{IsProper, count_wires};
ghost use Rattle.pd_tree.specs.Trees.{Tree, weight, document_in};
ghost use Rattle.pd_grove.specs.Standing.{GroveStands};
ghost use Rattle.pd_grove.specs.States.{NodesSmall};
ghost use Rattle.pd_patch.specs.declared.patch.Patch.{Patch};
ghost use Rattle.pd_patch.specs.Document.{present_document};
ghost use Rattle.pd_wiring.specs.Changes.{CanRewire};
ghost use Rattle.pd_hearing.specs.Worlds.{states_of};
ghost use Rattle.pd_guards.specs.Worlds.{AreKept};
ghost use Rattle.pd_sized.specs.Kinds.{kinds_of, KeepsOfKind};
ghost use Rattle.pd_reload_law.specs.Reloading.{RunsAs};
ghost use Rattle.pd_reload_law.specs.Saving.{AreMade, AreSavable};
ghost use Rattle.pd_saved_law.specs.Fitting.{WiresFit};
ghost use Rattle.pd_contents_law.specs.Contents.{HaveContents, counts_of, AreKindsSettled};
ghost use Rattle.pd_proper_law.specs.Saves.{IsWritten, AllSaveWell};

/// As long as what each box keeps is of its kind, what a save writes of it is its own.
pub fn what_boxes_keep_is_theirs()
    ensures { (p : Patch) → KeepsOfKind (kinds_of p) (states_of p) → AreSavable (get p.grove.nodes) }
{}

/// In a patch in which the tree of a proper document stands the kinds of its message boxes have texts that stay settled.
pub fn message_boxes_begin_settled()
    ensures { (names : Names) (p : Patch) (t : Tree) → IsTable names → GroveStands p.grove t.sheet t.boxes → AreMade t.boxes → IsProper names (document_in t) →
        AreKindsSettled (IsWritten p.grove) names (kinds_of p) }
{}

/// Contents that are in order, with texts that stay settled and as many values as at first, can be written and read again.
pub fn contents_save_well()
    ensures { (names : Names) (now : ℕ) (p : Patch) → IsTable names → AreKept names now (states_of p) →
        HaveContents (IsWritten p.grove) (counts_of (kinds_of p)) names (states_of p) → AllSaveWell names p.grove }
{}

/// The document of a running patch is proper, where that from which its tree grew is, and what its boxes keep can be written: with wires that
/// fit, of which there are no more than a document may have.
pub fn saved_documents_are_proper_now()
    ensures { (names : Names) (p : Patch) (t : Tree) → IsProper names (document_in t) → RunsAs p.grove t → AreMade t.boxes → weight t.boxes ≤ 16384 →
        NodesSmall (get p.grove.nodes) → AllSaveWell names p.grove → CanRewire p → WiresFit p → count_wires (present_document p) ≤ 65536 →
        IsProper names (present_document p) }
{
    pd_reload_law::documents_tell_trees();
}
