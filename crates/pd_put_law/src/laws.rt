//! Laws over a running patch into which an edit put a box, and its tree.

ghost use Rattle.std.specs.Prelude.{◌≡◌, ◌≤◌, ◌+◌, ℕ, List, Option};
ghost use Rattle.pd_atom.specs.Names.{Names, Extends, IsTable};
ghost use Rattle.pd_canvas.specs.declared.edits.Edit.{Edit};
ghost use Rattle.pd_canvas.specs.Proper.{IsProper};
ghost use Rattle.pd_kind.specs.declared.states.State.{State};
ghost use Rattle.pd_library.specs.Files.{answer_in};
ghost use Rattle.pd_tree.specs.Trees.{Tree, weight, document_in};
ghost use Rattle.pd_web.specs.Changes.{wires_told};
ghost use Rattle.pd_patch.specs.declared.patch.Patch.{Patch};
ghost use Rattle.pd_patch.specs.Sounds.{sound_of};
ghost use Rattle.pd_fit.specs.Fitting.{wires_inside};
ghost use Rattle.pd_gather.specs.Gather.{Known};
ghost use Rattle.pd_hearing.specs.Worlds.{states_of};
ghost use Rattle.pd_boxes.specs.Put.{CanPut, HasOwners};
ghost use Rattle.pd_boxes.specs.Room.{SameButRoom};
ghost use Rattle.pd_reload_law.specs.Reloading.{RunsAs};
ghost use Rattle.pd_saved_law.specs.Fitting.{WiresFit};
ghost use Rattle.pd_inside_law.specs.Inside.{HoldsWires};
ghost use Rattle.pd_contents_law.specs.Contents.{HaveContents, counts_of};
ghost use Rattle.pd_proper_law.specs.Saves.{kinds_of, IsWritten};
ghost use Rattle.pd_putting_law.specs.Again.{StandsAgain};
ghost use Rattle.pd_adding.specs.declared.counts.Counts.{Counts};
ghost use Rattle.pd_putting.specs.declared.adding.NewBox.{NewBox};
ghost use Rattle.pd_putting.specs.Adds.{next_number, AddsBox, AddsBoxAt};
ghost use Rattle.pd_putting_law.specs.Puts.{put_at, put_before};

/// Where room was set aside for boxes the same tree stands, its wires hold and fit, and there are as many; each name has its owners, and what a save
/// writes of boxes stays.
pub fn room_keeps_trees()
    ensures runs { (p q : Patch) (t : Tree) → SameButRoom p q → RunsAs p.grove t → RunsAs q.grove t }
    ensures holds { (p q : Patch) (t : Tree) → SameButRoom p q → HoldsWires p t → HoldsWires q t }
    ensures fit { (p q : Patch) → SameButRoom p q → WiresFit p → WiresFit q }
    ensures wires { (p q : Patch) → SameButRoom p q → wires_told q.web ≡ wires_told p.web }
    ensures owners { (p q : Patch) (names : Names) (file : List ℕ) → SameButRoom p q → HasOwners p names file → HasOwners q names file }
    ensures contents { (p q : Patch) (names : Names) (states : ℕ → Option State) → SameButRoom p q →
        HaveContents (IsWritten p.grove) (counts_of (kinds_of p)) names states → HaveContents (IsWritten q.grove) (counts_of (kinds_of q)) names states }
{}

/// Where an edit put a box, the table of names goes on, and the tree that stood stands with the box last in its canvas. It grows again from its own document, its wires hold and
/// fit, and as many came as fit in the box; each name has its owners.
pub fn boxes_come_into_trees()
    ensures names { (old new : Patch) (n : Counts) (name path : List ℕ) (now : ℕ) (e : Edit) (k after : Known) (b : NewBox) →
        AddsBox old new n name path now e k after b → Extends k.names after.names }
    ensures runs { (old new : Patch) (n : Counts) (name path : List ℕ) (now : ℕ) (e : Edit) (k after : Known) (b : NewBox) (t : Tree) →
        (adds : AddsBox old new n name path now e k after b) → CanPut old → RunsAs old.grove t → StandsAgain (answer_in k.files) name k.names t →
        RunsAs new.grove (put_at path adds.added.boxes t) }
    ensures again { (old new : Patch) (n : Counts) (name path : List ℕ) (now : ℕ) (e : Edit) (k after : Known) (b : NewBox) (t : Tree) →
        (adds : AddsBox old new n name path now e k after b) → CanPut old → RunsAs old.grove t → StandsAgain (answer_in k.files) name k.names t →
        StandsAgain (answer_in after.files) name after.names (put_at path adds.added.boxes t) }
    ensures holds { (old new : Patch) (n : Counts) (name path : List ℕ) (now : ℕ) (e : Edit) (k after : Known) (b : NewBox) (t : Tree) →
        (adds : AddsBox old new n name path now e k after b) → CanPut old → RunsAs old.grove t → HoldsWires old t →
        HoldsWires new (put_at path adds.added.boxes t) }
    ensures fit { (old new : Patch) (n : Counts) (name path : List ℕ) (now : ℕ) (e : Edit) (k after : Known) (b : NewBox) →
        AddsBox old new n name path now e k after b → CanPut old → WiresFit old → WiresFit new }
    ensures wires { (old new : Patch) (n : Counts) (name path : List ℕ) (now : ℕ) (e : Edit) (k after : Known) (b : NewBox) →
        (adds : AddsBox old new n name path now e k after b) → CanPut old → wires_told new.web ≡ wires_told old.web + wires_inside adds.added.boxes }
    ensures owners { (old new : Patch) (n : Counts) (name path : List ℕ) (now : ℕ) (e : Edit) (k after : Known) (b : NewBox) (t : Tree) →
        AddsBox old new n name path now e k after b → RunsAs old.grove t → StandsAgain (answer_in k.files) name k.names t →
        HasOwners old k.names name → HasOwners new after.names name }
{}

/// The counts with the box are those of the tree with it.
pub fn counts_follow_boxes()
    ensures boxes { (old new : Patch) (n : Counts) (name path : List ℕ) (now : ℕ) (e : Edit) (k after : Known) (b : NewBox) (t : Tree) →
        (adds : AddsBox old new n name path now e k after b) → CanPut old → RunsAs old.grove t → n.boxes ≡ weight t.boxes →
        b.counts.boxes ≡ weight (put_at path adds.added.boxes t).boxes }
    ensures wires { (old new : Patch) (n : Counts) (name path : List ℕ) (now : ℕ) (e : Edit) (k after : Known) (b : NewBox) →
        (adds : AddsBox old new n name path now e k after b) → b.counts.wires ≡ n.wires + wires_inside adds.added.boxes }
    ensures sound { (old new : Patch) (n : Counts) (name path : List ℕ) (now : ℕ) (e : Edit) (k after : Known) (b : NewBox) (t : Tree) →
        (adds : AddsBox old new n name path now e k after b) → CanPut old → RunsAs old.grove t → n.sound ≡ sound_of old.rate t.boxes →
        b.counts.sound ≡ sound_of old.rate (put_at path adds.added.boxes t).boxes }
{}

/// The document of the tree with the box is proper where that of the tree was, within the limits of a patch, in each table that goes on; and what a
/// save writes of boxes stays so with the box.
pub fn boxes_can_be_saved()
    ensures proper { (old new : Patch) (n : Counts) (name path : List ℕ) (now : ℕ) (e : Edit) (k after : Known) (b : NewBox) (t : Tree) (later : Names) →
        (adds : AddsBox old new n name path now e k after b) → CanPut old → RunsAs old.grove t → StandsAgain (answer_in k.files) name k.names t →
        Extends after.names later → IsTable later → weight (put_at path adds.added.boxes t).boxes ≤ 16384 →
        IsProper later (document_in t) → IsProper later (document_in (put_at path adds.added.boxes t)) }
    ensures contents { (old new : Patch) (n : Counts) (name path : List ℕ) (now : ℕ) (e : Edit) (k after : Known) (b : NewBox) (t : Tree) →
        AddsBox old new n name path now e k after b → CanPut old → RunsAs old.grove t → StandsAgain (answer_in k.files) name k.names t →
        HaveContents (IsWritten old.grove) (counts_of (kinds_of old)) k.names (states_of old) →
        HaveContents (IsWritten new.grove) (counts_of (kinds_of new)) after.names (states_of new) }
{}

/// Where a box that an edit names came at any number of its canvas, the table of names goes on, and the tree that stood stands with the box there, before the one that had
/// its number. It grows again from its own document, its wires hold and fit, and as many came as fit in the box; each name has its owners. A box that an edit put last is such a box.
pub fn boxes_come_to_places()
    ensures last { (old new : Patch) (n : Counts) (name path : List ℕ) (now : ℕ) (e : Edit) (k after : Known) (b : NewBox) →
        (adds : AddsBox old new n name path now e k after b) → AddsBoxAt old new (next_number old adds.added) n name path now e k after b }
    ensures names { (old new : Patch) (number : ℕ) (n : Counts) (name path : List ℕ) (now : ℕ) (e : Edit) (k after : Known) (b : NewBox) →
        AddsBoxAt old new number n name path now e k after b → Extends k.names after.names }
    ensures runs { (old new : Patch) (number : ℕ) (n : Counts) (name path : List ℕ) (now : ℕ) (e : Edit) (k after : Known) (b : NewBox) (t : Tree) →
        (adds : AddsBoxAt old new number n name path now e k after b) → CanPut old → RunsAs old.grove t → StandsAgain (answer_in k.files) name k.names t →
        RunsAs new.grove (put_before path number adds.added.boxes t) }
    ensures again { (old new : Patch) (number : ℕ) (n : Counts) (name path : List ℕ) (now : ℕ) (e : Edit) (k after : Known) (b : NewBox) (t : Tree) →
        (adds : AddsBoxAt old new number n name path now e k after b) → CanPut old → RunsAs old.grove t → StandsAgain (answer_in k.files) name k.names t →
        StandsAgain (answer_in after.files) name after.names (put_before path number adds.added.boxes t) }
    ensures holds { (old new : Patch) (number : ℕ) (n : Counts) (name path : List ℕ) (now : ℕ) (e : Edit) (k after : Known) (b : NewBox) (t : Tree) →
        (adds : AddsBoxAt old new number n name path now e k after b) → CanPut old → RunsAs old.grove t → HoldsWires old t →
        HoldsWires new (put_before path number adds.added.boxes t) }
    ensures fit { (old new : Patch) (number : ℕ) (n : Counts) (name path : List ℕ) (now : ℕ) (e : Edit) (k after : Known) (b : NewBox) →
        AddsBoxAt old new number n name path now e k after b → CanPut old → WiresFit old → WiresFit new }
    ensures wires { (old new : Patch) (number : ℕ) (n : Counts) (name path : List ℕ) (now : ℕ) (e : Edit) (k after : Known) (b : NewBox) →
        (adds : AddsBoxAt old new number n name path now e k after b) → CanPut old → wires_told new.web ≡ wires_told old.web + wires_inside adds.added.boxes }
    ensures owners { (old new : Patch) (number : ℕ) (n : Counts) (name path : List ℕ) (now : ℕ) (e : Edit) (k after : Known) (b : NewBox) (t : Tree) →
        AddsBoxAt old new number n name path now e k after b → RunsAs old.grove t → StandsAgain (answer_in k.files) name k.names t →
        HasOwners old k.names name → HasOwners new after.names name }
{}

/// The counts with such a box are those of the tree with it.
pub fn counts_follow_places()
    ensures boxes { (old new : Patch) (number : ℕ) (n : Counts) (name path : List ℕ) (now : ℕ) (e : Edit) (k after : Known) (b : NewBox) (t : Tree) →
        (adds : AddsBoxAt old new number n name path now e k after b) → CanPut old → RunsAs old.grove t → n.boxes ≡ weight t.boxes →
        b.counts.boxes ≡ weight (put_before path number adds.added.boxes t).boxes }
    ensures wires { (old new : Patch) (number : ℕ) (n : Counts) (name path : List ℕ) (now : ℕ) (e : Edit) (k after : Known) (b : NewBox) →
        (adds : AddsBoxAt old new number n name path now e k after b) → b.counts.wires ≡ n.wires + wires_inside adds.added.boxes }
    ensures sound { (old new : Patch) (number : ℕ) (n : Counts) (name path : List ℕ) (now : ℕ) (e : Edit) (k after : Known) (b : NewBox) (t : Tree) →
        (adds : AddsBoxAt old new number n name path now e k after b) → CanPut old → RunsAs old.grove t → n.sound ≡ sound_of old.rate t.boxes →
        b.counts.sound ≡ sound_of old.rate (put_before path number adds.added.boxes t).boxes }
{}

/// The document of the tree with such a box is proper where that of the tree was, and what a save writes of boxes stays so with it.
pub fn places_can_be_saved()
    ensures proper { (old new : Patch) (number : ℕ) (n : Counts) (name path : List ℕ) (now : ℕ) (e : Edit) (k after : Known) (b : NewBox) (t : Tree) (later : Names) →
        (adds : AddsBoxAt old new number n name path now e k after b) → CanPut old → RunsAs old.grove t → StandsAgain (answer_in k.files) name k.names t →
        Extends after.names later → IsTable later → weight (put_before path number adds.added.boxes t).boxes ≤ 16384 →
        IsProper later (document_in t) → IsProper later (document_in (put_before path number adds.added.boxes t)) }
    ensures contents { (old new : Patch) (number : ℕ) (n : Counts) (name path : List ℕ) (now : ℕ) (e : Edit) (k after : Known) (b : NewBox) (t : Tree) →
        AddsBoxAt old new number n name path now e k after b → CanPut old → RunsAs old.grove t → StandsAgain (answer_in k.files) name k.names t →
        HaveContents (IsWritten old.grove) (counts_of (kinds_of old)) k.names (states_of old) →
        HaveContents (IsWritten new.grove) (counts_of (kinds_of new)) after.names (states_of new) }
{}
