//! Laws of parts of a run.

ghost use Rattle.std.specs.Prelude.{◌≡◌, ℕ, List, [], ◌++◌, Option};
ghost use Rattle.pd_io.specs.Rows.{KeptOrUntold};
ghost use Rattle.pd_io.specs.Stream.{IsPrefix};
ghost use Rattle.pd_io.specs.declared.files.FileRow.{FileRow};
ghost use Rattle.pd_stage.specs.Items.{Item, lines_of, samples_of, IsFront};
ghost use Rattle.pd_stage.specs.Choices.{Wanted};
ghost use Rattle.pd_stage.specs.Stages.{Stage, Taken, Passage, still, joined};
ghost use Rattle.pd_stage.specs.Lawful.{AreLawful, held_behind, GoByFolder};
ghost use Rattle.pd_stage.specs.Events.{Beginning, event, edit_taken, edit_event};
ghost use Rattle.pd_stage.specs.Times.{advanced, finished};
ghost use Rattle.pd_stage.specs.Sums.{AddsUp};

/// It makes no difference which of several parts are taken together, and where nothing happens nothing is added.
pub fn parts_join()
    ensures together { (p q r : Passage) → joined (joined p q) r ≡ joined p (joined q r) }
    ensures nothing { (p : Passage) → joined p (still p.stage) ≡ p }
{}

/// Of the first of some items each sink gets a first part of what it gets of all.
pub fn fronts_are_fronts()
    ensures lines { (part whole : List Item) → IsFront part whole → IsPrefix (lines_of part) (lines_of whole) }
    ensures samples { (part whole : List Item) → IsFront part whole → IsPrefix (samples_of part) (samples_of whole) }
{}

/// The samples on the way are added up to those before: no edit and no event has any, and each block has its own.
pub fn samples_are_added_up()
    ensures edits { (wanted : Wanted) (s : Stage) → AddsUp s (edit_taken wanted s) }
    ensures events { (s : Stage) (b : Beginning) → AddsUp s (event s b) }
    ensures edit_events { (wanted : Wanted) (s : Stage) → AddsUp s (edit_event wanted s) }
    ensures times { (to : ℕ) (s : Stage) → AddsUp s (advanced to s) }
    ensures ends { (s : Stage) → AddsUp s (finished s) }
{}

/// Edits that go by what a folder holds, and others that go by what is left in it, go by what it holds together, and what the others leave is left.
/// Edits that go by a folder are lawful, and no edits leave the folder as it is.
pub fn edits_join_by_folder()
    ensures together { (held between : Option (List FileRow)) (first others : List Taken) → KeptOrUntold between (held_behind first held) → GoByFolder held first → GoByFolder between others → GoByFolder held (first ++ others) }
    ensures left { (held between behind : Option (List FileRow)) (first others : List Taken) → KeptOrUntold between (held_behind first held) → KeptOrUntold behind (held_behind others between) → KeptOrUntold behind (held_behind (first ++ others) held) }
    ensures lawful { (held : Option (List FileRow)) (edits : List Taken) → GoByFolder held edits → AreLawful edits }
    ensures nothing { (held : Option (List FileRow)) → GoByFolder held [] × KeptOrUntold held (held_behind [] held) }
{}
