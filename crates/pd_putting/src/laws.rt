//! A law over what an edit comes to where it is told what the folder holds.

ghost use Rattle.std.specs.Prelude.{ℕ, List, Option};
ghost use Rattle.pd_io.specs.declared.files.FileRow.{FileRow};
ghost use Rattle.pd_canvas.specs.declared.edits.Edit.{Edit};
ghost use Rattle.pd_wiring.specs.declared.refusals.EditRefusal.{EditRefusal};
ghost use Rattle.pd_patch.specs.declared.patch.Patch.{Patch};
ghost use Rattle.pd_gather.specs.Gather.{Known};
ghost use Rattle.pd_adding.specs.declared.counts.Counts.{Counts};
ghost use Rattle.pd_putting.specs.declared.adding.NewBox.{NewBox};
ghost use Rattle.pd_putting.specs.Adds.{AddsBox, AddsBoxBy, IsNotPut, IsNotPutBy, IsShortOfRoom, IsShortOfRoomBy};

/// What an edit comes to by what the folder holds, it comes to where that is untold.
pub fn folders_may_be_untold()
    ensures adds { (holds : Option (List FileRow)) (old new : Patch) (n : Counts) (name path : List ℕ) (now : ℕ) (e : Edit) (k after : Known) (b : NewBox) →
        AddsBoxBy holds old new n name path now e k after b → AddsBox old new n name path now e k after b }
    ensures not_put { (holds : Option (List FileRow)) (p : Patch) (n : Counts) (name path : List ℕ) (e : Edit) (k : Known) (why : EditRefusal) →
        IsNotPutBy holds p n name path e k why → IsNotPut p n name path e k why }
    ensures short { (holds : Option (List FileRow)) (old new : Patch) (n : Counts) (name path : List ℕ) (e : Edit) (k : Known) →
        IsShortOfRoomBy holds old new n name path e k → IsShortOfRoom old new n name path e k }
{}
