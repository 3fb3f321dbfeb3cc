//! A law over what an edit comes to where it is told what the folder holds.

ghost use Rattle.std.specs.Prelude.{ℕ, List, Option};
ghost use Rattle.pd_io.specs.declared.files.FileRow.{FileRow};
ghost use Rattle.pd_atom.specs.declared.Atom.{Atom};
ghost use Rattle.pd_gather.specs.Gather.{Known};
ghost use Rattle.pd_patch.specs.declared.patch.Patch.{Patch};
ghost use Rattle.pd_wiring.specs.declared.refusals.EditRefusal.{EditRefusal};
ghost use Rattle.pd_adding.specs.declared.counts.Counts.{Counts};
ghost use Rattle.pd_retyping.specs.declared.retyping.RetypedBox.{RetypedBox};
ghost use Rattle.pd_retyping.specs.Retypes.{IsRefused, IsRefusedBy, IsShortOfRoom, IsShortOfRoomBy, RetypesBox, RetypesBoxBy};

/// What an edit comes to by what the folder holds, it comes to where that is untold.
pub fn folders_may_be_untold()
    ensures retypes { (holds : Option (List FileRow)) (old new : Patch) (n : Counts) (name path : List ℕ) (number : ℕ) (text : List Atom) (now : ℕ) (k after : Known)
        (steps steps' : ℕ) (b : RetypedBox) → RetypesBoxBy holds old new n name path number text now k after steps steps' b →
        RetypesBox old new n name path number text now k after steps steps' b }
    ensures refused { (holds : Option (List FileRow)) (p : Patch) (n : Counts) (name path : List ℕ) (number : ℕ) (text : List Atom) (k : Known) (why : EditRefusal) →
        IsRefusedBy holds p n name path number text k why → IsRefused p n name path number text k why }
    ensures short { (holds : Option (List FileRow)) (old new : Patch) (n : Counts) (name path : List ℕ) (number : ℕ) (text : List Atom) (k : Known) →
        IsShortOfRoomBy holds old new n name path number text k → IsShortOfRoom old new n name path number text k }
{}
