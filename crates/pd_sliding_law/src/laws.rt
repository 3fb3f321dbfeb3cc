//! Laws over the document of a patch in which a port box moved.

ghost use Rattle.std.specs.Prelude.{◌≡◌, ℕ, ℤ, List, slice_get, Some};
ghost use Rattle.pd_canvas.specs.declared.edits.Edit.TheVariants as edit;
ghost use Rattle.pd_canvas.specs.Edits.{edited};
ghost use Rattle.pd_canvas.specs.Paths.{edit_at};
ghost use Rattle.pd_grove.specs.declared.ports.Side.{Side};
ghost use Rattle.pd_grove.specs.OwnPaths.{sub_reached};
ghost use Rattle.pd_web.specs.Canvases.{keys_at};
ghost use Rattle.pd_present.specs.Presents.{present_page};
ghost use Rattle.pd_patch.specs.declared.patch.Patch.{Patch};
ghost use Rattle.pd_following_law.specs.Raised.{StandsAt};
ghost use Rattle.pd_sliding.specs.Sliding.{CanSlide, IsSlid};
ghost use Rattle.pd_sliding_law.specs.Slid.{with_slid};

/// Where a port box moved, the document of the patch is that of the patch with the box at its place, with the wires at the box around at the
/// ports where they are then; it is that very document where the port kept its number. In a canvas of the document the box's element stands at
/// its place, and nothing else changes.
pub fn documents_follow_slides()
    ensures wires { (p q : Patch) (key holder : ℕ) (side : Side) (x y : ℤ) (from to : ℕ) (path : List ℕ) (n : ℕ) →
        CanSlide p key holder side from → IsSlid p q key holder side x y from to → StandsAt q.grove path n holder →
        present_page q.grove q.web q.numbers.items ≡
        edit_at path (with_slid side n from to) (present_page q.grove p.web p.numbers.items) }
    ensures stays { (p q : Patch) (key holder : ℕ) (side : Side) (x y : ℤ) (from to : ℕ) →
        IsSlid p q key holder side x y from to → from ≡ to →
        present_page q.grove q.web q.numbers.items ≡ present_page q.grove p.web p.numbers.items }
    ensures moved { (p q : Patch) (key holder : ℕ) (side : Side) (x y : ℤ) (from to : ℕ) (inner : List ℕ) (canvas number : ℕ) →
        CanSlide p key holder side from → IsSlid p q key holder side x y from to →
        sub_reached p.grove (Some p.grove.root) inner ≡ Some canvas → slice_get (keys_at p.grove canvas) number ≡ Some key →
        present_page q.grove p.web p.numbers.items ≡
        edit_at inner (edited (edit.Move number x y)) (present_page p.grove p.web p.numbers.items) }
    ensures both { (p q : Patch) (key holder : ℕ) (side : Side) (x y : ℤ) (from to : ℕ) (path inner : List ℕ) (n canvas number : ℕ) →
        CanSlide p key holder side from → IsSlid p q key holder side x y from to → StandsAt q.grove path n holder →
        sub_reached p.grove (Some p.grove.root) inner ≡ Some canvas → slice_get (keys_at p.grove canvas) number ≡ Some key →
        present_page q.grove q.web q.numbers.items ≡
        edit_at path (with_slid side n from to) (edit_at inner (edited (edit.Move number x y)) (present_page p.grove p.web p.numbers.items)) }
{}
