//! Laws over the document of a patch from which a port box went.

ghost use Rattle.std.specs.Prelude.{◌≡◌, ◌∷◌, ◌++◌, ℕ, List, [], Some};
ghost use Rattle.pd_atom.specs.Names.{Names};
ghost use Rattle.pd_canvas.specs.declared.edits.Edit.TheVariants as edit;
ghost use Rattle.pd_canvas.specs.Edits.{edited};
ghost use Rattle.pd_canvas.specs.Paths.{edit_at};
ghost use Rattle.pd_tree.specs.Trees.{Tree};
ghost use Rattle.pd_grove.specs.declared.ports.Side.{Side};
ghost use Rattle.pd_grove.specs.OwnPaths.{sub_reached};
ghost use Rattle.pd_grove.specs.Standing.{GroveStands};
ghost use Rattle.pd_present.specs.Presents.{present_page};
ghost use Rattle.pd_patch.specs.declared.patch.Patch.{Patch};
ghost use Rattle.pd_boxes.specs.declared.room.Place.{Place};
ghost use Rattle.pd_misfits.specs.Shedding.{IsWired};
ghost use Rattle.pd_taking_law.specs.Taking.{TakesBoxAt};
ghost use Rattle.pd_leaving.specs.Leaving.{CanTakePort, IsPortTaken};
ghost use Rattle.pd_leaving_law.specs.Lowered.{less_port, port_cut};

/// Where a port box went from a canvas of the document, in the box of the number in the canvas at the path, the document of the patch is the
/// one without the wires at that port, without the box, and with the wires at the further ports of the box around at the ports before. Of the
/// tree that box is gone, and nothing else.
pub fn documents_follow_lost_ports()
    ensures page { (p q : Patch) (table : Names) (place : Place) (key holder : ℕ) (side : Side) (port steps steps' : ℕ) (path : List ℕ) (n : ℕ) (t : Tree) →
        CanTakePort p place key holder side port → IsPortTaken p q table place key holder side port steps steps' → IsWired p.web →
        GroveStands p.grove t.sheet t.boxes → sub_reached p.grove (Some p.grove.root) (path ++ n ∷ []) ≡ Some place.canvas →
        present_page q.grove q.web q.numbers.items ≡ edit_at path (less_port side n port) (edit_at (path ++ n ∷ []) (edited (edit.Delete place.number))
        (edit_at path (port_cut side n port) (present_page p.grove p.web p.numbers.items))) }
    ensures taken { (p q : Patch) (table : Names) (place : Place) (key holder : ℕ) (side : Side) (port steps steps' : ℕ) (inner : List ℕ) →
        CanTakePort p place key holder side port → IsPortTaken p q table place key holder side port steps steps' →
        sub_reached p.grove (Some p.grove.root) inner ≡ Some place.canvas → TakesBoxAt p.grove q.grove inner place.canvas key place.number }
{}
