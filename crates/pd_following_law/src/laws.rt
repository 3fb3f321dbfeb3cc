//! Laws over the document of a patch into which a port box came.

ghost use Rattle.std.specs.Prelude.{◌≡◌, ◌≤◌, ℕ, List, length, Some};
ghost use Rattle.slab.specs.Slab.{get};
ghost use Rattle.pd_atom.specs.Names.{Names};
ghost use Rattle.pd_canvas.specs.Edits.{appended};
ghost use Rattle.pd_canvas.specs.Pages.{Entry};
ghost use Rattle.pd_canvas.specs.Paths.{edit_at};
ghost use Rattle.pd_canvas.specs.Turns.{put_in};
ghost use Rattle.pd_tree.specs.Trees.{Tree};
ghost use Rattle.pd_grove.specs.declared.seeds.Seed.{Seed};
ghost use Rattle.pd_grove.specs.declared.ports.Side.{Side};
ghost use Rattle.pd_grove.specs.OwnPaths.{sub_reached};
ghost use Rattle.pd_grove.specs.Standing.{GroveStands};
ghost use Rattle.pd_grove.specs.TextOrder.{deep};
ghost use Rattle.pd_web.specs.Canvases.{keys_at};
ghost use Rattle.pd_present.specs.Presents.{present_page};
ghost use Rattle.pd_patch.specs.declared.patch.Patch.{Patch};
ghost use Rattle.pd_boxes.specs.declared.room.Place.{Place};
ghost use Rattle.pd_putting_law.specs.Putting.{HasBoxAt, HasBoxLast, IsSavedAs};
ghost use Rattle.pd_following.specs.Ports.{CanPutPort, IsPortPut};
ghost use Rattle.pd_following_law.specs.Raised.{StandsAt, with_port};

use pd_ports::port_boxes_are_known;

/// Where a port box came, the document of the patch is that of the patch with the box, with the wires at the box around at the ports where
/// they are then. Where it came into a canvas of the document, that has its element more, at its number in that canvas or last there, and
/// nothing else changes; the tree follows such a box as any other (`trees_follow_boxes` of `pd_putting_law`).
pub fn documents_follow_ports()
    ensures wires { (p q : Patch) (table : Names) (place : Place) (s : Seed) (key holder : ℕ) (side : Side) (path : List ℕ) (n : ℕ) (t : Tree) →
        CanPutPort p place s holder side → (put : IsPortPut p q table place s key holder side) → GroveStands q.grove t.sheet t.boxes →
        deep t.boxes ≤ 256 → StandsAt q.grove path n holder → present_page q.grove q.web q.numbers.items ≡
        edit_at path (with_port side n put.number) (present_page put.ready.grove put.ready.web put.ready.numbers.items) }
    ensures put { (p q : Patch) (table : Names) (place : Place) (s : Seed) (key holder : ℕ) (side : Side) (path inner : List ℕ) (n : ℕ)
        (e : Entry) (t : Tree) → CanPutPort p place s holder side → (put : IsPortPut p q table place s key holder side) →
        place.number ≤ length (keys_at p.grove place.canvas) → GroveStands q.grove t.sheet t.boxes → deep t.boxes ≤ 256 →
        StandsAt q.grove path n holder → sub_reached p.grove (Some p.grove.root) inner ≡ Some place.canvas →
        IsSavedAs (get q.grove.boards) (get q.grove.nodes key) e → present_page q.grove q.web q.numbers.items ≡
        edit_at path (with_port side n put.number) (edit_at inner (put_in place.number e) (present_page p.grove p.web p.numbers.items)) }
    ensures at { (p q : Patch) (table : Names) (place : Place) (s : Seed) (key holder : ℕ) (side : Side) (inner : List ℕ) →
        CanPutPort p place s holder side → IsPortPut p q table place s key holder side → place.number ≤ length (keys_at p.grove place.canvas) →
        sub_reached p.grove (Some p.grove.root) inner ≡ Some place.canvas → HasBoxAt p.grove q.grove inner place.canvas key place.number }
    ensures appended { (p q : Patch) (table : Names) (place : Place) (s : Seed) (key holder : ℕ) (side : Side) (path inner : List ℕ) (n : ℕ)
        (e : Entry) (t : Tree) → CanPutPort p place s holder side → (put : IsPortPut p q table place s key holder side) →
        place.number ≡ length (keys_at p.grove place.canvas) → GroveStands q.grove t.sheet t.boxes → deep t.boxes ≤ 256 →
        StandsAt q.grove path n holder → sub_reached p.grove (Some p.grove.root) inner ≡ Some place.canvas →
        IsSavedAs (get q.grove.boards) (get q.grove.nodes key) e → present_page q.grove q.web q.numbers.items ≡
        edit_at path (with_port side n put.number) (edit_at inner (appended e) (present_page p.grove p.web p.numbers.items)) }
    ensures last { (p q : Patch) (table : Names) (place : Place) (s : Seed) (key holder : ℕ) (side : Side) (inner : List ℕ) →
        CanPutPort p place s holder side → IsPortPut p q table place s key holder side → place.number ≡ length (keys_at p.grove place.canvas) →
        sub_reached p.grove (Some p.grove.root) inner ≡ Some place.canvas → HasBoxLast p.grove q.grove inner place.canvas key }
{
    port_boxes_are_known();
}
