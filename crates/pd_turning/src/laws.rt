//! Laws over wires that are taken out and come back.

ghost use Rattle.std.specs.Prelude.{◌≡◌, ℕ, List};
ghost use Rattle.pd_atom.specs.Names.{Names};
ghost use Rattle.pd_object.specs.declared.kinds.Kind.{Kind};
ghost use Rattle.pd_grove.specs.declared.nodes.Node.{Node};
ghost use Rattle.pd_grove.specs.declared.seeds.Seed.{Seed};
ghost use Rattle.pd_links.specs.declared.links.Links.{Links};
ghost use Rattle.pd_links.specs.Linked.{KeepsLinkRoom, SameLinks};
ghost use Rattle.pd_web.specs.declared.web.Web.{Web};
ghost use Rattle.pd_web.specs.Canvases.{keys_at};
ghost use Rattle.pd_web.specs.Changes.{IsSame, KeepsPorts, KeepsRoom, Meet};
ghost use Rattle.pd_present.specs.Presents.{wires_among};
ghost use Rattle.pd_patch.specs.declared.patch.Patch.{Patch};
ghost use Rattle.pd_patch.specs.Listing.{IsThere};
ghost use Rattle.pd_wiring.specs.Changes.{CanRewire, SameButRoom};
ghost use Rattle.pd_taking.specs.Loosening.{Loosens};
ghost use Rattle.pd_refitting.specs.declared.room.RefitRoom.{RefitRoom};
ghost use Rattle.pd_refitting.specs.Refits.{CanRefit, IsRefitted};
ghost use Rattle.pd_refitting.specs.Room.{TakesRefit};
ghost use Rattle.pd_misfits.specs.declared.wires.BoxWire.{BoxWire};
ghost use Rattle.pd_misfits.specs.Misfits.{misfits, turning};
ghost use Rattle.pd_misfits.specs.Shedding.{AreWiresAt, IsWired, Sheds};
ghost use Rattle.pd_turning.specs.declared.noting.NotedWire.{NotedWire};
ghost use Rattle.pd_turning.specs.Notes.{notes_of, FollowFans, StandOnce};
ghost use Rattle.pd_turning.specs.Returns.{CanReturn, Restores};
ghost use Rattle.pd_turning.specs.Room.{TakesBack};

/// Room for wires that come back is there still where no room was lost, in the web and for signal wires: where wires at a box went, and where it became
/// another one. Where it is set aside, room for what the box becomes stays.
pub fn back_room_lasts()
    ensures lasts { (p q : Patch) (ms : List BoxWire) → KeepsRoom p.web q.web → KeepsLinkRoom p.links q.links → TakesBack p ms → TakesBack q ms }
    ensures same { (old new : Links) → SameLinks old new → KeepsLinkRoom old new }
    ensures loosened { (p q : Patch) (ms : List BoxWire) (key steps steps' : ℕ) → Loosens p q key steps steps' → KeepsLinkRoom p.links q.links →
        TakesBack p ms → TakesBack q ms }
    ensures refitted { (p q : Patch) (ms : List BoxWire) (table : Names) (key : ℕ) (n : Node) (s : Seed) → IsRefitted p q table key n s →
        KeepsRoom p.web q.web → TakesBack p ms → TakesBack q ms }
    ensures refit { (p q : Patch) (room : RefitRoom) (table : Names) → SameButRoom p q → KeepsRoom p.web q.web → TakesRefit p room table →
        TakesRefit q room table }
{}

/// The wires that turn are wires at the box, in the order of their outlets and fan-outs.
pub fn turning_wires_follow_fans()
    ensures { (p : Patch) (canvas key : ℕ) (k : Kind) → CanRewire p → Meet p.web → IsWired p.web → StandOnce p.web → IsThere (keys_at p.grove canvas) key →
        FollowFans p.web (turning p canvas key k) }
{}

/// Where the wires that don't fit are gone, the same ones turn, and they are wires at the box still.
pub fn misfits_leave_what_turns()
    ensures same { (p q : Patch) (canvas key : ℕ) (k : Kind) → IsWired p.web → q.grove ≡ p.grove → q.numbers ≡ p.numbers → KeepsPorts p.web q.web →
        Sheds p.web q.web (misfits p canvas key k) → turning q canvas key k ≡ turning p canvas key k }
    ensures wires { (p : Patch) (w : Web) (canvas key : ℕ) (k : Kind) → IsWired p.web → KeepsPorts p.web w → Sheds p.web w (misfits p canvas key k) →
        AreWiresAt p.web key (turning p canvas key k) → AreWiresAt w key (turning p canvas key k) }
{}

/// Where the wires that turn went and the box became another one, these can come back.
pub fn turning_wires_can_return()
    ensures { (p free q : Patch) (table : Names) (canvas key steps steps' : ℕ) (n : Node) (s : Seed) (notes : List NotedWire) →
        CanRewire p → Meet p.web → IsWired p.web → StandOnce p.web → IsThere (keys_at p.grove canvas) key →
        AreWiresAt p.web key (turning p canvas key s.row.kind) → notes ≡ notes_of p.web (turning p canvas key s.row.kind) →
        Loosens p free key steps steps' → Sheds p.web free.web (turning p canvas key s.row.kind) → CanRefit free key n s →
        IsRefitted free q table key n s → TakesBack q (turning p canvas key s.row.kind) → CanReturn p.web q key (turning p canvas key s.row.kind) notes }
{}

/// Where wires came back, the wires of each canvas by the numbers of their boxes are those that there were.
pub fn canvases_have_their_wires()
    ensures { (w v : Web) (ms : List BoxWire) (numbers keys : List ℕ) → Restores w v ms → wires_among v numbers keys ≡ wires_among w numbers keys }
{}
