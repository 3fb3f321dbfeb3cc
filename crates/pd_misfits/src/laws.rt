//! Laws over the wires at a box that becomes another one.

ghost use Rattle.std.specs.Prelude.{◌≡◌, ◌≢◌, ℕ, List, filter, true, false};
ghost use Rattle.pd_atom.specs.Names.{Names};
ghost use Rattle.pd_object.specs.declared.kinds.Kind.{Kind};
ghost use Rattle.pd_web.specs.declared.lines.Line.{Line};
ghost use Rattle.pd_web.specs.declared.web.Web.{Web};
ghost use Rattle.pd_web.specs.Canvases.{keys_at};
ghost use Rattle.pd_web.specs.Changes.{IsSame, KeepsPorts, Meet};
ghost use Rattle.pd_present.specs.Presents.{wires_among};
ghost use Rattle.pd_patch.specs.declared.patch.Patch.{Patch};
ghost use Rattle.pd_patch.specs.Listing.{IsThere};
ghost use Rattle.pd_wiring.specs.Changes.{CanRewire};
ghost use Rattle.pd_taking.specs.Loosening.{Loosens};
ghost use Rattle.pd_refitting.specs.declared.room.RefitRoom.{RefitRoom};
ghost use Rattle.pd_refitting.specs.Refits.{StaysWire, TakesWires};
ghost use Rattle.pd_refitting.specs.Room.{TakesRefit};
ghost use Rattle.pd_misfits.specs.declared.wires.BoxWire.{BoxWire};
ghost use Rattle.pd_misfits.specs.Misfits.{is_fit, misfits, turning, turns, NoneTurns};
ghost use Rattle.pd_misfits.specs.Shedding.{numbered, stays_among, without_wires, AllFit, AreWiresAt, IsWired, KeepsFit, Sheds};

/// Where the wires that don't fit are gone, those at the box that fit are there still, and no others.
pub fn misfits_leave_what_fits()
    ensures { (p : Patch) (w : Web) (canvas key : ℕ) (k : Kind) → CanRewire p → Meet p.web → IsWired p.web → IsThere (keys_at p.grove canvas) key →
        KeepsPorts p.web w → Sheds p.web w (misfits p canvas key k) → KeepsFit p.web w key k }
{}

/// Where the wires that don't fit are gone, the wires of the canvas are those that there were less these, in their order; these are the ones with
/// the numbers that are told of them. Every other canvas has its wires.
pub fn canvases_lose_misfits()
    ensures here { (p : Patch) (canvas key : ℕ) (k : Kind) → CanRewire p → Meet p.web → IsWired p.web → IsThere (keys_at p.grove canvas) key →
        (w : Web) → KeepsPorts p.web w → Sheds p.web w (misfits p canvas key k) → wires_among w p.numbers.items (keys_at p.grove canvas)
        ≡ filter (stays_among p.web (keys_at p.grove canvas) key k) (wires_among p.web p.numbers.items (keys_at p.grove canvas)) }
    ensures less { (p : Patch) (canvas key : ℕ) (k : Kind) → CanRewire p → Meet p.web → IsWired p.web → IsThere (keys_at p.grove canvas) key →
        (w : Web) → KeepsPorts p.web w → Sheds p.web w (misfits p canvas key k) → wires_among w p.numbers.items (keys_at p.grove canvas)
        ≡ without_wires (numbered (misfits p canvas key k)) (wires_among p.web p.numbers.items (keys_at p.grove canvas)) }
    ensures others { (p : Patch) (canvas key : ℕ) (k : Kind) → CanRewire p → Meet p.web → IsWired p.web → IsThere (keys_at p.grove canvas) key →
        (w : Web) → KeepsPorts p.web w → Sheds p.web w (misfits p canvas key k) → (c : ℕ) → c ≢ canvas →
        wires_among w p.numbers.items (keys_at p.grove c) ≡ wires_among p.web p.numbers.items (keys_at p.grove c) }
{}

/// Where the wires that don't fit are gone and none of the others turns, what is left stays as it is.
pub fn wires_that_fit_are_taken()
    ensures { (p : Patch) (w : Web) (canvas key : ℕ) (k : Kind) → CanRewire p → Meet p.web → IsWired p.web → IsThere (keys_at p.grove canvas) key →
        NoneTurns p.web key k → KeepsPorts p.web w → Sheds p.web w (misfits p canvas key k) → TakesWires w key k }
{}

/// Room for what a box becomes is there still after wires went.
pub fn room_lasts()
    ensures { (p q : Patch) (key steps steps' : ℕ) (room : RefitRoom) (table : Names) → Loosens p q key steps steps' → TakesRefit p room table →
        TakesRefit q room table }
{}

/// Where all wires at the box fit and those that turn are gone, what is left stays as it is.
pub fn wires_left_stay()
    ensures { (p : Patch) (w : Web) (canvas key : ℕ) (k : Kind) → CanRewire p → Meet p.web → IsThere (keys_at p.grove canvas) key →
        AllFit p.web key k → KeepsPorts p.web w → Sheds p.web w (turning p canvas key k) → TakesWires w key k }
{}

/// Where only room differs, the same wires go and the same turn, and they are wires at the box. Where they go then, they went.
pub fn room_changes_no_wires()
    ensures misfits { (p q : Patch) (canvas key : ℕ) (k : Kind) → q.grove ≡ p.grove → q.numbers ≡ p.numbers → IsSame p.web q.web →
        misfits q canvas key k ≡ misfits p canvas key k }
    ensures turning { (p q : Patch) (canvas key : ℕ) (k : Kind) → q.grove ≡ p.grove → q.numbers ≡ p.numbers → IsSame p.web q.web →
        turning q canvas key k ≡ turning p canvas key k }
    ensures wires { (w v : Web) (key : ℕ) (ms : List BoxWire) → IsSame w v → AreWiresAt w key ms → AreWiresAt v key ms }
    ensures sheds { (w v u : Web) (ms : List BoxWire) → IsSame w v → Sheds v u ms → Sheds w u ms }
{}

/// A wire that fits and doesn't turn stays as it is, and no other wire does.
pub fn wires_stay_unless_they_turn()
    ensures stay { (w : Web) (key : ℕ) (k : Kind) (l : Line) → is_fit w key k l ≡ true → turns w key k l ≡ false → StaysWire w key k l }
    ensures fit { (w : Web) (key : ℕ) (k : Kind) (l : Line) → StaysWire w key k l → is_fit w key k l ≡ true }
    ensures same { (w : Web) (key : ℕ) (k : Kind) (l : Line) → StaysWire w key k l → turns w key k l ≡ false }
{}
