//! Laws of edits and turns that are taken back.
ghost use Rattle.std.specs.Prelude.{◌≡◌, ℕ, List, [], ◌∷◌, ◌++◌, IsSomeAnd};
ghost use Rattle.pd_atom.specs.Names.{Names};
ghost use Rattle.pd_canvas.specs.declared.wires.Wire.{Wire};
ghost use Rattle.pd_canvas.specs.declared.edits.Edit.{Edit};
ghost use Rattle.pd_canvas.specs.Pages.{Page};
ghost use Rattle.pd_canvas.specs.Paths.{along, edit_at};
ghost use Rattle.pd_canvas.specs.Edits.{Fits, edited};
ghost use Rattle.pd_canvas.specs.Proper.{IsSound};
ghost use Rattle.pd_undo.specs.Acts.{Act, Wires, Placed, all_done, AreThere, HaveRoom};
ghost use Rattle.pd_undo.specs.Inverses.{page_at, around, with_around, turns_back, inverse, GivesWires, IsEntry, rewired_at};

/// An edit, and then the turns that take it back, give the former document, whatever wires went at its canvas and around it. The
/// inverse of these turns then makes it again, with the wires that went.
pub fn edits_are_taken_back()
    ensures plain { (path : List ℕ) (e : Edit) (d : Page) → IsSomeAnd (along path d) (Fits e) →
        all_done (turns_back path e d) (edit_at path (edited e) d) ≡ d }
    ensures rewired { (path : List ℕ) (e : Edit) (d : Page) (inner outer : List Wire → List Wire) → IsSomeAnd (along path d) (Fits e) →
        all_done (turns_back path e d) (rewired_at path inner outer (edit_at path (edited e) d)) ≡ d }
    ensures there { (path : List ℕ) (e : Edit) (d : Page) (inner outer : List Wire → List Wire) → IsSomeAnd (along path d) (Fits e) →
        AreThere (turns_back path e d) (rewired_at path inner outer (edit_at path (edited e) d)) }
    ensures again { (path : List ℕ) (e : Edit) (d : Page) (inner outer : List Wire → List Wire) → IsSomeAnd (along path d) (Fits e) →
        let after = rewired_at path inner outer (edit_at path (edited e) d) in all_done (inverse (turns_back path e d) after) d ≡ after }
{}

/// The inverse of turns takes them back, whatever wires went, and its own inverse makes them again. The turns are acts of one
/// canvas, of which one gives it its wires, and then the wires of the canvas around. Such turns take an edit back, and such
/// turns take them back. Of turns at other paths it isn't true: a box that comes or goes above a canvas shifts its path.
pub fn turns_are_taken_back()
    ensures back { (path : List ℕ) (acts : List Act) (ws : List Wire) (d : Page) (inner outer : List Wire → List Wire) →
        GivesWires acts → AreThere (with_around path acts ws) d →
        all_done (inverse (with_around path acts ws) d) (rewired_at path inner outer (all_done (with_around path acts ws) d)) ≡ d }
    ensures there { (path : List ℕ) (acts : List Act) (ws : List Wire) (d : Page) (inner outer : List Wire → List Wire) →
        GivesWires acts → AreThere (with_around path acts ws) d →
        AreThere (inverse (with_around path acts ws) d) (rewired_at path inner outer (all_done (with_around path acts ws) d)) }
    ensures again { (path : List ℕ) (acts : List Act) (ws : List Wire) (d : Page) (inner outer : List Wire → List Wire) →
        GivesWires acts → AreThere (with_around path acts ws) d →
        let after = rewired_at path inner outer (all_done (with_around path acts ws) d) in
        all_done (inverse (inverse (with_around path acts ws) d) after) d ≡ after }
    ensures form { (path : List ℕ) (acts : List Act) (ws : List Wire) (d : Page) → GivesWires acts → AreThere (with_around path acts ws) d →
        (back : List Act) × (GivesWires back × (inverse (with_around path acts ws) d ≡ with_around path back (page_at (around path) d).wires)) }
    ensures gives { (box : List Act) (ws : List Wire) → GivesWires (box ++ Wires ws ∷ []) }
{}

/// The turns that take an edit back are of one box at most and of wires, and so is their inverse; such turns find room in each
/// document that is well formed. So what is asked of the entries of a history holds of those that edits leave.
pub fn entries_have_room()
    ensures edits { (path : List ℕ) (e : Edit) (d : Page) → IsEntry (turns_back path e d) }
    ensures inverse { (ts : List Placed) (d : Page) → IsEntry ts → AreThere ts d → IsEntry (inverse ts d) }
    ensures room { (names : Names) (ts : List Placed) (d : Page) → IsSound names d → IsEntry ts → AreThere ts d → HaveRoom ts d }
{}
