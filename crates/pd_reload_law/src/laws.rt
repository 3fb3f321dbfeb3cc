//! Laws over the documents of running patches.

ghost use Rattle.std.specs.Prelude.{◌≡◌, ◌+◌, ◌≤◌, ◌++◌, ℕ, List, [], map, filter, length, slice_get, Option, Some, None, option_map};
ghost use Rattle.std.specs.List.{AllByRecursion};
ghost use Rattle.slab.specs.Slab.{get};
ghost use Rattle.pd_atom.specs.Names.{Names, Extends};
ghost use Rattle.pd_clock.specs.declared.times.Rate.{Rate};
ghost use Rattle.pd_canvas.specs.Pages.{Page};
ghost use Rattle.pd_canvas.specs.Edits.{with_wires};
ghost use Rattle.pd_canvas.specs.Paths.{edit_at};
ghost use Rattle.pd_canvas.specs.Wiring.{with_wire, without_wire, AreSorted, fan_out};
ghost use Rattle.pd_canvas.specs.declared.wires.Wire.{Wire};
ghost use Rattle.pd_library.specs.declared.answers.Answer.{Answer};
ghost use Rattle.pd_tree.specs.Ports.{fits};
ghost use Rattle.pd_tree.specs.declared.rows.Sheet.{Sheet};
ghost use Rattle.pd_tree.specs.Trees.{Tree, Trees, document_in, weight, zeros_of};
ghost use Rattle.pd_growth.specs.Steps.{Stock, gives};
ghost use Rattle.pd_growth.specs.Growth.{grown};
ghost use Rattle.pd_grove.specs.declared.grove.Grove.{Grove};
ghost use Rattle.pd_grove.specs.declared.nodes.Node.{Node};
ghost use Rattle.pd_grove.specs.Standing.{GroveStands};
ghost use Rattle.pd_grove.specs.Telling.{with_state};
ghost use Rattle.pd_grove.specs.OwnPaths.{sub_reached};
ghost use Rattle.pd_grove.specs.States.{NodesFresh};
ghost use Rattle.pd_web.specs.declared.lines.Line.{Line};
ghost use Rattle.pd_web.specs.declared.web.Web.{Web};
ghost use Rattle.pd_web.specs.Canvases.{sink_place};
ghost use Rattle.pd_web.specs.Changes.{Joins, CutsWire};
ghost use Rattle.pd_web.specs.Hops.{boxes_told, fan_hops, fan_keys, places_of};
ghost use Rattle.pd_seek.specs.Places.{key_to};
ghost use Rattle.pd_present.specs.Presents.{outlet_wires, present_page, wires_among};
ghost use Rattle.pd_regrowth_law.specs.Regrowth.{stock};
ghost use Rattle.pd_regrowth_law.specs.Suits.{AnswersAlike};
ghost use Rattle.pd_reload_law.specs.Saving.{tree_now, AreSavable, AreMade};
ghost use Rattle.pd_reload_law.specs.Reloading.{HasGrown, RunsAs};
ghost use Rattle.pd_reload_law.specs.Wires.{AreNumbered, IsAmong, JoinsAmong, StayAmong, StandOnce, RewiresAt, wire_by};

/// The document of a patch as it stands is that of its tree as it stands, which has the `$0` numbers and as many boxes as the one that
/// grew. What grew is made as the law asks.
pub fn documents_tell_trees()
    ensures document { (g : Grove) (web : Web) (numbers : List ℕ) (t : Tree) → RunsAs g t → AreMade t.boxes →
        document_in (tree_now g web numbers t) ≡ present_page g web numbers }
    ensures made { (lib : ℕ → Option Answer) (file : List ℕ) (page : Page) (before after : Stock) (t : Tree) →
        grown lib file page before ≡ gives t after → AreMade t.boxes }
    ensures numbers { (g : Grove) (web : Web) (numbers : List ℕ) (t : Tree) → zeros_of (tree_now g web numbers t) ≡ zeros_of t }
    ensures weight { (g : Grove) (web : Web) (numbers : List ℕ) (t : Tree) → weight (tree_now g web numbers t).boxes ≡ weight t.boxes }
{}

/// From the document of a patch as it stands grows its tree as it stands, whatever wires there are and whatever its boxes keep of what is
/// theirs: from any stock that begins with its own `$0` numbers and has room for its boxes, and so from the `$0` numbers and the room from
/// which the patch itself grew. The table of names may have gone on, and the files may answer more.
pub fn saved_documents_grow_again()
    ensures own { (lib lib2 : ℕ → Option Answer) (file : List ℕ) (page : Page) (before after : Stock) (t : Tree) (g : Grove) (web : Web)
        (numbers : List ℕ) (names : Names) (more : List ℕ) (room : ℕ) → HasGrown lib file page before t after → AnswersAlike lib lib2 →
        RunsAs g t → Extends after.names names →
        grown lib2 file (present_page g web numbers) (stock names (zeros_of t ++ more) (weight t.boxes + room)) ≡
        gives (tree_now g web numbers t) (stock names more room) }
    ensures opened { (lib lib2 : ℕ → Option Answer) (file : List ℕ) (page : Page) (before after : Stock) (t : Tree) (g : Grove) (web : Web)
        (numbers : List ℕ) (names : Names) → HasGrown lib file page before t after → AnswersAlike lib lib2 → RunsAs g t →
        Extends after.names names →
        grown lib2 file (present_page g web numbers) (stock names before.zeros before.room) ≡
        gives (tree_now g web numbers t) (stock names after.zeros after.room) }
{}

/// What boxes keep at first is theirs.
pub fn first_states_are_savable()
    ensures { (rate : Rate) (now : ℕ) (nodes : ℕ → Option Node) → NodesFresh rate now nodes → AreSavable nodes }
{}

/// The wires of a canvas that are saved stand by source and outlet, and those of an outlet are its fan-out, in its order. Only one list of
/// wires is so.
pub fn saved_wires_are_fan_outs()
    ensures sorted { (w : Web) (numbers keys : List ℕ) → AreNumbered numbers keys → AreSorted (wires_among w numbers keys) }
    ensures fans { (w : Web) (numbers keys : List ℕ) (i k outlet : ℕ) → AreNumbered numbers keys → slice_get keys i ≡ Some k →
        fan_out i outlet (wires_among w numbers keys) ≡ outlet_wires w numbers k outlet }
    ensures none { (w : Web) (numbers keys : List ℕ) (i outlet : ℕ) → AreNumbered numbers keys → slice_get keys i ≡ None →
        fan_out i outlet (wires_among w numbers keys) ≡ [] }
    ensures once { (xs ys : List Wire) → AreSorted xs → AreSorted ys →
        ((source outlet : ℕ) → fan_out source outlet xs ≡ fan_out source outlet ys) → xs ≡ ys }
{}

/// Where the fan-outs of a canvas are those of a list of wires, that list is saved: of one that was just laid the wires that fit.
pub fn laid_wires_are_saved()
    ensures laid { (w : Web) (numbers keys : List ℕ) (ws : List Wire) → AreNumbered numbers keys → AreSorted ws →
        AllByRecursion (JoinsAmong keys) ws →
        ((i k outlet : ℕ) → slice_get keys i ≡ Some k → places_of (fan_hops w k outlet) ≡ map (sink_place keys) (fan_out i outlet ws)) →
        wires_among w numbers keys ≡ ws }
    ensures fitting { (w : Web) (numbers keys : List ℕ) (ws : List Wire) → AreNumbered numbers keys → AreSorted ws →
        ((i k outlet : ℕ) → slice_get keys i ≡ Some k →
        places_of (fan_hops w k outlet) ≡ map (sink_place keys) (fan_out i outlet (filter (fits (boxes_told w keys)) ws))) →
        wires_among w numbers keys ≡ filter (fits (boxes_told w keys)) ws }
{}

/// Where a wire comes or goes, the wires that are saved of its canvas are changed as the edit of a document does it: the wire comes before the
/// first whose outlet comes later, or the first that is equal goes. Those of other canvases stay.
pub fn saved_wires_follow()
    ensures joined { (w w' : Web) (numbers keys : List ℕ) (key : ℕ) (l : Line) (place i : ℕ) → AreNumbered numbers keys →
        slice_get keys i ≡ Some l.source → Joins w w' key l (length (fan_keys w l.source l.outlet)) place →
        wires_among w' numbers keys ≡ with_wire (wire_by numbers l) (wires_among w numbers keys) }
    ensures joined_elsewhere { (w w' : Web) (numbers keys : List ℕ) (key : ℕ) (l : Line) (fan_place place : ℕ) → AreNumbered numbers keys →
        (IsAmong keys l.source → ⊥) → Joins w w' key l fan_place place → wires_among w' numbers keys ≡ wires_among w numbers keys }
    ensures cut { (w w' : Web) (numbers keys : List ℕ) (key : ℕ) (l : Line) (i : ℕ) → AreNumbered numbers keys → StandOnce w → StayAmong w keys →
        slice_get keys i ≡ Some l.source → IsAmong keys l.sink → key_to l (fan_hops w l.source l.outlet) ≡ Some key → CutsWire w w' key →
        wires_among w' numbers keys ≡ without_wire (wire_by numbers l) (wires_among w numbers keys) }
    ensures cut_elsewhere { (w w' : Web) (numbers keys : List ℕ) (key : ℕ) (l : Line) → AreNumbered numbers keys → StandOnce w →
        (IsAmong keys l.source → ⊥) → key_to l (fan_hops w l.source l.outlet) ≡ Some key → CutsWire w w' key →
        wires_among w' numbers keys ≡ wires_among w numbers keys }
{}

/// Where the wires of one canvas that are saved are changed, and no others, the document of the patch is changed at the path to that canvas
/// and nowhere else.
pub fn documents_follow_wires()
    ensures { (g : Grove) (w w' : Web) (numbers path : List ℕ) (canvas : ℕ) (change : List Wire → List Wire) →
        RewiresAt g w w' numbers path canvas change → sub_reached g (Some g.root) path ≡ Some canvas → length path ≤ 256 →
        present_page g w' numbers ≡ edit_at path (λ p. with_wires (change p.wires) p) (present_page g w numbers) }
{}

/// Where boxes keep something else, and nothing else of a tree changes, it stands as it did.
pub fn trees_go_on()
    ensures { (g g2 : Grove) (s : Sheet) (t : Trees) →
        ((k : ℕ) → option_map (with_state None) (get g2.nodes k) ≡ option_map (with_state None) (get g.nodes k)) → g2.boards ≡ g.boards →
        g2.root ≡ g.root → GroveStands g s t → GroveStands g2 s t }
{}
