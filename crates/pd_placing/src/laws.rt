//! What holds of the orders of canvases, for proofs of callers.

ghost use Rattle.std.specs.Prelude.{◌≡◌, ◌≢◌, ℕ, List, None, IsSome, Option};
ghost use Rattle.slab.specs.Slab.{get};
ghost use Rattle.pd_order.specs.Graph.{IsLawful};
ghost use Rattle.pd_order.specs.Listing.{Listing};
ghost use Rattle.pd_links.specs.declared.links.Links.{Links};
ghost use Rattle.pd_grove.specs.declared.nodes.Node.{Node};
ghost use Rattle.pd_grove.specs.declared.grove.Grove.{Grove};
ghost use Rattle.pd_grove.specs.declared.seeds.Seed.{Seed};
ghost use Rattle.pd_grove.specs.Forest.{IsForest};
ghost use Rattle.pd_grove.specs.Grafts.{HasPartMore, TakesBox};
ghost use Rattle.pd_grove.specs.Refits.{Refits};
ghost use Rattle.pd_grove.specs.Telling.{inner_in};
ghost use Rattle.pd_web.specs.declared.web.Web.{Web};
ghost use Rattle.pd_patch.specs.Orders.{is_signal_node, AreOrdered};
ghost use Rattle.pd_patch.specs.Telling.{order_in};
ghost use Rattle.pd_wiring.specs.Graphs.{canvas_graph, signal_boxes, AreWired, AreOrderedBy};
ghost use Rattle.pd_placing.specs.Placing.{IsOrdered, LacksBox, AreOrderedBut};
ghost use Rattle.pd_placing.specs.Groves.{AreBothOwn};

/// Does nothing. Its contract is that the graph of a canvas is one that its order may ask.
pub fn canvases_are_lawful()
    ensures { (g : Grove) (w : Web) (l : Links) (c : ℕ) → AreWired g w l → IsLawful (canvas_graph g l c) (signal_boxes g c) }
{}

/// Does nothing. Its contract is that the orders by links are those by wires.
pub fn orders_are_by_wires()
    ensures wires { (g : Grove) (w : Web) (l : Links) (orders : List (Option Listing)) → AreWired g w l → AreOrderedBy g l orders → AreOrdered g w orders }
    ensures links { (g : Grove) (w : Web) (l : Links) (orders : List (Option Listing)) → AreWired g w l → AreOrdered g w orders → AreOrderedBy g l orders }
{}

/// Does nothing. Its contract is that in the order of a canvas to which a box has come only this box is missing, and that
/// every other canvas that lived keeps its order.
pub fn orders_lack_what_comes()
    ensures canvas { (g h : Grove) (l : Links) (c k : ℕ) (before behind : List ℕ) (orders : List (Option Listing)) → AreBothOwn g h →
        HasPartMore (get g.nodes) (get h.nodes) (get g.boards) (get h.boards) c k before behind → IsOrdered g l orders c → LacksBox h l orders c k }
    ensures others { (g h : Grove) (l : Links) (c k : ℕ) (before behind : List ℕ) (orders : List (Option Listing)) (d : ℕ) → AreBothOwn g h →
        HasPartMore (get g.nodes) (get h.nodes) (get g.boards) (get h.boards) c k before behind → d ≢ c →
        (get g.boards d ≡ None → get h.boards d ≡ None) → IsOrdered g l orders d → IsOrdered h l orders d }
    ensures all { (g h : Grove) (l : Links) (c k : ℕ) (before behind : List ℕ) (orders : List (Option Listing)) → AreBothOwn g h →
        HasPartMore (get g.nodes) (get h.nodes) (get g.boards) (get h.boards) c k before behind →
        ((d : ℕ) → get g.boards d ≡ None → get h.boards d ≡ None) → AreOrderedBy g l orders → AreOrderedBut h l orders c k }
    ensures leaf { (g h : Grove) (l : Links) (c k : ℕ) (before behind : List ℕ) (orders : List (Option Listing)) (root : ℕ) → AreBothOwn g h →
        HasPartMore (get g.nodes) (get h.nodes) (get g.boards) (get h.boards) c k before behind → IsForest (get g.nodes) (get g.boards) root →
        inner_in (get h.nodes k) ≡ None → AreOrderedBy g l orders → AreOrderedBut h l orders c k }
{}

/// Does nothing. Its contract is that a canvas from which a box has gone has its order where only this box was missing, and
/// that every other canvas that still lives keeps its order.
pub fn orders_follow_what_goes()
    ensures canvas { (g h : Grove) (l : Links) (c k : ℕ) (n : Node) (before behind : List ℕ) (orders : List (Option Listing)) → AreBothOwn g h →
        TakesBox (get g.nodes) (get h.nodes) (get g.boards) (get h.boards) c k n before behind → LacksBox g l orders c k → IsOrdered h l orders c }
    ensures others { (g h : Grove) (l : Links) (c k : ℕ) (n : Node) (before behind : List ℕ) (orders : List (Option Listing)) (d : ℕ) → AreBothOwn g h →
        TakesBox (get g.nodes) (get h.nodes) (get g.boards) (get h.boards) c k n before behind → d ≢ c →
        (get h.boards d ≡ None → order_in orders d ≡ None) → (IsSome (get h.boards d) → IsOrdered g l orders d) → IsOrdered h l orders d }
    ensures all { (g h : Grove) (l : Links) (c k : ℕ) (n : Node) (before behind : List ℕ) (orders : List (Option Listing)) → AreBothOwn g h →
        TakesBox (get g.nodes) (get h.nodes) (get g.boards) (get h.boards) c k n before behind → LacksBox g l orders c k →
        ((d : ℕ) → get h.boards d ≡ None → order_in orders d ≡ None) →
        ((d : ℕ) → d ≢ c → IsSome (get h.boards d) → IsOrdered g l orders d) → AreOrderedBy h l orders }
    ensures leaf { (g h : Grove) (l : Links) (c k : ℕ) (n : Node) (before behind : List ℕ) (orders : List (Option Listing)) → AreBothOwn g h →
        TakesBox (get g.nodes) (get h.nodes) (get g.boards) (get h.boards) c k n before behind →
        inner_in (get g.nodes k) ≡ None → AreOrderedBut g l orders c k → AreOrderedBy h l orders }
{}

/// Does nothing. Its contract is how orders stand where a box has become another under its key: what was missing of the
/// canvas's order still is, and where both boxes, or neither, have a part in signals, the canvas keeps its order; so does every other
/// canvas that was there all the time.
pub fn orders_follow_what_changes()
    ensures lacks { (g h : Grove) (l : Links) (c k : ℕ) (n : Node) (before behind : List ℕ) (seeds rest : List Seed) (orders : List (Option Listing)) → AreBothOwn g h →
        Refits (get g.nodes) (get h.nodes) (get g.boards) (get h.boards) c k n before behind seeds rest → LacksBox g l orders c k → LacksBox h l orders c k }
    ensures canvas { (g h : Grove) (l : Links) (c k : ℕ) (n : Node) (before behind : List ℕ) (seeds rest : List Seed) (orders : List (Option Listing)) → AreBothOwn g h →
        Refits (get g.nodes) (get h.nodes) (get g.boards) (get h.boards) c k n before behind seeds rest →
        is_signal_node (get h.nodes k) ≡ is_signal_node (get g.nodes k) → IsOrdered g l orders c → IsOrdered h l orders c }
    ensures others { (g h : Grove) (l : Links) (c k : ℕ) (n : Node) (before behind : List ℕ) (seeds rest : List Seed) (orders : List (Option Listing)) (d : ℕ) → AreBothOwn g h →
        (r : Refits (get g.nodes) (get h.nodes) (get g.boards) (get h.boards) c k n before behind seeds rest) → d ≢ c →
        IsSome (r.boards_left d) → IsOrdered g l orders d → IsOrdered h l orders d }
    ensures alike { (g h : Grove) (l : Links) (orders : List (Option Listing)) → AreBothOwn g h → h.boards ≡ g.boards →
        ((k : ℕ) → is_signal_node (get h.nodes k) ≡ is_signal_node (get g.nodes k)) → AreOrderedBy g l orders → AreOrderedBy h l orders }
{}
