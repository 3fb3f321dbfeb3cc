// What holds of orders over links, for proofs of their callers.
ghost use Rattle.std.specs.Prelude.{◌≡◌, ℕ, ◌<◌, List, ◌∷◌, length};
ghost use Rattle.pd_order.specs.Graph.{tally, IsLawful, IsOrder, cut_wire, add_wire};
ghost use Rattle.pd_chain.specs.declared.graph.SignalWire.{SignalWire};
ghost use Rattle.pd_chain.specs.Entries.{entry_limit};
ghost use Rattle.pd_chain.specs.Wires.{graph_of, IsCanvas};
ghost use Rattle.pd_links.specs.declared.links.Links.{Links};
ghost use Rattle.pd_links.specs.Linked.{feeders_of, link_graph, AreLinked, HasOneMore, RiseAlong};

/// Does nothing. Its contract is that links and labels of a canvas are a graph that an order may ask.
pub fn links_are_lawful()
    ensures { (labels : List ℕ) (links : Links) (nodes signal : List ℕ) (wires : List SignalWire) → IsCanvas nodes signal wires → length wires < entry_limit → RiseAlong labels nodes → AreLinked links wires → IsLawful (link_graph labels links) signal }
{}

/// Does nothing. Its contract is that an order by links and labels is the one order that a canvas's boxes and wires
/// have from nothing.
pub fn order_by_links()
    ensures of_canvas { (labels : List ℕ) (links : Links) (nodes signal chain stuck : List ℕ) (wires : List SignalWire) → IsCanvas nodes signal wires → RiseAlong labels nodes → AreLinked links wires → IsOrder (link_graph labels links) signal chain stuck → IsOrder (graph_of nodes wires) signal chain stuck }
    ensures of_links { (labels : List ℕ) (links : Links) (nodes signal chain stuck : List ℕ) (wires : List SignalWire) → IsCanvas nodes signal wires → RiseAlong labels nodes → AreLinked links wires → IsOrder (graph_of nodes wires) signal chain stuck → IsOrder (link_graph labels links) signal chain stuck }
{}

/// Does nothing. Its contract is that a wire added to links is one of the wires that they are the links of.
pub fn linked_more()
    ensures { (links more : Links) (source sink : ℕ) (wires : List SignalWire) → HasOneMore links more source sink → AreLinked links wires → AreLinked more (record { source = source; sink = sink } ∷ wires) }
{}

/// Does nothing. Its contract is that a wire cut from links leaves those of the other wires.
pub fn linked_less()
    ensures { (links more : Links) (source sink : ℕ) (wires : List SignalWire) → HasOneMore links more source sink → AreLinked more (record { source = source; sink = sink } ∷ wires) → AreLinked links wires }
{}

/// Does nothing. Its contract is that an order may be mended once the wire was added to the links.
pub fn mend_after_add()
    ensures order { (labels : List ℕ) (links more : Links) (source sink : ℕ) (signal chain stuck : List ℕ) → HasOneMore links more source sink → IsOrder (link_graph labels links) signal chain stuck → IsOrder (cut_wire (link_graph labels more) source sink) signal chain stuck }
    ensures wire { (links more : Links) (source sink : ℕ) → HasOneMore links more source sink → 0 < tally source (feeders_of more sink) }
{}

/// Does nothing. Its contract is that an order may be mended once the wire was cut from the links.
pub fn mend_after_cut()
    ensures { (labels : List ℕ) (links more : Links) (source sink : ℕ) (signal chain stuck : List ℕ) → HasOneMore links more source sink → IsOrder (link_graph labels more) signal chain stuck → IsOrder (add_wire (link_graph labels links) source sink) signal chain stuck }
{}
