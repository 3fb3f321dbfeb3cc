// What holds of the orders of canvases, for proofs of their callers.
ghost use Rattle.std.specs.Prelude.{ℕ, ◌<◌, List, length};
ghost use Rattle.pd_order.specs.Graph.{IsOrder};
ghost use Rattle.pd_chain.specs.declared.graph.SignalWire.{SignalWire};
ghost use Rattle.pd_chain.specs.Entries.{entry_limit};
ghost use Rattle.pd_chain.specs.Wires.{graph_of, IsCanvas};
ghost use Rattle.pd_chain.specs.Numbers.{numbers_of, graph_by_number, SameByNumber, OrdersAgree};

/// Does nothing. Its contract is that an order of boxes by their keys is, in numbers, an order by the numbers.
pub fn order_by_number()
    ensures { (nodes signal chain stuck : List ℕ) (wires : List SignalWire) → IsCanvas nodes signal wires → IsOrder (graph_of nodes wires) signal chain stuck → IsOrder (graph_by_number nodes wires) (numbers_of nodes signal) (numbers_of nodes chain) (numbers_of nodes stuck) }
{}

/// Does nothing. Its contract is that canvases which are the same by number have the same order by number, whatever
/// the keys of their boxes.
pub fn orders_agree()
    ensures { (nodes signal nodes' signal' : List ℕ) (wires wires' : List SignalWire) → IsCanvas nodes signal wires → IsCanvas nodes' signal' wires' → length wires < entry_limit → SameByNumber nodes signal wires nodes' signal' wires' → OrdersAgree nodes signal wires nodes' signal' wires' }
{}
