// What holds of orders, for proofs of their callers.
ghost use Rattle.std.specs.Prelude.{◌≡◌, ℕ, List};
ghost use Rattle.pd_order.specs.Graph.{Graph, tally, IsLawful, IsOrder, add_wire};
ghost use Rattle.pd_order.specs.Laws.{HasOneOrder, FoldsMeet, OrdersAlike};

/// Does nothing. Its contract is that a graph has one chain and one stuck list.
pub fn one_order()
    ensures { (g : Graph) (nodes : List ℕ) → IsLawful g nodes → HasOneOrder g nodes }
{}

/// Does nothing. Its contract is how the chains of a graph without and with one wire stand to one another.
pub fn folds_meet()
    ensures { (g : Graph) (source sink : ℕ) (nodes without stuck wired held : List ℕ) → IsLawful g nodes → IsOrder g nodes without stuck → IsOrder (add_wire g source sink) nodes wired held → FoldsMeet sink without wired }
{}

/// Does nothing. Its contract is that an order of one graph is that of another where who feeds whom is the same, and
/// the nodes stand in the same order by rank, whatever the ranks and the order of a node's feeders.
pub fn same_order()
    ensures { (g h : Graph) (nodes others chain stuck : List ℕ) → OrdersAlike g h nodes → ((x : ℕ) → tally x nodes ≡ tally x others) → IsOrder g nodes chain stuck → IsOrder h others chain stuck }
{}
