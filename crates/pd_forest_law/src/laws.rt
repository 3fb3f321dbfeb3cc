//! Laws over boxes and canvases that are one tree.

ghost use Rattle.std.specs.Prelude.{◌≡◌, ◌≢◌, ◌+◌, ◌≤◌, ℕ, List, [], Option, Some, None, IsSome};
ghost use Rattle.pd_tree.specs.Trees.{Trees, Tree, Done};
ghost use Rattle.pd_tree.specs.declared.rows.Sheet.{Sheet};
ghost use Rattle.pd_grove.specs.declared.grove.Grove.{Grove};
ghost use Rattle.slab.specs.Slab.{get};
ghost use Rattle.pd_grove.specs.Standing.{GroveStands, NodesOf, Stands, node_seen, depth_of};
ghost use Rattle.pd_grove.specs.declared.nodes.Node.{Node};
ghost use Rattle.pd_grove.specs.declared.boards.Board.{Board};
ghost use Rattle.pd_grove.specs.Forest.{IsForest, tree_of, told, StaysAround, HasOther, HasLeafMore, HasBoxLess, HasBoxOther};
ghost use Rattle.pd_grove.specs.Grafts.{AreAlike, HasBoxChanged, HasBoxMore, HasCanvasMore, HasPartMore, LiesInBox, TakesBox};
ghost use Rattle.pd_grove.specs.declared.seeds.Seed.{Seed};
ghost use Rattle.pd_grove.specs.Owning.{board_in};
ghost use Rattle.pd_grove.specs.Telling.{keys_in};
ghost use Rattle.pd_grove.specs.Refits.{Refits};

/// A forest tells a tree, which stands under its keys, and no other tree stands there; each box that lives is a box of it.
pub fn forests_stand()
    ensures told { (g : Grove) → IsForest (get g.nodes) (get g.boards) g.root → (t : Tree) × (tree_of g ≡ Some t) × GroveStands g t.sheet t.boxes }
    ensures once { (g : Grove) (s : Sheet) (t : Trees) → IsForest (get g.nodes) (get g.boards) g.root → GroveStands g s t →
        tree_of g ≡ Some (record { sheet = s; boxes = t }) }
    ensures canvas { (nodes : ℕ → Option Node) (boards : ℕ → Option Board) (root n c : ℕ) (b : Board) (t : Trees) → IsForest nodes boards root →
        boards c ≡ Some b → 257 ≤ n + b.depth → Stands nodes boards c b.depth b.nodes.items t → told nodes boards n c ≡ Some (record { sheet = b.sheet; boxes = t }) }
    ensures all { (g : Grove) (t : Tree) → IsForest (get g.nodes) (get g.boards) g.root → tree_of g ≡ Some t → NodesOf t.boxes (get g.nodes) }
{}

/// Where one canvas tells something else, and what lived outside it stays, the tree is the old one but for that canvas. A root without
/// boxes is a forest. With one box
/// more in a canvas, with a canvas in a box, or with another cell under a box's key a forest is a forest, and its tree changes there alone.
pub fn forests_change()
    ensures tree { (nodes nodes' : ℕ → Option Node) (boards boards' : ℕ → Option Board) (root c n : ℕ) (u u' : Tree) →
        IsForest nodes boards root → StaysAround nodes nodes' boards boards' c → IsSome (boards c) → depth_of (boards c) + n ≡ 257 →
        told nodes boards n c ≡ Some u → told nodes' boards' n c ≡ Some u' → HasOther (told nodes boards 257 root) (told nodes' boards' 257 root) u u' }
    ensures bare { (nodes : ℕ → Option Node) (boards : ℕ → Option Board) (root : ℕ) (b : Board) → ((k : ℕ) → nodes k ≡ None) → boards root ≡ Some b →
        b.holder ≡ None → b.depth ≡ 0 → b.nodes.items ≡ [] → ((c : ℕ) → c ≢ root → boards c ≡ None) → IsForest nodes boards root }
    ensures more { (nodes nodes' : ℕ → Option Node) (boards boards' : ℕ → Option Board) (root c k : ℕ) (n : Node) (before behind : List ℕ) →
        HasBoxMore nodes nodes' boards boards' c k n before behind → IsForest nodes boards root → IsForest nodes' boards' root }
    ensures tree_more { (nodes nodes' : ℕ → Option Node) (boards boards' : ℕ → Option Board) (root c k : ℕ) (n : Node) (before behind : List ℕ) →
        HasBoxMore nodes nodes' boards boards' c k n before behind → IsForest nodes boards root →
        HasLeafMore (told nodes boards 257 root) (told nodes' boards' 257 root) (node_seen n).cell }
    ensures opened { (nodes nodes' : ℕ → Option Node) (boards boards' : ℕ → Option Board) (root k j : ℕ) (n : Node) (b : Board) →
        HasCanvasMore nodes nodes' boards boards' k j n b → IsForest nodes boards root → IsForest nodes' boards' root }
    ensures tree_opened { (nodes nodes' : ℕ → Option Node) (boards boards' : ℕ → Option Board) (root k j : ℕ) (n : Node) (b : Board) →
        HasCanvasMore nodes nodes' boards boards' k j n b → IsForest nodes boards root →
        HasBoxOther (told nodes boards 257 root) (told nodes' boards' 257 root)
        (node_seen n).cell None (node_seen n).cell (Some (record { sheet = b.sheet; boxes = Done })) }
    ensures part { (nodes nodes' : ℕ → Option Node) (boards boards' : ℕ → Option Board) (root c k : ℕ) (before behind : List ℕ) →
        HasPartMore nodes nodes' boards boards' c k before behind → IsForest nodes boards root → IsForest nodes' boards' root }
    ensures part_less { (nodes nodes' : ℕ → Option Node) (boards boards' : ℕ → Option Board) (root c k : ℕ) (n : Node) (before behind : List ℕ) →
        HasPartMore nodes nodes' boards boards' c k before behind → IsForest nodes boards root → nodes' k ≡ Some n →
        TakesBox nodes' nodes boards' boards c k n before behind }
    ensures alike { (nodes nodes' : ℕ → Option Node) (boards boards' : ℕ → Option Board) (root : ℕ) →
        AreAlike nodes nodes' boards boards' → IsForest nodes boards root → IsForest nodes' boards' root }
    ensures tree_refit { (nodes nodes' : ℕ → Option Node) (boards boards' : ℕ → Option Board) (root c k : ℕ) (n n' : Node) →
        HasBoxChanged nodes nodes' boards boards' c k n n' → n'.inner ≡ n.inner → IsForest nodes boards root →
        (u : Option Tree) × HasBoxOther (told nodes boards 257 root) (told nodes' boards' 257 root) (node_seen n).cell u (node_seen n').cell u }
{}

/// Without a box and all that lies in it a forest is a forest, and its tree is the old one without it.
pub fn prunes()
    ensures forest { (nodes nodes' : ℕ → Option Node) (boards boards' : ℕ → Option Board) (root c k : ℕ) (n : Node) (before behind : List ℕ) →
        TakesBox nodes nodes' boards boards' c k n before behind → IsForest nodes boards root → IsForest nodes' boards' root }
    ensures tree { (nodes nodes' : ℕ → Option Node) (boards boards' : ℕ → Option Board) (root c k : ℕ) (n : Node) (before behind : List ℕ) →
        TakesBox nodes nodes' boards boards' c k n before behind → IsForest nodes boards root →
        HasBoxLess (told nodes boards 257 root) (told nodes' boards' 257 root) (node_seen n).cell }
{}

/// Where a box becomes another under its key a forest stays a forest, and what lay neither in the box nor is it stays.
pub fn refits()
    ensures forest { (nodes nodes' : ℕ → Option Node) (boards boards' : ℕ → Option Board) (root c k : ℕ) (n : Node) (before behind : List ℕ) (seeds seeds' : List Seed) →
        Refits nodes nodes' boards boards' c k n before behind seeds seeds' → IsForest nodes boards root → IsForest nodes' boards' root }
    ensures boxes_stay { (nodes nodes' : ℕ → Option Node) (boards boards' : ℕ → Option Board) (c k l x : ℕ) (n : Node) (before behind : List ℕ) (seeds seeds' : List Seed) →
        Refits nodes nodes' boards boards' c k n before behind seeds seeds' → l ≢ k → board_in (nodes l) ≡ Some x → (LiesInBox nodes boards k x → ⊥) → nodes' l ≡ nodes l }
    ensures canvases_stay { (nodes nodes' : ℕ → Option Node) (boards boards' : ℕ → Option Board) (c k x : ℕ) (n : Node) (before behind : List ℕ) (seeds seeds' : List Seed) →
        Refits nodes nodes' boards boards' c k n before behind seeds seeds' → x ≢ c → IsSome (boards x) → (LiesInBox nodes boards k x → ⊥) → boards' x ≡ boards x }
    ensures keys { (nodes nodes' : ℕ → Option Node) (boards boards' : ℕ → Option Board) (c k : ℕ) (n : Node) (before behind : List ℕ) (seeds seeds' : List Seed) →
        Refits nodes nodes' boards boards' c k n before behind seeds seeds' → keys_in (boards' c) ≡ keys_in (boards c) }
{}
