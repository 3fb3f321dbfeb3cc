//! Laws over the owners of names where boxes come, go or become others.

ghost use Rattle.std.specs.Prelude.{◌≡◌, ℕ, ℤ, List, [], ◌∷◌, Option, Some, None, IsSome, slice_get};
ghost use Rattle.slab.specs.Slab.{get};
ghost use Rattle.pd_atom.specs.declared.Atom.{Atom};
ghost use Rattle.pd_atom.specs.Names.{Names};
ghost use Rattle.pd_name.specs.declared.Class.{Class};
ghost use Rattle.pd_grove.specs.declared.nodes.Node.{Node};
ghost use Rattle.pd_grove.specs.declared.boards.Board.{Board};
ghost use Rattle.pd_grove.specs.declared.grove.Grove.{Grove};
ghost use Rattle.pd_grove.specs.declared.spots.Spot.{Spot};
ghost use Rattle.pd_grove.specs.Telling.{inner_in};
ghost use Rattle.pd_grove.specs.Forest.{IsForest};
ghost use Rattle.pd_grove.specs.Grafts.{TakesBox};
ghost use Rattle.pd_grove.specs.Refits.{Alters, at_place, with_text};
ghost use Rattle.pd_grove.specs.TextOrder.{spots_in_order, keys_of_spots};
ghost use Rattle.pd_bind.specs.Owning.{root_owner, owners_in};
ghost use Rattle.pd_owning.specs.Bound.{but};
ghost use Rattle.pd_owning.specs.Parts.{ArePart, part_spots};

/// Where a box goes with all that lies in it, the owners of each name are those that they were but for these boxes; so
/// where it comes, they are those that they were as long as these boxes aren't bound. Where a box gets another text or
/// place, they are those that they were but for this box. But for no box they are all.
pub fn owners_follow_boxes()
    ensures less { (old new : Grove) (c k : ℕ) (n : Node) (before behind away : List ℕ) → IsForest (get old.nodes) (get old.boards) old.root → get old.nodes root_owner ≡ None →
        new.root ≡ old.root → TakesBox (get old.nodes) (get new.nodes) (get old.boards) (get new.boards) c k n before behind → ArePart (get old.nodes) (get old.boards) k away →
        (table : Names) (file : List ℕ) (class : Class) (name : ℕ) → but away (owners_in table file old class name) ≡ owners_in table file new class name }
    ensures text { (old new : Grove) (k : ℕ) (written text : List Atom) → Alters old new k (with_text written text) →
        (table : Names) (file away : List ℕ) (class : Class) (name : ℕ) → but (k ∷ away) (owners_in table file new class name) ≡ but (k ∷ away) (owners_in table file old class name) }
    ensures place { (old new : Grove) (k : ℕ) (x y : ℤ) → Alters old new k (at_place x y) →
        (table : Names) (file away : List ℕ) (class : Class) (name : ℕ) → but (k ∷ away) (owners_in table file new class name) ≡ but (k ∷ away) (owners_in table file old class name) }
    ensures all { (keys : List ℕ) → but [] keys ≡ keys }
{}

/// A box with all that lies in it is told in text order: each of these boxes stands in the order of the whole text, and
/// stands once. A box that holds no canvas is alone.
pub fn parts_are_told()
    ensures part { (nodes : ℕ → Option Node) (boards : ℕ → Option Board) (root : ℕ) (p : Spot) → IsForest nodes boards root → IsSome (nodes p.node) →
        ArePart nodes boards p.node (keys_of_spots (part_spots nodes boards p)) }
    ensures stand { (g : Grove) (p q : Spot) (i j : ℕ) → IsForest (get g.nodes) (get g.boards) g.root → slice_get (spots_in_order g) i ≡ Some p →
        slice_get (part_spots (get g.nodes) (get g.boards) p) j ≡ Some q → (m : ℕ) × (slice_get (spots_in_order g) m ≡ Some q) }
    ensures once { (g : Grove) (p x y : Spot) (i j m : ℕ) → IsForest (get g.nodes) (get g.boards) g.root → slice_get (spots_in_order g) i ≡ Some p →
        slice_get (part_spots (get g.nodes) (get g.boards) p) j ≡ Some x → slice_get (part_spots (get g.nodes) (get g.boards) p) m ≡ Some y → x.node ≡ y.node → j ≡ m }
    ensures alone { (nodes : ℕ → Option Node) (boards : ℕ → Option Board) (root k : ℕ) → IsForest nodes boards root → inner_in (nodes k) ≡ None → ArePart nodes boards k (k ∷ []) }
{}
