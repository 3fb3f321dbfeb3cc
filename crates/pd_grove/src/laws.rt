//! Laws over trees that stand under keys.

ghost use Rattle.std.specs.Prelude.{◌≡◌, ℕ, List, Some};
ghost use Rattle.pd_tree.specs.declared.rows.Sheet.{Sheet};
ghost use Rattle.pd_tree.specs.Trees.{Trees, Tree};
ghost use Rattle.pd_grove.specs.declared.grove.Grove.{Grove};
ghost use Rattle.pd_grove.specs.Standing.{GroveStands};
ghost use Rattle.slab.specs.Slab.{get};
ghost use Rattle.pd_grove.specs.Telling.{reached};
ghost use Rattle.pd_grove.specs.Forest.{IsForest};
ghost use Rattle.pd_grove.specs.Room.{IsSameButRoom};
ghost use Rattle.pd_grove.specs.OwnPaths.{sub_reached, sub_along};
ghost use Rattle.pd_grove.specs.Places.{canvas_along, cell_at, cell_seen, CanvasStands, LeadsTo};

/// The calls that tell a tree tell the tree that stands: a path leads to a key exactly where it leads to a canvas, which stands
/// under that key; and what is seen of a box of a canvas is the box of that number.
pub fn trees_are_told()
    ensures places { (g : Grove) (s : Sheet) (t : Trees) → GroveStands g s t →
        (path : List ℕ) → LeadsTo g (reached g (Some g.root) path) (canvas_along path (record { sheet = s; boxes = t })) }
    ensures own { (g : Grove) (s : Sheet) (t : Trees) → GroveStands g s t →
        (path : List ℕ) → LeadsTo g (sub_reached g (Some g.root) path) (sub_along path (record { sheet = s; boxes = t })) }
    ensures boxes { (g : Grove) (c : ℕ) (u : Tree) → CanvasStands g c u → (n : ℕ) → cell_seen g c n ≡ cell_at n u.boxes }
{}

/// Where room is set aside nothing that is told changes: a forest stays a forest.
pub fn room_changes_nothing()
    ensures { (old new : Grove) → IsSameButRoom old new → IsForest (get old.nodes) (get old.boards) old.root → IsForest (get new.nodes) (get new.boards) new.root }
{}
