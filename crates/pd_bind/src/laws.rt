//! Laws over the owners of names.

ghost use Rattle.std.specs.Prelude.{◌≤◌};
ghost use Rattle.pd_atom.specs.Names.{Names};
ghost use Rattle.pd_tree.specs.declared.rows.Sheet.{Sheet};
ghost use Rattle.pd_tree.specs.Trees.{Trees};
ghost use Rattle.pd_grove.specs.declared.grove.Grove.{Grove};
ghost use Rattle.pd_grove.specs.Standing.{GroveStands};
ghost use Rattle.pd_grove.specs.TextOrder.{deep};
ghost use Rattle.pd_bind.specs.Owning.{OwnersAreOfTheTree};

/// The boxes that own a name are those of the tree that stands, in text order.
pub fn owners_are_of_the_tree()
    ensures { (names : Names) (g : Grove) (s : Sheet) (t : Trees) → GroveStands g s t → deep t ≤ 256 → OwnersAreOfTheTree names g t }
{}
