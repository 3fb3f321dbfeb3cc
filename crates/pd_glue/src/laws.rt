//! Laws over boxes.

ghost use Rattle.pd_atom.specs.Names.{Names};
ghost use Rattle.pd_clock.specs.declared.times.Rate.{Rate};
ghost use Rattle.pd_object.specs.declared.kinds.Kind.{Kind};
ghost use Rattle.pd_object.specs.Ports.{IsSmallKind};
ghost use Rattle.pd_kind.specs.States.{start_of};
ghost use Rattle.pd_glue.specs.Rows.{HasTexts, IsSmall};

/// What a box of a small kind keeps at first is small, where the atoms of the kind's text are of the table.
pub fn starts_small()
    ensures { (names : Names) (k : Kind) (r : Rate) → IsSmallKind k → HasTexts names k → IsSmall names k (start_of k r) }
{}
