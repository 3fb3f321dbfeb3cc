//! What holds of feeds, and of what an edit of wires asks of a patch, for proofs of callers.

ghost use Rattle.std.specs.Prelude.{ℕ, List};
ghost use Rattle.std.specs.List.{insert};
ghost use Rattle.pd_atom.specs.Names.{Names};
ghost use Rattle.pd_clock.specs.declared.times.Rate.{Rate};
ghost use Rattle.pd_web.specs.declared.lines.Line.{Line};
ghost use Rattle.pd_web.specs.declared.web.Hop.{Hop};
ghost use Rattle.pd_web.specs.Changes.{hop_at, without_hop};
ghost use Rattle.pd_seek.specs.Places.{IsPlace, AreInOrder};
ghost use Rattle.pd_patch.specs.declared.patch.Patch.{Patch};
ghost use Rattle.pd_patch.specs.Built.{IsBuilt};
ghost use Rattle.pd_wiring.specs.Changes.{CanRewire, AreAlike};

/// Does nothing. Its contract is that feeds which are in the order of their boxes and outlets still are with one more
/// at its place, and without one.
pub fn feeds_stay_in_order()
    ensures more { (labels : List ℕ) (l : Line) (key : ℕ) (feeds : List Hop) (place : ℕ) → AreInOrder labels feeds → IsPlace labels l feeds place → AreInOrder labels (insert feeds place (hop_at key l.source l.outlet)) }
    ensures less { (labels : List ℕ) (key : ℕ) (feeds : List Hop) → AreInOrder labels feeds → AreInOrder labels (without_hop key feeds) }
{}

/// Does nothing. Its contract is that what an edit of wires asks of a patch doesn't hang on what the boxes keep, nor on
/// names, clocks or blocks.
pub fn rewiring_asks_alike()
    ensures { (p q : Patch) → AreAlike p q → CanRewire p → CanRewire q }
{}

/// Does nothing. Its contract is that a patch that runs has all that an edit of wires asks.
pub fn patches_that_run_rewire()
    ensures { (p : Patch) (names : Names) (file : List ℕ) (rate : Rate) → IsBuilt p names file rate → CanRewire p }
{}
