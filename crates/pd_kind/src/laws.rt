//! Laws over states and kinds.
ghost use Rattle.std.specs.Prelude.{ℕ, ℤ, ◌≡◌, List, length, IfSome};
ghost use Rattle.pd_clock.specs.declared.times.Rate.{Rate};
ghost use Rattle.pd_object.specs.declared.kinds.Kind.{Kind};
ghost use Rattle.pd_kind.specs.declared.states.State.{State};
ghost use Rattle.pd_object.specs.Ports.{IsSmallKind};
ghost use Rattle.pd_kind.specs.States.{start_of};
ghost use Rattle.pd_kind.specs.Tables.{with_value, started, shared_of, with_shared, block_begun};
ghost use Rattle.pd_kind.specs.Fit.{IsOfKind, IsLike};

/// What a box keeps when it is made is of its kind.
pub fn fresh_fits()
    ensures { (k : Kind) (rate : Rate) → IsSmallKind k → IsOfKind k (start_of k rate) }
{}

/// A state that is like one of a kind is of that kind.
pub fn likes_fit()
    ensures { (k : Kind) (s t : State) → IsOfKind k s → IsLike s t → IsOfKind k t }
{}

/// What reaches into a state from outside keeps it of its kind, where a loan leaves as many values as it lent.
pub fn reached_fits()
    ensures written { (k : Kind) (s : State) (i : ℕ) (z : ℤ) → IsOfKind k s → IsOfKind k (with_value s i z) }
    ensures started { (k : Kind) (s : State) (now : ℕ) → IsOfKind k s → IsOfKind k (started s now) }
    ensures shared { (k : Kind) (s : State) (left : List ℤ) → IfSome (shared_of s) (λ values. length left ≡ length values) →
        IsOfKind k s → IsOfKind k (with_shared s left) }
    ensures begun { (k : Kind) (s : State) → IsOfKind k s → IsOfKind k (block_begun s) }
{}
