//! A law of the growth of made patches.

ghost use Rattle.std.specs.Prelude.{◌≤◌, ℕ, List, Option};
ghost use Rattle.pd_library.specs.declared.answers.Answer.{Answer};
ghost use Rattle.pd_made_growth_law.specs.Grows.{GrowsSmall};

/// A made patch grows, and stays small.
pub fn made_patches_grow()
    ensures { (lib : ℕ → Option Answer) (name : List ℕ) (n : ℕ) → n ≤ 1000 → GrowsSmall lib name n }
{}
