//! What growth has left to give.

ghost use Rattle.std.specs.Prelude.{◌≡◌, ◌≤◌, IfOk};
ghost use Rattle.pd_atom.specs.Names.{Names};
ghost use Rattle.pd_growth.specs.Steps.{counted, numbered, beginning};
ghost use Rattle.pd_growth.specs.Growing.{stock, Answers};

use crate::growing::Stop;

/// How many boxes a patch may have.
const MOST_BOXES: u32 = 16_384;

/// The greatest `$0`.
const GREATEST_ZERO: u32 = 1_000_000_000;

/// The `$0` numbers still to be given, from `next_zero` on, and how many boxes there may still be.
#[derive(Clone, Copy, Debug)]
pub struct Supply {
    pub next_zero: u32,
    pub room: u32,
}

impl Supply {
    /// All boxes, and the `$0` numbers from this one on.
    pub fn new(first_zero: u32) -> Supply
        ensures { (names : Names) → stock names result ≡ beginning names first_zero }
    {
        Supply {
            next_zero: first_zero,
            room: MOST_BOXES,
        }
    }

    /// Takes a box.
    #[tactic(auto, using(crate::proofs::SupplyLemmas::supply_steps))]
    pub fn count(&mut self) -> Result<(), Stop>
        ensures { (names : Names) → Answers (λ u. u) result (stock names self.new) (counted (stock names self.old)) }
    {
        if self.room == 0 {
            return Err(Stop::TooManyBoxes);
        }
        self.room -= 1;
        Ok(())
    }

    /// Takes a `$0`.
    #[tactic(auto, using(crate::proofs::SupplyLemmas::supply_steps))]
    pub fn number(&mut self) -> Result<u32, Stop>
        ensures exact { (names : Names) → Answers (λ z. z) result (stock names self.new) (numbered (stock names self.old)) }
        ensures small { IfOk result (λ z. z ≤ 1000000000) }
    {
        let zero = self.next_zero;
        if zero > GREATEST_ZERO {
            return Err(Stop::TooManyBoxes);
        }
        self.next_zero = zero + 1;
        Ok(zero)
    }
}
