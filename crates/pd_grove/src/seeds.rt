//! Boxes that are ready to be planted: all that they will need is there.

ghost use Rattle.std.specs.Prelude.{◌≡◌, ◌∷◌, [], MatchOption, IfOk};
ghost use Rattle.pd_object.specs.Ports.{IsSmallKind};
ghost use Rattle.pd_tree.specs.Trees.{stands_in};
ghost use Rattle.pd_grove.specs.Planting.{seeds_in, stands_ready, IsRoomy, AreRoomy};
ghost use Rattle.pd_grove.specs.States.{AreSmall, IsFresh, AreFresh, SeedsSmall};

use pd_clock::{Rate, Time};
use pd_kind::State;
use pd_tree::Row;
use std::alloc::{AllocError, Global};
use std::collections::VecDeque;

/// A box with its first state, and a list with room for the boxes of the canvas that it holds.
#[derive(Debug, Drop)]
pub struct Seed {
    pub row: Row,
    pub state: State,
    pub room: Vec<u32>,
}

/// Seeds in text order.
#[derive(Drop)]
pub struct Seeds {
    items: VecDeque<Seed>,
}

impl Seeds {
    /// Makes boxes ready: each with its first state, in which a `timer` is reset at `now`.
    ///
    /// # Errors
    ///
    /// `AllocError` where memory ran out.
    pub fn prepare(
        alloc: Global,
        rows: Vec<Row>,
        rate: Rate,
        now: Time,
    ) -> Result<Seeds, AllocError>
        requires { AreSmall rows.items }
        ensures ready { IfOk result (λ seeds. stands_ready (seeds_in seeds) ≡ stands_in rows.items) }
        ensures roomy { IfOk result (λ seeds. AreRoomy (seeds_in seeds)) }
        ensures fresh { IfOk result (λ seeds. AreFresh rate now (seeds_in seeds)) }
        ensures small { IfOk result (λ seeds. SeedsSmall (seeds_in seeds)) }
    {
        let mut rows = VecDeque::from_vec(rows);
        let mut items = VecDeque::with_capacity(alloc, rows.len())?;
        while let Some(row) = rows.pop_front() {
            items.push_back(ready(alloc, row, rate, now)?)?;
        }
        Ok(Seeds { items })
    }

    /// Takes the first one.
    pub fn next(&mut self) -> Option<Seed>
        ensures { MatchOption result ((seeds_in self.old ≡ []) × (seeds_in self.new ≡ [])) (λ seed. seeds_in self.old ≡ seed ∷ seeds_in self.new) }
    {
        self.items.pop_front()
    }
}

/// A box made ready.
fn ready(alloc: Global, row: Row, rate: Rate, now: Time) -> Result<Seed, AllocError>
    requires { IsSmallKind row.kind }
    ensures stand { IfOk result (λ seed. seed.row ≡ row) }
    ensures roomy { IfOk result IsRoomy }
    ensures fresh { IfOk result (IsFresh rate now) }
    ensures small { IfOk result (λ seed. IsSmallKind seed.row.kind) }
{
    let mut state = State::fresh(alloc, &row.kind, rate)?;
    state.start(now);
    let room = Vec::with_capacity(alloc, row.boxes as usize)?;
    Ok(Seed { row, state, room })
}
