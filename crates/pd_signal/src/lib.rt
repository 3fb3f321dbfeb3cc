//! The signal objects, a block at a time: what each gives from its inlets' samples, and what it keeps then.
//!
//! `run` leaves exactly the state and the blocks of 64 samples of the box's row, for every kind and state; a box of
//! another kind, or whose state is of another, stays as it is. It asks for a block at each signal port, and that
//! rings and blocks that are kept have their sizes, which it keeps. `run_shared` does the same beside a bus or a
//! delay line, `run_table` beside a table. Not here: `phasor~`, `osc~` and `noise~` (`pd_tone`), `vline~`
//! (`pd_vline`), `dac~`, `inlet~` and `outlet~` (`pd_block`).
//!
//! Law: the ring of a `delwrite~` holds the last of all samples that were written, and a `delread~` gives those
//! that begin as far back as it looks (`lines_hold_their_samples`). No call takes memory. The speed is measured:
//! `docs/BENCHMARKS.md`.
//!
//! Definitions: `Rows` and `SharedRows` (the rows), over `Samples`, `Ramps`, `Rings`, `Delays`, `Lines`, `Tables`;
//! `Boxes` (blocks and sizes), `Shorts` helps.
#![tactic(auto)]

ghost use Rattle.std.specs.Prelude.{◌≡◌, ℕ, ℤ, pos, ◌<◌, ◌≤◌, ◌++◌, List, [], length, replicate};
ghost use Rattle.pd_signal.specs.Rings.{written, places_on};
ghost use Rattle.pd_signal.specs.Delays.{way_back, delayed};
ghost use Rattle.pd_clock.specs.declared.times.Rate.{Rate};
ghost use Rattle.pd_kind.specs.declared.tables.Line.{Line};
ghost use Rattle.pd_kind.specs.States.{line_length};
ghost use Rattle.pd_signal.specs.Lines.{Holds, block_back};

mod buses;
mod delays;
mod filters;
mod keepers;
mod maps;
mod operations;
mod pairs;
mod ramps;
mod rows;
mod shared_rows;
mod tables;

pub use rows::run;
pub use shared_rows::{run_shared, run_table};

/// The ring of a `delwrite~` holds the last of all samples that were written. So a `delread~` gives samples of that list: those that begin
/// as far back as it looks.
pub fn lines_hold_their_samples()
    ensures nothing { (n : ℕ) → Holds (replicate n (pos 0)) 0 [] }
    ensures written { (ring all xs : List ℤ) (next : ℕ) → next < length ring → length xs ≤ length ring → Holds ring next all → Holds (written ring next xs) (places_on (length ring) next (length xs)) (all ++ xs) }
    ensures read { (ring all : List ℤ) (line : Line) (rate : Rate) (time : ℤ) → 64 ≤ length ring → line.next < length ring → Holds ring line.next all → delayed ring line rate time ≡ block_back all (way_back (length ring) line.ran (line_length rate time)) }
{}
