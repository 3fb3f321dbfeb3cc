//! Boxes that look at another box's values: `receive~`, `throw~` and `delread~`.

ghost use Rattle.std.specs.Prelude.{◌≡◌, ◌∷◌, [], take};
ghost use Rattle.pd_kind.specs.States.{silent_block};
ghost use Rattle.pd_turn.specs.Sizes.{ArePorts};
ghost use Rattle.pd_turn.specs.Rows.{ran};
ghost use Rattle.pd_turn.specs.Pairs.{no_line, line_at, ran_alone, by_values, pair_of};

use crate::sizes::{Few, is_fitting};
use pd_kind::{Kind, Line, State};
use pd_num::Sig;

/// A box runs beside another one, whose values it reads or adds to. The ports are those of its kind, and its outlet is silent before.
pub fn run_pair(
    kind: &Kind,
    few: Few,
    state: &mut State,
    other: &mut State,
    ins: &[[Sig; 64]; 2],
    outs: &mut [[Sig; 64]; 1],
)
    requires ports { ArePorts kind.now few.inlets few.outlets }
    requires silent { outs.old ≡ silent_block ∷ [] }
    ensures { record { ran = ran state.new outs.new; other = other.new } ≡ pair_of kind.now state.old (take few.inlets ins.now) other.old }
{
    let line = line_of(other);
    match other.shared() {
        Some(values) => run_shared(kind, few, state, values.as_mut_slice(), line, ins, outs),
        None => run_silent(kind, few, state, line, ins, outs),
    }
}

fn run_shared(
    kind: &Kind,
    few: Few,
    state: &mut State,
    values: &mut [Sig],
    line: Line,
    ins: &[[Sig; 64]; 2],
    outs: &mut [[Sig; 64]; 1],
)
    requires ports { ArePorts kind.now few.inlets few.outlets }
    requires silent { outs.old ≡ silent_block ∷ [] }
    ensures { record { ran = ran state.new outs.new; values = values.new } ≡ by_values kind.now state.old (take few.inlets ins.now) line values.old }
{
    if is_fitting(kind, values.len(), line) {
        let ins = &ins[..few.inlets];
        pd_signal::run_shared(kind, state, ins, values, line, &mut outs[..few.outlets]);
    } else {
        run_silent(kind, few, state, line, ins, outs);
    }
}

/// A box runs without another one, as if a delay line were so far. The ports are those of its kind, and its outlet is silent before.
pub fn run_silent(
    kind: &Kind,
    few: Few,
    state: &mut State,
    line: Line,
    ins: &[[Sig; 64]; 2],
    outs: &mut [[Sig; 64]; 1],
)
    requires ports { ArePorts kind.now few.inlets few.outlets }
    requires silent { outs.old ≡ silent_block ∷ [] }
    ensures { ran state.new outs.new ≡ ran_alone kind.now state.old (take few.inlets ins.now) line }
{
    let ins = &ins[..few.inlets];
    pd_signal::run_shared(kind, state, ins, &mut [], line, &mut outs[..few.outlets]);
}

/// How far a delay line is; at its start for other boxes.
fn line_of(state: &State) -> Line
    ensures { result ≡ line_at state.now }
{
    match state.delay_line() {
        Some(line) => line,
        None => start_line(),
    }
}

/// The start of a delay line.
pub fn start_line() -> Line
    ensures { result ≡ no_line }
{
    Line {
        next: 0,
        ran: false,
    }
}
