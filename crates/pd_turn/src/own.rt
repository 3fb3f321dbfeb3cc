//! Boxes that need nothing of another box.

ghost use Rattle.std.specs.Prelude.{◌≡◌, ◌≤◌, ◌^◌, ◌∷◌, [], ℕ, true, take, length};
ghost use Rattle.pd_kind.specs.States.{silent_block};
ghost use Rattle.pd_turn.specs.Sizes.{ArePorts};
ghost use Rattle.pd_vline.specs.Taken.{CanRun, left_by_run, state_at};
ghost use Rattle.pd_turn.specs.Held.{held_block};
ghost use Rattle.pd_turn.specs.Rows.{is_osc as is_oscillator, own_ran, vline_ran, values_from, ran, signal_ran};

use crate::held::held_in;
use crate::sizes::{Few, is_sized, may_run};
use pd_clock::Time;
use pd_kind::{Kind, State, Tone};
use pd_num::Sig;

/// A box that needs nothing of another box runs for the block that starts at a time. The ports are those of its kind, and its outlet
/// is silent before.
pub fn run_own(
    kind: &Kind,
    few: Few,
    state: &mut State,
    start: Time,
    ins: &[[Sig; 64]; 2],
    outs: &mut [[Sig; 64]; 1],
)
    requires ports { ArePorts kind.now few.inlets few.outlets }
    requires silent { outs.old ≡ silent_block ∷ [] }
    ensures { ran state.new outs.new ≡ own_ran start kind.now state.old (take few.inlets ins.now) }
{
    match kind {
        Kind::Tone(_) => pd_tone::run(kind, state, &ins[..few.inlets], outs),
        Kind::Vline => run_vline(state, start, &mut outs[0]),
        _ => run_signal(kind, few, state, ins, outs),
    }
}

fn run_vline(state: &mut State, start: Time, out: &mut [Sig; 64])
    requires { out.old ≡ silent_block }
    ensures { record { state = state.new; block = out.new } ≡ vline_ran start state.old }
{
    if may_run(state, start) {
        run_ramps(state, start, out);
    }
}

fn run_ramps(state: &mut State, start: Time, out: &mut [Sig; 64])
    requires early { start ≤ 2 ^ 101 }
    requires vline { CanRun start state.old }
    ensures state { state.new ≡ left_by_run start state.old }
    ensures samples { out.new ≡ values_from (state_at state.old) start }
{
    pd_vline::run(state, start, out);
    is_whole(out);
}

/// A block has 64 values.
fn is_whole(block: &[Sig; 64])
    ensures { length block.now ≡ 64 }
{
    let _first = &block[0];
}

fn run_signal(
    kind: &Kind,
    few: Few,
    state: &mut State,
    ins: &[[Sig; 64]; 2],
    outs: &mut [[Sig; 64]; 1],
)
    requires ports { ArePorts kind.now few.inlets few.outlets }
    requires silent { outs.old ≡ silent_block ∷ [] }
    ensures { ran state.new outs.new ≡ signal_ran kind.now state.old (take few.inlets ins.now) }
{
    if is_sized(state) {
        let ins = &ins[..few.inlets];
        pd_signal::run(kind, state, ins, &mut outs[..few.outlets]);
    }
}

/// Whether boxes of a kind are `osc~`.
pub fn is_osc(kind: &Kind) -> bool
    ensures { result ≡ is_oscillator kind.now }
{
    matches!(kind, Kind::Tone(Tone::Osc { .. }))
}

/// An `osc~` that no wire feeds runs for a block, whenever that starts: its frequency is the number that its inlet holds, which
/// isn't written into each sample of a block first. Its outlet is silent before.
pub fn run_unfed(kind: &Kind, state: &mut State, outs: &mut [[Sig; 64]; 1])
    requires osc { is_oscillator kind.now ≡ true }
    requires silent { outs.old ≡ silent_block ∷ [] }
    ensures { (start : ℕ) → ran state.new outs.new ≡ own_ran start kind.now state.old (held_block state.old ∷ []) }
{
    let step = Sig::of_num(held_in(state, 0));
    pd_tone::run_steady(kind, state, step, outs);
}
