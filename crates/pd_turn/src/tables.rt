//! `tabread~`.

ghost use Rattle.std.specs.Prelude.{◌≡◌, ◌∷◌, [], take};
ghost use Rattle.pd_kind.specs.States.{silent_block};
ghost use Rattle.pd_turn.specs.Sizes.{ArePorts};
ghost use Rattle.pd_turn.specs.Rows.{ran, table_ran, table_name as name_of_table};

use crate::sizes::Few;
use pd_atom::Sym;
use pd_kind::{Kind, Signal, State};
use pd_num::{Num, Sig};

/// A box runs beside a table. The ports are those of its kind, and its outlet is silent before.
pub fn run_table(
    kind: &Kind,
    few: Few,
    state: &mut State,
    table: &[Num],
    ins: &[[Sig; 64]; 2],
    outs: &mut [[Sig; 64]; 1],
)
    requires ports { ArePorts kind.now few.inlets few.outlets }
    requires silent { outs.old ≡ silent_block ∷ [] }
    ensures { ran state.new outs.new ≡ table_ran kind.now state.old (take few.inlets ins.now) table.now }
{
    let ins = &ins[..few.inlets];
    pd_signal::run_table(kind, state, ins, table, &mut outs[..few.outlets]);
}

/// The name of the table that a `tabread~` reads; `None` where it names none, and for other boxes.
pub fn table_name(kind: &Kind) -> Option<Sym>
    ensures { result ≡ name_of_table kind.now }
{
    match kind {
        Kind::Signal(Signal::Tabread { name }) => *name,
        _ => None,
    }
}
