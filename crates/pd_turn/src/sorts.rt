//! How the boxes of a kind run.

ghost use Rattle.std.specs.Prelude.{◌≡◌};
ghost use Rattle.pd_turn.specs.Rows.{signal_manner as manner_by, manner_of as manner_in};

use pd_kind::{Kind, Signal};

/// How a box runs: of its own, beside another box or a table, or as a port of its canvas or of the patch.
#[derive(Clone, Copy, Debug, PartialEq, Eq, Drop)]
pub enum Manner {
    Own,
    Beside,
    Table,
    Dac,
    Inlet,
    Outlet,
    Never,
}

/// How the boxes of a kind run that hold no canvas.
pub fn manner_of(kind: &Kind) -> Manner
    ensures { result ≡ manner_in kind.now }
{
    match kind {
        Kind::Tone(_) | Kind::Vline => Manner::Own,
        Kind::Signal(signal) => signal_manner(signal),
        _ => Manner::Never,
    }
}

fn signal_manner(signal: &Signal) -> Manner
    ensures { result ≡ manner_by signal.now }
{
    match signal {
        Signal::Delread { .. } | Signal::Receive { .. } | Signal::Throw { .. } => Manner::Beside,
        Signal::Tabread { .. } => Manner::Table,
        Signal::Dac { .. } => Manner::Dac,
        Signal::Inlet => Manner::Inlet,
        Signal::Outlet => Manner::Outlet,
        _ => Manner::Own,
    }
}
