//! The rows of the signal objects.

ghost use Rattle.std.specs.Prelude.{◌≡◌};
ghost use Rattle.pd_glue.specs.Rows.{tone_row as row_of_tone, signal_row as row_of_signal};

use pd_kind::{Signal, SignalRow, Tone};

pub(crate) fn tone_row(tone: &Tone) -> SignalRow
    ensures { result ≡ row_of_tone tone.now }
{
    match tone {
        Tone::Phasor { .. } => SignalRow::Phasor,
        Tone::Osc { .. } => SignalRow::Osc,
        Tone::Noise => SignalRow::Noise,
    }
}

pub(crate) fn signal_row(signal: &Signal) -> SignalRow
    ensures { result ≡ row_of_signal signal.now }
{
    match signal {
        Signal::Sig { .. } => SignalRow::Sig,
        Signal::Operation { .. } => SignalRow::SignalOperation,
        Signal::Function { .. } => SignalRow::SignalFunction,
        Signal::Clip { .. } => SignalRow::SignalClip,
        Signal::Line => SignalRow::Line,
        Signal::Samphold => SignalRow::Samphold,
        Signal::Lop { .. } => SignalRow::Lop,
        Signal::Hip { .. } => SignalRow::Hip,
        Signal::Delwrite { .. } => SignalRow::Delwrite,
        Signal::Delread { .. } => SignalRow::Delread,
        Signal::Send { .. } => SignalRow::SignalSend,
        Signal::Receive { .. } => SignalRow::SignalReceive,
        Signal::Throw { .. } => SignalRow::Throw,
        Signal::Catch { .. } => SignalRow::Catch,
        Signal::Snapshot => SignalRow::Snapshot,
        Signal::Tabread { .. } => SignalRow::SignalTabread,
        Signal::Dac { .. } => SignalRow::Dac,
        Signal::Inlet => SignalRow::SignalInlet,
        Signal::Outlet => SignalRow::SignalOutlet,
    }
}
