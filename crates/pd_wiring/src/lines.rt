//! Whether a wire is a signal wire.

ghost use Rattle.std.specs.Prelude.{◌≡◌};
ghost use Rattle.pd_wiring.specs.Changes.{is_signal_line as is_signal_so};

use pd_web::{Line, Web};

/// Whether a line leads from an outlet that carries signals to an inlet that does.
pub(crate) fn is_signal_line(web: &Web, line: Line) -> bool
    ensures { result ≡ is_signal_so web.now line }
{
    web.outlet_signal_at(line.source, line.outlet) && web.inlet_signal_at(line.sink, line.inlet)
}
