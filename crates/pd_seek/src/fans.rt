//! A wire sought in the fan-out of an outlet.

ghost use Rattle.std.specs.Prelude.{◌≡◌};
ghost use Rattle.pd_web.specs.Hops.{fan_hops};
ghost use Rattle.pd_seek.specs.Places.{leads_to, key_to};

use pd_web::{Hop, Line, Web};
use pd_wire::WireKey;

/// The first wire of the line's outlet that leads to its inlet.
pub fn wire_between(web: &Web, line: Line) -> Option<WireKey>
    ensures { result ≡ key_to line (fan_hops web.now line.source line.outlet) }
{
    web.laws();
    let mut next = web.fan_first(line.source, line.outlet);
    while let Some(hop) = next {
        if leads_along(line, hop) {
            return Some(hop.key());
        }
        next = web.fan_next(hop);
    }
    None
}

/// Whether a wire from the line's outlet leads to its inlet.
fn leads_along(line: Line, hop: Hop) -> bool
    ensures { result ≡ leads_to line hop }
{
    hop.node() == line.sink && hop.port() == line.inlet
}
