//! A wire at a box that becomes another one.

use pd_canvas::Wire;
use pd_web::Line;
use pd_wire::WireKey;

/// A wire by the numbers of its boxes in their canvas, and by their keys, with its own key.
#[derive(Clone, Copy, Debug, PartialEq, Eq)]
pub struct BoxWire {
    pub wire: Wire,
    pub line: Line,
    pub key: WireKey,
}

/// Which wires at a box are meant.
#[derive(Clone, Copy, Debug, PartialEq, Eq)]
pub(crate) enum Fate {
    /// Those that don't fit.
    Goes,
    /// Those that fit, but become signal wires or cease to be such.
    Turns,
}
