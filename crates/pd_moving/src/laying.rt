//! Wires put in again at an outlet.

ghost use Rattle.std.specs.Prelude.{◌≡◌, ◌*◌, ◌∷◌, ℕ, [], Some, length, slice_get};
ghost use Rattle.pd_web.specs.Lines.{IsRoute};
ghost use Rattle.pd_web.specs.Changes.{HasRoom, Meet};
ghost use Rattle.pd_moving.specs.Outlets.{Lays, line_at as line_at_outlet};

use pd_seek::feed_place;
use pd_web::{Line, Web};

/// Puts wires in from an outlet along lines that lead to the inlets of these, in their order, each behind the other in the outlet's fan-out.
/// Labels stand under the boxes' keys.
pub fn lay_lines(web: &mut Web, labels: &[u32], node: u32, outlet: u32, lines: &[Line])
    requires routes { (i : ℕ) (l : Line) → slice_get lines.now i ≡ Some l → IsRoute web.old.sockets.items (line_at_outlet node outlet l) }
    requires room { HasRoom web.old 0 (2 * length lines.now) (length lines.now) }
    requires meet { Meet web.old }
    ensures { Lays web.old web.new labels.now node outlet lines.now }
{
    for line in lines {
        lay_line(web, labels, line_at(node, outlet, *line));
    }
}

/// The line from an outlet to the inlet of another line.
fn line_at(node: u32, outlet: u32, line: Line) -> Line
    ensures { result ≡ line_at_outlet node outlet line }
{
    Line {
        source: node,
        outlet,
        sink: line.sink,
        inlet: line.inlet,
    }
}

fn lay_line(web: &mut Web, labels: &[u32], line: Line)
    requires route { IsRoute web.old.sockets.items line }
    requires room { HasRoom web.old 0 2 1 }
    requires meet { Meet web.old }
    ensures { Lays web.old web.new labels.now line.source line.outlet (line ∷ []) }
{
    let next = feed_place(web, labels, line);
    web.join(line, next);
}
