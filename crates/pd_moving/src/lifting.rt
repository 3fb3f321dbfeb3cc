//! The wires of an outlet, taken out and noted.

ghost use Rattle.std.specs.Prelude.{◌≡◌, ◌<◌, ◌≤◌, ◌++◌, ◌∷◌, [], length, vec_len, vec_capacity};
ghost use Rattle.pd_web.specs.Hops.{fan_hops};
ghost use Rattle.pd_web.specs.Changes.{Meet};
ghost use Rattle.pd_moving.specs.Outlets.{Lifts, line_ahead, lines_ahead};

use pd_web::{Hop, Line, Web};

/// Takes out all wires of an outlet, and notes along which lines they led, in the order of its fan-out, in a list that has room for them.
pub fn lift_outlet(web: &mut Web, node: u32, outlet: u32, lines: &mut Vec<Line>)
    requires meet { Meet web.old }
    requires empty { lines.old.items ≡ [] }
    requires room { length (fan_hops web.old node outlet) ≤ vec_capacity lines.old }
    ensures lifts { Lifts web.old web.new node outlet }
    ensures lines { lines.new.items ≡ lines_ahead node outlet (fan_hops web.old node outlet) }
{
    let mut next = web.fan_first(node, outlet);
    while let Some(hop) = next {
        note(lines, line_of(node, outlet, hop));
        web.laws();
        web.cut(hop.key());
        next = web.fan_first(node, outlet);
    }
}

/// Along which line a wire of an outlet leads.
fn line_of(node: u32, outlet: u32, hop: Hop) -> Line
    ensures { result ≡ line_ahead node outlet hop }
{
    Line {
        source: node,
        outlet,
        sink: hop.node(),
        inlet: hop.port(),
    }
}

fn note(lines: &mut Vec<Line>, line: Line)
    requires { vec_len lines.old < vec_capacity lines.old }
    ensures told { lines.new.items ≡ lines.old.items ++ line ∷ [] }
    ensures kept { vec_capacity lines.new ≡ vec_capacity lines.old }
{
    lines.push_reserved(line);
}
