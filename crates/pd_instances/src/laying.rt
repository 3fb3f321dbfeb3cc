//! The wires of a canvas that has come.

ghost use Rattle.std.specs.Prelude.{◌≡◌, ◌≤◌, ◌+◌, ◌*◌, ◌∷◌, [], ℕ, List, true, false, length, slice_index_or};
ghost use Rattle.slab.specs.Slab.{get};
ghost use Rattle.pd_canvas.specs.declared.wires.Wire.{Wire};
ghost use Rattle.pd_links.specs.Linked.{TakesOne};
ghost use Rattle.pd_grove.specs.Owning.{AreOwn};
ghost use Rattle.pd_web.specs.Canvases.{keys_at};
ghost use Rattle.pd_web.specs.Changes.{HasRoom, Joins};
ghost use Rattle.pd_web.specs.Hops.{fan_keys, feed_keys};
ghost use Rattle.pd_web.specs.Jacks.{made_in};
ghost use Rattle.pd_web.specs.Lines.{IsRoute, boxes_in, line_of, lines_at, lines_by, wires_in};
ghost use Rattle.pd_web.specs.Sockets.{made_at};
ghost use Rattle.pd_patch.specs.Numbers.{IsOut};
ghost use Rattle.pd_wiring.specs.Changes.{is_signal_line as is_signal_so};
ghost use Rattle.pd_wiring.specs.Graphs.{AreWired};
ghost use Rattle.pd_instances.specs.Lay.{KeepsRow, LaysLines, LinksOne, TakesWires};

use pd_canvas::Wire;
use pd_grove::Grove;
use pd_links::Links;
use pd_web::{Line, Web};

/// Lays the wires that fit of a canvas that has come, in their order, in the web and, where they carry signals, in the links. No memory is
/// taken.
pub(crate) fn lay_canvas(web: &mut Web, links: &mut Links, grove: &Grove, canvas: u32)
    requires wired { AreWired grove.now web.old links.old }
    requires made { (k : ℕ) → made_at web.old.sockets.items k ≡ made_in (get grove.now.nodes k) }
    requires room { HasRoom web.old 0 (2 * length (wires_in (get grove.now.boards canvas))) (length (wires_in (get grove.now.boards canvas))) }
    requires takes { TakesWires links.old (keys_at grove.now canvas) (wires_in (get grove.now.boards canvas)) }
    ensures lays { LaysLines web.old web.new (lines_at grove.now canvas) }
    ensures wired { AreWired grove.now web.new links.new }
    ensures others { (k : ℕ) → IsOut (keys_at grove.now canvas) k → KeepsRow links.old links.new k }
{
    let wires = wires_of(grove, canvas);
    lay_all(web, links, grove, canvas, wires);
}

/// The wires of the sheet of a canvas.
fn wires_of(grove: &Grove, canvas: u32) -> &[Wire]
    ensures { result.now ≡ wires_in (get grove.now.boards canvas) }
{
    match grove.board(canvas) {
        Some(board) => board.sheet.wires.as_slice(),
        None => &[],
    }
}

/// Lays those of some wires of a canvas that fit.
fn lay_all(web: &mut Web, links: &mut Links, grove: &Grove, canvas: u32, wires: &[Wire])
    requires wired { AreWired grove.now web.old links.old }
    requires made { (k : ℕ) → made_at web.old.sockets.items k ≡ made_in (get grove.now.nodes k) }
    requires room { HasRoom web.old 0 (2 * length wires.now) (length wires.now) }
    requires takes { TakesWires links.old (keys_at grove.now canvas) wires.now }
    ensures lays { LaysLines web.old web.new (lines_by (boxes_in grove.now canvas) (keys_at grove.now canvas) wires.now) }
    ensures wired { AreWired grove.now web.new links.new }
    ensures others { (k : ℕ) → IsOut (keys_at grove.now canvas) k → KeepsRow links.old links.new k }
{
    for wire in wires {
        lay_one(web, links, grove, canvas, wire);
    }
}

/// Lays a wire of a canvas, where it fits.
fn lay_one(web: &mut Web, links: &mut Links, grove: &Grove, canvas: u32, wire: &Wire)
    requires wired { AreWired grove.now web.old links.old }
    requires made { (k : ℕ) → made_at web.old.sockets.items k ≡ made_in (get grove.now.nodes k) }
    requires room { HasRoom web.old 0 2 1 }
    requires takes { TakesWires links.old (keys_at grove.now canvas) (wire.now ∷ []) }
    ensures lays { LaysLines web.old web.new (lines_by (boxes_in grove.now canvas) (keys_at grove.now canvas) (wire.now ∷ [])) }
    ensures wired { AreWired grove.now web.new links.new }
    ensures takes { (ws : List Wire) → TakesWires links.old (keys_at grove.now canvas) (wire.now ∷ ws) → TakesWires links.new (keys_at grove.now canvas) ws }
    ensures others { (k : ℕ) → IsOut (keys_at grove.now canvas) k → KeepsRow links.old links.new k }
{
    if !web.fits(grove, canvas, wire) {
        return;
    }
    let line = line_between(grove, canvas, wire);
    lay_line(web, links, line);
}

/// The line by keys of a wire of a canvas that fits.
fn line_between(grove: &Grove, canvas: u32, wire: &Wire) -> Line
    ensures { result ≡ line_of (keys_at grove.now canvas) wire.now }
{
    Line {
        source: key_at(grove, canvas, wire.source),
        outlet: wire.outlet,
        sink: key_at(grove, canvas, wire.sink),
        inlet: wire.inlet,
    }
}

/// The key of the box of a number of a canvas.
fn key_at(grove: &Grove, canvas: u32, number: u32) -> u32
    ensures { result ≡ slice_index_or (keys_at grove.now canvas) number 0 }
{
    match grove.box_key(canvas, number) {
        Some(key) => key,
        None => 0,
    }
}

/// Lays a wire, last at both of its ports.
fn lay_line(web: &mut Web, links: &mut Links, line: Line)
    requires route { IsRoute web.old.sockets.items line }
    requires room { HasRoom web.old 0 2 1 }
    requires takes { TakesOne links.old line.source line.sink }
    ensures joins { (key : ℕ) × Joins web.old web.new key line (length (fan_keys web.old line.source line.outlet)) (length (feed_keys web.old line.sink line.inlet)) }
    ensures signal { is_signal_so web.old line ≡ true → LinksOne links.old links.new line.source line.sink }
    ensures control { is_signal_so web.old line ≡ false → links.new ≡ links.old }
{
    let signal = is_signal_line(web, line);
    web.join(line, None);
    if !signal {
        return;
    }
    links.add(line.source, line.sink);
}

/// Whether a line leads from an outlet that carries signals to an inlet that does.
fn is_signal_line(web: &Web, line: Line) -> bool
    ensures { result ≡ is_signal_so web.now line }
{
    web.outlet_signal_at(line.source, line.outlet) && web.inlet_signal_at(line.sink, line.inlet)
}
