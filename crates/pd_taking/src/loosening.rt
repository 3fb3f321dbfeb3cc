//! The wires at a box go.

ghost use Rattle.std.specs.Prelude.{◌≡◌, ℕ, [], length, slice_get};
ghost use Rattle.pd_web.specs.Hops.{ports_told};
ghost use Rattle.pd_web.specs.Changes.{wires_told, Meet};
ghost use Rattle.pd_wiring.specs.Changes.{CanRewire};
ghost use Rattle.pd_taking.specs.Loosening.{hops_at, line_at as line_so, Loosens, LosesWires};

use pd_grove::Side;
use pd_order::Steps;
use pd_patch::Patch;
use pd_web::{Hop, Line, Web};
use pd_wiring::detach;
use std::sync::ledger::Ledger;

/// Takes all wires at a box out, one after the other: those that leave its outlets, and then those that lead to its inlets. `wires` is how
/// many wires there are, and what is given how many there are then. Looks at signal wires are counted in `steps`.
pub fn loosen<L: Ledger>(patch: &mut Patch, key: u32, wires: usize, steps: &mut Steps<L>) -> usize
    requires runs { CanRewire patch.old }
    requires meet { Meet patch.old.web }
    requires counted { wires ≡ wires_told patch.old.web }
    ensures loosens { Loosens patch.old patch.new key steps.old steps.new }
    ensures wires { LosesWires patch.old.web patch.new.web key }
    ensures counted { result ≡ wires_told patch.new.web }
{
    let left = loosen_side(patch, Side::Outlets, key, wires, steps);
    loosen_side(patch, Side::Inlets, key, left, steps)
}

/// Takes all wires at the ports of a side of a box out.
fn loosen_side<L: Ledger>(
    patch: &mut Patch,
    side: Side,
    key: u32,
    wires: usize,
    steps: &mut Steps<L>,
) -> usize
    requires runs { CanRewire patch.old }
    requires meet { Meet patch.old.web }
    requires counted { wires ≡ wires_told patch.old.web }
    ensures loosens { Loosens patch.old patch.new key steps.old steps.new }
    ensures none { (port : ℕ) → hops_at patch.new.web side key port ≡ [] }
    ensures counted { result ≡ wires_told patch.new.web }
{
    let mut left = wires;
    for port in 0..ports_at(&patch.web, side, key) {
        left = loosen_port(patch, side, key, port, left, steps);
    }
    left
}

/// Takes all wires at a port of a box out.
fn loosen_port<L: Ledger>(
    patch: &mut Patch,
    side: Side,
    key: u32,
    port: u32,
    wires: usize,
    steps: &mut Steps<L>,
) -> usize
    requires runs { CanRewire patch.old }
    requires meet { Meet patch.old.web }
    requires counted { wires ≡ wires_told patch.old.web }
    ensures loosens { Loosens patch.old patch.new key steps.old steps.new }
    ensures none { hops_at patch.new.web side key port ≡ [] }
    ensures counted { result ≡ wires_told patch.new.web }
{
    let mut left = wires;
    let mut next = first_at(&patch.web, side, key, port);
    while let Some(hop) = next {
        patch.web.laws();
        detach(patch, line_at(side, key, port, hop), hop.key(), steps);
        left -= 1;
        next = first_at(&patch.web, side, key, port);
    }
    left
}

/// How many ports a box has on a side.
fn ports_at(web: &Web, side: Side, key: u32) -> u32
    ensures { result ≡ length (ports_told web.now side key) }
{
    match side {
        Side::Inlets => web.inlets_at(key),
        Side::Outlets => web.outlets_at(key),
    }
}

/// The first wire at a port of a box.
fn first_at(web: &Web, side: Side, key: u32, port: u32) -> Option<Hop>
    ensures { result ≡ slice_get (hops_at web.now side key port) 0 }
{
    match side {
        Side::Inlets => web.feed_first(key, port),
        Side::Outlets => web.fan_first(key, port),
    }
}

/// Along which line a wire at a port of a box leads.
fn line_at(side: Side, key: u32, port: u32, hop: Hop) -> Line
    ensures { result ≡ line_so side key port hop }
{
    match side {
        Side::Inlets => Line {
            source: hop.node(),
            outlet: hop.port(),
            sink: key,
            inlet: port,
        },
        Side::Outlets => Line {
            source: key,
            outlet: port,
            sink: hop.node(),
            inlet: hop.port(),
        },
    }
}
