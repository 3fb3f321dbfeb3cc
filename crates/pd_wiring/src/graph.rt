//! The signal wires of one canvas, as the graph that its order asks.

ghost use Rattle.std.specs.Prelude.{◌≡◌};
ghost use Rattle.pd_wiring.specs.Graphs.{lies_in, canvas_graph};

use pd_grove::Grove;
use pd_links::Links;
use pd_order::{SignalGraph, Steps};
use std::sync::ledger::Ledger;

/// The boxes of a canvas, each of the rank of its label, and the signal wires between them. A box of another canvas has
/// no wire here.
#[derive(Clone, Copy)]
pub struct CanvasGraph<'a> {
    pub grove: &'a Grove,
    pub links: &'a Links,
    pub canvas: u32,
}

/// Whether a box lies in the canvas.
fn is_inside(grove: &Grove, canvas: u32, node: u32) -> bool
    ensures { result ≡ lies_in grove.now canvas node }
{
    match grove.node(node) {
        Some(inside) => inside.board == canvas,
        None => false,
    }
}

impl<'a, L: Ledger> SignalGraph<L> for CanvasGraph<'a> {
    ghost meaning = { λ g. canvas_graph g.grove.now g.links.now g.canvas };

    fn rank(&self, node: u32) -> u64 {
        self.grove.label(node)
    }

    fn feeder_count(&self, node: u32, steps: &mut Steps<L>) -> u32 {
        steps.tick();
        if is_inside(self.grove, self.canvas, node) {
            return self.links.feeder_count(node);
        }
        0
    }

    fn feeder(&self, node: u32, i: u32, steps: &mut Steps<L>) -> u32 {
        steps.tick();
        self.links.feeder(node, i)
    }

    fn follower_count(&self, node: u32, steps: &mut Steps<L>) -> u32 {
        steps.tick();
        if is_inside(self.grove, self.canvas, node) {
            return self.links.follower_count(node);
        }
        0
    }

    fn follower(&self, node: u32, i: u32, steps: &mut Steps<L>) -> u32 {
        steps.tick();
        self.links.follower(node, i)
    }
}
