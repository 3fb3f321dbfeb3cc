//! The signal order of a canvas: in which order the boxes of a graph run, made from nothing or mended after a
//! change.
//!
//! The chain appends the box of least rank whose feeders are all listed, until there is none; the rest, by rank, is
//! stuck. `fold` gives exactly that, in at most `4*(n+m) + 8` looks at n boxes with m wire ends. After one wire is
//! added or cut, `mend_add` and `mend_cut` give from the lists of the old graph exactly those of the new one, in at
//! most `4*(w+e) + 4*d + 8` looks: w places from the first to the last difference of the two chains, e wire ends at
//! the boxes there and at those they feed, d at the fed box. `insert_alone` and `remove_alone` do so for a box
//! without wires, and `append_alone` for one of the highest rank, which stands last and takes no look. The graph is
//! a trait, `SignalGraph`, whose calls are counted by `Steps`. After `reserve`, or `reserve_more` for boxes that
//! come one at a time, nothing can fail.
//!
//! Laws: a graph has one order (`one_order`), and graphs that are alike have alike orders (`same_order`). The folds
//! of two graphs that differ by one wire agree up to the first place at which one picks the fed box and the other
//! doesn't, and again from where both have listed the same boxes (`folds_meet`).
//!
//! Only tested: that a second count of the looks stays within the bound, that a cut takes no look where a box of
//! higher rank stands between its source and the fed box, within 64 places before that one, and that a cut and an
//! add that move a box take as many looks beside ten other wires into it as beside two.
//!
//! Definitions: `Graph` (the order), `Window` (what a change touches), `Laws`; the others are of the lists inside.
#![tactic(auto)]

mod alone;
mod feeders;
mod fold;
mod heap;
mod laws;
mod mend;
mod order;
mod rework;
mod settle;
mod spots;
mod steps;
mod turns;
mod work;

ghost use Rattle.std.specs.Prelude.{◌≡◌, ◌+◌, ◌<◌, length, slice_index};
ghost use Rattle.pd_order.specs.Graph.{Graph};

pub use laws::{folds_meet, one_order, same_order};
pub use order::Order;
pub use spots::Spot;
use std::sync::ledger::Ledger;
pub use steps::Steps;

/// A graph of nodes that wires join, as an order asks for it. `meaning` is that graph.
///
/// A wire counts among the feeders of its sink and among the followers of its source, as often as it is there. Calls
/// of all methods but `rank` are counted, each as one step.
pub trait SignalGraph<L: Ledger> {
    ghost meaning: { Self → Graph };

    /// The nodes that are ready run in the order of their ranks, the least first.
    fn rank(&self, node: u32) -> u64
        ensures { result ≡ (meaning self.now).rank node };

    /// How many wires lead into the node.
    fn feeder_count(&self, node: u32, steps: &mut Steps<L>) -> u32
        ensures count { result ≡ length ((meaning self.now).feeders node) }
        ensures step { steps.new ≡ steps.old + 1 };

    /// Where the i-th of the wires into the node comes from, counted from 0.
    fn feeder(&self, node: u32, i: u32, steps: &mut Steps<L>) -> u32
        requires { i < length ((meaning self.now).feeders node) }
        ensures item { result ≡ slice_index ((meaning self.now).feeders node) i }
        ensures step { steps.new ≡ steps.old + 1 };

    /// How many wires lead out of the node.
    fn follower_count(&self, node: u32, steps: &mut Steps<L>) -> u32
        ensures count { result ≡ length ((meaning self.now).followers node) }
        ensures step { steps.new ≡ steps.old + 1 };

    /// Where the i-th of the wires out of the node leads, counted from 0.
    fn follower(&self, node: u32, i: u32, steps: &mut Steps<L>) -> u32
        requires { i < length ((meaning self.now).followers node) }
        ensures item { result ≡ slice_index ((meaning self.now).followers node) i }
        ensures step { steps.new ≡ steps.old + 1 };
}
