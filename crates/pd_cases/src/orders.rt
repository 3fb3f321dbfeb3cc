//! An order of signal nodes that wires come to and go from.

ghost use Rattle.std.specs.Prelude.{◌≡◌, ℕ, ◌+◌, ◌<◌, ◌≤◌, length, slice_index, IfOk, IfSome, vec_len};
ghost use Rattle.pd_order.specs.Graph.{tally};
ghost use Rattle.pd_order.specs.Wired.{ends_at, wired, numbers_below, OrdersWires};

use crate::case::first_word;
use anyhow::{Result, bail, ensure};
use pd_order::{Order, SignalGraph, Steps};
use std::alloc::{AllocError, Global};
use std::cell::Cell;
use std::fmt::Write;
use std::marker::Brand;
use std::sync::ledger::{Blank, Ledger};

/// A graph has at most so many nodes.
const MOST: u32 = 8;

/// A graph over its list of wires. It counts the looks at them.
#[derive(Drop)]
struct Wires {
    nodes: u32,
    sources: Vec<u32>,
    sinks: Vec<u32>,
    looks: Cell<u32>,
    ghost paired: { vec_len sources ≡ vec_len sinks },
    ghost few: { vec_len sources < 4294967295 },
    ghost sources_below: { (u : ℕ) → 0 < tally u sources.items → u < nodes },
    ghost sinks_below: { (u : ℕ) → 0 < tally u sinks.items → u < nodes },
}

/// How many wires have their near end at the node.
fn count_ends(near: &[u32], far: &[u32], node: u32) -> u32
    requires paired { length near.now ≡ length far.now }
    requires few { length near.now < 4294967295 }
    ensures { result ≡ length (ends_at near.now far.now node) }
{
    let mut count = 0;
    for i in 0..near.len() {
        count += u32::from(near[i] == node);
    }
    count
}

/// The far end of the i-th of those.
fn end_at(near: &[u32], far: &[u32], node: u32, i: u32) -> u32
    requires paired { length near.now ≡ length far.now }
    requires there { i < length (ends_at near.now far.now node) }
    ensures { result ≡ slice_index (ends_at near.now far.now node) i }
{
    let mut left = i;
    for k in 0..near.len() {
        if near[k] == node {
            if left == 0 {
                return far[k];
            }
            left -= 1;
        }
    }
    0
}

/// A wire: the numbers of its source and of its sink, which are below `nodes`.
fn wire_of(text: &str, nodes: u32) -> Option<(u32, u32)>
    ensures source { IfSome result (λ w. w.0 < nodes) }
    ensures sink { IfSome result (λ w. w.1 < nodes) }
{
    let (source, sink) = first_word(text);
    let source = source.parse().ok()?;
    let sink = sink.parse().ok()?;
    if source < nodes && sink < nodes {
        Some((source, sink))
    } else {
        None
    }
}

impl Wires {
    fn look<L: Ledger>(&self, steps: &mut Steps<L>)
        ensures { steps.new ≡ steps.old + 1 }
    {
        self.looks.set(self.looks.get().wrapping_add(1));
        steps.tick();
    }

    /// The graph of wires with commas between them.
    fn new(alloc: Global, nodes: u32, text: &str) -> Result<Wires> {
        let mut sources = Vec::new(alloc);
        let mut sinks = Vec::new(alloc);
        for wire in text.split(", ").filter(|wire| !wire.is_empty()) {
            let Some((source, sink)) = wire_of(wire, nodes) else {
                bail!("no wire: {wire}");
            };
            ensure!(sources.len() < 1000, "too many wires");
            sources.push(source)?;
            sinks.push(sink)?;
        }
        Ok(Wires {
            nodes,
            sources,
            sinks,
            looks: Cell::new(0),
        })
    }
}

impl<L: Ledger> SignalGraph<L> for Wires {
    ghost meaning = { λ w. wired w.sources.items w.sinks.items };

    fn rank(&self, node: u32) -> u64 {
        u64::from(node)
    }

    fn feeder_count(&self, node: u32, steps: &mut Steps<L>) -> u32 {
        self.look(steps);
        count_ends(self.sinks.as_slice(), self.sources.as_slice(), node)
    }

    fn feeder(&self, node: u32, i: u32, steps: &mut Steps<L>) -> u32 {
        self.look(steps);
        end_at(self.sinks.as_slice(), self.sources.as_slice(), node, i)
    }

    fn follower_count(&self, node: u32, steps: &mut Steps<L>) -> u32 {
        self.look(steps);
        count_ends(self.sources.as_slice(), self.sinks.as_slice(), node)
    }

    fn follower(&self, node: u32, i: u32, steps: &mut Steps<L>) -> u32 {
        self.look(steps);
        end_at(self.sources.as_slice(), self.sinks.as_slice(), node, i)
    }
}

/// The numbers from 0 to before `count`.
fn numbers(alloc: Global, count: u32) -> Result<Vec<u32>, AllocError>
    ensures { IfOk result (λ made. made.items ≡ numbers_below count) }
{
    let mut made = Vec::new(alloc);
    for number in 0..count {
        made.push(number)?;
    }
    Ok(made)
}

/// A graph's order from nothing.
fn folded<L: Ledger>(alloc: Global, graph: &Wires, steps: &mut Steps<L>) -> Result<Order>
    ensures { IfOk result (λ made. OrdersWires graph.now.sources.items graph.now.sinks.items graph.now.nodes made) }
{
    ensure!(graph.nodes <= MOST, "too many nodes");
    let nodes = numbers(alloc, graph.nodes)?;
    let mut order = Order::new(alloc)?;
    order.reserve(MOST)?;
    order.fold(graph, nodes.as_slice(), steps);
    Ok(order)
}

/// A wire comes last.
fn add<L: Ledger>(
    order: &mut Order,
    mut graph: Wires,
    wire: &str,
    steps: &mut Steps<L>,
) -> Result<Wires>
    requires { OrdersWires graph.sources.items graph.sinks.items graph.nodes order.old }
    ensures { IfOk result (λ now. OrdersWires now.sources.items now.sinks.items now.nodes order.new) }
{
    let Some((source, sink)) = wire_of(wire, graph.nodes) else {
        bail!("no wire: {wire}");
    };
    ensure!(graph.sources.len() < 1000, "too many wires");
    graph.sources.push(source)?;
    graph.sinks.push(sink)?;
    order.mend_add(&graph, source, sink, steps);
    Ok(graph)
}

/// The wire at a place goes.
fn cut<L: Ledger>(
    order: &mut Order,
    mut graph: Wires,
    place: &str,
    steps: &mut Steps<L>,
) -> Result<Wires>
    requires { OrdersWires graph.sources.items graph.sinks.items graph.nodes order.old }
    ensures { IfOk result (λ now. OrdersWires now.sources.items now.sinks.items now.nodes order.new) }
{
    let at = place.parse().unwrap_or(usize::MAX);
    ensure!(at < graph.sources.len(), "no wire at {place}");
    let source = graph.sources.remove(at);
    let sink = graph.sinks.remove(at);
    order.mend_cut(&graph, source, sink, steps);
    Ok(graph)
}

/// `+ SOURCE SINK` or `- PLACE`.
fn change<L: Ledger>(
    order: &mut Order,
    graph: Wires,
    change: &str,
    steps: &mut Steps<L>,
) -> Result<Wires>
    requires { OrdersWires graph.sources.items graph.sinks.items graph.nodes order.old }
    ensures { IfOk result (λ now. OrdersWires now.sources.items now.sinks.items now.nodes order.new) }
{
    let (word, rest) = first_word(change);
    match word {
        "+" => add(order, graph, rest, steps),
        "-" => cut(order, graph, rest, steps),
        _ => bail!("no change: {change}"),
    }
}

/// The two lists of an order, and how many looks were taken since it was last told.
fn push_order(order: &Order, graph: &Wires, said: &mut String) -> Result<()> {
    let looks = graph.looks.replace(0);
    write!(
        said,
        " | chain {:?} ; stuck {:?} ; looks {looks}",
        order.chain(),
        order.stuck()
    )?;
    Ok(())
}

/// The order of a graph, from nothing and after each change, which stand behind the wires.
fn told<L: Ledger>(alloc: Global, nodes: u32, text: String, blank: Blank) -> Result<String>
    requires name { blank.name ≡ L.name }
    requires parts { blank.parts ≡ L.parts }
    requires some { 0 < blank.parts }
{
    let mut steps = Steps::<L>::new(blank);
    let text = text.as_str();
    let (wires, _) = text.split_once(" | ").unwrap_or((text, ""));
    let mut graph = Wires::new(alloc, nodes, wires)?;
    let mut order = folded(alloc, &graph, &mut steps)?;
    let mut said = String::new(alloc);
    push_order(&order, &graph, &mut said)?;
    for part in text.split(" | ").skip(1) {
        graph = change(&mut order, graph, part, &mut steps)?;
        push_order(&order, &graph, &mut said)?;
    }
    Ok(said)
}

/// The order of so many nodes with these wires, and after each change of the wires.
pub(crate) fn orders(alloc: Global, text: &str) -> Result<String> {
    let (count, text) = text.split_once(" | ").unwrap_or((text, ""));
    let Ok(nodes) = count.parse() else {
        bail!("no number: {count}");
    };
    let text = String::from_str(alloc, text)?;
    told::<Brand>(alloc, nodes, text, Blank::new(1))
}
