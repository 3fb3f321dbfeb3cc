//! A running box under its key.

ghost use Rattle.std.specs.Prelude.{◌≡◌, ◌≢◌, ◌+◌, ◌<◌, ◌≤◌, ◌^◌, ℕ, Some, None, option_map};
ghost use Rattle.slab.specs.Slab.{get, ContainsKey, HasRoomFor, slab_len};
ghost use Rattle.pd_grove.specs.Standing.{with_inner};
ghost use Rattle.pd_grove.specs.Telling.{inner_in};

use pd_canvas::{Atoms, Element};
use pd_kind::{Kind, State};
use pd_tree::Fault;
use slab::Slab;

/// A running box: the key of the canvas in which it lies, what grew, what it keeps, and the key of the canvas that it holds.
///
/// The state is away while a box hears or runs.
#[derive(Debug, Drop)]
pub struct Node {
    pub inner: Option<u32>,
    pub state: Option<State>,
    pub kind: Kind,
    pub board: u32,
    pub fault: Option<Fault>,
    pub element: Element,
    pub text: Atoms,
}

/// Puts a box under a new key.
pub(crate) fn put_node(nodes: &mut Slab<Node>, node: Node) -> u32
    requires room { HasRoomFor nodes.old 1 }
    requires small { nodes.old.capacity ≤ 2 ^ 32 }
    ensures key { result ≡ nodes.old.vacant_key }
    ensures below { result < nodes.new.capacity }
    ensures vacant { get nodes.old result ≡ None }
    ensures is { get nodes.new result ≡ Some node }
    ensures others { (k : ℕ) → k ≢ result → get nodes.new k ≡ get nodes.old k }
    ensures len { slab_len nodes.new ≡ slab_len nodes.old + 1 }
    ensures capacity { nodes.new.capacity ≡ nodes.old.capacity }
{
    nodes.insert_reserved(node) as u32
}

/// Which canvas a box holds.
pub(crate) fn inner_at(nodes: &Slab<Node>, node: u32) -> Option<u32>
    ensures { result ≡ inner_in (get nodes.now node) }
{
    nodes.get(node as usize)?.inner
}

/// Says which canvas a box holds.
pub(crate) fn set_inner(nodes: &mut Slab<Node>, node: u32, inner: u32)
    requires here { ContainsKey nodes.old node }
    ensures is { get nodes.new node ≡ option_map (with_inner inner) (get nodes.old node) }
    ensures others { (k : ℕ) → k ≢ node → get nodes.new k ≡ get nodes.old k }
    ensures len { slab_len nodes.new ≡ slab_len nodes.old }
    ensures capacity { nodes.new.capacity ≡ nodes.old.capacity }
{
    let node = &mut nodes[node as usize];
    node.inner = Some(inner);
}
