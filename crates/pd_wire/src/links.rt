//! Nodes in a slab, linked in rings: an end's node is the head of a ring of wires on each side.

ghost use Rattle.std.specs.Prelude.{ℕ, true, length, slice_get, slice_index_or, ◌≡◌, ◌≢◌, ◌+◌, ◌-◌, ◌<◌, ◌≤◌, ◌^◌};
ghost use Rattle.slab.specs.Slab.{ContainsKey, HasRoomFor};
ghost use Rattle.pd_wire.specs.Book.{IsNext, IsPrevious};
ghost use Rattle.pd_wire.specs.Links.{other, node_link, link_at, fan_at, feed_at, is_end, is_wire, list_of, KeepsKeys, Puts, Attaches, Detaches, IsSideSound};
ghost use Rattle.pd_wire.specs.Stored.{IsSound, Inserts, Removes};

use crate::keys::WireKey;
use slab::Slab;

/// Which of a wire's two lists.
#[derive(Clone, Copy)]
pub(crate) enum Side {
    Fan,
    Feed,
}

/// A place in a ring: the key of its head, and those of its neighbours. A head's neighbours are the
/// last and the first wire, and it keeps how many there are. A head with no wire is its own
/// neighbour.
#[derive(Clone, Copy)]
pub(crate) struct Link {
    pub(crate) owner: usize,
    pub(crate) before: usize,
    pub(crate) after: usize,
    pub(crate) count: usize,
}

/// An end or a wire.
#[derive(Clone, Copy)]
pub(crate) struct Node {
    pub(crate) is_end: bool,
    pub(crate) fan: Link,
    pub(crate) feed: Link,
}

const NO_LINK: Link = Link {
    owner: 0,
    before: 0,
    after: 0,
    count: 0,
};

impl Node {
    fn link(self, side: Side) -> Link
        ensures { result ≡ node_link side self }
    {
        match side {
            Side::Fan => self.fan,
            Side::Feed => self.feed,
        }
    }

    fn with_link(self, side: Side, link: Link) -> Node
        ensures at { node_link side result ≡ link }
        ensures others { node_link (other side) result ≡ node_link (other side) self }
        ensures kind { result.is_end ≡ self.is_end }
    {
        match side {
            Side::Fan => Node { fan: link, ..self },
            Side::Feed => Node { feed: link, ..self },
        }
    }
}

/// A node's link on one side.
pub(crate) fn link_of(nodes: &Slab<Node>, side: Side, key: usize) -> Link
    requires { ContainsKey nodes.now key }
    ensures { result ≡ link_at side nodes.now key }
{
    nodes[key].link(side)
}

/// Writes a node's link on one side.
fn put(nodes: &mut Slab<Node>, side: Side, key: usize, link: Link)
    requires { ContainsKey nodes.old key }
    ensures puts { Puts (link_at side nodes.old) (link_at side nodes.new) key link }
    ensures others { (j : ℕ) → link_at (other side) nodes.new j ≡ link_at (other side) nodes.old j }
    ensures keys { KeepsKeys nodes.old nodes.new }
{
    nodes[key] = nodes[key].with_link(side, link);
}

/// Puts `key` between `after` and what stands before it.
fn attach(nodes: &mut Slab<Node>, side: Side, end: usize, after: usize, key: usize)
    requires end { ContainsKey nodes.old end }
    requires after { ContainsKey nodes.old after }
    requires before { ContainsKey nodes.old (link_at side nodes.old after).before }
    requires key { ContainsKey nodes.old key }
    requires end_apart { end ≢ key }
    requires after_apart { after ≢ key }
    requires before_apart { (link_at side nodes.old after).before ≢ key }
    requires count { (link_at side nodes.old end).count + 1 < 2 ^ 64 }
    ensures attaches { let links = link_at side nodes.old in
        Attaches links (link_at side nodes.new) end key (links after).before after }
    ensures others { (j : ℕ) → link_at (other side) nodes.new j ≡ link_at (other side) nodes.old j }
    ensures keys { KeepsKeys nodes.old nodes.new }
{
    let mut next = link_of(nodes, side, after);
    let before = next.before;
    next.before = key;
    put(nodes, side, after, next);
    let mut last = link_of(nodes, side, before);
    last.after = key;
    put(nodes, side, before, last);
    let mut head = link_of(nodes, side, end);
    head.count += 1;
    put(nodes, side, end, head);
    let link = Link {
        owner: end,
        before,
        after,
        count: 0,
    };
    put(nodes, side, key, link);
}

/// Joins the neighbours of `key`.
fn detach(nodes: &mut Slab<Node>, side: Side, key: usize)
    requires key { ContainsKey nodes.old key }
    requires before { ContainsKey nodes.old (link_at side nodes.old key).before }
    requires after { ContainsKey nodes.old (link_at side nodes.old key).after }
    requires owner { ContainsKey nodes.old (link_at side nodes.old key).owner }
    requires count { 0 < (link_at side nodes.old (link_at side nodes.old key).owner).count }
    ensures detaches { let links = link_at side nodes.old in
        let link = links key in
        Detaches links (link_at side nodes.new) link.owner key link.before link.after }
    ensures others { (j : ℕ) → link_at (other side) nodes.new j ≡ link_at (other side) nodes.old j }
    ensures keys { KeepsKeys nodes.old nodes.new }
{
    let link = link_of(nodes, side, key);
    let mut last = link_of(nodes, side, link.before);
    last.after = link.after;
    put(nodes, side, link.before, last);
    let mut next = link_of(nodes, side, link.after);
    next.before = link.before;
    put(nodes, side, link.after, next);
    let mut head = link_of(nodes, side, link.owner);
    head.count -= 1;
    put(nodes, side, link.owner, head);
}

/// The wire at a place of an end's list, or the end itself at the place past the last.
pub(crate) fn at_place(nodes: &Slab<Node>, side: Side, end: usize, place: usize) -> usize
    requires sound { IsSideSound side nodes.now }
    requires end { is_end nodes.now end ≡ true }
    requires place { place ≤ length (list_of (link_at side nodes.now) end) }
    ensures { result ≡ slice_index_or (list_of (link_at side nodes.now) end) place end }
{
    let head = link_of(nodes, side, end);
    if place == head.count {
        return end;
    }
    let mut at = head.after;
    for _ in 0..place {
        at = link_of(nodes, side, at).after;
    }
    at
}

/// The first wire of an end's list.
pub(crate) fn first(nodes: &Slab<Node>, side: Side, end: usize) -> Option<WireKey>
    requires sound { IsSideSound side nodes.now }
    requires end { is_end nodes.now end ≡ true }
    ensures { result ≡ slice_get (list_of (link_at side nodes.now) end) 0 }
{
    let head = link_of(nodes, side, end);
    if head.count == 0 {
        None
    } else {
        Some(WireKey { key: head.after })
    }
}

/// The wire behind another in its list.
pub(crate) fn next(nodes: &Slab<Node>, side: Side, key: usize) -> Option<WireKey>
    requires sound { IsSideSound side nodes.now }
    requires wire { is_wire nodes.now key ≡ true }
    ensures { let links = link_at side nodes.now in
        IsNext (list_of links (links key).owner) key result }
{
    let link = link_of(nodes, side, key);
    if link.after == link.owner {
        None
    } else {
        Some(WireKey { key: link.after })
    }
}

/// The last wire of an end's list.
pub(crate) fn last(nodes: &Slab<Node>, side: Side, end: usize) -> Option<WireKey>
    requires sound { IsSideSound side nodes.now }
    requires end { is_end nodes.now end ≡ true }
    ensures { let list = list_of (link_at side nodes.now) end in
        result ≡ slice_get list (length list - 1) }
{
    let head = link_of(nodes, side, end);
    if head.count == 0 {
        None
    } else {
        Some(WireKey { key: head.before })
    }
}

/// The wire before another in its list.
pub(crate) fn previous(nodes: &Slab<Node>, side: Side, key: usize) -> Option<WireKey>
    requires sound { IsSideSound side nodes.now }
    requires wire { is_wire nodes.now key ≡ true }
    ensures { let links = link_at side nodes.now in
        IsPrevious (list_of links (links key).owner) key result }
{
    let link = link_of(nodes, side, key);
    if link.before == link.owner {
        None
    } else {
        Some(WireKey { key: link.before })
    }
}

/// Makes a wire's node and links it before `next_fan` in the fan-out and before `next_feed` among
/// the feeds.
pub(crate) fn insert_node(
    nodes: &mut Slab<Node>,
    source: usize,
    next_fan: usize,
    sink: usize,
    next_feed: usize,
) -> usize
    requires room { HasRoomFor nodes.old 1 }
    requires source { ContainsKey nodes.old source }
    requires next_fan { ContainsKey nodes.old next_fan }
    requires last_fan { ContainsKey nodes.old (fan_at nodes.old next_fan).before }
    requires fan_count { (fan_at nodes.old source).count + 1 < 2 ^ 64 }
    requires sink { ContainsKey nodes.old sink }
    requires next_feed { ContainsKey nodes.old next_feed }
    requires last_feed { ContainsKey nodes.old (feed_at nodes.old next_feed).before }
    requires feed_count { (feed_at nodes.old sink).count + 1 < 2 ^ 64 }
    ensures { Inserts nodes.old nodes.new result source next_fan sink next_feed }
{
    let key = nodes.insert_reserved(Node {
        is_end: false,
        fan: NO_LINK,
        feed: NO_LINK,
    });
    attach(nodes, Side::Fan, source, next_fan, key);
    attach(nodes, Side::Feed, sink, next_feed, key);
    key
}

/// Unlinks a wire's node and removes it.
pub(crate) fn remove_node(nodes: &mut Slab<Node>, key: usize)
    requires sound { IsSound nodes.old }
    requires wire { is_wire nodes.old key ≡ true }
    ensures { Removes nodes.old nodes.new key }
{
    detach(nodes, Side::Fan, key);
    detach(nodes, Side::Feed, key);
    nodes.remove(key);
}
