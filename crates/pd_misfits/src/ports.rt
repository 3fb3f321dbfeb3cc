//! The ports of a box, as they are and as a kind has them.

ghost use Rattle.std.specs.Prelude.{◌≡◌, slice_get};
ghost use Rattle.pd_object.specs.Ports.{IsSmallKind};
ghost use Rattle.pd_tree.specs.Ports.{is_made as is_made_so};
ghost use Rattle.pd_web.specs.Hops.{jack_told};
ghost use Rattle.pd_web.specs.Jacks.{kind_jacks};
ghost use Rattle.pd_web.specs.Sockets.{made_at};
ghost use Rattle.pd_refitting.specs.Refits.{jack_with, made_with};
ghost use Rattle.pd_misfits.specs.Ports.{plain_jack_if};

use pd_grove::Side;
use pd_kind::{Kind, ports};
use pd_web::{Jack, Web, port_at, sockets_at};

/// A port of a box, where the box of the key is of a kind.
pub(crate) fn jack_of(
    web: &Web,
    key: u32,
    kind: &Kind,
    side: Side,
    node: u32,
    port: u32,
) -> Option<Jack>
    requires small { IsSmallKind kind.now }
    ensures { result ≡ jack_with web.now key kind.now side node port }
{
    if node == key {
        kind_jack(kind, side, port)
    } else {
        web_jack(web, side, node, port)
    }
}

/// A port of a box.
fn web_jack(web: &Web, side: Side, node: u32, port: u32) -> Option<Jack>
    ensures { result ≡ jack_told web.now side node port }
{
    let port = port_at(web.sockets.as_slice(), side, node, port)?;
    Some(port.jack)
}

/// A port of a kind.
fn kind_jack(kind: &Kind, side: Side, port: u32) -> Option<Jack>
    requires small { IsSmallKind kind.now }
    ensures { result ≡ slice_get (kind_jacks side kind.now) port }
{
    let list = ports(kind);
    match side {
        Side::Inlets => plain_jack(port < list.inlets(), list.inlet_signal(port)),
        Side::Outlets => plain_jack(port < list.outlets(), list.outlet_signal(port)),
    }
}

/// A port that no box is, if it is there.
fn plain_jack(is_there: bool, is_signal: bool) -> Option<Jack>
    ensures { result ≡ plain_jack_if is_there is_signal }
{
    if is_there {
        Some(Jack {
            is_signal,
            inner: None,
        })
    } else {
        None
    }
}

/// Whether a box is made, where the box of the key is of a kind.
pub(crate) fn is_made(web: &Web, key: u32, kind: &Kind, node: u32) -> bool
    ensures { result ≡ made_with web.now key kind.now node }
{
    if node == key {
        is_made_kind(kind)
    } else {
        is_made_at(web, node)
    }
}

/// Whether boxes of a kind are made.
fn is_made_kind(kind: &Kind) -> bool
    ensures { result ≡ is_made_so kind.now }
{
    match kind {
        Kind::Unmade => false,
        _ => true,
    }
}

fn is_made_at(web: &Web, node: u32) -> bool
    ensures { result ≡ made_at web.now.sockets.items node }
{
    match sockets_at(web.sockets.as_slice(), node) {
        Some(own) => own.is_made,
        None => false,
    }
}
