// The signal wires of a patch under the keys of their boxes.
ghost use Rattle.pd_links.specs.Rows.{AreFew};

use std::alloc::Global;

/// The signal wires of a patch: by the key of each box, from which boxes wires come to it and to which boxes wires lead
/// from it, as often as there are wires, in any order.
///
/// A call other than `reserve` takes no memory: it uses the room that `reserve` has set aside.
#[derive(Drop)]
pub struct Links {
    pub(crate) alloc: Global,
    pub(crate) into: Vec<Vec<u32>>,
    pub(crate) from: Vec<Vec<u32>>,
    ghost few_into: { AreFew into.items },
    ghost few_from: { AreFew from.items },
}
