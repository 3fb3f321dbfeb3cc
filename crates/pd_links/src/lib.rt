//! Signal wires by the keys of their boxes, as the graph that an order asks: each question is answered in constant
//! time.
//!
//! `Links` has by key from which boxes signal wires come and to which they lead, with repeats; `of` makes those of a
//! list of wires, and `add` and `cut` put one wire in or take one out, after `reserve` or `reserve_one`, or `open` for a
//! box that has come, after `reach`; these set room aside, and `open`, `add` and `cut` can't fail. `LinkGraph` is the graph of `pd_order` over them, with ranks that the caller gives, where all boxes lie in one
//! canvas; `pd_wiring` has that of one canvas among many.
//!
//! Laws: links stay lawful (`linked_more`, `linked_less`, `links_are_lawful`), and the order of a canvas by its links
//! is the one that `pd_chain` gives of the same boxes and wires (`order_by_links`; after a wire more or less,
//! `mend_after_add` and `mend_after_cut`). Free: want of memory.
#![tactic(auto)]

mod edits;
mod filling;
mod graph;
mod laws;
mod links;
mod opening;
mod rows;

pub use graph::LinkGraph;
pub use laws::{
    linked_less, linked_more, links_are_lawful, mend_after_add, mend_after_cut, order_by_links,
};
pub use links::Links;
pub use opening::LinkRoom;
