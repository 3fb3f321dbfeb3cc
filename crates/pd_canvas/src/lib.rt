//! Documents of a patch in memory: canvases with their boxes and wires, and plain edits of them.
//!
//! `Doc`, `Canvas`, `Element`, `Form`, `Wire`, `Edit` and `Place` are the types of a patch file. Contracts see a
//! canvas as one value, a tree with a list of boxes, and lists as their items. `copy` equals its source.
//!
//! `apply_plain` is the plain edit over lists, one equation a verb: a new box goes last, a new wire last in its
//! outlet's fan-out, a deleted box takes its wires along and higher numbers go down; after want of memory the
//! document is as before. `can_apply` tells exactly whether an edit can be done.
//!
//! `plain_turn` makes one `Change` of a canvas at a path: an element put in at a number, taken out or exchanged, or
//! the wires exchanged. An edit will be taken back by a list of such turns.
//!
//! Laws: in sorted wires a new wire goes last in its outlet's fan-out and every other outlet keeps its own
//! (`fan_outs`); an edit keeps a proper document proper where what it brings is ready and the limits hold
//! (`edits_keep_proper`). No layer above makes these edits of a document; the edits of wires of a running patch are
//! `pd_edit`'s. Free: want of memory.
//!
//! Definitions: `Pages` (a canvas as a value), `Views`, `Paths`, `Wiring`, `Edits`, `Turns`, `Proper`; `Arrays`, `Codes` and
//! `Falls` help these.
#![tactic(auto)]

mod changes;
mod copies;
mod edits;
mod laws;
mod lists;
mod names;
mod objects;
mod tree;
mod turns;
mod wires;

pub use copies::{copy, copy_element};
pub use edits::{Edit, Place, apply_plain, can_apply};
pub use laws::{edits_keep_proper, fan_outs};
pub use lists::{AtomRows, Atoms, Numbers, Nums};
pub use tree::{Canvas, Doc, Element, Elements, Form, canvas_at};
pub use turns::{Change, Turn, plain_turn};
pub use wires::{Wire, Wires};
