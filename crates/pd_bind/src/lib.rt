//! The names of a running patch, and which of its boxes and canvases own them.
//!
//! `bind_names` gives each name in each class exactly its owners: the root canvas, which hears at `pd-` and its
//! file's name, and then in text order the boxes that own the name. `name_of` says which name a box owns: by its
//! kind alone, or, for a subpatch of the patch's own document, by its text; `name_of_row` says so of a grown box that
//! has no key yet. `owner_at` tells what an owner is. The table of names stays as it is, and a name that it lacks is
//! bound to nothing.
//!
//! Law: where a tree stands that is at most 256 canvases deep, the boxes that own a name are those of the tree
//! (`owners_are_of_the_tree`). Free: want of memory. By no clause: that binding takes one walk and one look-up a
//! box.
//!
//! Definitions: `Naming` (which name a box owns), `Owning` (the owners of a name).
#![tactic(auto)]

mod binding;
mod laws;
mod naming;
mod owners;
mod receivers;

pub use binding::bind_names;
pub use laws::owners_are_of_the_tree;
pub use naming::{name_of, name_of_row};
pub use owners::{Owner, owner_at};
