//! An edit that waits, with its own room.

ghost use Rattle.std.specs.Prelude.{◌≡◌, ◌≤◌, length, IfOk, None, vec_capacity};
ghost use Rattle.pd_queue.specs.Entries.{edit_of, wire_edit};
ghost use Rattle.pd_queue.specs.Asking.{box_edit};

use crate::asking::BoxVerb;
use pd_atom::Atom;
use pd_canvas::{Atoms, Edit, Numbers, Place, Wire};
use pd_num::Num;
use std::alloc::{AllocError, Global};
use std::marker::Model;

/// The most numbers of a path.
pub(crate) const MOST_NUMBERS: usize = 255;

/// The most atoms of a text.
pub(crate) const MOST_ATOMS: usize = 1024;

/// An edit but for its text.
#[derive(Clone, Copy, Debug, PartialEq, Eq)]
pub(crate) enum Change {
    Box { verb: BoxVerb, x: Num, y: Num },
    Connect { wire: Wire },
    Disconnect { wire: Wire },
}

/// An edit and the path of its canvas, which contracts see as the pair of both. It has room for a path of 255 numbers and a text
/// of 1,024 atoms.
#[derive(Debug, Drop)]
pub struct QueuedEdit {
    path: Vec<u32>,
    change: Change,
    text: Vec<Atom>,
}

impl Model for QueuedEdit {
    ghost use Rattle.std.specs.Prelude.{List, ℕ, ◌≤◌, vec_capacity};
    ghost use Rattle.pd_canvas.specs.declared.edits.Edit.{Edit};
    ghost use Rattle.pd_queue.specs.Entries.{edit_of};

    ghost Value = { List ℕ × Edit };

    ghost view = { λ q. (q.path.items, edit_of q.change q.text.items) };

    ghost invariant = { λ q. (255 ≤ vec_capacity q.path) × (1024 ≤ vec_capacity q.text) };
}

/// Puts numbers in place of others.
fn replace_numbers(numbers: &[u32], out: &mut Vec<u32>)
    requires { length numbers.now ≤ vec_capacity out.old }
    ensures items { out.new.items ≡ numbers.now }
    ensures room { vec_capacity out.old ≤ vec_capacity out.new }
{
    out.clear();
    out.extend_from_slice(numbers).unwrap();
}

/// Puts atoms in place of others.
fn replace_atoms(atoms: &[Atom], out: &mut Vec<Atom>)
    requires { length atoms.now ≤ vec_capacity out.old }
    ensures items { out.new.items ≡ atoms.now }
    ensures room { vec_capacity out.old ≤ vec_capacity out.new }
{
    out.clear();
    out.extend_from_slice(atoms).unwrap();
}

impl QueuedEdit {
    /// Any edit, with all the room.
    pub(crate) fn new(alloc: Global) -> Result<QueuedEdit, AllocError> {
        Ok(QueuedEdit {
            path: Vec::with_capacity(alloc, MOST_NUMBERS)?,
            change: Change::Box {
                verb: BoxVerb::Obj,
                x: Num::default(),
                y: Num::default(),
            },
            text: Vec::with_capacity(alloc, MOST_ATOMS)?,
        })
    }

    /// Takes the place of what was there.
    pub(crate) fn replace(&mut self, path: &[u32], change: Change, text: &[Atom])
        requires path { length path.now ≤ MOST_NUMBERS }
        requires text { length text.now ≤ MOST_ATOMS }
        ensures { self.new ≡ (path.now, edit_of change text.now) }
    {
        replace_numbers(path, &mut self.path);
        self.change = change;
        replace_atoms(text, &mut self.text);
    }

    /// The box numbers that lead from the root canvas to the one that was asked.
    pub fn path(&self) -> &[u32]
        ensures { result.now ≡ self.now.0 }
    {
        self.path.as_slice()
    }

    /// The edit, where it joins or cuts a wire. It takes no memory.
    pub fn wire_edit(&self) -> Option<Edit>
        ensures { result ≡ wire_edit self.now.1 }
    {
        match self.change {
            Change::Box { .. } => None,
            Change::Connect { wire } => Some(Edit::Connect { wire }),
            Change::Disconnect { wire } => Some(Edit::Disconnect { wire }),
        }
    }

    /// The edit and its place in the running patch, in lists of their own.
    pub fn copy(&self, alloc: Global) -> Result<(Place, Edit), AllocError>
        ensures document { IfOk result (λ copied. copied.0.document ≡ None) }
        ensures path { IfOk result (λ copied. copied.0.path ≡ self.now.0) }
        ensures edit { IfOk result (λ copied. copied.1 ≡ self.now.1) }
    {
        let path = Numbers::from_vec(Vec::from_slice(alloc, self.path.as_slice())?);
        let edit = copied_edit(alloc, self.change, self.text.as_slice())?;
        Ok((
            Place {
                document: None,
                path,
            },
            edit,
        ))
    }
}

/// The edit of a change, with a text of its own.
fn copied_edit(alloc: Global, change: Change, text: &[Atom]) -> Result<Edit, AllocError>
    ensures { IfOk result (λ e. e ≡ edit_of change text.now) }
{
    match change {
        Change::Box { verb, x, y } => {
            let text = Atoms::from_vec(Vec::from_slice(alloc, text)?);
            Ok(made_box(verb, x, y, text))
        }
        Change::Connect { wire } => Ok(Edit::Connect { wire }),
        Change::Disconnect { wire } => Ok(Edit::Disconnect { wire }),
    }
}

fn made_box(verb: BoxVerb, x: Num, y: Num, text: Atoms) -> Edit
    ensures { result ≡ box_edit verb x y text }
{
    match verb {
        BoxVerb::Obj => Edit::Obj { x, y, text },
        BoxVerb::Msg => Edit::Msg { x, y, text },
        BoxVerb::Text => Edit::Comment { x, y, text },
        BoxVerb::FloatAtom => Edit::FloatBox { x, y, text },
        BoxVerb::SymbolAtom => Edit::SymbolBox { x, y, text },
    }
}
