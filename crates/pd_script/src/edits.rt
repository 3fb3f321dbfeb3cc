//! An edit that a command holds.

ghost use Rattle.std.specs.Prelude.{◌≡◌, IfOk};
ghost use Rattle.pd_queue.specs.Entries.{wire_edit};
ghost use Rattle.pd_script.specs.Changes.{made_box as made_box_of};
ghost use Rattle.pd_script.specs.Edits.{edit_of, puts_box, deleted, moved};

use crate::changes::{BoxVerb, Change};
use crate::lists::{CommandAtoms, CommandPath};
use pd_atom::{Atom, Sym};
use pd_canvas::{Atoms, Edit};
use pd_num::Num;
use std::alloc::{AllocError, Global};
use std::marker::Model;

/// The canvas that an edit is for: its document, by name or the root document, and the path to the canvas by box numbers.
#[derive(Debug, Drop)]
pub struct CommandPlace {
    pub document: Option<Sym>,
    pub path: CommandPath,
}

/// An edit, which contracts see as the one that it is. It holds a list of atoms for its text, also where the verb takes none.
#[derive(Debug, Drop)]
pub struct CommandEdit {
    change: Change,
    text: CommandAtoms,
}

impl Model for CommandEdit {
    ghost use Rattle.pd_canvas.specs.declared.edits.Edit.{Edit};
    ghost use Rattle.pd_script.specs.Edits.{edit_of};

    ghost Value = { Edit };

    ghost view = { λ e. edit_of e.change e.text };
}

impl CommandEdit {
    pub(crate) fn new(change: Change, text: CommandAtoms) -> CommandEdit
        ensures { result ≡ edit_of change text }
    {
        CommandEdit { change, text }
    }

    /// The list of atoms that the edit holds.
    pub(crate) fn into_text(self) -> CommandAtoms {
        self.text
    }

    /// The edit, where it joins or cuts a wire. It takes no memory.
    pub fn wire_edit(&self) -> Option<Edit>
        ensures { result ≡ wire_edit self.now }
    {
        match self.change {
            Change::Connect { wire } => Some(Edit::Connect { wire }),
            Change::Disconnect { wire } => Some(Edit::Disconnect { wire }),
            Change::Box { .. }
            | Change::Delete { .. }
            | Change::Retype { .. }
            | Change::Move { .. } => None,
        }
    }

    /// Whether the edit puts a box.
    pub fn puts_box(&self) -> bool
        ensures { result ≡ puts_box self.now }
    {
        match self.change {
            Change::Box { shape, .. } => match shape {
                BoxVerb::Obj
                | BoxVerb::Msg
                | BoxVerb::Text
                | BoxVerb::FloatAtom
                | BoxVerb::SymbolAtom
                | BoxVerb::Sub => true,
            },
            Change::Connect { .. }
            | Change::Disconnect { .. }
            | Change::Delete { .. }
            | Change::Retype { .. }
            | Change::Move { .. } => false,
        }
    }

    /// The number of the box that the edit deletes, where it deletes one.
    pub fn deleted(&self) -> Option<u32>
        ensures { result ≡ deleted self.now }
    {
        match self.change {
            Change::Delete { number } => Some(number),
            Change::Box { shape, .. } => match shape {
                BoxVerb::Obj
                | BoxVerb::Msg
                | BoxVerb::Text
                | BoxVerb::FloatAtom
                | BoxVerb::SymbolAtom
                | BoxVerb::Sub => None,
            },
            Change::Connect { .. }
            | Change::Disconnect { .. }
            | Change::Retype { .. }
            | Change::Move { .. } => None,
        }
    }

    /// The number of the box that the edit moves, and its new place in its window, where it moves one.
    pub fn moved(&self) -> Option<(u32, Num, Num)>
        ensures { result ≡ moved self.now }
    {
        match self.change {
            Change::Move { number, x, y } => Some((number, x, y)),
            Change::Box { shape, .. } => match shape {
                BoxVerb::Obj
                | BoxVerb::Msg
                | BoxVerb::Text
                | BoxVerb::FloatAtom
                | BoxVerb::SymbolAtom
                | BoxVerb::Sub => None,
            },
            Change::Connect { .. }
            | Change::Disconnect { .. }
            | Change::Delete { .. }
            | Change::Retype { .. } => None,
        }
    }

    /// The edit with a text of its own.
    pub fn copy(&self, alloc: Global) -> Result<Edit, AllocError>
        ensures { IfOk result (λ e. e ≡ self.now) }
    {
        copied_edit(alloc, self.change, self.text.as_slice())
    }
}

fn copied(alloc: Global, atoms: &[Atom]) -> Result<Atoms, AllocError>
    ensures { IfOk result (λ c. c ≡ atoms.now) }
{
    Ok(Atoms::from_vec(Vec::from_slice(alloc, atoms)?))
}

fn copied_edit(alloc: Global, change: Change, text: &[Atom]) -> Result<Edit, AllocError>
    ensures { IfOk result (λ e. e ≡ edit_of change text.now) }
{
    match change {
        Change::Box { shape, x, y } => Ok(made_box(shape, x, y, copied(alloc, text)?)),
        Change::Connect { wire } => Ok(Edit::Connect { wire }),
        Change::Disconnect { wire } => Ok(Edit::Disconnect { wire }),
        Change::Delete { number } => Ok(Edit::Delete { number }),
        Change::Retype { number } => Ok(Edit::Retype {
            number,
            text: copied(alloc, text)?,
        }),
        Change::Move { number, x, y } => Ok(Edit::Move { number, x, y }),
    }
}

fn made_box(shape: BoxVerb, x: Num, y: Num, text: Atoms) -> Edit
    ensures { result ≡ made_box_of shape x y text }
{
    match shape {
        BoxVerb::Obj => Edit::Obj { x, y, text },
        BoxVerb::Msg => Edit::Msg { x, y, text },
        BoxVerb::Text => Edit::Comment { x, y, text },
        BoxVerb::FloatAtom => Edit::FloatBox { x, y, text },
        BoxVerb::SymbolAtom => Edit::SymbolBox { x, y, text },
        BoxVerb::Sub => Edit::Sub { x, y, name: text },
    }
}
