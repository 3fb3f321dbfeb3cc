//! The edits that canvases were asked for.

ghost use Rattle.std.specs.Prelude.{◌≡◌, ◌==◌, ◌≤◌, [], length, option_map, IfOk, IfSome, slice_get, vec_capacity};
ghost use Rattle.std.specs.Option.{option_copied};
ghost use Rattle.pd_queue.specs.Asking.{asked};
ghost use Rattle.pd_queue.specs.Entries.{edit_of};
ghost use Rattle.pd_queue.specs.Queue.{answer_to, after_asking};

use crate::asking::{Verb, wire_of};
use crate::entries::{Change, QueuedEdit};
use pd_atom::Atom;
use std::alloc::{AllocError, Global};
use std::marker::Model;

/// How many edits may wait.
const MOST: usize = 256;

/// What is answered to a canvas that is asked for an edit.
#[derive(Clone, Copy, Debug, PartialEq, Eq)]
pub enum Asked {
    /// The edit waits.
    Queued,
    /// The atoms aren't the arguments of the verb.
    BadArguments,
    /// 256 edits wait already.
    Full,
}

/// The edits of an event, in the order in which canvases were asked for them.
#[derive(Debug, Drop)]
pub struct EditQueue {
    waiting: Vec<QueuedEdit>,
    spare: Vec<QueuedEdit>,
}

impl Model for EditQueue {
    ghost use Rattle.std.specs.Prelude.{◌≡◌, ◌+◌, ◌≤◌, length, vec_capacity};
    ghost use Rattle.pd_queue.specs.Queue.{Waiting};

    ghost Value = { Waiting };

    ghost view = { λ q. q.waiting.items };

    ghost invariant = { λ q. (length q.waiting.items + length q.spare.items ≡ 256) × (256 ≤ vec_capacity q.waiting) × (256 ≤ vec_capacity q.spare) };
}

/// So many edits with their room.
fn room_for(alloc: Global, count: usize) -> Result<Vec<QueuedEdit>, AllocError>
    ensures { IfOk result (λ v. (length v.items ≡ count) × (count ≤ vec_capacity v)) }
{
    let mut edits = Vec::with_capacity(alloc, count)?;
    'room: while edits.len() < count {
        edits.push_reserved(QueuedEdit::new(alloc)?);
    }
    Ok(edits)
}

/// The edit but for its text that a verb and the first atoms behind it give, with its text.
fn change_of<'a>(verb: Verb, atoms: &'a [Atom]) -> Option<(Change, &'a [Atom])>
    ensures value { asked verb atoms.now ≡ option_map (λ r. edit_of r.0 r.1.now) result }
    ensures text { IfSome result (λ r. length r.1.now ≤ length atoms.now) }
{
    match verb {
        Verb::Box(verb) => match atoms {
            [Atom::Number(x), Atom::Number(y), text @ ..] => Some((
                Change::Box { verb, x: *x, y: *y },
                text,
            )),
            _ => None,
        },
        Verb::Connect => Some((
            Change::Connect {
                wire: wire_of(atoms)?,
            },
            &[],
        )),
        Verb::Disconnect => Some((
            Change::Disconnect {
                wire: wire_of(atoms)?,
            },
            &[],
        )),
    }
}

impl EditQueue {
    /// No edits, with room for 256, each with a path of 255 numbers and a text of 1,024 atoms.
    pub fn new(alloc: Global) -> Result<EditQueue, AllocError>
        ensures { IfOk result (λ queue. queue ≡ []) }
    {
        Ok(EditQueue {
            waiting: Vec::with_capacity(alloc, MOST)?,
            spare: room_for(alloc, MOST)?,
        })
    }

    /// How many edits wait.
    pub fn len(&self) -> u32
        ensures { result ≡ length self.now }
    {
        self.waiting.len() as u32
    }

    pub fn is_empty(&self) -> bool
        ensures { result ≡ (length self.now == 0) }
    {
        self.waiting.is_empty()
    }

    /// The i-th edit, counted from 0.
    pub fn get(&self, i: u32) -> Option<&QueuedEdit>
        ensures { option_copied result ≡ slice_get self.now i }
    {
        self.waiting.get(i as usize)
    }

    /// Takes all edits out.
    pub fn clear(&mut self)
        ensures { self.new ≡ [] }
    {
        while let Some(edit) = self.waiting.pop() {
            self.spare.push_reserved(edit);
        }
    }

    /// Puts the edit last that a verb with these atoms is, for the canvas at a path. Where the atoms aren't the verb's arguments, or
    /// no place is left, nothing is put.
    pub fn ask(&mut self, verb: Verb, atoms: &[Atom], path: &[u32]) -> Asked
        requires few { length atoms.now ≤ 1024 }
        requires short { length path.now ≤ 255 }
        ensures answer { result ≡ answer_to (asked verb atoms.now) self.old }
        ensures queue { self.new ≡ after_asking path.now (asked verb atoms.now) self.old }
    {
        let Some((change, text)) = change_of(verb, atoms) else {
            return Asked::BadArguments;
        };
        let Some(mut edit) = self.spare.pop() else {
            return Asked::Full;
        };
        edit.replace(path, change, text);
        self.waiting.push_reserved(edit);
        Asked::Queued
    }
}
