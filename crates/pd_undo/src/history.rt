//! The history of edits, and what an undo or redo makes.

ghost use Rattle.std.specs.Prelude.{◌≡◌, ◌+◌, ◌<◌, ◌≤◌, ◌↔◌, [], length, IfOk, IfSome, IsErrAnd};
ghost use Rattle.circular_buffer.specs.Buffer.{last_item};
ghost use Rattle.pd_undo.specs.Acts.{AreThere, HaveRoom};
ghost use Rattle.pd_undo.specs.Inverses.{inverse};
ghost use Rattle.pd_undo.specs.Histories.{entries, kept, undone, redone};
ghost use Rattle.pd_undo.specs.declared.refusals.UndoRefusal.TheVariants.{Empty};

use crate::inverses::inverse_turns;
use crate::refusals::UndoRefusal;
use crate::turns::Turns;
use circular_buffer::HeapCircularBuffer;
use pd_canvas::Doc;
use std::alloc::{AllocError, Global};
use std::marker::Model;

/// The most entries.
const MOST: usize = 100;

/// What can be undone and what can be made again, at most 100 entries of each, the latest last. Only `new` takes memory.
#[derive(Drop)]
pub struct History {
    undo: HeapCircularBuffer<Turns>,
    redo: HeapCircularBuffer<Turns>,
}

impl Model for History {
    ghost use Rattle.pd_undo.specs.Histories.{Entries, entries_code, entries};

    ghost Value = { Entries };

    ghost coded = { entries_code };

    ghost view = { λ h. entries h.undo.items h.redo.items };

    ghost use Rattle.pd_undo.specs.Kept.{IsKept};

    ghost invariant = { IsKept };
}

/// What an undo or redo makes of the document, and what takes that back.
#[derive(Drop)]
pub struct Pair {
    pub forth: Turns,
    pub back: Turns,
}

impl History {
    /// No entries, and room for 100 of each kind.
    pub fn new(alloc: Global) -> Result<History, AllocError>
        ensures { IfOk result (λ h. h ≡ entries [] []) }
    {
        Ok(History {
            undo: HeapCircularBuffer::with_capacity(alloc, MOST)?,
            redo: HeapCircularBuffer::with_capacity(alloc, MOST)?,
        })
    }

    /// What is true of all histories: there are at most 100 entries in all. It does nothing.
    pub fn laws(&self)
        ensures few { length self.now.undo + length self.now.redo ≤ 100 }
    {
        let _ = &self.undo;
    }

    /// Adds an entry to undo, of which the latest 100 stay. None can be made again then.
    pub fn keep(&mut self, turns: Turns)
        ensures { self.new ≡ kept turns self.old }
    {
        self.undo.push_back(turns);
        self.redo.clear();
    }

    /// Takes all entries out.
    pub fn forget(&mut self)
        ensures { self.new ≡ entries [] [] }
    {
        self.undo.clear();
        self.redo.clear();
    }

    /// The last entry was undone, by turns that these take back: it goes, and they are the last entry to redo.
    pub fn undone(&mut self, back: Turns)
        requires { 0 < length self.old.undo }
        ensures { self.new ≡ undone back self.old }
    {
        self.undo.pop_back();
        self.redo.push_back(back);
    }

    /// The last entry to redo was made again, by turns that these take back: it goes, and they are the last entry to undo.
    pub fn redone(&mut self, back: Turns)
        requires { 0 < length self.old.redo }
        ensures { self.new ≡ redone back self.old }
    {
        self.redo.pop_back();
        self.undo.push_back(back);
    }
}

/// The last entry to undo, and what takes it back, made before it is. It changes nothing.
///
/// # Errors
///
/// `Empty` exactly where there is no entry to undo; `NoMemory` where memory ran out.
pub fn undo(history: &History, doc: &Doc) -> Result<Pair, UndoRefusal>
    requires there { IfSome (last_item history.now.undo) (λ ts. AreThere ts doc.now.root) }
    requires room { IfSome (last_item history.now.undo) (λ ts. HaveRoom ts doc.now.root) }
    ensures forth { IfOk result (λ p. last_item history.now.undo ≡ Some p.forth) }
    ensures back { IfOk result (λ p. p.back ≡ inverse p.forth doc.now.root) }
    ensures empty { IsErrAnd result (λ why. why ≡ Empty) ↔ (history.now.undo ≡ []) }
{
    last_pair(&history.undo, doc)
}

/// The last entry to redo, and what takes it back, made before it is. It changes nothing.
///
/// # Errors
///
/// `Empty` exactly where there is no entry to redo; `NoMemory` where memory ran out.
pub fn redo(history: &History, doc: &Doc) -> Result<Pair, UndoRefusal>
    requires there { IfSome (last_item history.now.redo) (λ ts. AreThere ts doc.now.root) }
    requires room { IfSome (last_item history.now.redo) (λ ts. HaveRoom ts doc.now.root) }
    ensures forth { IfOk result (λ p. last_item history.now.redo ≡ Some p.forth) }
    ensures back { IfOk result (λ p. p.back ≡ inverse p.forth doc.now.root) }
    ensures empty { IsErrAnd result (λ why. why ≡ Empty) ↔ (history.now.redo ≡ []) }
{
    last_pair(&history.redo, doc)
}

/// The last entry, and what takes it back.
fn last_pair(list: &HeapCircularBuffer<Turns>, doc: &Doc) -> Result<Pair, UndoRefusal>
    requires there { IfSome (last_item list.now.items) (λ ts. AreThere ts doc.now.root) }
    requires room { IfSome (last_item list.now.items) (λ ts. HaveRoom ts doc.now.root) }
    ensures forth { IfOk result (λ p. last_item list.now.items ≡ Some p.forth) }
    ensures back { IfOk result (λ p. p.back ≡ inverse p.forth doc.now.root) }
    ensures empty { IsErrAnd result (λ why. why ≡ Empty) ↔ (list.now.items ≡ []) }
{
    match list.back() {
        Some(entry) => Ok(pair_of(entry, doc)?),
        None => Err(UndoRefusal::Empty),
    }
}

fn pair_of(entry: &Turns, doc: &Doc) -> Result<Pair, AllocError>
    requires there { AreThere entry.now doc.now.root }
    requires room { HaveRoom entry.now doc.now.root }
    ensures forth { IfOk result (λ p. p.forth ≡ entry.now) }
    ensures back { IfOk result (λ p. p.back ≡ inverse entry.now doc.now.root) }
{
    let back = inverse_turns(entry.alloc(), doc, entry.as_slice())?;
    Ok(Pair {
        forth: entry.copy()?,
        back,
    })
}
