//! An edit that waits, and its copy.

use pd_atom::{Atom, Sym};
use pd_canvas::Edit;
use pd_num::Num;
use pd_queue::{Asked, BoxVerb, EditQueue, Verb};
use std::alloc::Global;
use std::test::Fail;

/// How many atoms the text of a queue's first edit has, if that is a message box.
fn text_length(alloc: Global, queue: &EditQueue) -> Result<Option<usize>, Fail> {
    let edit = queue.get(0).ok_or("no edit")?;
    let (_, edit) = edit.copy(alloc)?;
    match edit {
        Edit::Msg { text, .. } => Ok(Some(text.as_slice().len())),
        _ => Ok(None),
    }
}

#[test]
fn message_boxes_are_copied(rt: HostRuntime) -> Result<(), Fail> {
    let mut queue = EditQueue::new(rt.alloc())?;
    let place = Atom::Number(Num::default());
    let atoms = [place, place, Atom::Symbol(Sym::list())];
    let asked = queue.ask(Verb::Box(BoxVerb::Msg), &atoms, &[3, 0]);
    assert_eq!(rt; asked, Asked::Queued);
    assert_eq!(rt; text_length(rt.alloc(), &queue)?, Some(1));
    Ok(())
}
