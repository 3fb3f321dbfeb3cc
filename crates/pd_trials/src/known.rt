//! Documents that take the place of files, and drafts.

use pd_atom::Sym;
use pd_canvas::{Atoms, Canvas, Doc};
use pd_library::{Answer, Drafts, Files};
use std::alloc::Global;
use std::test::Fail;

fn empty(alloc: Global) -> Doc {
    Doc {
        root: Canvas::new(alloc, Atoms::new(alloc)),
    }
}

fn is_found(files: &Files, name: Sym) -> bool {
    matches!(files.answer(name), Some(Answer::Found(_)))
}

#[test]
fn documents_are_published(rt: HostRuntime) -> Result<(), Fail> {
    let mut files = Files::new(rt.alloc());
    for name in [Sym::pd(), Sym::list(), Sym::pd()] {
        files.publish(name, empty(rt.alloc()))?;
        assert!(rt; is_found(&files, name));
    }
    assert_eq!(rt; files.len(), 2);
    Ok(())
}

#[test]
fn drafts_begin(rt: HostRuntime) -> Result<(), Fail> {
    let mut drafts = Drafts::new(rt.alloc());
    for name in [Sym::pd(), Sym::list(), Sym::pd()] {
        drafts.put_draft(name, empty(rt.alloc()))?;
        assert!(rt; drafts.draft(name).is_some());
    }
    assert_eq!(rt; drafts.len(), 2);
    Ok(())
}
