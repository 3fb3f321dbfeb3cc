//! Drafts of the documents of files, by their names.
ghost use Rattle.std.specs.Prelude.{◌≡◌, ◌<◌, ◌^◌, [], None, length, OnOk, OnErr};
ghost use Rattle.std.specs.Option.{option_copied};
ghost use Rattle.pd_library.specs.Drafts.{draft_in, with_draft, without_draft, HasDistinctDrafts};

use indexmap::IndexMap;
use pd_atom::Sym;
use pd_canvas::Doc;
use std::alloc::{AllocError, Global};
use std::marker::Model;

/// Documents of abstractions that are edited and not yet saved. Contracts see a list of the names of abstractions, each with its
/// draft, in the order in which the drafts were begun. No name stands there twice.
#[derive(Drop)]
pub struct Drafts {
    drafts: IndexMap<Sym, Doc>,
}

impl Model for Drafts {
    ghost use Rattle.std.specs.Prelude.{ℕ, List};
    ghost use Rattle.pd_canvas.specs.declared.tree.Doc.{Doc};

    ghost Value = { List (ℕ × Doc) };

    ghost use Rattle.pd_library.specs.Codes.{drafts_code};

    ghost coded = { drafts_code };

    ghost view = { λ d. d.drafts.entries };
}

impl Drafts {
    /// There is no draft. It takes no memory yet.
    pub fn new(alloc: Global) -> Drafts
        ensures { result ≡ [] }
    {
        Drafts {
            drafts: IndexMap::new(alloc),
        }
    }

    /// The draft of an abstraction.
    pub fn draft(&self, name: Sym) -> Option<&Doc>
        ensures { option_copied result ≡ draft_in self.now name }
    {
        self.drafts.get(&name)
    }

    /// Makes a document the draft of an abstraction, in the place of the one that it has.
    ///
    /// # Errors
    ///
    /// `AllocError` where memory ran out, which is only where it had none.
    pub fn put_draft(&mut self, name: Sym, doc: Doc) -> Result<(), AllocError>
        ensures ok { OnOk result (self.new ≡ with_draft name doc self.old) }
        ensures err { OnErr result (self.new ≡ self.old) }
        ensures absent { OnErr result (draft_in self.old name ≡ None) }
    {
        self.drafts.insert(name, doc)?;
        Ok(())
    }

    /// Ends the draft of an abstraction, where it has one. The others keep their order.
    pub fn end_draft(&mut self, name: Sym)
        ensures { self.new ≡ without_draft name self.old }
    {
        self.drafts.shift_remove(&name);
    }

    /// How many drafts there are.
    pub fn len(&self) -> usize
        ensures count { result ≡ length self.now }
        ensures few { result < 2 ^ 63 }
        ensures distinct { HasDistinctDrafts self.now }
    {
        self.drafts.len()
    }
}
