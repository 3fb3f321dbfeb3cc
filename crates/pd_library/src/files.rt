//! The files of abstractions, by their names.
ghost use Rattle.std.specs.Prelude.{◌≡◌, ◌<◌, ◌^◌, ◌++◌, ◌∷◌, [], take, length, None, OnOk, OnErr};
ghost use Rattle.std.specs.Option.{option_copied};
ghost use Rattle.pd_library.specs.Files.{answer_in, with_answer, HasDistinctNames};
ghost use Rattle.pd_library.specs.declared.answers.Answer.TheVariants.{Found};

use crate::answers::Answer;
use indexmap::IndexMap;
use pd_atom::Sym;
use pd_canvas::Doc;
use std::alloc::{AllocError, Global};
use std::marker::Model;

/// What is known of files. Contracts see a list of the names of abstractions, each with what was found under it, in the
/// order in which they were learned. No name stands there twice.
#[derive(Drop)]
pub struct Files {
    answers: IndexMap<Sym, Answer>,
}

impl Model for Files {
    ghost use Rattle.std.specs.Prelude.{ℕ, List};
    ghost use Rattle.pd_library.specs.declared.answers.Answer.{Answer};

    ghost Value = { List (ℕ × Answer) };

    ghost use Rattle.pd_library.specs.Codes.{files_code};

    ghost coded = { files_code };

    ghost view = { λ f. f.answers.entries };
}

impl Files {
    /// Nothing is known. It takes no memory yet.
    pub fn new(alloc: Global) -> Files
        ensures { result ≡ [] }
    {
        Files {
            answers: IndexMap::new(alloc),
        }
    }

    /// What is known of the file of an abstraction.
    pub fn answer(&self, name: Sym) -> Option<&Answer>
        ensures { option_copied result ≡ answer_in self.now name }
    {
        self.answers.get(&name)
    }

    /// Notes what was found under a name of which nothing was known.
    ///
    /// # Errors
    ///
    /// `AllocError` where memory ran out.
    pub fn learn(&mut self, name: Sym, answer: Answer) -> Result<(), AllocError>
        requires { answer_in self.old name ≡ None }
        ensures ok { OnOk result (self.new ≡ self.old ++ (name, answer) ∷ []) }
        ensures err { OnErr result (self.new ≡ self.old) }
    {
        self.answers.insert(name, answer)?;
        Ok(())
    }

    /// Makes a document what is found under a name, in the place of what was known of it.
    ///
    /// # Errors
    ///
    /// `AllocError` where memory ran out, which is only where nothing was known of the name.
    pub fn publish(&mut self, name: Sym, doc: Doc) -> Result<(), AllocError>
        ensures ok { OnOk result (self.new ≡ with_answer name (Found doc) self.old) }
        ensures err { OnErr result (self.new ≡ self.old) }
        ensures absent { OnErr result (answer_in self.old name ≡ None) }
    {
        self.answers.insert(name, Answer::Found(doc))?;
        Ok(())
    }

    /// How many names there are.
    pub fn len(&self) -> usize
        ensures count { result ≡ length self.now }
        ensures few { result < 2 ^ 63 }
        ensures distinct { HasDistinctNames self.now }
    {
        self.answers.len()
    }

    /// Forgets all names but the first `len`.
    pub fn cut_back(&mut self, len: usize)
        ensures { self.new ≡ take len self.old }
    {
        self.answers.truncate(len);
    }
}
