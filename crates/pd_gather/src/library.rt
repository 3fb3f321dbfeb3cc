//! The library.
ghost use Rattle.std.specs.Prelude.{◌≡◌, ◌≤◌, [], take, OnOk, OnErr, IfOk, IsErrOf};
ghost use Rattle.pd_io.specs.Faults.{Rose};
ghost use Rattle.pd_atom.specs.Names.{Extends};
ghost use Rattle.pd_canvas.specs.Proper.{IsProper};
ghost use Rattle.pd_canvas.specs.Views.{entry_of};
ghost use Rattle.pd_growth.specs.Growing.{stock, ScopeSuits};
ghost use Rattle.pd_growth.specs.Suits.{EntrySuits};
ghost use Rattle.pd_gather.specs.Gather.{Gathered, Full, known, Gathers, GathersBy, AnswersAll, GoesOn, AreProper};
ghost use Rattle.pd_gather.specs.Boxes.{box_asked, GathersBox, GathersInVain};

use crate::boxes::{Site, gather_one};
use crate::gathering::gather_files;
use crate::refusal::{BoxRefusal, GatherRefusal};
use pd_atom::Symbols;
use pd_canvas::{Doc, Element};
use pd_growth::Supply;
use pd_io::Shelf;
use pd_library::Files;
use pd_tree::Row;
use std::alloc::{AllocError, Global};
use std::marker::Model;

/// What is known of the files of abstractions. Contracts see a list of the names of abstractions, each with what was found under
/// it, in the order in which they were asked for.
#[derive(Drop)]
pub struct Library {
    files: Files,
    alloc: Global,
}

impl Model for Library {
    ghost use Rattle.std.specs.Prelude.{ℕ, List};
    ghost use Rattle.pd_library.specs.declared.answers.Answer.{Answer};

    ghost Value = { List (ℕ × Answer) };

    ghost use Rattle.pd_library.specs.Codes.{files_code};

    ghost coded = { files_code };

    ghost view = { λ l. l.files };
}

impl Library {
    /// Nothing is known of any file.
    ///
    /// # Errors
    ///
    /// None yet: it takes no memory.
    pub fn new(alloc: Global) -> Result<Library, AllocError>
        ensures { IfOk result (λ l. l ≡ []) }
    {
        Ok(Library {
            files: Files::new(alloc),
            alloc,
        })
    }

    /// What is known of files.
    pub fn files(&self) -> &Files
        ensures { result.now ≡ self.now }
    {
        &self.files
    }

    /// Asks the shelf for each file that growing a document asks for and of which nothing is known, in the order in which growth
    /// comes to them. `name` is the document's file name, and the patch's `$0` is 1001.
    ///
    /// The name of an abstraction is one of its file without `.pd`. A file that is there brings its names behind those that growth
    /// brought by then; one that is no document brings none. The names that the last growth brings are not kept: growing brings
    /// them again. So after `Ok` growing the document with these numbers lacks no file and finds room for its names.
    ///
    /// # Errors
    ///
    /// `ShelfFault` where the shelf failed, `SymbolsFull` at the 65,537th name, and `NoMemory`. Then files and names are as before.
    pub fn gather<H: Shelf>(
        &mut self,
        doc: &Doc,
        name: &[u8],
        shelf: &mut H,
        symbols: &mut Symbols,
    ) -> Result<(), GatherRefusal>
        requires proper { IsProper symbols.old doc.now.root }
        requires found { AreProper symbols.old self.old }
        ensures ok { OnOk result (Gathers (H.holds shelf.old) name.now doc.now.root (known self.old symbols.old) (Gathered (known self.new symbols.new))) }
        ensures all { OnOk result (AnswersAll name.now doc.now.root (known self.new symbols.new)) }
        ensures full { IsErrOf result GatherRefusal.SymbolsFull → Gathers (H.holds shelf.old) name.now doc.now.root (known self.old symbols.old) Full }
        ensures refused { OnErr result (self.new ≡ self.old) }
        ensures names { OnErr result (symbols.new ≡ symbols.old) }
        ensures kept { H.holds shelf.new ≡ H.holds shelf.old }
        ensures cause { IsErrOf result GatherRefusal.ShelfFault → Rose (H.faults shelf.old) (H.faults shelf.new) }
        ensures counted { H.faults shelf.old ≤ H.faults shelf.new }
        ensures found { AreProper symbols.new self.new }
        ensures behind { GoesOn self.old self.new }
        ensures extends { Extends symbols.old symbols.new }
    {
        let files = self.files.len();
        let names = symbols.len();
        let gathered = gather_files(self.alloc, &mut self.files, doc, name, shelf, symbols);
        if gathered.is_err() {
            self.forget(files, names, symbols);
        }
        gathered
    }

    /// Grows a box by itself at its site, from these names, numbers and room, and asks the shelf for each file that it asks for and of
    /// which nothing is known, in the order in which growth comes to them. Gives its rows.
    ///
    /// # Errors
    ///
    /// `TooManyBoxes` where there is no room for one of its boxes or no `$0` is left, `ShelfFault` where the shelf failed, `SymbolsFull`
    /// at the 65,537th name: whichever growth and gathering come to first. `NoMemory` where memory ran out. Then files, names and the
    /// supply are as before.
    pub fn gather_box<H: Shelf>(
        &mut self,
        site: &Site<'_>,
        element: &Element,
        supply: &mut Supply,
        shelf: &mut H,
        symbols: &mut Symbols,
    ) -> Result<Vec<Row>, BoxRefusal>
        requires scope { ScopeSuits symbols.old site.now.scope }
        requires element { EntrySuits symbols.old site.now.left (entry_of element.now) }
        requires found { AreProper symbols.old self.old }
        ensures grown { IfOk result (λ rows. GathersBox (H.holds shelf.old) site.now (entry_of element.now) supply.old (known self.old symbols.old) self.new rows (stock symbols.new supply.new)) }
        ensures many { IsErrOf result BoxRefusal.TooManyBoxes → GathersInVain (H.holds shelf.old) site.now (entry_of element.now) supply.old (known self.old symbols.old) }
        ensures full { IsErrOf result BoxRefusal.SymbolsFull → GathersBy (H.holds shelf.old) (box_asked site.now (entry_of element.now) supply.old) (known self.old symbols.old) Full }
        ensures refused { OnErr result (self.new ≡ self.old) }
        ensures names { OnErr result (symbols.new ≡ symbols.old) }
        ensures supply { OnErr result (supply.new ≡ supply.old) }
        ensures kept { H.holds shelf.new ≡ H.holds shelf.old }
        ensures cause { IsErrOf result BoxRefusal.ShelfFault → Rose (H.faults shelf.old) (H.faults shelf.new) }
        ensures counted { H.faults shelf.old ≤ H.faults shelf.new }
        ensures found { AreProper symbols.new self.new }
        ensures behind { GoesOn self.old self.new }
        ensures extends { Extends symbols.old symbols.new }
    {
        let files = self.files.len();
        let names = symbols.len();
        let gathered = gather_one(
            self.alloc,
            site,
            element,
            &mut self.files,
            supply,
            shelf,
            symbols,
        );
        match gathered {
            Ok(Some(rows)) => Ok(rows),
            Ok(None) => {
                self.forget(files, names, symbols);
                Err(BoxRefusal::TooManyBoxes)
            }
            Err(refusal) => {
                self.forget(files, names, symbols);
                Err(BoxRefusal::from(refusal))
            }
        }
    }

    /// Forgets all files and names but the first ones, as where a box that was gathered can't be put in after all. The files that stay
    /// must name none of the names that go.
    pub fn forget(&mut self, files: usize, names: u32, symbols: &mut Symbols)
        requires { 6 ≤ names }
        ensures files { self.new ≡ take files self.old }
        ensures names { symbols.new ≡ take names symbols.old }
    {
        self.files.cut_back(files);
        symbols.cut_back(names);
    }
}
