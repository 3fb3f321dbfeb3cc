//! Laws over reading and writing.

ghost use Rattle.std.specs.Prelude.{◌≡◌, ℕ, List, Ok};
ghost use Rattle.pd_atom.specs.Names.{Names, IsTable, Extends};
ghost use Rattle.pd_canvas.specs.Pages.{Page};
ghost use Rattle.pd_canvas.specs.Proper.{IsProper};
ghost use Rattle.pd_doc.specs.Atoms.{PageOf};
ghost use Rattle.pd_doc.specs.Reading.{document_of};
ghost use Rattle.pd_doc.specs.Writing.{text_of};

/// Reading the text of a proper document gives the document, and leaves the table.
pub fn written_read()
    ensures { (names : Names) (p : Page) → IsTable names → IsProper names p → document_of names (text_of names p) ≡ Ok (p, names) }
{
    pd_num::printed_again();
    pd_lex::one_reading();
    pd_lex::escapes_read();
    pd_atom::spellings_read();
    pd_atom::settled_laws();
}

/// The document that a text of any table gives is proper in the table after it, which is a table.
pub fn read_proper()
    ensures proper { (names names' : Names) (p : Page) (text : List ℕ) → IsTable names → document_of names text ≡ Ok (p, names') →
        IsProper names' p }
    ensures table { (names names' : Names) (p : Page) (text : List ℕ) → IsTable names → document_of names text ≡ Ok (p, names') →
        IsTable names' }
{}

/// The atoms of a proper document are of the table.
pub fn proper_pages()
    ensures { (names : Names) (p : Page) → IsProper names p → PageOf names p }
{}

/// Where a table goes on, documents that are proper in it stay so.
pub fn proper_extended()
    ensures { (old new : Names) (p : Page) → Extends old new → IsTable old → IsTable new → IsProper old p → IsProper new p }
{}

/// Reading, writing and reading again gives the same document and the same table.
pub fn read_again()
    ensures { (names names' : Names) (p : Page) (text : List ℕ) → IsTable names → document_of names text ≡ Ok (p, names') →
        document_of names' (text_of names' p) ≡ Ok (p, names') }
{
    read_proper();
    written_read();
}
