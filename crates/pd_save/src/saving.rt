//! The text of the running patch's document, put on a shelf.

ghost use Rattle.std.specs.Prelude.{◌≡◌, ◌≤◌, OnOk, IsErrOf};
ghost use Rattle.pd_io.specs.Faults.{Rose};
ghost use Rattle.pd_io.specs.Rows.{stored, KeptOrUntold};
ghost use Rattle.pd_doc.specs.Writing.{text_of};
ghost use Rattle.pd_patch.specs.Document.{present_document};

use crate::pages::is_of;
use pd_atom::Symbols;
use pd_doc::write;
use pd_io::{Shelf, ShelfError};
use pd_patch::Patch;
use std::alloc::Global;

/// Puts the text of the running patch's document under a name, in place of what was there.
///
/// # Errors
///
/// `Failed` where the shelf failed, and `NoMemory`.
pub fn put_document<H: Shelf>(
    alloc: Global,
    patch: &Patch,
    symbols: &Symbols,
    name: &[u8],
    shelf: &mut H,
) -> Result<(), ShelfError>
    ensures put { OnOk result (H.holds shelf.new ≡ stored name.now (text_of symbols.now (present_document patch.now)) (H.holds shelf.old)) }
    ensures failed { IsErrOf result ShelfError.Failed → KeptOrUntold (H.holds shelf.old) (H.holds shelf.new) }
    ensures none { IsErrOf result ShelfError.NoMemory → H.holds shelf.new ≡ H.holds shelf.old }
    ensures cause { IsErrOf result ShelfError.Failed → Rose (H.faults shelf.old) (H.faults shelf.new) }
    ensures counted { H.faults shelf.old ≤ H.faults shelf.new }
{
    let doc = patch.document(alloc)?;
    // Never seen: the patch's texts are of its table of names.
    if !is_of(&doc, symbols) {
        return Err(ShelfError::NoMemory);
    }
    let mut text = Vec::new(alloc);
    write(&doc, symbols, &mut text)?;
    shelf.put(name, text.as_slice())
}
