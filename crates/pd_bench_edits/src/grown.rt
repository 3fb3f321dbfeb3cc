//! A patch as it grows from a text, under keys.

ghost use Rattle.std.specs.Prelude.{IfOk};
ghost use Rattle.pd_canvas.specs.Proper.{IsProper};
ghost use Rattle.pd_web.specs.Jacks.{KindsSmall};

use anyhow::{Result, bail, ensure};
use pd_atom::Symbols;
use pd_clock::{Rate, Time};
use pd_doc::Doc;
use pd_grove::Grove;
use pd_growth::{Grown, files_suit, grow, proper_suits};
use pd_library::Files;
use std::alloc::Global;

/// The patch's file name.
const NAME: &[u8] = b"main.pd";

/// The `$0` of the patch.
const FIRST_ZERO: u32 = 1001;

/// The greatest number of bytes of a text that is read.
const MOST: usize = 1 << 30;

/// The document of a text.
fn document(alloc: Global, text: &[u8], symbols: &mut Symbols) -> Result<Doc>
    ensures { IfOk result (λ doc. IsProper symbols.new doc.root) }
{
    ensure!(text.len() <= MOST, "a text of {} bytes", text.len());
    match pd_doc::read(alloc, text, symbols) {
        Ok(doc) => Ok(doc),
        Err(refusal) => bail!("{refusal}"),
    }
}

/// What grows of a document that asks for no file.
fn grown(alloc: Global, doc: &Doc, symbols: &mut Symbols) -> Result<Grove>
    requires { IsProper symbols.old doc.now.root }
    ensures { IfOk result (λ grove. KindsSmall grove) }
{
    proper_suits();
    files_suit();
    let files = Files::new(alloc);
    let Ok(Grown { sheet, rows }) = grow(alloc, &doc.root, NAME, &files, FIRST_ZERO, symbols) else {
        bail!("the patch doesn't grow");
    };
    let count = u32::try_from(doc.root.box_count())?;
    let start = Time::of_units(0);
    Ok(Grove::plant(alloc, sheet, rows, count, Rate::R44100, start)?)
}

/// The boxes of a patch under keys.
pub(crate) fn grove(alloc: Global, text: &str) -> Result<Grove>
    ensures { IfOk result (λ grove. KindsSmall grove) }
{
    let mut symbols = Symbols::new(alloc)?;
    let doc = document(alloc, text.as_bytes(), &mut symbols)?;
    grown(alloc, &doc, &mut symbols)
}
