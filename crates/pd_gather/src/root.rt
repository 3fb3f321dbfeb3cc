//! The root of a patch's own document, as it begins to grow.
ghost use Rattle.std.specs.Prelude.{◌≡◌, ◌≤◌, length, IfOk, IsErrOf};
ghost use Rattle.pd_atom.specs.Names.{Names, Extends};
ghost use Rattle.pd_canvas.specs.Pages.{Entry, elements_of, weight};
ghost use Rattle.pd_canvas.specs.Views.{entries_of};
ghost use Rattle.pd_growth.specs.declared.growing.Stop.TheVariants.{SymbolsFull};
ghost use Rattle.pd_growth.specs.declared.supply.Supply.{Supply};
ghost use Rattle.pd_growth.specs.Steps.{Stock, gives, ends, with_names, brought};
ghost use Rattle.pd_growth.specs.Growth.{receiver_bytes, without_ending as name_without_ending};
ghost use Rattle.pd_growth.specs.Growing.{ScopeSuits};
ghost use Rattle.pd_gather.specs.Gather.{Known};
ghost use Rattle.pd_gather.specs.Boxes.{box_growth, root_box_growth};

use crate::boxes::Site;
use crate::refusal::GatherRefusal;
use pd_atom::Symbols;
use pd_canvas::{Canvas, Element};
use pd_growth::Scope;
use std::alloc::{AllocError, Global};

/// The `$0` of the patch.
pub const FIRST_ZERO: u32 = 1001;

/// How many canvases may lie in one another inside the root.
const LEVELS: u32 = 255;

/// The longest name.
const LONGEST: usize = 255;

/// A file's name without `.pd` at its end.
fn without_ending(name: &[u8]) -> &[u8]
    ensures { result.now ≡ name_without_ending name.now }
{
    let cut = name.len().saturating_sub(3);
    if &name[cut..] == b".pd".as_slice() {
        &name[..cut]
    } else {
        name
    }
}

/// Where the boxes of the root grow.
#[tactic(auto, unfolding(crate::specs::Boxes::box_growth))]
pub fn root_site(name: &[u8]) -> Site<'_>
    ensures grows { (e : Entry) (supply : Supply) (k : Known) → box_growth result e supply k ≡ root_box_growth name.now e supply k }
    ensures left { result.left ≡ 255 }
    ensures suits { (names : Names) → ScopeSuits names result.scope }
{
    Site {
        root: without_ending(name),
        scope: Scope {
            zero: FIRST_ZERO,
            arguments: &[],
            inside: &[],
            is_top: true,
        },
        left: LEVELS,
    }
}

/// The boxes of the root.
pub fn elements(canvas: &Canvas) -> &[Element]
    ensures elements { entries_of result.now ≡ elements_of canvas.now }
    ensures few { length result.now ≤ weight canvas.now.boxes }
{
    canvas.boxes.as_slice()
}

/// The name of the patch's receiver.
fn receiver(alloc: Global, name: &[u8]) -> Result<Vec<u8>, AllocError>
    ensures { IfOk result (λ bytes. bytes.items ≡ receiver_bytes name.now) }
{
    let mut bytes = Vec::from_slice(alloc, b"pd-")?;
    bytes.extend_from_slice(name)?;
    Ok(bytes)
}

/// Brings the name of the patch's receiver, but for one that is too long, which is bound to nothing.
pub fn bring_receiver(
    alloc: Global,
    name: &[u8],
    symbols: &mut Symbols,
) -> Result<(), GatherRefusal>
    ensures brought { IfOk result (λ _. (w : Stock) → brought (receiver_bytes name.now) (with_names symbols.old w) ≡ gives tt (with_names symbols.new w)) }
    ensures full { IsErrOf result GatherRefusal.SymbolsFull → (w : Stock) → brought (receiver_bytes name.now) (with_names symbols.old w) ≡ ends SymbolsFull (with_names symbols.new w) }
    ensures shelf { ¬ (IsErrOf result GatherRefusal.ShelfFault) }
    ensures extends { Extends symbols.old symbols.new }
{
    let bytes = receiver(alloc, name)?;
    if bytes.len() > LONGEST {
        return Ok(());
    }
    match symbols.intern(bytes.as_slice()) {
        Ok(_) => Ok(()),
        Err(_) => Err(GatherRefusal::SymbolsFull),
    }
}
