//! Files as the shelf gives them.
ghost use Rattle.std.specs.Prelude.{◌≡◌, ◌≤◌, IfOk, IfSome, IsErrOf};
ghost use Rattle.pd_io.specs.Faults.{Rose};
ghost use Rattle.pd_io.specs.Rows.{held_at};
ghost use Rattle.pd_atom.specs.Names.{IsTable, name_of};
ghost use Rattle.pd_gather.specs.Fetching.{file_of, given, IsHandedOut};

use crate::refusal::GatherRefusal;
use pd_atom::{Sym, Symbols};
use pd_io::{Bytes, Fetched, Shelf};
use std::alloc::{AllocError, Global};

/// What the shelf gives for a file.
#[derive(Debug, Drop)]
pub enum Fetch {
    /// There is no such file.
    Absent,
    /// The file has more bytes than a shelf hands out.
    TooLong,
    /// Its bytes.
    Found(Bytes),
}

/// The name of a symbol, which is empty where it isn't of the table.
fn spelling(name: Sym, symbols: &Symbols) -> &[u8]
    ensures name { result.now ≡ name_of symbols.now name }
    ensures table { IsTable symbols.now }
{
    if name.number() < symbols.len() {
        symbols.name(name)
    } else {
        &[]
    }
}

/// The name of an abstraction's file.
fn file_name(alloc: Global, name: &[u8]) -> Result<Vec<u8>, AllocError>
    ensures { IfOk result (λ file. file.items ≡ file_of name.now) }
{
    let mut file = Vec::from_slice(alloc, name)?;
    file.extend_from_slice(b".pd")?;
    Ok(file)
}

/// What the shelf gives for a file.
fn fetch_file<H: Shelf>(alloc: Global, file: &[u8], shelf: &mut H) -> Result<Fetch, GatherRefusal>
    ensures held { IfSome (H.holds shelf.old) (λ rows. IfOk result (λ fetch. fetch ≡ given (held_at file.now rows))) }
    ensures limit { IfOk result IsHandedOut }
    ensures kept { H.holds shelf.new ≡ H.holds shelf.old }
    ensures cause { IsErrOf result GatherRefusal.ShelfFault → Rose (H.faults shelf.old) (H.faults shelf.new) }
    ensures counted { H.faults shelf.old ≤ H.faults shelf.new }
    ensures full { ¬ (IsErrOf result GatherRefusal.SymbolsFull) }
{
    let mut bytes = Vec::new(alloc);
    match shelf.fetch(file, &mut bytes) {
        Ok(Fetched::Absent) => Ok(Fetch::Absent),
        Ok(Fetched::TooLong) => Ok(Fetch::TooLong),
        Ok(Fetched::Found) => Ok(Fetch::Found(Bytes::from_vec(bytes))),
        Err(error) => Err(GatherRefusal::from(error)),
    }
}

/// What the shelf gives for the file of an abstraction.
pub fn fetch_by_name<H: Shelf>(
    alloc: Global,
    name: Sym,
    shelf: &mut H,
    symbols: &Symbols,
) -> Result<Fetch, GatherRefusal>
    ensures held { IfSome (H.holds shelf.old) (λ rows. IfOk result (λ fetch. fetch ≡ given (held_at (file_of (name_of symbols.now name)) rows))) }
    ensures limit { IfOk result IsHandedOut }
    ensures kept { H.holds shelf.new ≡ H.holds shelf.old }
    ensures cause { IsErrOf result GatherRefusal.ShelfFault → Rose (H.faults shelf.old) (H.faults shelf.new) }
    ensures counted { H.faults shelf.old ≤ H.faults shelf.new }
    ensures full { ¬ (IsErrOf result GatherRefusal.SymbolsFull) }
    ensures table { IsTable symbols.now }
{
    let file = file_name(alloc, spelling(name, symbols))?;
    fetch_file(alloc, file.as_slice(), shelf)
}
