//! What is known of a file that was fetched.
ghost use Rattle.std.specs.Prelude.{◌≡◌, ◌≤◌, length, Some, None, IfOk, OnErr, IsErrOf};
ghost use Rattle.pd_io.specs.declared.shelves.TheConstants.{MAX_FILE};
ghost use Rattle.pd_atom.specs.Names.{IsTable, Extends};
ghost use Rattle.pd_doc.specs.Reading.{document_of};
ghost use Rattle.pd_gather.specs.Fetching.{IsHandedOut, number_of as record_of, answer_read, answer_given};
ghost use Rattle.pd_gather.specs.Gather.{IsProperAnswer};

use crate::fetching::Fetch;
use crate::refusal::GatherRefusal;
use pd_atom::Symbols;
use pd_doc::{DocRefusal, read};
use pd_library::Answer;
use std::alloc::Global;

/// The record that is refused.
fn number_of(refusal: DocRefusal) -> u32
    ensures { result ≡ record_of refusal }
{
    match refusal {
        DocRefusal::BadRecord { number } => number,
        DocRefusal::DataStructure { number } => number,
        DocRefusal::TooDeep { number } => number,
        DocRefusal::TooLong { number } => number,
        DocRefusal::TooManyBoxes { number } => number,
        DocRefusal::TooManyWires { number } => number,
        DocRefusal::SymbolsFull { number } => number,
        DocRefusal::NoMemory => 0,
    }
}

/// What is known of a file with these bytes.
fn read_answer(alloc: Global, bytes: &[u8], symbols: &mut Symbols) -> Result<Answer, GatherRefusal>
    requires limit { length bytes.now ≤ MAX_FILE }
    requires table { IsTable symbols.old }
    ensures exact { IfOk result (λ a. answer_read symbols.old (document_of symbols.old bytes.now) ≡ Some (a, symbols.new)) }
    ensures full { IsErrOf result GatherRefusal.SymbolsFull → answer_read symbols.old (document_of symbols.old bytes.now) ≡ None }
    ensures shelf { ¬ (IsErrOf result GatherRefusal.ShelfFault) }
    ensures proper { IfOk result (λ a. IsProperAnswer symbols.new a) }
    ensures table { IsTable symbols.new }
    ensures extends { Extends symbols.old symbols.new }
    ensures refused { OnErr result (symbols.new ≡ symbols.old) }
{
    match read(alloc, bytes, symbols) {
        Ok(doc) => Ok(Answer::Found(doc)),
        Err(DocRefusal::SymbolsFull { .. }) => Err(GatherRefusal::SymbolsFull),
        Err(DocRefusal::NoMemory) => Err(GatherRefusal::NoMemory),
        Err(refusal) => Ok(Answer::Bad {
            number: number_of(refusal),
        }),
    }
}

/// What is known of a file that was fetched so. A document that is found brings its names.
pub fn answer(alloc: Global, fetch: Fetch, symbols: &mut Symbols) -> Result<Answer, GatherRefusal>
    requires limit { IsHandedOut fetch }
    requires table { IsTable symbols.old }
    ensures exact { IfOk result (λ a. answer_given symbols.old fetch ≡ Some (a, symbols.new)) }
    ensures full { IsErrOf result GatherRefusal.SymbolsFull → answer_given symbols.old fetch ≡ None }
    ensures shelf { ¬ (IsErrOf result GatherRefusal.ShelfFault) }
    ensures proper { IfOk result (λ a. IsProperAnswer symbols.new a) }
    ensures table { IsTable symbols.new }
    ensures extends { Extends symbols.old symbols.new }
    ensures refused { OnErr result (symbols.new ≡ symbols.old) }
{
    match fetch {
        Fetch::Absent => Ok(Answer::Absent),
        Fetch::TooLong => Ok(Answer::Bad { number: 0 }),
        Fetch::Found(bytes) => read_answer(alloc, bytes.as_slice(), symbols),
    }
}
