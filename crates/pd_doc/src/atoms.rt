//! The atoms of tokens.

ghost use Rattle.std.specs.Prelude.{◌≡◌, map};
ghost use Rattle.pd_atom.specs.Names.{Extends};
ghost use Rattle.pd_doc.specs.Pieces.{piece};
ghost use Rattle.pd_doc.specs.Results.{Answers, refusal_of};
ghost use Rattle.pd_doc.specs.Fields.{atom_of, atoms_of};

use crate::lexemes::{Lexeme, unescape_lexeme};
use crate::refusal::DocRefusal;
use arrayvec::ArrayVec;
use pd_atom::{Atom, SymbolRefusal, Symbols, read_token};
use pd_canvas::Atoms;
use std::alloc::Global;

/// The refusal of a name in a record.
pub(crate) fn name_refusal(refusal: SymbolRefusal, number: u32) -> DocRefusal
    ensures { result ≡ refusal_of number refusal }
{
    match refusal {
        SymbolRefusal::TooLong => DocRefusal::TooLong { number },
        SymbolRefusal::Full => DocRefusal::SymbolsFull { number },
    }
}

/// The atom of a token.
#[tactic(auto, unfolding(crate::specs::Fields::atom_of), using(crate::proofs::ResultLemmas::result_steps))]
fn atom(lexeme: Lexeme<'_>, number: u32, symbols: &mut Symbols) -> Result<Atom, DocRefusal>
    ensures exact { Answers (λ a. (a, symbols.new)) result (atom_of number symbols.old (piece lexeme.entry)) }
    ensures extends { Extends symbols.old symbols.new }
{
    let mut bytes = ArrayVec::new();
    if !unescape_lexeme(lexeme, &mut bytes) {
        return Err(DocRefusal::TooLong { number });
    }
    if bytes.is_empty() {
        return Err(DocRefusal::BadRecord { number });
    }
    match read_token(symbols, bytes.as_slice()) {
        Ok(atom) => Ok(atom),
        Err(refusal) => Err(name_refusal(refusal, number)),
    }
}

/// The atoms of tokens.
pub(crate) fn atoms(
    alloc: Global,
    lexemes: &[Lexeme<'_>],
    number: u32,
    symbols: &mut Symbols,
) -> Result<Atoms, DocRefusal>
    ensures exact { Answers (λ a. (a, symbols.new)) result (atoms_of number symbols.old (map piece lexemes.now)) }
    ensures extends { Extends symbols.old symbols.new }
{
    let mut atoms = Vec::with_capacity(alloc, lexemes.len())?;
    for lexeme in lexemes {
        atoms.push(atom(*lexeme, number, symbols)?)?;
    }
    Ok(Atoms::from_vec(atoms))
}
