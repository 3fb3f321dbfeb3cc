//! The table of the names of symbols.
ghost use Rattle.std.specs.Prelude.{◌≡◌, ◌<◌, ◌≤◌, ◌↔◌, ◌^◌, length, take, slice_get, position, bytes_eq, Some, Err, IfOk, IfSome, OnOk, OnErr};
ghost use Rattle.pd_atom.specs.Names.{IsTable, Extends, first_names, name_of, interned, longest};
ghost use Rattle.pd_atom.specs.declared.SymbolRefusal.TheVariants.{TooLong};

use crate::table::Table;
use crate::{Sym, SymbolRefusal};
use std::alloc::{AllocError, Global};
use std::marker::Model;

/// How many names fit.
const MOST: usize = 65_536;

/// The greatest length of a name.
const LONGEST: usize = 255;

/// A table of names, which contracts see as the list of the names, each a list of bytes.
#[derive(Drop)]
pub struct Symbols {
    table: Table,
}

impl Model for Symbols {
    ghost use Rattle.pd_atom.specs.Names.{Names, IsTable};

    ghost Value = { Names };

    ghost view = { λ s. s.table };

    ghost invariant = { λ s. IsTable s.table };
}

impl Symbols {
    /// The table of `bang`, `float`, `symbol`, `list`, `pd` and `subpatch`, with room for 65,536 names.
    pub fn new(alloc: Global) -> Result<Symbols, AllocError>
        ensures { IfOk result (λ s. s ≡ first_names) }
    {
        let mut table = Table::new(alloc)?;
        table.push(b"bang");
        table.push(b"float");
        table.push(b"symbol");
        table.push(b"list");
        table.push(b"pd");
        table.push(b"subpatch");
        Ok(Symbols { table })
    }

    /// The symbol of a name: a name of the table is found, and a new one goes last.
    pub fn intern(&mut self, name: &[u8]) -> Result<Sym, SymbolRefusal>
        requires { 0 < length name.now }
        ensures answer { result ≡ (interned self.old name.now).answer }
        ensures names { self.new ≡ (interned self.old name.now).names }
        ensures named { IfOk result (λ s. slice_get self.new s ≡ Some name.now) }
        ensures of_table { IfOk result (λ s. s < length self.new) }
        ensures extends { Extends self.old self.new }
        ensures too_long { (result ≡ Err TooLong) ↔ (longest < length name.now) }
        ensures refused { OnErr result (self.new ≡ self.old) }
        ensures table { OnOk result (IsTable self.new) }
    {
        if name.len() > LONGEST {
            return Err(SymbolRefusal::TooLong);
        }
        if let Some(place) = self.table.place(name) {
            return Ok(symbol(place));
        }
        let place = self.table.len();
        if place == MOST {
            return Err(SymbolRefusal::Full);
        }
        self.table.push(name);
        Ok(symbol(place))
    }

    /// The symbol of a name, where the table has it.
    pub fn find(&self, name: &[u8]) -> Option<Sym>
        ensures value { result ≡ position (bytes_eq name.now) self.now }
        ensures of_table { IfSome result (λ s. s < length self.now) }
        ensures named { IfSome result (λ s. slice_get self.now s ≡ Some name.now) }
    {
        match self.table.place(name) {
            Some(place) => Some(symbol(place)),
            None => None,
        }
    }

    /// The name of a symbol of the table.
    pub fn name(&self, s: Sym) -> &[u8]
        requires { s < length self.now }
        ensures value { result.now ≡ name_of self.now s }
        ensures table { IsTable self.now }
    {
        self.table.name(s.number as usize)
    }

    /// How many names there are.
    pub fn len(&self) -> u32
        ensures value { result ≡ length self.now }
        ensures table { IsTable self.now }
    {
        self.table.len() as u32
    }

    /// Keeps the first names, and all where there are no more than `len`.
    pub fn cut_back(&mut self, len: u32)
        requires { 6 ≤ len }
        ensures kept { self.new ≡ take len self.old }
        ensures table { IsTable self.new }
    {
        self.table.truncate(len as usize);
    }
}

/// The symbol at a place.
fn symbol(place: usize) -> Sym
    requires { place < 2 ^ 32 }
    ensures { result ≡ place }
{
    Sym {
        number: place as u32,
    }
}
