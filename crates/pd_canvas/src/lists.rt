//! The lists that a document is made of.

ghost use Rattle.std.specs.Prelude.{◌≡◌, ◌==◌, [], ◌∷◌, ◌++◌, length, OnOk, OnErr, IfOk};

use pd_atom::Atom;
use pd_num::Num;
use std::alloc::{AllocError, Global};
use std::marker::Model;

/// A list of atoms.
#[derive(Debug, Drop)]
pub struct Atoms {
    items: Vec<Atom>,
}

impl Model for Atoms {
    ghost use Rattle.std.specs.Prelude.{List};
    ghost use Rattle.pd_atom.specs.declared.Atom.{Atom};

    ghost Value = { List Atom };

    ghost view = { λ a. a.items.items };
}

impl Atoms {
    pub fn new(alloc: Global) -> Atoms
        ensures { result ≡ [] }
    {
        Atoms {
            items: Vec::new(alloc),
        }
    }

    pub fn from_vec(items: Vec<Atom>) -> Atoms
        ensures { result ≡ items.items }
    {
        Atoms { items }
    }

    pub fn into_vec(self) -> Vec<Atom>
        ensures { result.items ≡ self }
    {
        self.items
    }

    pub fn as_slice(&self) -> &[Atom]
        ensures { result.now ≡ self.now }
    {
        self.items.as_slice()
    }

    pub fn len(&self) -> usize
        ensures { result ≡ length self.now }
    {
        self.items.len()
    }

    pub fn is_empty(&self) -> bool
        ensures { result ≡ (length self.now == 0) }
    {
        self.items.is_empty()
    }

    pub fn push(&mut self, atom: Atom) -> Result<(), AllocError>
        ensures ok { OnOk result (self.new ≡ self.old ++ atom ∷ []) }
        ensures err { OnErr result (self.new ≡ self.old) }
    {
        self.items.push(atom)?;
        Ok(())
    }

    pub fn copy(&self) -> Result<Atoms, AllocError>
        ensures { IfOk result (λ c. c ≡ self.now) }
    {
        let items = Vec::from_slice(*self.items.allocator(), self.items.as_slice())?;
        Ok(Atoms { items })
    }

    /// The allocator that the list keeps.
    pub(crate) fn alloc(&self) -> Global {
        *self.items.allocator()
    }
}

fn copy_rows(alloc: Global, rows: &[Atoms]) -> Result<Vec<Atoms>, AllocError>
    ensures { IfOk result (λ v. v.items ≡ rows.now) }
{
    let mut copies = Vec::with_capacity(alloc, rows.len())?;
    for row in rows {
        copies.push(row.copy()?)?;
    }
    Ok(copies)
}

/// Rows of atoms.
#[derive(Debug, Drop)]
pub struct AtomRows {
    items: Vec<Atoms>,
}

impl Model for AtomRows {
    ghost use Rattle.std.specs.Prelude.{List};
    ghost use Rattle.pd_atom.specs.declared.Atom.{Atom};

    ghost Value = { List (List Atom) };

    ghost view = { λ a. a.items.items };
}

impl AtomRows {
    pub fn new(alloc: Global) -> AtomRows
        ensures { result ≡ [] }
    {
        AtomRows {
            items: Vec::new(alloc),
        }
    }

    pub fn from_vec(items: Vec<Atoms>) -> AtomRows
        ensures { result ≡ items.items }
    {
        AtomRows { items }
    }

    pub fn into_vec(self) -> Vec<Atoms>
        ensures { result.items ≡ self }
    {
        self.items
    }

    pub fn as_slice(&self) -> &[Atoms]
        ensures { result.now ≡ self.now }
    {
        self.items.as_slice()
    }

    pub fn len(&self) -> usize
        ensures { result ≡ length self.now }
    {
        self.items.len()
    }

    pub fn is_empty(&self) -> bool
        ensures { result ≡ (length self.now == 0) }
    {
        self.items.is_empty()
    }

    pub fn push(&mut self, row: Atoms) -> Result<(), AllocError>
        ensures ok { OnOk result (self.new ≡ self.old ++ row ∷ []) }
        ensures err { OnErr result (self.new ≡ self.old) }
    {
        self.items.push(row)?;
        Ok(())
    }

    pub fn copy(&self) -> Result<AtomRows, AllocError>
        ensures { IfOk result (λ c. c ≡ self.now) }
    {
        let items = copy_rows(*self.items.allocator(), self.items.as_slice())?;
        Ok(AtomRows { items })
    }
}

/// A list of numbers in millionths, as the values of an array.
#[derive(Debug, Drop)]
pub struct Nums {
    items: Vec<Num>,
}

impl Model for Nums {
    ghost use Rattle.std.specs.Prelude.{List, ℤ};

    ghost Value = { List ℤ };

    ghost view = { λ a. a.items.items };
}

impl Nums {
    pub fn new(alloc: Global) -> Nums
        ensures { result ≡ [] }
    {
        Nums {
            items: Vec::new(alloc),
        }
    }

    pub fn from_vec(items: Vec<Num>) -> Nums
        ensures { result ≡ items.items }
    {
        Nums { items }
    }

    pub fn into_vec(self) -> Vec<Num>
        ensures { result.items ≡ self }
    {
        self.items
    }

    pub fn as_slice(&self) -> &[Num]
        ensures { result.now ≡ self.now }
    {
        self.items.as_slice()
    }

    pub fn len(&self) -> usize
        ensures { result ≡ length self.now }
    {
        self.items.len()
    }

    pub fn is_empty(&self) -> bool
        ensures { result ≡ (length self.now == 0) }
    {
        self.items.is_empty()
    }

    pub fn push(&mut self, num: Num) -> Result<(), AllocError>
        ensures ok { OnOk result (self.new ≡ self.old ++ num ∷ []) }
        ensures err { OnErr result (self.new ≡ self.old) }
    {
        self.items.push(num)?;
        Ok(())
    }

    pub fn copy(&self) -> Result<Nums, AllocError>
        ensures { IfOk result (λ c. c ≡ self.now) }
    {
        let items = Vec::from_slice(*self.items.allocator(), self.items.as_slice())?;
        Ok(Nums { items })
    }
}

/// A list of whole numbers, as a path of box numbers.
#[derive(Debug, Drop)]
pub struct Numbers {
    items: Vec<u32>,
}

impl Model for Numbers {
    ghost use Rattle.std.specs.Prelude.{List, ℕ};

    ghost Value = { List ℕ };

    ghost view = { λ a. a.items.items };
}

impl Numbers {
    pub fn new(alloc: Global) -> Numbers
        ensures { result ≡ [] }
    {
        Numbers {
            items: Vec::new(alloc),
        }
    }

    pub fn from_vec(items: Vec<u32>) -> Numbers
        ensures { result ≡ items.items }
    {
        Numbers { items }
    }

    pub fn into_vec(self) -> Vec<u32>
        ensures { result.items ≡ self }
    {
        self.items
    }

    pub fn as_slice(&self) -> &[u32]
        ensures { result.now ≡ self.now }
    {
        self.items.as_slice()
    }

    pub fn len(&self) -> usize
        ensures { result ≡ length self.now }
    {
        self.items.len()
    }

    pub fn is_empty(&self) -> bool
        ensures { result ≡ (length self.now == 0) }
    {
        self.items.is_empty()
    }

    pub fn push(&mut self, number: u32) -> Result<(), AllocError>
        ensures ok { OnOk result (self.new ≡ self.old ++ number ∷ []) }
        ensures err { OnErr result (self.new ≡ self.old) }
    {
        self.items.push(number)?;
        Ok(())
    }

    pub fn copy(&self) -> Result<Numbers, AllocError>
        ensures { IfOk result (λ c. c ≡ self.now) }
    {
        let items = Vec::from_slice(*self.items.allocator(), self.items.as_slice())?;
        Ok(Numbers { items })
    }
}
