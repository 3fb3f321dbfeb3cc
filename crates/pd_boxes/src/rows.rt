//! Lists by key: the numbers of boxes in their canvases, and the blocks of their outlets.

ghost use Rattle.std.specs.Prelude.{◌≡◌, ◌<◌, ◌≤◌, ◌+◌, ◌^◌, ℕ, [], Some, length, map, replicate, slice_get, IfOk, OnOk};
ghost use Rattle.pd_kind.specs.States.{silent_block};
ghost use Rattle.pd_web.specs.Canvases.{keys_at};
ghost use Rattle.pd_patch.specs.Numbers.{AreApart};
ghost use Rattle.pd_boxes.specs.Rows.{IsLonger, NumbersFrom, PutsUnder};

use crate::room::Place;
use pd_grove::Grove;
use pd_num::Sig;
use std::alloc::{AllocError, Global};

/// The blocks of the outlets of a box.
pub type Blocks = Vec<[Sig; 64]>;

/// Makes the list of numbers so long that it has a place for each key below an end.
///
/// # Errors
///
/// `AllocError` where memory ran out.
pub fn reach_numbers(numbers: &mut Vec<u32>, end: u32) -> Result<(), AllocError>
    ensures longer { IsLonger 0 numbers.old.items numbers.new.items }
    ensures reach { OnOk result (end ≤ length numbers.new.items) }
{
    let end = end as usize;
    if numbers.len() < end {
        numbers.resize(end, 0)?;
    }
    Ok(())
}

/// Makes the list of blocks so long that it has a place for each key below an end. Where memory runs out, it may have become longer.
///
/// # Errors
///
/// `AllocError` where memory ran out.
pub fn reach_values(alloc: Global, values: &mut Vec<Blocks>, end: u32) -> Result<(), AllocError>
    ensures longer { IsLonger [] (map (λ b. b.items) values.old.items) (map (λ b. b.items) values.new.items) }
    ensures reach { OnOk result (end ≤ length values.new.items) }
{
    let missing = (end as usize).saturating_sub(values.len());
    for _ in 0..missing {
        values.push(Vec::new(alloc))?;
    }
    Ok(())
}

/// So many blocks of 0, for the outlets of a box that comes.
///
/// # Errors
///
/// `AllocError` where memory ran out.
#[tactic(auto, unfolding(pd_kind::specs::States::silent_block))]
pub fn silent_blocks(alloc: Global, count: u32) -> Result<Blocks, AllocError>
    ensures { IfOk result (λ blocks. blocks.items ≡ replicate count silent_block) }
{
    let mut blocks = Vec::with_capacity(alloc, count as usize)?;
    for _ in 0..count {
        blocks.push([Sig::default(); 64])?;
    }
    Ok(blocks)
}

/// Gives the boxes of a canvas from a number on their numbers.
pub fn number_boxes(numbers: &mut Vec<u32>, grove: &Grove, place: Place)
    requires apart { AreApart (keys_at grove.now place.canvas) }
    requires few { length (keys_at grove.now place.canvas) < 2 ^ 32 }
    requires reach { (i k : ℕ) → slice_get (keys_at grove.now place.canvas) i ≡ Some k → k < length numbers.old.items }
    ensures { NumbersFrom numbers.old.items numbers.new.items (keys_at grove.now place.canvas) place.number }
{
    if let Some(board) = grove.board(place.canvas) {
        number_from(numbers, board.nodes.as_slice(), place.number as usize);
    }
}

/// Puts the number of each box of a list from one on under its key.
fn number_from(numbers: &mut Vec<u32>, keys: &[u32], number: usize)
    requires apart { AreApart keys.now }
    requires few { length keys.now < 2 ^ 32 }
    requires reach { (i k : ℕ) → slice_get keys.now i ≡ Some k → k < length numbers.old.items }
    ensures { NumbersFrom numbers.old.items numbers.new.items keys.now number }
{
    for i in number..keys.len() {
        put_number(numbers, keys[i], i as u32);
    }
}

/// Puts a number under a key.
fn put_number(numbers: &mut Vec<u32>, key: u32, number: u32)
    requires { key < length numbers.old.items }
    ensures put { PutsUnder numbers.old.items numbers.new.items key number }
    ensures len { length numbers.new.items ≡ length numbers.old.items }
{
    numbers[key as usize] = number;
}

/// Puts the blocks of a box under its key.
pub fn put_blocks(values: &mut Vec<Blocks>, key: u32, blocks: Blocks)
    requires { key < length values.old.items }
    ensures { PutsUnder (map (λ b. b.items) values.old.items) (map (λ b. b.items) values.new.items) key blocks.items }
{
    values[key as usize] = blocks;
}
