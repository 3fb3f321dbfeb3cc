//! What boxes have at present.

ghost use Rattle.std.specs.Prelude.{◌≡◌, ◌++◌, ◌∷◌, [], IfOk, take, option_and_then};
ghost use Rattle.std.specs.Option.{option_copied};
ghost use Rattle.pd_canvas.specs.Arrays.{is_saved as is_saved_text};
ghost use Rattle.pd_kind.specs.Tables.{saved_of, table_of};
ghost use Rattle.pd_present.specs.Contents.{text_kept, text_or, toggled, values_or};

use pd_atom::Atom;
use pd_canvas::{Atoms, Nums};
use pd_kind::State;
use pd_num::Num;
use std::alloc::{AllocError, Global};

/// A number of one unit, in millionths.
const UNIT: u64 = 1_000_000;

/// The text that a message box keeps.
fn text_of(state: &State) -> Option<&[Atom]>
    ensures { option_copied result ≡ text_kept state.now }
{
    match state {
        State::Message { text } => Some(text.as_slice()),
        _ => None,
    }
}

fn kept_text(state: Option<&State>) -> Option<&[Atom]>
    ensures { option_copied result ≡ option_and_then text_kept (option_copied state.entry) }
{
    text_of(state?)
}

fn copied(alloc: Global, atoms: &[Atom]) -> Result<Atoms, AllocError>
    ensures { IfOk result (λ a. a ≡ atoms.now) }
{
    Ok(Atoms::from_vec(Vec::from_slice(alloc, atoms)?))
}

/// The present text of a message box.
pub(crate) fn message_text(
    alloc: Global,
    state: Option<&State>,
    text: &[Atom],
) -> Result<Atoms, AllocError>
    ensures { IfOk result (λ a. a ≡ text_or (option_and_then text_kept (option_copied state.entry)) text.now) }
{
    match kept_text(state) {
        Some(kept) => copied(alloc, kept),
        None => copied(alloc, text),
    }
}

fn saved(state: Option<&State>) -> Option<(Num, Num)>
    ensures { result ≡ option_and_then saved_of (option_copied state.entry) }
{
    state?.saved()
}

/// The present text of an object: that of a toggle has its values.
pub(crate) fn object_text(
    alloc: Global,
    state: Option<&State>,
    text: &[Atom],
) -> Result<Atoms, AllocError>
    ensures { IfOk result (λ a. a ≡ toggled (option_and_then saved_of (option_copied state.entry)) text.now) }
{
    match saved(state) {
        Some((value, other)) => toggle_text(alloc, text, value, other),
        None => copied(alloc, text),
    }
}

fn toggle_text(alloc: Global, text: &[Atom], value: Num, other: Num) -> Result<Atoms, AllocError>
    ensures { IfOk result (λ a. a ≡ take 13 text.now ++ Atom.Number value ∷ Atom.Number other ∷ []) }
{
    let mut atoms = Vec::from_slice(alloc, first_atoms(text))?;
    atoms.push(Atom::Number(value))?;
    atoms.push(Atom::Number(other))?;
    Ok(Atoms::from_vec(atoms))
}

/// The atoms before the values of a toggle.
fn first_atoms(text: &[Atom]) -> &[Atom]
    ensures { result.now ≡ take 13 text.now }
{
    let count = text.len().min(13);
    &text[..count]
}

/// Whether the flags of an array say that its values are saved.
pub(crate) fn is_saved(text: &[Atom]) -> bool
    ensures { result ≡ is_saved_text text.now }
{
    match text {
        [_, _, _, Atom::Number(flags), ..] => flags.micros().unsigned_abs() / UNIT % 2 == 1,
        _ => false,
    }
}

fn kept_values(state: Option<&State>) -> Option<&[Num]>
    ensures { option_copied result ≡ option_and_then table_of (option_copied state.entry) }
{
    state?.table()
}

/// The present values of an array that saves them.
pub(crate) fn array_values(
    alloc: Global,
    state: Option<&State>,
    values: &Nums,
) -> Result<Nums, AllocError>
    ensures { IfOk result (λ v. v ≡ values_or (option_and_then table_of (option_copied state.entry)) values.now) }
{
    match kept_values(state) {
        Some(kept) => Ok(Nums::from_vec(Vec::from_slice(alloc, kept)?)),
        None => values.copy(),
    }
}
